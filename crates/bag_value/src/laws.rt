//! Laws of values, and of what lists of atoms say of them, each the contract of a function that
//! does nothing.

ghost use Rattle.std.specs.Prelude.{◌≡◌};
ghost use Rattle.bag_model.specs.Shapes.{Shape};
ghost use Rattle.bag_model.specs.Values.{Value, IsOfShape};
ghost use Rattle.bag_model.specs.Joins.{Alike, IsValueBelow, join};
ghost use Rattle.bag_model.specs.JoinUnions.{JoinsAreUnions, BottomSaysNothing};
ghost use Rattle.bag_model.specs.MergeReadings.{MergesReadAsJoins};
ghost use Rattle.bag_model.specs.Encodings.{EncodingsReadBack};
ghost use Rattle.bag_model.specs.Typed.{TypedListsSay, TypedWhereNoneMisspells};
ghost use Rattle.bag_model.specs.NormalFormLaws.{NormalFormKeeps};
ghost use Rattle.bag_model.specs.GoneData.{GoneDataLeaveHeaders};
ghost use Rattle.bag_model.specs.SlotValues.{SlotsReadApart, OnlyFits};

/// Two values of one shape can be joined, and their join is of the shape.
pub fn values_of_one_shape_are_joined()
    ensures alike { (shape : Shape) (v w : Value) → IsOfShape shape v → IsOfShape shape w
        → Alike v w }
    ensures joined { (shape : Shape) (v w : Value) → IsOfShape shape v → IsOfShape shape w
        → IsOfShape shape (join v w) }
{}

/// The join of two values holds what both hold: a taint is on where one is, of two scalars the
/// least or the greatest stays, sets have the scalars of both, counters the writers of both with
/// the greater count, maps the keys of both with joined values, and bags the join at each field.
pub fn joins_are_unions()
    ensures { JoinsAreUnions }
{}

/// Of values of one shape, one says no more than another: in an order in which their join is the
/// least that says both.
pub fn joins_are_least()
    ensures itself { (shape : Shape) (v : Value) → IsOfShape shape v → IsValueBelow v v }
    ensures onwards { (shape : Shape) (u v w : Value) → IsOfShape shape u → IsOfShape shape v
        → IsOfShape shape w
        → IsValueBelow u v → IsValueBelow v w → IsValueBelow u w }
    ensures both_ways { (shape : Shape) (v w : Value) → IsOfShape shape v → IsOfShape shape w
        → IsValueBelow v w → IsValueBelow w v → v ≡ w }
    ensures first { (shape : Shape) (v w : Value) → IsOfShape shape v → IsOfShape shape w
        → IsValueBelow v (join v w) }
    ensures second { (shape : Shape) (v w : Value) → IsOfShape shape v → IsOfShape shape w
        → IsValueBelow w (join v w) }
    ensures least { (shape : Shape) (u v w : Value) → IsOfShape shape u → IsOfShape shape v
        → IsOfShape shape w
        → IsValueBelow u w → IsValueBelow v w → IsValueBelow (join u v) w }
{}

/// Bottom says nothing, and is the only value of its shape that says nothing.
pub fn bottom_says_nothing()
    ensures { BottomSaysNothing }
{}

/// What is read of a merge is the join of what is read of its parts: a merge of typed lists is
/// typed, and says the join of what the lists say; a list says one value alone.
pub fn merges_read_as_joins()
    ensures { MergesReadAsJoins }
{}

/// What is read of an encoding is the value that was encoded, and a value has one encoding.
pub fn encodings_read_back()
    ensures { EncodingsReadBack }
{}

/// A list is typed exactly where no path of it misspells.
pub fn typed_where_none_misspells()
    ensures { TypedWhereNoneMisspells }
{}

/// A typed list says a value.
pub fn typed_lists_say()
    ensures { TypedListsSay }
{}

/// Normal form is well formed and typed, says the same, has the same ended slots and the same
/// foreign paths, and a marker exactly where the list has one; twice is once, and a list has one
/// normal form.
pub fn normal_form_keeps()
    ensures { NormalFormKeeps }
{}

/// A datum that normal form takes away is under the header of its slot. The header stays, and is
/// beyond each slot that the datum is beyond: so no slot that was ended is open without the datum.
pub fn gone_data_leave_headers()
    ensures { GoneDataLeaveHeaders }
{}

/// What a list says of a table it says slot by slot, and back.
pub fn slots_read_apart()
    ensures { SlotsReadApart }
{}

/// A value of a slot's shape, with bottom at all other slots, makes values of the table's shapes.
pub fn writes_fit()
    ensures { OnlyFits }
{}

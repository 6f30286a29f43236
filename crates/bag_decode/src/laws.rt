//! A law of what is read, the contract of a function that does nothing.

ghost use Rattle.std.specs.Prelude.{ℕ, List, []};
ghost use Rattle.context_model.specs.Atoms.{Atom};
ghost use Rattle.bag_model.specs.Readings.{PathsOf, Reads};
ghost use Rattle.bag_model.specs.Shapes as shapes;
ghost use Rattle.bag_model.specs.Shapes.{Nodes};
ghost use Rattle.bag_model.specs.Slots.{SlotAt};
ghost use Rattle.bag_model.specs.SlotValues.{HasSlot};
ghost use Rattle.bag_model.specs.Values.{Value, IsOfShape};
ghost use Rattle.bag_decode.specs.Slots.{SaysAt};

/// What a list says of a table is a value of the table's bag, and what it says of a slot is a value
/// of the slot's shape.
pub fn what_is_read_is_of_its_shape()
    ensures bags { (nodes : Nodes) (list : List Atom) (v : Value)
        → Reads (shapes.Shape.Bag nodes) (PathsOf list) [] v
        → IsOfShape (shapes.Shape.Bag nodes) v }
    ensures slots { (nodes : Nodes) (list : List Atom) (slot : ℕ) (at : SlotAt) (v : Value)
        → SaysAt nodes list slot v
        → HasSlot nodes slot at → IsOfShape at.shape v }
{}

//! Laws of readings and encodings, each the contract of a function that does nothing.

ghost use Rattle.std.specs.Prelude.{ℕ, List, []};
ghost use Rattle.context_model.specs.Atoms.{Atom, AreAtoms};
ghost use Rattle.bag_decode.specs.Slots.{SaysAt};
ghost use Rattle.bag_encode.specs.Encoding.{bag_values};
ghost use Rattle.bag_model.specs.Encodings.{FitsAtoms};
ghost use Rattle.bag_model.specs.Readings.{PathsOf, Reads};
ghost use Rattle.bag_model.specs.Shapes as shapes;
ghost use Rattle.bag_model.specs.Shapes.{Nodes};
ghost use Rattle.bag_model.specs.SlotValues.{only};
ghost use Rattle.bag_model.specs.Values.{Value};
ghost use Rattle.bag_codec.specs.Laws.{ForeignIsUnread};

/// What the table doesn't name is never read, and no encoding has anything of it.
pub fn foreign_paths_are_unread()
    ensures { ForeignIsUnread }
{}

/// What a list of atoms says fits atoms again: the value of the whole bag, and that of a slot with
/// bottom at all others.
pub fn what_is_read_fits_atoms()
    ensures bags { (nodes : Nodes) (list : List Atom) (v : Value) → AreAtoms list
        → Reads (shapes.Shape.Bag nodes) (PathsOf list) [] v → FitsAtoms nodes (bag_values v) }
    ensures slots { (nodes : Nodes) (list : List Atom) (slot : ℕ) (v : Value) → AreAtoms list
        → SaysAt nodes list slot v → FitsAtoms nodes (only nodes slot v) }
{}

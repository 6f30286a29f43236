//! A law of encodings, the contract of a function that does nothing.

ghost use Rattle.std.specs.Prelude.{List};
ghost use Rattle.context_model.specs.Atoms.{Atom};
ghost use Rattle.bag_model.specs.Encodings.{IsEncoding};
ghost use Rattle.bag_model.specs.Shapes.{Nodes};
ghost use Rattle.bag_model.specs.Tables.{IsTable};
ghost use Rattle.bag_model.specs.Values.{Values, AreOfShapes};

/// Values of a table's shapes have an encoding.
pub fn values_have_encodings()
    ensures { (nodes : Nodes) (vs : Values) → IsTable nodes → AreOfShapes nodes vs
        → (list : List Atom) × IsEncoding nodes vs list }
{}

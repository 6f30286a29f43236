//! Laws of writes, each the contract of a function that does nothing.

ghost use Rattle.std.specs.Prelude.{◌≡◌, ◌≤◌, ℕ, List, length};
ghost use Rattle.context_model.specs.declared.TheConstants.{ATOM_MAX};
ghost use Rattle.context_model.specs.Merged.{last_atom};
ghost use Rattle.context_model.specs.Orders.{Path};
ghost use Rattle.context_model.specs.declared.Form.{Form as WireForm};
ghost use Rattle.bag_model.specs.Encodings.{InLayout};
ghost use Rattle.bag_model.specs.Shapes.{Shape};
ghost use Rattle.bag_model.specs.Tables.{IsShape};
ghost use Rattle.bag_model.specs.Values.{Value, IsOfShape};
ghost use Rattle.field_writes.specs.Writes.{IsWrite};

/// A text is at most one write of a shape, in each form.
pub fn texts_are_one_write()
    ensures { (form : WireForm) (shape : Shape) (v w : Value) (text : List ℕ) → IsShape shape
        → IsWrite form shape v text → IsWrite form shape w text → v ≡ w }
{}

/// The value of a write is of the shape, and each atom of its layout, at any path, is within the
/// limit of bytes.
pub fn writes_are_of_their_shape()
    ensures shape { (form : WireForm) (shape : Shape) (v : Value) (text : List ℕ)
        → IsWrite form shape v text → IsOfShape shape v }
    ensures fits { (form : WireForm) (shape : Shape) (v : Value) (text : List ℕ) (q p : Path)
        → IsWrite form shape v text → InLayout shape q v p
        → length (last_atom p) ≤ ATOM_MAX }
{}

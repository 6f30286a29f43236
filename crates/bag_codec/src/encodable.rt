//! Whether a value can be encoded. Nothing here takes memory.

ghost use Rattle.std.specs.Prelude.{◌≡◌, ◌↔◌, length, map, IsTrue};
ghost use Rattle.std.specs.List.{AllByRecursion};
ghost use Rattle.context_model.specs.KeyedMerge.{EachPair};
ghost use Rattle.bag_encode.specs.Encoding.{bag_values};
ghost use Rattle.bag_model.specs.Encodings.{FitsAtoms};
ghost use Rattle.bag_model.specs.Shapes as shapes;
ghost use Rattle.bag_model.specs.Values as values;
ghost use Rattle.bag_model.specs.Values.{IsOfShape};
ghost use Rattle.bag_value.specs.Vals.{plain};
ghost use Rattle.field_table.specs.Plain.{nodes_of, shape_of};
ghost use Rattle.scalar_types.specs.KindViews.{kind_of};
ghost use Rattle.scalar_types.specs.Scalars.{value_of};
ghost use Rattle.bag_codec.specs.Encodable.{AreEncodable, FitsAtom, HasRoom, IsEncodable};

use crate::lengths::is_short;
use bag_value::{Entries, ScalarSet, Val, Vals};
use counter_type::{Counts, Lattice};
use field_table::{Shape, Slots, Table};
use outside::ATOM_MAX;
use scalar_types::{Codec, Scalar, ScalarKind};

/// Whether a value can be encoded under a table: it is a bag with a value of its shape for each
/// field, and there is room in an atom for each key, each writer and each datum. A set, also an
/// empty one, has to name the kind of its field. A scalar, also an absent one, is a `Val::Greatest`
/// in a field of which the greatest value stays, and a `Val::Scalar` in any other.
pub fn can_encode(table: &Table, value: &Val) -> bool
    ensures { IsTrue result
        ↔ IsOfShape (shapes.Shape.Bag table.now) (plain value.now)
        × FitsAtoms table.now (bag_values (plain value.now)) }
{
    // This tells the proof that the value and all inside it are in order.
    let _ = value.is_bottom();
    match value {
        Val::Bag(values) => fields_fit(table.nodes(), values),
        _ => false,
    }
}

/// Whether a scalar is of the kind, and there is room for its spelling in an atom.
fn fits_atom(kind: &ScalarKind, scalar: &Scalar) -> bool
    ensures { IsTrue result ↔ FitsAtom (kind_of kind.now) (value_of scalar.now) }
{
    kind.fits(scalar) && is_short(kind, scalar)
}

/// Whether all elements of a set are of the kind, and there is room for each.
fn elements_fit(kind: &ScalarKind, set: &ScalarSet) -> bool
    ensures { IsTrue result
        ↔ AllByRecursion (FitsAtom (kind_of kind.now)) (map value_of set.now.items) }
{
    for at in 0..set.len() {
        if !fits_atom(kind, set.get(at).unwrap()) {
            return false;
        }
    }
    true
}

/// Whether a set names this kind.
fn names_kind(set: &ScalarSet, kind: &ScalarKind) -> bool
    ensures { IsTrue result ↔ (kind_of set.now.codec ≡ kind_of kind.now) }
{
    set.codec().is_same(kind)
}

/// Whether there is room for each writer.
fn writers_fit(counts: &Counts) -> bool
    ensures { IsTrue result ↔ EachPair (λ writer n. HasRoom writer) counts.now }
{
    for at in 0..counts.len() {
        let (writer, _) = counts.nth(at).unwrap();
        if writer.len() >= ATOM_MAX {
            return false;
        }
    }
    true
}

/// Whether a value can be encoded at a field of this shape.
#[cycle(encodable)]
fn is_encodable(shape: &Shape, value: &Val) -> bool
    ensures { IsTrue result ↔ IsEncodable (shape_of shape.now) (plain value.now) }
{
    match (shape, value) {
        (Shape::Taint, Val::Taint(_)) => true,
        (Shape::Scalar(_), Val::Scalar(None)) => true,
        (Shape::Scalar(kind), Val::Scalar(Some(scalar))) => fits_atom(kind, scalar),
        (Shape::Greatest(_), Val::Greatest(None)) => true,
        (Shape::Greatest(kind), Val::Greatest(Some(scalar))) => fits_atom(kind, scalar),
        (Shape::Set(kind), Val::Set(set)) => names_kind(set, kind) && elements_fit(kind, set),
        (Shape::Counter, Val::Counter(counts)) => writers_fit(counts),
        (Shape::Map(kind, shape), Val::Map(entries)) => entries_fit(kind, shape, entries),
        (Shape::Bag(fields), Val::Bag(values)) => fields_fit(fields, values),
        _ => false,
    }
}

/// Whether all keys of a map and their values can be encoded.
#[cycle(encodable)]
fn entries_fit(kind: &ScalarKind, shape: &Shape, entries: &Entries) -> bool
    ensures { IsTrue result
        ↔ IsEncodable (shapes.Shape.Map (kind_of kind.now) (shape_of shape.now))
        (values.Value.Map entries.now) }
{
    for entry in entries.as_slice() {
        if !fits_atom(kind, &entry.key) || !is_encodable(shape, &entry.value) {
            return false;
        }
    }
    true
}

/// Whether there is a value for each field of a bag, which can be encoded there.
#[cycle(encodable)]
fn fields_fit(fields: &Slots, values: &Vals) -> bool
    ensures { IsTrue result ↔ AreEncodable (nodes_of fields.now) values.now }
{
    if fields.len() != values.len() {
        return false;
    }
    for at in 0..fields.len() {
        let field = fields.get(at).unwrap();
        if !is_encodable(&field.shape, values.get(at).unwrap()) {
            return false;
        }
    }
    true
}

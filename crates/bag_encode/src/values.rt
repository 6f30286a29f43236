//! The atoms of values of every shape.

ghost use Rattle.std.specs.Prelude.{◌≡◌, ◌+◌, ◌<◌, ◌≤◌, ◌++◌, OnOk};
ghost use Rattle.context_model.specs.Atoms.{AreAtoms};
ghost use Rattle.bag_model.specs.Shapes as shapes;
ghost use Rattle.bag_model.specs.Tables.{levels, levels_under};
ghost use Rattle.bag_model.specs.Values as values;
ghost use Rattle.bag_model.specs.Values.{IsOfShape, AreOfShapes};
ghost use Rattle.scalar_types.specs.KindViews.{kind_of};
ghost use Rattle.field_table.specs.Plain.{field_of, nodes_of, shape_of};
ghost use Rattle.bag_value.specs.Vals.{plain};
ghost use Rattle.bag_value.specs.declared.vals.Val.TheVariants.{Set as SetVal};
ghost use Rattle.bag_encode.specs.Values.{atoms_of, field_atoms, one_field_atoms};

use crate::growing_list::GrowingList;
use bag_model::LEVELS_MAX;
use bag_value::{Entries, ScalarSet, Val, Vals};
use counter_type::{Counts, Lattice};
use field_table::{Shape, Slot, Slots};
use lex_varint::put_u64;
use outside::Memory;
use scalar_types::ScalarKind;

/// Adds the atoms of a value of a shape. Headers begin at this level.
#[cycle(put)]
pub(crate) fn put_value(
    list: &mut GrowingList,
    level: u8,
    shape: &Shape,
    value: &Val,
) -> Result<(), Memory>
    requires shape { IsOfShape (shape_of shape.now) (plain value.now) }
    requires levels { level + levels_under (shape_of shape.now) ≤ LEVELS_MAX }
    requires fits { AreAtoms (atoms_of (shape_of shape.now) level (plain value.now)) }
    ensures { OnOk result
        (list.new ≡ list.old ++ atoms_of (shape_of shape.now) level (plain value.now)) }
{
    match (shape, value) {
        (Shape::Taint, Val::Taint(false)) => Ok(()),
        (Shape::Taint, Val::Taint(true)) => list.push_datum(&[]),
        (Shape::Scalar(_), Val::Scalar(None)) => Ok(()),
        (Shape::Scalar(kind), Val::Scalar(Some(scalar))) => list.push_scalar(kind, scalar),
        (Shape::Greatest(_), Val::Greatest(None)) => Ok(()),
        (Shape::Greatest(kind), Val::Greatest(Some(scalar))) => list.push_scalar(kind, scalar),
        (Shape::Set(kind), Val::Set(set)) => put_set(list, kind, set),
        (Shape::Counter, Val::Counter(counts)) => put_counts(list, level, counts),
        (Shape::Map(kind, shape), Val::Map(entries)) => {
            put_entries(list, level, kind, shape, entries)
        }
        (Shape::Bag(fields), Val::Bag(values)) => put_fields(list, level, fields, values),
        _ => unreachable!(),
    }
}

/// Adds the data of a set.
fn put_set(list: &mut GrowingList, kind: &ScalarKind, set: &ScalarSet) -> Result<(), Memory>
    requires shape { IsOfShape (shapes.Shape.Set (kind_of kind.now)) (plain (SetVal set.now)) }
    requires fits { AreAtoms
        (atoms_of (shapes.Shape.Set (kind_of kind.now)) 0 (plain (SetVal set.now))) }
    ensures { OnOk result
        (list.new ≡ list.old
        ++ atoms_of (shapes.Shape.Set (kind_of kind.now)) 0 (plain (SetVal set.now))) }
{
    for at in 0..set.len() {
        list.push_scalar(kind, set.get(at).unwrap())?;
    }
    Ok(())
}

/// Adds the writers of a counter, whose headers are of this level, each with its count.
fn put_counts(list: &mut GrowingList, level: u8, counts: &Counts) -> Result<(), Memory>
    requires level { level < LEVELS_MAX }
    requires fits { AreAtoms
        (atoms_of shapes.Shape.Counter level (values.Value.Counter counts.now)) }
    ensures { OnOk result
        (list.new ≡ list.old
        ++ atoms_of shapes.Shape.Counter level (values.Value.Counter counts.now)) }
{
    for at in 0..counts.len() {
        let (writer, count) = counts.nth(at).unwrap();
        list.push_writer(level, writer)?;
        list.push_datum(put_u64(count).as_slice())?;
    }
    Ok(())
}

/// Adds the keys of a map, whose headers are of this level, each with the atoms of its value.
#[cycle(put)]
fn put_entries(
    list: &mut GrowingList,
    level: u8,
    kind: &ScalarKind,
    shape: &Shape,
    entries: &Entries,
) -> Result<(), Memory>
    requires shape { IsOfShape (shapes.Shape.Map (kind_of kind.now) (shape_of shape.now))
        (values.Value.Map entries.now) }
    requires levels { level + 1 + levels_under (shape_of shape.now) ≤ LEVELS_MAX }
    requires fits { AreAtoms
        (atoms_of (shapes.Shape.Map (kind_of kind.now) (shape_of shape.now)) level
        (values.Value.Map entries.now)) }
    ensures { OnOk result (list.new ≡ list.old
        ++ atoms_of (shapes.Shape.Map (kind_of kind.now) (shape_of shape.now)) level
        (values.Value.Map entries.now)) }
{
    for entry in entries.as_slice() {
        list.push_key(level, kind, &entry.key)?;
        put_value(list, level + 1, shape, &entry.value)?;
    }
    Ok(())
}

/// Adds the fields of a bag, whose headers are of this level.
#[cycle(put)]
pub(crate) fn put_fields(
    list: &mut GrowingList,
    level: u8,
    fields: &Slots,
    values: &Vals,
) -> Result<(), Memory>
    requires shapes { AreOfShapes (nodes_of fields.now) values.now }
    requires levels { level + levels (nodes_of fields.now) ≤ LEVELS_MAX }
    requires fits { AreAtoms (field_atoms (nodes_of fields.now) level values.now) }
    ensures { OnOk result
        (list.new ≡ list.old ++ field_atoms (nodes_of fields.now) level values.now) }
{
    for at in 0..fields.len() {
        put_field(
            list,
            level,
            fields.get(at).unwrap(),
            values.get(at).unwrap(),
        )?;
    }
    Ok(())
}

/// Adds a field of a bag, where its value says something.
#[cycle(put)]
fn put_field(list: &mut GrowingList, level: u8, field: &Slot, value: &Val) -> Result<(), Memory>
    requires shape { IsOfShape (field_of field.now).shape (plain value.now) }
    requires levels { level + 1 + levels_under (field_of field.now).shape ≤ LEVELS_MAX }
    requires fits { AreAtoms (one_field_atoms (field_of field.now) level (plain value.now)) }
    ensures { OnOk result
        (list.new ≡ list.old ++ one_field_atoms (field_of field.now) level (plain value.now)) }
{
    if value.is_bottom() {
        return Ok(());
    }
    list.push_index(level, u64::from(field.number))?;
    put_value(list, level + 1, &field.shape, value)
}

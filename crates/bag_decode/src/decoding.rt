//! The values that a typed context says: walks over the fields of a bag and over the keys of a map.

ghost use Rattle.std.specs.Prelude.{◌≡◌, ◌+◌, ◌≤◌, [], length, IfOk};
ghost use Rattle.context_model.specs.Paths.{path_before};
ghost use Rattle.bag_model.specs.Readings.{PathsOf, Reads, ReadsEach};
ghost use Rattle.bag_model.specs.Shapes as shapes;
ghost use Rattle.bag_model.specs.Tables.{AreFields, IsKeyKind, IsShape, levels, levels_under};
ghost use Rattle.bag_model.specs.Typed.{AreTyped, IsTyped};
ghost use Rattle.bag_model.specs.Values as values;
ghost use Rattle.bag_walks.specs.Parts.{IsBehind, IsSegment};
ghost use Rattle.bag_value.specs.Vals.{plain};
ghost use Rattle.field_table.specs.Plain.{shape_of, nodes_of};
ghost use Rattle.scalar_types.specs.KindViews.{kind_of};

use crate::bottoms::bottom_of;
use crate::leaves::{counts_of, has_datum, scalar_that_stays, set_of, take_known};
use atom_list::{AtomList, Context};
use bag_model::{LEVELS_MAX, Pick};
use bag_scan::{find_field, find_key, segment_end};
use bag_value::{Entries, Entry, Val, Vals};
use field_table::{Shape, Slots, Table};
use outside::Memory;
use scalar_types::ScalarKind;
use std::alloc::Global;

/// The value of a field of this shape, from the place after its header on, and the place where what
/// is below the header ends. `level` is how many headers are open there.
#[cycle(decode)]
pub fn decode_field(
    alloc: Global,
    shape: &Shape,
    list: &AtomList,
    level: usize,
    from: usize,
) -> Result<(Val, usize), Memory>
    requires behind { IsBehind list.now (path_before list.now from) from }
    requires level { length (path_before list.now from) ≡ level }
    requires shape { IsShape (shape_of shape.now) }
    requires room { level + levels_under (shape_of shape.now) ≤ LEVELS_MAX }
    requires typed { IsTyped (shape_of shape.now) (PathsOf list.now) (path_before list.now from) }
    ensures value { IfOk result
        (λ found. Reads (shape_of shape.now) (PathsOf list.now) (path_before list.now from)
        (plain found.0)) }
    ensures end { IfOk result (λ found. IsSegment list.now level from found.1) }
{
    match shape {
        Shape::Taint => {
            let on = has_datum(list, from);
            Ok((Val::Taint(on), segment_end(list, level, from)))
        }
        Shape::Scalar(kind) => {
            let scalar = scalar_that_stays(alloc, Pick::Least, kind, list, from)?;
            Ok((Val::Scalar(scalar), segment_end(list, level, from)))
        }
        Shape::Greatest(kind) => {
            let scalar = scalar_that_stays(alloc, Pick::Greatest, kind, list, from)?;
            Ok((Val::Greatest(scalar), segment_end(list, level, from)))
        }
        Shape::Set(kind) => {
            let set = set_of(alloc, kind, list, from)?;
            Ok((Val::Set(set), segment_end(list, level, from)))
        }
        Shape::Counter => {
            let (counts, end) = counts_of(alloc, list, level, from)?;
            Ok((Val::Counter(counts), end))
        }
        Shape::Map(kind, value) => {
            let (entries, end) = decode_entries(alloc, kind, value, list, level, from)?;
            Ok((Val::Map(entries), end))
        }
        Shape::Bag(fields) => {
            let (values, end) = decode_fields(alloc, fields, list, level, from)?;
            Ok((Val::Bag(values), end))
        }
    }
}

/// The values of a bag's fields, from the place after the header of the bag on, and the place where
/// the bag ends.
#[cycle(decode)]
fn decode_fields(
    alloc: Global,
    fields: &Slots,
    list: &AtomList,
    level: usize,
    from: usize,
) -> Result<(Vals, usize), Memory>
    requires behind { IsBehind list.now (path_before list.now from) from }
    requires level { length (path_before list.now from) ≡ level }
    requires fields { AreFields (nodes_of fields.now) }
    requires room { level + levels (nodes_of fields.now) ≤ LEVELS_MAX }
    requires typed { AreTyped (nodes_of fields.now) (PathsOf list.now) (path_before list.now from) }
    ensures value { IfOk result
        (λ found. ReadsEach (nodes_of fields.now) (PathsOf list.now) (path_before list.now from)
        found.0) }
    ensures end { IfOk result (λ found. IsSegment list.now level from found.1) }
{
    let mut values = Vals::new(alloc);
    let mut place = from;
    for at in 0..fields.len() {
        let field = fields.get(at).unwrap();
        match find_field(list, level, u64::from(field.number), place) {
            Ok(behind) => {
                let (value, end) = decode_field(alloc, &field.shape, list, level + 1, behind)?;
                values.push(value)?;
                place = end;
            }
            Err(stop) => {
                values.push(bottom_of(alloc, &field.shape)?)?;
                place = stop;
            }
        }
    }
    Ok((values, segment_end(list, level, place)))
}

/// The keys of a map with their values, from the place after the header of the map on, and the
/// place where the map ends.
#[cycle(decode)]
fn decode_entries(
    alloc: Global,
    kind: &ScalarKind,
    shape: &Shape,
    list: &AtomList,
    level: usize,
    from: usize,
) -> Result<(Entries, usize), Memory>
    requires behind { IsBehind list.now (path_before list.now from) from }
    requires level { length (path_before list.now from) ≡ level }
    requires shape { IsShape (shape_of shape.now) }
    requires room { level + 1 + levels_under (shape_of shape.now) ≤ LEVELS_MAX }
    requires typed { IsTyped (shapes.Shape.Map (kind_of kind.now) (shape_of shape.now))
        (PathsOf list.now)
        (path_before list.now from) }
    ensures value { IfOk result
        (λ found. Reads (shapes.Shape.Map (kind_of kind.now) (shape_of shape.now))
        (PathsOf list.now)
        (path_before list.now from) (values.Value.Map found.0)) }
    ensures end { IfOk result (λ found. IsSegment list.now level from found.1) }
{
    let mut entries = Entries::new(alloc);
    let mut place = from;
    'keys: loop {
        match find_key(list, level, place) {
            Ok((key, start)) => {
                let key = take_known(alloc, kind, key)?;
                let (value, end) = decode_field(alloc, shape, list, level + 1, start)?;
                entries.push(Entry { key, value })?;
                place = end;
            }
            Err(end) => return Ok((entries, end)),
        }
    }
}

/// The bag that a typed context says.
pub fn decode(alloc: Global, table: &Table, context: &Context) -> Result<Val, Memory>
    requires { AreTyped table.now (PathsOf context.now) [] }
    ensures { IfOk result
        (λ value. Reads (shapes.Shape.Bag table.now) (PathsOf context.now) [] (plain value)) }
{
    let (values, _) = decode_fields(alloc, table.nodes(), context.list(), 0, 0)?;
    Ok(Val::Bag(values))
}

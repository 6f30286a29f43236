//! One walk over a table and a list of atoms together.

ghost use Rattle.std.specs.Prelude.{◌≡◌, ◌+◌, ◌≤◌, [], length, IfOk, IfErr};
ghost use Rattle.context_model.specs.Paths.{path_before};
ghost use Rattle.bag_model.specs.Readings.{PathsOf};
ghost use Rattle.bag_model.specs.Shapes.{Counter as PlainCounter, Map as PlainMap};
ghost use Rattle.bag_model.specs.Tables.{IsShape, AreFields, levels, levels_under};
ghost use Rattle.bag_model.specs.Typed.{AreTyped, Misspells, SomeMisspells, IsFirstIllTyped};
ghost use Rattle.bag_walks.specs.Parts.{IsBehind, IsSegment};
ghost use Rattle.bag_typed.specs.Walk.{HasNone, IsFirstOfPaths};
ghost use Rattle.field_table.specs.Plain.{shape_of, nodes_of};
ghost use Rattle.scalar_types.specs.KindViews.{kind_of};

use crate::payloads::{Payload, check_data};
use atom_list::{AtomList, Context};
use bag_scan::{find_key, next_field};
use context_model::LEVELS_MAX;
use field_table::{Shape, Slots, Table};
use scalar_types::{Codec, ScalarKind};

/// The end of what is below the header of a counter, or the place of the first datum below a writer
/// that is no count.
fn check_counts(list: &AtomList, level: usize, from: usize) -> Result<usize, usize>
    requires behind { IsBehind list.now (path_before list.now from) from }
    requires level { length (path_before list.now from) ≡ level }
    requires room { level + 1 ≤ LEVELS_MAX }
    ensures end { IfOk result (IsSegment list.now level from) }
    ensures typed { IfOk result (λ _. HasNone list.now
        (Misspells PlainCounter (path_before list.now from))) }
    ensures fault { IfErr result (IsFirstOfPaths list.now
        (Misspells PlainCounter (path_before list.now from))) }
{
    let mut place = from;
    'writers: loop {
        match find_key(list, level, place) {
            Ok((_, start)) => place = check_data(&Payload::Count, list, level + 1, start)?,
            Err(stop) => return Ok(stop),
        }
    }
}

/// The end of what is below the header of a map, or the place of the first key, or of the first
/// atom after one, that is misspelled.
#[cycle(check)]
fn check_entries(
    kind: &ScalarKind,
    value: &Shape,
    list: &AtomList,
    level: usize,
    from: usize,
) -> Result<usize, usize>
    requires behind { IsBehind list.now (path_before list.now from) from }
    requires level { length (path_before list.now from) ≡ level }
    requires shape { IsShape (shape_of value.now) }
    requires room { level + 1 + levels_under (shape_of value.now) ≤ LEVELS_MAX }
    ensures end { IfOk result (IsSegment list.now level from) }
    ensures typed { IfOk result (λ _. HasNone list.now
        (Misspells (PlainMap (kind_of kind.now) (shape_of value.now))
        (path_before list.now from))) }
    ensures fault { IfErr result (IsFirstOfPaths list.now
        (Misspells (PlainMap (kind_of kind.now) (shape_of value.now))
        (path_before list.now from))) }
{
    let mut place = from;
    'keys: loop {
        match find_key(list, level, place) {
            Ok((key, start)) => {
                if !kind.spelled(key) {
                    // The key's header is right before.
                    return Err(start - 1);
                }
                place = check_slot(value, list, level + 1, start)?;
            }
            Err(stop) => return Ok(stop),
        }
    }
}

/// The end of what is below the header of a bag, or the place of the first atom there that is
/// misspelled. A table has no header: all of the list is below it.
#[cycle(check)]
fn check_fields(fields: &Slots, list: &AtomList, level: usize, from: usize) -> Result<usize, usize>
    requires behind { IsBehind list.now (path_before list.now from) from }
    requires level { length (path_before list.now from) ≡ level }
    requires fields { AreFields (nodes_of fields.now) }
    requires room { level + levels (nodes_of fields.now) ≤ LEVELS_MAX }
    ensures end { IfOk result (IsSegment list.now level from) }
    ensures typed { IfOk result (λ _. HasNone list.now
        (SomeMisspells (nodes_of fields.now) (path_before list.now from))) }
    ensures fault { IfErr result (IsFirstOfPaths list.now
        (SomeMisspells (nodes_of fields.now) (path_before list.now from))) }
{
    let mut place = from;
    'headers: loop {
        match next_field(fields, list, level, place) {
            Ok((_, field, behind)) => {
                place = check_slot(&field.shape, list, level + 1, behind)?;
            }
            Err(stop) => return Ok(stop),
        }
    }
}

/// The end of what is below the header of a field or a slot of this shape, from the place after
/// that header on, or the place of the first atom there that is misspelled. It takes no memory.
#[cycle(check)]
pub fn check_slot(shape: &Shape, list: &AtomList, level: usize, from: usize) -> Result<usize, usize>
    requires behind { IsBehind list.now (path_before list.now from) from }
    requires level { length (path_before list.now from) ≡ level }
    requires shape { IsShape (shape_of shape.now) }
    requires room { level + levels_under (shape_of shape.now) ≤ LEVELS_MAX }
    ensures end { IfOk result (IsSegment list.now level from) }
    ensures typed { IfOk result (λ _. HasNone list.now
        (Misspells (shape_of shape.now) (path_before list.now from))) }
    ensures fault { IfErr result (IsFirstOfPaths list.now
        (Misspells (shape_of shape.now) (path_before list.now from))) }
{
    match shape {
        Shape::Taint => check_data(&Payload::Empty, list, level, from),
        Shape::Scalar(kind) => check_data(&Payload::Scalar(kind), list, level, from),
        Shape::Greatest(kind) => check_data(&Payload::Scalar(kind), list, level, from),
        Shape::Set(kind) => check_data(&Payload::Scalar(kind), list, level, from),
        Shape::Counter => check_counts(list, level, from),
        Shape::Map(kind, value) => check_entries(kind, value, list, level, from),
        Shape::Bag(fields) => check_fields(fields, list, level, from),
    }
}

/// Checks that each datum of a field and each key of a map is the spelling of a value of its type.
/// `Err` holds the place of the first that isn't. An atom that no field of the table reads has no
/// type and is passed over. It takes no memory.
pub fn check_typed(table: &Table, context: &Context) -> Result<(), usize>
    ensures typed { IfOk result (λ _. AreTyped table.now (PathsOf context.now) []) }
    ensures fault { IfErr result (λ place. IsFirstIllTyped table.now context.now place) }
{
    check_fields(table.nodes(), context.list(), 0, 0)?;
    Ok(())
}

//! The data of fields that normal form takes away.

ghost use Rattle.std.specs.Prelude.{◌≡◌, ◌+◌, ◌<◌, ◌≤◌, length, OnOk, IfOk};
ghost use Rattle.context_model.specs.Paths.{path_before};
ghost use Rattle.bag_model.specs.NormalForm.{GreatestDatum};
ghost use Rattle.bag_model.specs.Shapes.{Bag, Map};
ghost use Rattle.bag_model.specs.Tables.{IsShape, AreFields, levels, levels_under};
ghost use Rattle.bag_walks.specs.Parts.{IsBehind, IsSegment};
ghost use Rattle.field_table.specs.Plain.{shape_of, nodes_of};
ghost use Rattle.scalar_types.specs.KindViews.{kind_of};
ghost use Rattle.bag_normal.specs.Known.{GivesWayAt, IsSupersededIn, HoldsAtKey};
ghost use Rattle.bag_normal.specs.Data.{RisesUpTo, AddsPlaces};

use crate::data::{add_earlier_data, add_other_data};
use atom_list::AtomList;
use bag_model::Pick;
use bag_scan::{find_key, next_field, segment_end};
use context_model::LEVELS_MAX;
use field_table::{Shape, Slots};
use outside::Memory;
use scalar_types::{Codec, ScalarKind};

/// Adds the places of the data of a counter's writers that go, and gives the end of what is below
/// the counter.
fn add_counts(
    list: &AtomList,
    level: usize,
    from: usize,
    gone: &mut Vec<usize>,
) -> Result<usize, Memory>
    requires behind { IsBehind list.now (path_before list.now from) from }
    requires level { length (path_before list.now from) ≡ level }
    requires room { level < LEVELS_MAX }
    requires rises { RisesUpTo gone.old.items from }
    ensures segment { IfOk result (IsSegment list.now level from) }
    ensures rises { IfOk result (RisesUpTo gone.new.items) }
    ensures adds { OnOk result
        (AddsPlaces (HoldsAtKey (GivesWayAt GreatestDatum list.now) (path_before list.now from))
        gone.old.items gone.new.items) }
{
    let mut place = from;
    'writers: loop {
        match find_key(list, level, place) {
            Ok((_, start)) => place = add_earlier_data(list, start, gone)?,
            Err(stop) => return Ok(stop),
        }
    }
}

/// Adds the places of a field's data that go, from the place after its header on, and gives the end
/// of what is below the header. `level` is that of the headers below it.
#[cycle(adding)]
pub(crate) fn add_field(
    shape: &Shape,
    list: &AtomList,
    level: usize,
    from: usize,
    gone: &mut Vec<usize>,
) -> Result<usize, Memory>
    requires behind { IsBehind list.now (path_before list.now from) from }
    requires level { length (path_before list.now from) ≡ level }
    requires shape { IsShape (shape_of shape.now) }
    requires room { level + levels_under (shape_of shape.now) ≤ LEVELS_MAX }
    requires rises { RisesUpTo gone.old.items from }
    ensures segment { IfOk result (IsSegment list.now level from) }
    ensures rises { IfOk result (RisesUpTo gone.new.items) }
    ensures adds { OnOk result
        (AddsPlaces (IsSupersededIn (shape_of shape.now) list.now (path_before list.now from))
        gone.old.items gone.new.items) }
{
    match shape {
        Shape::Taint => Ok(segment_end(list, level, from)),
        Shape::Scalar(_) => {
            let to = add_other_data(Pick::Least, list, from, gone)?;
            Ok(segment_end(list, level, to))
        }
        Shape::Greatest(_) => {
            let to = add_other_data(Pick::Greatest, list, from, gone)?;
            Ok(segment_end(list, level, to))
        }
        Shape::Set(_) => Ok(segment_end(list, level, from)),
        Shape::Counter => add_counts(list, level, from, gone),
        Shape::Map(key, value) => add_values(key, value, list, level, from, gone),
        Shape::Bag(fields) => add_fields(fields, list, level, from, gone),
    }
}

/// Adds the places of the data that go below the keys of a map, whose keys are of this kind and
/// whose values have this shape, likewise. No data are read below a key that is no spelling, and
/// there all stay.
#[cycle(adding)]
fn add_values(
    kind: &ScalarKind,
    shape: &Shape,
    list: &AtomList,
    level: usize,
    from: usize,
    gone: &mut Vec<usize>,
) -> Result<usize, Memory>
    requires behind { IsBehind list.now (path_before list.now from) from }
    requires level { length (path_before list.now from) ≡ level }
    requires shape { IsShape (shape_of shape.now) }
    requires room { level + 1 + levels_under (shape_of shape.now) ≤ LEVELS_MAX }
    requires rises { RisesUpTo gone.old.items from }
    ensures segment { IfOk result (IsSegment list.now level from) }
    ensures rises { IfOk result (RisesUpTo gone.new.items) }
    ensures adds { OnOk result (AddsPlaces
        (IsSupersededIn (Map (kind_of kind.now) (shape_of shape.now)) list.now
        (path_before list.now from))
        gone.old.items gone.new.items) }
{
    let mut place = from;
    'keys: loop {
        match find_key(list, level, place) {
            Ok((key, start)) => {
                place = start;
                if kind.spelled(key) {
                    place = add_field(shape, list, level + 1, start, gone)?;
                }
            }
            Err(stop) => return Ok(stop),
        }
    }
}

/// Adds the places of the data that go in the fields of a bag, likewise.
#[cycle(adding)]
fn add_fields(
    fields: &Slots,
    list: &AtomList,
    level: usize,
    from: usize,
    gone: &mut Vec<usize>,
) -> Result<usize, Memory>
    requires behind { IsBehind list.now (path_before list.now from) from }
    requires level { length (path_before list.now from) ≡ level }
    requires fields { AreFields (nodes_of fields.now) }
    requires room { level + levels (nodes_of fields.now) ≤ LEVELS_MAX }
    requires rises { RisesUpTo gone.old.items from }
    ensures segment { IfOk result (IsSegment list.now level from) }
    ensures rises { IfOk result (RisesUpTo gone.new.items) }
    ensures adds { OnOk result
        (AddsPlaces (IsSupersededIn (Bag (nodes_of fields.now)) list.now
        (path_before list.now from))
        gone.old.items gone.new.items) }
{
    let mut place = from;
    'headers: loop {
        match next_field(fields, list, level, place) {
            Ok((_, field, behind)) => place = add_field(
                &field.shape,
                list,
                level + 1,
                behind,
                gone,
            )?,
            Err(stop) => return Ok(stop),
        }
    }
}

//! Where the slots of a table are in a context.

ghost use Rattle.std.specs.Prelude.{◌≡◌, ◌+◌, ◌≤◌, [], length, IfOk, OnOk};
ghost use Rattle.context_model.specs.Paths.{path_before};
ghost use Rattle.bag_model.specs.Slots.{slots_in, slots_of};
ghost use Rattle.bag_model.specs.Tables.{IsShape, AreFields, levels, levels_under};
ghost use Rattle.bag_walks.specs.Parts.{IsBehind, IsSegment};
ghost use Rattle.bag_scan.specs.Spans.{AreSpans, AddsSpans, AddsAbsent};
ghost use Rattle.field_table.specs.Plain.{nodes_of, shape_of};

use crate::parts::segment_end;
use crate::searches::find_field;
use atom_list::{AtomList, Context};
use bag_model::LEVELS_MAX;
use field_table::{Shape, Slots, Table};
use outside::Memory;
use std::alloc::Global;

/// Where a slot is in a context.
#[derive(Clone, Copy, Debug)]
pub struct Span {
    /// The place after the slot's header, where there is one.
    pub from: Option<usize>,
    /// The first place beyond the slot, or the end of the context: a walk goes on there.
    pub stop: usize,
}

/// The spans of all slots of a table, in the order of the slots, by one walk over table and
/// context.
pub fn spans_of(alloc: Global, table: &Table, context: &Context) -> Result<Vec<Span>, Memory>
    ensures { IfOk result (λ spans. AreSpans context.now (slots_of table.now) [] spans.items) }
{
    let mut spans = Vec::with_capacity(alloc, table.slots())?;
    add_fields(table.nodes(), context.list(), 0, 0, &mut spans)?;
    Ok(spans)
}

/// Adds the spans of the slots of a bag whose fields have headers of this level, from the place
/// after the bag's own header on. Gives the place where what is below the bag ends.
#[cycle(spans)]
fn add_fields(
    fields: &Slots,
    list: &AtomList,
    level: usize,
    from: usize,
    spans: &mut Vec<Span>,
) -> Result<usize, Memory>
    requires behind { IsBehind list.now (path_before list.now from) from }
    requires level { length (path_before list.now from) ≡ level }
    requires fields { AreFields (nodes_of fields.now) }
    requires room { level + levels (nodes_of fields.now) ≤ LEVELS_MAX }
    ensures spans { OnOk result
        (AddsSpans list.now (slots_of (nodes_of fields.now))
        (path_before list.now from) spans.old.items spans.new.items) }
    ensures stop { IfOk result (IsSegment list.now level from) }
{
    let mut place = from;
    for at in 0..fields.len() {
        let field = fields.get(at).unwrap();
        match find_field(list, level, u64::from(field.number), place) {
            Ok(behind) => {
                place = add_field(&field.shape, list, level + 1, behind, spans)?;
            }
            Err(stop) => {
                add_absent(&field.shape, stop, spans)?;
                place = stop;
            }
        }
    }
    Ok(segment_end(list, level, place))
}

/// Adds the spans of the slots of a field of this shape, from the place after the field's header
/// on. Gives the place where what is below it ends.
#[cycle(spans)]
fn add_field(
    shape: &Shape,
    list: &AtomList,
    level: usize,
    from: usize,
    spans: &mut Vec<Span>,
) -> Result<usize, Memory>
    requires behind { IsBehind list.now (path_before list.now from) from }
    requires level { length (path_before list.now from) ≡ level }
    requires shape { IsShape (shape_of shape.now) }
    requires room { level + levels_under (shape_of shape.now) ≤ LEVELS_MAX }
    ensures spans { OnOk result
        (AddsSpans list.now (slots_in (shape_of shape.now))
        (path_before list.now from) spans.old.items spans.new.items) }
    ensures stop { IfOk result (IsSegment list.now level from) }
{
    if let Shape::Bag(fields) = shape {
        return add_fields(fields, list, level, from, spans);
    }
    let stop = segment_end(list, level, from);
    let from = Some(from);
    spans.push(Span { from, stop })?;
    Ok(stop)
}

/// Adds the spans of the slots of a field of this shape that isn't there.
#[cycle(absent)]
fn add_absent(shape: &Shape, stop: usize, spans: &mut Vec<Span>) -> Result<(), Memory>
    ensures { OnOk result
        (AddsAbsent (slots_in (shape_of shape.now)) stop spans.old.items spans.new.items) }
{
    if let Shape::Bag(fields) = shape {
        return add_absent_fields(fields, stop, spans);
    }
    let from = None;
    spans.push(Span { from, stop })?;
    Ok(())
}

/// Adds the spans of the slots of a bag that isn't there.
#[cycle(absent)]
fn add_absent_fields(fields: &Slots, stop: usize, spans: &mut Vec<Span>) -> Result<(), Memory>
    ensures { OnOk result
        (AddsAbsent (slots_of (nodes_of fields.now)) stop spans.old.items spans.new.items) }
{
    for at in 0..fields.len() {
        add_absent(&fields.get(at).unwrap().shape, stop, spans)?;
    }
    Ok(())
}

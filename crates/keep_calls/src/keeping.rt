//! The walk over the gaps and the slots of a table.

ghost use Rattle.std.specs.Prelude.{◌≡◌, ◌<◌, ◌≤◌, length, slice_get, Some, IfOk, OnOk};
ghost use Rattle.context_model.specs.Ended.{field_path};
ghost use Rattle.context_model.specs.WellFormed.{IsWellFormed};
ghost use Rattle.bag_model.specs.Slots.{SlotAt, slots_of};
ghost use Rattle.bag_walks.specs.Slots.{IsSpanOf};
ghost use Rattle.keep_calls.specs.Kept.{IsKeptOf};
ghost use Rattle.keep_calls.specs.Walk.{IsGapStart, IsGapPart, HoldUpTo};

use crate::gaps::is_told;
use crate::others::Others;
use crate::pieces::{mark, part};
use atom_list::{AtomList, Context};
use bag_scan::{Span, spans_of};
use field_table::Table;
use lex_merge::merge_many;
use outside::Memory;
use std::alloc::Global;

/// Adds the mark of the gap before a slot, or after the last one, where it tells of something.
fn add_gap(
    alloc: Global,
    others: Others,
    table: &Table,
    list: &AtomList,
    slot: usize,
    from: usize,
    to: usize,
    pieces: &mut Vec<Context>,
) -> Result<(), Memory>
    requires gap { IsGapPart table.now list.now slot from to }
    requires slot { slot ≤ length (slots_of table.now) }
    requires held { HoldUpTo table.now others list.now from pieces.old.items }
    ensures { OnOk result (HoldUpTo table.now others list.now to pieces.new.items) }
{
    if is_told(others, table, list, slot, from, to) {
        pieces.push(Context::of(mark(alloc, table, slot)?))?;
    }
    Ok(())
}

/// Adds what is in the gap before a slot and at the slot.
fn add_slot(
    alloc: Global,
    others: Others,
    table: &Table,
    list: &AtomList,
    slot: usize,
    from: usize,
    span: &Span,
    pieces: &mut Vec<Context>,
) -> Result<(), Memory>
    requires well_formed { IsWellFormed list.now }
    requires slot { slot < length (slots_of table.now) }
    requires starts { IsGapStart table.now list.now slot from }
    requires span { (at : SlotAt) → slice_get (slots_of table.now) slot ≡ Some at
        → IsSpanOf list.now (field_path at.numbers) span.now.from span.now.stop }
    requires held { HoldUpTo table.now others list.now from pieces.old.items }
    ensures { OnOk result (HoldUpTo table.now others list.now span.now.stop pieces.new.items) }
{
    // The proof learns here that the fields make a table.
    let _ = table.nodes();
    match span.from {
        None => add_gap(alloc, others, table, list, slot, from, span.stop, pieces),
        Some(behind) => {
            add_gap(alloc, others, table, list, slot, from, behind - 1, pieces)?;
            let part = part(alloc, table, slot, list, behind, span.stop)?;
            pieces.push(Context::of(part))?;
            Ok(())
        }
    }
}

/// What is kept of a context: what is at the slots of the table and below them, and for all others,
/// gap by gap, a mark that tells of them, as `others` says.
pub fn keep(
    alloc: Global,
    others: Others,
    table: &Table,
    context: &Context,
) -> Result<Context, Memory>
    ensures { IfOk result (IsKeptOf table.now others context.now) }
{
    // The proof learns here that the fields make a table.
    let _ = table.nodes();
    let list = context.list();
    let spans = spans_of(alloc, table, context)?;
    let mut pieces = Vec::new(alloc);
    let mut from = 0;
    for (slot, span) in spans.iter().enumerate() {
        add_slot(alloc, others, table, list, slot, from, span, &mut pieces)?;
        from = span.stop;
    }
    add_gap(
        alloc,
        others,
        table,
        list,
        spans.len(),
        from,
        list.len(),
        &mut pieces,
    )?;
    merge_many(alloc, pieces)
}

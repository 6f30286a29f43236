//! The block of a context: its bytes, and what it says of each slot.

ghost use Rattle.std.specs.Prelude.{◌≡◌, ◌<◌, ◌++◌, [], length, IfOk, OnOk, OnErr};
ghost use Rattle.bag_model.specs.Readings.{PathsOf};
ghost use Rattle.bag_model.specs.Slots.{SlotAt, slots_of};
ghost use Rattle.bag_model.specs.SlotValues.{HasSlot};
ghost use Rattle.bag_model.specs.Typed.{AreTyped};
ghost use Rattle.bag_value.specs.Vals.{plain};
ghost use Rattle.report_text.specs.Blocks.{slot_line, AddsSlotLines, AddsBlock, IsBlock};
ghost use Rattle.report_text.specs.Extension.{Extends};

use crate::value_texts::put_value;
use atom_list::Context;
use bag_decode::slot_value;
use bag_scan::{State, first_marker, spans_of};
use bag_value::Val;
use field_table::Table;
use outside::Memory;
use std::alloc::Global;
use text_lines::push_hex;
use wire_bytes::{Form, write};

/// Appends the line of a slot that has this state and this value.
fn put_slot(
    alloc: Global,
    table: &Table,
    slot: usize,
    state: State,
    value: &Val,
    into: &mut Vec<u8>,
) -> Result<(), Memory>
    requires { slot < length (slots_of table.now) }
    ensures ok { OnOk result
        ((at : SlotAt) → HasSlot table.now slot at
        → into.new.items ≡ into.old.items ++ slot_line at state (plain value.now)) }
    ensures err { OnErr result (Extends into.old.items into.new.items) }
{
    into.extend_from_slice(table.name(alloc, slot)?.as_str().as_bytes())?;
    into.extend_from_slice(match state {
        State::Exact => b" exact ".as_slice(),
        State::Partial => b" partial ".as_slice(),
    })?;
    put_value(table.shape(slot), value, into)?;
    into.push(b'\n')?;
    Ok(())
}

/// Appends the lines of all slots of a typed context.
fn put_slots(
    alloc: Global,
    table: &Table,
    context: &Context,
    into: &mut Vec<u8>,
) -> Result<(), Memory>
    requires { AreTyped table.now (PathsOf context.now) [] }
    ensures ok { OnOk result
        (AddsSlotLines table.now context.now
        (length (slots_of table.now)) into.old.items into.new.items) }
    ensures err { OnErr result (Extends into.old.items into.new.items) }
{
    let spans = spans_of(alloc, table, context)?;
    let marker = first_marker(context);
    for slot in 0..table.slots() {
        let span = &spans[slot];
        let value = slot_value(alloc, table, context, slot, span)?;
        put_slot(alloc, table, slot, span.state(marker), &value, into)?;
    }
    Ok(())
}

/// Appends the block of a typed context. Where memory runs out, some bytes may be left after what
/// was there.
pub fn put_block(
    alloc: Global,
    table: &Table,
    form: Form,
    context: &Context,
    into: &mut Vec<u8>,
) -> Result<(), Memory>
    requires { AreTyped table.now (PathsOf context.now) [] }
    ensures ok { OnOk result (AddsBlock table.now form context.now into.old.items into.new.items) }
    ensures err { OnErr result (Extends into.old.items into.new.items) }
{
    into.extend_from_slice(b"bytes ")?;
    push_hex(into, write(alloc, form, context.list())?.as_slice())?;
    into.push(b'\n')?;
    put_slots(alloc, table, context, into)
}

/// The block of a typed context: the line of its bytes in this form, and a line for each slot with
/// its name path, whether it is exact or partial, and its value.
pub fn block(alloc: Global, table: &Table, form: Form, context: &Context) -> Result<Vec<u8>, Memory>
    requires { AreTyped table.now (PathsOf context.now) [] }
    ensures { IfOk result (λ text. IsBlock table.now form context.now text.items) }
{
    let mut text = Vec::new(alloc);
    put_block(alloc, table, form, context, &mut text)?;
    Ok(text)
}

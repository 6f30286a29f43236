//! The context of one write.

ghost use Rattle.std.specs.Prelude.{◌≡◌, ◌<◌, length, IfOk, IfErr};
ghost use Rattle.bag_model.specs.Slots.{SlotAt, slots_of};
ghost use Rattle.bag_model.specs.SlotValues.{HasSlot};
ghost use Rattle.bag_model.specs.Tables.{IsShape};
ghost use Rattle.field_table.specs.Plain.{shape_of};
ghost use Rattle.context_model.specs.Framing.{bytes_of};
ghost use Rattle.field_calls.specs.Writing.{IsUnwrittenFor, PutsList, SaysFieldWrite, WritesField, WritesFieldUnder};

use crate::fields::slot_named;
use crate::refusals::FieldRefusal;
use accessor_gen::laws::values_fit_at_slots;
use atom_list::Context;
use bag_encode::encode_slot;
use byte_calls::{Refusal, write_into};
use field_table::{Shape, Table};
use field_writes::laws::writes_are_of_their_shape;
use field_writes::read_write;
use std::alloc::Global;
use table_text::read_table;
use wire_bytes::Form;

/// The shape of a slot.
fn shape_at(table: &Table, slot: usize) -> &Shape
    requires { slot < length (slots_of table.now) }
    ensures own { (at : SlotAt) → HasSlot table.now slot at → shape_of result.now ≡ at.shape }
    ensures is { IsShape (shape_of result.now) }
{
    // The proof learns here that the fields make a table.
    let _ = table.nodes();
    table.shape(slot)
}

/// The context that says one write of a field, and nothing else.
fn write_context(
    alloc: Global,
    form: Form,
    table: &Table,
    name: &[u8],
    text: &[u8],
) -> Result<Context, FieldRefusal>
    ensures written { IfOk result (λ context.
        SaysFieldWrite form table.now name.now text.now (bytes_of form context)) }
    ensures refused { IfErr result (IsUnwrittenFor form table.now name.now text.now) }
{
    // These do nothing when they run: they tell the prover that what was read as a write fits its
    // slot.
    writes_are_of_their_shape();
    values_fit_at_slots();
    let slot = slot_named(table, name)?;
    let shape = shape_at(table, slot);
    let value = read_write(alloc, form, shape, text)?.ok_or(FieldRefusal::NoWrite)?;
    Ok(encode_slot(alloc, table, slot, &value)?)
}

/// Writes a context at the beginning of `room`, in the form that is asked for, and answers how many
/// bytes it has.
fn put_context(
    alloc: Global,
    form: Form,
    context: &Context,
    room: &mut [u8],
) -> Result<usize, FieldRefusal>
    ensures { PutsList form context.now room.old room.new result }
{
    match write_into(alloc, form, context.list(), room) {
        Ok(size) => Ok(size),
        Err(Refusal::Room { size }) => Err(FieldRefusal::Room { size }),
        Err(_) => Err(FieldRefusal::Memory),
    }
}

/// Writes the bytes of the context of one write at the beginning of `room`, as [`write_field_into`]
/// does, under a table that was read before.
pub fn write_field_under(
    alloc: Global,
    form: Form,
    table: &Table,
    name: &[u8],
    text: &[u8],
    room: &mut [u8],
) -> Result<usize, FieldRefusal>
    ensures { WritesFieldUnder form table.now name.now text.now room.old room.new result }
{
    let context = write_context(alloc, form, table, name, text)?;
    put_context(alloc, form, &context, room)
}

/// Writes the bytes of a context at the beginning of `room`, in the form that is asked for, and
/// answers how many they are: the context says one write of one field, and nothing else. A merge
/// with another context adds the write to that one.
///
/// `table` is a table as `table_text::print_table` writes it, `name` the name path of one of its
/// slots, and `text` the write, as `docs/FORMATS.md` has it in Writes. [`FieldRefusal`] has what
/// may be wrong, in the order in which it is looked for; then `room` stays.
pub fn write_field_into(
    alloc: Global,
    form: Form,
    table: &[u8],
    name: &[u8],
    text: &[u8],
    room: &mut [u8],
) -> Result<usize, FieldRefusal>
    ensures { WritesField form table.now name.now text.now room.old room.new result }
{
    let table = read_table(alloc, table)?;
    write_field_under(alloc, form, &table, name, text, room)
}

//! What a context says of a field, as text.

ghost use Rattle.std.specs.Prelude.{IfOk, IfErr};
ghost use Rattle.field_calls.specs.Reading.{IsMisread, IsFieldText, IsTypedContextOf, IsFieldUnread, ReadsField, ReadsFieldUnder};

use crate::fields::field_named;
use crate::refusals::FieldRefusal;
use atom_list::Context;
use bag_scan::State;
use bag_typed::check_typed;
use byte_calls::{TooShort, write_front};
use field_table::Table;
use report_text::value_text;
use std::alloc::Global;
use table_text::read_table;
use wire_bytes::{form_of, offset, read_context};

/// The context of the bytes. Nobody on the way knows the types, so the reader looks whether each
/// atom is spelled as its table says.
fn typed_context(alloc: Global, table: &Table, bytes: &[u8]) -> Result<Context, FieldRefusal>
    ensures read { IfOk result (λ context. IsTypedContextOf table.now context bytes.now) }
    ensures refused { IfErr result (IsMisread table.now bytes.now) }
{
    let context = read_context(alloc, bytes)?;
    match check_typed(table, &context) {
        Ok(()) => Ok(context),
        Err(place) => {
            let offset = offset(form_of(bytes), context.list(), place) as usize;
            Err(FieldRefusal::IllTyped { offset })
        }
    }
}

/// The state of a field in a context, and the text of its value.
fn field_text(
    alloc: Global,
    table: &Table,
    context: &[u8],
    name: &[u8],
) -> Result<(State, Vec<u8>), FieldRefusal>
    ensures read { IfOk result
        (λ read. IsFieldText table.now context.now name.now read.0 read.1.items) }
    ensures refused { IfErr result (IsFieldUnread table.now context.now name.now) }
{
    let field = field_named(alloc, table, name)?;
    let context = typed_context(alloc, table, context)?;
    let reading = field.get(alloc, table, &context)?;
    let text = value_text(alloc, &reading.value, field.shape(table))?;
    Ok((reading.state, text))
}

/// Writes what a context says of one field, as text, at the beginning of `room`, as
/// [`read_field_into`] does, under a table that was read before. It costs what the field and the
/// context cost, and no reading of the table.
pub fn read_field_under(
    alloc: Global,
    table: &Table,
    context: &[u8],
    name: &[u8],
    room: &mut [u8],
) -> Result<(State, usize), FieldRefusal>
    ensures { ReadsFieldUnder table.now context.now name.now room.old room.new result }
{
    let (state, text) = field_text(alloc, table, context, name)?;
    match write_front(&text, room) {
        Ok(size) => Ok((state, size)),
        Err(TooShort { size }) => Err(FieldRefusal::Room { size }),
    }
}

/// Writes what a context says of one field, as text, at the beginning of `room`, and answers
/// whether that is all that was said of the field, and how many bytes the text has.
///
/// `table` is a table as `table_text::print_table` writes it, `name` the name path of one of its
/// slots (names joined by dots), and `context` the bytes of a context in either form. The text is
/// one of `docs/FORMATS.md`, Texts of values. [`FieldRefusal`] has what may be wrong, in the order
/// in which it is looked for; then `room` stays.
pub fn read_field_into(
    alloc: Global,
    table: &[u8],
    context: &[u8],
    name: &[u8],
    room: &mut [u8],
) -> Result<(State, usize), FieldRefusal>
    ensures { ReadsField table.now context.now name.now room.old room.new result }
{
    let table = read_table(alloc, table)?;
    read_field_under(alloc, &table, context, name, room)
}

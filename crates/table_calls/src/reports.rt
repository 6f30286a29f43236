//! What a context says of all slots of a table, as text.

ghost use Rattle.std.specs.Prelude.{IfOk, IfErr};
ghost use Rattle.field_calls.specs.Reading.{IsTypedContextOf};
ghost use Rattle.table_calls.specs.Reports.{IsReportOf, IsUnreported, ReportsInto, ReportsUnder};

use crate::refusals::TableRefusal;
use crate::tables::table_at;
use atom_list::Context;
use bag_typed::check_typed;
use byte_calls::write_front;
use context_json::context_json;
use field_table::Table;
use report_text::block;
use std::alloc::Global;
use wire_bytes::{form_of, offset, read_context};

/// What a report is written as.
#[derive(Clone, Copy, Debug, PartialEq, Eq)]
pub enum ReportForm {
    /// The line of the bytes, and a line for each slot: `bytes 02..`, `hops exact 3`.
    Text,
    /// One object without blanks and without a line feed:
    /// `{"bytes":"02..","fields":[{"path":"hops","state":"exact","text":"3"}]}`.
    Json,
}

/// The context of the bytes. Nobody on the way knows the types, so the reader looks whether each
/// atom is spelled as its table says.
fn typed_context(alloc: Global, table: &Table, bytes: &[u8]) -> Result<Context, TableRefusal>
    ensures read { IfOk result (λ context. IsTypedContextOf table.now context bytes.now) }
    ensures refused { IfErr result (IsUnreported table.now bytes.now) }
{
    let context = read_context(alloc, bytes)?;
    match check_typed(table, &context) {
        Ok(()) => Ok(context),
        Err(place) => {
            let offset = offset(form_of(bytes), context.list(), place) as usize;
            Err(TableRefusal::IllTyped { offset })
        }
    }
}

/// The report of the context of the bytes.
fn report_of(
    alloc: Global,
    report: ReportForm,
    table: &Table,
    bytes: &[u8],
) -> Result<Vec<u8>, TableRefusal>
    ensures made { IfOk result (λ text. IsReportOf report table.now bytes.now text.items) }
    ensures refused { IfErr result (IsUnreported table.now bytes.now) }
{
    let context = typed_context(alloc, table, bytes)?;
    let form = form_of(bytes);
    Ok(match report {
        ReportForm::Text => block(alloc, table, form, &context)?,
        ReportForm::Json => context_json(alloc, table, form, &context)?,
    })
}

/// Writes what a context says of each slot at the beginning of `room`, as [`report_into`] does,
/// under a table that was read before.
pub fn report_under(
    alloc: Global,
    report: ReportForm,
    table: &Table,
    context: &[u8],
    room: &mut [u8],
) -> Result<usize, TableRefusal>
    ensures { ReportsUnder report table.now context.now room.old room.new result }
{
    let text = report_of(alloc, report, table, context)?;
    Ok(write_front(&text, room)?)
}

/// Writes what a context says of each slot of a table at the beginning of `room`, as text or as
/// JSON, and answers how many bytes that has. It also has the digits of the context's bytes, as
/// they are.
///
/// `table` is a table as `table_text::print_table` writes it, and `context` the bytes of a context
/// in either form. [`TableRefusal`] has what may be wrong, in the order in which it is looked for;
/// then `room` stays.
pub fn report_into(
    alloc: Global,
    report: ReportForm,
    table: &[u8],
    context: &[u8],
    room: &mut [u8],
) -> Result<usize, TableRefusal>
    ensures { ReportsInto report table.now context.now room.old room.new result }
{
    let table = table_at(alloc, 0, table)?;
    report_under(alloc, report, &table, context, room)
}

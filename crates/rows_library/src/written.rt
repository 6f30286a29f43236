//! The calls that write into a buffer, by their rows.

use crate::calls::Call;
use crate::choices::{absent_of, budget_of, form_of, literal_of, others_of, report_of};
use crate::fields::{bytes_named, inputs_of, spans_of};
use byte_calls::{Refusal, TooShort, join_into};
use byte_forward::ByteRefusal;
use field_calls::{FieldRefusal, State, read_field_into, write_field_into};
use header_calls::{Extracted, extract_into, to_header_into};
use keep_calls::{KeepRefusal, keep_into};
use piece_calls::{PieceRefusal, carry_into, collect_into, quote_into};
use row_files::{Reason, Row, RowFault};
use std::alloc::Global;
use std::fmt::Display;
use step_calls::{StepRefusal, update_into};
use table_calls::{Change, TableRefusal, evolve_into, report_into};

/// What a call came to.
#[derive(Drop)]
pub enum Outcome {
    /// `size` bytes were written, and this was reported beside them.
    Written { size: usize, told: &'static str },
    /// This was extracted.
    Extracted { found: Extracted },
    /// The buffer is too short: `size` bytes are needed.
    TooShort { size: usize },
    /// It was refused, which this text says.
    Refused { text: String },
}

impl Outcome {
    /// `size` bytes were written.
    fn written(size: usize) -> Outcome {
        Outcome::Written { size, told: "" }
    }

    /// What a refusal says.
    fn refused<E: Display>(alloc: Global, refusal: &E) -> Result<Outcome, RowFault> {
        let text = format!(in alloc; "{refusal}")?;
        Ok(Outcome::Refused { text })
    }
}

/// Joins the inputs.
fn join(alloc: Global, row: Row<'_>, room: &mut [u8]) -> Result<Outcome, RowFault> {
    let form = form_of(row)?;
    let budget = budget_of(row, form)?;
    let inputs = inputs_of(alloc, row)?;
    let spans = spans_of(alloc, &inputs)?;
    match join_into(alloc, form, &spans, budget, room) {
        Ok(size) => Ok(Outcome::written(size)),
        Err(Refusal::Room { size }) => Ok(Outcome::TooShort { size }),
        Err(refusal) => Outcome::refused(alloc, &refusal),
    }
}

/// Updates the inputs.
fn update(alloc: Global, row: Row<'_>, room: &mut [u8]) -> Result<Outcome, RowFault> {
    let form = form_of(row)?;
    let budget = budget_of(row, form)?;
    let inputs = inputs_of(alloc, row)?;
    let spans = spans_of(alloc, &inputs)?;
    let table = row.value("table");
    let writes = row.value("writes");
    match update_into(alloc, form, table, &spans, writes, budget, room) {
        Ok(size) => Ok(Outcome::written(size)),
        Err(StepRefusal::Room { size }) => Ok(Outcome::TooShort { size }),
        Err(refusal) => Outcome::refused(alloc, &refusal),
    }
}

/// Keeps what may leave of the inputs.
fn keep(alloc: Global, row: Row<'_>, room: &mut [u8]) -> Result<Outcome, RowFault> {
    let form = form_of(row)?;
    let budget = budget_of(row, form)?;
    let others = others_of(row)?;
    let inputs = inputs_of(alloc, row)?;
    let spans = spans_of(alloc, &inputs)?;
    let table = row.value("table");
    match keep_into(alloc, form, others, table, &spans, budget, room) {
        Ok(size) => Ok(Outcome::written(size)),
        Err(KeepRefusal::Room { size }) => Ok(Outcome::TooShort { size }),
        Err(refusal) => Outcome::refused(alloc, &refusal),
    }
}

/// Reports the input.
fn report(alloc: Global, row: Row<'_>, room: &mut [u8]) -> Result<Outcome, RowFault> {
    let context = bytes_named(alloc, row, "input")?;
    match report_into(alloc, report_of(row)?, row.value("table"), &context, room) {
        Ok(size) => Ok(Outcome::written(size)),
        Err(TableRefusal::Room { size }) => Ok(Outcome::TooShort { size }),
        Err(refusal) => Outcome::refused(alloc, &refusal),
    }
}

/// Reads a field of the input.
fn read(alloc: Global, row: Row<'_>, room: &mut [u8]) -> Result<Outcome, RowFault> {
    let context = bytes_named(alloc, row, "input")?;
    match read_field_into(alloc, row.value("table"), &context, row.value("name"), room) {
        Ok((State::Exact, size)) => Ok(Outcome::Written {
            size,
            told: "exact",
        }),
        Ok((State::Partial, size)) => Ok(Outcome::Written {
            size,
            told: "partial",
        }),
        Err(FieldRefusal::Room { size }) => Ok(Outcome::TooShort { size }),
        Err(refusal) => Outcome::refused(alloc, &refusal),
    }
}

/// Writes a field.
fn write(alloc: Global, row: Row<'_>, room: &mut [u8]) -> Result<Outcome, RowFault> {
    let form = form_of(row)?;
    let (table, name, text) = (row.value("table"), row.value("name"), row.value("text"));
    match write_field_into(alloc, form, table, name, text, room) {
        Ok(size) => Ok(Outcome::written(size)),
        Err(FieldRefusal::Room { size }) => Ok(Outcome::TooShort { size }),
        Err(refusal) => Outcome::refused(alloc, &refusal),
    }
}

/// The word of a change.
fn word_of(change: Change) -> &'static str {
    match change {
        Change::Fits => "fits",
        Change::Shape => "shape",
        Change::Key => "key",
        Change::Kind => "kind",
    }
}

/// Compares two tables.
fn evolve(alloc: Global, row: Row<'_>, room: &mut [u8]) -> Result<Outcome, RowFault> {
    match evolve_into(alloc, row.value("table"), row.value("next"), room) {
        Ok((change, size)) => Ok(Outcome::Written {
            size,
            told: word_of(change),
        }),
        Err(TableRefusal::Room { size }) => Ok(Outcome::TooShort { size }),
        Err(refusal) => Outcome::refused(alloc, &refusal),
    }
}

/// Carries the input.
fn carry(alloc: Global, row: Row<'_>, room: &mut [u8]) -> Result<Outcome, RowFault> {
    let context = bytes_named(alloc, row, "input")?;
    let width = row.needed("width")?;
    let Ok(width) = usize::try_from(width.number()?) else {
        return Err(width.fault(Reason::Number));
    };
    match carry_into(alloc, &context, width, room) {
        Ok(size) => Ok(Outcome::written(size)),
        Err(PieceRefusal::Room { size }) => Ok(Outcome::TooShort { size }),
        Err(refusal) => Outcome::refused(alloc, &refusal),
    }
}

/// Collects lines.
fn collect(alloc: Global, row: Row<'_>, room: &mut [u8]) -> Result<Outcome, RowFault> {
    match collect_into(alloc, row.value("lines"), room) {
        Ok(size) => Ok(Outcome::written(size)),
        Err(PieceRefusal::Room { size }) => Ok(Outcome::TooShort { size }),
        Err(refusal) => Outcome::refused(alloc, &refusal),
    }
}

/// Writes the literal of the row's bytes.
fn quote(row: Row<'_>, room: &mut [u8]) -> Result<Outcome, RowFault> {
    match quote_into(literal_of(row)?, row.value("quoted"), room) {
        Ok(size) => Ok(Outcome::written(size)),
        Err(TooShort { size }) => Ok(Outcome::TooShort { size }),
    }
}

/// Writes the header's value of the input.
fn to_header(alloc: Global, row: Row<'_>, room: &mut [u8]) -> Result<Outcome, RowFault> {
    let context = bytes_named(alloc, row, "input")?;
    match to_header_into(&context, room) {
        Ok(size) => Ok(Outcome::written(size)),
        Err(ByteRefusal::Room { size }) => Ok(Outcome::TooShort { size }),
        Err(refusal) => Outcome::refused(alloc, &refusal),
    }
}

/// Extracts what the inputs carry, each of which is a value.
fn extract(alloc: Global, row: Row<'_>, room: &mut [u8]) -> Result<Outcome, RowFault> {
    let form = form_of(row)?;
    let budget = budget_of(row, form)?;
    let absent = absent_of(row)?;
    let inputs = inputs_of(alloc, row)?;
    let values = spans_of(alloc, &inputs)?;
    match extract_into(alloc, form, absent, &values, budget, room) {
        Ok(found) => Ok(Outcome::Extracted { found }),
        Err(Refusal::Room { size }) => Ok(Outcome::TooShort { size }),
        Err(refusal) => Outcome::refused(alloc, &refusal),
    }
}

/// Makes the call of a row with this buffer.
pub fn call_into(
    alloc: Global,
    call: Call,
    row: Row<'_>,
    room: &mut [u8],
) -> Result<Outcome, RowFault> {
    match call {
        Call::Join => join(alloc, row, room),
        Call::Update => update(alloc, row, room),
        Call::Keep => keep(alloc, row, room),
        Call::Report => report(alloc, row, room),
        Call::Read => read(alloc, row, room),
        Call::Write => write(alloc, row, room),
        Call::Evolve => evolve(alloc, row, room),
        Call::Carry => carry(alloc, row, room),
        Call::Collect => collect(alloc, row, room),
        Call::Quote => quote(row, room),
        Call::ToHeader => to_header(alloc, row, room),
        Call::Extract => extract(alloc, row, room),
        Call::Check | Call::Slots | Call::Places | Call::Chosen => {
            Err(RowFault::At(row.line, Reason::Word))
        }
    }
}

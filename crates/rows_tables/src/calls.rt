//! A row, run.

use crate::accessors::run_accessors;
use crate::definitions::run_compile;
use crate::evolutions::run_evolve;
use crate::slots::{run_read_slot, run_write_slot};
use crate::table_texts::run_read_table;
use row_files::{Reason, Row, RowFault, Told};
use std::alloc::Global;

/// What a row calls.
#[derive(Clone, Copy)]
enum Call {
    Compile,
    Evolve,
    ReadTable,
    Accessors,
    ReadSlot,
    WriteSlot,
}

impl Call {
    /// What the row calls.
    fn of(row: Row<'_>) -> Result<Call, RowFault> {
        let field = row.needed("call")?;
        match field.text()? {
            "compile" => Ok(Call::Compile),
            "evolve" => Ok(Call::Evolve),
            "read_table" => Ok(Call::ReadTable),
            "accessors" => Ok(Call::Accessors),
            "read_slot" => Ok(Call::ReadSlot),
            "write_slot" => Ok(Call::WriteSlot),
            _ => Err(field.fault(Reason::Word)),
        }
    }

    /// The names of the fields that such a row may have once.
    fn names(self) -> &'static [&'static str] {
        match self {
            Call::Compile => &[
                "call", "root", "bag", "before", "slots", "fields", "table", "asked", "fault",
            ],
            Call::Evolve => &["call", "bag", "old", "new", "verdict", "breaks"],
            Call::ReadTable => &["call", "text", "printed", "fault"],
            Call::Accessors => &["call", "table", "names", "others"],
            Call::ReadSlot => &["call", "table", "name", "context", "state", "value"],
            Call::WriteSlot => &["call", "table", "name", "form", "text", "context"],
        }
    }

    /// The names of those that may be more than once.
    fn often(self) -> &'static [&'static str] {
        match self {
            Call::Compile => &["file", "fail"],
            _ => &[],
        }
    }
}

/// Runs a row, and tells what differs.
pub fn run_row(alloc: Global, row: Row<'_>, told: &mut Told<'_>) -> Result<(), RowFault> {
    let call = Call::of(row)?;
    row.check_names(call.names(), call.often())?;
    match call {
        Call::Compile => run_compile(alloc, row, told),
        Call::Evolve => run_evolve(alloc, row, told),
        Call::ReadTable => run_read_table(alloc, row, told),
        Call::Accessors => run_accessors(alloc, row, told),
        Call::ReadSlot => run_read_slot(alloc, row, told),
        Call::WriteSlot => run_write_slot(alloc, row, told),
    }
}

//! Rows of tables as texts: printed as they were read, or their first faults.

use crate::answers::{expect_fault, expect_none};
use field_table::Table;
use row_files::{Field, Reason, Row, RowFault, Told};
use std::alloc::Global;
use table_text::{TableFault, TableText};

/// The table that a field says, which must have no fault.
pub fn table_of(alloc: Global, field: &Field<'_>) -> Result<Table, RowFault> {
    match Table::read(alloc, field.value()) {
        Ok(table) => Ok(table),
        Err(TableFault::Memory) => Err(RowFault::Memory),
        Err(TableFault::At { .. }) => Err(field.fault(Reason::Word)),
    }
}

/// Tells where a table isn't printed as it was read, or as the row's field `printed` says.
fn expect_printed(
    alloc: Global,
    table: &Table,
    text: &Field<'_>,
    row: Row<'_>,
    told: &mut Told<'_>,
) -> Result<(), RowFault> {
    let printed = table.print(alloc)?;
    let wanted = row.field("printed").unwrap_or(text);
    told.expect_bytes("printed", &printed, wanted.value())?;
    expect_none(row, told)
}

/// Runs a row of `read_table`: the table that a text says, or the first fault.
pub fn run_read_table(alloc: Global, row: Row<'_>, told: &mut Told<'_>) -> Result<(), RowFault> {
    let text = row.needed("text")?;
    match Table::read(alloc, text.value()) {
        Ok(table) => expect_printed(alloc, &table, text, row, told),
        Err(TableFault::At { line, code }) => {
            let fault = format!(in alloc; "{line} {code}")?;
            expect_fault(fault.as_str(), row, told)
        }
        Err(TableFault::Memory) => Err(RowFault::Memory),
    }
}

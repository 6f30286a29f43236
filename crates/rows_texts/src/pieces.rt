//! Rows of bytes as lines of text.

use outside::Memory;
use row_files::{Reason, Row, RowFault, Told, expect_digits, expect_fault_at, expect_no_fault};
use std::alloc::Global;
use text_carrier::{
    CARRIED_MAX, CarryFault, WIDTH_MAX, WIDTH_MIN, carry, carry_and_collect, collect,
};

/// Tells where the lines of some bytes aren't those of the row.
fn expect_lines(
    text: Result<Vec<u8>, Memory>,
    row: Row<'_>,
    told: &mut Told<'_>,
) -> Result<(), RowFault> {
    match text {
        Ok(text) => told.expect_bytes("lines", &text, row.needed("lines")?.value())?,
        Err(Memory) => return Err(RowFault::Memory),
    }
    Ok(())
}

/// Tells where what is collected isn't the bytes of the row, or is refused otherwise.
fn expect_collected(
    alloc: Global,
    answer: Result<Vec<u8>, CarryFault>,
    row: Row<'_>,
    told: &mut Told<'_>,
) -> Result<(), RowFault> {
    match answer {
        Ok(bytes) => {
            expect_no_fault(row, told)?;
            expect_digits(alloc, "bytes", &bytes, row, told)
        }
        Err(CarryFault::At { line, code }) => expect_fault_at(alloc, line, &code, row, told),
        Err(CarryFault::Memory) => Err(RowFault::Memory),
        Err(fault) => expect_fault_at(alloc, 0, &fault, row, told),
    }
}

/// Runs a row of bytes that are carried by lines, and collected again.
pub fn run_carry(alloc: Global, row: Row<'_>, told: &mut Told<'_>) -> Result<(), RowFault> {
    row.check_names(&["call", "width", "bytes", "lines"], &[])?;
    let width = row.needed("width")?.count()?;
    let bytes = row.needed("bytes")?.bytes(alloc)?;
    if width < WIDTH_MIN || WIDTH_MAX < width || CARRIED_MAX < bytes.len() {
        return Err(row.needed("width")?.fault(Reason::Number));
    }
    expect_lines(carry(alloc, &bytes, width), row, told)?;
    expect_collected(alloc, carry_and_collect(alloc, &bytes, width), row, told)
}

/// Runs a row of lines that are collected.
pub fn run_collect(alloc: Global, row: Row<'_>, told: &mut Told<'_>) -> Result<(), RowFault> {
    row.check_names(&["call", "lines", "bytes", "fault"], &[])?;
    let answer = collect(alloc, row.needed("lines")?.value());
    expect_collected(alloc, answer, row, told)
}

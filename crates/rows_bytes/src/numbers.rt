//! Rows of numbers and their codes.

use lex_varint::{put_i64, put_u64, take_i64, take_u64};
use row_files::{Row, RowFault, Told, expect_count, expect_fault, expect_no_fault, expect_word};
use std::alloc::Global;

/// The names of the fields of such rows.
const NAMES: &[&str] = &["call", "bytes", "number", "size", "fault"];

/// Tells where the code of a number isn't what the bytes begin with, or hasn't the size that the
/// row says.
fn expect_code(
    code: &[u8],
    size: usize,
    bytes: &[u8],
    row: Row<'_>,
    told: &mut Told<'_>,
) -> Result<(), RowFault> {
    expect_no_fault(row, told)?;
    expect_count("size", size as u64, row, told)?;
    told.expect_bytes("code", code, bytes.get(..size).unwrap_or(&[]))?;
    Ok(())
}

/// Runs a row of an unsigned number, which bytes begin with.
pub fn run_unsigned(alloc: Global, row: Row<'_>, told: &mut Told<'_>) -> Result<(), RowFault> {
    row.check_names(NAMES, &[])?;
    let bytes = row.needed("bytes")?.bytes(alloc)?;
    match take_u64(&bytes) {
        Ok((number, size)) => {
            expect_count("number", number, row, told)?;
            expect_code(put_u64(number).as_slice(), size, &bytes, row, told)
        }
        Err(fault) => expect_fault(alloc, &fault, row, told),
    }
}

/// Runs a row of a signed number, which bytes begin with.
pub fn run_signed(alloc: Global, row: Row<'_>, told: &mut Told<'_>) -> Result<(), RowFault> {
    row.check_names(NAMES, &[])?;
    let bytes = row.needed("bytes")?.bytes(alloc)?;
    match take_i64(&bytes) {
        Ok((number, size)) => {
            let text = format!(in alloc; "{number}")?;
            expect_word("number", text.as_str(), row, told)?;
            expect_code(put_i64(number).as_slice(), size, &bytes, row, told)
        }
        Err(fault) => expect_fault(alloc, &fault, row, told),
    }
}

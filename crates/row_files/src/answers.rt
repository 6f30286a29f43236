//! What calls answer, as row files have it, beside what a row says.

use crate::faults::RowFault;
use crate::rows::Row;
use crate::told::Told;
use std::alloc::{AllocError, Global};
use std::fmt::{Display, Write};
use text_lines::push_hex;

/// Tells where bytes aren't those that the field of this name says in digits.
pub fn expect_digits(
    alloc: Global,
    name: &'static str,
    bytes: &[u8],
    row: Row<'_>,
    told: &mut Told<'_>,
) -> Result<(), RowFault> {
    let mut digits = Vec::new(alloc);
    push_hex(&mut digits, bytes)?;
    told.expect_bytes(name, &digits, row.needed(name)?.value())?;
    Ok(())
}

/// Tells where a call that answers is to be refused.
pub fn expect_no_fault(row: Row<'_>, told: &mut Told<'_>) -> Result<(), AllocError> {
    told.expect_bytes("fault", b"", row.value("fault"))
}

/// Tells where the fault of a call isn't that of the row.
pub fn expect_fault<E: Display>(
    alloc: Global,
    fault: &E,
    row: Row<'_>,
    told: &mut Told<'_>,
) -> Result<(), RowFault> {
    let text = format!(in alloc; "{fault}")?;
    told.expect_bytes("fault", text.as_bytes(), row.value("fault"))?;
    Ok(())
}

/// The same of a fault at a place.
pub fn expect_fault_at<E: Display>(
    alloc: Global,
    place: u64,
    fault: &E,
    row: Row<'_>,
    told: &mut Told<'_>,
) -> Result<(), RowFault> {
    let text = format!(in alloc; "{place} {fault}")?;
    told.expect_bytes("fault", text.as_bytes(), row.value("fault"))?;
    Ok(())
}

/// Tells where a word isn't that of the field of this name.
pub fn expect_word(
    name: &'static str,
    word: &str,
    row: Row<'_>,
    told: &mut Told<'_>,
) -> Result<(), RowFault> {
    told.expect_bytes(name, word.as_bytes(), row.needed(name)?.value())?;
    Ok(())
}

/// Tells where an answer of yes or no isn't that of the field of this name.
pub fn expect_whether(
    name: &'static str,
    answer: bool,
    row: Row<'_>,
    told: &mut Told<'_>,
) -> Result<(), RowFault> {
    expect_word(name, if answer { "yes" } else { "no" }, row, told)
}

/// Tells where a number isn't that of the field of this name.
pub fn expect_count(
    name: &'static str,
    count: u64,
    row: Row<'_>,
    told: &mut Told<'_>,
) -> Result<(), RowFault> {
    told.expect_number(name, count, row.needed(name)?.number()?)?;
    Ok(())
}

/// Tells where numbers aren't those that the field of this name says, with blanks between them.
pub fn expect_counts(
    alloc: Global,
    name: &'static str,
    counts: &[usize],
    row: Row<'_>,
    told: &mut Told<'_>,
) -> Result<(), RowFault> {
    let mut text = String::new(alloc);
    for count in counts {
        if !text.is_empty() {
            text.push(' ')?;
        }
        write!(&mut text, "{count}")?;
    }
    expect_word(name, text.as_str(), row, told)
}

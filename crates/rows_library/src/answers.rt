//! Calls that answer a number alone.

use crate::fields::inputs_of;
use byte_frames::check_bytes;
use row_files::{Row, RowFault, Told};
use std::alloc::Global;
use std::fmt::Display;
use table_calls::check_table;

/// Reports where a call that was refused so is to be answered, or refused otherwise.
pub fn expect_refused<E: Display>(
    alloc: Global,
    refusal: &E,
    row: Row<'_>,
    told: &mut Told<'_>,
) -> Result<(), RowFault> {
    let text = format!(in alloc; "{refusal}")?;
    told.expect_bytes("refused", text.as_bytes(), row.value("refused"))?;
    Ok(())
}

/// Reports where a number isn't that of the row's field of this name, or the row has a refusal.
fn expect_count(
    name: &'static str,
    found: usize,
    row: Row<'_>,
    told: &mut Told<'_>,
) -> Result<(), RowFault> {
    told.expect_bytes("refused", b"", row.value("refused"))?;
    told.expect_number(name, found as u64, row.needed(name)?.number()?)?;
    Ok(())
}

/// Runs a row of `check`: the one input is a context with this number of atoms.
pub fn run_check(alloc: Global, row: Row<'_>, told: &mut Told<'_>) -> Result<(), RowFault> {
    let inputs = inputs_of(alloc, row)?;
    for input in &inputs {
        match check_bytes(input) {
            Ok(atoms) => expect_count("atoms", atoms, row, told)?,
            Err(fault) => expect_refused(alloc, &fault, row, told)?,
        }
    }
    Ok(())
}

/// Runs a row of `slots`: the text is that of a table with this number of slots.
pub fn run_slots(alloc: Global, row: Row<'_>, told: &mut Told<'_>) -> Result<(), RowFault> {
    match check_table(alloc, row.value("table")) {
        Ok(slots) => expect_count("slots", slots, row, told),
        Err(refusal) => expect_refused(alloc, &refusal, row, told),
    }
}

//! A row, run.

use crate::pieces::{run_carry, run_collect};
use crate::texts::{
    run_cut_word, run_decimal, run_digits, run_lines, run_number_below, run_take_number, run_word,
};
use row_files::{Reason, Row, RowFault, Told};
use std::alloc::Global;

/// Runs a row, and tells what differs.
pub fn run_row(alloc: Global, row: Row<'_>, told: &mut Told<'_>) -> Result<(), RowFault> {
    let field = row.needed("call")?;
    match field.text()? {
        "carry" => run_carry(alloc, row, told),
        "collect" => run_collect(alloc, row, told),
        "decimal" => run_decimal(row, told),
        "number_below" => run_number_below(row, told),
        "take_number" => run_take_number(row, told),
        "cut_word" => run_cut_word(row, told),
        "word" => run_word(row, told),
        "lines" => run_lines(alloc, row, told),
        "digits" => run_digits(alloc, row, told),
        _ => Err(field.fault(Reason::Word)),
    }
}

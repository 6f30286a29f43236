//! A row, run.

use crate::faults::RunFault;
use crate::spellings::{run_compare, run_fits, run_same, run_spell, run_word};
use row_files::{Reason, Row, Told};
use std::alloc::Global;

/// Runs a row, and tells what differs.
pub fn run_row(alloc: Global, row: Row<'_>, told: &mut Told<'_>) -> Result<(), RunFault> {
    let field = row.needed("call")?;
    match field.text()? {
        "scalar_word" => run_word(row, told),
        "spell" => run_spell(alloc, row, told),
        "fits" => run_fits(alloc, row, told),
        "same" => run_same(alloc, row, told),
        "compare" => run_compare(alloc, row, told),
        _ => Err(RunFault::Row(field.fault(Reason::Word))),
    }
}

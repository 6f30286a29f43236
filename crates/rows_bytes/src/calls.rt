//! A row, run.

use crate::atoms::{run_kind, run_order, run_parts};
use crate::contexts::{run_around, run_check, run_drop, run_ended};
use crate::cuts::{run_forward, run_trim};
use crate::lists::run_cut;
use crate::merges::{run_merge, run_merge_lists};
use crate::numbers::{run_signed, run_unsigned};
use crate::wire::{run_context, run_read, run_write};
use row_files::{Reason, Row, RowFault, Told};
use std::alloc::Global;

/// Runs a row, and tells what differs.
pub fn run_row(alloc: Global, row: Row<'_>, told: &mut Told<'_>) -> Result<(), RowFault> {
    let field = row.needed("call")?;
    match field.text()? {
        "unsigned" => run_unsigned(alloc, row, told),
        "signed" => run_signed(alloc, row, told),
        "kind" => run_kind(alloc, row, told),
        "parts" => run_parts(alloc, row, told),
        "order" => run_order(alloc, row, told),
        "read" => run_read(alloc, row, told),
        "context" => run_context(alloc, row, told),
        "write" => run_write(alloc, row, told),
        "check" => run_check(alloc, row, told),
        "ended" => run_ended(alloc, row, told),
        "around" => run_around(alloc, row, told),
        "drop" => run_drop(alloc, row, told),
        "cut" => run_cut(alloc, row, told),
        "merge" => run_merge(alloc, row, told),
        "merge_lists" => run_merge_lists(alloc, row, told),
        "trim" => run_trim(alloc, row, told),
        "forward" => run_forward(alloc, row, told),
        _ => Err(field.fault(Reason::Word)),
    }
}

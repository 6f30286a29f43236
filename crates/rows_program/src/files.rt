//! The rows of a file.

use crate::calls::run_row;
use row_files::{Item, Row, RowFault, Told, items_of};
use std::alloc::{AllocError, Global};
use std::thread::Threads;

/// Runs a row, and counts it.
fn run_counted<R: Threads + Sync>(
    rt: &R,
    alloc: Global,
    row: Row<'_>,
    told: &mut Told<'_>,
) -> Result<(), AllocError> {
    told.begin_row(row.line);
    if let Err(fault) = run_row(rt, alloc, row, told) {
        told.tell_fault(fault)?;
    }
    told.end_row();
    Ok(())
}

/// Counts an item that can't be read, and reports why.
fn count_unread(line: usize, fault: RowFault, told: &mut Told<'_>) -> Result<(), AllocError> {
    told.begin_row(line);
    told.tell_fault(fault)?;
    told.end_row();
    Ok(())
}

/// Runs the rows among the items of a file.
fn run_items<R: Threads + Sync>(
    rt: &R,
    alloc: Global,
    items: &[Item<'_>],
    told: &mut Told<'_>,
) -> Result<(), AllocError> {
    let mut shared = Vec::new(alloc);
    for item in items {
        match item.fields(alloc) {
            Ok(fields) if item.is_shared() => shared = fields,
            Ok(fields) => {
                let row = Row {
                    line: item.line(),
                    shared: shared.as_slice(),
                    own: fields.as_slice(),
                };
                run_counted(rt, alloc, row, told)?;
            }
            Err(fault) => count_unread(item.line(), fault, told)?,
        }
    }
    Ok(())
}

/// Runs the rows of a file with this text. A file without rows is a difference.
pub fn run_file<R: Threads + Sync>(
    rt: &R,
    alloc: Global,
    text: &str,
    told: &mut Told<'_>,
) -> Result<(), AllocError> {
    let items = items_of(alloc, text)?;
    run_items(rt, alloc, items.as_slice(), told)?;
    if told.count().is_empty() {
        told.tell_file("has no rows")?;
    }
    Ok(())
}

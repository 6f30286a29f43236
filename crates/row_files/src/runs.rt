//! Row files, run.

use crate::faults::RowFault;
use crate::items::{Item, items_of};
use crate::rows::Row;
use crate::told::{Count, Told};
use std::alloc::{AllocError, Global};
use std::env::{self, Env};
use std::rt::Files;
use std::{fs, io};

/// What runs a row.
pub trait RunRow {
    /// Runs a row, and tells what differs. The fault says why the row wasn't run to its end.
    fn run_row(&self, alloc: Global, row: Row<'_>, told: &mut Told<'_>) -> Result<(), RowFault>;
}

/// Runs a row, and counts it.
fn run_counted<D: RunRow>(
    driver: &D,
    alloc: Global,
    row: Row<'_>,
    told: &mut Told<'_>,
) -> Result<(), AllocError> {
    told.begin_row(row.line);
    if let Err(fault) = driver.run_row(alloc, row, told) {
        told.tell_fault(fault)?;
    }
    told.end_row();
    Ok(())
}

/// Counts an item that can't be read, and reports why.
fn count_unread(line: usize, fault: RowFault, told: &mut Told<'_>) -> Result<(), AllocError> {
    told.begin_row(line);
    told.tell_fault(fault)?;
    told.end_row();
    Ok(())
}

/// Runs the rows among the items of a file.
fn run_items<D: RunRow>(
    driver: &D,
    alloc: Global,
    items: &[Item<'_>],
    told: &mut Told<'_>,
) -> Result<(), AllocError> {
    let mut shared = Vec::new(alloc);
    for item in items {
        match item.fields(alloc) {
            Ok(fields) if item.is_shared() => shared = fields,
            Ok(fields) => {
                let row = Row {
                    line: item.line(),
                    shared: shared.as_slice(),
                    own: fields.as_slice(),
                };
                run_counted(driver, alloc, row, told)?;
            }
            Err(fault) => count_unread(item.line(), fault, told)?,
        }
    }
    Ok(())
}

/// Runs the rows of a file with this text. A file without rows is a difference.
fn run_text<D: RunRow>(
    driver: &D,
    alloc: Global,
    text: &str,
    told: &mut Told<'_>,
) -> Result<(), AllocError> {
    let items = items_of(alloc, text)?;
    run_items(driver, alloc, items.as_slice(), told)?;
    if told.count().is_empty() {
        told.tell_file("has no rows")?;
    }
    Ok(())
}

/// Runs the rows of the named file. One that can't be read is a difference.
fn run_named<R, D>(
    rt: &R,
    alloc: Global,
    driver: &D,
    name: &str,
    told: &mut Told<'_>,
) -> io::Result<()>
where
    R: Files + AllocGlobal,
    D: RunRow,
{
    match fs::read_to_string(rt, name) {
        Ok(text) => run_text(driver, alloc, text.as_str(), told)?,
        Err(_) => told.tell_file("can't be read as text")?,
    }
    Ok(())
}

/// Runs the rows of the named file, prints what differs, and answers how many there were.
fn count_named<R, D>(rt: &R, alloc: Global, driver: &D, name: &str) -> io::Result<Count>
where
    R: Files + Print + AllocGlobal,
    D: RunRow,
{
    let mut told = Told::new(alloc, name);
    run_named(rt, alloc, driver, name, &mut told)?;
    print!(rt; "{}", told.text())?;
    Ok(told.count())
}

/// Runs the rows of each file that the arguments name, prints what differs, and answers how many
/// rows there were.
pub fn run_files<R, D>(rt: &R, alloc: Global, driver: &D) -> io::Result<Count>
where
    R: Files + Env + Print + AllocGlobal,
    D: RunRow,
{
    let mut count = Count::new();
    for name in env::args(rt)?.skip(1) {
        count.add(count_named(rt, alloc, driver, name.as_str())?);
    }
    Ok(count)
}

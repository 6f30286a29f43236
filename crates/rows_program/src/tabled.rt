//! A graph, run under a definition and under the table of it.

use crate::objects::{Objects, call, cut_words, library_of, sink_of, source_of, wanting};
use outside::MemoryLibrary;
use row_files::{Row, RowFault, Told};
use std::alloc::Global;
use std::fmt::Write;
use std::thread::Threads;

/// Objects with this library and this input, none of which fails.
fn objects_over(alloc: Global, library: MemoryLibrary, input: &[u8]) -> Result<Objects, RowFault> {
    Ok(Objects {
        library,
        source: source_of(alloc, input, 61, Vec::new(alloc))?,
        out: sink_of(alloc, 1 << 19, 5, Vec::new(alloc))?,
        errs: sink_of(alloc, 256, 11, Vec::new(alloc))?,
    })
}

/// Runs the graph of the row with this command, and reports where the report differs.
fn expect_report<R: Threads + Sync>(
    rt: &R,
    alloc: Global,
    row: Row<'_>,
    command: &str,
    library: MemoryLibrary,
    told: &mut Told<'_>,
) -> Result<(), RowFault> {
    let mut objects = objects_over(alloc, library, row.value("input"))?;
    let words = cut_words(alloc, command)?;
    let status = call(rt, alloc, &words, &mut objects);
    told.expect_number("status", u64::from(status), 0)?;
    told.expect_bytes("out", objects.out.taken(), row.value("out"))?;
    told.expect_bytes("errs", objects.errs.taken(), row.value("errs"))?;
    Ok(())
}

/// The library that holds the printed table of the row's bag alone, as `t`.
fn table_library<R: Threads + Sync>(
    rt: &R,
    alloc: Global,
    row: Row<'_>,
    command: &str,
    told: &mut Told<'_>,
) -> Result<MemoryLibrary, RowFault> {
    let library = library_of(alloc, row, Vec::new(alloc))?;
    let mut objects = objects_over(alloc, library, b"")?;
    let words = cut_words(alloc, command)?;
    let status = call(rt, alloc, &words, &mut objects);
    told.expect_number("status", u64::from(status), 0)?;
    let mut tables = MemoryLibrary::new(alloc, Vec::new(alloc));
    tables.add("t", objects.out.taken()).map_err(wanting)?;
    Ok(tables)
}

/// A command on the row's file and bag.
fn command_of(alloc: Global, name: &str, row: Row<'_>) -> Result<String, RowFault> {
    let bag = row.needed("bag")?.text()?;
    let mut command = String::new(alloc);
    write!(&mut command, "{name} {bag}")?;
    Ok(command)
}

/// Runs a row of a graph under its definition, and again under the table that is printed of it.
pub fn run_tabled<R: Threads + Sync>(
    rt: &R,
    alloc: Global,
    row: Row<'_>,
    told: &mut Told<'_>,
) -> Result<(), RowFault> {
    let run = command_of(alloc, "run", row)?;
    let library = library_of(alloc, row, Vec::new(alloc))?;
    expect_report(rt, alloc, row, run.as_str(), library, told)?;
    let table = command_of(alloc, "table", row)?;
    let tables = table_library(rt, alloc, row, table.as_str(), told)?;
    expect_report(rt, alloc, row, "runtable t", tables, told)
}

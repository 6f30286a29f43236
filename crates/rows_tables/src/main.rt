//! Runs row files on the calls for definitions and tables: tells each difference with its file and
//! line, and counts. The arguments are the names of the files. The functions of this crate promise
//! that they are safe and return, and no more: what is reported of the rows that must differ is
//! tried by a run.
#![tactic(auto)]

mod accessors;
mod answers;
mod calls;
mod definitions;
mod evolutions;
mod libraries;
mod slots;
mod table_texts;

use calls::run_row;
use row_files::{Row, RowFault, RunRow, Told, run_files};
use std::alloc::Global;
use std::io;
use std::process::ExitCode;

/// Runs rows on the calls of this layer.
struct OnTables;

impl RunRow for OnTables {
    fn run_row(&self, alloc: Global, row: Row<'_>, told: &mut Told<'_>) -> Result<(), RowFault> {
        run_row(alloc, row, told)
    }
}

fn main(rt: HostRuntime) -> io::Result<ExitCode> {
    let count = run_files(&rt, rt.alloc(), &OnTables)?;
    println!(rt; "{count}")?;
    Ok(ExitCode::from(u8::from(count.differs())))
}

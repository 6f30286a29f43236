//! Runs row files on the calls for the kinds of scalars: tells each difference with its file and
//! line, and counts. The arguments are the names of the files. The functions of this crate promise
//! that they are safe and return, and no more: what is reported of the rows that must differ is
//! tried by a run.
#![tactic(auto)]

mod calls;
mod faults;
mod fields;
mod scalars;
mod spellings;

use calls::run_row;
use faults::RunFault;
use row_files::{Row, RowFault, RunRow, Told, run_files};
use std::alloc::Global;
use std::io;
use std::process::ExitCode;

/// Runs rows on the calls of this layer.
struct OnScalars;

impl RunRow for OnScalars {
    fn run_row(&self, alloc: Global, row: Row<'_>, told: &mut Told<'_>) -> Result<(), RowFault> {
        match run_row(alloc, row, told) {
            Ok(()) => Ok(()),
            Err(RunFault::Row(fault)) => Err(fault),
            Err(RunFault::No(name)) => Ok(told.expect_bytes(name, b"no", b"yes")?),
            Err(RunFault::Memory) => Err(RowFault::Memory),
        }
    }
}

fn main(rt: HostRuntime) -> io::Result<ExitCode> {
    let count = run_files(&rt, rt.alloc(), &OnScalars)?;
    println!(rt; "{count}")?;
    Ok(ExitCode::from(u8::from(count.differs())))
}

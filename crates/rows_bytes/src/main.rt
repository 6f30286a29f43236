//! Runs row files on the calls for bytes: numbers, atoms, lists, contexts, merges and cuts.
//! Tells each difference with its file and line, and counts. The arguments are the names
//! of the files. The functions of this crate promise that they are safe and return, and no more:
//! what is reported of the rows that must differ is tried by a run.
#![tactic(auto)]

mod answers;
mod atoms;
mod calls;
mod contexts;
mod cuts;
mod fields;
mod lists;
mod merges;
mod numbers;
mod wire;

use calls::run_row;
use row_files::{Row, RowFault, RunRow, Told, run_files};
use std::alloc::Global;
use std::io;
use std::process::ExitCode;

/// Runs rows on the calls of this layer.
struct OnBytes;

impl RunRow for OnBytes {
    fn run_row(&self, alloc: Global, row: Row<'_>, told: &mut Told<'_>) -> Result<(), RowFault> {
        run_row(alloc, row, told)
    }
}

fn main(rt: HostRuntime) -> io::Result<ExitCode> {
    let count = run_files(&rt, rt.alloc(), &OnBytes)?;
    println!(rt; "{count}")?;
    Ok(ExitCode::from(u8::from(count.differs())))
}

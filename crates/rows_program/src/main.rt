//! Runs row files on the program, over objects in memory: reports each difference with its file and
//! line, and counts. The arguments are the names of the files. The functions of this crate promise
//! that they are safe and return, and no more: what is reported of the rows that must differ is
//! tried by a run.
#![tactic(auto)]

mod calls;
mod failing;
mod files;
mod objects;
mod tabled;

use files::run_file;
use row_files::{Count, Told};
use std::alloc::Global;
use std::env::{self, Env};
use std::process::ExitCode;
use std::rt::Files;
use std::thread::Threads;
use std::{fs, io};

/// Runs the rows of the named file. One that can't be read is a difference.
fn run_named<R>(rt: &R, alloc: Global, name: &str, told: &mut Told<'_>) -> io::Result<()>
where
    R: Threads + Sync + Files + AllocGlobal,
{
    match fs::read_to_string(rt, name) {
        Ok(text) => run_file(rt, alloc, text.as_str(), told)?,
        Err(_) => told.tell_file("can't be read as text")?,
    }
    Ok(())
}

/// Runs the rows of the named file, prints what differs, and answers how many there were.
fn count_named<R>(rt: &R, alloc: Global, name: &str) -> io::Result<Count>
where
    R: Threads + Sync + Files + Print + AllocGlobal,
{
    let mut told = Told::new(alloc, name);
    run_named(rt, alloc, name, &mut told)?;
    print!(rt; "{}", told.text())?;
    Ok(told.count())
}

/// Runs each named file.
fn run_all<R>(rt: &R, alloc: Global) -> io::Result<Count>
where
    R: Threads + Sync + Files + Env + Print + AllocGlobal,
{
    let mut count = Count::new();
    for name in env::args(rt)?.skip(1) {
        count.add(count_named(rt, alloc, name.as_str())?);
    }
    Ok(count)
}

fn main(rt: HostRuntime) -> io::Result<ExitCode> {
    let count = run_all(&rt, rt.alloc())?;
    println!(rt; "{count}")?;
    Ok(ExitCode::from(u8::from(count.differs())))
}

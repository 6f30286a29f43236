//! The longest load, made and run.

use fixture_program::output_of;
use std::alloc::Global;
use std::fmt::Write;
use std::test::Fail;

/// What eight writers have counted, each as often as there are rounds.
fn counts(alloc: Global, rounds: u32) -> Result<String, Fail> {
    let mut text = format!(in alloc; "0x7730:{rounds}")?;
    for writer in 1..8 {
        write!(text, ",0x773{writer}:{rounds}")?;
    }
    Ok(text)
}

/// The numbers below this one.
fn numbers(alloc: Global, bound: u32) -> Result<String, Fail> {
    let mut text = String::from_str(alloc, "0")?;
    for number in 1..bound {
        write!(text, ",{number}")?;
    }
    Ok(text)
}

/// How the report of the longest load begins.
const HEAD: &str = "load 1000\nsteps 42001\nstep 42000\nbytes 02f80005";

#[test]
fn the_longest_load(rt: HostRuntime) -> Result<(), Fail> {
    let alloc = rt.alloc();
    let output = output_of(&rt, alloc, "load 1000", "")?;
    assert!(rt; output.starts_with(HEAD));
    let counts = counts(alloc, 1000)?;
    let numbers = numbers(alloc, 256)?;
    let tail = format!(in alloc;
        "\nleast exact 992001\nhits exact 8000{{{counts}}}\nseen exact {{{numbers}}}\n"
    )?;
    assert!(rt; output.ends_with(tail.as_str()));
    Ok(())
}

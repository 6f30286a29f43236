//! What calls must come to, as rows of tables have it.

use crate::FILES;
use crate::calls::{Answer, answer_of_line};
use crate::objects::Objects;
use std::alloc::Global;
use std::test::Fail;
use std::thread::Threads;

/// Fails where the bytes that a call wrote or left are others than these.
fn expect_same(found: &[u8], wanted: &[u8], line: &str, place: &str) -> Result<(), Fail> {
    if found == wanted {
        return Ok(());
    }
    let found = str::from_utf8(found).unwrap_or("no text");
    Err(Fail::new(format_args!("{line}: other {place}: {found}")))
}

/// Fails where a call came to something else than a row has: its status, what it wrote, and what it
/// left of the input. It must write the text to the output with status 0, and to the errors
/// otherwise. Nothing may be on the other of the two.
fn expect_answer(
    came: &Answer,
    line: &str,
    status: u8,
    text: &str,
    left: &[u8],
) -> Result<(), Fail> {
    let (out, errs) = if status == 0 { (text, "") } else { ("", text) };
    if came.status != status {
        let found = came.status;
        return Err(Fail::new(format_args!("{line}: status {found} in place of {status}, {text}")));
    }
    expect_same(came.out.as_slice(), out.as_bytes(), line, "output")?;
    expect_same(came.errs.as_slice(), errs.as_bytes(), line, "errors")?;
    expect_same(came.left.as_slice(), left, line, "rest of the input")
}

/// Whether a call with this status must leave the input as it was: it answers before it reads, or
/// doesn't read.
fn leaves_input(line: &str, status: u8) -> bool {
    let silent = ["check", "table", "load", "evolve"];
    status == 1 || status == 7 || silent.iter().any(|name| line.starts_with(*name))
}

/// Calls the program with these files and this input, and fails where it answers, writes or leaves
/// something else than a row has. It leaves the input where it answers before it reads.
pub fn expect_row<R: Threads + Sync>(
    rt: &R,
    alloc: Global,
    files: &str,
    line: &str,
    input: &[u8],
    status: u8,
    text: &str,
) -> Result<(), Fail> {
    let mut objects = Objects::new(alloc, files, input)?;
    let came = answer_of_line(rt, alloc, line, &mut objects)?;
    let left = if leaves_input(line, status) {
        input
    } else {
        b"".as_slice()
    };
    expect_answer(&came, line, status, text, left)
}

/// What the program writes with status 0, with the definitions that most calls are made with.
pub fn output_of<R: Threads + Sync>(
    rt: &R,
    alloc: Global,
    line: &str,
    input: &str,
) -> Result<String, Fail> {
    let mut objects = Objects::new(alloc, FILES, input.as_bytes())?;
    let came = answer_of_line(rt, alloc, line, &mut objects)?;
    if came.status != 0 {
        let found = came.status;
        return Err(Fail::new(format_args!("{line}: status {found}")));
    }
    Ok(String::from_utf8(came.out)?)
}

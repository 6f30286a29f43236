//! Calls of the program.

use crate::objects::Objects;
use baggage_cli::baggage_top;
use outside::{Gate, Open, Text, Words};
use std::alloc::Global;
use std::test::Fail;
use std::thread::Threads;

/// The words of a line, which is cut at blanks.
fn words_of(alloc: Global, line: &str) -> Result<Vec<&str>, Fail> {
    let mut words = Vec::new(alloc);
    for word in line.split_whitespace() {
        words.push(word)?;
    }
    Ok(words)
}

/// Calls the program with these words, and answers its status. Its steps pass the gate.
fn call_with<R: Threads + Sync, G: Gate>(
    rt: &R,
    alloc: Global,
    gate: &G,
    words: &[&str],
    objects: &mut Objects,
) -> Result<u8, Fail> {
    let mut texts = Words::new(alloc);
    for word in words {
        texts.push(Text::of(alloc, word)?)?;
    }
    Ok(baggage_top(
        rt,
        alloc,
        gate,
        &texts,
        &mut objects.library,
        &mut objects.source,
        &mut objects.out,
        &mut objects.errs,
    ))
}

/// Calls the program with the words of this line, which is cut at blanks, and answers its status.
/// Its steps pass the gate.
pub fn call<R: Threads + Sync, G: Gate>(
    rt: &R,
    alloc: Global,
    gate: &G,
    line: &str,
    objects: &mut Objects,
) -> Result<u8, Fail> {
    let words = words_of(alloc, line)?;
    call_with(rt, alloc, gate, words.as_slice(), objects)
}

/// What a call came to: its status, what it wrote to the output and to the errors, and what it left
/// of the input.
#[derive(Drop)]
pub struct Answer {
    pub status: u8,
    pub out: Vec<u8>,
    pub errs: Vec<u8>,
    pub left: Vec<u8>,
}

/// What a call with this status came to.
fn answer_with(alloc: Global, status: u8, objects: &mut Objects) -> Result<Answer, Fail> {
    Ok(Answer {
        status,
        out: Vec::from_slice(alloc, objects.out.taken())?,
        errs: Vec::from_slice(alloc, objects.errs.taken())?,
        left: objects.left(alloc)?,
    })
}

/// Calls the program with the words of this line, which is cut at blanks. Its steps pass an open
/// gate.
pub fn answer_of_line<R: Threads + Sync>(
    rt: &R,
    alloc: Global,
    line: &str,
    objects: &mut Objects,
) -> Result<Answer, Fail> {
    let status = call(rt, alloc, &Open, line, objects)?;
    answer_with(alloc, status, objects)
}

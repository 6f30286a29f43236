//! The bytes that a text stands for.

use crate::faults::{Reason, RowFault};
use itoa::Buffer;
use std::alloc::Global;

/// What of an escape was read.
#[derive(Clone, Copy)]
enum State {
    /// No escape is open.
    Plain,
    /// A backslash.
    Escape,
    /// A backslash and `x`.
    Hex,
    /// These and the first digit, which has this value.
    Digit(u8),
}

/// The value of a hexadecimal digit.
fn digit(byte: u8) -> Option<u8> {
    match byte {
        b'0'..=b'9' => Some(byte - b'0'),
        b'a'..=b'f' => Some(byte - b'a' + 10),
        _ => None,
    }
}

/// Adds a number in decimal digits.
fn add_number(number: Option<u64>, into: &mut Vec<u8>) -> Result<(), RowFault> {
    if let Some(number) = number {
        into.extend_from_slice(Buffer::new().format(number).as_bytes())?;
    }
    Ok(())
}

/// Ends an escape of one letter. `copy` is the number of the copy in a line of copies. `None` where
/// there is no such escape.
fn add_letter(
    letter: u8,
    copy: Option<u64>,
    into: &mut Vec<u8>,
) -> Result<Option<State>, RowFault> {
    match letter {
        b'\\' => into.push(b'\\')?,
        b'n' => into.push(b'\n')?,
        b't' => into.push(b'\t')?,
        b'r' => into.push(b'\r')?,
        b'@' if copy.is_some() => add_number(copy, into)?,
        b'+' if copy.is_some() => add_number(copy.map(|copy| copy.saturating_add(1)), into)?,
        b'x' => return Ok(Some(State::Hex)),
        _ => return Ok(None),
    }
    Ok(Some(State::Plain))
}

/// Goes on by a byte of a text. `None` where an escape has no such form.
fn step(
    state: State,
    byte: u8,
    copy: Option<u64>,
    into: &mut Vec<u8>,
) -> Result<Option<State>, RowFault> {
    match state {
        State::Plain if byte == b'\\' => Ok(Some(State::Escape)),
        State::Plain => {
            into.push(byte)?;
            Ok(Some(State::Plain))
        }
        State::Escape => add_letter(byte, copy, into),
        State::Hex => Ok(digit(byte).map(State::Digit)),
        State::Digit(high) => {
            let Some(low) = digit(byte) else {
                return Ok(None);
            };
            into.push(high.wrapping_mul(16) | low)?;
            Ok(Some(State::Plain))
        }
    }
}

/// Adds the bytes that the text of a line stands for. `copy` is the number of the copy in a line of
/// copies.
pub(crate) fn add_text(
    line: usize,
    text: &str,
    copy: Option<u64>,
    into: &mut Vec<u8>,
) -> Result<(), RowFault> {
    let mut state = State::Plain;
    for byte in text.bytes() {
        state = step(state, byte, copy, into)?.ok_or(RowFault::At(line, Reason::Escape))?;
    }
    match state {
        State::Plain => Ok(()),
        _ => Err(RowFault::At(line, Reason::Escape)),
    }
}

/// Adds `count` copies of a text, each with its number.
fn add_numbered(line: usize, count: u32, text: &str, into: &mut Vec<u8>) -> Result<(), RowFault> {
    for copy in 0..count {
        add_text(line, text, Some(u64::from(copy) + 1), into)?;
    }
    Ok(())
}

/// Adds `count` copies of some bytes.
fn add_same(count: u32, piece: &[u8], into: &mut Vec<u8>) -> Result<(), RowFault> {
    for _ in 0..count {
        into.extend_from_slice(piece)?;
    }
    Ok(())
}

/// Adds the copies of a text that follows a count, which the text of a line begins with.
pub(crate) fn add_copies(
    alloc: Global,
    line: usize,
    text: &str,
    into: &mut Vec<u8>,
) -> Result<(), RowFault> {
    let (count, text) = text.split_once(' ').unwrap_or((text, ""));
    let Ok(count) = count.parse::<u32>() else {
        return Err(RowFault::At(line, Reason::Count));
    };
    if text.contains("\\@") || text.contains("\\+") {
        return add_numbered(line, count, text, into);
    }
    let mut piece = Vec::new(alloc);
    add_text(line, text, None, &mut piece)?;
    add_same(count, piece.as_slice(), into)
}

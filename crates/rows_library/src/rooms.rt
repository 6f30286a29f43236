//! Calls that write into a buffer: each is run with buffers of several lengths.

use crate::answers::expect_refused;
use crate::calls::Call;
use crate::written::{Outcome, call_into};
use header_calls::Extracted;
use row_files::{Row, RowFault, Told};
use std::alloc::Global;

/// What a buffer holds before a call.
const UNTOUCHED: u8 = 0xee;

/// By how many bytes buffers are longer than what is written.
const SPARE: [usize; 3] = [0, 1, 100];

/// Whether nothing was written there.
fn is_untouched(room: &[u8]) -> bool {
    room.iter().all(|byte| *byte == UNTOUCHED)
}

/// Reports where something was written that isn't part of the answer.
fn expect_untouched(room: &[u8], told: &mut Told<'_>) -> Result<(), RowFault> {
    let written = u64::from(!is_untouched(room));
    told.expect_number("room written to", written, 0)?;
    Ok(())
}

/// Reports where a buffer isn't as the answer leaves it: the answer's bytes, and after them what
/// was there.
fn expect_room(
    room: &[u8],
    size: usize,
    wanted: &[u8],
    told: &mut Told<'_>,
) -> Result<(), RowFault> {
    let (written, rest) = room.split_at(size.min(room.len()));
    told.expect_number("size", size as u64, wanted.len() as u64)?;
    told.expect_bytes("written", written, wanted)?;
    expect_untouched(rest, told)
}

/// What an extract says beside its bytes: its state, how many parts there were, and how many of
/// them are lost.
fn words_of(alloc: Global, found: Extracted) -> Result<String, RowFault> {
    let state = if found.partial { "partial" } else { "exact" };
    let (parts, lost) = (found.parts, found.lost);
    Ok(format!(in alloc; "{state} parts {parts} lost {lost}")?)
}

/// Runs the call once with a buffer of this length, and reports where it doesn't write what is
/// wanted.
fn expect_written(
    alloc: Global,
    call: Call,
    row: Row<'_>,
    room_len: usize,
    wanted: &[u8],
    told: &mut Told<'_>,
) -> Result<(), RowFault> {
    let mut room = Vec::from_elem(alloc, UNTOUCHED, room_len)?;
    match call_into(alloc, call, row, &mut room)? {
        Outcome::Written { size, told: words } => {
            told.expect_bytes("told", words.as_bytes(), row.value("told"))?;
            expect_room(&room, size, wanted, told)
        }
        Outcome::Extracted { found } => {
            let words = words_of(alloc, found)?;
            told.expect_bytes("told", words.as_bytes(), row.value("told"))?;
            expect_room(&room, found.size, wanted, told)
        }
        Outcome::TooShort { size } => {
            told.expect_number("room asked for", size as u64, 0)?;
            Ok(())
        }
        Outcome::Refused { text } => {
            told.expect_bytes("refused", text.as_bytes(), b"")?;
            expect_untouched(&room, told)
        }
    }
}

/// Runs the call once with a buffer that is a byte too short, and reports where the call doesn't
/// say so, or the buffer was written to.
fn expect_short(
    alloc: Global,
    call: Call,
    row: Row<'_>,
    needed: usize,
    told: &mut Told<'_>,
) -> Result<(), RowFault> {
    let Some(room_len) = needed.checked_sub(1) else {
        return Ok(());
    };
    let mut room = Vec::from_elem(alloc, UNTOUCHED, room_len)?;
    match call_into(alloc, call, row, &mut room)? {
        Outcome::TooShort { size } => {
            told.expect_number("room asked for", size as u64, needed as u64)?;
        }
        _ => told.expect_number("room too short", 0, 1)?,
    }
    expect_untouched(&room, told)
}

/// Runs the call once with a buffer of this length, and reports where it isn't refused as the row
/// says.
fn expect_unwritten(
    alloc: Global,
    call: Call,
    row: Row<'_>,
    room_len: usize,
    told: &mut Told<'_>,
) -> Result<(), RowFault> {
    let mut room = Vec::from_elem(alloc, UNTOUCHED, room_len)?;
    match call_into(alloc, call, row, &mut room)? {
        Outcome::Refused { text } => expect_refused(alloc, &text.as_str(), row, told)?,
        _ => told.expect_bytes("refused", b"", row.value("refused"))?,
    }
    expect_untouched(&room, told)
}

/// Runs a row of a call that writes: in buffers of several lengths, or refused in two of them.
pub fn run_written(
    alloc: Global,
    call: Call,
    row: Row<'_>,
    told: &mut Told<'_>,
) -> Result<(), RowFault> {
    if row.has("refused") {
        expect_unwritten(alloc, call, row, 0, told)?;
        return expect_unwritten(alloc, call, row, 100, told);
    }
    let wanted = call.wanted(alloc, row)?;
    for spare in SPARE {
        let room_len = wanted.len().saturating_add(spare);
        expect_written(alloc, call, row, room_len, &wanted, told)?;
    }
    expect_short(alloc, call, row, wanted.len(), told)
}

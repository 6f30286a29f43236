//! Outcomes of calls on whole tables and on pieces as numbers.

ghost use Rattle.std.specs.Prelude.{◌≡◌};
ghost use Rattle.baggage_c.specs.TableAnswers.{change_number, evolve_answer, piece_answer, piece_number, quote_answer, report_answer, slots_answer, table_refusal};

use crate::answers::{
    Answer, FAULT, LONG, MEMORY, OK, PIECES, ROOM, TABLE, TYPE, WIDTH, code_number,
};
use crate::field_answers::table_number;
use byte_calls::TooShort;
use piece_calls::{PieceCode, PieceRefusal};
use table_calls::{Change, TableFault, TableRefusal};

/// The numbers of a table's check.
pub(crate) fn slots_answer(outcome: Result<usize, TableFault>) -> Answer
    ensures { result ≡ slots_answer outcome }
{
    match outcome {
        Ok(slots) => Answer::plain(OK, slots),
        Err(TableFault::At { line, code }) => {
            Answer::refused_at(TABLE, table_number(code), line as usize)
        }
        Err(TableFault::Memory) => Answer::refused(MEMORY),
    }
}

/// The numbers of a refusal.
fn table_refusal(refusal: TableRefusal) -> Answer
    ensures { result ≡ table_refusal refusal }
{
    match refusal {
        TableRefusal::Table { which, line, code } => {
            Answer::refused_of(TABLE, table_number(code), which, line as usize)
        }
        TableRefusal::Fault { offset, code } => {
            Answer::refused_at(FAULT, code_number(code), offset)
        }
        TableRefusal::IllTyped { offset } => Answer::refused_at(TYPE, 0, offset),
        TableRefusal::Memory => Answer::refused(MEMORY),
        TableRefusal::Room { size } => Answer::plain(ROOM, size),
    }
}

/// The numbers of a report.
pub(crate) fn report_answer(outcome: Result<usize, TableRefusal>) -> Answer
    ensures { result ≡ report_answer outcome }
{
    match outcome {
        Ok(size) => Answer::plain(OK, size),
        Err(refusal) => table_refusal(refusal),
    }
}

/// The number of a change in `enum baggage_change`.
fn change_number(change: Change) -> u32
    ensures { result ≡ change_number change }
{
    match change {
        Change::Fits => 0,
        Change::Shape => 1,
        Change::Key => 2,
        Change::Kind => 3,
    }
}

/// The numbers of a comparison.
pub(crate) fn evolve_answer(outcome: Result<(Change, usize), TableRefusal>) -> Answer
    ensures { result ≡ evolve_answer outcome }
{
    match outcome {
        Ok((change, size)) => Answer::coded(change_number(change), size),
        Err(refusal) => table_refusal(refusal),
    }
}

/// The number of what is wrong with lines of pieces in `enum baggage_piece_code`.
fn piece_number(code: PieceCode) -> u32
    ensures { result ≡ piece_number code }
{
    match code {
        PieceCode::Form => 1,
        PieceCode::PieceRange => 2,
        PieceCode::BadBase64 => 3,
        PieceCode::OtherCount => 4,
        PieceCode::Clash => 5,
        PieceCode::NoLine => 6,
        PieceCode::Missing => 7,
        PieceCode::TooManyBytes => 8,
    }
}

/// The numbers of what is carried or collected.
pub(crate) fn piece_answer(outcome: Result<usize, PieceRefusal>) -> Answer
    ensures { result ≡ piece_answer outcome }
{
    match outcome {
        Ok(size) => Answer::plain(OK, size),
        Err(PieceRefusal::Width) => Answer::refused(WIDTH),
        Err(PieceRefusal::Pieces { line, code }) => {
            Answer::refused_at(PIECES, piece_number(code), line as usize)
        }
        Err(PieceRefusal::Fault { offset, code }) => {
            Answer::refused_at(FAULT, code_number(code), offset)
        }
        Err(PieceRefusal::Long { size }) => Answer::plain(LONG, size),
        Err(PieceRefusal::Memory) => Answer::refused(MEMORY),
        Err(PieceRefusal::Room { size }) => Answer::plain(ROOM, size),
    }
}

/// The numbers of a literal.
pub(crate) fn quote_answer(outcome: Result<usize, TooShort>) -> Answer
    ensures { result ≡ quote_answer outcome }
{
    match outcome {
        Ok(size) => Answer::plain(OK, size),
        Err(TooShort { size }) => Answer::plain(ROOM, size),
    }
}

//! Outcomes as numbers. The numbers are those of the enums of the header.

ghost use Rattle.std.specs.Prelude.{◌≡◌};
ghost use Rattle.baggage_c.specs.Answers.{answer_of, check_answer, code_number, plain_answer, refused, refused_at, refused_of};

use byte_calls::Refusal;
use byte_frames::ByteFault;
use wire_bytes::ByteCode;

/// What was asked for was done.
pub const OK: u32 = 0;

/// An input isn't the bytes of a context.
pub const FAULT: u32 = 1;

/// The buffer is too short.
pub const ROOM: u32 = 2;

/// There is no memory.
pub const MEMORY: u32 = 3;

/// No form has this number.
pub const FORM: u32 = 4;

/// The budget is below the least one of the form.
pub const BUDGET: u32 = 5;

/// The text isn't that of a table.
pub const TABLE: u32 = 6;

/// No slot of the table has the name, or the chosen number.
pub const FIELD: u32 = 7;

/// The text is no write to the field.
pub const WRITE: u32 = 8;

/// An atom isn't spelled as the type of its field says.
pub const TYPE: u32 = 9;

/// No choice has this number.
pub const CHOICE: u32 = 10;

/// No piece is so wide.
pub const WIDTH: u32 = 11;

/// The context is too long to be carried as pieces.
pub const LONG: u32 = 12;

/// The lines carry no bytes.
pub const PIECES: u32 = 13;

/// The outcome of a call. A number that its status doesn't speak of is 0.
#[repr(C)]
#[derive(Clone, Copy, Debug)]
pub struct Answer {
    /// One of the constants of this module.
    pub status: u32,
    /// Beside `FAULT` one of `enum baggage_code`, beside `TABLE` one of `enum baggage_table_code`,
    /// beside `PIECES` one of `enum baggage_piece_code`, all from 1 on; beside the `OK` of a field
    /// that was read one of `enum baggage_state`, of places the form of the bytes, of a comparison
    /// one of `enum baggage_change`.
    pub code: u32,
    /// Beside `FAULT` and `TYPE`: the place of the input among the contexts that were handed in,
    /// from 0 on. Beside the `TABLE` of a comparison: 1 for the next table. Beside the `FIELD` of
    /// chosen places: which of the chosen numbers it is, from 0 on.
    pub context: usize,
    /// Beside `FAULT` and `TYPE`: how many bytes of that input come before what is wrong. Beside
    /// `TABLE` and `PIECES`, and of a step beside `FIELD` and `WRITE`: the line, from 1 on, or the
    /// piece that is missing.
    pub offset: usize,
    /// Beside `OK`: how many bytes were written, how many atoms a context has, or how many slots a
    /// table. Beside `ROOM`: how much room is needed. Beside `LONG`: how many bytes there are.
    pub size: usize,
}

/// The number of a code in `enum baggage_code`.
pub(crate) fn code_number(code: ByteCode) -> u32
    ensures { result ≡ code_number code }
{
    match code {
        ByteCode::CutLength => 1,
        ByteCode::BadCount => 2,
        ByteCode::AtomTooLong => 3,
        ByteCode::LongForm => 4,
        ByteCode::CutBody => 5,
        ByteCode::BadPrefix => 6,
        ByteCode::BadIndex => 7,
        ByteCode::LevelJump => 8,
        ByteCode::OutOfOrder => 9,
    }
}

impl Answer {
    /// The answer that has only a status and a size.
    pub(crate) fn plain(status: u32, size: usize) -> Answer
        ensures { result ≡ plain_answer status size }
    {
        Answer {
            status,
            code: 0,
            context: 0,
            offset: 0,
            size,
        }
    }

    /// The refusal that has only a status.
    pub(crate) fn refused(status: u32) -> Answer
        ensures { result ≡ refused status }
    {
        Answer::plain(status, 0)
    }

    /// The refusal of something at an offset, with a code.
    pub(crate) fn refused_at(status: u32, code: u32, offset: usize) -> Answer
        ensures { result ≡ refused_at status code offset }
    {
        Answer::refused_of(status, code, 0, offset)
    }

    /// The refusal of one of several inputs, with a code.
    pub(crate) fn refused_of(status: u32, code: u32, context: usize, offset: usize) -> Answer
        ensures { result ≡ refused_of status code context offset }
    {
        Answer {
            status,
            code,
            context,
            offset,
            size: 0,
        }
    }

    /// The answer that has a code beside its size.
    pub(crate) fn coded(code: u32, size: usize) -> Answer
        ensures { result ≡ record { status = OK; code = code; context = 0; offset = 0; size = size } }
    {
        Answer {
            status: OK,
            code,
            context: 0,
            offset: 0,
            size,
        }
    }

    /// The numbers of an outcome.
    pub(crate) fn of(outcome: Result<usize, Refusal>) -> Answer
        ensures { result ≡ answer_of outcome }
    {
        match outcome {
            Ok(size) => Answer::plain(OK, size),
            Err(Refusal::Room { size }) => Answer::plain(ROOM, size),
            Err(Refusal::Memory) => Answer::refused(MEMORY),
            Err(
                Refusal::Fault {
                    context,
                    offset,
                    code,
                },
            ) => Answer::refused_of(FAULT, code_number(code), context, offset),
        }
    }

    /// The numbers of what a look at bytes came to.
    pub(crate) fn of_check(outcome: Result<usize, ByteFault>) -> Answer
        ensures { result ≡ check_answer outcome }
    {
        match outcome {
            Ok(atoms) => Answer::plain(OK, atoms),
            Err(fault) => Answer::refused_at(FAULT, code_number(fault.code), fault.offset),
        }
    }
}

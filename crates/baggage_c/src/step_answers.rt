//! Outcomes of steps and of what is kept as numbers.

ghost use Rattle.std.specs.Prelude.{◌≡◌};
ghost use Rattle.baggage_c.specs.StepAnswers.{keep_answer, step_answer, write_status};

use crate::answers::{Answer, FAULT, FIELD, MEMORY, OK, ROOM, TABLE, TYPE, WRITE, code_number};
use crate::field_answers::table_number;
use keep_calls::KeepRefusal;
use step_calls::{StepRefusal, WriteCode};

/// The status of a line of writes that says none.
fn write_status(code: WriteCode) -> u32
    ensures { result ≡ write_status code }
{
    match code {
        WriteCode::NoField => FIELD,
        WriteCode::NoWrite => WRITE,
    }
}

/// The numbers of a step.
pub(crate) fn step_answer(outcome: Result<usize, StepRefusal>) -> Answer
    ensures { result ≡ step_answer outcome }
{
    let refusal = match outcome {
        Ok(size) => return Answer::plain(OK, size),
        Err(refusal) => refusal,
    };
    match refusal {
        StepRefusal::Table { line, code } => {
            Answer::refused_at(TABLE, table_number(code), line as usize)
        }
        StepRefusal::Write { line, code } => {
            Answer::refused_at(write_status(code), 0, line as usize)
        }
        StepRefusal::Fault {
            context,
            offset,
            code,
        } => Answer::refused_of(FAULT, code_number(code), context, offset),
        StepRefusal::IllTyped { context, offset } => Answer::refused_of(TYPE, 0, context, offset),
        StepRefusal::Memory => Answer::refused(MEMORY),
        StepRefusal::Room { size } => Answer::plain(ROOM, size),
    }
}

/// The numbers of what is kept.
pub(crate) fn keep_answer(outcome: Result<usize, KeepRefusal>) -> Answer
    ensures { result ≡ keep_answer outcome }
{
    match outcome {
        Ok(size) => Answer::plain(OK, size),
        Err(KeepRefusal::Table { line, code }) => {
            Answer::refused_at(TABLE, table_number(code), line as usize)
        }
        Err(
            KeepRefusal::Fault {
                context,
                offset,
                code,
            },
        ) => Answer::refused_of(FAULT, code_number(code), context, offset),
        Err(KeepRefusal::Memory) => Answer::refused(MEMORY),
        Err(KeepRefusal::Room { size }) => Answer::plain(ROOM, size),
    }
}

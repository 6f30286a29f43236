//! Outcomes of calls on fields as numbers.

ghost use Rattle.std.specs.Prelude.{◌≡◌};
ghost use Rattle.baggage_c.specs.FieldAnswers.{field_refusal, header_form, places_answer, reading_answer, state_code, table_number, write_answer};

use crate::answers::{Answer, FAULT, FIELD, MEMORY, OK, ROOM, TABLE, TYPE, WRITE, code_number};
use field_calls::{FieldRefusal, State};
use place_calls::PlaceRefusal;
use table_text::TableCode;
use wire_bytes::Form;

/// The number of a state in `enum baggage_state`.
fn state_number(state: State) -> u32
    ensures { result ≡ state_code state }
{
    match state {
        State::Exact => 1,
        State::Partial => 2,
    }
}

/// The number of a form in `enum baggage_form`.
fn form_number(form: Form) -> u32
    ensures { result ≡ header_form form }
{
    match form {
        Form::One => 1,
        Form::Two => 2,
    }
}

/// The number of a rule that a table's text breaks, in `enum baggage_table_code`.
pub(crate) fn table_number(code: TableCode) -> u32
    ensures { result ≡ table_number code }
{
    match code {
        TableCode::Head => 1,
        TableCode::Form => 2,
        TableCode::Depth => 3,
        TableCode::Order => 4,
        TableCode::DuplicateField => 5,
        TableCode::TooDeep => 6,
        TableCode::TooManySlots => 7,
    }
}

/// The numbers of a refusal.
fn field_refusal(refusal: FieldRefusal) -> Answer
    ensures { result ≡ field_refusal refusal }
{
    match refusal {
        FieldRefusal::Table { line, code } => {
            Answer::refused_at(TABLE, table_number(code), line as usize)
        }
        FieldRefusal::NoField => Answer::refused(FIELD),
        FieldRefusal::NoWrite => Answer::refused(WRITE),
        FieldRefusal::Fault { offset, code } => {
            Answer::refused_at(FAULT, code_number(code), offset)
        }
        FieldRefusal::IllTyped { offset } => Answer::refused_at(TYPE, 0, offset),
        FieldRefusal::Memory => Answer::refused(MEMORY),
        FieldRefusal::Room { size } => Answer::plain(ROOM, size),
    }
}

/// The numbers of what is read.
pub(crate) fn reading_answer(outcome: Result<(State, usize), FieldRefusal>) -> Answer
    ensures { result ≡ reading_answer outcome }
{
    match outcome {
        Ok((state, size)) => Answer::coded(state_number(state), size),
        Err(refusal) => field_refusal(refusal),
    }
}

/// The numbers of what is written.
pub(crate) fn write_answer(outcome: Result<usize, FieldRefusal>) -> Answer
    ensures { result ≡ write_answer outcome }
{
    match outcome {
        Ok(size) => Answer::plain(OK, size),
        Err(refusal) => field_refusal(refusal),
    }
}

/// The numbers of places.
pub(crate) fn places_answer(outcome: Result<(Form, usize), PlaceRefusal>) -> Answer
    ensures { result ≡ places_answer outcome }
{
    match outcome {
        Ok((form, slots)) => Answer::coded(form_number(form), slots),
        Err(PlaceRefusal::Table { line, code }) => {
            Answer::refused_at(TABLE, table_number(code), line as usize)
        }
        Err(PlaceRefusal::NoSlot { which }) => Answer::refused_of(FIELD, 0, which, 0),
        Err(PlaceRefusal::Fault { offset, code }) => {
            Answer::refused_at(FAULT, code_number(code), offset)
        }
        Err(PlaceRefusal::Memory) => Answer::refused(MEMORY),
        Err(PlaceRefusal::Room { size }) => Answer::plain(ROOM, size),
    }
}

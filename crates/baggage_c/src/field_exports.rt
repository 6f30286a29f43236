//! The exports that read and write fields.

ghost use Rattle.field_calls.specs.Reading.{ReadsField};
ghost use Rattle.field_calls.specs.Writing.{WritesField};
ghost use Rattle.place_calls.specs.Chosen.{ChosenPlaces};
ghost use Rattle.place_calls.specs.Places.{Places};
ghost use Rattle.table_calls.specs.Reports.{ReportsInto};
ghost use Rattle.baggage_c.specs.Answers.{TellsOutcome};
ghost use Rattle.baggage_c.specs.FieldAnswers.{places_answer, reading_answer, write_answer};
ghost use Rattle.baggage_c.specs.TableAnswers.{report_answer};
ghost use Rattle.baggage_c.specs.Choices.{form_numbered, report_numbered, Chosen};

use crate::answers::Answer;
use crate::choices::{form_numbered, report_numbered};
use crate::field_answers::{places_answer, reading_answer, write_answer};
use crate::table_answers::report_answer;
use field_calls::{read_field_into, write_field_into};
use place_calls::{Place, chosen_places_into, places_into};
use std::alloc::Global;
use table_calls::report_into;

/// Where the slots of a table are in the bytes of a context.
#[unsafe(no_mangle)]
pub extern "C" fn baggage_places(
    alloc: Global,
    table: &[u8],
    context: &[u8],
    places: &mut [Place],
) -> Answer
    ensures { TellsOutcome places_answer
        (Places table.now context.now places.old places.new) result }
{
    places_answer(places_into(alloc, table, context, places))
}

/// Where chosen slots of a table are in the bytes of a context.
#[unsafe(no_mangle)]
pub extern "C" fn baggage_chosen_places(
    alloc: Global,
    table: &[u8],
    chosen: &[usize],
    context: &[u8],
    places: &mut [Place],
) -> Answer
    ensures { TellsOutcome places_answer
        (ChosenPlaces table.now chosen.now context.now places.old places.new) result }
{
    places_answer(chosen_places_into(alloc, table, chosen, context, places))
}

/// What a context says of all slots of a table, as text or as JSON.
#[unsafe(no_mangle)]
pub extern "C" fn baggage_report(
    alloc: Global,
    form: u32,
    table: &[u8],
    context: &[u8],
    room: &mut [u8],
) -> Answer
    ensures { Chosen (report_numbered form)
        (λ form. TellsOutcome report_answer
        (ReportsInto form table.now context.now room.old room.new)) room.old room.new result }
{
    match report_numbered(form) {
        Ok(form) => report_answer(report_into(alloc, form, table, context, room)),
        Err(status) => Answer::refused(status),
    }
}

/// What a context says of a field, as text.
#[unsafe(no_mangle)]
pub extern "C" fn baggage_read_field(
    alloc: Global,
    table: &[u8],
    context: &[u8],
    name: &[u8],
    room: &mut [u8],
) -> Answer
    ensures { TellsOutcome reading_answer
        (ReadsField table.now context.now name.now room.old room.new) result }
{
    reading_answer(read_field_into(alloc, table, context, name, room))
}

/// The context of one write of a field.
#[unsafe(no_mangle)]
pub extern "C" fn baggage_write_field(
    alloc: Global,
    form: u32,
    table: &[u8],
    name: &[u8],
    text: &[u8],
    room: &mut [u8],
) -> Answer
    ensures { Chosen (form_numbered form)
        (λ form. TellsOutcome write_answer
        (WritesField form table.now name.now text.now room.old room.new)) room.old room.new result }
{
    match form_numbered(form) {
        Ok(form) => write_answer(write_field_into(alloc, form, table, name, text, room)),
        Err(status) => Answer::refused(status),
    }
}

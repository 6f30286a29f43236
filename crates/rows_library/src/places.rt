//! Rows of places.

use crate::answers::expect_refused;
use crate::fields::{bytes_named, slots_of};
use place_calls::{EXACT, PARTIAL, Place, PlaceRefusal, chosen_places_into, places_into};
use row_files::{Row, RowFault, Told};
use std::alloc::Global;
use std::fmt::Write;
use wire_bytes::Form;

/// What is in an array before a call.
const UNTOUCHED: Place = Place {
    offset: 7,
    length: 7,
    state: 7,
    zero: 7,
};

/// How many places an array has.
const ARRAY_LEN: usize = 64;

/// The word of a state.
fn word_of(state: u32) -> &'static str {
    match state {
        EXACT => "exact",
        PARTIAL => "partial",
        _ => "ill_typed",
    }
}

/// A line for each place: its offset, its length and its state.
fn lines_of(alloc: Global, places: &[Place]) -> Result<String, RowFault> {
    let mut text = String::new(alloc);
    for place in places {
        let (offset, length) = (place.offset, place.length);
        let state = word_of(place.state);
        writeln!(&mut text, "{offset} {length} {state}")?;
    }
    Ok(text)
}

/// Reports where places aren't as they were before the call.
fn expect_untouched(places: &[Place], told: &mut Told<'_>) -> Result<(), RowFault> {
    let touched = places.iter().any(|place| place.state != 7);
    told.expect_number("places written to", u64::from(touched), 0)?;
    Ok(())
}

/// Reports where an array doesn't begin with the places of the row, or the form of the bytes isn't
/// that of the row.
fn expect_places(
    alloc: Global,
    row: Row<'_>,
    form: Form,
    places: &[Place],
    told: &mut Told<'_>,
) -> Result<(), RowFault> {
    let word = match form {
        Form::One => "one",
        Form::Two => "two",
    };
    told.expect_bytes("refused", b"", row.value("refused"))?;
    told.expect_bytes("form", word.as_bytes(), row.value("form"))?;
    let lines = lines_of(alloc, places)?;
    told.expect_bytes("places", lines.as_bytes(), row.value("places"))?;
    Ok(())
}

/// The places of the chosen slots of the row's table; without a choice those of all slots.
fn find(
    alloc: Global,
    row: Row<'_>,
    chosen: Option<&[usize]>,
    context: &[u8],
    places: &mut [Place],
) -> Result<(Form, usize), PlaceRefusal> {
    let table = row.value("table");
    match chosen {
        Some(slots) => chosen_places_into(alloc, table, slots, context, places),
        None => places_into(alloc, table, context, places),
    }
}

/// Runs a row of the places of all slots.
pub fn run_places(alloc: Global, row: Row<'_>, told: &mut Told<'_>) -> Result<(), RowFault> {
    run_found(alloc, row, None, told)
}

/// Runs a row of the places of chosen slots.
pub fn run_chosen(alloc: Global, row: Row<'_>, told: &mut Told<'_>) -> Result<(), RowFault> {
    let slots = slots_of(alloc, row)?;
    run_found(alloc, row, Some(&slots), told)
}

/// Runs a row of places, in an array that is long enough, and in one that is a place too short.
fn run_found(
    alloc: Global,
    row: Row<'_>,
    chosen: Option<&[usize]>,
    told: &mut Told<'_>,
) -> Result<(), RowFault> {
    let context = bytes_named(alloc, row, "input")?;
    let mut places = [UNTOUCHED; ARRAY_LEN];
    let (form, count) = match find(alloc, row, chosen, &context, &mut places) {
        Ok(found) => found,
        Err(refusal) => {
            expect_refused(alloc, &refusal, row, told)?;
            return expect_untouched(&places, told);
        }
    };
    let (found, rest) = places.split_at(count.min(ARRAY_LEN));
    expect_places(alloc, row, form, found, told)?;
    expect_untouched(rest, told)?;
    run_short(alloc, row, chosen, &context, count, told)
}

/// Runs a row of places once more, in an array that is a place too short.
fn run_short(
    alloc: Global,
    row: Row<'_>,
    chosen: Option<&[usize]>,
    context: &[u8],
    count: usize,
    told: &mut Told<'_>,
) -> Result<(), RowFault> {
    let Some(short) = count.min(ARRAY_LEN).checked_sub(1) else {
        return Ok(());
    };
    let mut places = [UNTOUCHED; ARRAY_LEN];
    match find(alloc, row, chosen, context, &mut places[..short]) {
        Err(PlaceRefusal::Room { size }) => {
            told.expect_number("places asked for", size as u64, count as u64)?;
        }
        _ => told.expect_number("places too few", 0, 1)?,
    }
    expect_untouched(&places, told)
}

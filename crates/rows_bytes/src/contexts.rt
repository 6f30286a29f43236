//! Rows of contexts that are checked, asked and changed.

ghost use Rattle.std.specs.Prelude.{◌≡◌, ℕ, List, ◌∷◌, IsTrue, Some, slice_get};

use crate::answers::expect_atoms;
use crate::fields::{context_named, list_named, numbers_named};
use atom_list::{Context, Place};
use context_model::LEVELS_MAX;
use row_files::{
    Reason, Row, RowFault, Told, expect_count, expect_counts, expect_fault_at, expect_no_fault,
    expect_whether,
};
use std::alloc::Global;

/// Runs a row of a list that is checked: where it is no context, it is given back as it was.
pub fn run_check(alloc: Global, row: Row<'_>, told: &mut Told<'_>) -> Result<(), RowFault> {
    row.check_names(&["call", "list", "atoms", "fault"], &[])?;
    match Context::check(list_named(alloc, row, "list")?) {
        Ok(context) => {
            expect_no_fault(row, told)?;
            expect_atoms(alloc, "atoms", context.list(), row, told)
        }
        Err((fault, place, list)) => {
            expect_fault_at(alloc, place as u64, &fault, row, told)?;
            expect_atoms(alloc, "list", &list, row, told)
        }
    }
}

/// Tells where not so many atoms are before the first marker as the row says.
fn expect_prefix(context: &Context, row: Row<'_>, told: &mut Told<'_>) -> Result<(), RowFault> {
    let count = context.front_len();
    let has_more = count < context.list().len();
    expect_count("before_marker", count as u64, row, told)?;
    told.expect_number(
        "marker",
        u64::from(context.has_marker()),
        u64::from(has_more),
    )?;
    Ok(())
}

/// Runs a row of a field that may be ended.
pub fn run_ended(alloc: Global, row: Row<'_>, told: &mut Told<'_>) -> Result<(), RowFault> {
    row.check_names(&["call", "atoms", "numbers", "ended", "before_marker"], &[])?;
    let numbers = numbers_named(alloc, row, "numbers")?;
    if LEVELS_MAX < numbers.len() {
        return Err(row.needed("numbers")?.fault(Reason::Number));
    }
    let context = context_named(alloc, row, "atoms")?;
    expect_prefix(&context, row, told)?;
    expect_whether("ended", context.ended(&numbers), row, told)
}

/// Tells where the headers around a place aren't those of the row, or anything is said of deeper
/// levels.
fn expect_place(
    alloc: Global,
    place: Place,
    row: Row<'_>,
    told: &mut Told<'_>,
) -> Result<(), RowFault> {
    let (above, below) = place
        .above
        .split_at(usize::from(place.level).min(LEVELS_MAX));
    expect_count("place", place.at as u64, row, told)?;
    expect_counts(alloc, "headers", above, row, told)?;
    let said = below.iter().any(|at| *at != 0);
    told.expect_number("headers of deeper levels", u64::from(said), 0)?;
    Ok(())
}

/// Runs a row of the headers around an atom.
pub fn run_around(alloc: Global, row: Row<'_>, told: &mut Told<'_>) -> Result<(), RowFault> {
    row.check_names(&["call", "atoms", "place", "headers"], &[])?;
    let context = context_named(alloc, row, "atoms")?;
    match context.walk().nth(row.needed("place")?.count()?) {
        Some(place) => expect_place(alloc, place, row, told),
        None => Err(row.needed("place")?.fault(Reason::Number)),
    }
}

/// Whether a datum is at a place.
fn is_datum(context: &Context, at: usize) -> bool
    ensures { IsTrue result → (payload : List ℕ) × (slice_get context.now at ≡ Some (0 ∷ payload)) }
{
    if let Some(atom) = context.list().get(at) {
        if let Some((first, _rest)) = atom.split_first() {
            return *first == 0;
        }
    }
    false
}

/// Takes out the data at two places, and answers whether they are there, in this order.
fn drop_both(context: &mut Context, first: usize, second: usize) -> bool {
    if first < second && is_datum(context, first) && is_datum(context, second) {
        context.drop_data(&[first, second]);
        true
    } else {
        false
    }
}

/// Runs a row of data that are taken out: a copy stays whole.
pub fn run_drop(alloc: Global, row: Row<'_>, told: &mut Told<'_>) -> Result<(), RowFault> {
    row.check_names(&["call", "atoms", "first", "second", "left"], &[])?;
    let (first, second) = (
        row.needed("first")?.count()?,
        row.needed("second")?.count()?,
    );
    let mut context = context_named(alloc, row, "atoms")?;
    let copy = context.copy()?;
    context.drop_data(&[]);
    expect_atoms(alloc, "atoms", context.list(), row, told)?;
    if !drop_both(&mut context, first, second) {
        return Err(row.needed("second")?.fault(Reason::Number));
    }
    expect_atoms(alloc, "left", context.list(), row, told)?;
    expect_atoms(alloc, "atoms", copy.list(), row, told)
}

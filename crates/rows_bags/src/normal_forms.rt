//! Rows of normal forms, and of the slots that are exact.

ghost use Rattle.std.specs.Prelude.{[]};
ghost use Rattle.bag_model.specs.Readings.{PathsOf};
ghost use Rattle.bag_model.specs.Typed.{AreTyped};

use crate::answers::{expect_atoms, expect_both, expect_count, expect_none};
use crate::cases::Case;
use crate::fields::{context_named, view_of};
use atom_list::Context;
use bag_codec::{State, check_typed, normal, normal_and_read, normal_and_states};
use field_table::View;
use outside::Memory;
use row_files::{RowFault, Told};

/// Tells where something else is read of a context than the row has, or of its normal form.
fn expect_read(
    case: Case<'_>,
    view: &View,
    context: &Context,
    told: &mut Told<'_>,
) -> Result<(), RowFault>
    requires { AreTyped case.table.now (PathsOf context.now) [] }
{
    expect_none(case, "ill_typed", told)?;
    match normal_and_read(case.alloc, case.table, view, context) {
        Ok(two) => expect_both(case, &two.0, &two.1, told),
        Err(Memory) => Err(RowFault::Memory),
    }
}

/// Tells where something else is read of a typed context than the row has, or of its normal form.
/// Of another one tells where its first atom that is ill typed isn't that of the row.
fn expect_checked(
    case: Case<'_>,
    view: &View,
    context: &Context,
    told: &mut Told<'_>,
) -> Result<(), RowFault> {
    match check_typed(case.table, context) {
        Ok(()) => expect_read(case, view, context, told),
        Err(place) => expect_count(case, "ill_typed", place, told),
    }
}

/// Tells where the normal form of the row's context, or what is read of it, isn't that of the row.
fn expect_normal(case: Case<'_>, view: &View, told: &mut Told<'_>) -> Result<(), RowFault> {
    let context = context_named(case, "atoms")?;
    expect_checked(case, view, &context, told)?;
    let left = normal(case.alloc, case.table, view, context)?;
    expect_atoms(case, "left", left.list(), told)
}

/// Runs a row of a normal form, and of what is read of it where the atoms are typed.
pub fn run_normal(case: Case<'_>, told: &mut Told<'_>) -> Result<(), RowFault> {
    case.check_names(&[
        "call",
        "bag",
        "atoms",
        "known",
        "ill_typed",
        "fields",
        "left",
    ])?;
    let view = view_of(case)?;
    expect_normal(case, &view, told)
}

/// The word of the states of a slot in a normal form and in the context.
fn word_of(states: (State, State)) -> &'static str {
    match states {
        (State::Exact, State::Exact) => "exact",
        (State::Partial, State::Partial) => "partial",
        _ => "both",
    }
}

/// The words of the states of all slots, with blanks between them.
fn states_text(case: Case<'_>, view: &View, context: &Context) -> Result<String, RowFault> {
    let mut text = String::new(case.alloc);
    for slot in 0..case.table.slots() {
        if 0 < slot {
            text.push(' ')?;
        }
        let states = normal_and_states(case.alloc, case.table, view, context, slot);
        text.push_str(word_of(states?))?;
    }
    Ok(text)
}

/// The words of the states of all slots in the row's context.
fn row_states(case: Case<'_>, view: &View) -> Result<String, RowFault> {
    let context = context_named(case, "atoms")?;
    states_text(case, view, &context)
}

/// Runs a row of the states of all slots, in a context and in its normal form.
pub fn run_states(case: Case<'_>, told: &mut Told<'_>) -> Result<(), RowFault> {
    case.check_names(&["call", "bag", "atoms", "known", "states"])?;
    let view = view_of(case)?;
    let text = row_states(case, &view)?;
    told.expect_bytes("states", text.as_bytes(), case.row.value("states"))?;
    Ok(())
}

//! Rows of cuts to budgets, and of what a service sends on.

ghost use Rattle.std.specs.Prelude.{◌≤◌};
ghost use Rattle.context_model.specs.Framing.{least_budget};

use crate::answers::expect_atoms;
use crate::fields::{budget_named, context_named, form_of, list_named};
use atom_list::AtomList;
use byte_forward::{ByteRefusal, forward_bytes};
use overflow_trim::{kept, trim, trim_context, trimmed_copy};
use row_files::{
    Row, RowFault, Told, expect_count, expect_digits, expect_fault_at, expect_no_fault,
};
use std::alloc::Global;
use wire_bytes::{Form, write};

/// The budgets of a cut, of which the first may be the greatest one.
#[derive(Clone, Copy)]
struct Budgets {
    before: u64,
    last: u64,
}

/// Tells where a list that was cut hasn't the bytes of the row.
fn expect_bytes(
    alloc: Global,
    form: Form,
    list: &AtomList,
    row: Row<'_>,
    told: &mut Told<'_>,
) -> Result<(), RowFault> {
    if !row.has("bytes") {
        return Ok(());
    }
    let bytes = write(alloc, form, list)?;
    expect_digits(alloc, "bytes", &bytes, row, told)
}

/// Cuts the list of the row.
fn trim_list(
    alloc: Global,
    form: Form,
    budgets: Budgets,
    row: Row<'_>,
    told: &mut Told<'_>,
) -> Result<(), RowFault>
    requires before { least_budget form ≤ budgets.before }
    requires last { least_budget form ≤ budgets.last }
{
    let mut list = list_named(alloc, row, "atoms")?;
    trim(form, &mut list, budgets.before);
    if row.has("keep") {
        expect_count("keep", kept(form, &list, budgets.last) as u64, row, told)?;
    }
    trim(form, &mut list, budgets.last);
    expect_atoms(alloc, "left", &list, row, told)?;
    expect_bytes(alloc, form, &list, row, told)
}

/// Cuts the context of the row, and a copy of it.
fn trim_both(
    alloc: Global,
    form: Form,
    budgets: Budgets,
    row: Row<'_>,
    told: &mut Told<'_>,
) -> Result<(), RowFault>
    requires before { least_budget form ≤ budgets.before }
    requires last { least_budget form ≤ budgets.last }
{
    let mut context = context_named(alloc, row, "atoms")?;
    trim_context(form, &mut context, budgets.before);
    let copy = trimmed_copy(form, &context, budgets.last)?;
    expect_atoms(alloc, "left", copy.list(), row, told)?;
    trim_context(form, &mut context, budgets.last);
    expect_atoms(alloc, "left", context.list(), row, told)
}

/// Runs a row of a cut to a budget, perhaps after one to another budget.
pub fn run_trim(alloc: Global, row: Row<'_>, told: &mut Told<'_>) -> Result<(), RowFault> {
    row.check_names(
        &[
            "call", "form", "atoms", "before", "budget", "left", "keep", "bytes",
        ],
        &[],
    )?;
    let form = form_of(row)?;
    let before = budget_named(row, "before", form)?;
    let last = budget_named(row, "budget", form)?;
    let budgets = Budgets { before, last };
    trim_list(alloc, form, budgets, row, told)?;
    trim_both(alloc, form, budgets, row, told)
}

/// What is in a room before a call.
const UNTOUCHED: u8 = 0xa5;

/// Two contexts that came in.
#[derive(Drop)]
struct Received {
    first: Vec<u8>,
    second: Vec<u8>,
}

/// Sends the merge of two contexts on in a room of this length, and tells where it isn't that of
/// the row, or is refused otherwise.
fn forward_in(
    alloc: Global,
    form: Form,
    received: &Received,
    budget: u64,
    room_len: usize,
    row: Row<'_>,
    told: &mut Told<'_>,
) -> Result<usize, RowFault>
    requires { least_budget form ≤ budget }
{
    let mut room = Vec::from_elem(alloc, UNTOUCHED, room_len)?;
    match forward_bytes(form, &received.first, &received.second, budget, &mut room) {
        Ok(size) => {
            expect_no_fault(row, told)?;
            let sent = room.get(..size).unwrap_or(&[]);
            expect_digits(alloc, "sent", sent, row, told)?;
            Ok(size)
        }
        Err(ByteRefusal::Fault { offset, code, .. }) => {
            expect_fault_at(alloc, offset as u64, &code, row, told)?;
            Ok(0)
        }
        Err(ByteRefusal::Room { size }) => {
            told.expect_number("room asked for", size as u64, room_len as u64 + 1)?;
            Ok(0)
        }
    }
}

/// Runs a row of two contexts that are sent on: in a room that is long enough, and in one that is a
/// byte too short.
pub fn run_forward(alloc: Global, row: Row<'_>, told: &mut Told<'_>) -> Result<(), RowFault> {
    row.check_names(
        &["call", "form", "first", "second", "budget", "sent", "fault"],
        &[],
    )?;
    let form = form_of(row)?;
    let budget = budget_named(row, "budget", form)?;
    let first = row.needed("first")?.bytes(alloc)?;
    let second = row.needed("second")?.bytes(alloc)?;
    let received = Received { first, second };
    let size = forward_in(alloc, form, &received, budget, 100, row, told)?;
    let Some(short) = size.checked_sub(1) else {
        return Ok(());
    };
    forward_in(alloc, form, &received, budget, short, row, told)?;
    Ok(())
}

//! Rows of what contexts say of a bag.

ghost use Rattle.std.specs.Prelude.{[], IfOk};
ghost use Rattle.bag_model.specs.Readings.{PathsOf};
ghost use Rattle.bag_model.specs.Typed.{AreTyped};

use crate::answers::{expect_both, expect_count, expect_fields, expect_none, put_line};
use crate::cases::Case;
use crate::encodings::expect_encoding;
use crate::fields::context_named;
use atom_list::Context;
use bag_codec::{
    Val, bottom, can_encode, check_typed, decode, decode_slot, encode_and_read, merge_and_read,
};
use outside::Memory;
use row_files::{Reason, RowFault, Told};

/// Tells where something else than the row has is read of the encoding of a value.
fn expect_again(case: Case<'_>, value: &Val, told: &mut Told<'_>) -> Result<(), RowFault> {
    if !can_encode(case.table, value) {
        return Ok(told.expect_bytes("encoding", b"none", b"some")?);
    }
    let again = encode_and_read(case.alloc, case.table, value)?;
    expect_fields(case, &again, told)
}

/// Tells where a value, or its encoding, isn't that of the row.
fn expect_value(case: Case<'_>, value: &Val, told: &mut Told<'_>) -> Result<(), RowFault> {
    let has = case.row.has("encoded");
    let name = if has { "encoded" } else { "atoms" };
    expect_fields(case, value, told)?;
    expect_again(case, value, told)?;
    expect_encoding(case, name, value, told)
}

/// A line for each slot of the table with what a context says of it.
fn slots_text(case: Case<'_>, context: &Context) -> Result<Vec<u8>, RowFault>
    requires { AreTyped case.table.now (PathsOf context.now) [] }
{
    let mut lines = Vec::new(case.alloc);
    for slot in 0..case.table.slots() {
        let value = decode_slot(case.alloc, case.table, context, slot)?;
        put_line(case.table.shape(slot), &value, &mut lines)?;
    }
    Ok(lines)
}

/// Tells where a context doesn't say what the row has, slot by slot.
fn expect_slots(case: Case<'_>, context: &Context, told: &mut Told<'_>) -> Result<(), RowFault>
    requires { AreTyped case.table.now (PathsOf context.now) [] }
{
    let has = case.row.has("slots");
    let name = if has { "slots" } else { "fields" };
    told.expect_bytes(name, &slots_text(case, context)?, case.row.value(name))?;
    Ok(())
}

/// Tells where a context doesn't say what the row has, or isn't the encoding that the row has.
fn expect_read(case: Case<'_>, context: &Context, told: &mut Told<'_>) -> Result<(), RowFault>
    requires { AreTyped case.table.now (PathsOf context.now) [] }
{
    expect_none(case, "ill_typed", told)?;
    expect_slots(case, context, told)?;
    let value = decode(case.alloc, case.table, context)?;
    expect_value(case, &value, told)
}

/// Runs a row of a context that is read, or of its first atom that is ill typed.
pub fn run_decode(case: Case<'_>, told: &mut Told<'_>) -> Result<(), RowFault> {
    case.check_names(&[
        "call",
        "bag",
        "atoms",
        "ill_typed",
        "fields",
        "slots",
        "encoded",
    ])?;
    let context = context_named(case, "atoms")?;
    match check_typed(case.table, &context) {
        Ok(()) => expect_read(case, &context, told),
        Err(place) => expect_count(case, "ill_typed", place, told),
    }
}

/// Runs a row of the value that says nothing.
pub fn run_bottom(case: Case<'_>, told: &mut Told<'_>) -> Result<(), RowFault> {
    case.check_names(&["call", "bag", "fields", "atoms"])?;
    let nothing = bottom(case.alloc, case.table)?;
    expect_value(case, &nothing, told)
}

/// The context that the field of this name says, whose atoms are typed.
fn typed_named(case: Case<'_>, name: &'static str) -> Result<Context, RowFault>
    ensures { IfOk result (λ context. AreTyped case.entry.table.now (PathsOf context) []) }
{
    let field = case.row.needed(name)?;
    let context = context_named(case, name)?;
    match check_typed(case.table, &context) {
        Ok(()) => Ok(context),
        Err(_) => Err(field.fault(Reason::Word)),
    }
}

/// Tells where something else is read of the merge of two contexts than the row has, or is the join
/// of what is read of each.
fn expect_joined(
    case: Case<'_>,
    one: &Context,
    other: &Context,
    told: &mut Told<'_>,
) -> Result<(), RowFault>
    requires one { AreTyped case.table.now (PathsOf one.now) [] }
    requires other { AreTyped case.table.now (PathsOf other.now) [] }
{
    match merge_and_read(case.alloc, case.table, one, other) {
        Ok(two) => expect_both(case, &two.0, &two.1, told),
        Err(Memory) => Err(RowFault::Memory),
    }
}

/// Does so in either order.
fn expect_orders(
    case: Case<'_>,
    one: &Context,
    other: &Context,
    told: &mut Told<'_>,
) -> Result<(), RowFault>
    requires one { AreTyped case.table.now (PathsOf one.now) [] }
    requires other { AreTyped case.table.now (PathsOf other.now) [] }
{
    expect_joined(case, one, other, told)?;
    expect_joined(case, other, one, told)
}

/// Joins what is read of a context with what is read of the row's other one.
fn join_with(case: Case<'_>, one: &Context, told: &mut Told<'_>) -> Result<(), RowFault>
    requires { AreTyped case.table.now (PathsOf one.now) [] }
{
    let other = typed_named(case, "other")?;
    expect_orders(case, one, &other, told)
}

/// Runs a row of the join of two values, each read of a context, in either order.
pub fn run_join(case: Case<'_>, told: &mut Told<'_>) -> Result<(), RowFault> {
    case.check_names(&["call", "bag", "one", "other", "fields"])?;
    let one = typed_named(case, "one")?;
    join_with(case, &one, told)
}

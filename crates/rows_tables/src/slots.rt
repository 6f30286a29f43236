//! Rows of what accessors read and write.

ghost use Rattle.std.specs.Prelude.{[], IfOk};
ghost use Rattle.bag_model.specs.Readings.{PathsOf};
ghost use Rattle.bag_model.specs.Typed.{AreTyped};
ghost use Rattle.accessor_gen.specs.Finding.{IsAccessorOf};

use crate::answers::expect_text;
use crate::table_texts::table_of;
use accessor_gen::laws::values_fit_at_slots;
use accessor_gen::{Accessor, Reading, accessor};
use atom_list::Context;
use bag_scan::State;
use bag_typed::check_typed;
use field_table::{Shape, Table};
use field_writes::laws::writes_are_of_their_shape;
use field_writes::read_write;
use report_text::value_text;
use row_files::{Field, Reason, Row, RowFault, Told};
use std::alloc::Global;
use wire_bytes::{ContextFault, Form, read_context, write};

/// The accessor of the slot that the row's field `name` names.
fn accessor_of(alloc: Global, table: &Table, row: Row<'_>) -> Result<Accessor, RowFault>
    ensures { IfOk result (IsAccessorOf table.now) }
{
    let field = row.needed("name")?;
    match accessor(alloc, table, field.text()?)? {
        Some(found) => Ok(found),
        None => Err(field.fault(Reason::Word)),
    }
}

/// The context whose bytes a field says in digits.
fn context_in(alloc: Global, field: &Field<'_>) -> Result<Context, RowFault> {
    let bytes = field.bytes(alloc)?;
    match read_context(alloc, &bytes) {
        Ok(context) => Ok(context),
        Err(ContextFault::Memory) => Err(RowFault::Memory),
        Err(_) => Err(field.fault(Reason::Word)),
    }
}

/// The context of a row, in which each atom is typed.
fn typed_context(alloc: Global, table: &Table, row: Row<'_>) -> Result<Context, RowFault>
    ensures { IfOk result (λ context. AreTyped table.now (PathsOf context) []) }
{
    let field = row.needed("context")?;
    let context = context_in(alloc, field)?;
    if check_typed(table, &context).is_err() {
        return Err(field.fault(Reason::Word));
    }
    Ok(context)
}

/// Tells where a reading of a slot isn't that of the row.
fn expect_reading(
    alloc: Global,
    shape: &Shape,
    reading: &Reading,
    row: Row<'_>,
    told: &mut Told<'_>,
) -> Result<(), RowFault> {
    let state = match reading.state {
        State::Exact => "exact",
        State::Partial => "partial",
    };
    expect_text("state", state.as_bytes(), row, told)?;
    let text = value_text(alloc, &reading.value, shape)?;
    expect_text("value", &text, row, told)
}

/// Tells where the row's context says something else of a slot than the row.
fn expect_read(
    alloc: Global,
    table: &Table,
    found: &Accessor,
    row: Row<'_>,
    told: &mut Told<'_>,
) -> Result<(), RowFault>
    requires { IsAccessorOf table.now found.now }
{
    let context = typed_context(alloc, table, row)?;
    let reading = found.get(alloc, table, &context)?;
    expect_reading(alloc, found.shape(table), &reading, row, told)
}

/// Runs a row of `read_slot`: what a context says of a slot.
pub fn run_read_slot(alloc: Global, row: Row<'_>, told: &mut Told<'_>) -> Result<(), RowFault> {
    let table = table_of(alloc, row.needed("table")?)?;
    let found = accessor_of(alloc, &table, row)?;
    expect_read(alloc, &table, &found, row, told)
}

/// The form that the row's field `form` names.
fn form_of(row: Row<'_>) -> Result<Form, RowFault> {
    let field = row.needed("form")?;
    match field.text()? {
        "one" => Ok(Form::One),
        "two" => Ok(Form::Two),
        _ => Err(field.fault(Reason::Word)),
    }
}

/// The bytes of the context that says the write of a field, and nothing else.
fn written(
    alloc: Global,
    table: &Table,
    found: &Accessor,
    form: Form,
    field: &Field<'_>,
) -> Result<Vec<u8>, RowFault>
    requires { IsAccessorOf table.now found.now }
{
    // These do nothing when they run: they tell the prover that what was read as a write fits its
    // slot.
    writes_are_of_their_shape();
    values_fit_at_slots();
    let text = field.value();
    let Some(value) = read_write(alloc, form, found.shape(table), text)? else {
        return Err(field.fault(Reason::Word));
    };
    let context = found.write(alloc, table, &value)?;
    Ok(write(alloc, form, context.list())?)
}

/// The bytes of the context that says the write of the row, and nothing else.
fn written_in(alloc: Global, row: Row<'_>) -> Result<Vec<u8>, RowFault> {
    let form = form_of(row)?;
    let text = row.needed("text")?;
    let table = table_of(alloc, row.needed("table")?)?;
    let found = accessor_of(alloc, &table, row)?;
    written(alloc, &table, &found, form, text)
}

/// Runs a row of `write_slot`: the context that says one write of a slot.
pub fn run_write_slot(alloc: Global, row: Row<'_>, told: &mut Told<'_>) -> Result<(), RowFault> {
    let wanted = row.needed("context")?.bytes(alloc)?;
    let bytes = written_in(alloc, row)?;
    told.expect_bytes("context", &bytes, &wanted)?;
    Ok(())
}

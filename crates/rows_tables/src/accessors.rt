//! Rows of the accessors of a table: one for each slot, found by its name.

ghost use Rattle.std.specs.Prelude.{◌<◌, length};
ghost use Rattle.bag_model.specs.Slots.{slots_of};

use crate::answers::expect_text;
use crate::table_texts::table_of;
use accessor_gen::{Accessor, accessor, accessors};
use field_table::Table;
use row_files::{Row, RowFault, Told};
use std::alloc::Global;
use std::fmt::Write;

/// Appends the name by which an accessor is found.
fn put_found(
    alloc: Global,
    table: &Table,
    made: &Accessor,
    text: &mut String,
) -> Result<(), RowFault> {
    match accessor(alloc, table, made.name.as_str())? {
        Some(found) if found.slot == made.slot => text.push_str(found.name.as_str())?,
        _ => text.push_str("another slot")?,
    }
    Ok(())
}

/// Appends the numbers on the way to a slot, each after a sign, and ends the line.
fn put_numbers(table: &Table, slot: usize, text: &mut String) -> Result<(), RowFault>
    requires { slot < length (slots_of table.now) }
{
    let mut sign = ' ';
    for number in table.numbers(slot).as_slice() {
        write!(text, "{sign}{number}")?;
        sign = '.';
    }
    text.push('\n')?;
    Ok(())
}

/// Appends a line for an accessor: its slot, its name, and the numbers on the way to the slot.
fn put_accessor(
    alloc: Global,
    table: &Table,
    made: &Accessor,
    text: &mut String,
) -> Result<(), RowFault> {
    write!(text, "{} ", made.slot)?;
    put_found(alloc, table, made, text)?;
    if made.slot < table.slots() {
        put_numbers(table, made.slot, text)?;
    }
    Ok(())
}

/// A line for each accessor.
fn names_text(alloc: Global, table: &Table) -> Result<String, RowFault> {
    let made = accessors(alloc, table)?;
    let mut text = String::new(alloc);
    for one in &made {
        put_accessor(alloc, table, one, &mut text)?;
    }
    Ok(text)
}

/// Tells where the accessors of a table aren't those of the row.
fn expect_names(
    alloc: Global,
    table: &Table,
    row: Row<'_>,
    told: &mut Told<'_>,
) -> Result<(), RowFault> {
    let names = names_text(alloc, table)?;
    expect_text("names", names.as_bytes(), row, told)
}

/// Whether a name is that of an accessor.
fn is_found(alloc: Global, table: &Table, name: &str) -> Result<bool, RowFault> {
    Ok(accessor(alloc, table, name)?.is_some())
}

/// Tells where one of these names, with blanks between them, is that of an accessor.
fn expect_unfound(
    alloc: Global,
    table: &Table,
    names: &str,
    told: &mut Told<'_>,
) -> Result<(), RowFault> {
    for name in names.split(' ') {
        if is_found(alloc, table, name)? {
            told.expect_bytes("found", name.as_bytes(), b"")?;
        }
    }
    Ok(())
}

/// Runs a row of `accessors`: those of a table, and names that none has.
pub fn run_accessors(alloc: Global, row: Row<'_>, told: &mut Told<'_>) -> Result<(), RowFault> {
    let table = table_of(alloc, row.needed("table")?)?;
    expect_names(alloc, &table, row, told)?;
    match row.field("others") {
        Some(others) => expect_unfound(alloc, &table, others.text()?, told),
        None => Ok(()),
    }
}

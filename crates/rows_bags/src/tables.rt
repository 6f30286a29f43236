//! Rows of tables: their slots, names and numbers.

ghost use Rattle.std.specs.Prelude.{◌<◌, length};
ghost use Rattle.bag_model.specs.Slots.{slots_of};

use crate::answers::{expect_count, expect_none};
use crate::cases::Case;
use field_table::Table;
use row_files::{RowFault, Told};
use std::fmt::Write;

/// Adds a line with the name path of a slot, the numbers on the way to it, and its shape.
fn put_slot(case: Case<'_>, slot: usize, lines: &mut String) -> Result<(), RowFault>
    requires { slot < length (slots_of case.table.now) }
{
    let name = case.table.name(case.alloc, slot)?;
    lines.push_str(name.as_str())?;
    for number in case.table.numbers(slot).as_slice() {
        write!(lines, " {number}")?;
    }
    let shape = case.table.shape(slot);
    writeln!(lines, " {shape:?}")?;
    Ok(())
}

/// Runs a row of all slots of a table.
pub fn run_slots(case: Case<'_>, told: &mut Told<'_>) -> Result<(), RowFault> {
    case.check_names(&["call", "bag", "slots"])?;
    let wanted = case.row.needed("slots")?;
    let mut lines = String::new(case.alloc);
    for slot in 0..case.table.slots() {
        put_slot(case, slot, &mut lines)?;
    }
    told.expect_bytes("slots", lines.as_bytes(), wanted.value())?;
    Ok(())
}

/// Tells where the slots of a field aren't those of the row: the first, and the number after the
/// last.
fn expect_range(
    case: Case<'_>,
    range: Option<(usize, usize)>,
    told: &mut Told<'_>,
) -> Result<(), RowFault> {
    let Some((first, end)) = range else {
        return expect_none(case, "range", told);
    };
    let text = format!(in case.alloc; "{first} {end}")?;
    told.expect_bytes("range", text.as_bytes(), case.row.value("range"))?;
    Ok(())
}

/// Runs a row of the slot, and of the slots of the field, that a name path names.
pub fn run_find(case: Case<'_>, told: &mut Told<'_>) -> Result<(), RowFault> {
    case.check_names(&["call", "bag", "name", "slot", "range"])?;
    let name = case.row.needed("name")?.text()?;
    match case.table.find(name) {
        Some(slot) => expect_count(case, "slot", slot, told)?,
        None => expect_none(case, "slot", told)?,
    }
    expect_range(case, case.table.find_range(name), told)
}

/// The name of the field with a number, and how many slots are before it.
fn field_with(table: &Table, number: u64) -> Option<(&str, usize)> {
    let fields = table.nodes();
    let (place, field) = fields.find_number(number)?;
    Some((field.name.as_str(), fields.slots_before(place)))
}

/// Runs a row of the field with a number.
pub fn run_field_number(case: Case<'_>, told: &mut Told<'_>) -> Result<(), RowFault> {
    case.check_names(&["call", "bag", "number", "name", "before"])?;
    let number = case.row.needed("number")?.number()?;
    let Some((name, before)) = field_with(case.table, number) else {
        expect_none(case, "name", told)?;
        return expect_none(case, "before", told);
    };
    told.expect_bytes("name", name.as_bytes(), case.row.value("name"))?;
    expect_count(case, "before", before, told)
}

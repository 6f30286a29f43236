//! Rows of two definitions: what breaks where one takes the place of the other.

use crate::answers::expect_text;
use crate::libraries::table_in;
use def_evolve::{Break, breaks, evolve};
use field_table::Table;
use row_files::{Row, RowFault, Told};
use std::alloc::Global;
use std::fmt::Write;

/// Appends the way to a break, and the reason.
fn put_way(alloc: Global, found: &Break<'_>, text: &mut String) -> Result<(), RowFault> {
    let path = found.path(alloc)?;
    write!(text, "{} {} ", path.as_str(), found.change)?;
    Ok(())
}

/// Appends what both tables have at a break, and ends the line.
fn put_sides(alloc: Global, found: &Break<'_>, text: &mut String) -> Result<(), RowFault> {
    let sides = found.sides(alloc)?;
    writeln!(text, "{}", sides.as_str())?;
    Ok(())
}

/// Appends a line for a break.
fn put_break(alloc: Global, found: &Break<'_>, text: &mut String) -> Result<(), RowFault> {
    put_way(alloc, found, text)?;
    put_sides(alloc, found, text)
}

/// A line for each break.
fn breaks_text(alloc: Global, old: &Table, new: &Table) -> Result<String, RowFault> {
    let found = breaks(alloc, old, new)?;
    let mut text = String::new(alloc);
    for one in &found {
        put_break(alloc, one, &mut text)?;
    }
    Ok(text)
}

/// The verdict.
fn verdict_text(alloc: Global, old: &Table, new: &Table) -> Result<String, RowFault> {
    let verdict = evolve(alloc, old, new)?;
    Ok(format!(in alloc; "{verdict}")?)
}

/// Tells where the verdict isn't that of the row.
fn expect_verdict(
    alloc: Global,
    old: &Table,
    new: &Table,
    row: Row<'_>,
    told: &mut Told<'_>,
) -> Result<(), RowFault> {
    let verdict = verdict_text(alloc, old, new)?;
    expect_text("verdict", verdict.as_bytes(), row, told)
}

/// Tells where the breaks aren't those of the row.
fn expect_breaks(
    alloc: Global,
    old: &Table,
    new: &Table,
    row: Row<'_>,
    told: &mut Told<'_>,
) -> Result<(), RowFault> {
    let breaks = breaks_text(alloc, old, new)?;
    told.expect_bytes("breaks", breaks.as_bytes(), row.value("breaks"))?;
    Ok(())
}

/// Runs a row of `evolve`: the verdict on a definition in the place of another, and all breaks.
pub fn run_evolve(alloc: Global, row: Row<'_>, told: &mut Told<'_>) -> Result<(), RowFault> {
    let bag = row.needed("bag")?.text()?;
    let (old, new) = (row.needed("old")?, row.needed("new")?);
    let old = table_in(alloc, old, bag)?;
    let new = table_in(alloc, new, bag)?;
    expect_verdict(alloc, &old, &new, row, told)?;
    expect_breaks(alloc, &old, &new, row, told)
}

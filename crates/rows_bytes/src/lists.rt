//! Rows of lists and contexts that are cut to their first atoms and a marker.

use crate::answers::expect_atoms;
use crate::fields::{context_named, list_named};
use atom_list::AtomList;
use row_files::{Reason, Row, RowFault, Told, expect_digits};
use std::alloc::Global;
use wire_bytes::{Form, write};

/// Why a list isn't cut: it has no atom at this place.
fn too_few(row: Row<'_>) -> Result<(), RowFault> {
    Err(row.needed("keep")?.fault(Reason::Number))
}

/// Cuts the list of the row; a copy stays whole.
fn cut_list(alloc: Global, keep: usize, row: Row<'_>, told: &mut Told<'_>) -> Result<(), RowFault> {
    let mut list = list_named(alloc, row, "atoms")?;
    if list.len() <= keep {
        return too_few(row);
    }
    let copy = list.copy()?;
    list.cut_to_marker(keep);
    expect_atoms(alloc, "left", &list, row, told)?;
    told.expect_number("framed", u64::from(list.framed().is_some()), 0)?;
    drop(list);
    expect_atoms(alloc, "atoms", &copy, row, told)
}

/// Cuts the context of the row; a copy stays whole.
fn cut_context(
    alloc: Global,
    keep: usize,
    row: Row<'_>,
    told: &mut Told<'_>,
) -> Result<(), RowFault> {
    let mut context = context_named(alloc, row, "atoms")?;
    if context.list().len() <= keep {
        return too_few(row);
    }
    let copy = context.copy()?;
    context.cut_to_marker(keep);
    expect_atoms(alloc, "left", context.list(), row, told)?;
    expect_atoms(alloc, "atoms", copy.list(), row, told)
}

/// Tells where the bytes of the first atoms of a list, as they are in its buffer, aren't those that
/// the list of these is written as.
fn expect_prefix(
    alloc: Global,
    keep: usize,
    list: &AtomList,
    told: &mut Told<'_>,
) -> Result<(), RowFault> {
    if list.len() < keep {
        return Ok(());
    }
    let prefix = list.front(keep)?;
    let bytes = write(alloc, Form::One, &prefix)?;
    let framed = list.framed_front(keep).unwrap_or(b"none");
    told.expect_bytes("bytes of the first atoms", framed, &bytes)?;
    Ok(())
}

/// Looks at the bytes of the list of the row.
fn frame_list(
    alloc: Global,
    keep: usize,
    row: Row<'_>,
    told: &mut Told<'_>,
) -> Result<(), RowFault> {
    let list = list_named(alloc, row, "atoms")?;
    if row.has("bytes") {
        let framed = list.framed().unwrap_or(b"none");
        expect_digits(alloc, "bytes", framed, row, told)?;
    }
    expect_prefix(alloc, keep, &list, told)
}

/// Runs a row of a cut.
pub fn run_cut(alloc: Global, row: Row<'_>, told: &mut Told<'_>) -> Result<(), RowFault> {
    row.check_names(&["call", "atoms", "keep", "left", "bytes"], &[])?;
    let keep = row.needed("keep")?.count()?;
    frame_list(alloc, keep, row, told)?;
    cut_list(alloc, keep, row, told)?;
    cut_context(alloc, keep, row, told)
}

//! Rows of the bytes of lists and contexts.

use crate::answers::expect_atoms;
use crate::fields::{form_of, list_named};
use atom_list::AtomList;
use row_files::{
    Row, RowFault, Told, expect_digits, expect_fault_at, expect_no_fault, expect_word,
};
use std::alloc::Global;
use std::fmt::Write;
use wire_bytes::{
    ContextFault, Form, WireFault, form_of as form_in, offset, read, read_context, size, write,
};

/// The names of the fields of rows that read.
const READ_NAMES: &[&str] = &["call", "bytes", "atoms", "fault"];

/// Tells where a list that was read isn't that of the row.
fn expect_read(
    alloc: Global,
    list: &AtomList,
    row: Row<'_>,
    told: &mut Told<'_>,
) -> Result<(), RowFault> {
    expect_no_fault(row, told)?;
    expect_atoms(alloc, "atoms", list, row, told)
}

/// Tells where bytes aren't those of the list of the row, or are refused otherwise.
fn read_as(alloc: Global, bytes: &[u8], row: Row<'_>, told: &mut Told<'_>) -> Result<(), RowFault> {
    match read(alloc, bytes) {
        Ok(list) => expect_read(alloc, &list, row, told),
        Err(WireFault::At { offset, code }) => {
            expect_fault_at(alloc, offset as u64, &code, row, told)
        }
        Err(WireFault::Memory) => Err(RowFault::Memory),
    }
}

/// Runs a row of the bytes of a list.
pub fn run_read(alloc: Global, row: Row<'_>, told: &mut Told<'_>) -> Result<(), RowFault> {
    row.check_names(READ_NAMES, &[])?;
    read_as(alloc, &row.needed("bytes")?.bytes(alloc)?, row, told)
}

/// Runs a row of the bytes of a context.
pub fn run_context(alloc: Global, row: Row<'_>, told: &mut Told<'_>) -> Result<(), RowFault> {
    row.check_names(READ_NAMES, &[])?;
    let bytes = row.needed("bytes")?.bytes(alloc)?;
    match read_context(alloc, &bytes) {
        Ok(context) => expect_read(alloc, context.list(), row, told),
        Err(ContextFault::At { offset, code }) => {
            expect_fault_at(alloc, offset as u64, &code, row, told)
        }
        Err(ContextFault::Memory) => Err(RowFault::Memory),
    }
}

/// The word of a form.
fn word_of(form: Form) -> &'static str {
    match form {
        Form::One => "one",
        Form::Two => "two",
    }
}

/// Tells where the bytes of a list aren't those of the row, are in another form, or aren't read
/// back as that list.
fn expect_written(
    alloc: Global,
    form: Form,
    list: &AtomList,
    row: Row<'_>,
    told: &mut Told<'_>,
) -> Result<(), RowFault> {
    let bytes = write(alloc, form, list)?;
    expect_digits(alloc, "bytes", &bytes, row, told)?;
    expect_word("written", word_of(form_in(&bytes)), row, told)?;
    read_as(alloc, &bytes, row, told)
}

/// The offsets of the atoms of a list.
fn offsets_text(alloc: Global, form: Form, list: &AtomList) -> Result<String, RowFault> {
    let mut text = String::new(alloc);
    for at in 0..list.len() {
        if !text.is_empty() {
            text.push(' ')?;
        }
        let offset = offset(form, list, at);
        write!(&mut text, "{offset}")?;
    }
    Ok(text)
}

/// Tells where the size of a list, or the offsets of its atoms, aren't those of the row.
fn expect_measures(
    alloc: Global,
    form: Form,
    list: &AtomList,
    row: Row<'_>,
    told: &mut Told<'_>,
) -> Result<(), RowFault> {
    let size = size(form, list);
    let size = format!(in alloc; "{size}")?;
    expect_word("size", size.as_str(), row, told)?;
    if !row.has("offsets") {
        return Ok(());
    }
    let offsets = offsets_text(alloc, form, list)?;
    expect_word("offsets", offsets.as_str(), row, told)
}

/// Runs a row of a list that is written.
pub fn run_write(alloc: Global, row: Row<'_>, told: &mut Told<'_>) -> Result<(), RowFault> {
    row.check_names(
        &[
            "call", "form", "atoms", "bytes", "written", "size", "offsets",
        ],
        &[],
    )?;
    let form = form_of(row)?;
    let list = list_named(alloc, row, "atoms")?;
    expect_measures(alloc, form, &list, row, told)?;
    expect_written(alloc, form, &list, row, told)
}

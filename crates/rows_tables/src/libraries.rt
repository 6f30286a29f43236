//! Libraries of rows, and definitions of one file.

use bdl_check::{DefFault, compile};
use field_table::Table;
use outside::{MemoryLibrary, SureLibrary};
use row_files::{Field, Reason, Row, RowFault, Told};
use std::alloc::Global;

/// The numbers of the fetches that fail.
fn failing_of(alloc: Global, row: Row<'_>) -> Result<Vec<u64>, RowFault> {
    let mut numbers = Vec::new(alloc);
    for field in row.own {
        if field.name() == "fail" {
            numbers.push(field.number()?)?;
        }
    }
    Ok(numbers)
}

/// Adds those of the fields that are files.
fn add_files(fields: &[Field<'_>], library: &mut MemoryLibrary) -> Result<(), RowFault> {
    for field in fields {
        if field.name() == "file" {
            library.add(field.label_text()?, field.content())?;
        }
    }
    Ok(())
}

/// The library of a row.
pub fn library_of(alloc: Global, row: Row<'_>) -> Result<MemoryLibrary, RowFault> {
    let mut library = MemoryLibrary::new(alloc, failing_of(alloc, row)?);
    add_files(row.shared, &mut library)?;
    add_files(row.own, &mut library)?;
    Ok(library)
}

/// The names that the library was asked for, with blanks between them.
fn asked_of(alloc: Global, library: &MemoryLibrary) -> Result<String, RowFault> {
    let names = library.asked().ok_or(RowFault::Memory)?;
    let mut text = String::new(alloc);
    for name in names.iter() {
        if !text.is_empty() {
            text.push(' ')?;
        }
        text.push_str(name.as_str())?;
    }
    Ok(text)
}

/// Tells where the names that were asked for aren't those of the row, where it has them.
pub fn expect_asked(
    alloc: Global,
    library: &MemoryLibrary,
    row: Row<'_>,
    told: &mut Told<'_>,
) -> Result<(), RowFault> {
    if row.has("asked") {
        let asked = asked_of(alloc, library)?;
        told.expect_bytes("asked", asked.as_bytes(), row.value("asked"))?;
    }
    Ok(())
}

/// The table of a bag of the definition in a field, which must have no fault.
pub fn table_in(alloc: Global, field: &Field<'_>, bag: &str) -> Result<Table, RowFault> {
    let mut library = SureLibrary::new(alloc);
    library.add("f", field.value())?;
    match compile(alloc, &mut library, "f", bag) {
        Ok(table) => Ok(table),
        Err(DefFault::Memory) => Err(RowFault::Memory),
        Err(_) => Err(field.fault(Reason::Word)),
    }
}

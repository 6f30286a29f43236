//! Rows of files: what is loaded from a root.

use crate::answers::{Answer, wanting};
use bdl_load::{DefFault, LoadedFile, load};
use outside::MemoryLibrary;
use row_files::{Field, Row, RowFault, Told};
use std::alloc::Global;

/// The numbers of the fetches that fail.
fn failing_of(alloc: Global, row: Row<'_>) -> Result<Vec<u64>, RowFault> {
    let mut numbers = Vec::new(alloc);
    for field in row.own {
        if field.name() == "fail" {
            numbers.push(field.number()?)?;
        }
    }
    Ok(numbers)
}

/// Adds those of the fields that are files.
fn add_files(fields: &[Field<'_>], library: &mut MemoryLibrary) -> Result<(), RowFault> {
    for field in fields {
        if field.name() == "file" {
            library
                .add(field.label_text()?, field.content())
                .map_err(wanting)?;
        }
    }
    Ok(())
}

/// The library of a row.
pub fn library_of(alloc: Global, row: Row<'_>) -> Result<MemoryLibrary, RowFault> {
    let mut library = MemoryLibrary::new(alloc, failing_of(alloc, row)?);
    add_files(row.shared, &mut library)?;
    add_files(row.own, &mut library)?;
    Ok(library)
}

/// The names that the library was asked for, with blanks between them.
fn asked_of(alloc: Global, library: &MemoryLibrary) -> Result<String, RowFault> {
    let names = library.asked().ok_or(RowFault::Memory)?;
    let mut text = String::new(alloc);
    for name in names.iter() {
        if !text.is_empty() {
            text.push(' ')?;
        }
        text.push_str(name.as_str())?;
    }
    Ok(text)
}

/// Tells where the names that were asked for aren't those of the row, where it has them.
pub fn expect_asked(
    alloc: Global,
    library: &MemoryLibrary,
    row: Row<'_>,
    told: &mut Told<'_>,
) -> Result<(), RowFault> {
    if row.has("asked") {
        let asked = asked_of(alloc, library)?;
        told.expect_bytes("asked", asked.as_bytes(), row.value("asked"))?;
    }
    Ok(())
}

/// The first fault of a definition.
pub fn refused(alloc: Global, fault: DefFault) -> Result<Answer, RowFault> {
    match fault {
        DefFault::At {
            file,
            line,
            column,
            code,
        } => {
            let text = format!(in alloc; "{} {line}:{column} {code}", file.as_str())?;
            Ok(Answer::Fault(text))
        }
        DefFault::Failed => Ok(Answer::Fault(String::from_str(alloc, "failed")?)),
        DefFault::Memory => Err(RowFault::Memory),
    }
}

/// The names of files, with blanks between them.
fn names_of(alloc: Global, files: &[LoadedFile]) -> Result<String, RowFault> {
    let mut text = String::new(alloc);
    for file in files {
        if !text.is_empty() {
            text.push(' ')?;
        }
        text.push_str(file.name.as_str())?;
    }
    Ok(text)
}

/// The names of the files that are loaded from the root of a row.
pub fn loaded(alloc: Global, row: Row<'_>, told: &mut Told<'_>) -> Result<Answer, RowFault> {
    let mut library = library_of(alloc, row)?;
    let root = row.needed("root")?.text()?;
    let answer = match load(alloc, &mut library, root) {
        Ok(files) => Answer::Is("loaded", names_of(alloc, &files)?),
        Err(fault) => refused(alloc, fault)?,
    };
    expect_asked(alloc, &library, row, told)?;
    Ok(answer)
}

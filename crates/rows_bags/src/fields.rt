//! What the fields of a row say.

use crate::cases::Case;
use atom_list::{AtomList, Context};
use bdl_check::{DefFault, compile};
use field_table::{SlotSet, Table, View};
use outside::{ATOM_MAX, SureLibrary};
use row_files::{Field, Reason, Row, RowFault};
use std::alloc::Global;

/// Adds the atom that a word of a field says in digits; a dash says a marker.
fn add_word(
    alloc: Global,
    field: &Field<'_>,
    word: &str,
    list: &mut AtomList,
) -> Result<(), RowFault> {
    let atom = field.bytes_said(alloc, word.as_bytes())?;
    if ATOM_MAX < atom.len() {
        return Err(field.fault(Reason::Word));
    }
    list.push(&atom)?;
    Ok(())
}

/// The list of the atoms that a field says.
fn list_of(alloc: Global, field: &Field<'_>) -> Result<AtomList, RowFault> {
    let mut list = AtomList::new(alloc);
    for word in field.text()?.split_whitespace() {
        add_word(alloc, field, word, &mut list)?;
    }
    Ok(list)
}

/// The context of the atoms that the field of this name says.
pub fn context_named(case: Case<'_>, name: &'static str) -> Result<Context, RowFault> {
    let field = case.row.needed(name)?;
    match Context::check(list_of(case.alloc, field)?) {
        Ok(context) => Ok(context),
        Err(_) => Err(field.fault(Reason::Word)),
    }
}

/// Adds those of the fields that are files.
fn add_files(fields: &[Field<'_>], library: &mut SureLibrary) -> Result<(), RowFault> {
    for field in fields {
        if field.name() == "file" {
            library.add(field.label_text()?, field.content())?;
        }
    }
    Ok(())
}

/// The files of the row.
fn library_of(alloc: Global, row: Row<'_>) -> Result<SureLibrary, RowFault> {
    let mut library = SureLibrary::new(alloc);
    add_files(row.shared, &mut library)?;
    add_files(row.own, &mut library)?;
    Ok(library)
}

/// The table of the row's bag: the field has the name of its file and its own.
pub fn table_of(alloc: Global, row: Row<'_>) -> Result<Table, RowFault> {
    let field = row.needed("bag")?;
    let (file, bag) = field.text()?.split_once(' ').unwrap_or(("", ""));
    let mut library = library_of(alloc, row)?;
    match compile(alloc, &mut library, file, bag) {
        Ok(table) => Ok(table),
        Err(DefFault::Memory) => Err(RowFault::Memory),
        Err(_) => Err(field.fault(Reason::Word)),
    }
}

/// The view of a service that knows the slots from one number on, up to but not another.
fn view_between(alloc: Global, field: &Field<'_>, range: &str) -> Result<View, RowFault> {
    let (first, end) = range.split_once(' ').unwrap_or(("", ""));
    let (Ok(first), Ok(end)) = (first.parse::<usize>(), end.parse::<usize>()) else {
        return Err(field.fault(Reason::Number));
    };
    let mut slots = SlotSet::new(alloc);
    slots.push_range(first, end)?;
    Ok(View::Only(slots))
}

/// The view of the row; that of all slots where it has none.
pub fn view_of(case: Case<'_>) -> Result<View, RowFault> {
    let Some(field) = case.row.field("known") else {
        return Ok(View::All);
    };
    match field.text()? {
        "all" => Ok(View::All),
        "none" => Ok(View::Nothing),
        range => view_between(case.alloc, field, range),
    }
}

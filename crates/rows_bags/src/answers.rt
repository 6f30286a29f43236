//! What calls answer, as row files have it, beside what they are to answer.

use crate::cases::Case;
use atom_list::AtomList;
use bag_codec::Val;
use field_table::Shape;
use report_text::put_value;
use row_files::{RowFault, Told};
use std::alloc::Global;
use text_lines::push_hex;

/// Adds a line with the text of a value.
pub fn put_line(shape: &Shape, value: &Val, lines: &mut Vec<u8>) -> Result<(), RowFault> {
    put_value(shape, value, lines)?;
    lines.push(b'\n')?;
    Ok(())
}

/// A line for each field of the table with what a value has there.
fn fields_text(case: Case<'_>, value: &Val) -> Result<Vec<u8>, RowFault> {
    let mut lines = Vec::new(case.alloc);
    let Val::Bag(values) = value else {
        return Ok(lines);
    };
    let fields = case.table.nodes();
    for at in 0..fields.len() {
        if let (Some(field), Some(value)) = (fields.get(at), values.get(at)) {
            put_line(&field.shape, value, &mut lines)?;
        }
    }
    Ok(lines)
}

/// Tells where a value hasn't what the row says, field by field.
pub fn expect_fields(case: Case<'_>, value: &Val, told: &mut Told<'_>) -> Result<(), RowFault> {
    let wanted = case.row.needed("fields")?;
    told.expect_bytes("fields", &fields_text(case, value)?, wanted.value())?;
    Ok(())
}

/// Tells where one of two values hasn't what the row says, field by field.
pub fn expect_both(
    case: Case<'_>,
    one: &Val,
    other: &Val,
    told: &mut Told<'_>,
) -> Result<(), RowFault> {
    expect_fields(case, one, told)?;
    expect_fields(case, other, told)
}

/// The atoms of a list.
fn atoms_text(alloc: Global, list: &AtomList) -> Result<Vec<u8>, RowFault> {
    let mut text = Vec::new(alloc);
    for atom in list.iter() {
        if !text.is_empty() {
            text.push(b' ')?;
        }
        push_hex(&mut text, atom)?;
    }
    Ok(text)
}

/// Tells where a list hasn't the atoms that the field of this name says.
pub fn expect_atoms(
    case: Case<'_>,
    name: &'static str,
    list: &AtomList,
    told: &mut Told<'_>,
) -> Result<(), RowFault> {
    let wanted = case.row.needed(name)?;
    told.expect_bytes(name, &atoms_text(case.alloc, list)?, wanted.value())?;
    Ok(())
}

/// Tells where the field of this name says something, though there is nothing.
pub fn expect_none(
    case: Case<'_>,
    name: &'static str,
    told: &mut Told<'_>,
) -> Result<(), RowFault> {
    told.expect_bytes(name, b"", case.row.value(name))?;
    Ok(())
}

/// Tells where a number isn't that of the field of this name.
pub fn expect_count(
    case: Case<'_>,
    name: &'static str,
    count: usize,
    told: &mut Told<'_>,
) -> Result<(), RowFault> {
    let text = format!(in case.alloc; "{count}")?;
    told.expect_bytes(name, text.as_bytes(), case.row.value(name))?;
    Ok(())
}

//! Rows of single atoms.

use atom_kinds::{Kind, compare, datum, header_level, indexed, keyed, kind_of, rest};
use outside::{ATOM_MAX, Memory, Octets};
use row_files::{
    Row, RowFault, Told, expect_count, expect_digits, expect_fault, expect_no_fault, expect_word,
};
use std::alloc::Global;
use std::cmp::Ordering;

/// A kind, as row files have it.
fn kind_text(alloc: Global, kind: Kind) -> Result<String, RowFault> {
    Ok(match kind {
        Kind::Marker => String::from_str(alloc, "marker")?,
        Kind::Datum => String::from_str(alloc, "datum")?,
        Kind::Indexed { level, number } => format!(in alloc; "field {level} {number}")?,
        Kind::Keyed { level } => format!(in alloc; "key {level}")?,
    })
}

/// The atom of this kind with these bytes after its first, where these are short.
fn atom_of(alloc: Global, kind: Kind, rest: &[u8]) -> Result<Octets, Memory> {
    match kind {
        Kind::Datum if rest.len() < ATOM_MAX => datum(alloc, rest),
        Kind::Indexed { level, number } if level < 16 => indexed(alloc, level, number),
        Kind::Keyed { level } if level < 16 && rest.len() < ATOM_MAX => keyed(alloc, level, rest),
        _ => Ok(Octets::empty(alloc)),
    }
}

/// Runs a row of an atom's kind, and makes the atom anew.
pub fn run_kind(alloc: Global, row: Row<'_>, told: &mut Told<'_>) -> Result<(), RowFault> {
    row.check_names(&["call", "atom", "kind", "fault"], &[])?;
    let atom = row.needed("atom")?.bytes(alloc)?;
    match kind_of(&atom) {
        Ok(kind) => {
            expect_no_fault(row, told)?;
            expect_word("kind", kind_text(alloc, kind)?.as_str(), row, told)?;
            let made = atom_of(alloc, kind, rest(&atom))?;
            expect_digits(alloc, "atom", made.as_slice(), row, told)
        }
        Err(fault) => expect_fault(alloc, &fault, row, told),
    }
}

/// Runs a row of the level of a header, and of what follows an atom's first byte.
pub fn run_parts(alloc: Global, row: Row<'_>, told: &mut Told<'_>) -> Result<(), RowFault> {
    row.check_names(&["call", "atom", "level", "rest"], &[])?;
    let atom = row.needed("atom")?.bytes(alloc)?;
    match header_level(&atom) {
        Some(level) => expect_count("level", level as u64, row, told)?,
        None => told.expect_bytes("level", b"", row.value("level"))?,
    }
    expect_digits(alloc, "rest", rest(&atom), row, told)
}

/// Runs a row of the order of two atoms.
pub fn run_order(alloc: Global, row: Row<'_>, told: &mut Told<'_>) -> Result<(), RowFault> {
    row.check_names(&["call", "first", "second", "order"], &[])?;
    let first = row.needed("first")?.bytes(alloc)?;
    let second = row.needed("second")?.bytes(alloc)?;
    let word = match compare(&first, &second) {
        Ordering::Less => "less",
        Ordering::Equal => "equal",
        Ordering::Greater => "greater",
    };
    expect_word("order", word, row, told)
}

//! Rows of words that values hold, and of how long they may be.

use crate::answers::{expect_atoms, expect_none};
use crate::cases::Case;
use bag_codec::{Entries, Entry, Val, Vals, can_encode, encode};
use counter_type::Counts;
use field_table::{Shape, Table};
use outside::{Memory, Text};
use row_files::{RowFault, Told};
use scalar_types::Scalar;
use std::alloc::Global;

/// The map of one key, with an absent scalar.
fn map_of(alloc: Global, key: Scalar) -> Result<Val, Memory> {
    let value = Val::Scalar(None);
    let mut entries = Entries::new(alloc);
    entries.push(Entry { key, value })?;
    Ok(Val::Map(entries))
}

/// The value of this shape with one word: a string, the key of a map, or a writer with the count 1.
fn of_word(alloc: Global, shape: &Shape, word: &str) -> Result<Val, Memory> {
    match shape {
        Shape::Counter => Ok(Val::Counter(Counts::of(alloc, word.as_bytes(), 1)?)),
        Shape::Map(_, _) => map_of(alloc, Scalar::Str(Text::of(alloc, word)?)),
        _ => Ok(Val::Scalar(Some(Scalar::Str(Text::of(alloc, word)?)))),
    }
}

/// The bag each of whose fields has this word.
fn bag_of_word(alloc: Global, table: &Table, word: &str) -> Result<Val, Memory> {
    let mut values = Vals::new(alloc);
    let fields = table.nodes();
    for at in 0..fields.len() {
        if let Some(field) = fields.get(at) {
            values.push(of_word(alloc, &field.shape, word)?)?;
        }
    }
    Ok(Val::Bag(values))
}

/// Tells where the encoding of a value hasn't the atoms that the field of this name says. There are
/// none where the value isn't one of the bag, or an atom has no room.
pub fn expect_encoding(
    case: Case<'_>,
    name: &'static str,
    value: &Val,
    told: &mut Told<'_>,
) -> Result<(), RowFault> {
    if !can_encode(case.table, value) {
        return expect_none(case, name, told);
    }
    let context = encode(case.alloc, case.table, value)?;
    expect_atoms(case, name, context.list(), told)
}

/// Runs a row of a word that is encoded, where a value of the table may have it.
pub fn run_encode(case: Case<'_>, told: &mut Told<'_>) -> Result<(), RowFault> {
    case.check_names(&["call", "bag", "word", "atoms"])?;
    let word = case.row.needed("word")?.text()?;
    match bag_of_word(case.alloc, case.table, word) {
        Ok(value) => expect_encoding(case, "atoms", &value, told),
        Err(Memory) => Err(RowFault::Memory),
    }
}

//! Random definitions of bags.

use crate::dice::Dice;
use outside::Memory;
use std::alloc::Global;

/// The words of scalars.
const WORDS: [&str; 13] = [
    "bool", "int32", "int64", "sint32", "sint64", "uint32", "uint64", "fixed32", "fixed64",
    "sfixed32", "sfixed64", "string", "bytes",
];

/// A word of scalars.
fn word(dice: &mut Dice) -> &'static str {
    WORDS[dice.below(13)]
}

/// Adds a type whose values hold no other values.
fn put_plain(dice: &mut Dice, text: &mut String) -> Result<(), Memory> {
    let word = word(dice);
    match dice.below(8) {
        0 => text.push_str("taint")?,
        1 => text.push_str("counter")?,
        2 => text.push_str("Packed")?,
        3 => text.push_str("set<Packed>")?,
        4 => write!(text, "set<{word}>")?,
        5 => text.push_str("greatest<Packed>")?,
        6 => write!(text, "greatest<{word}>")?,
        _ => text.push_str(word)?,
    }
    Ok(())
}

/// Adds a type of any form: one to which maps lead, or a map to one, or to maps to one.
fn put_any(dice: &mut Dice, text: &mut String) -> Result<(), Memory> {
    let maps = match dice.below(8) {
        0 | 1 => 1,
        2 => 2,
        _ => 0,
    };
    for _ in 0..maps {
        write!(text, "map<{}, ", word(dice))?;
    }
    if dice.below(4) == 0 {
        text.push_str("Inner")?;
    } else {
        put_plain(dice, text)?;
    }
    for _ in 0..maps {
        text.push('>')?;
    }
    Ok(())
}

/// Adds the fields of a struct.
fn put_struct(dice: &mut Dice, text: &mut String) -> Result<(), Memory> {
    for at in 0..1 + dice.below(3) {
        write!(text, " {} s{at};", word(dice))?;
    }
    Ok(())
}

/// Adds the fields of the bag that may be inside the other.
fn put_inner(dice: &mut Dice, text: &mut String) -> Result<(), Memory> {
    for at in 0..1 + dice.below(3) {
        text.push(' ')?;
        put_plain(dice, text)?;
        write!(text, " i{at} = {at};")?;
    }
    Ok(())
}

/// Adds the fields of the outer bag. Their numbers have a byte or more.
fn put_outer(dice: &mut Dice, text: &mut String) -> Result<(), Memory> {
    for at in 0..1 + dice.below(6) {
        text.push(' ')?;
        put_any(dice, text)?;
        write!(text, " o{at} = {};", 60 * at + dice.below(60))?;
    }
    Ok(())
}

/// A random definition: a struct, a bag that may be inside the other, and that bag, `Outer`.
pub fn random_definition(alloc: Global, dice: &mut Dice) -> Result<String, Memory> {
    let mut text = String::from_str(alloc, "struct Packed {")?;
    put_struct(dice, &mut text)?;
    text.push_str(" } bag Inner {")?;
    put_inner(dice, &mut text)?;
    text.push_str(" } bag Outer {")?;
    put_outer(dice, &mut text)?;
    text.push_str(" }")?;
    Ok(text)
}

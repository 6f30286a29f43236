//! Random values of the shapes of a table.

ghost use Rattle.std.specs.Prelude.{◌≡◌, IfOk};
ghost use Rattle.scalar_types.specs.Scalars.{IsPlain};

use crate::dice::Dice;
use bag_codec::{Entries, Entry, ScalarSet, Val, Vals, bottom_of};
use counter_type::{Counts, Lattice};
use field_table::{Shape, Slots};
use outside::{Memory, Octets, Text};
use scalar_types::{Codec, KindList, Scalar, ScalarKind, ScalarList, ScalarWord};
use set_map_types::SetOf;
use std::alloc::Global;
use std::cmp::Ordering;
use std::test::Fail;

/// What texts are made of.
const LETTERS: [char; 4] = ['\0', 'a', 'b', 'é'];

/// What byte strings are made of.
const BYTES: [u8; 4] = [0, 1, 0xfe, 0xff];

/// Numbers with a sign that have 32 bits, at the ends and in the middle.
const EDGES: [i64; 5] = [-2_147_483_648, -1, 0, 1, 2_147_483_647];

/// How many numbers of 32 bits there are.
const WIDTH: usize = 4_294_967_296;

/// How many numbers of 64 bits have no minus.
const HALF: u64 = 9_223_372_036_854_775_808;

/// A text of at most three letters.
fn random_text(alloc: Global, dice: &mut Dice) -> Result<Text, Memory> {
    let mut text = String::new(alloc);
    for _ in 0..dice.below(4) {
        text.push(LETTERS[dice.below(4)])?;
    }
    Text::from_string(text)
}

/// At most three bytes.
fn random_octets(alloc: Global, dice: &mut Dice) -> Result<Octets, Memory> {
    let mut bytes = Vec::new(alloc);
    for _ in 0..dice.below(4) {
        bytes.push(BYTES[dice.below(4)])?;
    }
    Ok(Octets::from_vec(bytes))
}

/// A number with a sign that has 32 bits. Those at the ends and in the middle come often.
fn random_short(dice: &mut Dice) -> i64 {
    if dice.flips() {
        EDGES[dice.below(5)]
    } else {
        dice.below(WIDTH) as i64 - 2_147_483_648
    }
}

/// A number with a sign.
fn random_signed(dice: &mut Dice) -> i64 {
    let size = (dice.next() % HALF) as i64;
    match dice.below(4) {
        0 => size,
        1 => -1 - size,
        _ => random_short(dice),
    }
}

/// A number without a sign that has 32 bits. Small ones come often.
fn random_natural(dice: &mut Dice) -> u64 {
    let bound = if dice.flips() { 4 } else { WIDTH };
    dice.below(bound) as u64
}

/// A number without a sign.
fn random_unsigned(dice: &mut Dice) -> u64 {
    match dice.below(4) {
        0 => dice.next(),
        1 => u64::MAX,
        _ => random_natural(dice),
    }
}

/// A value of a word.
fn random_plain(alloc: Global, dice: &mut Dice, word: ScalarWord) -> Result<Scalar, Memory>
    ensures { IfOk result IsPlain }
{
    match word {
        ScalarWord::Bool => Ok(Scalar::Bool(dice.flips())),
        ScalarWord::Int32 | ScalarWord::Sint32 | ScalarWord::Sfixed32 => {
            Ok(Scalar::Signed(random_short(dice)))
        }
        ScalarWord::Int64 | ScalarWord::Sint64 | ScalarWord::Sfixed64 => {
            Ok(Scalar::Signed(random_signed(dice)))
        }
        ScalarWord::Uint32 | ScalarWord::Fixed32 => Ok(Scalar::Unsigned(random_natural(dice))),
        ScalarWord::Uint64 | ScalarWord::Fixed64 => Ok(Scalar::Unsigned(random_unsigned(dice))),
        ScalarWord::Str => Ok(Scalar::Str(random_text(alloc, dice)?)),
        ScalarWord::Bytes => Ok(Scalar::Bytes(random_octets(alloc, dice)?)),
    }
}

/// A value of a struct.
fn random_struct(alloc: Global, dice: &mut Dice, words: &KindList) -> Result<Scalar, Memory> {
    let mut scalars = ScalarList::new(alloc);
    for word in words.as_slice() {
        scalars.push(random_plain(alloc, dice, *word)?)?;
    }
    Ok(Scalar::Packed(scalars))
}

/// A value of a kind.
fn random_scalar(alloc: Global, dice: &mut Dice, kind: &ScalarKind) -> Result<Scalar, Memory> {
    match kind {
        ScalarKind::One(word) => random_plain(alloc, dice, *word),
        ScalarKind::Packed(words) => random_struct(alloc, dice, words),
    }
}

/// A set of one value of a kind.
fn random_element(alloc: Global, dice: &mut Dice, kind: &ScalarKind) -> Result<ScalarSet, Fail>
    ensures { IfOk result (λ set. set.codec ≡ kind.now) }
{
    let own = kind.copy()?;
    let scalar = random_scalar(alloc, dice, kind)?;
    if own.fits(&scalar) {
        Ok(SetOf::of(alloc, own, scalar)?)
    } else {
        Err(Fail::from("a value of a kind is of the kind"))
    }
}

/// A set of at most two values of a kind.
fn random_set(alloc: Global, dice: &mut Dice, kind: &ScalarKind) -> Result<ScalarSet, Fail> {
    let mut set = random_element(alloc, dice, kind)?;
    set.join(&random_element(alloc, dice, kind)?)?;
    Ok(set)
}

/// Counts of at most two writers.
fn random_counts(alloc: Global, dice: &mut Dice) -> Result<Counts, Memory> {
    let writer = random_octets(alloc, dice)?;
    let mut counts = Counts::of(alloc, writer.as_slice(), random_unsigned(dice))?;
    let writer = random_octets(alloc, dice)?;
    counts.join(&Counts::of(alloc, writer.as_slice(), random_unsigned(dice))?)?;
    Ok(counts)
}

/// A map of both entries, where the first is before the second, and otherwise of the second.
fn map_of(alloc: Global, first: Entry, second: Entry) -> Result<Entries, Memory> {
    let mut entries = Entries::new(alloc);
    if let Ordering::Less = first.key.order(&second.key) {
        entries.push(first)?;
    }
    entries.push(second)?;
    Ok(entries)
}

/// A value of a shape. One in four says nothing, and so does each that is this many levels deep.
#[cycle(random)]
fn random_value(alloc: Global, dice: &mut Dice, shape: &Shape, levels: usize) -> Result<Val, Fail> {
    if levels == 0 || dice.below(4) == 0 {
        return Ok(bottom_of(alloc, shape)?);
    }
    match shape {
        Shape::Taint => Ok(Val::Taint(dice.flips())),
        Shape::Scalar(kind) => Ok(Val::Scalar(Some(random_scalar(alloc, dice, kind)?))),
        Shape::Greatest(kind) => Ok(Val::Greatest(Some(random_scalar(alloc, dice, kind)?))),
        Shape::Set(kind) => Ok(Val::Set(random_set(alloc, dice, kind)?)),
        Shape::Counter => Ok(Val::Counter(random_counts(alloc, dice)?)),
        Shape::Map(kind, inner) => {
            let first = random_entry(alloc, dice, kind, inner, levels - 1)?;
            let second = random_entry(alloc, dice, kind, inner, levels - 1)?;
            Ok(Val::Map(map_of(alloc, first, second)?))
        }
        Shape::Bag(fields) => random_bag(alloc, dice, fields, levels - 1),
    }
}

/// A key of a kind, with a value of a shape.
#[cycle(random)]
fn random_entry(
    alloc: Global,
    dice: &mut Dice,
    kind: &ScalarKind,
    shape: &Shape,
    levels: usize,
) -> Result<Entry, Fail> {
    let key = random_scalar(alloc, dice, kind)?;
    let value = random_value(alloc, dice, shape, levels)?;
    Ok(Entry { key, value })
}

/// A value for each field of a bag.
#[cycle(random)]
pub fn random_bag(
    alloc: Global,
    dice: &mut Dice,
    fields: &Slots,
    levels: usize,
) -> Result<Val, Fail> {
    let mut values = Vals::new(alloc);
    for at in 0..fields.len() {
        if let Some(field) = fields.get(at) {
            values.push(random_value(alloc, dice, &field.shape, levels)?)?;
        }
    }
    Ok(Val::Bag(values))
}

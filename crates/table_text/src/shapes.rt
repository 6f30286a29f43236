//! Shapes, from the words that say them.

ghost use Rattle.std.specs.Prelude.{◌≡◌, ◌≢◌, ◌++◌, ◌∷◌, [], ℕ, List, IfOk, IfSome, MatchOption};
ghost use Rattle.std.specs.Option.{option_map};
ghost use Rattle.bag_model.specs.Scalars as model;
ghost use Rattle.bag_model.specs.Words.{word_named};
ghost use Rattle.field_table.specs.Plain.{shape_of, IsIndexedShape};
ghost use Rattle.scalar_types.specs.KindViews.{kind_of};
ghost use Rattle.table_text.specs.Words.{AreScalarWords, IsKindText, IsShapeText};
ghost use Rattle.table_text.specs.Shapes.{IsBareText, IsMapBehind};
ghost use Rattle.text_lines.specs.Answers.{IsSomeOf};

use crate::words::is;
use field_table::{Shape, Slots};
use outside::Memory;
use scalar_types::{KindList, ScalarKind, ScalarWord};
use std::alloc::Global;
use text_lines::cut_word;

/// The scalar words that a text says, with commas between them.
fn read_words(alloc: Global, text: &[u8]) -> Result<Option<KindList>, Memory>
    ensures { IfOk result (λ read. IsSomeOf (AreScalarWords text.now) read) }
{
    let mut words = KindList::new(alloc);
    for piece in text.split(|byte| *byte == b',') {
        let Some(word) = ScalarWord::of_bytes(piece) else {
            return Ok(None);
        };
        words.push(word)?;
    }
    Ok(Some(words))
}

/// What is between parentheses, which are the first byte and the last.
fn in_parentheses(text: &[u8]) -> Option<&[u8]>
    ensures { MatchOption result ((inner : List ℕ) → text.now ≢ 40 ∷ (inner ++ 41 ∷ []))
        (λ inner. text.now ≡ 40 ∷ (inner.now ++ 41 ∷ [])) }
{
    match text {
        [b'(', inner @ .., b')'] => Some(inner),
        _ => None,
    }
}

/// The kind of a scalar word.
fn bare_kind(text: &[u8]) -> Option<ScalarKind>
    ensures { option_map kind_of result ≡ option_map model.ScalarKind.One (word_named text.now) }
{
    match ScalarWord::of_bytes(text) {
        Some(word) => Some(ScalarKind::One(word)),
        None => None,
    }
}

/// The kind that a text says: a scalar word, or those of a struct between parentheses.
fn read_kind(alloc: Global, text: &[u8]) -> Result<Option<ScalarKind>, Memory>
    ensures { IfOk result (λ read. IsSomeOf (IsKindText text.now) (option_map kind_of read)) }
{
    let Some(inside) = in_parentheses(text) else {
        return Ok(bare_kind(text));
    };
    match read_words(alloc, inside)? {
        Some(words) => Ok(Some(ScalarKind::Packed(words))),
        None => Ok(None),
    }
}

/// The shape that one word says.
fn read_bare(alloc: Global, text: &[u8]) -> Option<Shape>
    ensures shape { IsSomeOf (IsBareText text.now) (option_map shape_of result) }
    ensures indexed { IfSome result IsIndexedShape }
{
    if is(text, "taint") {
        Some(Shape::Taint)
    } else if is(text, "counter") {
        Some(Shape::Counter)
    } else if is(text, "bag") {
        Some(Shape::Bag(Slots::new(alloc)))
    } else {
        None
    }
}

/// The shape that a text says, with at most `maps` maps in one another. A bag is without its
/// fields.
#[cycle(shape)]
pub(crate) fn read_shape(alloc: Global, text: &[u8], maps: usize) -> Result<Option<Shape>, Memory>
    ensures shape { IfOk result (λ read.
        IsSomeOf (IsShapeText maps text.now) (option_map shape_of read)) }
    ensures indexed { IfOk result (λ read. IfSome read IsIndexedShape) }
{
    let Some((word, rest)) = cut_word(text) else {
        return Ok(read_bare(alloc, text));
    };
    if is(word, "map") {
        return read_map(alloc, rest, maps);
    }
    let Some(kind) = read_kind(alloc, rest)? else {
        return Ok(None);
    };
    if is(word, "scalar") {
        Ok(Some(Shape::Scalar(kind)))
    } else if is(word, "greatest") {
        Ok(Some(Shape::Greatest(kind)))
    } else if is(word, "set") {
        Ok(Some(Shape::Set(kind)))
    } else {
        Ok(None)
    }
}

/// The map that its key's word and its value's words say, with at most `maps` maps in one another.
#[cycle(shape)]
fn read_map(alloc: Global, text: &[u8], maps: usize) -> Result<Option<Shape>, Memory>
    ensures shape { IfOk result (λ read.
        IsSomeOf (IsMapBehind maps text.now) (option_map shape_of read)) }
    ensures indexed { IfOk result (λ read. IfSome read IsIndexedShape) }
{
    if maps == 0 {
        return Ok(None);
    }
    let Some((word, rest)) = cut_word(text) else {
        return Ok(None);
    };
    let Some(key) = ScalarWord::of_bytes(word) else {
        return Ok(None);
    };
    match read_shape(alloc, rest, maps - 1)? {
        Some(value) => Ok(Some(Shape::Map(ScalarKind::One(key), Box::new(alloc, value)?))),
        None => Ok(None),
    }
}

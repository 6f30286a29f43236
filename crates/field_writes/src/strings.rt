//! Strings between quotation marks.

ghost use Rattle.std.specs.Prelude.{◌≡◌, ℕ, ◌++◌, ◌∷◌, List, codes, IfOk, IsUtf8};
ghost use Rattle.std.specs.Option.{option_map};
ghost use Rattle.bag_model.specs.Scalars as scalars;
ghost use Rattle.text_lines.specs.Answers.{IsSomeOf};
ghost use Rattle.text_model.specs.ScalarTexts.{is_marked};
ghost use Rattle.field_writes.specs.Literals.{AreDigitsOf, IsPlainText, SaysByte, SpellsBytes, SaysEscaped};
ghost use Rattle.field_writes.specs.Ends.{BeginsWithOne, TakesFront};

use crate::ends::{behind, is_end};
use outside::{Memory, Text};
use std::alloc::Global;

/// Whether the byte after a backslash means itself.
fn is_marked(byte: u8) -> bool
    ensures { result ≡ is_marked byte }
{
    matches!(byte, b'"' | b'\\')
}

/// The byte below 128 that two digits say.
fn byte_of(high: u8, low: u8) -> Option<u8>
    ensures { IsSomeOf (λ byte. AreDigitsOf byte high low) result }
{
    let high = char::from(high).to_digit(8)?;
    let low = char::from(low).to_digit(16)?;
    Some((16 * high + low) as u8)
}

/// The byte that two digits say, and the rest.
fn take_digits(text: &[u8]) -> Option<(u8, &[u8])>
    ensures { TakesFront
        (λ byte rest. (high low : ℕ) × AreDigitsOf byte high low × (text.now ≡ high ∷ low ∷ rest))
        (option_map (λ taken. (taken.0, taken.1.now)) result) }
{
    match text {
        [high, low, rest @ ..] => Some((byte_of(*high, *low)?, rest)),
        _ => None,
    }
}

/// The byte that is written after a backslash, and the rest.
fn take_escaped(text: &[u8]) -> Option<(u8, &[u8])>
    ensures { TakesFront
        (λ byte rest. (escaped : List ℕ) × SaysEscaped byte escaped × (text.now ≡ escaped ++ rest))
        (option_map (λ taken. (taken.0, taken.1.now)) result) }
{
    let (first, rest) = text.split_first()?;
    if is_marked(*first) {
        return Some((*first, rest));
    }
    if *first == b'x' {
        take_digits(rest)
    } else {
        None
    }
}

/// The first byte of what is inside a string, and the rest.
fn take_byte(text: &[u8]) -> Option<(u8, &[u8])>
    ensures { TakesFront
        (λ byte rest. (first : List ℕ) × SaysByte byte first × (text.now ≡ first ++ rest))
        (option_map (λ taken. (taken.0, taken.1.now)) result) }
{
    let (first, rest) = text.split_first()?;
    if *first == b'\\' {
        return take_escaped(rest);
    }
    if *first < 0x20 {
        return None;
    }
    if is_marked(*first) {
        None
    } else {
        Some((*first, rest))
    }
}

/// The bytes of what is inside a string, and what follows the quotation mark after it.
fn take_bytes(alloc: Global, text: &[u8]) -> Result<Option<(Vec<u8>, &[u8])>, Memory>
    ensures { IfOk result (λ taken.
        TakesFront (λ bytes rest. (inside : List ℕ) × SpellsBytes bytes inside
        × (text.now ≡ inside ++ codes "\"" ++ rest))
        (option_map (λ taken. (taken.0.items, taken.1.now)) taken)) }
{
    let mut bytes = Vec::new(alloc);
    let mut rest = text;
    'bytes: while let Some((byte, more)) = take_byte(rest) {
        bytes.push(byte)?;
        rest = more;
    }
    match behind(b'"', rest) {
        Some(end) => Ok(Some((bytes, end))),
        None => Ok(None),
    }
}

/// The string that the text begins with, and the rest.
pub(crate) fn take_string(alloc: Global, text: &[u8]) -> Result<Option<(Text, &[u8])>, Memory>
    ensures { IfOk result (λ taken.
        TakesFront (λ bytes rest.
        BeginsWithOne (λ front. IsUtf8 bytes
        × IsPlainText (scalars.Plain.Text bytes) front) text.now rest)
        (option_map (λ taken. (taken.0, taken.1.now)) taken)) }
{
    let Some(inside) = behind(b'"', text) else {
        return Ok(None);
    };
    let Some((bytes, rest)) = take_bytes(alloc, inside)? else {
        return Ok(None);
    };
    if !is_end(rest) {
        return Ok(None);
    }
    match String::from_utf8(bytes) {
        Ok(string) => Ok(Some((Text::from_string(string)?, rest))),
        Err(_) => Ok(None),
    }
}

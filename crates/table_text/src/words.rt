//! The words of a line: names and numbers.

ghost use Rattle.std.specs.Prelude.{◌≡◌, ◌↔◌, ◌<◌, length, map, slice_index, IsTrue, IfSome, IfOk, IfErr, MatchOption, true, false};
ghost use Rattle.std.specs.Char.{is_ascii_digit};
ghost use Rattle.std.specs.List.{list_all, list_any};
ghost use Rattle.std.specs.Str.{bytes_eq};
ghost use Rattle.bag_model.specs.Words.{is_name, reserved_words, scalar_words, word_text};
ghost use Rattle.table_text.specs.Rows.{IsDepth};
ghost use Rattle.table_text.specs.Words.{IsFieldNumberText, IsNoDepth, keywords};
ghost use Rattle.text_lines.specs.Answers.{IsSomeOf};
ghost use Rattle.text_lines.specs.Words.{IsNumberBelow};

use crate::faults::TableCode;
use bag_model::ScalarWord;
use std::str;
use text_lines::{is_word, read_decimal};

/// One more than the greatest number of a field.
const NUMBER_END: u64 = 65_536;

/// Whether the bytes are this word.
pub(crate) fn is(text: &[u8], word: &str) -> bool
    ensures { result ≡ bytes_eq text.now word.now }
{
    text == word.as_bytes()
}

/// Whether the word is one of the definition language's own that is no scalar word.
fn is_keyword(text: &[u8]) -> bool
    ensures { result ≡ list_any (bytes_eq text.now) keywords }
{
    is(text, "import")
        || is(text, "bag")
        || is(text, "struct")
        || is(text, "set")
        || is(text, "greatest")
        || is(text, "map")
        || is(text, "counter")
        || is(text, "taint")
        || is(text, "float")
        || is(text, "double")
}

/// Whether the word is a scalar word. It is asked of each name, and a name is none.
#[tactic(auto, using(bag_model::proofs::WordTexts::scalar_found))]
fn is_scalar_word(text: &[u8]) -> bool
    ensures { result ≡ list_any (bytes_eq text.now) (map word_text scalar_words) }
{
    ScalarWord::of_bytes(text).is_some()
}

/// Whether the word is one of the definition language's own.
fn is_reserved(text: &[u8]) -> bool
    ensures { result ≡ list_any (bytes_eq text.now) reserved_words }
{
    is_keyword(text) || is_scalar_word(text)
}

/// Whether the text is a name: a word that isn't reserved.
fn is_name(text: &[u8]) -> bool
    ensures { result ≡ is_name text.now }
{
    is_word(text) && !is_reserved(text)
}

/// The name that a text is.
#[tactic(auto, using(crate::proofs::NameBytes::name_utf8))]
pub(crate) fn read_name(text: &[u8]) -> Option<&str>
    ensures { MatchOption result (is_name text.now ≡ false)
        (λ name. (is_name text.now ≡ true) × (name.now ≡ text.now)) }
{
    if !is_name(text) {
        return None;
    }
    match str::from_utf8(text) {
        Ok(name) => Some(name),
        Err(_) => None,
    }
}

/// The digit that is all of a text.
#[tactic(auto, using(crate::proofs::Depths::one_digit))]
fn one_digit(text: &[u8]) -> Option<u8>
    ensures { IfSome result (IsNumberBelow 10 text.now) }
{
    match text {
        [digit @ b'0'..=b'9'] => Some(*digit - b'0'),
        _ => None,
    }
}

/// The number of 16 bits that a text is. Most are single digits, for which nothing else is done.
pub(crate) fn read_number(text: &[u8]) -> Option<u16>
    ensures { IsSomeOf (IsFieldNumberText text.now) result }
{
    if let Some(digit) = one_digit(text) {
        return Some(u16::from(digit));
    }
    let number = text_lines::read_number(text, NUMBER_END)?;
    Some(number as u16)
}

/// Whether all bytes are digits.
fn are_digits(bytes: &[u8]) -> bool
    ensures { result ≡ list_all is_ascii_digit bytes.now }
{
    bytes.iter().all(|byte| byte.is_ascii_digit())
}

/// Whether there is a byte, and no zero before others.
fn has_no_leading_zero(text: &[u8]) -> bool
    ensures { IsTrue result
        ↔ ((0 < length text.now) × (slice_index text.now 0 ≡ 48 → length text.now ≡ 1)) }
{
    !matches!(text, [] | [b'0', _, ..])
}

/// The depth that a text is. One of more than 64 bits is that of no bag.
pub(crate) fn read_depth(text: &[u8]) -> Result<u64, TableCode>
    ensures ok { IfOk result (IsDepth text.now) }
    ensures err { IfErr result (IsNoDepth text.now) }
{
    if let Some(digit) = one_digit(text) {
        return Ok(u64::from(digit));
    }
    if !has_no_leading_zero(text) {
        return Err(TableCode::Form);
    }
    if !are_digits(text) {
        return Err(TableCode::Form);
    }
    match read_decimal(text) {
        Some(depth) => Ok(depth),
        None => Err(TableCode::Depth),
    }
}

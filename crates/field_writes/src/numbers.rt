//! Truth values, numbers and byte strings, each the whole of a text.

ghost use Rattle.std.specs.Prelude.{◌≡◌, ℕ, ◌^◌, ◌<◌, ◌++◌, suc, pos, negsuc, List, codes, IfOk, Ok, FitsSigned};
ghost use Rattle.std.specs.Fmt.{signed_decimal};
ghost use Rattle.std.specs.Int.{w64};
ghost use Rattle.hex.specs.Hex.{decode_of};
ghost use Rattle.text_lines.specs.Answers.{IsSomeOf};
ghost use Rattle.text_model.specs.ScalarTexts.{truth_text};

use crate::ends::behind;
use hex::FromHexError;
use outside::{Memory, Octets};
use std::alloc::Global;
use text_lines::read_decimal;

/// The truth value of a word.
pub(crate) fn read_truth(text: &[u8]) -> Option<bool>
    ensures { IsSomeOf (λ truth. text.now ≡ truth_text truth) result }
{
    match text {
        b"true" => Some(true),
        b"false" => Some(false),
        _ => None,
    }
}

/// The number below zero of this size; none for 0, and where it has more than 64 bits with its
/// sign.
fn negated(size: u64) -> Option<i64>
    ensures { IsSomeOf (λ number. (below : ℕ) × (size ≡ suc below) × (number ≡ negsuc below)
        × (below < 2 ^ 63)) result }
{
    let below = size.checked_sub(1)?;
    match i64::try_from(below) {
        Ok(below) => Some(-1 - below),
        Err(_) => None,
    }
}

/// The number itself; none where it has more than 64 bits with a sign.
fn not_negated(size: u64) -> Option<i64>
    ensures { IsSomeOf (λ number. (number ≡ pos size) × (size < 2 ^ 63)) result }
{
    match i64::try_from(size) {
        Ok(number) => Some(number),
        Err(_) => None,
    }
}

/// A number with a minus before it where it is below zero.
pub(crate) fn read_signed(text: &[u8]) -> Option<i64>
    ensures { IsSomeOf (λ number. (text.now ≡ signed_decimal number)
        × FitsSigned w64 number) result }
{
    match behind(b'-', text) {
        Some(digits) => {
            let Some(size) = read_decimal(digits) else {
                return None;
            };
            negated(size)
        }
        None => {
            let Some(size) = read_decimal(text) else {
                return None;
            };
            not_negated(size)
        }
    }
}

/// A byte string as digits.
pub(crate) fn read_octets(alloc: Global, text: &[u8]) -> Result<Option<Octets>, Memory>
    ensures { IfOk result
        (IsSomeOf (λ bytes. (digits : List ℕ) × (text.now ≡ codes "0x" ++ digits)
        × (decode_of digits ≡ Ok bytes))) }
{
    let [b'0', b'x', digits @ ..] = text else {
        return Ok(None);
    };
    match hex::decode(alloc, digits) {
        Ok(bytes) => Ok(Some(Octets::from_vec(bytes))),
        Err(FromHexError::OutOfMemory) => Err(Memory),
        Err(_) => Ok(None),
    }
}

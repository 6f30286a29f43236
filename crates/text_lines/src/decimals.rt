//! Decimal numbers, each the whole of a text or its first word.

ghost use Rattle.std.specs.Prelude.{◌≡◌, ◌⊎◌, ◌↔◌, ◌^◌, ◌<◌, IsTrue, length, slice_index};
ghost use Rattle.std.specs.Fmt.{decimal};
ghost use Rattle.std.specs.Option.{option_map};
ghost use Rattle.text_lines.specs.Answers.{IsSomeOf};
ghost use Rattle.text_lines.specs.Words.{TakesOnly, IsNumberBelow, NumberBelowThen};

use crate::words::cut_word;

/// Whether the text begins with a plus, or with a zero that isn't all of it.
fn has_plus_or_leading_zero(text: &[u8]) -> bool
    ensures { IsTrue result
        ↔ ((slice_index text.now 0 ≡ 43)
        ⊎ ((slice_index text.now 0 ≡ 48) × (1 < length text.now))) }
{
    matches!(text, [b'+', ..] | [b'0', _, ..])
}

/// The number of 64 bits that decimal digits say, without a sign and without a leading zero unless
/// the number is 0.
pub fn read_decimal(text: &[u8]) -> Option<u64>
    ensures { IsSomeOf (λ number. (text.now ≡ decimal number) × (number < 2 ^ 64)) result }
{
    if has_plus_or_leading_zero(text) {
        return None;
    }
    str::from_utf8(text).ok()?.parse().ok()
}

/// The number below this one that decimal digits say, as [`read_decimal`] reads them.
pub fn read_number(text: &[u8], below: u64) -> Option<u64>
    ensures { IsSomeOf (IsNumberBelow below text.now) result }
{
    let number = read_decimal(text)?;
    if below <= number {
        return None;
    }
    Some(number)
}

/// A number below this one at the start of a text, and the rest after the space.
pub fn take_number(text: &[u8], below: u64) -> Option<(u64, &[u8])>
    ensures { TakesOnly (NumberBelowThen below text.now)
        (option_map (λ cut. (cut.0, cut.1.now)) result) }
{
    let (digits, rest) = cut_word(text)?;
    let number = read_number(digits, below)?;
    Some((number, rest))
}

//! Numbers of at most ten digits, without leading zeros.

ghost use Rattle.std.specs.Prelude.{IfOk};
ghost use Rattle.std.specs.Option.{option_map};
ghost use Rattle.graph_lines.specs.Reading.{IsNumberText, NumberThen, AreNumbers};
ghost use Rattle.text_lines.specs.Answers.{IsSomeOf};
ghost use Rattle.text_lines.specs.Words.{TakesOnly};

use outside::Memory;
use std::alloc::Global;
use text_lines::cut_str;

/// One more than the greatest number of ten digits.
const NUMBER_END: u64 = 10_000_000_000;

/// The number that is a text: 1 to 10 decimal digits, without a leading zero unless it is `0`.
pub fn read_number(text: &str) -> Option<u64>
    ensures { IsSomeOf (IsNumberText text.now) result }
{
    text_lines::read_number(text.as_bytes(), NUMBER_END)
}

/// A number that a text begins with, and what follows the space after it.
pub fn take_number(text: &str) -> Option<(u64, &str)>
    ensures { TakesOnly (NumberThen text.now) (option_map (λ cut. (cut.0, cut.1.now)) result) }
{
    let (digits, rest) = cut_str(text)?;
    let number = read_number(digits)?;
    Some((number, rest))
}

/// The numbers that are a text, with one space between two of them.
pub fn read_numbers(alloc: Global, text: &str) -> Result<Option<Vec<u64>>, Memory>
    ensures { IfOk result
        (λ read. IsSomeOf (AreNumbers text.now) (option_map (λ numbers. numbers.items) read)) }
{
    let mut numbers = Vec::new(alloc);
    for word in text.split(' ') {
        let Some(number) = read_number(word) else {
            return Ok(None);
        };
        numbers.push(number)?;
    }
    Ok(Some(numbers))
}

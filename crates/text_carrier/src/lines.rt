//! What a line says, before the rules are asked.

ghost use Rattle.std.specs.Prelude.{MatchOption};
ghost use Rattle.text_carrier.specs.Rules.{HasPieceForm, HasNoForm};

use text_lines::{is_one_word, take_number};

/// One more than the greatest number of seven digits.
const NUMBER_END: u64 = 10_000_000;

/// What a line says that has the form.
#[derive(Clone, Copy)]
pub(crate) struct PieceLine<'a> {
    /// The number of the piece, from 0 on.
    pub place: u64,
    /// How many pieces there are.
    pub count: u64,
    /// The text of the piece's bytes, whether or not it is one.
    pub word: &'a [u8],
}

/// What a line says that has the form; none where it hasn't.
pub(crate) fn read_line(text: &[u8]) -> Option<PieceLine<'_>>
    ensures { MatchOption result (HasNoForm text.now)
        (λ line. HasPieceForm text.now line.place line.count line.word.now) }
{
    let rest = text.strip_prefix(b"p ")?;
    let (place, rest) = take_number(rest, NUMBER_END)?;
    let (count, word) = take_number(rest, NUMBER_END)?;
    if !is_one_word(word) {
        return None;
    }
    Some(PieceLine { place, count, word })
}

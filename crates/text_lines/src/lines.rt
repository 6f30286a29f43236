//! The lines of an input, with their numbers.

ghost use Rattle.std.specs.Prelude.{◌≡◌, ◌<◌, [], ◌∷◌, length, IfSome, MatchOption};
ghost use Rattle.std.specs.Str.Lines.{lines, strip_carriage_return};
ghost use Rattle.std.specs.Iterator.{YieldsFirstBy, item_count};
ghost use Rattle.text_lines.specs.Lines as spec;

use crate::words::place_of;
use std::marker::Model;

/// A line of an input, without what ends it.
#[derive(Clone, Copy, Debug)]
pub struct Line<'a> {
    /// The number of the line among all lines of the input, from 1.
    pub number: u64,
    pub text: &'a [u8],
}

/// The lines of an input that are left to read. Contracts see them as their list.
#[derive(Debug, Drop)]
pub struct Lines<'a> {
    rest: &'a [u8],
    /// The number of the first line of the rest.
    number: u64,
}

impl<'a> Model for Lines<'a> {
    ghost use Rattle.std.specs.Prelude.{◌+◌, ◌<◌, ◌^◌, List, length};
    ghost use Rattle.std.specs.Str.Lines.{lines};
    ghost use Rattle.text_lines.specs.Lines.{Line, numbered, kept};

    ghost Value = { List Line };

    ghost view = { λ left. kept (numbered left.number (lines left.rest.now)) };

    ghost invariant = { λ left. left.number + length left.rest.now < 2 ^ 64 };
}

/// The lines that a reader of the input sees: empty ones and those that begin with `#` are skipped,
/// but counted.
#[tactic(auto, unfolding(crate::specs::Lines::lines_of))]
pub fn lines_of(input: &[u8]) -> Lines<'_>
    ensures { result ≡ spec.lines_of input.now }
{
    Lines {
        rest: input,
        number: 1,
    }
}

/// A line without the carriage return at its end, where there is one.
fn without_return(text: &[u8]) -> &[u8]
    ensures { result.now ≡ strip_carriage_return text.now }
{
    match text {
        [front @ .., b'\r'] => front,
        _ => text,
    }
}

/// The first line of some bytes and the bytes after it; `None` where there is none.
fn cut_line(bytes: &[u8]) -> Option<(&[u8], &[u8])>
    ensures lines { MatchOption result (lines bytes.now ≡ [])
        (λ cut. lines bytes.now ≡ cut.0.now ∷ lines cut.1.now) }
    ensures shorter { IfSome result (λ cut. length cut.1.now < length bytes.now) }
{
    match place_of(b'\n', bytes) {
        Some(at) => Some((without_return(&bytes[..at]), &bytes[at + 1..])),
        None if bytes.is_empty() => None,
        None => Some((bytes, &[])),
    }
}

/// The line is empty, or begins with `#`.
fn is_skipped(text: &[u8]) -> bool
    ensures { result ≡ spec.is_skipped text.now }
{
    matches!(text, [] | [b'#', ..])
}

impl<'a> Iterator for Lines<'a> {
    ghost use Rattle.text_lines.specs.Lines.{line_value};

    type Item = Line<'a>;

    ghost next_gives = { YieldsFirstBy line_value (λ left. left) };

    ghost remaining = { item_count (λ left. left) };

    fn next(&mut self) -> Option<Line<'a>> {
        while let Some((text, rest)) = cut_line(self.rest) {
            let number = self.number;
            self.rest = rest;
            self.number += 1;
            if !is_skipped(text) {
                return Some(Line { number, text });
            }
        }
        None
    }
}

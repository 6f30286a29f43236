//! The lines of some bytes with their line feeds, of which none is skipped.

ghost use Rattle.std.specs.Prelude.{◌≡◌, ◌≢◌, ◌<◌, List, ℕ, [], ◌∷◌, ◌++◌, length, IfSome, MatchOption};
ghost use Rattle.text_lines.specs.FedLines.{fed_lines};

use crate::words::place_of;

/// The first line of some bytes with its line feed, and the bytes after it; none where there are no
/// bytes. The last line may be without a line feed.
pub fn cut_fed_line(bytes: &[u8]) -> Option<(&[u8], &[u8])>
    ensures lines { MatchOption result (bytes.now ≡ [])
        (λ cut. fed_lines bytes.now ≡ cut.0.now ∷ fed_lines cut.1.now) }
    ensures shorter { IfSome result (λ cut. length cut.1.now < length bytes.now) }
{
    match place_of(b'\n', bytes) {
        Some(at) => Some(bytes.split_at(at + 1)),
        None if bytes.is_empty() => None,
        None => Some((bytes, &[])),
    }
}

/// A line without the line feed at its end; none where it has none.
pub fn without_feed(line: &[u8]) -> Option<&[u8]>
    ensures { MatchOption result ((text : List ℕ) → line.now ≢ text ++ 10 ∷ [])
        (λ text. line.now ≡ text.now ++ 10 ∷ []) }
{
    match line {
        [text @ .., b'\n'] => Some(text),
        _ => None,
    }
}

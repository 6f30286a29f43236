//! The words of a line: what is before a space, and the form of a name.

ghost use Rattle.std.specs.Prelude.{◌≡◌, ◌≢◌, ◌↔◌, ◌<◌, ◌||◌, ℕ, None, length, take, slice_index, IsTrue, IfSome, MatchOption};
ghost use Rattle.std.specs.Char.{is_ascii_digit};
ghost use Rattle.std.specs.List.{list_all};
ghost use Rattle.bag_model.specs.Words.{is_letter, is_word};
ghost use Rattle.text_lines.specs.Words.{HasNoSpace, IsOneWord, IsCut};

use memchr::memchr;

/// The first place of a byte.
pub(crate) fn place_of(byte: u8, bytes: &[u8]) -> Option<usize>
    ensures none { result ≡ None → (k : ℕ) → k < length bytes.now → slice_index bytes.now k ≢ byte }
    ensures within { IfSome result (λ at. at < length bytes.now) }
    ensures first { IfSome result (λ at. (k : ℕ) → k < at → slice_index bytes.now k ≢ byte) }
    ensures there { IfSome result (λ at. slice_index bytes.now at ≡ byte) }
{
    memchr(byte, bytes)
}

/// The place of the first space.
fn space_at(text: &[u8]) -> Option<usize>
    ensures { MatchOption result (HasNoSpace text.now) (λ at. (at < length text.now)
        × (slice_index text.now at ≡ 32) × HasNoSpace (take at text.now)) }
{
    place_of(b' ', text)
}

/// The first word of a text, and the rest after the space; none where there is no space.
pub fn cut_word(text: &[u8]) -> Option<(&[u8], &[u8])>
    ensures { MatchOption result (HasNoSpace text.now)
        (λ cut. HasNoSpace cut.0.now × IsCut text.now cut.0.now cut.1.now) }
{
    let at = space_at(text)?;
    Some((&text[..at], &text[at + 1..]))
}

/// [`cut_word`] of a text of characters.
pub fn cut_str(text: &str) -> Option<(&str, &str)>
    ensures { MatchOption result (HasNoSpace text.now)
        (λ cut. HasNoSpace cut.0.now × IsCut text.now cut.0.now cut.1.now) }
{
    let at = space_at(text.as_bytes())?;
    Some((&text[..at], &text[at + 1..]))
}

/// Whether the text is one word of any bytes but spaces.
pub fn is_one_word(text: &[u8]) -> bool
    ensures { IsTrue result ↔ IsOneWord text.now }
{
    !text.is_empty() && space_at(text).is_none()
}

/// Whether the byte is a letter or `_`.
fn is_letter(byte: u8) -> bool
    ensures { result ≡ is_letter byte }
{
    byte.is_ascii_alphabetic() || byte == b'_'
}

/// Whether all bytes are letters, `_` or digits.
fn are_of_words(bytes: &[u8]) -> bool
    ensures { result ≡ list_all (λ other. is_letter other || is_ascii_digit other) bytes.now }
{
    bytes
        .iter()
        .all(|byte| is_letter(*byte) || byte.is_ascii_digit())
}

/// Whether the text is a word of letters, `_` and digits that doesn't begin with a digit. It may be
/// a reserved one.
pub fn is_word(text: &[u8]) -> bool
    ensures { result ≡ is_word text.now }
{
    match text {
        [first, more @ ..] => is_letter(*first) && are_of_words(more),
        [] => false,
    }
}

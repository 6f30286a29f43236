//! Prefixes of texts, and where a literal ends.

ghost use Rattle.std.specs.Prelude.{◌≡◌, ◌∷◌, ◌++◌, ◌↔◌, All, IsTrue};
ghost use Rattle.std.specs.Option.{option_map};
ghost use Rattle.text_lines.specs.Answers.{IsSomeOf};
ghost use Rattle.field_writes.specs.Ends.{is_stop, IsEnd, IsNoStop};

/// The text after this byte; none where the text doesn't begin with it.
pub(crate) fn behind(byte: u8, text: &[u8]) -> Option<&[u8]>
    ensures { IsSomeOf (λ rest. text.now ≡ byte ∷ rest) (option_map (λ rest. rest.now) result) }
{
    match text {
        [first, rest @ ..] if *first == byte => Some(rest),
        _ => None,
    }
}

/// Whether a literal ends before this byte, where it is no string.
fn is_stop(byte: u8) -> bool
    ensures { result ≡ is_stop byte }
{
    matches!(byte, b',' | b':' | b')')
}

/// Whether a literal may end before this rest of a text.
pub(crate) fn is_end(rest: &[u8]) -> bool
    ensures { IsTrue result ↔ IsEnd rest.now }
{
    match rest {
        [] => true,
        [byte, ..] => is_stop(*byte),
    }
}

/// The bytes before the first one at which a literal ends, and the rest.
pub(crate) fn split_at_stop(text: &[u8]) -> (&[u8], &[u8])
    ensures same { text.now ≡ result.0.now ++ result.1.now }
    ensures front { All IsNoStop result.0.now }
    ensures end { IsEnd result.1.now }
{
    match text.iter().position(|byte| is_stop(*byte)) {
        Some(at) => text.split_at(at),
        None => (text, &[]),
    }
}

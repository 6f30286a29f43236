//! The parts of a header's value.

ghost use Rattle.std.specs.Prelude.{◌≡◌, ◌≢◌, ◌<◌, ℕ, ◌∷◌, [], None, length, reverse, slice_index, IfSome};
ghost use Rattle.std.specs.Option.{option_map_or};
ghost use Rattle.header_text.specs.Parts as spec;

use memchr::memchr;

/// Whether a byte is a space or a tabulator.
fn is_space(byte: u8) -> bool
    ensures { result ≡ spec.is_space byte }
{
    byte == b' ' || byte == b'\t'
}

/// How many blanks bytes begin with.
fn blanks_before(bytes: &[u8]) -> usize
    ensures { result ≡ spec.blanks_before bytes.now }
{
    bytes.iter().take_while(|byte| is_space(**byte)).count()
}

/// How many blanks bytes end with.
fn blanks_behind(bytes: &[u8]) -> usize
    ensures { result ≡ spec.blanks_before (reverse bytes.now) }
{
    bytes
        .iter()
        .rev()
        .take_while(|byte| is_space(**byte))
        .count()
}

/// Bytes without the blanks that they begin with.
fn without_leading(bytes: &[u8]) -> &[u8]
    ensures { result.now ≡ spec.without_leading bytes.now }
{
    &bytes[blanks_before(bytes)..]
}

/// Bytes without the blanks that they end with.
fn without_trailing(bytes: &[u8]) -> &[u8]
    ensures { result.now ≡ spec.without_trailing bytes.now }
{
    &bytes[..bytes.len() - blanks_behind(bytes)]
}

/// The first place of a comma.
fn comma_at(value: &[u8]) -> Option<usize>
    ensures none { result ≡ None → (k : ℕ) → k < length value.now → slice_index value.now k ≢ 44 }
    ensures within { IfSome result (λ at. at < length value.now) }
    ensures first { IfSome result (λ at. (k : ℕ) → k < at → slice_index value.now k ≢ 44) }
    ensures there { IfSome result (λ at. slice_index value.now at ≡ 44) }
{
    memchr(b',', value)
}

/// The first part of a header's value, and what follows its comma; none where no comma follows. A
/// part ends at a comma or with the value, and has no space or tabulator at an end.
pub fn cut_part(value: &[u8]) -> (&[u8], Option<&[u8]>)
    ensures parts { spec.parts_of value.now
        ≡ result.0.now ∷ option_map_or (λ rest. spec.parts_of rest.now) result.1 [] }
    ensures shorter { IfSome result.1 (λ rest. length rest.now < length value.now) }
{
    match comma_at(value) {
        Some(at) => (
            without_trailing(without_leading(&value[..at])),
            Some(&value[at + 1..]),
        ),
        None => (without_trailing(without_leading(value)), None),
    }
}

//! What the lines of a certificate say.

ghost use Rattle.std.specs.Prelude.{◌≡◌, ◌≢◌, ◌++◌, ℕ, List, codes, MatchOption};
ghost use Rattle.graph_lines.specs.Reading.{IsNumberText};
ghost use Rattle.text_lines.specs.Answers.{IsSomeOf};
ghost use Rattle.write_proof.specs.Entries as plain;
ghost use Rattle.write_proof.specs.Entries.{HasEntryForm};
ghost use Rattle.write_proof.specs.Views.{IsWhyText, IsReachText, IsInWords, entry_of};

use graph_lines::{is_path, read_number, take_number};
use std::str;
use text_lines::{cut_str, without_feed};

/// What a line of a certificate says.
#[derive(Clone, Copy, Debug)]
pub(crate) enum Entry<'a> {
    /// `why STEP PATH`: which value the certificate is for.
    Why { step: u64, path: &'a str },
    /// `value TEXT`: the text of that value.
    Value { text: &'a [u8] },
    /// `reach STEP CHILD`: the step reaches that of the certificate, and is a parent of the child,
    /// which reaches it too.
    Reach { step: u64, child: u64 },
    /// `uses STEP`: the value is joined from what these steps contribute.
    Uses { step: u64 },
}

/// What follows `value ` at the beginning of a text.
fn behind_value(text: &[u8]) -> Option<&[u8]>
    ensures { MatchOption result ((rest : List ℕ) → text.now ≢ codes "value " ++ rest)
        (λ rest. text.now ≡ codes "value " ++ rest.now) }
{
    text.strip_prefix(b"value ")
}

/// `STEP PATH`
fn read_why(text: &str) -> Option<(u64, &str)>
    ensures { MatchOption result ((n : ℕ) (path : List ℕ) → IsWhyText text.now n path → ⊥)
        (λ read. IsWhyText text.now read.0 read.1.now) }
{
    let (step, path) = take_number(text)?;
    if is_path(path.as_bytes()) {
        Some((step, path))
    } else {
        None
    }
}

/// `STEP CHILD`
fn read_reach(text: &str) -> Option<(u64, u64)>
    ensures { MatchOption result ((w child : ℕ) → IsReachText text.now w child → ⊥)
        (λ read. IsReachText text.now read.0 read.1) }
{
    let (step, rest) = take_number(text)?;
    let child = read_number(rest)?;
    Some((step, child))
}

/// What a line of words says.
fn read_words(text: &str) -> Option<Entry<'_>>
    ensures { MatchOption result ((entry : plain.Entry) → IsInWords text.now entry → ⊥)
        (λ entry. IsInWords text.now (entry_of entry)) }
{
    let (first, rest) = cut_str(text)?;
    match first {
        "why" => {
            let (step, path) = read_why(rest)?;
            Some(Entry::Why { step, path })
        }
        "reach" => {
            let (step, child) = read_reach(rest)?;
            Some(Entry::Reach { step, child })
        }
        "uses" => {
            let step = read_number(rest)?;
            Some(Entry::Uses { step })
        }
        _ => None,
    }
}

/// What a line says, or none where it has no form.
pub(crate) fn read_entry(line: &[u8]) -> Option<Entry<'_>>
    ensures { MatchOption result ((entry : plain.Entry) → HasEntryForm line.now entry → ⊥)
        (λ entry. HasEntryForm line.now (entry_of entry)) }
{
    let text = without_feed(line)?;
    match behind_value(text) {
        Some(text) => Some(Entry::Value { text }),
        None => match str::from_utf8(text) {
            Ok(words) => read_words(words),
            Err(_) => None,
        },
    }
}

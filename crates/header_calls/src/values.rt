//! The parts of all values of a header, and what they carry.

ghost use Rattle.std.specs.Prelude.{◌≡◌, ◌++◌, ◌∷◌, [], IfOk, OnOk, MatchOption};
ghost use Rattle.byte_calls.specs.Spans.{inputs_of};
ghost use Rattle.header_text.specs.Parts.{all_parts, parts_of};
ghost use Rattle.header_calls.specs.Values.{AreReadFrom, IsPartRead, parts_left};

use atom_list::Context;
use byte_calls::Span;
use header_text::{cut_part, read_part};
use outside::Memory;
use std::alloc::Global;

/// The parts that are still to come.
#[derive(Clone, Copy, Debug)]
struct Parts<'a> {
    /// What follows the last part in its value; none where nothing does.
    rest: Option<&'a [u8]>,
    values: &'a [Span<'a>],
}

/// The first part of a value, and the parts after it.
fn cut<'a>(value: &'a [u8], values: &'a [Span<'a>]) -> (&'a [u8], Parts<'a>)
    ensures { parts_of value.now ++ all_parts (inputs_of values.now)
        ≡ result.0.now ∷ parts_left result.1 }
{
    let (part, rest) = cut_part(value);
    (part, Parts { rest, values })
}

impl<'a> Parts<'a> {
    /// The next part, and the parts after it.
    fn next_part(self) -> Option<(&'a [u8], Parts<'a>)>
        ensures { MatchOption result (parts_left self.entry ≡ [])
            (λ next. parts_left self.entry ≡ next.0.now ∷ parts_left next.1) }
    {
        match self.rest {
            Some(rest) => Some(cut(rest, self.values)),
            None => {
                let (first, more) = self.values.split_first()?;
                Some(cut(first.bytes, more))
            }
        }
    }
}

/// Appends the context that a part carries, where it carries one.
fn add_part(alloc: Global, part: &[u8], contexts: &mut Vec<Context>) -> Result<(), Memory>
    ensures { OnOk result (IsPartRead part.now contexts.old.items contexts.new.items) }
{
    if let Some(context) = read_part(alloc, part)? {
        contexts.push(context)?;
    }
    Ok(())
}

/// The contexts that the parts of all values carry, in order, and how many parts there are.
#[tactic(auto, using(crate::proofs::Readings::none_yet, crate::proofs::Readings::one_more, crate::proofs::Readings::all_read))]
pub(crate) fn read_values(
    alloc: Global,
    values: &[Span<'_>],
) -> Result<(Vec<Context>, usize), Memory>
    ensures { IfOk result
        (λ read. AreReadFrom (all_parts (inputs_of values.now)) read.0.items read.1) }
{
    let mut parts = Parts { rest: None, values };
    let mut contexts = Vec::new(alloc);
    let mut count: usize = 0;
    while let Some((part, after)) = parts.next_part() {
        count = count.checked_add(1).ok_or(Memory)?;
        add_part(alloc, part, &mut contexts)?;
        parts = after;
    }
    Ok((contexts, count))
}

//! The command `trim`: one line of atoms is cut to a budget.

ghost use Rattle.std.specs.Prelude.{◌≡◌, ◌⊎◌, [], ◌∷◌, IfOk, IfErr};
ghost use Rattle.std.specs.Int.NonZero.{non_zero_u32_get};
ghost use Rattle.text_lines.specs.Lines.{lines_of};
ghost use Rattle.text_lines.specs.Readings.{AllSay};
ghost use Rattle.baggage_cli.specs.Outcomes.{outcome_of, OrMemory};
ghost use Rattle.baggage_cli.specs.Reading.{only_one, RefusesOne, ReadsAll, Within, cut_lines};
ghost use Rattle.baggage_cli.specs.Scene.{change};
ghost use Rattle.baggage_cli.specs.Trim.{TrimsLines};

use crate::reading::{end_lines, first_line, line_list, read_input};
use crate::refusals::{Notice, Refusal};
use atom_list::AtomList;
use outside::Source;
use std::alloc::Global;
use std::num::NonZeroU32;
use text_lines::{hex_line, lines_of};
use wire_bytes::{Form, write};

/// The list of the one line of an input, with the form of its bytes, in which it can be cut to the
/// budget.
fn only_list(alloc: Global, input: &[u8], budget: u64) -> Result<(Form, AtomList), Refusal>
    ensures ok { IfOk result (λ said.
        AllSay (only_one (cut_lines budget)) [] (lines_of input.now) (said ∷ [])) }
    ensures err { IfErr result (λ refusal. (refusal ≡ Refusal.Plain Notice.Memory)
        ⊎ RefusesOne (cut_lines budget) (lines_of input.now) refusal) }
{
    let mut lines = lines_of(input);
    let line = first_line(&mut lines)?;
    let said = line_list(alloc, &line, budget)?;
    end_lines(&mut lines)?;
    Ok(said)
}

/// The line of the list of an input's one line, trimmed to the budget in the form that it came in.
fn trimmed_line(alloc: Global, input: &[u8], budget: NonZeroU32) -> Result<Vec<u8>, Refusal>
    ensures { OrMemory (TrimsLines (non_zero_u32_get budget) (lines_of input.now))
        (outcome_of result) }
{
    let budget = u64::from(budget.get());
    let (form, mut list) = only_list(alloc, input, budget)?;
    overflow_trim::trim(form, &mut list, budget);
    let bytes = write(alloc, form, &list)?;
    Ok(hex_line(alloc, bytes.as_slice())?)
}

/// Reads the source to its end, and answers the line of its one line's list, trimmed to the budget.
pub(crate) fn trim<S: Source>(
    alloc: Global,
    source: &mut S,
    budget: NonZeroU32,
) -> Result<Vec<u8>, Refusal>
    ensures { ReadsAll (Within (TrimsLines (non_zero_u32_get budget)))
        (change S.left S.faults source.old source.new) (outcome_of result) }
{
    let input = read_input(alloc, source)?;
    trimmed_line(alloc, input.as_slice(), budget)
}

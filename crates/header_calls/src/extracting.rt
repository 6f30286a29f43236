//! The context that the values of a header carry.

ghost use Rattle.std.specs.Prelude.{◌≡◌, ◌≤◌, ◌++◌, IfOk};
ghost use Rattle.context_model.specs.Framing.{least_budget};
ghost use Rattle.byte_calls.specs.Spans.{inputs_of};
ghost use Rattle.header_calls.specs.Extracting.{ExtractsInto, IsExtractOf, lost_once};
ghost use Rattle.header_calls.specs.Extracting as spec;

use crate::values::read_values;
use atom_list::Context;
use byte_calls::{Refusal, Span, write_into};
use header_text::lost_context;
use lex_merge::merge_many;
use outside::Memory;
use overflow_trim::trim_context;
use std::alloc::Global;
use wire_bytes::Form;

/// What stands for a header that isn't there.
#[derive(Clone, Copy, Debug, PartialEq, Eq)]
pub enum Absent {
    /// The empty context: where a request begins.
    Empty,
    /// The lost context: where one was promised.
    Lost,
}

/// What came with the values of a header.
#[derive(Clone, Copy, Debug, PartialEq, Eq)]
pub struct Extracted {
    /// How many bytes the context has that was written.
    pub size: usize,
    /// How many parts there were.
    pub parts: usize,
    /// How many of them carry no context; 1 where no part came and the header was promised.
    pub lost: usize,
    /// Whether something may be missing in the context: it has a marker.
    pub partial: bool,
}

/// The context of all parts, how many there were, and how many are lost.
#[derive(Debug, Drop)]
struct Came {
    context: Context,
    parts: usize,
    lost: usize,
}

/// How many parts are lost where so many came and so many carry contexts.
fn lost_among(absent: Absent, parts: usize, carried: usize) -> usize
    requires { carried ≤ parts }
    ensures { result ≡ spec.lost_among absent parts carried }
{
    match (absent, parts) {
        (Absent::Lost, 0) => 1,
        _ => parts - carried,
    }
}

/// Contexts, and behind them the lost one where something is lost.
fn with_lost(alloc: Global, contexts: Vec<Context>, lost: usize) -> Result<Vec<Context>, Memory>
    ensures { IfOk result (λ all. all.items ≡ contexts.items ++ lost_once lost) }
{
    let mut contexts = contexts;
    if 0 < lost {
        contexts.push(lost_context(alloc)?)?;
    }
    Ok(contexts)
}

/// The merge of what all parts of the values carry.
#[tactic(auto, using(crate::proofs::Readings::few_carried))]
fn merge_values(alloc: Global, absent: Absent, values: &[Span<'_>]) -> Result<Came, Memory>
    ensures { IfOk result
        (λ came. IsExtractOf absent (inputs_of values.now) came.context came.parts came.lost) }
{
    let (contexts, parts) = read_values(alloc, values)?;
    let lost = lost_among(absent, parts, contexts.len());
    let context = merge_many(alloc, with_lost(alloc, contexts, lost)?)?;
    Ok(Came {
        context,
        parts,
        lost,
    })
}

/// Writes the context that the values of a header carry at the beginning of `room`, cut to `budget`
/// bytes in the form that is asked for. A value is the bytes of one line of the header. Each is cut
/// at its commas, and blanks around a part are dropped. The context is the merge of what all parts
/// carry; a part that isn't the text of a context's bytes is lost, and counts as the context of one
/// marker. Where there is no value, `absent` says what is taken. A budget is at least
/// [`Form::least_budget`]: 1 in form one, 13 in form two. The rest of `room` stays. It fails by
/// memory and by `room` alone, and then nothing is written.
pub fn extract_into(
    alloc: Global,
    form: Form,
    absent: Absent,
    values: &[Span<'_>],
    budget: u64,
    room: &mut [u8],
) -> Result<Extracted, Refusal>
    requires { least_budget form ≤ budget }
    ensures { ExtractsInto form absent (inputs_of values.now) budget room.old room.new result }
{
    let Came {
        mut context,
        parts,
        lost,
    } = merge_values(alloc, absent, values)?;
    trim_context(form, &mut context, budget);
    let partial = context.has_marker();
    let size = write_into(alloc, form, context.list(), room)?;
    Ok(Extracted {
        size,
        parts,
        lost,
        partial,
    })
}

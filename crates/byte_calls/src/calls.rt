//! The merge of any number of contexts, cut to a budget.

ghost use Rattle.std.specs.Prelude.{◌≡◌, ◌≢◌, ◌≤◌, [], ◌∷◌, length, Err};
ghost use Rattle.context_model.specs.Framing.{least_budget};
ghost use Rattle.byte_forward.specs.Calls.{IsCutMergeOf};
ghost use Rattle.byte_forward.specs.Contexts.{IsFaultAt};
ghost use Rattle.byte_forward.specs.Room.{WritesBytes};
ghost use Rattle.byte_calls.specs.Room.{WritesList};
ghost use Rattle.byte_calls.specs.Spans.{inputs_of};

use crate::contexts::read_all_merged;
use crate::refusals::Refusal;
use crate::room::write_into;
use crate::spans::Span;
use byte_forward::{ByteRefusal, forward_bytes, trim_bytes};
use overflow_trim::trim_context;
use std::alloc::Global;
use wire_bytes::Form;

/// The merge of no context, as [`join_into`] writes it.
fn join_none(form: Form, budget: u64, room: &mut [u8]) -> Result<usize, ByteRefusal>
    requires { least_budget form ≤ budget }
    ensures { WritesBytes form (IsCutMergeOf form budget [])
        (IsFaultAt []) room.old room.new result }
{
    trim_bytes(form, &[], budget, room)
}

/// The merge of one context, cut, as [`join_into`] writes it.
fn join_one(form: Form, context: &[u8], budget: u64, room: &mut [u8]) -> Result<usize, ByteRefusal>
    requires { least_budget form ≤ budget }
    ensures { let inputs = context.now ∷ [] in
        WritesBytes form (IsCutMergeOf form budget inputs)
        (IsFaultAt inputs) room.old room.new result }
{
    trim_bytes(form, context, budget, room)
}

/// The merge of more than two contexts, cut, as [`join_into`] writes it.
fn join_many(
    alloc: Global,
    form: Form,
    inputs: &[Span<'_>],
    budget: u64,
    room: &mut [u8],
) -> Result<usize, Refusal>
    requires { least_budget form ≤ budget }
    ensures { let inputs = inputs_of inputs.now in
        WritesList form (IsCutMergeOf form budget inputs)
        (IsFaultAt inputs) room.old room.new result }
{
    let mut merged = read_all_merged(alloc, 0, inputs)?;
    trim_context(form, &mut merged, budget);
    write_into(alloc, form, merged.list(), room)
}

/// Writes the merge of any number of contexts at the beginning of `room`, cut to `budget` bytes in
/// the form that is asked for, and answers how many bytes it has. Each context is read in the form
/// that its own bytes begin with; the merge of none is the empty context. A budget is at least
/// [`Form::least_budget`]: 1 in form one, 13 in form two. Of up to two inputs it takes no memory.
/// [`Refusal`] says when nothing is written.
pub fn join_into(
    alloc: Global,
    form: Form,
    inputs: &[Span<'_>],
    budget: u64,
    room: &mut [u8],
) -> Result<usize, Refusal>
    requires { least_budget form ≤ budget }
    ensures written { let inputs = inputs_of inputs.now in
        WritesList form (IsCutMergeOf form budget inputs)
        (IsFaultAt inputs) room.old room.new result }
    ensures takes_none { length inputs.now ≤ 2 → result ≢ Err Refusal.Memory }
{
    match inputs {
        [] => Ok(join_none(form, budget, room)?),
        [input] => Ok(join_one(form, input.bytes, budget, room)?),
        [first, second] => Ok(forward_bytes(form, first.bytes, second.bytes, budget, room)?),
        _ => join_many(alloc, form, inputs, budget, room),
    }
}

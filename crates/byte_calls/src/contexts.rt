//! Contexts from their bytes. The first bytes that are no context's are reported.

ghost use Rattle.std.specs.Prelude.{◌+◌, ◌^◌, ◌<◌, length, IfOk, IfErr};
ghost use Rattle.context_model.specs.ContextFault.{IsContextOf};
ghost use Rattle.byte_forward.specs.Contexts.{IsMergeOf};
ghost use Rattle.byte_calls.specs.Contexts.{IsRefusalAt, IsRefusalFrom};
ghost use Rattle.byte_calls.specs.Spans.{inputs_of};

use crate::refusals::Refusal;
use crate::spans::Span;
use atom_list::Context;
use lex_merge::laws::{merges_few, merges_in_groups};
use lex_merge::merge;
use std::alloc::Global;
use wire_bytes::{ContextFault, read_context};

/// The context of the bytes at this place among the inputs, from 0 on. The refusal is their first
/// fault, or out of memory.
pub fn read_at(alloc: Global, place: usize, bytes: &[u8]) -> Result<Context, Refusal>
    ensures found { IfOk result (λ context. IsContextOf context bytes.now) }
    ensures refused { IfErr result (IsRefusalAt place bytes.now) }
{
    match read_context(alloc, bytes) {
        Ok(context) => Ok(context),
        Err(ContextFault::At { offset, code }) => Err(Refusal::Fault {
            context: place,
            offset,
            code,
        }),
        Err(ContextFault::Memory) => Err(Refusal::Memory),
    }
}

/// The merge of the contexts of any number of inputs, the first of which is at this place: by
/// halves of halves.
pub(crate) fn read_all_merged(
    alloc: Global,
    place: usize,
    inputs: &[Span<'_>],
) -> Result<Context, Refusal>
    requires { place + length inputs.now < 2 ^ 64 }
    ensures merged { IfOk result (IsMergeOf (inputs_of inputs.now)) }
    ensures refused { IfErr result (IsRefusalFrom place (inputs_of inputs.now)) }
{
    // The proof learns here what few contexts come to, and that the merge of two merges is the
    // merge of all.
    merges_few();
    merges_in_groups();
    match inputs {
        [] => Ok(Context::empty(alloc)),
        [input] => read_at(alloc, place, input.bytes),
        _ => {
            let (left, right) = inputs.split_at(inputs.len() / 2);
            let first = read_all_merged(alloc, place, left)?;
            let second = read_all_merged(alloc, place + left.len(), right)?;
            Ok(merge(alloc, &first, &second)?)
        }
    }
}

//! The exports for services that know no type.

ghost use Rattle.std.specs.Prelude.{◌≡◌, ◌≢◌, ◌≤◌, length};
ghost use Rattle.byte_forward.specs.Contexts.{IsFaultAt};
ghost use Rattle.byte_forward.specs.Calls.{IsCutMergeOf};
ghost use Rattle.byte_calls.specs.Room.{WritesList};
ghost use Rattle.byte_calls.specs.Spans.{inputs_of};
ghost use Rattle.baggage_c.specs.Answers.{answer_of, check_answer, ChecksBytes, TellsOutcome};
ghost use Rattle.baggage_c.specs.Choices.{form_within, Chosen};

use crate::answers::{Answer, MEMORY};
use crate::choices::form_within;
use byte_calls::{Span, join_into};
use byte_frames::check_bytes;
use std::alloc::Global;

/// The version that the header names `BAGGAGE_VERSION`: major, minor and patch, two digits each.
const VERSION: u32 = 20_000;

/// The version of the library.
#[unsafe(no_mangle)]
pub extern "C" fn baggage_version() -> u32
    ensures { result ≡ 20000 }
{
    VERSION
}

/// Whether bytes are those of a context, in either form. It takes no memory.
#[unsafe(no_mangle)]
pub extern "C" fn baggage_check(context: &[u8]) -> Answer
    ensures { TellsOutcome check_answer (ChecksBytes context.now) result }
{
    Answer::of_check(check_bytes(context))
}

/// The merge of any number of contexts, within a budget of bytes. Of up to two inputs it takes no
/// memory.
#[unsafe(no_mangle)]
pub extern "C" fn baggage_join(
    alloc: Global,
    form: u32,
    inputs: &[Span<'_>],
    budget: u64,
    room: &mut [u8],
) -> Answer
    ensures written { let inputs = inputs_of inputs.now in
        Chosen (form_within form budget)
        (λ form. TellsOutcome answer_of
        (WritesList form (IsCutMergeOf form budget inputs)
        (IsFaultAt inputs) room.old room.new)) room.old room.new result }
    ensures takes_none { length inputs.now ≤ 2 → result.status ≢ MEMORY }
{
    match form_within(form, budget) {
        Ok(form) => Answer::of(join_into(alloc, form, inputs, budget, room)),
        Err(status) => Answer::refused(status),
    }
}

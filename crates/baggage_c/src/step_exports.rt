//! The exports for services that take the steps of the model, and for what leaves a trust boundary.

ghost use Rattle.step_calls.specs.Updates.{Updates};
ghost use Rattle.keep_calls.specs.Calls.{KeepsInto};
ghost use Rattle.byte_calls.specs.Spans.{inputs_of};
ghost use Rattle.baggage_c.specs.Answers.{TellsOutcome};
ghost use Rattle.baggage_c.specs.StepAnswers.{keep_answer, step_answer};
ghost use Rattle.baggage_c.specs.Choices.{form_within, others_numbered, Chosen};

use crate::answers::Answer;
use crate::choices::{form_within, others_numbered};
use crate::step_answers::{keep_answer, step_answer};
use byte_calls::Span;
use keep_calls::keep_into;
use std::alloc::Global;
use step_calls::update_into;

/// One step of a service that knows a table: the merge of contexts and writes, in normal form,
/// within a budget of bytes.
#[unsafe(no_mangle)]
pub extern "C" fn baggage_update(
    alloc: Global,
    form: u32,
    table: &[u8],
    inputs: &[Span<'_>],
    writes: &[u8],
    budget: u64,
    room: &mut [u8],
) -> Answer
    ensures { let inputs = inputs_of inputs.now in
        Chosen (form_within form budget)
        (λ form. TellsOutcome step_answer
        (Updates form budget table.now inputs writes.now room.old room.new)) room.old room.new result }
{
    match form_within(form, budget) {
        Ok(form) => step_answer(update_into(alloc, form, table, inputs, writes, budget, room)),
        Err(status) => Answer::refused(status),
    }
}

/// What a merge has below the slots of a table, within a budget of bytes.
#[unsafe(no_mangle)]
pub extern "C" fn baggage_keep(
    alloc: Global,
    form: u32,
    others: u32,
    table: &[u8],
    inputs: &[Span<'_>],
    budget: u64,
    room: &mut [u8],
) -> Answer
    ensures { let inputs = inputs_of inputs.now in
        Chosen (form_within form budget)
        (λ form. Chosen (others_numbered others)
        (λ others. TellsOutcome keep_answer
        (KeepsInto form others budget table.now inputs room.old room.new)) room.old room.new)
        room.old room.new result }
{
    let form = match form_within(form, budget) {
        Ok(form) => form,
        Err(status) => return Answer::refused(status),
    };
    match others_numbered(others) {
        Ok(others) => keep_answer(keep_into(alloc, form, others, table, inputs, budget, room)),
        Err(status) => Answer::refused(status),
    }
}

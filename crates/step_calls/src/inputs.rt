//! Inputs that are read as typed contexts.

ghost use Rattle.std.specs.Prelude.{◌≡◌, ◌++◌, [], ◌∷◌, IfOk, IfErr, OnOk};
ghost use Rattle.byte_calls.specs.Spans.{inputs_of};
ghost use Rattle.field_calls.specs.Reading.{IsTypedContextOf};
ghost use Rattle.step_calls.specs.Inputs.{AreTypedContextsOf, IsMisreadAt, IsMisreadOf};

use crate::refusals::StepRefusal;
use atom_list::Context;
use bag_typed::check_typed;
use byte_calls::{Span, read_at};
use field_table::Table;
use outside::Memory;
use std::alloc::Global;
use wire_bytes::{form_of, offset};

/// The context of the bytes at this place among the inputs, from 0 on. Nobody on the way knows the
/// types, so it is checked here that each atom is spelled as the table says.
fn read_typed(
    alloc: Global,
    table: &Table,
    place: usize,
    bytes: &[u8],
) -> Result<Context, StepRefusal>
    ensures read { IfOk result (λ context. IsTypedContextOf table.now context bytes.now) }
    ensures refused { IfErr result (IsMisreadAt table.now place bytes.now) }
{
    let context = read_at(alloc, place, bytes)?;
    match check_typed(table, &context) {
        Ok(()) => Ok(context),
        Err(at) => {
            let offset = offset(form_of(bytes), context.list(), at) as usize;
            Err(StepRefusal::IllTyped {
                context: place,
                offset,
            })
        }
    }
}

/// Adds a context.
pub(crate) fn push_context(contexts: &mut Vec<Context>, context: Context) -> Result<(), Memory>
    ensures { OnOk result (contexts.new.items ≡ contexts.old.items ++ context ∷ []) }
{
    contexts.push(context)?;
    Ok(())
}

/// The contexts of all inputs, or why the first that is none is none.
pub(crate) fn read_inputs(
    alloc: Global,
    table: &Table,
    inputs: &[Span<'_>],
) -> Result<Vec<Context>, StepRefusal>
    ensures read { IfOk result
        (λ contexts. AreTypedContextsOf table.now contexts.items (inputs_of inputs.now)) }
    ensures refused { IfErr result (IsMisreadOf table.now (inputs_of inputs.now)) }
{
    let mut contexts = Vec::new(alloc);
    for place in 0..inputs.len() {
        let context = read_typed(alloc, table, place, inputs[place].bytes)?;
        push_context(&mut contexts, context)?;
    }
    Ok(contexts)
}

//! The call from bytes to bytes.

ghost use Rattle.std.specs.Prelude.{◌≡◌, ◌≤◌, [], ◌∷◌, ◌++◌, IfOk, IfErr, OnOk};
ghost use Rattle.context_model.specs.Framing.{least_budget};
ghost use Rattle.byte_calls.specs.Contexts.{AreContextsOf, IsInputsRefusalOf};
ghost use Rattle.byte_calls.specs.Spans.{inputs_of};
ghost use Rattle.keep_calls.specs.Calls.{KeepsInto, KeepsUnder};

use crate::keeping::keep;
use crate::others::Others;
use crate::refusals::KeepRefusal;
use atom_list::Context;
use byte_calls::{Refusal, Span, read_at, write_into};
use field_table::Table;
use lex_merge::merge_many;
use outside::Memory;
use overflow_trim::trim_context;
use std::alloc::Global;
use table_text::read_table;
use wire_bytes::Form;

/// Adds a context.
fn push_context(contexts: &mut Vec<Context>, context: Context) -> Result<(), Memory>
    ensures { OnOk result (contexts.new.items ≡ contexts.old.items ++ context ∷ []) }
{
    contexts.push(context)?;
    Ok(())
}

/// The contexts of all inputs, or why the first that is none is none.
fn read_inputs(alloc: Global, inputs: &[Span<'_>]) -> Result<Vec<Context>, Refusal>
    ensures read { IfOk result (λ contexts. AreContextsOf contexts.items (inputs_of inputs.now)) }
    ensures refused { IfErr result (IsInputsRefusalOf (inputs_of inputs.now)) }
{
    let mut contexts = Vec::new(alloc);
    for place in 0..inputs.len() {
        let context = read_at(alloc, place, inputs[place].bytes)?;
        push_context(&mut contexts, context)?;
    }
    Ok(contexts)
}

/// Writes what is kept of the merge of any number of contexts at the beginning of `room`, as
/// [`keep_into`] does, under a table that was read before.
pub fn keep_under(
    alloc: Global,
    form: Form,
    others: Others,
    table: &Table,
    inputs: &[Span<'_>],
    budget: u64,
    room: &mut [u8],
) -> Result<usize, KeepRefusal>
    requires { least_budget form ≤ budget }
    ensures { KeepsUnder form others budget table.now
        (inputs_of inputs.now) room.old room.new result }
{
    let contexts = read_inputs(alloc, inputs)?;
    let merged = merge_many(alloc, contexts)?;
    let mut kept = keep(alloc, others, table, &merged)?;
    trim_context(form, &mut kept, budget);
    Ok(write_into(alloc, form, kept.list(), room)?)
}

/// Writes what is kept of the merge of any number of contexts at the beginning of `room`, cut to
/// `budget` bytes in the form that is asked for, and answers how many bytes it has. What is at the
/// slots of the table and below them is kept, and `others` says what becomes of the rest. The table
/// is a printed one, and each context is read in the form that its own bytes begin with. A budget
/// is at least [`Form::least_budget`]: 1 in form one, 13 in form two. [`KeepRefusal`] says when
/// nothing is written.
pub fn keep_into(
    alloc: Global,
    form: Form,
    others: Others,
    table: &[u8],
    inputs: &[Span<'_>],
    budget: u64,
    room: &mut [u8],
) -> Result<usize, KeepRefusal>
    requires { least_budget form ≤ budget }
    ensures { KeepsInto form others budget table.now
        (inputs_of inputs.now) room.old room.new result }
{
    let table = read_table(alloc, table)?;
    keep_under(alloc, form, others, &table, inputs, budget, room)
}

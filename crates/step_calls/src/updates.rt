//! The step of a service that knows types.

ghost use Rattle.std.specs.Prelude.{◌≡◌, ◌≤◌, ◌++◌, List, IfOk, IfErr};
ghost use Rattle.context_model.specs.Atoms.{Atom};
ghost use Rattle.context_model.specs.Framing.{least_budget};
ghost use Rattle.context_model.specs.Trimmed.{trimmed};
ghost use Rattle.bag_model.specs.Views.{All};
ghost use Rattle.trace_model.specs.Runs.{IsNormalMerge};
ghost use Rattle.byte_calls.specs.Spans.{inputs_of};
ghost use Rattle.step_calls.specs.Updates.{AreRead, IsStepUnread, Updates, UpdatesUnder};

use crate::inputs::read_inputs;
use crate::lines::read_writes;
use crate::refusals::StepRefusal;
use atom_list::Context;
use bag_normal::normal;
use byte_calls::{Span, write_into};
use field_table::{Table, View};
use lex_merge::merge_many;
use outside::Memory;
use overflow_trim::trim_context;
use std::alloc::Global;
use table_text::read_table;
use wire_bytes::Form;

/// What a service that knows the slots of a table makes of some contexts: their merge, in normal
/// form for all of these slots, and cut to `budget` bytes in this form. A write is the context that
/// `bag_encode::encode_slot` makes of it, among the others. A budget is at least
/// [`Form::least_budget`]: 1 in form one, 13 in form two.
///
/// An input that isn't typed under the table may lose data to normal form: see
/// `bag_typed::check_typed`.
pub fn update(
    alloc: Global,
    form: Form,
    table: &Table,
    lists: Vec<Context>,
    budget: u64,
) -> Result<Context, Memory>
    requires { least_budget form ≤ budget }
    ensures { IfOk result
        (λ cut. (list : List Atom) × IsNormalMerge table.now All lists.items list
        × (cut ≡ trimmed form list budget)) }
{
    let merged = merge_many(alloc, lists)?;
    let mut context = normal(alloc, table, &View::All, merged)?;
    trim_context(form, &mut context, budget);
    Ok(context)
}

/// All of the first, and then all of the second.
fn appended(mut first: Vec<Context>, mut second: Vec<Context>) -> Result<Vec<Context>, Memory>
    ensures { IfOk result (λ both. both.items ≡ first.items ++ second.items) }
{
    first.append(&mut second)?;
    Ok(first)
}

/// The contexts of all inputs, and after them the encodings of the writes.
fn read_lists(
    alloc: Global,
    form: Form,
    table: &Table,
    inputs: &[Span<'_>],
    writes: &[u8],
) -> Result<Vec<Context>, StepRefusal>
    ensures read { IfOk result
        (λ all. AreRead form table.now (inputs_of inputs.now) writes.now all.items) }
    ensures refused { IfErr result (IsStepUnread form table.now (inputs_of inputs.now) writes.now) }
{
    let written = read_writes(alloc, form, table, writes)?;
    let lists = read_inputs(alloc, table, inputs)?;
    Ok(appended(lists, written)?)
}

/// Writes what an update gives at the beginning of `room`, as [`update_into`] does, under a table
/// that was read before.
pub fn update_under(
    alloc: Global,
    form: Form,
    table: &Table,
    inputs: &[Span<'_>],
    writes: &[u8],
    budget: u64,
    room: &mut [u8],
) -> Result<usize, StepRefusal>
    requires { least_budget form ≤ budget }
    ensures { UpdatesUnder form budget table.now
        (inputs_of inputs.now) writes.now room.old room.new result }
{
    let lists = read_lists(alloc, form, table, inputs, writes)?;
    let context = update(alloc, form, table, lists, budget)?;
    Ok(write_into(alloc, form, context.list(), room)?)
}

/// Writes at the beginning of `room` what a service that knows the slots of a table makes of some
/// contexts, and answers how many bytes it is: the contexts and the writes are merged, the merge is
/// brought to normal form for all slots of the table, and that is cut to `budget` bytes in the form
/// that is asked for. The rest of the buffer stays. So it receives one context, joins several,
/// forwards what it has, and sets fields.
///
/// `table` is a table as `table_text::print_table` writes it. A service that doesn't know all slots
/// of its graph hands in a table without the others. Each input is read in the form that its own
/// bytes begin with. `writes` has a line for each write: the name path of a slot (names joined by
/// dots), a space, the write as `docs/FORMATS.md` has it in Writes, and a line feed, also after the
/// last. A budget is at least [`Form::least_budget`]: 1 in form one, 13 in form two.
/// [`StepRefusal`] has what may be wrong, in the order in which it is looked for; then `room`
/// stays.
pub fn update_into(
    alloc: Global,
    form: Form,
    table: &[u8],
    inputs: &[Span<'_>],
    writes: &[u8],
    budget: u64,
    room: &mut [u8],
) -> Result<usize, StepRefusal>
    requires { least_budget form ≤ budget }
    ensures { Updates form budget table.now
        (inputs_of inputs.now) writes.now room.old room.new result }
{
    let table = read_table(alloc, table)?;
    update_under(alloc, form, &table, inputs, writes, budget, room)
}

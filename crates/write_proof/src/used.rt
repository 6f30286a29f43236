//! The steps that a certificate uses: those that say something new of a slot.

ghost use Rattle.std.specs.Prelude.{◌↔◌, ◌∷◌, ◌<◌, ℕ, length, map, IsTrue, IfOk, OnOk};
ghost use Rattle.std.specs.Ordering.{nat_cmp};
ghost use Rattle.context_model.specs.Orders.{IsIn, Rises};
ghost use Rattle.bag_model.specs.Slots.{slots_of};
ghost use Rattle.bag_value.specs.Vals.{plain};
ghost use Rattle.trace_model.specs.Graphs.{IsOfTable};
ghost use Rattle.write_proof.specs.Used.{ArePartsAt, AreNewsAt, IsNextAt, UsesValue};
ghost use Rattle.write_proof.specs.Together.{AreOfOneShape, HaveOneJoin, IsSaidBy};

use crate::contributions::contribution_of;
use crate::joins::known;
use crate::together::is_said_by;
use bag_value::Val;
use counter_type::Lattice;
use field_table::Table;
use outside::Memory;
use recorded_graph::Graph;
use std::alloc::Global;

/// The steps that are used so far, and what they contribute, in parts: a join of 2^k steps for each
/// bit k that is set in the number of steps. So there are no more parts than bits, and what a step
/// says is copied at most once for each.
#[derive(Drop)]
pub(crate) struct Used {
    pub steps: Vec<usize>,
    pub parts: Vec<Val>,
}

/// Whether the parts say together what a value says.
fn is_said_by_parts(alloc: Global, value: &Val, parts: &[Val]) -> Result<bool, Memory>
    requires { AreOfOneShape (plain value.now ∷ map plain parts.now) }
    ensures { IfOk result (λ said. IsTrue said ↔ IsSaidBy (plain value.now) (map plain parts.now)) }
{
    let mut others = Vec::with_capacity(alloc, parts.len())?;
    for part in parts {
        others.push(part)?;
    }
    is_said_by(alloc, value, &others)
}

/// Joins the last two parts, where there are two.
fn join_last(parts: &mut Vec<Val>) -> Result<(), Memory>
    requires { AreOfOneShape (map plain parts.old.items) }
    ensures { OnOk result (HaveOneJoin (map plain parts.old.items) (map plain parts.new.items)) }
{
    if parts.len() < 2 {
        return Ok(());
    }
    let last = parts.pop().unwrap();
    let mut joined = parts.pop().unwrap();
    joined.join(&last)?;
    parts.push(joined)?;
    Ok(())
}

/// Adds the part of one more step, the last of `steps` steps, and joins parts of equally many
/// steps, as a binary counter carries.
fn add_part(parts: &mut Vec<Val>, part: Val, steps: usize) -> Result<(), Memory>
    requires { AreOfOneShape (plain part ∷ map plain parts.old.items) }
    ensures { OnOk result
        (HaveOneJoin (plain part ∷ map plain parts.old.items) (map plain parts.new.items)) }
{
    parts.push(part)?;
    for _ in 0..steps.trailing_zeros() {
        join_last(parts)?;
    }
    Ok(())
}

/// Uses a step that contributes this value, where the parts don't say all that the value says.
fn use_value(alloc: Global, step: usize, value: &Val, used: &mut Used) -> Result<(), Memory>
    requires { AreOfOneShape (plain value.now ∷ map plain used.old.parts.items) }
    ensures { OnOk result (UsesValue step (plain value.now)
        used.old.steps.items (map plain used.old.parts.items)
        used.new.steps.items (map plain used.new.parts.items)) }
{
    if is_said_by_parts(alloc, value, &used.parts)? {
        return Ok(());
    }
    let own = value.copy()?;
    used.steps.push(step)?;
    add_part(&mut used.parts, own, used.steps.len())?;
    Ok(())
}

/// Uses a step, where it contributes more than those that are used.
fn use_next(
    alloc: Global,
    table: &Table,
    graph: &Graph,
    slot: usize,
    step: usize,
    used: &mut Used,
) -> Result<(), Memory>
    requires table { IsOfTable table.now graph.now }
    requires slot { slot < length (slots_of table.now) }
    requires step { step < length graph.now.steps }
    requires parts { ArePartsAt table.now graph.now slot used.old.steps.items
        (map plain used.old.parts.items) }
    ensures next { OnOk result
        (IsNextAt table.now graph.now slot step used.old.steps.items used.new.steps.items) }
    ensures parts { OnOk result
        (ArePartsAt table.now graph.now slot used.new.steps.items
        (map plain used.new.parts.items)) }
{
    // The proof learns here that the fields make a table and that the graph is sound.
    known(table, graph);
    let own = contribution_of(alloc, table, graph, slot, step)?;
    match own.value() {
        Some(value) => use_value(alloc, step, value, used),
        None => Ok(()),
    }
}

/// Of some steps in order those that contribute more than the join of what those before them
/// contribute.
pub(crate) fn steps_with_news(
    alloc: Global,
    table: &Table,
    graph: &Graph,
    slot: usize,
    steps: &[usize],
) -> Result<Vec<usize>, Memory>
    requires table { IsOfTable table.now graph.now }
    requires slot { slot < length (slots_of table.now) }
    requires rises { Rises nat_cmp steps.now }
    requires steps { (step : ℕ) → IsIn step steps.now → step < length graph.now.steps }
    ensures { IfOk result (λ used. AreNewsAt table.now graph.now slot steps.now used.items) }
{
    // The proof learns here that the fields make a table and that the graph is sound.
    known(table, graph);
    let mut used = Used {
        steps: Vec::new(alloc),
        parts: Vec::new(alloc),
    };
    for step in steps {
        use_next(alloc, table, graph, slot, *step, &mut used)?;
    }
    Ok(used.steps)
}

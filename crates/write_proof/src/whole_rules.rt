//! The rules over all lines of a certificate: for each the first line to which it applies, by its
//! number from 1.

ghost use Rattle.std.specs.Prelude.{◌≡◌, ◌↔◌, ◌<◌, ℕ, List, length, map, IsTrue, IfOk};
ghost use Rattle.bag_model.specs.Joins.{IsValueBelow};
ghost use Rattle.bag_model.specs.Slots.{SlotAt, slots_of};
ghost use Rattle.bag_model.specs.SlotValues.{HasSlot};
ghost use Rattle.bag_model.specs.Values as model;
ghost use Rattle.bag_model.specs.Values.{IsOfShape};
ghost use Rattle.bag_value.specs.Vals.{plain};
ghost use Rattle.context_model.specs.Orders.{IsIn};
ghost use Rattle.trace_model.specs.Graphs as graphs;
ghost use Rattle.trace_model.specs.Graphs.{IsOfTable};
ghost use Rattle.write_proof.specs.declared.verdicts.VerifyCode.TheVariants as codes;
ghost use Rattle.write_proof.specs.FirstLines.{FindsLine, IsSpoken, MissesParent};
ghost use Rattle.write_proof.specs.Joins.{IsJoinAt};
ghost use Rattle.write_proof.specs.Marks.{AreMarksOf, IsMarked};
ghost use Rattle.write_proof.specs.Views.{entry_of};
ghost use Rattle.write_proof.specs.WholeRules.{Applies, StepContributes, reached, used};

use crate::belows::is_below;
use crate::contributions::contribution_of;
use crate::entries::Entry;
use crate::joins::known;
use crate::line_rules::first_step;
use crate::marks::is_marked;
use bag_value::Val;
use field_table::Table;
use outside::Memory;
use recorded_graph::Graph;
use std::alloc::Global;

/// Whether the child, or the used step, of an entry is neither the certificate's step nor marked.
fn is_not_listed(entries: &[Entry<'_>], marks: &[bool], entry: Entry<'_>) -> bool
    requires { AreMarksOf marks.now (reached (map entry_of entries.now)) }
    ensures { (graph : graphs.Graph) (slot : ℕ) (at : SlotAt)
        → IsTrue result ↔ Applies graph slot at (map entry_of entries.now) codes.NotListed
        (entry_of entry.entry) }
{
    match entry {
        Entry::Reach {
            step: _,
            child: named,
        }
        | Entry::Uses { step: named } => {
            named != first_step(entries) && !is_marked(marks, named as usize)
        }
        _ => false,
    }
}

/// The first line whose child or used step isn't listed.
pub(crate) fn not_listed(entries: &[Entry<'_>], marks: &[bool]) -> Option<u64>
    requires { AreMarksOf marks.now (reached (map entry_of entries.now)) }
    ensures { (graph : graphs.Graph) (slot : ℕ) (at : SlotAt)
        → FindsLine graph slot at (map entry_of entries.now) codes.NotListed result }
{
    for (at, entry) in entries.iter().enumerate() {
        if is_not_listed(entries, marks, *entry) {
            return Some(at as u64 + 1);
        }
    }
    None
}

/// The step of which an entry speaks as one that reaches, or as the certificate's.
fn spoken_step(entry: Entry<'_>) -> Option<u64>
    ensures { IsSpoken (entry_of entry.entry) result }
{
    match entry {
        Entry::Why { step, path: _ } => Some(step),
        Entry::Reach { step, child: _ } => Some(step),
        _ => None,
    }
}

/// Whether some step isn't marked.
fn has_unmarked(steps: &[usize], marks: &[bool]) -> bool
    ensures { IsTrue result ↔ ((step : ℕ) × IsIn step steps.now × (IsMarked marks.now step → ⊥)) }
{
    for step in steps {
        if !is_marked(marks, *step) {
            return true;
        }
    }
    false
}

/// Whether a parent of a step isn't marked.
fn misses_parent(graph: &Graph, marks: &[bool], step: u64) -> bool
    ensures { IsTrue result ↔ MissesParent graph.now step (IsMarked marks.now) }
{
    step < graph.steps() as u64 && has_unmarked(graph.step(step as usize).act.parents(), marks)
}

/// Whether an entry speaks of a step with a parent that isn't marked.
fn is_missing(graph: &Graph, entries: &[Entry<'_>], marks: &[bool], entry: Entry<'_>) -> bool
    requires { AreMarksOf marks.now (reached (map entry_of entries.now)) }
    ensures { (slot : ℕ) (at : SlotAt)
        → IsTrue result ↔ Applies graph.now slot at (map entry_of entries.now) codes.Missing
        (entry_of entry.entry) }
{
    match spoken_step(entry) {
        Some(step) => misses_parent(graph, marks, step),
        None => false,
    }
}

/// The first line that speaks of a step with a parent that no line names.
pub(crate) fn missing(graph: &Graph, entries: &[Entry<'_>], marks: &[bool]) -> Option<u64>
    requires { AreMarksOf marks.now (reached (map entry_of entries.now)) }
    ensures { (slot : ℕ) (at : SlotAt)
        → FindsLine graph.now slot at (map entry_of entries.now) codes.Missing result }
{
    for (at, entry) in entries.iter().enumerate() {
        if is_missing(graph, entries, marks, *entry) {
            return Some(at as u64 + 1);
        }
    }
    None
}

/// Whether a step contributes to a slot what a value of the slot's shape doesn't say.
fn contributes_more(
    alloc: Global,
    table: &Table,
    graph: &Graph,
    slot: usize,
    joined: &Val,
    step: usize,
) -> Result<bool, Memory>
    requires table { IsOfTable table.now graph.now }
    requires slot { slot < length (slots_of table.now) }
    requires shape { (at : SlotAt) → HasSlot table.now slot at
        → IsOfShape at.shape (plain joined.now) }
    requires step { step < length graph.now.steps }
    ensures { IfOk result (λ more. (at : SlotAt) → HasSlot table.now slot at
        → IsTrue more ↔ ((x : model.Value) × StepContributes graph.now slot at step x
        × (IsValueBelow x (plain joined.now) → ⊥))) }
{
    // The proof learns here that the fields make a table and that the graph is sound.
    known(table, graph);
    let own = contribution_of(alloc, table, graph, slot, step)?;
    match own.value() {
        Some(value) => Ok(!is_below(value, joined)),
        None => Ok(false),
    }
}

/// Whether an entry speaks of a step that contributes more than the join of what the used steps
/// contribute.
fn is_too_much(
    alloc: Global,
    table: &Table,
    graph: &Graph,
    slot: usize,
    entries: &[Entry<'_>],
    joined: &Val,
    entry: Entry<'_>,
) -> Result<bool, Memory>
    requires table { IsOfTable table.now graph.now }
    requires slot { slot < length (slots_of table.now) }
    requires joined { IsJoinAt table.now graph.now slot (used (map entry_of entries.now))
        (plain joined.now) }
    ensures { IfOk result (λ more. (at : SlotAt) → HasSlot table.now slot at
        → IsTrue more ↔ Applies graph.now slot at (map entry_of entries.now) codes.TooMuch
        (entry_of entry.entry)) }
{
    // The proof learns here that the fields make a table and that the graph is sound.
    known(table, graph);
    match spoken_step(entry) {
        Some(step) => {
            if step < graph.steps() as u64 {
                contributes_more(alloc, table, graph, slot, joined, step as usize)
            } else {
                Ok(false)
            }
        }
        None => Ok(false),
    }
}

/// The first line that speaks of a step that contributes more than the join of what the used steps
/// contribute.
pub(crate) fn too_much(
    alloc: Global,
    table: &Table,
    graph: &Graph,
    slot: usize,
    entries: &[Entry<'_>],
    joined: &Val,
) -> Result<Option<u64>, Memory>
    requires table { IsOfTable table.now graph.now }
    requires slot { slot < length (slots_of table.now) }
    requires joined { IsJoinAt table.now graph.now slot (used (map entry_of entries.now))
        (plain joined.now) }
    ensures { IfOk result (λ line. (at : SlotAt) → HasSlot table.now slot at
        → FindsLine graph.now slot at (map entry_of entries.now) codes.TooMuch line) }
{
    for (at, entry) in entries.iter().enumerate() {
        let is_more = is_too_much(alloc, table, graph, slot, entries, joined, *entry)?;
        if is_more {
            return Ok(Some(at as u64 + 1));
        }
    }
    Ok(None)
}

//! The rules for each line of a certificate by itself.

ghost use Rattle.std.specs.Prelude.{◌≡◌, ◌↔◌, ◌<◌, length, map, IsTrue, IfOk, IfErr, OnOk};
ghost use Rattle.std.specs.Option.{option_map};
ghost use Rattle.text_lines.specs.Readings.{IsFirstOf, NoneOf};
ghost use Rattle.write_proof.specs.ChildRows.{AreRowsTo};
ghost use Rattle.write_proof.specs.LineRules.{BreaksAlone, HasParent, IsNoMore, IsWriteStep, MayFollow, last_of, rules_alone, certificate_step};
ghost use Rattle.write_proof.specs.Views.{entry_of};

use crate::entries::Entry;
use crate::verdicts::VerifyCode;
use field_table::Table;
use recorded_graph::{Act, Graph, Places};

/// Whether an entry of this kind may follow the last.
pub(crate) fn may_follow(last: Option<Entry<'_>>, entry: Entry<'_>) -> bool
    ensures { IsTrue result ↔ MayFollow (option_map entry_of last.entry) (entry_of entry.entry) }
{
    match (last, entry) {
        (None, Entry::Why { .. }) => true,
        (Some(Entry::Why { .. }), Entry::Value { .. }) => true,
        (Some(Entry::Value { .. }), Entry::Reach { .. } | Entry::Uses { .. }) => true,
        (Some(Entry::Reach { .. }), Entry::Reach { .. } | Entry::Uses { .. }) => true,
        (Some(Entry::Uses { .. }), Entry::Uses { .. }) => true,
        _ => false,
    }
}

/// Whether the last is an entry of the same kind, whose step isn't less.
fn is_no_more(last: Option<Entry<'_>>, entry: Entry<'_>) -> bool
    ensures { IsTrue result ↔ IsNoMore (option_map entry_of last.entry) (entry_of entry.entry) }
{
    match (last, entry) {
        (Some(Entry::Reach { step: before, .. }), Entry::Reach { step, .. }) => step <= before,
        (Some(Entry::Uses { step: before }), Entry::Uses { step }) => step <= before,
        _ => false,
    }
}

/// The step of the first entry.
pub(crate) fn first_step(entries: &[Entry<'_>]) -> u64
    ensures { result ≡ certificate_step (map entry_of entries.now) }
{
    match entries {
        [Entry::Why { step, .. }, ..] => *step,
        _ => 0,
    }
}

/// The last entry.
pub(crate) fn last_entry<'a>(entries: &[Entry<'a>]) -> Option<Entry<'a>>
    ensures { option_map entry_of result ≡ last_of (map entry_of entries.now) }
{
    entries.last().copied()
}

/// Whether the child has the step as a parent: it is in the step's row.
fn has_parent(graph: &Graph, rows: &[Places], child: u64, step: u64) -> bool
    requires { AreRowsTo graph.now (length graph.now.steps) rows.now }
    ensures { IsTrue result ↔ HasParent graph.now child step }
{
    step < graph.steps() as u64 && rows[step as usize].as_slice().contains(&(child as usize))
}

/// Whether the step is a write, or receives a context.
fn is_write(graph: &Graph, step: u64) -> bool
    ensures { IsTrue result ↔ IsWriteStep graph.now step }
{
    step < graph.steps() as u64
        && matches!(
            graph.step(step as usize).act,
            Act::Recv(_) | Act::Set { .. }
        )
}

/// The rules for an entry that is allowed there. As the steps of one kind rise, no row of children
/// is looked through twice.
pub(crate) fn check_rules(
    table: &Table,
    graph: &Graph,
    rows: &[Places],
    earlier: &[Entry<'_>],
    entry: Entry<'_>,
) -> Result<(), VerifyCode>
    requires { AreRowsTo graph.now (length graph.now.steps) rows.now }
    ensures ok { OnOk result
        (NoneOf (BreaksAlone table.now graph.now (map entry_of earlier.now)
        (entry_of entry.entry)) rules_alone) }
    ensures err { IfErr result
        (IsFirstOf (BreaksAlone table.now graph.now (map entry_of earlier.now)
        (entry_of entry.entry)) rules_alone) }
{
    match entry {
        Entry::Why { step, path } => {
            if step >= graph.steps() as u64 {
                return Err(VerifyCode::StepRange);
            }
            if table.find(path).is_none() {
                return Err(VerifyCode::NoSuchPath);
            }
        }
        Entry::Value { .. } => {}
        Entry::Reach { step, child } => {
            if is_no_more(last_entry(earlier), entry) || step >= first_step(earlier) {
                return Err(VerifyCode::Order);
            }
            if !has_parent(graph, rows, child, step) {
                return Err(VerifyCode::NotParent);
            }
        }
        Entry::Uses { step } => {
            if is_no_more(last_entry(earlier), entry) || step > first_step(earlier) {
                return Err(VerifyCode::Order);
            }
            if !is_write(graph, step) {
                return Err(VerifyCode::NotWrite);
            }
        }
    }
    Ok(())
}

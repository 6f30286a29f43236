//! The verdict on a certificate.

ghost use Rattle.std.specs.Prelude.{◌≡◌, ℕ, List, map, Ok, IfOk, MatchOption};
ghost use Rattle.bag_model.specs.Slots.{SlotAt};
ghost use Rattle.trace_model.specs.Graphs.{IsOfTable};
ghost use Rattle.write_proof.specs.Verdicts.{IsCertificateRead, IsVerdictOf, SaysAll, TellsTruth};
ghost use Rattle.write_proof.specs.Checker.{BeginWith};
ghost use Rattle.write_proof.specs.Views.{entry_of};

use crate::entries::Entry;
use crate::joins::{join_steps, known};
use crate::marks::{named_uses, reached_marks};
use crate::reading::read_entries;
use crate::verdicts::{Verified, VerifyCode};
use crate::whole_rules::{missing, not_listed, too_much};
use field_table::Table;
use outside::Memory;
use recorded_graph::Graph;
use report_text::value_text;
use std::alloc::Global;

/// The path of the first entry and the text of the second.
#[derive(Clone, Copy, Debug)]
struct Heading<'a> {
    path: &'a str,
    text: &'a [u8],
}

/// How the entries begin, if there are two.
fn heading_of<'a>(entries: &[Entry<'a>]) -> Option<Heading<'a>>
    ensures { MatchOption result
        ((path text : List ℕ) → BeginWith (map entry_of entries.now) path text → ⊥)
        (λ heading. BeginWith (map entry_of entries.now) heading.path.now heading.text.now) }
{
    if entries.len() < 2 {
        return None;
    }
    let Entry::Why { step: _, path } = entries[0] else {
        return None;
    };
    let Entry::Value { text } = entries[1] else {
        return None;
    };
    Some(Heading { path, text })
}

/// The verdict by the rules over all lines, which are good by themselves.
fn check_together(
    alloc: Global,
    table: &Table,
    graph: &Graph,
    entries: &[Entry<'_>],
    slot: usize,
    text: &[u8],
) -> Result<Verified, Memory>
    requires table { IsOfTable table.now graph.now }
    requires read { (certificate : List ℕ) × (at : SlotAt)
        × IsCertificateRead table.now graph.now certificate (map entry_of entries.now) slot at }
    requires text { (path : List ℕ) × BeginWith (map entry_of entries.now) path text.now }
    ensures { IfOk result
        (λ verdict. (certificate : List ℕ) (at : SlotAt)
        → IsCertificateRead table.now graph.now certificate (map entry_of entries.now) slot at
        → IsVerdictOf table.now graph.now certificate verdict) }
{
    // The proof learns here that the fields make a table and that the graph is sound.
    known(table, graph);
    let marks = reached_marks(alloc, graph.steps(), entries)?;
    if let Some(line) = not_listed(entries, &marks) {
        let code = VerifyCode::NotListed;
        return Ok(Verified::No { line, code });
    }
    if let Some(line) = missing(graph, entries, &marks) {
        let code = VerifyCode::Missing;
        return Ok(Verified::No { line, code });
    }
    let steps = named_uses(alloc, entries)?;
    let joined = join_steps(alloc, table, graph, slot, steps.as_slice())?;
    let wanted = value_text(alloc, &joined, table.shape(slot))?;
    if text != wanted.as_slice() {
        let code = VerifyCode::Value;
        return Ok(Verified::No { line: 2, code });
    }
    if let Some(line) = too_much(alloc, table, graph, slot, entries, &joined)? {
        let code = VerifyCode::TooMuch;
        return Ok(Verified::No { line, code });
    }
    Ok(Verified::Yes)
}

/// The verdict on entries, whose lines are good by themselves.
fn check_entries(
    alloc: Global,
    table: &Table,
    graph: &Graph,
    entries: &[Entry<'_>],
) -> Result<Verified, Memory>
    requires table { IsOfTable table.now graph.now }
    requires said { (certificate : List ℕ)
        × SaysAll table.now graph.now certificate (map entry_of entries.now) }
    ensures { IfOk result
        (λ verdict. (certificate : List ℕ)
        → SaysAll table.now graph.now certificate (map entry_of entries.now)
        → IsVerdictOf table.now graph.now certificate verdict) }
{
    // The proof learns here that the fields make a table and that the graph is sound.
    known(table, graph);
    match heading_of(entries) {
        Some(Heading { path, text }) => {
            let slot = table.find(path).unwrap();
            check_together(alloc, table, graph, entries, slot, text)
        }
        None => {
            let line = entries.len() as u64 + 1;
            let code = VerifyCode::Form;
            Ok(Verified::No { line, code })
        }
    }
}

/// The verdict on a certificate for the value of a slot at a step. No step is run, and no list is
/// needed.
///
/// The lines are looked at one by one first; the first that is bad by itself is reported. Then come
/// the rules over all lines, in the order of their codes, each with the first line to which it
/// applies.
///
/// A certificate may be accepted that `why` wouldn't write: with another child on the way, or with
/// other used steps, more or fewer.
pub fn verify(
    alloc: Global,
    table: &Table,
    graph: &Graph,
    certificate: &[u8],
) -> Result<Verified, Memory>
    requires { IsOfTable table.now graph.now }
    ensures verdict { IfOk result (IsVerdictOf table.now graph.now certificate.now) }
    ensures sound { result ≡ Ok Verified.Yes → TellsTruth table.now graph.now certificate.now }
{
    // The proof learns here that the fields make a table and that the graph is sound.
    known(table, graph);
    match read_entries(alloc, table, graph, certificate)? {
        Ok(entries) => check_entries(alloc, table, graph, entries.as_slice()),
        Err(bad) => {
            let line = bad.line;
            let code = bad.code;
            Ok(Verified::No { line, code })
        }
    }
}

//! Gates that steps pass: steps of one rank are run beside one another, and each step passes once,
//! however it is run.

use crate::fixtures::DEFINITIONS;
use crate::graph_tables::{joins_text, mixed_text};
use field_table::Table;
use fixture_graphs::{graph_of, star_text};
use fixture_tables::table_of;
use graph_runner::run_gated;
use outside::{Gate, MeetingGate};
use par_ranks::run_ranks;
use std::alloc::Global;
use std::process::Abort;
use std::sync::atomic::{AtomicUsize, Ordering};
use std::test::Fail;
use std::thread::Threads;

/// Runs a graph through a gate where two steps have to meet, of which one is the last step. Each
/// list has `atoms` atoms.
fn meets<R: Abort + Threads + Sync>(
    rt: &R,
    alloc: Global,
    text: &str,
    first: usize,
    last: usize,
    atoms: usize,
) -> Result<(), Fail> {
    let table = table_of(alloc, DEFINITIONS, "Nothing")?;
    let graph = graph_of(alloc, &table, text)?;
    let meeting = MeetingGate::new(first, last);
    let lists = run_ranks(rt, alloc, &meeting, &table, &graph)?;
    assert!(rt; meeting.have_met());
    assert_eq!(rt; lists.len().checked_sub(1), Some(last));
    assert!(rt; lists.iter().all(|list| list.list().len() == atoms));
    Ok(())
}

#[test]
fn steps_of_a_rank_meet(rt: HostRuntime) -> Result<(), Fail> {
    let alloc = rt.alloc();
    // Many steps with no atoms, and few with many.
    let star = star_text(alloc, 1_000)?;
    meets(&rt, alloc, star.as_str(), 1, 1_000, 0)?;
    // The narrowest rank of steps without atoms that is cut.
    let narrow = star_text(alloc, 64)?;
    meets(&rt, alloc, narrow.as_str(), 1, 64, 0)?;
    let joins = joins_text(alloc, 120, 16)?;
    meets(&rt, alloc, joins.as_str(), 2, 17, 480)
}

/// A gate that counts how often each step passes.
#[derive(Drop)]
struct Counting {
    passed: Vec<AtomicUsize>,
}

impl Counting {
    /// A gate for `steps` steps, none of which has passed.
    fn new(alloc: Global, steps: usize) -> Result<Counting, Fail> {
        let mut passed = Vec::new(alloc);
        for _ in 0..steps {
            passed.push(AtomicUsize::new(0))?;
        }
        Ok(Counting { passed })
    }

    /// Whether each step passed once.
    fn each_passed_once(&self) -> bool {
        self.passed
            .iter()
            .all(|count| count.load(Ordering::SeqCst) == 1)
    }
}

impl Gate for Counting {
    fn enter(&self, piece: usize) {
        if let Some(count) = self.passed.get(piece) {
            count.fetch_add(1, Ordering::SeqCst);
        }
    }
}

/// Each step of a graph passes the gate once, run both ways.
fn all_pass<R: Abort + Threads + Sync>(
    rt: &R,
    alloc: Global,
    table: &Table,
    text: &str,
) -> Result<(), Fail> {
    let graph = graph_of(alloc, table, text)?;
    let ranks = Counting::new(alloc, graph.steps())?;
    let _lists = run_ranks(rt, alloc, &ranks, table, &graph)?;
    assert!(rt; ranks.each_passed_once());
    let alone = Counting::new(alloc, graph.steps())?;
    let _lists = run_gated(alloc, &alone, table, &graph)?;
    assert!(rt; alone.each_passed_once());
    Ok(())
}

#[test]
fn each_step_passes_the_gate(rt: HostRuntime) -> Result<(), Fail> {
    let alloc = rt.alloc();
    let table = table_of(alloc, DEFINITIONS, "Nothing")?;
    // A graph that is too small for threads, and one with joins of many parents.
    let small = star_text(alloc, 3)?;
    all_pass(&rt, alloc, &table, small.as_str())?;
    let mixed = mixed_text(alloc)?;
    all_pass(&rt, alloc, &table, mixed.as_str())
}

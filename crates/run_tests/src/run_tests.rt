//! Runs of graphs in both ways, step after step and rank after rank: all lists are the same, and so
//! are the reports.

use crate::fixtures::{DEFINITIONS, digits_of};
use crate::graph_tables::{
    FORMS, FORMS_REPORT, LOAD_REPORT, RECEIVED, RECEIVED_REPORT, TRACE, TRACE_REPORT, mixed_text,
};
use atom_list::Context;
use field_table::Table;
use fixture_graphs::{graph_of, star_text, with_words};
use fixture_tables::table_of;
use graph_report::report;
use graph_runner::run_all;
use graph_text::PARENTS_MAX;
use load_maker::make_load;
use outside::Open;
use par_ranks::run_ranks;
use recorded_graph::STEPS_MAX;
use std::alloc::Global;
use std::process::Abort;
use std::test::Fail;
use std::thread::Threads;

/// Compares lists as bytes.
fn are_alike(
    rt: &impl Abort,
    alloc: Global,
    plain: &[Context],
    ranks: &[Context],
) -> Result<(), Fail> {
    assert_eq!(rt; plain.len(), ranks.len());
    for (number, (one, other)) in plain.iter().zip(ranks).enumerate() {
        let (one, other) = (digits_of(alloc, one)?, digits_of(alloc, other)?);
        assert_eq!(rt; one.as_slice(), other.as_slice(), "step {number}");
    }
    Ok(())
}

/// Runs the graph of a text in both ways and compares the lists and the reports. The lists are
/// those of one of the ways.
fn run_both<R: Abort + Threads + Sync>(
    rt: &R,
    alloc: Global,
    table: &Table,
    text: &str,
    wanted: &str,
) -> Result<Vec<Context>, Fail> {
    let graph = graph_of(alloc, table, text)?;
    let plain = run_all(alloc, table, &graph)?;
    let ranks = run_ranks(rt, alloc, &Open, table, &graph)?;
    assert_eq!(rt; plain.len(), graph.steps());
    assert_eq!(rt; ranks.len(), graph.steps());
    are_alike(rt, alloc, plain.as_slice(), ranks.as_slice())?;
    let one = report(alloc, table, &graph, plain.as_slice())?;
    let other = report(alloc, table, &graph, ranks.as_slice())?;
    assert_eq!(rt; one.as_slice(), wanted.as_bytes());
    assert_eq!(rt; other.as_slice(), wanted.as_bytes());
    Ok(ranks)
}

/// Graphs, each after the bag of its table, with their reports.
static GRAPHS: [(&str, &str, &str); 4] = [
    ("Request", TRACE, TRACE_REPORT),
    ("Nothing", RECEIVED, RECEIVED_REPORT),
    ("Nothing", FORMS, FORMS_REPORT),
    ("Request", "", ""),
];

#[test]
fn graphs_are_run_in_both_ways(rt: HostRuntime) -> Result<(), Fail> {
    let alloc = rt.alloc();
    for &(bag, text, wanted) in &GRAPHS {
        let table = table_of(alloc, DEFINITIONS, bag)?;
        let _lists = run_both(&rt, alloc, &table, text, wanted)?;
    }
    Ok(())
}

#[test]
fn a_load_is_run_in_both_ways(rt: HostRuntime) -> Result<(), Fail> {
    let alloc = rt.alloc();
    let (table, text) = make_load(alloc, 1)?;
    let text = String::from_utf8(text)?;
    let lists = run_both(&rt, alloc, &table, text.as_str(), LOAD_REPORT)?;
    assert_eq!(rt; lists.len(), 43);
    Ok(())
}

#[test]
fn a_long_load_is_run_in_both_ways(rt: HostRuntime) -> Result<(), Fail> {
    let alloc = rt.alloc();
    let (table, text) = make_load(alloc, 100)?;
    let text = String::from_utf8(text)?;
    let graph = graph_of(alloc, &table, text.as_str())?;
    let plain = run_all(alloc, &table, &graph)?;
    let ranks = run_ranks(&rt, alloc, &Open, &table, &graph)?;
    assert_eq!(rt; plain.len(), 4_201);
    are_alike(&rt, alloc, plain.as_slice(), ranks.as_slice())
}

/// Runs a graph of contexts without atoms in both ways.
fn run_empty<R: Abort + Threads + Sync>(
    rt: &R,
    alloc: Global,
    text: &str,
    steps: usize,
) -> Result<(), Fail> {
    let table = table_of(alloc, DEFINITIONS, "Nothing")?;
    let lists = run_both(rt, alloc, &table, text, "")?;
    assert_eq!(rt; lists.len(), steps);
    assert!(rt; lists.iter().all(|list| list.list().is_empty()));
    Ok(())
}

#[test]
fn a_wide_rank_is_run_in_both_ways(rt: HostRuntime) -> Result<(), Fail> {
    let star = star_text(rt.alloc(), 1_000)?;
    run_empty(&rt, rt.alloc(), star.as_str(), 1_001)
}

#[test]
fn a_join_of_the_most_parents_is_run_in_both_ways(rt: HostRuntime) -> Result<(), Fail> {
    let start = "service n none\nstart 0 n\njoin 1";
    let join = with_words(rt.alloc(), start, " 0", PARENTS_MAX)?;
    run_empty(&rt, rt.alloc(), join.as_str(), 2)
}

#[test]
fn mixed_steps_are_run_in_both_ways(rt: HostRuntime) -> Result<(), Fail> {
    let alloc = rt.alloc();
    let table = table_of(alloc, DEFINITIONS, "Nothing")?;
    let mixed = mixed_text(alloc)?;
    let lists = run_both(&rt, alloc, &table, mixed.as_str(), "")?;
    assert_eq!(rt; lists.len(), 400);
    // A join of many parents holds what they received.
    assert_eq!(rt; lists[84].list().len(), 140);
    Ok(())
}

#[test]
fn the_longest_graph_is_run(rt: HostRuntime) -> Result<(), Fail> {
    let alloc = rt.alloc();
    let table = table_of(alloc, DEFINITIONS, "Nothing")?;
    let star = star_text(alloc, STEPS_MAX - 1)?;
    let graph = graph_of(alloc, &table, star.as_str())?;
    assert_eq!(rt; run_all(alloc, &table, &graph)?.len(), STEPS_MAX);
    Ok(())
}

//! The list of a step, from lists that are anywhere in a pool: the same from both calls.

ghost use Rattle.std.specs.Prelude.{◌≡◌, length};
ghost use Rattle.trace_model.specs.Graphs.{IsOfTable};
ghost use Rattle.step_rules.specs.Parents.{AreWithinLists};

use crate::fixtures::{DEFINITIONS, digits_of};
use atom_list::Context;
use field_table::Table;
use fixture_graphs::{contexts_of_bytes, graph_of, with_words};
use fixture_tables::table_of;
use graph_text::{Graph, PARENTS_MAX};
use std::alloc::Global;
use std::process::Abort;
use std::test::Fail;
use std::thread::Threads;
use step_rules::{run_step, run_step_alone};

/// Steps of each kind, at services that know all, nothing and one slot, and at one that writes in
/// form two.
const STEPS: &str = "service a all
service n none
service h only hops
service2 w all
start 0 a
recv 1 a 02f800050000000005050000000006
recv 2 n 02f800050000000005050000000006
set 3 1 id 5
set 4 1 hops \"gw\":2
branch 5 1
branch 6 2
forward 7 2 a
forward 8 2 n
forward 9 2 h
trim 10 2 10
trim 11 2 9
trim 12 2 15
trim 13 2 1
join 14 1 0 1
join 15 2 2
join 16 1
forward 17 2 w
trim 18 17 27
trim 19 17 26
trim 20 17 22
trim 21 17 21
trim 22 17 13
set 23 1 top 3";

/// What steps give: the number of the step, the digits of the pool's lists, the places of the
/// parents' lists, and the digits of the list. An id is 5 bytes, and of two the lesser is
/// preferred; of two counts the greater, and of two tops.
static GIVEN: [(usize, &str, &[usize], &str); 36] = [
    (0, "", &[], "-"),
    (0, "02f80000", &[], "-"),
    (1, "", &[], "02f800050000000005"),
    (2, "", &[], "02f800050000000005050000000006"),
    (3, "-", &[0], "02f800050000000005"),
    (3, "02f800050000000006", &[0], "02f800050000000005"),
    (3, "02f800050000000004", &[0], "02f800050000000004"),
    (3, "02f80000", &[0], "02f80000050000000005"),
    (4, "-", &[0], "02f80203f16777020002"),
    (4, "02f80203f16777020001", &[0], "02f80203f16777020002"),
    (4, "02f80203f16777020003", &[0], "02f80203f16777020003"),
    (
        5,
        "02f800050000000005050000000006",
        &[0],
        "02f800050000000005050000000006",
    ),
    (6, "02f80100 - 02f80200", &[2], "02f80200"),
    (
        7,
        "- 02f800050000000005050000000006",
        &[1],
        "02f800050000000005",
    ),
    (7, "- 02f8050200030300812c", &[1], "02f8050300812c"),
    (
        8,
        "02f800050000000005050000000006 -",
        &[0],
        "02f800050000000005050000000006",
    ),
    (
        9,
        "02f80005000000000505000000000602f80203f16777020001020002",
        &[0],
        "02f80005000000000505000000000602f80203f16777020002",
    ),
    (
        10,
        "02f800050000000005050000000006",
        &[0],
        "02f80005000000000500",
    ),
    (11, "02f800050000000005050000000006", &[0], "02f80000"),
    (
        12,
        "02f800050000000005050000000006",
        &[0],
        "02f800050000000005050000000006",
    ),
    (
        12,
        "02f80005000000000505000000000600",
        &[0],
        "02f80005000000000500",
    ),
    (13, "- 02f800050000000005", &[1], "00"),
    (13, "- 02f800050000000005", &[0], "-"),
    (
        14,
        "02f800050000000006 - 02f80203f16777020001",
        &[0, 1, 2],
        "02f80005000000000602f80203f16777020001",
    ),
    (
        14,
        "02f80203f16777020001 02f800050000000005050000000006",
        &[1, 0, 1],
        "02f80005000000000502f80203f16777020001",
    ),
    (
        15,
        "02f800050000000006 02f800050000000005",
        &[0, 1],
        "02f800050000000005050000000006",
    ),
    (
        16,
        "02f800050000000005050000000006",
        &[0],
        "02f800050000000005",
    ),
    (
        17,
        "02f800050000000005050000000006",
        &[0],
        "02f800050000000005",
    ),
    (
        18,
        "02f800050000000005050000000006",
        &[0],
        "02f800050000000005050000000006",
    ),
    (
        19,
        "02f800050000000005050000000006",
        &[0],
        "02f80005000000000500",
    ),
    (
        20,
        "02f800050000000005050000000006",
        &[0],
        "02f80005000000000500",
    ),
    (21, "02f800050000000005050000000006", &[0], "02f80000"),
    (22, "02f800050000000005", &[0], "00"),
    (23, "-", &[0], "02f805020003"),
    (23, "02f805020002", &[0], "02f805020003"),
    (23, "02f8050300812c", &[0], "02f8050300812c"),
];

/// There are as many places as parents, and all are places of the pool.
fn check_places(rt: &impl Abort, parents: &[usize], pool: &[Context], places: &[usize])
    ensures many { length places.now ≡ length parents.now }
    ensures within { AreWithinLists pool.now places.now }
{
    assert!(rt; places.len() == parents.len());
    for place in places {
        assert!(rt; *place < pool.len());
    }
}

/// Compares the list of a step with its digits.
fn has_digits(
    rt: &impl Abort,
    alloc: Global,
    list: &Context,
    digits: &str,
    step: usize,
) -> Result<(), Fail> {
    let own = digits_of(alloc, list)?;
    assert_eq!(rt; own.as_slice(), digits.as_bytes(), "{step}");
    Ok(())
}

/// Compares what a step gives by both calls.
fn gives<R: Abort + Threads + Sync>(
    rt: &R,
    alloc: Global,
    table: &Table,
    graph: &Graph,
    step: usize,
    pool: &[Context],
    places: &[usize],
    digits: &str,
) -> Result<(), Fail>
    requires { IsOfTable table.now graph.now }
{
    assert!(rt; step < graph.steps());
    let own = graph.step(step);
    let parents = own.act.parents();
    check_places(rt, parents, pool, places);
    let beside = run_step(rt, alloc, table, graph, step, pool, places)?;
    let alone = run_step_alone(alloc, table, graph, step, pool, places)?;
    has_digits(rt, alloc, &beside, digits, step)?;
    has_digits(rt, alloc, &alone, digits, step)
}

#[test]
fn steps_give_lists(rt: HostRuntime) -> Result<(), Fail> {
    let alloc = rt.alloc();
    let table = table_of(alloc, DEFINITIONS, "Request")?;
    let graph = graph_of(alloc, &table, STEPS)?;
    for &(step, pool, places, digits) in &GIVEN {
        let pool = contexts_of_bytes(alloc, pool, ' ')?;
        gives(
            &rt,
            alloc,
            &table,
            &graph,
            step,
            pool.as_slice(),
            places,
            digits,
        )?;
    }
    Ok(())
}

/// A pool for the most parents: its lists, of which the first stands for all parents but the last;
/// and what the join gives.
static MOST: [(&str, &str); 2] = [("- -", "-"), ("02f80100 02f80200", "02f8010002f80200")];

/// The first place for all parents but the last, which has the second.
fn most_places(alloc: Global) -> Result<Vec<usize>, Fail> {
    let mut places = Vec::new(alloc);
    for parent in 0..PARENTS_MAX {
        places.push(if parent + 1 < PARENTS_MAX { 0 } else { 1 })?;
    }
    Ok(places)
}

#[test]
fn the_most_parents_are_joined(rt: HostRuntime) -> Result<(), Fail> {
    let alloc = rt.alloc();
    let table = table_of(alloc, DEFINITIONS, "Nothing")?;
    let start = "service n none\nstart 0 n\njoin 1";
    let text = with_words(alloc, start, " 0", PARENTS_MAX)?;
    let graph = graph_of(alloc, &table, text.as_str())?;
    let places = most_places(alloc)?;
    for &(pool, digits) in &MOST {
        let pool = contexts_of_bytes(alloc, pool, ' ')?;
        gives(
            &rt,
            alloc,
            &table,
            &graph,
            1,
            pool.as_slice(),
            places.as_slice(),
            digits,
        )?;
    }
    Ok(())
}

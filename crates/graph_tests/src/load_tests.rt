//! Loads: how they look, and what the reader of graphs makes of them.

use field_table::Table;
use fixture_graphs::graph_of;
use load_maker::{ROUNDS_MAX, make_load};
use std::alloc::Global;
use std::process::Abort;
use std::test::Fail;
use table_text::print_table;

/// The text of the load of one round.
const ONE_ROUND: &str = r#"service a all
service b none
start 0 a
branch 1 0
set 2 1 least 1000000
set 3 2 hits "w0":1
set 4 3 seen 0
forward 5 4 b
branch 6 0
set 7 6 least 999999
set 8 7 hits "w1":1
set 9 8 seen 1
forward 10 9 b
branch 11 0
set 12 11 least 999998
set 13 12 hits "w2":1
set 14 13 seen 2
forward 15 14 b
branch 16 0
set 17 16 least 999997
set 18 17 hits "w3":1
set 19 18 seen 3
forward 20 19 b
branch 21 0
set 22 21 least 999996
set 23 22 hits "w4":1
set 24 23 seen 4
forward 25 24 b
branch 26 0
set 27 26 least 999995
set 28 27 hits "w5":1
set 29 28 seen 5
forward 30 29 b
branch 31 0
set 32 31 least 999994
set 33 32 hits "w6":1
set 34 33 seen 6
forward 35 34 b
branch 36 0
set 37 36 least 999993
set 38 37 hits "w7":1
set 39 38 seen 7
forward 40 39 b
join 41 5 10 15 20 25 30 35 40
forward 42 41 a
show 42
"#;

/// The text of the table of each load.
const TABLE: &str = "baggage table 1
0 0 least scalar fixed32
0 1 hits counter
0 2 seen set uint32
";

/// Rounds of a load, the bytes and the lines of its text, and the steps of its graph.
type Row = (u32, usize, usize, usize);

static LOADS: [Row; 3] = [
    (1, 798, 46, 43),
    (10, 8551, 424, 421),
    (1000, 1_052_626, 42_004, 42_001),
];

/// Sees that the graph of a text has `steps` steps and shows the last of them.
fn shows_its_last(
    rt: &impl Abort,
    alloc: Global,
    table: &Table,
    text: Vec<u8>,
    steps: usize,
) -> Result<(), Fail> {
    let text = String::from_utf8(text)?;
    let graph = graph_of(alloc, table, text.as_str())?;
    assert_eq!(rt; graph.steps(), steps);
    assert!(rt; 1 <= steps);
    assert_eq!(rt; graph.shows(), [steps - 1].as_slice(), "{steps}");
    Ok(())
}

/// Sees that the load of a row has the table and these sizes, and that its graph shows its last
/// step.
fn holds(rt: &impl Abort, alloc: Global, row: Row) -> Result<(), Fail> {
    let (rounds, bytes, lines, steps) = row;
    assert!(rt; 1 <= rounds && rounds <= ROUNDS_MAX);
    let (table, text) = make_load(alloc, rounds)?;
    assert_eq!(rt; print_table(alloc, &table)?.as_slice(), TABLE.as_bytes());
    assert_eq!(rt; text.len(), bytes, "{rounds}");
    let feeds = text.iter().filter(|byte| **byte == b'\n').count();
    assert_eq!(rt; feeds, lines, "{rounds}");
    assert!(rt; rounds != 1 || text.as_slice() == ONE_ROUND.as_bytes());
    shows_its_last(rt, alloc, &table, text, steps)
}

#[test]
fn loads_have_their_sizes(rt: HostRuntime) -> Result<(), Fail> {
    for row in &LOADS {
        holds(&rt, rt.alloc(), *row)?;
    }
    Ok(())
}

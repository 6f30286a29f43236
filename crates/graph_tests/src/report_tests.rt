//! Reports of lists that aren't those of the graphs' own steps: a report tells what the lists say.

use crate::fixtures::{DEFINITIONS, are_typed};
use field_table::Table;
use fixture_graphs::{contexts_of_bytes, graph_of};
use fixture_tables::table_of;
use graph_report::report;
use report_json::report_json;
use std::alloc::Global;
use std::process::Abort;
use std::test::Fail;

/// A graph, the digits of a list for each step, joined by commas, and the report of the shown steps
/// in its two forms.
struct Row {
    graph: &'static str,
    lists: &'static str,
    report: &'static str,
    json: &'static str,
}

/// Empty lists of steps that write and receive.
static EMPTY: [Row; 2] = [
    Row {
        graph: "service a all
start 0 a
set 1 0 id 7
show 1
",
        lists: "-,-",
        report: "step 1
bytes -
id exact -
tags exact {}
hops exact 0{}
debug exact off
load exact {}
top exact -
",
        json: r#"[{"bytes":"-","fields":[{"path":"id","state":"exact","text":"-"},{"path":"tags","state":"exact","text":"{}"},{"path":"hops","state":"exact","text":"0{}"},{"path":"debug","state":"exact","text":"off"},{"path":"load","state":"exact","text":"{}"},{"path":"top","state":"exact","text":"-"}],"step":1}]"#,
    },
    Row {
        graph: "service a all
start 0 a
set 1 0 id 7
recv 2 a 02f800050000000007
show 1
show 2
",
        lists: "-,-,-",
        report: "step 1
bytes -
id exact -
tags exact {}
hops exact 0{}
debug exact off
load exact {}
top exact -
step 2
bytes -
id exact -
tags exact {}
hops exact 0{}
debug exact off
load exact {}
top exact -
",
        json: r#"[{"bytes":"-","fields":[{"path":"id","state":"exact","text":"-"},{"path":"tags","state":"exact","text":"{}"},{"path":"hops","state":"exact","text":"0{}"},{"path":"debug","state":"exact","text":"off"},{"path":"load","state":"exact","text":"{}"},{"path":"top","state":"exact","text":"-"}],"step":1},{"bytes":"-","fields":[{"path":"id","state":"exact","text":"-"},{"path":"tags","state":"exact","text":"{}"},{"path":"hops","state":"exact","text":"0{}"},{"path":"debug","state":"exact","text":"off"},{"path":"load","state":"exact","text":"{}"},{"path":"top","state":"exact","text":"-"}],"step":2}]"#,
    },
];

/// Sees that a row holds.
fn holds(rt: &impl Abort, alloc: Global, table: &Table, row: &Row) -> Result<(), Fail> {
    let graph = graph_of(alloc, table, row.graph)?;
    let lists = contexts_of_bytes(alloc, row.lists, ',')?;
    assert!(rt; lists.len() == graph.steps() && are_typed(table, lists.as_slice()));
    let text = report(alloc, table, &graph, lists.as_slice())?;
    assert_eq!(rt; text.as_slice(), row.report.as_bytes());
    let json = report_json(alloc, table, &graph, lists.as_slice())?;
    assert_eq!(rt; json.as_slice(), row.json.as_bytes());
    Ok(())
}

#[test]
fn lists_have_their_reports(rt: HostRuntime) -> Result<(), Fail> {
    let alloc = rt.alloc();
    let table = table_of(alloc, DEFINITIONS, "Request")?;
    for row in &EMPTY {
        holds(&rt, alloc, &table, row)?;
    }
    Ok(())
}

//! Texts that say a graph, and texts that say none, with the first fault of each.

use crate::fixtures::{DEFINITIONS, stands};
use field_table::Table;
use fixture_graphs::{graph_of, star_text, with_words};
use fixture_tables::table_of;
use graph_text::{Act, Graph, PARENTS_MAX, read_graph};
use recorded_graph::STEPS_MAX;
use std::alloc::Global;
use std::process::Abort;
use std::test::Fail;
use text_lines::DIGITS_MAX;

/// A line of each form, with comments, an empty line and a carriage return.
const EACH_FORM: &str = "# services
service a all\r
service b none
service c only sub.n seen sub sub.n

start 0 a
set 1 0 id 7
set 2 1 sub.n \"gw\":2
branch 3 2
forward 4 2 b
trim 5 4 4294967295
recv 6 c 02F80102f002020001
recv 7 c -
join 8 0 3 0
show 8
service service only id
start 9 service
show 0
show 8";

/// The services of that text: their names, and which of the four slots they know.
static SERVICES: [(&str, [bool; 4]); 4] = [
    ("a", [true, true, true, true]),
    ("b", [false, false, false, false]),
    ("c", [false, true, true, true]),
    ("service", [true, false, false, false]),
];

/// Its steps: the number of the service where each is, and its parents.
static STEPS: [(usize, &[usize]); 10] = [
    (0, &[]),
    (0, &[0]),
    (0, &[1]),
    (0, &[2]),
    (1, &[2]),
    (1, &[4]),
    (2, &[]),
    (2, &[]),
    (0, &[0, 3, 0]),
    (3, &[]),
];

/// Compares a service with its row.
fn knows(rt: &impl Abort, graph: &Graph, number: usize, name: &str, known: &[bool]) {
    assert!(rt; number < graph.services());
    let service = graph.service(number);
    assert_eq!(rt; service.name.as_str(), name);
    for (slot, knows) in known.iter().enumerate() {
        assert_eq!(rt; service.view.knows(slot), *knows, "{number} {slot}");
    }
}

#[test]
fn services_of_each_form(rt: HostRuntime) -> Result<(), Fail> {
    let table = table_of(rt.alloc(), DEFINITIONS, "Small")?;
    let graph = graph_of(rt.alloc(), &table, EACH_FORM)?;
    assert_eq!(rt; graph.services(), SERVICES.len());
    for (number, (name, known)) in SERVICES.iter().enumerate() {
        knows(&rt, &graph, number, name, known.as_slice());
    }
    Ok(())
}

#[test]
fn steps_of_each_form(rt: HostRuntime) -> Result<(), Fail> {
    let table = table_of(rt.alloc(), DEFINITIONS, "Small")?;
    let graph = graph_of(rt.alloc(), &table, EACH_FORM)?;
    assert_eq!(rt; graph.steps(), STEPS.len());
    assert_eq!(rt; graph.shows(), [8, 0, 8].as_slice());
    for (number, &(service, parents)) in STEPS.iter().enumerate() {
        stands(&rt, &graph, number, service, parents);
    }
    Ok(())
}

/// What its steps do: the slot that is written follows `set`, the budget follows `trim`, and the
/// number of received atoms follows `recv`.
static ACTS: [&str; 10] = [
    "start",
    "set 0",
    "set 2",
    "branch",
    "forward",
    "trim 4294967295",
    "recv 3",
    "recv 0",
    "join",
    "start",
];

/// What a step does, as those rows say it.
fn act_text(alloc: Global, act: &Act) -> Result<String, Fail> {
    Ok(match act {
        Act::Start => String::from_str(alloc, "start")?,
        Act::Recv(context) => format!(in alloc; "recv {}", context.list().len())?,
        Act::Set { slot, .. } => format!(in alloc; "set {slot}")?,
        Act::Branch { .. } => String::from_str(alloc, "branch")?,
        Act::Forward { .. } => String::from_str(alloc, "forward")?,
        Act::Trim { budget, .. } => format!(in alloc; "trim {budget}")?,
        Act::Join { .. } => String::from_str(alloc, "join")?,
    })
}

/// Compares what a step does with its row.
fn does(
    rt: &impl Abort,
    alloc: Global,
    graph: &Graph,
    number: usize,
    told: &str,
) -> Result<(), Fail> {
    assert!(rt; number < graph.steps());
    let act = act_text(alloc, &graph.step(number).act)?;
    assert_eq!(rt; act.as_str(), told, "{number}");
    Ok(())
}

#[test]
fn what_steps_do(rt: HostRuntime) -> Result<(), Fail> {
    let alloc = rt.alloc();
    let table = table_of(alloc, DEFINITIONS, "Small")?;
    let graph = graph_of(alloc, &table, EACH_FORM)?;
    assert_eq!(rt; graph.steps(), ACTS.len());
    for (number, told) in ACTS.iter().enumerate() {
        does(&rt, alloc, &graph, number, told)?;
    }
    Ok(())
}

/// Texts that say little, with the numbers of their services and steps.
static SHORT: [(&str, usize, usize); 3] = [
    ("", 0, 0),
    ("\n# x\n\r\n", 0, 0),
    ("service all all", 1, 0),
];

#[test]
fn texts_that_say_little(rt: HostRuntime) -> Result<(), Fail> {
    let table = table_of(rt.alloc(), DEFINITIONS, "Small")?;
    for &(text, services, steps) in &SHORT {
        let graph = graph_of(rt.alloc(), &table, text)?;
        assert_eq!(rt; graph.services(), services, "{text}");
        assert_eq!(rt; graph.steps(), steps, "{text}");
    }
    Ok(())
}

/// A refused line that ends in a word many times: the code, the line, the word, and how many times.
type LongRow = (&'static str, &'static str, &'static str, usize);

/// The fault of a text as it is printed, where it has one.
fn fault_of(alloc: Global, table: &Table, text: &str) -> Result<Option<String>, Fail> {
    match read_graph(alloc, table, text.as_bytes()) {
        Ok(_) => Ok(None),
        Err(fault) => Ok(Some(format!(in alloc; "{fault:?}")?)),
    }
}

/// The first fault of the text of a row is that of this line, by the rule of this code.
fn has_fault(
    rt: &impl Abort,
    alloc: Global,
    table: &Table,
    text: &str,
    line: usize,
    code: &str,
    row: &str,
) -> Result<(), Fail> {
    let wanted = format!(in alloc; "At {{ line: {line}, code: {code} }}")?;
    let fault = fault_of(alloc, table, text)?;
    assert_eq!(rt; fault.as_deref(), Some(wanted.as_str()), "{row}");
    Ok(())
}

/// Compares the faults of texts that go on after the prefix with a line of each row.
fn are_refused(
    rt: &impl Abort,
    alloc: Global,
    prefix: &str,
    number: usize,
    rows: &[LongRow],
) -> Result<(), Fail> {
    let table = table_of(alloc, DEFINITIONS, "Small")?;
    for &(code, line, word, times) in rows {
        let start = format!(in alloc; "{prefix}{line}")?;
        let text = with_words(alloc, start.as_str(), word, times)?;
        has_fault(rt, alloc, &table, text.as_str(), number, code, line)?;
    }
    Ok(())
}

/// Refused lines after as many steps as there may be: rules that come before that of the number of
/// steps.
static BEFORE_ROOM: [LongRow; 5] = [
    ("NoSuchService", "start 100000 z", "", 0),
    ("NoSuchService", "forward 100000 0 z", "", 0),
    ("NoSuchStep", "branch 100000 100000", "", 0),
    ("BadValue", "set 100000 0 id x", "", 0),
    ("BudgetRange", "trim 100000 0 0", "", 0),
];

/// And rules that come after it.
static AFTER_ROOM: [LongRow; 3] = [
    ("TooManySteps", "recv 100000 a 0", "", 0),
    ("TooManySteps", "join 100000", " 0", PARENTS_MAX + 1),
    ("TooManySteps", "recv 100000 a ", "0", DIGITS_MAX + 1),
];

#[test]
fn steps_after_the_most_with_other_faults(rt: HostRuntime) -> Result<(), Fail> {
    let text = star_text(rt.alloc(), STEPS_MAX - 1)?;
    are_refused(&rt, rt.alloc(), text.as_str(), STEPS_MAX + 2, &BEFORE_ROOM)
}

#[test]
fn steps_after_the_most(rt: HostRuntime) -> Result<(), Fail> {
    let text = star_text(rt.alloc(), STEPS_MAX - 1)?;
    are_refused(&rt, rt.alloc(), text.as_str(), STEPS_MAX + 2, &AFTER_ROOM)
}

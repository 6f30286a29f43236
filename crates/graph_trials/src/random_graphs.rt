//! Random graphs, each shown step against plain values that are joined over the steps that reach
//! it.

use fixture_program::output_of;
use random_bags::Dice;
use std::alloc::Global;
use std::fmt::Write;
use std::process::Abort;
use std::test::Fail;
use std::thread::Threads;

/// What tags, writers and keys are called.
static NAMES: [&str; 3] = ["a", "b", "c"];

/// The same as writers and as keys are printed.
static WRITERS: [&str; 3] = ["0x61", "0x62", "0x63"];

static QUOTED: [&str; 3] = ["\"a\"", "\"b\"", "\"c\""];

/// The words of a run under a definition that has all fields.
const RUN: &str = "run wide.bdl Req";

/// The services: the first word of its line, what each is called, and what its line says that it
/// knows.
static SERVICES: [(&str, &str, &str); 4] = [
    ("service", "knows", "all"),
    ("service", "some", "only tags hops"),
    ("service", "proxy", "none"),
    ("service2", "wide", "all"),
];

/// What a bag says, as plainly as can be: a place for each name.
#[derive(Clone, Copy)]
struct Said {
    id: Option<usize>,
    tags: [bool; 3],
    hops: [Option<usize>; 3],
    debug: bool,
    load: [Option<usize>; 3],
    peak: Option<usize>,
}

/// The bag that says nothing.
const NOTHING: Said = Said {
    id: None,
    tags: [false; 3],
    hops: [None; 3],
    debug: false,
    load: [None; 3],
    peak: None,
};

/// The lesser of two numbers, where there are any.
fn least(one: Option<usize>, other: Option<usize>) -> Option<usize> {
    match (one, other) {
        (Some(one), Some(other)) => Some(one.min(other)),
        (Some(one), None) => Some(one),
        (None, other) => other,
    }
}

/// The greater of two numbers, where there are any.
fn greatest(one: Option<usize>, other: Option<usize>) -> Option<usize> {
    match (one, other) {
        (Some(one), Some(other)) => Some(one.max(other)),
        (Some(one), None) => Some(one),
        (None, other) => other,
    }
}

impl Said {
    /// What both say together.
    fn join(&self, other: &Said) -> Said {
        let mut joined = *self;
        joined.id = least(self.id, other.id);
        joined.peak = greatest(self.peak, other.peak);
        joined.debug = self.debug || other.debug;
        for at in 0..3 {
            joined.tags[at] = self.tags[at] || other.tags[at];
            joined.hops[at] = greatest(self.hops[at], other.hops[at]);
            joined.load[at] = least(self.load[at], other.load[at]);
        }
        joined
    }
}

/// A step: its service's place, and what all writes and received contexts that reach it say.
#[derive(Clone, Copy)]
struct Step {
    service: usize,
    said: Said,
}

/// A graph in the making.
#[derive(Drop)]
struct Graph {
    text: String,
    steps: Vec<Step>,
}

/// A context that is received, by its digits, and what it says. Some have fields that no table
/// names.
fn received(at: usize) -> (&'static str, Said) {
    let mut said = NOTHING;
    let digits = match at {
        0 => "-",
        1 => "02f80902004102f80a02f100",
        2 => {
            said.id = Some(7);
            "02f800050000000007050000000009"
        }
        3 => {
            said.tags = [true, true, false];
            "02f801020061020062"
        }
        4 => {
            said.peak = Some(8);
            "ffffff02000000000000000902f805020003020008"
        }
        _ => {
            said.hops = [None, Some(4), None];
            said.load = [None, None, Some(5)];
            "02f80202f16202000302000402f80402f163020005"
        }
    };
    (digits, said)
}

impl Graph {
    /// The lines of the services, and a first step at the one that knows all.
    fn new(alloc: Global) -> Result<Graph, Fail> {
        let mut text = String::new(alloc);
        for (word, name, view) in &SERVICES {
            writeln!(text, "{word} {name} {view}")?;
        }
        let mut graph = Graph {
            text,
            steps: Vec::new(alloc),
        };
        graph.add("start", "knows", 0, NOTHING)?;
        Ok(graph)
    }

    /// A step, with its number.
    fn random_step(&self, dice: &mut Dice) -> (usize, Step) {
        let number = dice.below(self.steps.len().max(1));
        match self.steps.get(number) {
            Some(step) => (number, *step),
            None => (
                0,
                Step {
                    service: 0,
                    said: NOTHING,
                },
            ),
        }
    }

    /// Adds a step: the first word of its line, what follows its number, and what it is.
    fn add(&mut self, word: &str, rest: &str, service: usize, said: Said) -> Result<(), Fail> {
        let alloc = *self.text.allocator();
        writeln!(self.text, "{word} {} {rest}", self.steps.len())?;
        self.steps.push(Step { service, said })?;
        Ok(())
    }
}

/// What is written, as the path and the value that follow a parent's number, and what it says.
/// Services that know some fields know the first two kinds alone.
fn random_write(alloc: Global, dice: &mut Dice, knows_all: bool) -> Result<(String, Said), Fail> {
    let at = dice.below(3);
    let number = dice.below(9);
    let name = NAMES[at];
    let mut said = NOTHING;
    let text = match dice.below(if knows_all { 6 } else { 2 }) {
        0 => {
            said.tags[at] = true;
            format!(in alloc; "tags \"{name}\"")?
        }
        1 => {
            said.hops[at] = Some(number);
            format!(in alloc; "hops \"{name}\":{number}")?
        }
        2 => {
            said.id = Some(number);
            format!(in alloc; "id {number}")?
        }
        3 => {
            said.load[at] = Some(number);
            format!(in alloc; "load \"{name}\":{number}")?
        }
        4 => {
            said.peak = Some(number);
            format!(in alloc; "peak {number}")?
        }
        _ => {
            said.debug = true;
            String::from_str(alloc, "debug on")?
        }
    };
    Ok((text, said))
}

/// Adds a join of up to four steps that are at the service of the first.
fn add_join(graph: &mut Graph, alloc: Global, dice: &mut Dice) -> Result<(), Fail> {
    let mut parents = String::new(alloc);
    let mut said = NOTHING;
    let mut service = None;
    for _ in 0..4 {
        let (parent, step) = graph.random_step(dice);
        if service.is_none() || service == Some(step.service) {
            service = Some(step.service);
            said = said.join(&step.said);
            write!(parents, " {parent}")?;
        }
    }
    graph.add("join", parents.trim_start(), service.unwrap_or(0), said)
}

/// Adds a step of any kind, a trim only where that is asked for.
fn add_step(graph: &mut Graph, alloc: Global, dice: &mut Dice, trims: bool) -> Result<(), Fail> {
    let (parent, Step { service, said }) = graph.random_step(dice);
    match dice.below(if trims { 8 } else { 7 }) {
        0 => {
            let (digits, said) = received(dice.below(6));
            let service = dice.below(4);
            let rest = format!(in alloc; "{} {digits}", SERVICES[service].1)?;
            graph.add("recv", rest.as_str(), service, said)
        }
        1 => graph.add(
            "branch",
            format!(in alloc; "{parent}")?.as_str(),
            service,
            said,
        ),
        2 => {
            let service = dice.below(4);
            let rest = format!(in alloc; "{parent} {}", SERVICES[service].1)?;
            graph.add("forward", rest.as_str(), service, said)
        }
        3 | 4 if service != 2 => {
            let (text, written) = random_write(alloc, dice, service != 1)?;
            let rest = format!(in alloc; "{parent} {text}")?;
            graph.add("set", rest.as_str(), service, said.join(&written))
        }
        7 => {
            let least = if service == 3 { 13 } else { 1 };
            let rest = format!(in alloc; "{parent} {}", least + dice.below(40))?;
            graph.add("trim", rest.as_str(), service, said)
        }
        _ => add_join(graph, alloc, dice),
    }
}

/// The entries of a value's text, between its braces.
fn entries(text: &str) -> &str {
    match text.split_once('{') {
        Some((_, rest)) => rest.strip_suffix('}').unwrap_or(rest),
        None => "",
    }
}

/// What follows this key in an entry, if there is one with it.
fn text_at<'a>(text: &'a str, key: &str) -> Option<&'a str> {
    for entry in entries(text).split(',') {
        if let Some((found, value)) = entry.split_once(':') {
            if found == key {
                return Some(value);
            }
        }
    }
    None
}

/// The number of an entry with this key, if it is there.
fn number_at(text: &str, key: &str) -> Option<usize> {
    match text_at(text, key) {
        Some(number) => number.parse().ok(),
        None => None,
    }
}

/// What the value text of a slot says.
fn said_by(text: &str, slot: usize) -> Said {
    let mut said = NOTHING;
    match slot {
        0 => said.id = text.parse().ok(),
        3 => said.debug = text == "on",
        5 => said.peak = text.parse().ok(),
        _ => {}
    }
    for at in 0..3 {
        match slot {
            1 => said.tags[at] = entries(text).split(',').any(|entry| entry == QUOTED[at]),
            2 => said.hops[at] = number_at(text, WRITERS[at]),
            4 => said.load[at] = number_at(text, QUOTED[at]),
            _ => {}
        }
    }
    said
}

/// The text of a number, a dash where there is none.
fn number_text(alloc: Global, number: Option<usize>) -> Result<String, Fail> {
    match number {
        Some(number) => Ok(format!(in alloc; "{number}")?),
        None => Ok(String::from_str(alloc, "-")?),
    }
}

/// The text of an entry with its number, where there is one.
fn entry_text(alloc: Global, key: &str, number: Option<usize>) -> Result<String, Fail> {
    match number {
        Some(number) => Ok(format!(in alloc; "{key}:{number}")?),
        None => Ok(String::new(alloc)),
    }
}

/// Braces around the entries of a slot. A name that isn't there has none.
fn entries_text(alloc: Global, said: &Said, slot: usize) -> Result<String, Fail> {
    let mut text = String::from_str(alloc, "{")?;
    for at in 0..3 {
        let entry = match slot {
            1 => String::from_str(alloc, if said.tags[at] { QUOTED[at] } else { "" })?,
            2 => entry_text(alloc, WRITERS[at], said.hops[at])?,
            _ => entry_text(alloc, QUOTED[at], said.load[at])?,
        };
        if text.len() > 1 && !entry.is_empty() {
            text.push(',')?;
        }
        text.push_str(entry.as_str())?;
    }
    text.push('}')?;
    Ok(text)
}

/// The value text of a slot.
fn slot_text(alloc: Global, said: &Said, slot: usize) -> Result<String, Fail> {
    let entries = entries_text(alloc, said, slot)?;
    match slot {
        0 => number_text(alloc, said.id),
        5 => number_text(alloc, said.peak),
        2 => {
            let mut total = 0_usize;
            for count in said.hops {
                total = total.saturating_add(count.unwrap_or(0));
            }
            Ok(format!(in alloc; "{total}{entries}")?)
        }
        3 => Ok(String::from_str(alloc, if said.debug { "on" } else { "off" })?),
        _ => Ok(entries),
    }
}

/// Each key in the text of loads is one of the truth, also where its value was cut off.
fn has_true_keys(rt: &impl Abort, text: &str, truth: &Said) {
    for at in 0..3 {
        if text_at(text, QUOTED[at]).is_some() {
            assert!(rt; truth.load[at].is_some(), "{text}");
        }
    }
}

/// Compares the line of a slot with what is true of it: an exact value is the truth, and none says
/// more than the truth.
fn slot_holds<R: Abort>(
    rt: &R,
    alloc: Global,
    line: &str,
    truth: &Said,
    slot: usize,
) -> Result<bool, Fail> {
    let Some((head, text)) = line.split_once("t ").or(line.split_once("l ")) else {
        panic!(rt; "{line} has no state")
    };
    let said = said_by(text, slot);
    let whole = slot_text(alloc, truth, slot)?;
    if slot == 4 {
        has_true_keys(rt, text, truth);
    }
    // A key whose value was cut off is shown with a dash, and says nothing of a number.
    if !text.contains(":-") {
        assert_eq!(rt; slot_text(alloc, &said, slot)?.as_str(), text, "{line}");
    }
    assert_eq!(rt;
        slot_text(alloc, &said.join(truth), slot)?.as_str(),
        whole.as_str(),
        "{line}"
    );
    let is_exact = head.ends_with("exac");
    if is_exact {
        assert_eq!(rt; text, whole.as_str(), "{line}");
    }
    Ok(is_exact)
}

/// A random graph that shows all its steps.
fn random_graph(alloc: Global, dice: &mut Dice, trims: bool) -> Result<Graph, Fail> {
    let mut graph = Graph::new(alloc)?;
    for _ in 0..12 {
        add_step(&mut graph, alloc, dice, trims)?;
    }
    for step in 0..graph.steps.len() {
        writeln!(graph.text, "show {step}")?;
    }
    Ok(graph)
}

/// Runs a random graph and compares each slot with what is true of it. Answers how many values were
/// called exact.
fn graph_holds<R: Abort + Threads + Sync>(
    rt: &R,
    alloc: Global,
    dice: &mut Dice,
    trims: bool,
) -> Result<usize, Fail> {
    let graph = random_graph(alloc, dice, trims)?;
    let report = output_of(rt, alloc, RUN, graph.text.as_str())?;
    let mut exact = 0_usize;
    for (number, line) in report.lines().enumerate() {
        // A block has eight lines, the last six of which are those of the slots.
        let (step, at) = (number / 8, number % 8);
        if at >= 2 && step < graph.steps.len() {
            let is_exact = slot_holds(rt, alloc, line, &graph.steps[step].said, at - 2)?;
            exact = exact.saturating_add(usize::from(is_exact));
        }
    }
    assert_eq!(rt; report.lines().count() % 8, 0);
    assert_eq!(rt; report.lines().count() / 8, graph.steps.len());
    Ok(exact)
}

#[test]
fn random_graphs_show_the_truth(rt: HostRuntime) -> Result<(), Fail> {
    let mut dice = Dice::new(20);
    for _ in 0..200 {
        let exact = graph_holds(&rt, rt.alloc(), &mut dice, false)?;
        assert_eq!(rt; exact, 6 * 13);
    }
    Ok(())
}

#[test]
fn random_trims_show_no_more_than_the_truth(rt: HostRuntime) -> Result<(), Fail> {
    let mut dice = Dice::new(24);
    let mut exact = 0_usize;
    for _ in 0..300 {
        exact = exact.saturating_add(graph_holds(&rt, rt.alloc(), &mut dice, true)?);
    }
    // Some values are whole, and some are cut.
    assert!(rt; 300 * 13 < exact && exact < 300 * 13 * 6);
    Ok(())
}

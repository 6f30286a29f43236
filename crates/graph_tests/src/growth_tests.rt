//! Graphs that grow step by step, and steps that may not follow.

use crate::fixtures::stands;
use atom_list::Context;
use bag_value::Val;
use context_model::Form;
use field_table::View;
use graph_text::{Act, Graph, Places, Service, Step};
use outside::{Memory, Text};
use recorded_graph::STEPS_MAX;
use std::alloc::Global;
use std::process::Abort;
use std::test::Fail;

/// Steps of each kind at two services: the number of the service, what the step does, its parents,
/// and its budget.
static STEPS: [(usize, &str, &[usize], u64); 7] = [
    (0, "start", &[], 0),
    (0, "set", &[0], 0),
    (0, "trim", &[1], 9),
    (1, "forward", &[2], 0),
    (1, "branch", &[3], 0),
    (1, "recv", &[], 0),
    (1, "join", &[5, 4, 5], 0),
];

/// Steps that may follow those, or may not.
static FOLLOWERS: [(usize, &str, &[usize], u64, bool); 15] = [
    (1, "start", &[], 0, true),
    (2, "start", &[], 0, false),
    (2, "recv", &[], 0, false),
    (1, "branch", &[6], 0, true),
    (1, "branch", &[7], 0, false),
    (0, "branch", &[6], 0, false),
    (0, "forward", &[6], 0, true),
    (0, "forward", &[7], 0, false),
    (0, "trim", &[2], 1, true),
    (0, "trim", &[2], 0, false),
    (1, "trim", &[6], 13, true),
    (1, "trim", &[6], 12, false),
    (0, "join", &[0, 2, 1, 0], 0, true),
    (0, "join", &[], 0, false),
    (0, "join", &[0, 3, 0], 0, false),
];

/// The numbers in order.
fn places(alloc: Global, numbers: &[usize]) -> Result<Places, Memory> {
    let mut places = Places::new(alloc);
    for number in numbers {
        places.push(*number)?;
    }
    Ok(places)
}

/// The step of a row.
fn step(
    alloc: Global,
    service: usize,
    word: &str,
    parents: &[usize],
    budget: u64,
) -> Result<Step, Memory> {
    let parent = parents.first().copied().unwrap_or(0);
    let act = match word {
        "start" => Act::Start,
        "recv" => Act::Recv(Context::empty(alloc)),
        "set" => Act::Set {
            parent,
            slot: 0,
            write: Val::Taint(true),
        },
        "branch" => Act::Branch { parent },
        "forward" => Act::Forward { parent },
        "trim" => Act::Trim { parent, budget },
        _ => Act::Join {
            parents: places(alloc, parents)?,
        },
    };
    Ok(Step { service, act })
}

/// Adds two services, which write in different forms.
fn add_services(alloc: Global, graph: &mut Graph) -> Result<(), Memory> {
    let name = Text::of(alloc, "c")?;
    let (form, view) = (Form::One, View::All);
    graph.add_service(Service { name, form, view })?;
    let name = Text::of(alloc, "d")?;
    let (form, view) = (Form::Two, View::Nothing);
    graph.add_service(Service { name, form, view })
}

/// Adds a step that may follow.
fn add(rt: &impl Abort, graph: &mut Graph, step: Step) -> Result<(), Memory> {
    assert!(rt; graph.steps() < STEPS_MAX && graph.may_follow(&step));
    graph.add_step(step)
}

/// A graph of two services with the steps of the rows, two of which are shown.
fn seven_steps(rt: &impl Abort, alloc: Global) -> Result<Graph, Memory> {
    let mut graph = Graph::new(alloc);
    add_services(alloc, &mut graph)?;
    for &(service, word, parents, budget) in &STEPS {
        add(rt, &mut graph, step(alloc, service, word, parents, budget)?)?;
    }
    for number in [6, 2] {
        assert!(rt; number < graph.steps());
        graph.add_show(number)?;
    }
    Ok(graph)
}

#[test]
fn graphs_grow_at_their_ends(rt: HostRuntime) -> Result<(), Fail> {
    let graph = seven_steps(&rt, rt.alloc())?;
    assert_eq!(rt; graph.services(), 2);
    assert_eq!(rt; graph.service(1).name.as_str(), "d");
    assert_eq!(rt; graph.service(1).form, Form::Two);
    assert!(rt; matches!(graph.service(0).view, View::All));
    assert_eq!(rt; graph.steps(), 7);
    for (number, &(service, _, parents, _)) in STEPS.iter().enumerate() {
        stands(&rt, &graph, number, service, parents);
    }
    assert_eq!(rt; graph.shows(), [6, 2].as_slice());
    graph.known();
    Ok(())
}

#[test]
fn steps_that_may_not_follow(rt: HostRuntime) -> Result<(), Fail> {
    let graph = seven_steps(&rt, rt.alloc())?;
    for &(service, word, parents, budget, may) in &FOLLOWERS {
        let step = step(rt.alloc(), service, word, parents, budget)?;
        assert_eq!(rt; graph.may_follow(&step), may, "{word} at {service}");
    }
    Ok(())
}

#[test]
fn places_stand_in_order(rt: HostRuntime) -> Result<(), Fail> {
    assert!(rt; places(rt.alloc(), &[])?.is_empty());
    let two = places(rt.alloc(), &[4, 1])?;
    assert_eq!(rt; two.len(), 2);
    assert_eq!(rt; two.get(1), Some(1));
    assert!(rt; two.get(2).is_none());
    assert_eq!(rt; two.as_slice(), [4, 1].as_slice());
    Ok(())
}

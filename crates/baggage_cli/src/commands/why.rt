//! The command `why`: a certificate says why a slot has its value at a step.

ghost use Rattle.std.specs.Prelude.{◌<◌, length, IfOk, IfErr};
ghost use Rattle.bag_model.specs.Slots.{slots_of};
ghost use Rattle.trace_model.specs.Graphs.{IsOfTable};
ghost use Rattle.trace_model.specs.Runs.{IsRun};
ghost use Rattle.baggage_cli.specs.Why.{CertifiesSlot, ExplainsLines, IsNoPlace, IsPlace};
ghost use Rattle.baggage_cli.specs.Outcomes.{outcome_of, OrMemory};
ghost use Rattle.baggage_cli.specs.Scene.{change};
ghost use Rattle.baggage_cli.specs.Tables.{origin_of};
ghost use Rattle.baggage_cli.specs.Work.{ReadsUnder};

use crate::reading::read_input;
use crate::refusals::{InputCode, Refusal};
use crate::tables::{Origin, obtain};
use atom_list::Context;
use bag_scan::{State, state_of};
use field_table::Table;
use graph_text::read_graph;
use outside::{Gate, Library, Source};
use par_ranks::run_ranks;
use recorded_graph::Graph;
use std::alloc::Global;
use std::thread::Threads;

/// What is asked for: the slot with this name path at the step of this number.
#[derive(Clone, Copy, Debug)]
pub struct Place<'a> {
    pub step: u64,
    pub path: &'a str,
}

/// The slot of this place, where it and the step are there.
fn slot_at(table: &Table, graph: &Graph, place: Place<'_>) -> Result<usize, Refusal>
    ensures ok { IfOk result (IsPlace table.now graph.now place.entry.step place.entry.path.now) }
    ensures err { IfErr result
        (IsNoPlace table.now graph.now place.entry.step place.entry.path.now) }
{
    if graph.steps() as u64 <= place.step {
        return Err(Refusal::of_input(InputCode::StepRange));
    }
    match table.find(place.path) {
        Some(slot) => Ok(slot),
        None => Err(Refusal::of_input(InputCode::NoSuchPath)),
    }
}

/// The certificate for a slot at a step of a run. The slot must be ended there.
fn certificate(
    alloc: Global,
    table: &Table,
    graph: &Graph,
    lists: &[Context],
    step: usize,
    slot: usize,
) -> Result<Vec<u8>, Refusal>
    requires table { IsOfTable table.now graph.now }
    requires run { IsRun table.now graph.now lists.now }
    requires step { step < length graph.now.steps }
    requires slot { slot < length (slots_of table.now) }
    ensures { OrMemory (CertifiesSlot table.now graph.now lists.now step slot) (outcome_of result) }
{
    match state_of(table, &lists[step], slot) {
        State::Exact => Ok(write_proof::why(alloc, table, graph, lists, step, slot)?),
        State::Partial => Err(Refusal::of_input(InputCode::Partial)),
    }
}

/// Takes a table from where it comes, then reads the source to its end, and answers the certificate
/// for a place of the graph that its lines say. Where the table is refused the source isn't read.
/// The graph's steps are run only where there are such a step and such a slot, and pass the gate
/// before they are run.
pub(crate) fn why<R: Threads + Sync, G: Gate, L: Library, S: Source>(
    rt: &R,
    alloc: Global,
    gate: &G,
    library: &mut L,
    source: &mut S,
    origin: Origin<'_>,
    place: Place<'_>,
) -> Result<Vec<u8>, Refusal>
    ensures { ReadsUnder (origin_of origin.entry)
        (ExplainsLines place.entry.step place.entry.path.now)
        (change L.files L.faults library.old library.new)
        (change L.asked L.faults library.old library.new)
        (change S.left S.faults source.old source.new) (outcome_of result) }
{
    let table = obtain(alloc, library, origin)?;
    let input = read_input(alloc, source)?;
    let graph = read_graph(alloc, &table, input.as_slice())?;
    let slot = slot_at(&table, &graph, place)?;
    let lists = run_ranks(rt, alloc, gate, &table, &graph)?;
    certificate(
        alloc,
        &table,
        &graph,
        lists.as_slice(),
        place.step as usize,
        slot,
    )
}

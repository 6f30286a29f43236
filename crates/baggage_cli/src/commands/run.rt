//! The commands `run`, `runtable` and `runjson`: a recorded graph is run under a table, and its
//! report is printed.

ghost use Rattle.std.specs.Prelude.{◌≡◌, ◌<◌, ℕ, length, IfOk};
ghost use Rattle.trace_model.specs.Graphs.{IsTypedContext};
ghost use Rattle.trace_model.specs.Runs.{list_at};
ghost use Rattle.baggage_cli.specs.Outcomes.{outcome_of};
ghost use Rattle.baggage_cli.specs.Run.{report_form_of, IsReportAs, RunsLines};
ghost use Rattle.baggage_cli.specs.Scene.{change};
ghost use Rattle.baggage_cli.specs.Tables.{origin_of};
ghost use Rattle.baggage_cli.specs.Work.{ReadsUnder};

use crate::reading::read_input;
use crate::refusals::Refusal;
use crate::tables::{Origin, obtain};
use atom_list::Context;
use field_table::Table;
use graph_report::report;
use graph_text::read_graph;
use outside::{Gate, Library, Memory, Source};
use par_ranks::run_ranks;
use recorded_graph::Graph;
use report_json::report_json;
use std::alloc::Global;
use std::thread::Threads;

/// How a report is printed.
#[derive(Clone, Copy, Debug)]
pub enum ReportForm {
    /// As lines of text.
    Text,
    /// As JSON.
    Json,
}

/// The report of the shown steps of a graph whose steps have these lists.
fn report_as(
    alloc: Global,
    form: ReportForm,
    table: &Table,
    graph: &Graph,
    lists: &[Context],
) -> Result<Vec<u8>, Memory>
    requires as_many { length lists.now ≡ length graph.now.steps }
    requires typed { (n : ℕ) → n < length lists.now
        → IsTypedContext table.now (list_at lists.now n) }
    ensures { IfOk result
        (λ text. IsReportAs (report_form_of form) table.now graph.now lists.now text.items) }
{
    match form {
        ReportForm::Text => report(alloc, table, graph, lists),
        ReportForm::Json => {
            let mut text = report_json(alloc, table, graph, lists)?;
            text.push(b'\n')?;
            Ok(text)
        }
    }
}

/// Takes a table from where it comes, then reads the source to its end, runs the graph that its
/// lines say, and answers the report. Where the table is refused the source isn't read. The graph's
/// steps pass the gate before they are run.
pub(crate) fn run<R: Threads + Sync, G: Gate, L: Library, S: Source>(
    rt: &R,
    alloc: Global,
    gate: &G,
    library: &mut L,
    source: &mut S,
    origin: Origin<'_>,
    form: ReportForm,
) -> Result<Vec<u8>, Refusal>
    ensures { ReadsUnder (origin_of origin.entry) (RunsLines (report_form_of form))
        (change L.files L.faults library.old library.new)
        (change L.asked L.faults library.old library.new)
        (change S.left S.faults source.old source.new) (outcome_of result) }
{
    let table = obtain(alloc, library, origin)?;
    let input = read_input(alloc, source)?;
    let graph = read_graph(alloc, &table, input.as_slice())?;
    let lists = run_ranks(rt, alloc, gate, &table, &graph)?;
    Ok(report_as(alloc, form, &table, &graph, lists.as_slice())?)
}

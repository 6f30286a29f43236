//! The JSON objects of steps.

ghost use Rattle.std.specs.Prelude.{◌<◌, length, IfOk};
ghost use Rattle.trace_model.specs.Graphs.{IsTypedContext};
ghost use Rattle.trace_model.specs.Runs.{list_at};
ghost use Rattle.serde_json.specs.View.{view};
ghost use Rattle.report_json.specs.JsonReports.{IsStepObject};

use atom_list::Context;
use context_json::{digits_of, slots_json};
use field_table::Table;
use outside::Memory;
use recorded_graph::Graph;
use serde_json::{Value, json};
use std::alloc::Global;

/// The object of the step with this number.
pub(crate) fn step_json(
    alloc: Global,
    table: &Table,
    graph: &Graph,
    lists: &[Context],
    number: usize,
) -> Result<Value, Memory>
    requires step { number < length graph.now.steps }
    requires within { number < length lists.now }
    requires typed { IsTypedContext table.now (list_at lists.now number) }
    ensures { IfOk result (λ json. IsStepObject table.now graph.now lists.now number (view json)) }
{
    // The proof learns here that the graph is sound.
    graph.known();
    let form = graph.service(graph.step(number).service).form;
    let context = &lists[number];
    let bytes = digits_of(alloc, form, context)?;
    let fields = slots_json(alloc, table, context)?;
    Ok(json!(in alloc; {"bytes": bytes, "fields": fields, "step": number})?)
}

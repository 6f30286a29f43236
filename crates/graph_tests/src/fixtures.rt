//! What several tests need: definitions, steps that are held to their rows, and whether contexts are
//! typed.

ghost use Rattle.std.specs.Prelude.{ℕ, ◌<◌, length, IsTrue};
ghost use Rattle.trace_model.specs.Graphs.{IsTypedContext};
ghost use Rattle.trace_model.specs.Runs.{list_at};

use atom_list::Context;
use bag_typed::check_typed;
use field_table::Table;
use graph_text::Graph;
use std::process::Abort;

/// A bag with a field of each type, and a small one with a bag inside.
pub const DEFINITIONS: &str = "
bag Request {
  fixed32 id = 0;
  set<string> tags = 1;
  counter hops = 2;
  taint debug = 3;
  map<string, uint32> load = 4;
  greatest<uint32> top = 5;
}
bag Inner { bool ok = 2; counter n = 5; }
bag Small { uint32 id = 0; Inner sub = 1; taint seen = 3; }
";

/// Compares a step with its row.
pub fn stands(rt: &impl Abort, graph: &Graph, number: usize, service: usize, parents: &[usize]) {
    assert!(rt; number < graph.steps());
    let step = graph.step(number);
    assert_eq!(rt; step.service, service, "{number}");
    assert_eq!(rt; step.act.parents(), parents, "{number}");
}

/// Whether each list is typed under the table.
pub fn are_typed(table: &Table, lists: &[Context]) -> bool
    ensures { IsTrue result → (n : ℕ) → n < length lists.now
        → IsTypedContext table.now (list_at lists.now n) }
{
    for context in lists {
        // The proof learns here that the list is well formed.
        let _ = context.list();
        if check_typed(table, context).is_err() {
            return false;
        }
    }
    true
}

//! The children of each step of a graph.

ghost use Rattle.std.specs.Prelude.{◌≡◌, ◌<◌, [], ℕ, length, IfOk, OnOk};
ghost use Rattle.context_model.specs.Orders.{IsIn};
ghost use Rattle.write_proof.specs.ChildRows.{AreAdded, AreRowsTo, child_row_at};

use outside::Memory;
use recorded_graph::{Graph, Places};
use std::alloc::Global;

/// A row without children for each of `steps` steps.
fn empty_rows(alloc: Global, steps: usize) -> Result<Vec<Places>, Memory>
    ensures many { IfOk result (λ rows. length rows.items ≡ steps) }
    ensures empty { IfOk result (λ rows. (w : ℕ) → child_row_at rows.items w ≡ []) }
{
    let mut rows = Vec::with_capacity(alloc, steps)?;
    for _ in 0..steps {
        rows.push(Places::new(alloc))?;
    }
    Ok(rows)
}

/// Adds a child to the rows of its parents.
fn add_child(rows: &mut Vec<Places>, parents: &[usize], child: usize) -> Result<(), Memory>
    requires { (w : ℕ) → IsIn w parents.now → w < length rows.old.items }
    ensures { OnOk result (AreAdded parents.now child rows.old.items rows.new.items) }
{
    for parent in parents {
        rows[*parent].push(child)?;
    }
    Ok(())
}

/// The row of each step: its children. There is a place in some row for each parent that a step
/// names, so to look once through each row takes no longer than to go over the graph.
pub(crate) fn rows_of_children(alloc: Global, graph: &Graph) -> Result<Vec<Places>, Memory>
    ensures { IfOk result (λ rows. AreRowsTo graph.now (length graph.now.steps) rows.items) }
{
    // The proof learns here that parents are before their children.
    graph.known();
    let mut rows = empty_rows(alloc, graph.steps())?;
    for child in 0..graph.steps() {
        add_child(&mut rows, graph.step(child).act.parents(), child)?;
    }
    Ok(rows)
}

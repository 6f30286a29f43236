//! What holds of all graphs, whatever sorts them.

ghost use Rattle.std.specs.Prelude.{ℕ, List};
ghost use Rattle.topological_order.specs.Graphs.{EdgeLists, LeadsTo};
ghost use Rattle.topological_order.specs.Orders.{IsOrder};

/// Where there is an order, no node reaches itself.
pub fn orders_exclude_cycles()
    ensures { (graph : EdgeLists) (order : List ℕ) (node : ℕ) → IsOrder graph order
        → LeadsTo graph node node → ⊥ }
{}

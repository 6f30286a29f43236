//! The law of loads, the contract of a function that does nothing.

ghost use Rattle.std.specs.Prelude.{◌≡◌, ℕ, ◌+◌, ◌*◌, ◌≤◌, [], ◌∷◌, length};
ghost use Rattle.trace_model.specs.Graphs.{Graph};
ghost use Rattle.graph_lines.specs.declared.TheConstants.{ROUNDS_MAX};
ghost use Rattle.graph_text.specs.Reading.{IsGraphOf};
ghost use Rattle.load_maker.specs.Loads.{load_table, load_text};

/// The text of a load says a graph under its table, with one step more than 42 for each round, of
/// which the last is shown.
pub fn loads_are_accepted()
    ensures { (n : ℕ) → 1 ≤ n → n ≤ ROUNDS_MAX
        → (graph : Graph) × IsGraphOf load_table (load_text n) graph
        × (length graph.steps ≡ 42 * n + 1) × (graph.shows ≡ 42 * n ∷ []) }
{}

//! Laws of graphs, each the contract of a function that does nothing.

ghost use Rattle.recorded_graph.specs.Graphs.{GraphsOfTablesGrow};

/// A graph of a table stays one as it grows by what belongs to the table.
pub fn graphs_of_tables_grow()
    ensures { GraphsOfTablesGrow }
{}

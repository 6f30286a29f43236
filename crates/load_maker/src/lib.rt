//! The generator of a load: a table, and the text of a recorded graph with a given number of
//! rounds, which anyone can make again.
//!
//! ```rust
//! let (table, text) = make_load(alloc, 100)?;               // a graph of 4,201 steps
//! let graph = read_graph(alloc, &table, &text)?;
//! ```
#![tactic(auto)]

pub mod laws;
mod loads;

pub use graph_lines::ROUNDS_MAX;
pub use loads::make_load;

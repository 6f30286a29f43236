//! The report of a run: the blocks of the steps that a graph shows.
//!
//! ```rust
//! let text = report(alloc, &table, &graph, &lists)?;        // a block for each step that the graph shows
//! ```
#![tactic(auto)]

pub mod laws;
mod reports;

pub use reports::report;

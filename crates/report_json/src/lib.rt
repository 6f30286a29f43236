//! The report of a run as JSON, with the same data as its text.
//!
//! ```rust
//! let json = report_json(alloc, &table, &graph, &lists)?;
//! ```
#![tactic(auto)]

pub mod laws;
mod reports;
mod steps;

pub use reports::report_json;

//! Certificates: why a slot has its value at a step of a recorded graph, in lines that can be
//! checked without running a step.
//!
//! ```rust
//! let certificate = why(alloc, &table, &graph, &lists, step, slot)?;
//! match verify(alloc, &table, &graph, &certificate)? {
//!     Verified::Yes => ..                  // what it says is true of the graph
//!     Verified::No { line, code } => ..    // the first rule that it breaks
//! }
//! ```
#![tactic(auto)]

mod belows;
mod certificates;
mod checker;
mod child_rows;
mod contributions;
mod entries;
mod joins;
pub mod laws;
mod line_rules;
mod marks;
mod reaching;
mod reading;
mod together;
mod used;
mod verdicts;
mod whole_rules;

pub use certificates::why;
pub use checker::verify;
pub use verdicts::{Verified, VerifyCode};

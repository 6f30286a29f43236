//! The run of a recorded graph: the lists of all its steps.
//!
//! ```rust
//! let lists = run_all(alloc, &table, &graph)?;              // the context of each step, in order
//! ```
#![tactic(auto)]

mod runs;

pub use runs::{run_all, run_gated, tell_of_run};

//! The rules of steps: the list of a step, from the lists of its parents.
//!
//! ```rust
//! // the contexts of the step's parents are at these places of the pool
//! let context = run_step_alone(alloc, &table, &graph, step, &pool, &places)?;
//! ```
#![tactic(auto)]

mod acts;
mod parents;
mod steps;

pub use steps::{run_step, run_step_alone, run_step_by};

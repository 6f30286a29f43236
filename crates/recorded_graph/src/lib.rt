//! Recorded graphs of steps: who is at which service, and what was done there, step by step.
//!
//! A [`Graph`] is sound by its type: a step is added only where [`Graph::may_follow`] says so.
//!
//! ```rust
//! if graph.may_follow(&step) {
//!     graph.add_step(step)?;
//! }
//! ```
#![tactic(auto)]

mod graphs;
pub mod laws;
mod places;
mod sharing;
mod steps;

pub use graphs::{Graph, STEPS_MAX};
pub use places::Places;
pub use steps::{Act, Service, Step};

//! The run of a recorded graph in several threads: steps that don't need each other are run beside
//! one another.
//!
//! ```rust
//! let lists = run_ranks(rt, alloc, &Open, &table, &graph)?; // the same contexts as on one thread
//! ```
#![tactic(auto)]

mod chunks;
mod rows;
mod runs;
mod steps;
mod turns;

pub use runs::run_ranks;

//! The step of a service that knows types, from bytes to bytes: it receives or joins contexts, sets
//! fields, brings all to normal form and cuts it to a budget.
//!
//! ```rust
//! let size = update_into(alloc, Form::One, table, &received, b"hops \"w\":3\n", 512, &mut room)?;
//! channel.send(&room[..size]);
//! ```
#![tactic(auto)]

mod inputs;
pub mod laws;
mod lines;
mod refusals;
mod updates;

pub use refusals::{StepRefusal, WriteCode};
pub use updates::{update, update_into, update_under};

//! What a context says as a JSON object, with the same data as its block.
//!
//! ```rust
//! let json = context_json(alloc, &table, Form::One, &context)?;   // the bytes, and an object for each slot
//! ```
#![tactic(auto)]

pub mod laws;
mod objects;

pub use objects::{context_json, digits_of, slots_json};

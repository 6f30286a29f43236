//! Checks that the atoms of a context are spelled as the types of the fields of a table say.
//!
//! ```rust
//! check_typed(&table, &context).map_err(|place| ..)?;       // the first atom that isn't spelled as its type says
//! ```
#![tactic(auto)]

mod payloads;
mod walk;

pub use walk::{check_slot, check_typed};

//! Calls on single fields, for programs that hold a printed table and contexts as bytes: a field is
//! found by its name, and its value is read and written as text.
//!
//! ```rust
//! let size = write_field_into(alloc, Form::One, table, b"zone", b"\"north\"", &mut room)?;
//! channel.send(&room[..size]);
//! let (state, size) = read_field_into(alloc, table, &received, b"zone", &mut room)?;   // State::Exact, if that is all
//! ```
#![tactic(auto)]

mod fields;
mod reading;
mod refusals;
mod writing;

pub use bag_scan::State;
pub use reading::{read_field_into, read_field_under};
pub use refusals::FieldRefusal;
pub use writing::{write_field_into, write_field_under};

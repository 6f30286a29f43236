//! Writes of typed values as texts: a write is what a text says to put into a field, one value of
//! the field's shape.
//!
//! ```rust
//! let value = read_write(alloc, Form::One, &shape, b"\"a\"")?;  // Some(value): the set of one element
//! ```
#![tactic(auto)]

mod ends;
pub mod laws;
mod literals;
mod numbers;
mod strings;
mod writes;

pub use writes::read_write;

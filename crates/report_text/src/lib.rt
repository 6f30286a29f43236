//! Texts of typed values, as reports show them.
//!
//! A block is what a report shows of one context: its bytes, and a line for each slot.
//!
//! ```rust
//! let text = value_text(alloc, &value, &shape)?;            // {"a","b"}
//! let lines = block(alloc, &table, Form::One, &context)?;   // the bytes, and `NAME STATE VALUE` for each slot
//! ```
#![tactic(auto)]

mod blocks;
mod commas;
pub mod laws;
mod scalar_texts;
mod value_texts;

pub use blocks::{block, put_block};
pub use commas::put_comma;
pub use value_texts::{put_value, value_text};

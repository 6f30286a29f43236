//! A table as a text: printed, and read back exactly or with the first fault of its lines.
//!
//! ```rust
//! let text = print_table(alloc, &table)?;                   // "baggage table 1\n0 1 tags set string\n"
//! let table = read_table(alloc, &text)?;
//! ```
#![tactic(auto)]

mod builder;
mod calls;
mod faults;
pub mod laws;
mod names;
mod printing;
mod reading;
mod rows;
mod shapes;
mod words;

pub use calls::TableText;
pub use faults::{TableCode, TableFault};
pub use printing::print_table;
pub use reading::read_table;

/// The most maps that are in one another in a shape that is read.
pub const MAPS_MAX: usize = 32;

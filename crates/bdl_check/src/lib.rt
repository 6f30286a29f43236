//! The table of a bag, from its definition, or the first fault of the definition.
//!
//! ```rust
//! let table = compile(alloc, &mut library, "request.bdl", "Request")?;
//! ```
#![tactic(auto)]

mod checks;
mod compiler;
mod declarations;
mod faults;
mod fields;
pub mod laws;
mod layouts;
mod recursion;
mod sizes;
mod struct_kinds;
mod tables;
mod types;

pub use bdl_load::{DefCode, DefFault, Fault};
pub use compiler::compile;

//! The text of a recorded graph, read line by line under the table of a bag: the graph that it
//! says, or its first fault.
//!
//! ```rust
//! let graph = read_graph(alloc, &table, text)?;             // or the first fault, with its line and code
//! ```
#![tactic(auto)]

mod faults;
pub mod laws;
mod reader;
mod reading;
mod received;
mod steps;
mod views;

pub use faults::{GraphCode, GraphFault, LineFault};
pub use reading::read_graph;
pub use recorded_graph::{Act, Graph, Places, Service, Step};

/// The greatest budget of a trim, in bytes.
pub const BUDGET_MAX: u64 = 4_294_967_295;

/// The most parents of a join.
pub const PARENTS_MAX: usize = 4_096;

//! The lines of a recorded graph: what the words of a line say, before any name is looked up.
//!
//! ```rust
//! let line = read_statement(alloc, b"trim 5 4 64")?;        // Some(Statement::Step { number: 5, act: .. })
//! ```
#![tactic(auto)]

mod acts;
mod laws;
mod numbers;
mod reading;
mod statements;
mod words;

pub use laws::lines_have_one_form;
pub use numbers::{read_number, take_number};
pub use reading::read_statement;
pub use statements::{NamedAct, NamedView, Statement};
pub use words::is_path;

/// The most rounds of a load, the graph whose lines `load_maker` writes: 42 steps a round.
pub const ROUNDS_MAX: u32 = 1_000;

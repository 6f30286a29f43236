//! What the arguments of a command line ask the program for.
//!
//! ```rust
//! let command = command_of(&words);                         // None where the words have no form
//! ```
#![tactic(auto)]

mod commands;

pub use commands::{Command, command_of};

//! Random definitions of bags and random values of them, for the crates of tests.
#![tactic(auto)]

mod definitions;
mod dice;
mod values;

pub use definitions::random_definition;
pub use dice::Dice;
pub use values::random_bag;

//! What a recorded graph of steps means: the list of each step, the truth that its steps wrote and
//! received, and what a list tells of it. The definitions are in specs/; there is no code beside
//! the laws.
#![tactic(auto)]

pub mod laws;

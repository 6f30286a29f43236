//! The texts of values: what a report prints of each, and what the text of a write is read by. The
//! definitions are in specs/; there is no code.
#![tactic(auto)]

//! What the contexts of a request hold, whatever was lost, doubled or late on the way. The
//! definitions are in specs/; there is no code beside the law.
#![tactic(auto)]

pub mod laws;

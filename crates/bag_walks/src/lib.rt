//! What a walk over a context knows: places, the parts of a list between them, and the paths that
//! are there. The definitions are in specs/, and their laws in proofs/. There is no code.
#![tactic(auto)]

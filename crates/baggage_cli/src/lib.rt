//! All that the program does, as one call over objects that stand for its files and streams:
//! `baggage_top`.
//!
//! ```rust
//! let status = baggage_top(&rt, alloc, &gate, &words, &mut library, &mut source, &mut out, &mut errs);
//! ```
#![tactic(auto)]

mod commands;
mod delivery;
mod reading;
mod refusals;
mod tables;
mod top;

pub use delivery::notify;
pub use refusals::Notice;
pub use top::baggage_top;

//! The merge of many contexts of a pool, in several threads where there are many.
//!
//! ```rust
//! let merged = merge_all(rt, alloc, &Open, &pool, &[0, 3, 4])?; // the contexts at places 0, 3 and 4 of the pool
//! ```
#![tactic(auto)]

mod alone;
mod forked;
mod merges;

pub use alone::merge_alone;
pub use forked::merge_all;
pub use merges::{Alone, Beside, Merge};

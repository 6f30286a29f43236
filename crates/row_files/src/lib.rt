//! Row files: texts of items, of which each is some fields, as `vectors/README.md` has them; how
//! their rows are run, and what is reported of them.
//!
//! ```rust
//! let count = run_files(&rt, rt.alloc(), &Driver)?;         // `Driver` runs a row
//! ```
#![tactic(auto)]

mod answers;
mod faults;
mod fields;
mod items;
mod rows;
mod runs;
mod texts;
mod told;

pub use answers::{
    expect_count, expect_counts, expect_digits, expect_fault, expect_fault_at, expect_no_fault,
    expect_whether, expect_word,
};
pub use faults::{Reason, RowFault};
pub use fields::Field;
pub use items::{Item, items_of};
pub use rows::Row;
pub use runs::{RunRow, run_files};
pub use told::{Count, Told};

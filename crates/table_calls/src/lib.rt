//! Calls on whole tables, for programs that hold printed tables and contexts as bytes: a table is
//! checked, a context is reported under it, and it is compared with the one that is to take its
//! place.
//!
//! ```rust
//! let slots = check_table(alloc, table)?;
//! let size = report_into(alloc, ReportForm::Json, table, &received, &mut room)?;
//! match evolve_into(alloc, table, next, &mut room)? {
//!     (Change::Fits, size) => ..     // `ok 5`
//!     (change, size) => ..           // `breaks 4.* Shape`
//! }
//! ```
#![tactic(auto)]

mod evolution;
mod refusals;
mod reports;
mod tables;

pub use evolution::{Change, evolve_into, evolve_under};
pub use refusals::TableRefusal;
pub use reports::{ReportForm, report_into, report_under};
pub use table_text::{TableCode, TableFault};
pub use tables::check_table;

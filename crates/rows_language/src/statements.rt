//! Rows of the lines of graphs.

use crate::answers::{Answer, wanting};
use graph_lines::read_statement;
use row_files::{Row, RowFault};
use std::alloc::Global;

/// What the line of a row says.
pub fn statement(alloc: Global, row: Row<'_>) -> Result<Answer, RowFault> {
    match read_statement(alloc, row.value("line")).map_err(wanting)? {
        Some(statement) => Ok(Answer::Is("says", format!(in alloc; "{statement:?}")?)),
        None => Ok(Answer::Fault(String::from_str(alloc, "Form")?)),
    }
}

//! A row under its definition.

use field_table::Table;
use row_files::{Row, RowFault};
use std::alloc::Global;

/// A row, the table of its bag, and the memory.
#[derive(Clone, Copy)]
pub struct Case<'a> {
    pub alloc: Global,
    pub table: &'a Table,
    pub row: Row<'a>,
}

impl Case<'_> {
    /// Sees that the row has a call, a definition and the fields of these names alone, each once.
    pub fn check_names(&self, names: &[&str]) -> Result<(), RowFault> {
        self.row.check_names(names, &["file"])
    }
}

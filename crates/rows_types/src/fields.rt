//! What the fields of a row say.

use crate::faults::RunFault;
use row_files::{Field, Reason, Row};
use std::alloc::Global;
use text_lines::{HexFault, hex_bytes};

/// The bytes that some digits of a field say; a dash says none.
fn digits_of(alloc: Global, field: &Field<'_>, digits: &[u8]) -> Result<Vec<u8>, RunFault> {
    match hex_bytes(alloc, digits) {
        Ok(bytes) => Ok(bytes),
        Err(HexFault::Memory) => Err(RunFault::Memory),
        Err(_) => Err(RunFault::Row(field.fault(Reason::Word))),
    }
}

/// The bytes that the field of this name says in digits.
pub fn bytes_named(alloc: Global, row: Row<'_>, name: &'static str) -> Result<Vec<u8>, RunFault> {
    let field = row.needed(name)?;
    digits_of(alloc, field, field.value())
}

//! What the fields of a row say.

use byte_calls::Span;
use row_files::{Field, Reason, Row, RowFault};
use std::alloc::Global;
use text_lines::{HexFault, hex_bytes};

/// The bytes that a field says in hexadecimal digits; a dash says none.
fn bytes_of(alloc: Global, field: &Field<'_>) -> Result<Vec<u8>, RowFault> {
    match hex_bytes(alloc, field.value()) {
        Ok(bytes) => Ok(bytes),
        Err(HexFault::Memory) => Err(RowFault::Memory),
        Err(_) => Err(field.fault(Reason::Word)),
    }
}

/// The bytes of each of the row's own fields `input`, in order.
pub fn inputs_of(alloc: Global, row: Row<'_>) -> Result<Vec<Vec<u8>>, RowFault> {
    let mut inputs = Vec::new(alloc);
    for field in row.own {
        if field.name() == "input" {
            inputs.push(bytes_of(alloc, field)?)?;
        }
    }
    Ok(inputs)
}

/// The inputs as the calls take them.
pub fn spans_of(alloc: Global, inputs: &[Vec<u8>]) -> Result<Vec<Span<'_>>, RowFault> {
    let mut spans = Vec::with_capacity(alloc, inputs.len())?;
    for input in inputs {
        spans.push(Span {
            bytes: input.as_slice(),
        })?;
    }
    Ok(spans)
}

/// The numbers of the row's own fields `slot`, in order.
pub fn slots_of(alloc: Global, row: Row<'_>) -> Result<Vec<usize>, RowFault> {
    let mut slots = Vec::new(alloc);
    for field in row.own {
        if field.name() == "slot" {
            slots.push(field.number()? as usize)?;
        }
    }
    Ok(slots)
}

/// The bytes of the field of this name.
pub fn bytes_named(alloc: Global, row: Row<'_>, name: &'static str) -> Result<Vec<u8>, RowFault> {
    bytes_of(alloc, row.needed(name)?)
}

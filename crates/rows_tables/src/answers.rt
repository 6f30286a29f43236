//! What a call answered, against its row.

use row_files::{Row, RowFault, Told};

/// Tells where the row has a fault.
pub fn expect_none(row: Row<'_>, told: &mut Told<'_>) -> Result<(), RowFault> {
    told.expect_bytes("fault", b"", row.value("fault"))?;
    Ok(())
}

/// Tells where this isn't the fault of the row.
pub fn expect_fault(fault: &str, row: Row<'_>, told: &mut Told<'_>) -> Result<(), RowFault> {
    told.expect_bytes("fault", fault.as_bytes(), row.value("fault"))?;
    Ok(())
}

/// Tells where a text isn't that of the row's field of this name.
pub fn expect_text(
    name: &'static str,
    text: &[u8],
    row: Row<'_>,
    told: &mut Told<'_>,
) -> Result<(), RowFault> {
    told.expect_bytes(name, text, row.needed(name)?.value())?;
    Ok(())
}

/// Tells where a number isn't that of the row's field of this name.
pub fn expect_number(
    name: &'static str,
    number: usize,
    row: Row<'_>,
    told: &mut Told<'_>,
) -> Result<(), RowFault> {
    told.expect_number(name, number as u64, row.needed(name)?.number()?)?;
    Ok(())
}

//! What a call answered, against its row.

use outside::Memory;
use row_files::{Row, RowFault, Told};
use std::alloc::Global;
use std::fmt::Display;

/// What a call answered.
#[derive(Drop)]
pub enum Answer {
    /// What there is, as the field of this name has it.
    Is(&'static str, String),
    /// What is wrong, as the field `fault` has it.
    Fault(String),
}

impl Answer {
    /// What is wrong at a place.
    pub fn at<C: Display + Drop>(
        alloc: Global,
        line: u32,
        column: u32,
        code: C,
    ) -> Result<Answer, RowFault> {
        Ok(Answer::Fault(format!(in alloc; "{line}:{column} {code}")?))
    }
}

/// The fault of a row that runs out of memory.
pub fn wanting(_memory: Memory) -> RowFault {
    RowFault::Memory
}

/// Tells where the answer isn't that of the row.
pub fn expect_answer(answer: &Answer, row: Row<'_>, told: &mut Told<'_>) -> Result<(), RowFault> {
    match answer {
        Answer::Is(name, text) => {
            told.expect_bytes("fault", b"", row.value("fault"))?;
            told.expect_bytes(name, text.as_bytes(), row.needed(name)?.value())?;
        }
        Answer::Fault(text) => {
            told.expect_bytes("fault", text.as_bytes(), row.value("fault"))?;
        }
    }
    Ok(())
}

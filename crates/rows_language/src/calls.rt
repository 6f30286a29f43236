//! A row, run.

use crate::answers::{Answer, expect_answer};
use crate::libraries::loaded;
use crate::orders::order;
use crate::sources::{module, tokens};
use crate::statements::statement;
use row_files::{Reason, Row, RowFault, Told};
use std::alloc::Global;

/// What a row calls.
#[derive(Clone, Copy)]
enum Call {
    Tokens,
    Parse,
    Order,
    Load,
    Statement,
}

impl Call {
    /// What the row calls.
    fn of(row: Row<'_>) -> Result<Call, RowFault> {
        let field = row.needed("call")?;
        match field.text()? {
            "tokens" => Ok(Call::Tokens),
            "parse" => Ok(Call::Parse),
            "topological_order" => Ok(Call::Order),
            "load" => Ok(Call::Load),
            "statement" => Ok(Call::Statement),
            _ => Err(field.fault(Reason::Word)),
        }
    }

    /// The names of the fields that such a row may have once.
    fn names(self) -> &'static [&'static str] {
        match self {
            Call::Tokens => &["call", "source", "tokens", "fault"],
            Call::Parse => &["call", "source", "module", "fault"],
            Call::Order => &["call", "edges", "has"],
            Call::Load => &["call", "root", "loaded", "fault", "asked"],
            Call::Statement => &["call", "line", "says", "fault"],
        }
    }

    /// The names of those that may be more than once.
    fn often(self) -> &'static [&'static str] {
        match self {
            Call::Load => &["file", "fail"],
            _ => &[],
        }
    }

    /// Makes the call.
    fn answer(self, alloc: Global, row: Row<'_>, told: &mut Told<'_>) -> Result<Answer, RowFault> {
        match self {
            Call::Tokens => tokens(alloc, row),
            Call::Parse => module(alloc, row),
            Call::Order => order(alloc, row),
            Call::Load => loaded(alloc, row, told),
            Call::Statement => statement(alloc, row),
        }
    }
}

/// Runs a row, and tells what differs.
pub fn run_row(alloc: Global, row: Row<'_>, told: &mut Told<'_>) -> Result<(), RowFault> {
    let call = Call::of(row)?;
    row.check_names(call.names(), call.often())?;
    let answer = call.answer(alloc, row, told)?;
    expect_answer(&answer, row, told)
}

//! Rows of definitions: the table of a bag, or the first fault.

use crate::answers::{expect_fault, expect_none, expect_number, expect_text};
use crate::libraries::{expect_asked, library_of};
use bdl_check::{DefFault, compile};
use field_table::{Shape, Table};
use outside::MemoryLibrary;
use row_files::{Row, RowFault, Told};
use scalar_types::ScalarKind;
use std::alloc::Global;
use table_text::print_table;

/// Makes the call so often on the library as the field `before` says.
fn call_before(
    alloc: Global,
    library: &mut MemoryLibrary,
    root: &str,
    bag: &str,
    row: Row<'_>,
) -> Result<(), RowFault> {
    for _ in 0..row.number_or("before", 0)? {
        let _ = compile(alloc, library, root, bag);
    }
    Ok(())
}

/// How many fields the struct has that a shape holds, and none without a struct.
fn struct_len(shape: &Shape) -> usize {
    match shape {
        Shape::Scalar(ScalarKind::Packed(kinds))
        | Shape::Greatest(ScalarKind::Packed(kinds))
        | Shape::Set(ScalarKind::Packed(kinds)) => kinds.len(),
        Shape::Map(_, value) => struct_len(value),
        _ => 0,
    }
}

/// How many fields the least struct of a slot has.
fn least_struct(table: &Table) -> usize {
    let mut least = usize::MAX;
    for slot in 0..table.slots() {
        least = least.min(struct_len(table.shape(slot)));
    }
    least
}

/// Tells where the table isn't that of the row.
fn expect_table(
    alloc: Global,
    table: &Table,
    row: Row<'_>,
    told: &mut Told<'_>,
) -> Result<(), RowFault> {
    expect_none(row, told)?;
    expect_number("slots", table.slots(), row, told)?;
    if row.has("fields") {
        expect_number("fields", least_struct(table), row, told)?;
    }
    if row.has("table") {
        let text = print_table(alloc, table)?;
        expect_text("table", &text, row, told)?;
    }
    Ok(())
}

/// Tells where the fault of a definition isn't that of the row.
fn expect_refused(
    alloc: Global,
    fault: &DefFault,
    row: Row<'_>,
    told: &mut Told<'_>,
) -> Result<(), RowFault> {
    match fault {
        DefFault::At {
            file,
            line,
            column,
            code,
        } => {
            let text = format!(in alloc; "{} {line}:{column} {code}", file.as_str())?;
            expect_fault(text.as_str(), row, told)
        }
        DefFault::Failed => expect_fault("failed", row, told),
        DefFault::Memory => Err(RowFault::Memory),
    }
}

/// Tells where the answer isn't that of the row.
fn expect_compiled(
    alloc: Global,
    answer: Result<Table, DefFault>,
    row: Row<'_>,
    told: &mut Told<'_>,
) -> Result<(), RowFault> {
    match &answer {
        Ok(table) => expect_table(alloc, table, row, told),
        Err(fault) => expect_refused(alloc, fault, row, told),
    }
}

/// Runs a row of `compile`: the table of a bag, or the first fault of its definition.
pub fn run_compile(alloc: Global, row: Row<'_>, told: &mut Told<'_>) -> Result<(), RowFault> {
    let root = row.needed("root")?.text()?;
    let bag = row.needed("bag")?.text()?;
    let mut library = library_of(alloc, row)?;
    call_before(alloc, &mut library, root, bag, row)?;
    expect_compiled(alloc, compile(alloc, &mut library, root, bag), row, told)?;
    expect_asked(alloc, &library, row, told)
}

//! Tables from their texts. The first text that is no table's is reported.

ghost use Rattle.std.specs.Prelude.{IfOk, IfErr};
ghost use Rattle.field_calls.specs.Fields.{IsPrintedTable};
ghost use Rattle.table_calls.specs.Tables.{ChecksTable, IsTableRefusalAt};

use crate::refusals::TableRefusal;
use field_table::Table;
use std::alloc::Global;
use table_text::{TableFault, read_table};

/// How many slots the table has whose text this is, as `table_text::print_table` writes it. Of
/// another text the first bad line is reported.
pub fn check_table(alloc: Global, table: &[u8]) -> Result<usize, TableFault>
    ensures { ChecksTable table.now result }
{
    let table = read_table(alloc, table)?;
    Ok(table.slots())
}

/// The table of the text at this place among the texts, from 0 on.
pub(crate) fn table_at(alloc: Global, which: usize, text: &[u8]) -> Result<Table, TableRefusal>
    ensures read { IfOk result (λ table. IsPrintedTable table text.now) }
    ensures refused { IfErr result (IsTableRefusalAt which text.now) }
{
    match read_table(alloc, text) {
        Ok(table) => Ok(table),
        Err(TableFault::At { line, code }) => Err(TableRefusal::Table { which, line, code }),
        Err(TableFault::Memory) => Err(TableRefusal::Memory),
    }
}

//! The calls of a table by which it is printed and read.

ghost use Rattle.std.specs.Prelude.{◌≡◌, ℕ, List, IfOk, IfErr};
ghost use Rattle.table_text.specs.Reading.{IsTableRefusalOf};

use crate::faults::TableFault;
use crate::printing::print_table;
use crate::reading::read_table;
use field_table::Table;
use outside::Memory;
use std::alloc::Global;

/// A table as a text. Where this trait is in scope, `table.print(alloc)` is [`print_table`], and
/// `Table::read(alloc, text)` is [`read_table`].
pub trait TableText: Sized {
    ghost text_of: { Self → List ℕ };

    /// The text of the table: its first line, and a line for each field.
    fn print(&self, alloc: Global) -> Result<Vec<u8>, Memory>
        ensures { IfOk result (λ text. text.items ≡ text_of self.now) };

    /// The table that a text is that of, or what is wrong with its first bad line.
    fn read(alloc: Global, text: &[u8]) -> Result<Self, TableFault>
        ensures ok { IfOk result (λ table. text.now ≡ text_of table) }
        ensures err { IfErr result (IsTableRefusalOf text.now) };
}

impl TableText for Table {
    ghost use Rattle.table_text.specs.TableTexts.{table_text};

    ghost text_of = { table_text };

    fn print(&self, alloc: Global) -> Result<Vec<u8>, Memory> {
        print_table(alloc, self)
    }

    fn read(alloc: Global, text: &[u8]) -> Result<Table, TableFault> {
        read_table(alloc, text)
    }
}

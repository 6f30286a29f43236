//! Tables read.

ghost use Rattle.std.specs.Prelude.{◌≡◌, ◌≢◌, ◌<◌, ◌++◌, [], ◌∷◌, ℕ, List, length, reverse, IfOk, IfErr, IfSome, MatchOption, OnOk};
ghost use Rattle.text_lines.specs.Readings.{AllSay};
ghost use Rattle.table_text.specs.Rows.{Row as SaidRow};
ghost use Rattle.table_text.specs.Rules.{IsGoodRow, field_lines};
ghost use Rattle.table_text.specs.Builder.{IsSoundBuilder, IsFresh, rows_so_far};
ghost use Rattle.table_text.specs.Reading.{head_line, lines_behind, IsHeadFault, IsTableRefusalOf, IsRefusalBehind};
ghost use Rattle.table_text.specs.TableRows.{rows_of};
ghost use Rattle.table_text.specs.TableTexts.{table_text};
ghost use Rattle.table_text.specs.Views.{IsRefusedRowLine};

use crate::builder::Builder;
use crate::faults::{TableCode, TableFault};
use crate::rows::read_row;
use field_table::Table;
use outside::OrMemory;
use std::alloc::Global;
use text_lines::cut_fed_line;

/// What is wrong with the first line of a text that doesn't begin with that of a table.
fn head_code(text: &[u8]) -> TableCode
    requires { (rest : List ℕ) → text.now ≢ head_line ++ 10 ∷ rest }
    ensures { IsHeadFault text.now result }
{
    if text == b"baggage table 1".as_slice() {
        TableCode::Form
    } else {
        TableCode::Head
    }
}

impl<'a> Builder<'a> {
    /// Adds the field that the next line says.
    fn read_line(&mut self, alloc: Global, line: &'a [u8]) -> Result<(), OrMemory<TableCode>>
        requires sound { IsSoundBuilder self.old }
        requires fresh { IsFresh self.old }
        ensures rows { OnOk result
            ((row : SaidRow) × IsGoodRow (reverse (rows_so_far self.old)) line.now row
            × (rows_so_far self.new ≡ rows_so_far self.old ++ row ∷ [])) }
        ensures sound { OnOk result (IsSoundBuilder self.new) }
        ensures fresh { OnOk result (IsFresh self.new) }
        ensures err { IfErr result (IsRefusedRowLine (reverse (rows_so_far self.old)) line.now) }
    {
        let row = read_row(alloc, line)?;
        self.add(alloc, row)
    }
}

/// The table of the fields that the lines after the first say.
fn read_lines(alloc: Global, text: &[u8]) -> Result<Table, TableFault>
    ensures ok { IfOk result
        (λ table. AllSay field_lines [] (lines_behind text.now) (rows_of 0 table)) }
    ensures err { IfErr result (IsRefusalBehind text.now) }
{
    let mut builder = Builder::new(alloc);
    let mut rest = text;
    let mut number = 2;
    while let Some((line, behind)) = cut_fed_line(rest) {
        match builder.read_line(alloc, line) {
            Ok(()) => {}
            Err(refusal) => return Err(TableFault::of_line(number, refusal)),
        }
        rest = behind;
        number += 1;
    }
    Ok(builder.into_table()?)
}

/// The table that a text is that of, or what is wrong with its first bad line.
///
/// Exactly the texts that [`crate::print_table`] writes are read: each line ends with a line feed,
/// no line is skipped, and no carriage return is dropped. See `docs/FORMATS.md` for the form of a
/// line and the rules in their order.
pub fn read_table(alloc: Global, text: &[u8]) -> Result<Table, TableFault>
    ensures ok { IfOk result (λ table. text.now ≡ table_text table) }
    ensures err { IfErr result (IsTableRefusalOf text.now) }
{
    let Some(rest) = text.strip_prefix(b"baggage table 1\n") else {
        return Err(TableFault::At {
            line: 1,
            code: head_code(text),
        });
    };
    read_lines(alloc, rest)
}

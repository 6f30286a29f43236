//! Tables, taken from where they come.

ghost use Rattle.std.specs.Prelude.{◌≡◌, ◌⊎◌, ◌≤◌, ℕ, Some, Err, length, IfOk};
ghost use Rattle.bdl_lexer.specs.declared.TheConstants.{SOURCE_MAX};
ghost use Rattle.baggage_cli.specs.Scene.{change};
ghost use Rattle.baggage_cli.specs.Outcomes.{outcome_of, OrMemory};
ghost use Rattle.baggage_cli.specs.Tables.{Brings, FileGives, PrintedGives, Obtains, origin_of, printed};

use crate::refusals::{Notice, Refusal};
use bdl_check::{DefCode, compile};
use bdl_lexer::SOURCE_MAX;
use field_table::Table;
use outside::{Library, LibraryFault, Memory, Text};
use std::alloc::Global;
use table_text::{TableFault, read_table};

/// Where a table comes from.
#[derive(Clone, Copy, Debug)]
pub enum Origin<'a> {
    /// It is that of a bag of the definition whose root is this file.
    Bag { file: &'a str, bag: &'a str },
    /// It is the one whose text this file holds.
    Printed { file: &'a str },
}

/// The refusal of a file as a whole.
fn refused_file(alloc: Global, file: &str, code: DefCode) -> Result<Refusal, Memory>
    ensures { IfOk result (λ refusal. refusal ≡ Refusal.Definition file.now 1 1 code) }
{
    let file = Text::of(alloc, file)?;
    Ok(Refusal::Definition {
        file,
        line: 1,
        column: 1,
        code,
    })
}

/// All that was fetched of a file, unless that is too long.
fn whole_file(alloc: Global, file: &str, text: Vec<u8>) -> Result<Vec<u8>, Refusal>
    ensures { OrMemory (FileGives file.now (Some text.items)) (outcome_of result) }
{
    if SOURCE_MAX < text.len() {
        return Err(refused_file(alloc, file, DefCode::DefTooLong)?);
    }
    Ok(text)
}

/// All that the file of this name holds. A file that isn't there or is too long is refused as a
/// definition of that name is.
pub(crate) fn bring<L: Library>(
    alloc: Global,
    library: &mut L,
    file: &str,
) -> Result<Vec<u8>, Refusal>
    ensures { Brings file.now (change L.files L.faults library.old library.new)
        (change L.asked L.faults library.old library.new) (outcome_of result) }
{
    match library.fetch(alloc, file) {
        Ok(Some(text)) => whole_file(alloc, file, text),
        Ok(None) => Err(refused_file(alloc, file, DefCode::NoFile)?),
        Err(LibraryFault::Failed) => Err(Refusal::Plain(Notice::LibraryFailed)),
        Err(LibraryFault::Memory) => Err(Refusal::Plain(Notice::Memory)),
    }
}

/// The table whose text the file of this name holds.
fn table_in(alloc: Global, file: &str, text: &[u8]) -> Result<Table, Refusal>
    requires { length text.now ≤ SOURCE_MAX }
    ensures { (result ≡ Err (Refusal.Plain Notice.Memory))
        ⊎ PrintedGives file.now (Some text.now) result }
{
    match read_table(alloc, text) {
        Ok(table) => {
            // The proof learns here that it is a table.
            let _ = table.nodes();
            Ok(table)
        }
        Err(TableFault::At { line, code }) => {
            let file = Text::of(alloc, file)?;
            Err(Refusal::Table { file, line, code })
        }
        Err(TableFault::Memory) => Err(Refusal::Plain(Notice::Memory)),
    }
}

/// The table whose text this file of the library holds.
fn read_printed<L: Library>(alloc: Global, library: &mut L, file: &str) -> Result<Table, Refusal>
    ensures { Obtains (printed file.now) (change L.files L.faults library.old library.new)
        (change L.asked L.faults library.old library.new) result }
{
    let text = bring(alloc, library, file)?;
    table_in(alloc, file, text.as_slice())
}

/// The table that comes from there, with files of the library.
pub(crate) fn obtain<L: Library>(
    alloc: Global,
    library: &mut L,
    origin: Origin<'_>,
) -> Result<Table, Refusal>
    ensures { Obtains (origin_of origin.entry) (change L.files L.faults library.old library.new)
        (change L.asked L.faults library.old library.new) result }
{
    match origin {
        Origin::Bag { file, bag } => Ok(compile(alloc, library, file, bag)?),
        Origin::Printed { file } => read_printed(alloc, library, file),
    }
}

//! The command `table`: the table of a bag is printed.

ghost use Rattle.table_text.specs.TableTexts.{table_text};
ghost use Rattle.baggage_cli.specs.Outcomes.{outcome_of};
ghost use Rattle.baggage_cli.specs.Scene.{change};
ghost use Rattle.baggage_cli.specs.Tables.{compiled};
ghost use Rattle.baggage_cli.specs.Work.{BuildsText};

use crate::refusals::Refusal;
use crate::tables::{Origin, obtain};
use outside::Library;
use std::alloc::Global;
use table_text::print_table;

/// Takes the table of a bag of the definition whose root is this file, and answers its text.
pub(crate) fn table<L: Library>(
    alloc: Global,
    library: &mut L,
    file: &str,
    bag: &str,
) -> Result<Vec<u8>, Refusal>
    ensures { BuildsText (compiled file.now bag.now) table_text
        (change L.files L.faults library.old library.new)
        (change L.asked L.faults library.old library.new) (outcome_of result) }
{
    let table = obtain(alloc, library, Origin::Bag { file, bag })?;
    Ok(print_table(alloc, &table)?)
}

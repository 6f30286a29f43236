//! The command `check`: the slots of a bag are counted.

ghost use Rattle.std.specs.Prelude.{◌≡◌, length, IfOk};
ghost use Rattle.bag_model.specs.Slots.{slots_of};
ghost use Rattle.baggage_cli.specs.Check as spec;
ghost use Rattle.baggage_cli.specs.Outcomes.{outcome_of};
ghost use Rattle.baggage_cli.specs.Scene.{change};
ghost use Rattle.baggage_cli.specs.Tables.{compiled};
ghost use Rattle.baggage_cli.specs.Work.{BuildsText};

use crate::refusals::Refusal;
use crate::tables::{Origin, obtain};
use outside::{Library, Memory};
use std::alloc::Global;

/// The line that says how many slots a table has.
fn ok_line(alloc: Global, slots: usize) -> Result<Vec<u8>, Memory>
    ensures { IfOk result (λ line. line.items ≡ spec.ok_line slots) }
{
    Ok(format!(in alloc; "ok {slots}\n")?.into_bytes())
}

/// Takes the table of a bag of the definition whose root is this file, and answers how many slots
/// it has.
pub(crate) fn check<L: Library>(
    alloc: Global,
    library: &mut L,
    file: &str,
    bag: &str,
) -> Result<Vec<u8>, Refusal>
    ensures { BuildsText (compiled file.now bag.now)
        (λ table. spec.ok_line (length (slots_of table)))
        (change L.files L.faults library.old library.new)
        (change L.asked L.faults library.old library.new) (outcome_of result) }
{
    let table = obtain(alloc, library, Origin::Bag { file, bag })?;
    Ok(ok_line(alloc, table.slots())?)
}

//! The command `evolve`: a bag's table is compared with the one that a newer definition gives it.

ghost use Rattle.std.specs.Prelude.{◌≡◌, IfOk};
ghost use Rattle.baggage_cli.specs.Evolve as spec;
ghost use Rattle.baggage_cli.specs.Evolve.{IsVerdictLine};
ghost use Rattle.baggage_cli.specs.Outcomes.{outcome_of};
ghost use Rattle.baggage_cli.specs.Scene.{change};
ghost use Rattle.baggage_cli.specs.Tables.{compiled};
ghost use Rattle.baggage_cli.specs.Work.{TakesTwo};

use crate::refusals::Refusal;
use crate::tables::{Origin, obtain};
use def_evolve::Verdict;
use field_table::Table;
use outside::{Library, Memory};
use std::alloc::Global;

/// The line of a verdict.
fn verdict_line(alloc: Global, verdict: &Verdict) -> Result<Vec<u8>, Memory>
    ensures { IfOk result (λ line. line.items ≡ spec.verdict_line verdict.now) }
{
    Ok(format!(in alloc; "{verdict}\n")?.into_bytes())
}

/// The line that says whether a table may take the place of an older one.
fn compared_line(alloc: Global, old: &Table, new: &Table) -> Result<Vec<u8>, Memory>
    ensures { IfOk result (λ line. IsVerdictLine old.now new.now line.items) }
{
    let verdict = def_evolve::evolve(alloc, old, new)?;
    verdict_line(alloc, &verdict)
}

/// Takes the table of the bag of the old definition, then that of the new one, and answers whether
/// the new one may take the place of the old one. Where the old one is refused the library isn't
/// asked for the new one.
pub(crate) fn evolve<L: Library>(
    alloc: Global,
    library: &mut L,
    old: &str,
    new: &str,
    bag: &str,
) -> Result<Vec<u8>, Refusal>
    ensures { TakesTwo (compiled old.now bag.now) (compiled new.now bag.now) IsVerdictLine
        (change L.files L.faults library.old library.new)
        (change L.asked L.faults library.old library.new) (outcome_of result) }
{
    let before = obtain(alloc, library, Origin::Bag { file: old, bag })?;
    let after = obtain(alloc, library, Origin::Bag { file: new, bag })?;
    Ok(compared_line(alloc, &before, &after)?)
}

//! The verdict on two tables.

ghost use Rattle.std.specs.Prelude.{◌≡◌, ℕ, IfOk};
ghost use Rattle.def_evolve.specs.Verdicts.{IsVerdict};
ghost use Rattle.def_evolve.specs.Evolution.{IsSafe};
ghost use Rattle.def_evolve.specs.declared.verdicts.Verdict.TheVariants.{Fits};

use crate::all_breaks::breaks;
use crate::common::common_fields;
use crate::verdicts::Verdict;
use field_table::Table;
use outside::Memory;
use std::alloc::Global;

/// Whether contexts that were written under one table may be read under another.
pub fn evolve(alloc: Global, old: &Table, new: &Table) -> Result<Verdict, Memory>
    ensures verdict { IfOk result (IsVerdict old.now new.now) }
    ensures safe { IfOk result (λ verdict.
        (common : ℕ) → verdict ≡ Fits common → IsSafe old.now new.now) }
{
    let found = breaks(alloc, old, new)?;
    match found.first() {
        Some(first) => {
            let path = first.path(alloc)?;
            Ok(Verdict::Breaks {
                path,
                change: first.change,
            })
        }
        None => Ok(Verdict::Fits {
            common: common_fields(old.nodes(), new.nodes()),
        }),
    }
}

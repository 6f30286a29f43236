//! Steps that are marked by their lines.

ghost use Rattle.std.specs.Prelude.{◌≡◌, ◌↔◌, ◌<◌, ℕ, length, map, IsTrue, IfOk};
ghost use Rattle.context_model.specs.Orders.{IsIn};
ghost use Rattle.write_proof.specs.Marks.{AreMarksOf, IsMarked};
ghost use Rattle.write_proof.specs.Views.{entry_of};
ghost use Rattle.write_proof.specs.WholeRules.{reached, used};

use crate::entries::Entry;
use outside::Memory;
use std::alloc::Global;

/// A mark for each of `steps` steps: whether a line of a step that reaches has it.
pub(crate) fn reached_marks(
    alloc: Global,
    steps: usize,
    entries: &[Entry<'_>],
) -> Result<Vec<bool>, Memory>
    requires { (step : ℕ) → IsIn step (reached (map entry_of entries.now)) → step < steps }
    ensures { IfOk result (λ marks. AreMarksOf marks.items (reached (map entry_of entries.now))) }
{
    let mut marks = vec![in alloc; false; steps]?;
    for entry in entries {
        if let Entry::Reach { step, child: _ } = entry {
            marks[*step as usize] = true;
        }
    }
    Ok(marks)
}

/// Whether a step is marked.
pub(crate) fn is_marked(marks: &[bool], step: usize) -> bool
    ensures { IsTrue result ↔ IsMarked marks.now step }
{
    step < marks.len() && marks[step]
}

/// The steps that the lines of used steps name.
pub(crate) fn named_uses(alloc: Global, entries: &[Entry<'_>]) -> Result<Vec<usize>, Memory>
    ensures { IfOk result (λ steps. steps.items ≡ used (map entry_of entries.now)) }
{
    let mut steps = Vec::new(alloc);
    for entry in entries {
        if let Entry::Uses { step } = entry {
            steps.push(*step as usize)?;
        }
    }
    Ok(steps)
}

//! The pieces that are put together: marks of gaps, and parts of slots.

ghost use Rattle.std.specs.Prelude.{◌≡◌, ℕ, ◌<◌, ◌≤◌, [], ◌∷◌, ◌++◌, length, slice_get, slice_range, Some, IfOk, OnOk};
ghost use Rattle.std.specs.List.{AllByRecursion};
ghost use Rattle.context_model.specs.Ended.{field_path};
ghost use Rattle.context_model.specs.Kinds.{atom_of};
ghost use Rattle.context_model.specs.Kinds.Kind.{Indexed};
ghost use Rattle.bag_model.specs.Slots.{SlotAt, slots_of};
ghost use Rattle.keep_calls.specs.Kept.{next_numbers, gap_mark};
ghost use Rattle.keep_calls.specs.Walk.{slot_before, IsSmall};

use atom_kinds::indexed;
use atom_list::{AtomList, Builder};
use context_model::LEVELS_MAX;
use field_table::Table;
use outside::{ATOM_MAX, Memory};
use std::alloc::Global;

/// Adds an atom at the end, with room for it.
fn push_to(built: &mut Builder, atom: &[u8]) -> Result<(), Memory>
    requires { length atom.now ≤ ATOM_MAX }
    ensures { OnOk result (built.new.atoms ≡ built.old.atoms ++ atom.now ∷ []) }
{
    built.reserve(atom.len() + 3, 1)?;
    built.push(atom);
    Ok(())
}

/// Adds the header of a field.
fn push_header(alloc: Global, built: &mut Builder, level: usize, number: u64) -> Result<(), Memory>
    requires { level < LEVELS_MAX }
    ensures { OnOk result
        (built.new.atoms ≡ built.old.atoms ++ atom_of (Indexed level number) ∷ []) }
{
    let header = indexed(alloc, level as u8, number)?;
    push_to(built, header.as_slice())
}

/// Adds the headers of the fields with these numbers, each one level further in than the one
/// before.
fn push_headers(alloc: Global, built: &mut Builder, numbers: &[u64]) -> Result<(), Memory>
    requires { length numbers.now ≤ LEVELS_MAX }
    ensures { OnOk result (built.new.atoms ≡ built.old.atoms ++ field_path numbers.now) }
{
    for (level, number) in numbers.iter().enumerate() {
        push_header(alloc, built, level, *number)?;
    }
    Ok(())
}

/// The same, with one more for the last number.
fn push_next_headers(alloc: Global, built: &mut Builder, numbers: &[u64]) -> Result<(), Memory>
    requires few { length numbers.now ≤ LEVELS_MAX }
    requires small { AllByRecursion IsSmall numbers.now }
    ensures { OnOk result
        (built.new.atoms ≡ built.old.atoms ++ field_path (next_numbers numbers.now)) }
{
    for (level, number) in numbers.iter().enumerate() {
        let more = u64::from(level + 1 == numbers.len());
        push_header(alloc, built, level, *number + more)?;
    }
    Ok(())
}

/// Adds the atoms of a list from one place up to another.
fn push_atoms(built: &mut Builder, list: &AtomList, from: usize, to: usize) -> Result<(), Memory>
    requires order { from ≤ to }
    requires within { to ≤ length list.now }
    ensures { OnOk result (built.new.atoms ≡ built.old.atoms ++ slice_range list.now from to) }
{
    for at in from..to {
        if let Some(atom) = list.get(at) {
            push_to(built, atom)?;
        }
    }
    Ok(())
}

/// The mark of the gap before a slot, or after the last one.
pub(crate) fn mark(alloc: Global, table: &Table, slot: usize) -> Result<AtomList, Memory>
    requires { slot ≤ length (slots_of table.now) }
    ensures { IfOk result (λ made. made ≡ gap_mark (slot_before (slots_of table.now) slot)) }
{
    // The proof learns here that the fields make a table, whose numbers are small.
    let _ = table.nodes();
    let mut built = Builder::with_room(alloc, 0, 0)?;
    if 0 < slot {
        let before = table.numbers(slot - 1);
        push_next_headers(alloc, &mut built, before.as_slice())?;
    }
    push_to(&mut built, b"")?;
    built.finish()
}

/// The headers of a slot, and the atoms of its part.
pub(crate) fn part(
    alloc: Global,
    table: &Table,
    slot: usize,
    list: &AtomList,
    from: usize,
    to: usize,
) -> Result<AtomList, Memory>
    requires slot { slot < length (slots_of table.now) }
    requires order { from ≤ to }
    requires within { to ≤ length list.now }
    ensures { IfOk result (λ made.
        (at : SlotAt) → slice_get (slots_of table.now) slot ≡ Some at
        → made ≡ field_path at.numbers ++ slice_range list.now from to) }
{
    let mut built = Builder::with_room(alloc, 0, 0)?;
    let numbers = table.numbers(slot);
    push_headers(alloc, &mut built, numbers.as_slice())?;
    push_atoms(&mut built, list, from, to)?;
    built.finish()
}

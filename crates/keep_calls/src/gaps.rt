//! Whether a mark tells of something in a gap.

ghost use Rattle.std.specs.Prelude.{◌↔◌, ◌+◌, ◌-◌, ◌<◌, ◌≤◌, length, IsTrue};
ghost use Rattle.bag_model.specs.Slots.{slots_of};
ghost use Rattle.keep_calls.specs.Walk.{IsGapPart, IsSomeTold, AreShared, IsLevelShared, IsHeaderToSlot, LeadOn, HasMarkerAmong};

use crate::others::Others;
use atom_kinds::FieldHeader;
use atom_list::AtomList;
use bag_scan::atom;
use context_model::LEVELS_MAX;
use field_table::Table;

/// How many first numbers are the same in both.
fn shared(first: &[u64], second: &[u64]) -> usize
    ensures { AreShared first.now second.now result }
{
    let most = first.len().min(second.len());
    for at in 0..most {
        if first[at] != second[at] {
            return at;
        }
    }
    most
}

/// How many first numbers a slot and the one before have in common.
fn level_shared(table: &Table, slot: usize) -> usize
    requires { slot < length (slots_of table.now) }
    ensures { IsLevelShared (slots_of table.now) slot result }
{
    if slot == 0 {
        return 0;
    }
    let before = table.numbers(slot - 1);
    let numbers = table.numbers(slot);
    shared(before.as_slice(), numbers.as_slice())
}

/// Whether the atom at a place is the header of the number at a level.
fn is_header_of(list: &AtomList, numbers: &[u64], level: usize, at: usize) -> bool
    requires few { length numbers.now ≤ LEVELS_MAX }
    requires within { at < length list.now }
    ensures { IsTrue result ↔ IsHeaderToSlot list.now numbers.now level at }
{
    match numbers.get(level) {
        Some(number) => FieldHeader::new(level as u8, *number).is(atom(list, at)),
        None => false,
    }
}

/// Up to which place the atoms are headers of the numbers, one level after another from `level` on.
fn lead_end(list: &AtomList, numbers: &[u64], level: usize, from: usize, to: usize) -> usize
    requires few { length numbers.now ≤ LEVELS_MAX }
    requires level { level ≤ length numbers.now }
    requires order { from ≤ to }
    requires within { to ≤ length list.now }
    ensures from { from ≤ result }
    ensures to { result ≤ to }
    ensures lead { LeadOn list.now numbers.now level from result }
    ensures stops { result < to
        → IsHeaderToSlot list.now numbers.now (level + (result - from)) result → ⊥ }
{
    for at in from..to {
        if !is_header_of(list, numbers, level + (at - from), at) {
            return at;
        }
    }
    to
}

/// Whether an atom of the gap before a slot, or after the last one, doesn't lead to a slot.
fn has_strays(table: &Table, list: &AtomList, slot: usize, from: usize, to: usize) -> bool
    requires gap { IsGapPart table.now list.now slot from to }
    requires slot { slot ≤ length (slots_of table.now) }
    ensures { IsTrue result ↔ IsSomeTold Others.Cut table.now list.now from to }
{
    if slot == table.slots() {
        return from < to;
    }
    let numbers = table.numbers(slot);
    let level = level_shared(table, slot);
    lead_end(list, numbers.as_slice(), level, from, to) < to
}

/// Whether there is a marker from one place up to another.
fn has_marker(list: &AtomList, from: usize, to: usize) -> bool
    requires { to ≤ length list.now }
    ensures { IsTrue result ↔ HasMarkerAmong list.now from to }
{
    for at in from..to {
        if atom(list, at).is_empty() {
            return true;
        }
    }
    false
}

/// Whether the mark of the gap before a slot, or after the last one, tells of one of its atoms.
pub(crate) fn is_told(
    others: Others,
    table: &Table,
    list: &AtomList,
    slot: usize,
    from: usize,
    to: usize,
) -> bool
    requires gap { IsGapPart table.now list.now slot from to }
    requires slot { slot ≤ length (slots_of table.now) }
    ensures { IsTrue result ↔ IsSomeTold others table.now list.now from to }
{
    if from == to {
        return false;
    }
    match others {
        Others::Cut => has_strays(table, list, slot, from, to),
        Others::Unsaid => has_marker(list, from, to),
    }
}

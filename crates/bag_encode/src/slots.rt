//! The encoding of the values that are bottom except at one slot.

ghost use Rattle.std.specs.Prelude.{◌≡◌, ◌<◌, ◌≤◌, ◌++◌, length, IfOk, OnOk};
ghost use Rattle.context_model.specs.Atoms.{AreAtoms};
ghost use Rattle.context_model.specs.Ended.{field_path};
ghost use Rattle.bag_model.specs.Encodings.{IsEncoding, FitsAtoms};
ghost use Rattle.bag_model.specs.Slots.{SlotAt, slots_of};
ghost use Rattle.bag_model.specs.SlotValues.{HasSlot, only};
ghost use Rattle.bag_model.specs.Tables.{IsTable};
ghost use Rattle.bag_model.specs.Values.{IsOfShape};
ghost use Rattle.bag_value.specs.Vals.{plain};
ghost use Rattle.bag_encode.specs.Values.{field_atoms};

use crate::growing_list::GrowingList;
use crate::values::put_value;
use atom_list::Context;
use bag_model::LEVELS_MAX;
use bag_value::Val;
use counter_type::Lattice;
use field_table::Table;
use outside::Memory;
use std::alloc::Global;

/// Adds the headers of the fields with these numbers, each one level further in than the one
/// before.
fn put_headers(list: &mut GrowingList, numbers: &[u64]) -> Result<(), Memory>
    requires { length numbers.now ≤ LEVELS_MAX }
    ensures { OnOk result (list.new ≡ list.old ++ field_path numbers.now) }
{
    for (level, number) in numbers.iter().enumerate() {
        list.push_index(level as u8, *number)?;
    }
    Ok(())
}

/// Adds the headers on the way to a slot and the atoms of its value, where the value says
/// something.
fn put_slot(list: &mut GrowingList, table: &Table, slot: usize, value: &Val) -> Result<(), Memory>
    requires table { IsTable table.now }
    requires slot { slot < length (slots_of table.now) }
    requires shape { (at : SlotAt) → HasSlot table.now slot at
        → IsOfShape at.shape (plain value.now) }
    requires fits { AreAtoms (field_atoms table.now 0 (only table.now slot (plain value.now))) }
    ensures { OnOk result
        (list.new ≡ list.old ++ field_atoms table.now 0 (only table.now slot (plain value.now))) }
{
    if value.is_bottom() {
        return Ok(());
    }
    let path = table.numbers(slot);
    let numbers = path.as_slice();
    put_headers(list, numbers)?;
    put_value(list, numbers.len() as u8, table.shape(slot), value)
}

/// Tells that the fields of a table are in order, as those of every table are. It does nothing.
fn known(table: &Table)
    ensures { IsTable table.now }
{
    let _ = table.nodes();
}

/// The context of the values that are bottom except this one at a slot: what is read of it is the
/// value at the slot, and bottom at all others. It takes time and memory for the headers on the way
/// to the slot and for the value, however many fields the table has.
pub fn encode_slot(
    alloc: Global,
    table: &Table,
    slot: usize,
    value: &Val,
) -> Result<Context, Memory>
    requires slot { slot < length (slots_of table.now) }
    requires shape { (at : SlotAt) → HasSlot table.now slot at
        → IsOfShape at.shape (plain value.now) }
    requires fits { FitsAtoms table.now (only table.now slot (plain value.now)) }
    ensures { IfOk result (IsEncoding table.now (only table.now slot (plain value.now))) }
{
    known(table);
    let mut list = GrowingList::new(alloc)?;
    put_slot(&mut list, table, slot, value)?;
    Ok(Context::of(list.finish()?))
}

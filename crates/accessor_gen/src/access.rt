//! What an accessor reads and writes.

ghost use Rattle.std.specs.Prelude.{◌≡◌, ◌<◌, [], length, IfOk};
ghost use Rattle.bag_model.specs.Encodings.{IsEncoding, FitsAtoms};
ghost use Rattle.bag_model.specs.Readings.{PathsOf};
ghost use Rattle.bag_model.specs.Slots.{SlotAt, slots_of};
ghost use Rattle.bag_model.specs.SlotValues.{HasSlot, only};
ghost use Rattle.bag_model.specs.Tables.{IsShape};
ghost use Rattle.bag_model.specs.Typed.{AreTyped};
ghost use Rattle.bag_model.specs.Values.{IsOfShape};
ghost use Rattle.bag_value.specs.Vals.{plain};
ghost use Rattle.field_table.specs.Plain.{shape_of};
ghost use Rattle.accessor_gen.specs.Access.{IsReadingOf};

use atom_list::Context;
use bag_decode::decode_slot;
use bag_encode::encode_slot;
use bag_scan::{State, state_of};
use bag_value::Val;
use field_table::{Shape, Table};
use outside::{Memory, Text};
use std::alloc::Global;

/// Reads and writes one slot of a table.
#[derive(Debug, Drop)]
pub struct Accessor {
    /// The name path of the slot: the names of the fields on the way to it, joined by dots.
    pub name: Text,
    /// The number of the slot among those of the table, from 0 on.
    pub slot: usize,
}

/// What a context says of a slot.
#[derive(Debug, Drop)]
pub struct Reading {
    /// Whether that is all that was said of it.
    pub state: State,
    /// The value; where nothing is said, the bottom of the slot's shape.
    pub value: Val,
}

impl Accessor {
    /// The shape of the slot: what a value that is read or written there looks like.
    pub fn shape<'t>(&self, table: &'t Table) -> &'t Shape
        requires { self.now.slot < length (slots_of table.now) }
        ensures own { (at : SlotAt) → HasSlot table.now self.now.slot at
            → shape_of result.now ≡ at.shape }
        ensures is { IsShape (shape_of result.now) }
    {
        // The proof learns here that the fields make a table.
        let _ = table.nodes();
        table.shape(self.slot)
    }

    /// What a context says of the slot, and whether that is whole.
    pub fn get(&self, alloc: Global, table: &Table, context: &Context) -> Result<Reading, Memory>
        requires typed { AreTyped table.now (PathsOf context.now) [] }
        requires slot { self.now.slot < length (slots_of table.now) }
        ensures { IfOk result (IsReadingOf table.now context.now self.now.slot) }
    {
        let value = decode_slot(alloc, table, context, self.slot)?;
        let state = state_of(table, context, self.slot);
        Ok(Reading { state, value })
    }

    /// The context of the bag that says only this value, at the slot. Another context takes the
    /// write by a merge with it.
    pub fn write(&self, alloc: Global, table: &Table, value: &Val) -> Result<Context, Memory>
        requires slot { self.now.slot < length (slots_of table.now) }
        requires shape { (at : SlotAt) → HasSlot table.now self.now.slot at
            → IsOfShape at.shape (plain value.now) }
        requires fits { FitsAtoms table.now (only table.now self.now.slot (plain value.now)) }
        ensures { IfOk result
            (IsEncoding table.now (only table.now self.now.slot (plain value.now))) }
    {
        encode_slot(alloc, table, self.slot, value)
    }
}

//! Values of single slots.

ghost use Rattle.std.specs.Prelude.{◌≡◌, ◌<◌, ◌≤◌, [], length, IfOk};
ghost use Rattle.context_model.specs.WellFormed.{IsWellFormed};
ghost use Rattle.bag_model.specs.Readings.{PathsOf};
ghost use Rattle.bag_model.specs.Slots.{slots_of};
ghost use Rattle.bag_model.specs.Tables.{IsTable};
ghost use Rattle.bag_model.specs.Typed.{AreTyped};
ghost use Rattle.bag_value.specs.Vals.{plain};
ghost use Rattle.bag_decode.specs.Slots.{IsPlaceBehind, IsSlotPlace, IsSpanOfSlot, SaysAt};

use crate::bottoms::bottom_of;
use crate::decoding::decode_field;
use atom_list::{AtomList, Context};
use bag_model::LEVELS_MAX;
use bag_scan::{Span, find_field};
use bag_value::Val;
use field_table::Table;
use outside::Memory;
use std::alloc::Global;

/// Tells that the fields of a table are in order, as those of every table are. It does nothing.
fn known(table: &Table)
    ensures { IsTable table.now }
{
    let _ = table.nodes();
}

/// The value of a slot, by the place after its header.
fn value_at(
    alloc: Global,
    table: &Table,
    context: &Context,
    slot: usize,
    from: Option<usize>,
) -> Result<Val, Memory>
    requires typed { AreTyped table.now (PathsOf context.now) [] }
    requires slot { slot < length (slots_of table.now) }
    requires place { IsSlotPlace table.now context.now slot from }
    ensures { IfOk result (λ value. SaysAt table.now context.now slot (plain value)) }
{
    known(table);
    let shape = table.shape(slot);
    match from {
        Some(from) => {
            let level = table.numbers(slot).as_slice().len();
            let (value, _) = decode_field(alloc, shape, context.list(), level, from)?;
            Ok(value)
        }
        None => bottom_of(alloc, shape),
    }
}

/// The value of a slot with this span, so that a report over all slots walks once for the spans and
/// holds one value at a time.
pub fn slot_value(
    alloc: Global,
    table: &Table,
    context: &Context,
    slot: usize,
    span: &Span,
) -> Result<Val, Memory>
    requires typed { AreTyped table.now (PathsOf context.now) [] }
    requires slot { slot < length (slots_of table.now) }
    requires span { IsSpanOfSlot table.now context.now slot span.now }
    ensures { IfOk result (λ value. SaysAt table.now context.now slot (plain value)) }
{
    value_at(alloc, table, context, slot, span.from)
}

/// The place after the header of the field with these numbers, where there is one.
fn place_of(list: &AtomList, numbers: &[u64]) -> Option<usize>
    requires few { length numbers.now ≤ LEVELS_MAX }
    requires well_formed { IsWellFormed list.now }
    ensures { IsPlaceBehind list.now numbers.now result }
{
    let mut place = 0;
    for (level, number) in numbers.iter().enumerate() {
        match find_field(list, level, *number, place) {
            Ok(behind) => place = behind,
            Err(_) => return None,
        }
    }
    Some(place)
}

/// The value of a slot.
pub fn decode_slot(
    alloc: Global,
    table: &Table,
    context: &Context,
    slot: usize,
) -> Result<Val, Memory>
    requires typed { AreTyped table.now (PathsOf context.now) [] }
    requires slot { slot < length (slots_of table.now) }
    ensures { IfOk result (λ value. SaysAt table.now context.now slot (plain value)) }
{
    let numbers = table.numbers(slot);
    let from = place_of(context.list(), numbers.as_slice());
    value_at(alloc, table, context, slot, from)
}

//! The data of the slots that a view knows, which normal form takes away.

ghost use Rattle.std.specs.Prelude.{◌≡◌, ◌+◌, ◌≤◌, length, OnOk, IfOk};
ghost use Rattle.context_model.specs.Paths.{path_before};
ghost use Rattle.bag_model.specs.Shapes.{Bag as PlainBag};
ghost use Rattle.bag_model.specs.Slots.{slots_of, slot_count};
ghost use Rattle.bag_model.specs.Tables.{IsShape, levels, levels_under};
ghost use Rattle.bag_walks.specs.Parts.{IsBehind, IsSegment};
ghost use Rattle.field_table.specs.Tables.{Bag, KeptBag, IsReady};
ghost use Rattle.field_table.specs.Plain.{shape_of, nodes_of, kept_bag, kept_shape};
ghost use Rattle.field_table.specs.Views.{plain_view_of};
ghost use Rattle.bag_normal.specs.Known.{IsKnownSuperseded};
ghost use Rattle.bag_normal.specs.Data.{RisesUpTo, AddsPlaces};

use crate::fields::add_field;
use atom_list::AtomList;
use bag_model::FIELDS_MAX;
use bag_scan::{next_field, segment_end};
use context_model::LEVELS_MAX;
use field_table::{Shape, Slots, View};
use outside::Memory;

/// Adds the places of the data that go in the slots of a field that the view knows, from the place
/// after the field's header on, and gives the end of what is below the header. `before` slots of
/// the table are before the field.
#[cycle(known)]
fn add_known(
    shape: &Shape,
    view: &View,
    before: usize,
    list: &AtomList,
    level: usize,
    from: usize,
    gone: &mut Vec<usize>,
) -> Result<usize, Memory>
    requires behind { IsBehind list.now (path_before list.now from) from }
    requires level { length (path_before list.now from) ≡ level }
    requires shape { IsShape (shape_of shape.now) }
    requires ready { (inner : KeptBag) → kept_shape shape.now ≡ Bag inner → IsReady inner }
    requires room { level + levels_under (shape_of shape.now) ≤ LEVELS_MAX }
    requires slots { before + slot_count (shape_of shape.now) ≤ FIELDS_MAX }
    requires rises { RisesUpTo gone.old.items from }
    ensures segment { IfOk result (IsSegment list.now level from) }
    ensures rises { IfOk result (RisesUpTo gone.new.items) }
    ensures adds { OnOk result (AddsPlaces
        (IsKnownSuperseded (plain_view_of view.now) before (shape_of shape.now) list.now
        (path_before list.now from))
        gone.old.items gone.new.items) }
{
    if let Shape::Bag(fields) = shape {
        add_known_fields(fields, view, before, list, level, from, gone)
    } else if view.knows(before) {
        add_field(shape, list, level, from, gone)
    } else {
        Ok(segment_end(list, level, from))
    }
}

/// Adds the places of the data that go in the slots of a bag that the view knows, likewise. It
/// looks at the fields that the list has, and at no others.
#[cycle(known)]
pub(crate) fn add_known_fields(
    fields: &Slots,
    view: &View,
    before: usize,
    list: &AtomList,
    level: usize,
    from: usize,
    gone: &mut Vec<usize>,
) -> Result<usize, Memory>
    requires behind { IsBehind list.now (path_before list.now from) from }
    requires level { length (path_before list.now from) ≡ level }
    requires ready { IsReady (kept_bag fields.now) }
    requires room { level + levels (nodes_of fields.now) ≤ LEVELS_MAX }
    requires slots { before + length (slots_of (nodes_of fields.now)) ≤ FIELDS_MAX }
    requires rises { RisesUpTo gone.old.items from }
    ensures segment { IfOk result (IsSegment list.now level from) }
    ensures rises { IfOk result (RisesUpTo gone.new.items) }
    ensures adds { OnOk result (AddsPlaces
        (IsKnownSuperseded (plain_view_of view.now) before (PlainBag (nodes_of fields.now)) list.now
        (path_before list.now from))
        gone.old.items gone.new.items) }
{
    let mut place = from;
    'headers: loop {
        match next_field(fields, list, level, place) {
            Ok((at, field, behind)) => {
                let start = before + fields.slots_before(at);
                place = add_known(&field.shape, view, start, list, level + 1, behind, gone)?;
            }
            Err(stop) => return Ok(stop),
        }
    }
}

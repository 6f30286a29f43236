//! The places of chosen slots of a table, each looked for by itself.

ghost use Rattle.std.specs.Prelude.{◌≡◌, ◌+◌, ◌<◌, ◌≤◌, length, IfOk, IfErr, OnOk};
ghost use Rattle.context_model.specs.Ended.{field_path};
ghost use Rattle.context_model.specs.Framing.{written_in};
ghost use Rattle.context_model.specs.WellFormed.{IsWellFormed};
ghost use Rattle.bag_model.specs.Slots.{SlotAt, slots_of};
ghost use Rattle.bag_model.specs.SlotValues.{HasSlot};
ghost use Rattle.bag_model.specs.Tables.{IsShape, levels_under};
ghost use Rattle.bag_walks.specs.Parts.{IsBehind};
ghost use Rattle.field_table.specs.Plain.{shape_of};
ghost use Rattle.place_calls.specs.Chosen.{AreSlots, ChosenPlaces, ChosenPlacesUnder, HoldsChosen, IsNoSlotOf, PutsChosen};
ghost use Rattle.place_calls.specs.Found.{IsAbsentAt, IsPlaceOfPath, IsSearched};
ghost use Rattle.place_calls.specs.Places.{IsPlaceInBytes};

use crate::found::{Searched, check_part};
use crate::places::Place;
use crate::refusals::PlaceRefusal;
use atom_list::{AtomList, Context};
use bag_model::LEVELS_MAX;
use bag_scan::{find_field, first_marker};
use field_table::{Shape, Table};
use std::alloc::Global;
use table_text::read_table;
use wire_bytes::{Form, form_of, read_context};

/// The place after the header of the field with these numbers; or, where it isn't there, the first
/// place beyond it.
fn find_path(list: &AtomList, numbers: &[u64]) -> Result<usize, usize>
    requires few { length numbers.now ≤ LEVELS_MAX }
    requires well_formed { IsWellFormed list.now }
    ensures found { IfOk result (IsBehind list.now (field_path numbers.now)) }
    ensures missing { IfErr result (IsAbsentAt list.now (field_path numbers.now)) }
{
    let mut place = 0;
    for (level, number) in numbers.iter().enumerate() {
        match find_field(list, level, *number, place) {
            Ok(behind) => place = behind,
            Err(stop) => return Err(stop),
        }
    }
    Ok(place)
}

impl Searched<'_> {
    /// The place of a slot of this shape with these numbers on the way to it, from the place after
    /// its header on.
    fn place_behind(&self, shape: &Shape, numbers: &[u64], from: usize) -> Place
        requires searched { IsSearched self.now }
        requires behind { IsBehind self.now.list.now (field_path numbers.now) from }
        requires shape { IsShape (shape_of shape.now) }
        requires room { length numbers.now + levels_under (shape_of shape.now) ≤ LEVELS_MAX }
        ensures { IsPlaceOfPath self.now.form self.now.list.now
            (field_path numbers.now) (shape_of shape.now) result }
    {
        let (stop, misspelled) = check_part(shape, self.list, numbers.len(), from);
        self.place_of_part(from, stop, misspelled)
    }

    /// The place of one slot of a table.
    fn place_of(&self, table: &Table, slot: usize) -> Place
        requires searched { IsSearched self.now }
        requires slot { slot < length (slots_of table.now) }
        ensures { (at : SlotAt) → HasSlot table.now slot at
            → IsPlaceInBytes self.now.form self.now.list.now at result }
    {
        // The proof learns here that the fields make a table.
        let _ = table.nodes();
        let shape = table.shape(slot);
        let path = table.numbers(slot);
        let numbers = path.as_slice();
        match find_path(self.list, numbers) {
            Ok(from) => self.place_behind(shape, numbers, from),
            Err(stop) => self.place_of_gap(stop),
        }
    }

    /// Writes the places of chosen slots at the beginning of the array, in the order of the numbers.
    fn put_chosen(&self, table: &Table, chosen: &[usize], places: &mut [Place])
        requires searched { IsSearched self.now }
        requires slots { AreSlots table.now chosen.now }
        requires room { length chosen.now ≤ length places.old }
        ensures { HoldsChosen self.now.form table.now self.now.list.now chosen.now
            places.old places.new }
    {
        for (at, slot) in chosen.iter().enumerate() {
            places[at] = self.place_of(table, *slot);
        }
    }
}

/// Refuses the first of the numbers that is that of no slot.
fn check_chosen(table: &Table, chosen: &[usize]) -> Result<(), PlaceRefusal>
    ensures slots { OnOk result (AreSlots table.now chosen.now) }
    ensures refused { IfErr result (IsNoSlotOf table.now chosen.now) }
{
    let size = table.slots();
    for (which, slot) in chosen.iter().enumerate() {
        if *slot >= size {
            return Err(PlaceRefusal::NoSlot { which });
        }
    }
    Ok(())
}

/// Writes the places of chosen slots at the beginning of the array, and answers how many there are.
fn put_places(
    form: Form,
    table: &Table,
    chosen: &[usize],
    context: &Context,
    places: &mut [Place],
) -> Result<usize, PlaceRefusal>
    requires written { written_in form context.now ≡ form }
    requires slots { AreSlots table.now chosen.now }
    ensures { PutsChosen form table.now context.now chosen.now places.old places.new result }
{
    let size = chosen.len();
    if places.len() < size {
        return Err(PlaceRefusal::Room { size });
    }
    let marker = first_marker(context);
    let list = context.list();
    Searched { form, list, marker }.put_chosen(table, chosen, places);
    Ok(size)
}

/// Writes the places of chosen slots at the beginning of `places`, as [`chosen_places_into`] does,
/// under a table that was read before.
pub fn chosen_places_under(
    alloc: Global,
    table: &Table,
    chosen: &[usize],
    context: &[u8],
    places: &mut [Place],
) -> Result<(Form, usize), PlaceRefusal>
    ensures { ChosenPlacesUnder table.now chosen.now context.now places.old places.new result }
{
    check_chosen(table, chosen)?;
    let form = form_of(context);
    let context = read_context(alloc, context)?;
    let size = put_places(form, table, chosen, &context, places)?;
    Ok((form, size))
}

/// Writes where chosen slots of a table are in the bytes of a context at the beginning of `places`:
/// for each number a place, in the order of the numbers, and the same that `places_into` writes for
/// this slot. Answers the form of the bytes, and how many numbers there are.
///
/// `chosen` has numbers of slots of the table, from 0 on; one may come more than once. Each slot is
/// looked for by itself, from the beginning of the context, so a few of many slots cost less than
/// all, and all of many cost more. `table` and `context` are as in `places_into`. [`PlaceRefusal`]
/// has what may be wrong, in the order in which it is looked for; then `places` stays.
pub fn chosen_places_into(
    alloc: Global,
    table: &[u8],
    chosen: &[usize],
    context: &[u8],
    places: &mut [Place],
) -> Result<(Form, usize), PlaceRefusal>
    ensures { ChosenPlaces table.now chosen.now context.now places.old places.new result }
{
    let table = read_table(alloc, table)?;
    chosen_places_under(alloc, &table, chosen, context, places)
}

//! One walk over a table and a list, which finds the place of each slot. It takes no memory.

ghost use Rattle.std.specs.Prelude.{◌≡◌, ◌+◌, ◌^◌, ◌<◌, ◌≤◌, [], length, set};
ghost use Rattle.context_model.specs.Paths.{path_before};
ghost use Rattle.context_model.specs.Orders.{Path};
ghost use Rattle.bag_model.specs.Slots.{slots_in, slots_of};
ghost use Rattle.bag_model.specs.Tables.{IsShape, AreFields, levels, levels_under};
ghost use Rattle.bag_walks.specs.Parts.{IsBehind, IsSegment};
ghost use Rattle.field_table.specs.Plain.{nodes_of, shape_of};
ghost use Rattle.place_calls.specs.Found.{IsFirstMisspelled, IsAbsentAt, IsSearched, PutsPlacesOf};

use crate::places::Place;
use atom_list::AtomList;
use bag_model::LEVELS_MAX;
use bag_scan::{find_field, segment_end};
use bag_typed::check_slot;
use field_table::{Shape, Slots, Table};
use wire_bytes::Form;

/// A list in which places are looked for, with its first marker, and the form of its bytes.
#[derive(Clone, Copy, Debug)]
pub(crate) struct Searched<'a> {
    pub form: Form,
    pub list: &'a AtomList,
    pub marker: Option<usize>,
}

/// Writes a place into the array, where that has room for it.
fn put(places: &mut [Place], slot: usize, place: Place)
    ensures { places.new ≡ set places.old slot place }
{
    if slot < places.len() {
        places[slot] = place;
    }
}

/// Where what is below the header of a slot of this shape ends, and the first atom there that is
/// misspelled.
pub(crate) fn check_part(
    shape: &Shape,
    list: &AtomList,
    level: usize,
    from: usize,
) -> (usize, Option<usize>)
    requires behind { IsBehind list.now (path_before list.now from) from }
    requires level { length (path_before list.now from) ≡ level }
    requires shape { IsShape (shape_of shape.now) }
    requires room { level + levels_under (shape_of shape.now) ≤ LEVELS_MAX }
    ensures stop { IsSegment list.now level from result.0 }
    ensures misspelled { IsFirstMisspelled list.now (path_before list.now from)
        (shape_of shape.now) result.1 }
{
    match check_slot(shape, list, level, from) {
        Ok(stop) => (stop, None),
        Err(first) => (segment_end(list, level, from), Some(first)),
    }
}

impl Searched<'_> {
    /// Writes the places of all slots of a table at the beginning of the array, as far as that has
    /// room.
    pub(crate) fn put_table(&self, table: &Table, places: &mut [Place])
        requires { IsSearched self.now }
        ensures { PutsPlacesOf self.now (slots_of table.now) [] 0 places.old places.new }
    {
        self.put_fields(table.nodes(), 0, 0, 0, places);
    }

    /// Writes the places of the slots of a bag whose fields have headers of this level, from the
    /// place after the bag's own header on; the first of the slots has the number `slot`. Gives the
    /// place where what is below the bag ends, and the number after the last slot.
    ///
    /// Where the check of a slot's types ends, the walk goes on.
    #[cycle(there)]
    fn put_fields(
        &self,
        fields: &Slots,
        level: usize,
        from: usize,
        slot: usize,
        places: &mut [Place],
    ) -> (usize, usize)
        requires searched { IsSearched self.now }
        requires behind { IsBehind self.now.list.now (path_before self.now.list.now from) from }
        requires level { length (path_before self.now.list.now from) ≡ level }
        requires fields { AreFields (nodes_of fields.now) }
        requires room { level + levels (nodes_of fields.now) ≤ LEVELS_MAX }
        requires count { slot + length (slots_of (nodes_of fields.now)) < 2 ^ 64 }
        ensures places { PutsPlacesOf self.now (slots_of (nodes_of fields.now))
            (path_before self.now.list.now from) slot places.old places.new }
        ensures stop { IsSegment self.now.list.now level from result.0 }
        ensures next { result.1 ≡ slot + length (slots_of (nodes_of fields.now)) }
    {
        let mut place = from;
        let mut next = slot;
        for at in 0..fields.len() {
            let field = fields.get(at).unwrap();
            match find_field(self.list, level, u64::from(field.number), place) {
                Ok(behind) => {
                    (place, next) = self.put_field(&field.shape, level + 1, behind, next, places);
                }
                Err(stop) => {
                    next = self.put_absent(&field.shape, stop, next, places);
                    place = stop;
                }
            }
        }
        (segment_end(self.list, level, place), next)
    }

    /// Writes the places of the slots of a field of this shape, from the place after the field's
    /// header on. Gives the place where what is below it ends, and the number after the last slot.
    #[cycle(there)]
    fn put_field(
        &self,
        shape: &Shape,
        level: usize,
        from: usize,
        slot: usize,
        places: &mut [Place],
    ) -> (usize, usize)
        requires searched { IsSearched self.now }
        requires behind { IsBehind self.now.list.now (path_before self.now.list.now from) from }
        requires level { length (path_before self.now.list.now from) ≡ level }
        requires shape { IsShape (shape_of shape.now) }
        requires room { level + levels_under (shape_of shape.now) ≤ LEVELS_MAX }
        requires count { slot + length (slots_in (shape_of shape.now)) < 2 ^ 64 }
        ensures places { PutsPlacesOf self.now (slots_in (shape_of shape.now))
            (path_before self.now.list.now from) slot places.old places.new }
        ensures stop { IsSegment self.now.list.now level from result.0 }
        ensures next { result.1 ≡ slot + length (slots_in (shape_of shape.now)) }
    {
        if let Shape::Bag(fields) = shape {
            return self.put_fields(fields, level, from, slot, places);
        }
        let (stop, misspelled) = check_part(shape, self.list, level, from);
        put(places, slot, self.place_of_part(from, stop, misspelled));
        (stop, slot + 1)
    }

    /// Writes the places of the slots of a field of this shape that isn't there. Gives the number
    /// after the last slot.
    #[cycle(absent)]
    fn put_absent(&self, shape: &Shape, stop: usize, slot: usize, places: &mut [Place]) -> usize
        requires searched { IsSearched self.now }
        requires gap { (q : Path) × IsAbsentAt self.now.list.now q stop }
        requires count { slot + length (slots_in (shape_of shape.now)) < 2 ^ 64 }
        ensures places { (q : Path) → IsAbsentAt self.now.list.now q stop
            → PutsPlacesOf self.now (slots_in (shape_of shape.now)) q slot
            places.old places.new }
        ensures next { result ≡ slot + length (slots_in (shape_of shape.now)) }
    {
        if let Shape::Bag(fields) = shape {
            return self.put_absent_fields(fields, stop, slot, places);
        }
        put(places, slot, self.place_of_gap(stop));
        slot + 1
    }

    /// Writes the places of the slots of a bag that isn't there. Gives the number after the last
    /// slot.
    #[cycle(absent)]
    fn put_absent_fields(
        &self,
        fields: &Slots,
        stop: usize,
        slot: usize,
        places: &mut [Place],
    ) -> usize
        requires searched { IsSearched self.now }
        requires gap { (q : Path) × IsAbsentAt self.now.list.now q stop }
        requires count { slot + length (slots_of (nodes_of fields.now)) < 2 ^ 64 }
        ensures places { (q : Path) → IsAbsentAt self.now.list.now q stop
            → PutsPlacesOf self.now (slots_of (nodes_of fields.now)) q slot
            places.old places.new }
        ensures next { result ≡ slot + length (slots_of (nodes_of fields.now)) }
    {
        let mut next = slot;
        for at in 0..fields.len() {
            next = self.put_absent(&fields.get(at).unwrap().shape, stop, next, places);
        }
        next
    }
}

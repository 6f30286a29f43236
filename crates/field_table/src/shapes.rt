//! Fields, their shapes, and the fields of a bag with indexes over them.

ghost use Rattle.std.specs.Prelude.{◌≡◌, ◌≢◌, ◌<◌, ◌≤◌, ◌+◌, ◌-◌, ◌↔◌, ◌++◌, [], ◌∷◌, length, map, get_or, IsTrue, OnOk, OnErr, Some, IfSome, string_bytes};
ghost use Rattle.std.specs.List.{slice_get};
ghost use Rattle.std.specs.List.Sorted.{IsNonDecreasingBy, IsPartitionPoint};
ghost use Rattle.std.specs.Option.{option_map};
ghost use Rattle.std.specs.Cmp.Lexicographic.{slice_cmp};
ghost use Rattle.std.specs.Ordering.{nat_cmp};
ghost use Rattle.std.specs.declared.cmp.Ordering.TheVariants.{Less};
ghost use Rattle.bag_model.specs.Shapes.{fields, no_node};
ghost use Rattle.bag_model.specs.Slots.{slots_of, slot_count, starts, name_path, FindsField};
ghost use Rattle.bag_model.specs.Words.{HasNoDot};
ghost use Rattle.field_table.specs.Shapes.{IsOnly, IsSplit};
ghost use Rattle.bag_model.specs.Tables.{levels, AreFields};
ghost use Rattle.field_table.specs.Tables.{capped, Bag, KeptBag, FindsNumber, HasPlaces, IsKept, IsNameOrder, IsPlaceOf, IsRank, IsReady, Holds};
ghost use Rattle.field_table.specs.Plain.{shape_of, kept_shape, field_name, field_number, field_of, nodes_of, kept_bag, IsIndexed, IsIndexedShape, IsIndexedField, IsOrdered};

use crate::slot_paths::SlotPath;
use bag_model::LEVELS_MAX;
use outside::{Memory, Text};
use scalar_types::ScalarKind;
use std::alloc::Global;
use std::cmp::Ordering;

/// How many fields a bag has room for at first: most bags have no more.
const FIRST_ROOM: usize = 8;

/// A field of a bag, which may be a bag itself. A slot of a table is a field that is no bag, seen
/// with its path from the outermost bag on: calls of `Table` know it by its number.
#[cycle(shape)]
#[derive(Debug, Drop)]
pub struct Slot {
    pub name: Text,
    pub number: u16,
    pub shape: Shape,
}

/// What a field holds.
#[cycle(shape)]
#[derive(Debug, Drop)]
pub enum Shape {
    Taint,
    /// A scalar of which the least value stays.
    Scalar(ScalarKind),
    /// A scalar of which the greatest value stays.
    Greatest(ScalarKind),
    Set(ScalarKind),
    Counter,
    /// The kind of the keys, and the shape of each value.
    Map(ScalarKind, Box<Shape>),
    Bag(Slots),
}

/// The fields of a bag, in order, those that are bags among them. Indexes find a field by its name
/// and by the number of a slot.
#[cycle(shape)]
#[derive(Debug, Drop)]
pub struct Slots {
    items: Vec<Slot>,
    /// For each field, how many slots there are up to its end.
    ends: Vec<usize>,
    /// The places of the fields: in the order of their names once this is a bag in a field or the
    /// bag of a table.
    by_name: Vec<usize>,
}

impl Slots {
    /// No fields. It takes no memory.
    pub fn new(alloc: Global) -> Slots
        ensures empty { nodes_of result ≡ no_node }
        ensures indexed { IsIndexed result }
    {
        Slots {
            items: Vec::new(alloc),
            ends: Vec::new(alloc),
            by_name: Vec::new(alloc),
        }
    }

    /// How many fields there are.
    #[tactic(auto, using(crate::proofs::Opened::length_fields))]
    pub fn len(&self) -> usize
        ensures { result ≡ length (fields (nodes_of self.now)) }
    {
        self.items.len()
    }

    /// Whether there is no field.
    pub fn is_empty(&self) -> bool
        ensures { IsTrue result ↔ (length (fields (nodes_of self.now)) ≡ 0) }
    {
        self.items.is_empty()
    }

    /// The field at this place, from 0 on.
    #[tactic(auto, using(crate::proofs::Opened::get_field))]
    pub fn get(&self, at: usize) -> Option<&Slot>
        ensures { option_map (λ found. field_of found.now) result
            ≡ slice_get (fields (nodes_of self.now)) at }
    {
        if at < self.items.len() {
            Some(&self.items[at])
        } else {
            None
        }
    }

    /// Adds a field at the end. Where memory runs out, the fields stay as they were.
    pub fn push(&mut self, mut item: Slot) -> Result<(), Memory>
        ensures ok { OnOk result
            (fields (nodes_of self.new) ≡ fields (nodes_of self.old) ++ field_of item ∷ []) }
        ensures err { OnErr result (nodes_of self.new ≡ nodes_of self.old) }
        ensures indexed { IsIndexed self.old → IsIndexedField item → IsIndexed self.new }
    {
        item.shape.sort_bag_index();
        let end = self.slot_count().saturating_add(item.shape.slot_count());
        add_field(
            &mut self.items,
            &mut self.ends,
            &mut self.by_name,
            item,
            end,
        )
    }

    /// Adds a field with this name, number and shape at the end. Where memory runs out, the fields
    /// stay as they were.
    pub fn add(&mut self, name: &str, number: u16, shape: Shape) -> Result<(), Memory>
        ensures ok { OnOk result (fields (nodes_of self.new)
            ≡ fields (nodes_of self.old)
            ++ record { name = name.now; number = number; shape = shape_of shape } ∷ []) }
        ensures err { OnErr result (nodes_of self.new ≡ nodes_of self.old) }
        ensures indexed { IsIndexed self.old → IsIndexedShape shape → IsIndexed self.new }
    {
        let name = Text::of(*self.items.allocator(), name)?;
        self.push(Slot {
            name,
            number,
            shape,
        })
    }

    /// Puts the index by name in order, once all fields are there. It takes no memory.
    pub(crate) fn sort_index(&mut self)
        ensures same { nodes_of self.new ≡ nodes_of self.old }
        ensures indexed { IsIndexed self.old → IsIndexed self.new }
        ensures ordered { IsIndexed self.old → IsOrdered self.new }
    {
        sort_places(&self.items, &mut self.by_name);
    }

    /// The field with this number, and its place. It is found by halves.
    pub fn find_number(&self, number: u64) -> Option<(usize, &Slot)>
        requires { AreFields (nodes_of self.now) }
        ensures found { FindsNumber (fields (nodes_of self.now)) number
            (option_map (λ found. (found.0, field_of found.1.now)) result) }
        ensures ready { IsReady (kept_bag self.now)
            → IfSome result (λ found. (inner : KeptBag) → kept_shape found.1.now.shape ≡ Bag inner
            → IsReady inner) }
    {
        let place = lesser_numbers(&self.items, number);
        if place == self.items.len() {
            return None;
        }
        let item = &self.items[place];
        if u64::from(item.number) == number {
            Some((place, item))
        } else {
            None
        }
    }

    /// How many slots there are.
    pub(crate) fn slot_count(&self) -> usize
        ensures { IsIndexed self.now → result ≡ capped (length (slots_of (nodes_of self.now))) }
    {
        let fields = self.ends.len();
        if fields == 0 {
            0
        } else {
            self.ends[fields - 1]
        }
    }

    /// How many slots there are before the field at this place. It takes no walk.
    pub fn slots_before(&self, place: usize) -> usize
        requires ready { IsReady (kept_bag self.now) }
        requires place { place ≤ length (fields (nodes_of self.now)) }
        ensures { result ≡ starts (fields (nodes_of self.now)) place }
    {
        if place == 0 { 0 } else { self.ends[place - 1] }
    }

    /// The field with this name path, and how many slots there are before it. Fields of bags are
    /// looked for in the bags.
    #[cycle(find)]
    pub(crate) fn find(&self, path: &str) -> Option<(usize, &Shape)>
        requires ready { IsReady (kept_bag self.now) }
        ensures found { FindsField (nodes_of self.now) path.now
            (option_map (λ found. (found.0, shape_of found.1.now)) result) }
        ensures only { IfSome result
            (λ found. IsOnly (nodes_of self.now) path.now (found.0, shape_of found.1.now)) }
        ensures kept { IfSome result (λ found. IsKept (kept_shape found.1.now)) }
    {
        let (name, rest) = split_name(path);
        let place = place_of(&self.items, &self.by_name, name.as_bytes())?;
        let before = self.slots_before(place);
        let shape = &self.items[place].shape;
        let Some(rest) = rest else {
            return Some((before, shape));
        };
        if let Shape::Bag(inner) = shape {
            let (behind, shape) = inner.find(rest)?;
            Some((before + behind, shape))
        } else {
            None
        }
    }

    /// The place of the field that holds the slot with this number.
    fn place_holding(&self, slot: usize) -> usize
        requires ready { IsReady (kept_bag self.now) }
        requires slot { slot < length (slots_of (nodes_of self.now)) }
        ensures { Holds (nodes_of self.now) slot result }
    {
        self.ends.partition_point(|end| *end <= slot)
    }

    /// The shape of the slot with this number.
    #[cycle(shape_at)]
    pub(crate) fn shape_at(&self, slot: usize) -> &Shape
        requires ready { IsReady (kept_bag self.now) }
        requires slot { slot < length (slots_of (nodes_of self.now)) }
        ensures { Some (shape_of result.now)
            ≡ option_map (λ found. found.shape) (slice_get (slots_of (nodes_of self.now)) slot) }
    {
        let place = self.place_holding(slot);
        let inside = slot - self.slots_before(place);
        let shape = &self.items[place].shape;
        if let Shape::Bag(inner) = shape {
            inner.shape_at(inside)
        } else {
            shape
        }
    }

    /// Adds the numbers on the way to the slot with this number.
    #[cycle(put_numbers)]
    pub(crate) fn put_numbers(&self, slot: usize, path: &mut SlotPath)
        requires ready { IsReady (kept_bag self.now) }
        requires slot { slot < length (slots_of (nodes_of self.now)) }
        requires room { length path.old + levels (nodes_of self.now) ≤ LEVELS_MAX }
        ensures { Some path.new
            ≡ option_map (λ found. path.old ++ found.numbers)
            (slice_get (slots_of (nodes_of self.now)) slot) }
    {
        let place = self.place_holding(slot);
        let inside = slot - self.slots_before(place);
        let item = &self.items[place];
        path.push(u64::from(item.number));
        if let Shape::Bag(inner) = &item.shape {
            inner.put_numbers(inside, path);
        }
    }

    /// Adds the name path of the slot with this number.
    #[cycle(put_name)]
    pub(crate) fn put_name(&self, slot: usize, path: &mut String) -> Result<(), Memory>
        requires ready { IsReady (kept_bag self.now) }
        requires slot { slot < length (slots_of (nodes_of self.now)) }
        ensures { OnOk result
            (Some (string_bytes path.new)
            ≡ option_map (λ found. string_bytes path.old ++ name_path found)
            (slice_get (slots_of (nodes_of self.now)) slot)) }
    {
        let place = self.place_holding(slot);
        let inside = slot - self.slots_before(place);
        let item = &self.items[place];
        path.push_str(item.name.as_str())?;
        if let Shape::Bag(inner) = &item.shape {
            path.push('.')?;
            inner.put_name(inside, path)?;
        }
        Ok(())
    }
}

impl Shape {
    /// Puts the index by name of a bag in order, also where the bag is a map's value.
    fn sort_bag_index(&mut self)
        ensures same { shape_of self.new ≡ shape_of self.old }
        ensures kept { IsIndexedShape self.old → IsKept (kept_shape self.new) }
    {
        match self {
            Shape::Bag(fields) => fields.sort_index(),
            Shape::Map(_, value) => value.sort_bag_index(),
            Shape::Taint => {}
            Shape::Scalar(_) => {}
            Shape::Greatest(_) => {}
            Shape::Set(_) => {}
            Shape::Counter => {}
        }
    }

    /// How many slots a field of this shape has.
    pub(crate) fn slot_count(&self) -> usize
        ensures { IsKept (kept_shape self.now) → result ≡ capped (slot_count (shape_of self.now)) }
    {
        match self {
            Shape::Bag(fields) => fields.slot_count(),
            Shape::Taint => 1,
            Shape::Scalar(_) => 1,
            Shape::Greatest(_) => 1,
            Shape::Set(_) => 1,
            Shape::Counter => 1,
            Shape::Map(_, _) => 1,
        }
    }
}

/// Adds a field, its end and its place. All room is taken first, so want of memory leaves all as it
/// was. The first field takes the room for [`FIRST_ROOM`].
fn add_field(
    items: &mut Vec<Slot>,
    ends: &mut Vec<usize>,
    by_name: &mut Vec<usize>,
    item: Slot,
    end: usize,
) -> Result<(), Memory>
    ensures items { OnOk result (items.new.items ≡ items.old.items ++ item ∷ []) }
    ensures ends { OnOk result (ends.new.items ≡ ends.old.items ++ end ∷ []) }
    ensures places { OnOk result
        (by_name.new.items ≡ by_name.old.items ++ length items.old.items ∷ []) }
    ensures err { OnErr result
        ((items.new.items ≡ items.old.items) × (ends.new.items ≡ ends.old.items)
        × (by_name.new.items ≡ by_name.old.items)) }
{
    let room = if items.is_empty() { FIRST_ROOM } else { 1 };
    items.reserve(room)?;
    ends.reserve(room)?;
    by_name.reserve(room)?;
    by_name.push(items.len()).unwrap();
    ends.push(end).unwrap();
    items.push(item).unwrap();
    Ok(())
}

/// Puts the places in the order of the names there.
fn sort_places(items: &[Slot], by_name: &mut [usize])
    ensures { HasPlaces (map field_name items.now) by_name.old
        → IsNameOrder (map field_name items.now) by_name.new }
{
    by_name.sort_unstable_by(|one, other| name_cmp(name_at(items, *one), name_at(items, *other)));
}

/// The order of two names. Most differ in their first bytes.
fn name_cmp(one: &[u8], other: &[u8]) -> Ordering
    ensures { result ≡ slice_cmp nat_cmp one.now other.now }
{
    match (one, other) {
        ([a, ..], [b, ..]) if a != b => a.cmp(b),
        _ => one.cmp(other),
    }
}

/// The name of the field at this place. It is empty where there is no such field.
fn name_at(items: &[Slot], place: usize) -> &[u8]
    ensures { result.now ≡ get_or (map field_name items.now) place [] }
{
    if place < items.len() {
        items[place].name.as_str().as_bytes()
    } else {
        &[]
    }
}

/// How many of the places, in the order of the names there, have a lesser name.
fn rank_of(items: &[Slot], by_name: &[usize], name: &[u8]) -> usize
    ensures bound { result ≤ length by_name.now }
    ensures rank { IsNameOrder (map field_name items.now) by_name.now
        → IsRank (map field_name items.now) by_name.now name.now result }
{
    by_name.partition_point(|place| name_cmp(name_at(items, *place), name).is_lt())
}

/// How many of the fields have a lesser number.
fn lesser_numbers(items: &[Slot], number: u64) -> usize
    ensures bound { result ≤ length items.now }
    ensures point { IsNonDecreasingBy field_number items.now
        → IsPartitionPoint (λ item. field_number item < number)
        (λ item. number ≤ field_number item) items.now result }
{
    items.partition_point(|item| u64::from(item.number) < number)
}

/// The place of the field with this name.
fn place_of(items: &[Slot], by_name: &[usize], name: &[u8]) -> Option<usize>
    requires { IsNameOrder (map field_name items.now) by_name.now }
    ensures { IsPlaceOf (map field_name items.now) name.now result }
{
    let rank = rank_of(items, by_name, name);
    if rank == by_name.len() {
        return None;
    }
    let place = by_name[rank];
    if name_at(items, place) == name {
        Some(place)
    } else {
        None
    }
}

/// The first name of a path, and the rest after a dot.
fn split_name(path: &str) -> (&str, Option<&str>)
    ensures split { IsSplit path.now result.0.now (option_map (λ rest. rest.now) result.1) }
    ensures name { HasNoDot result.0.now }
{
    match path.split_once('.') {
        Some((name, rest)) => (name, Some(rest)),
        None => (path, None),
    }
}

//! The slots that a service knows.

ghost use Rattle.std.specs.Prelude.{◌≡◌, ◌<◌, ◌↔◌, [], ◌∷◌, ◌++◌, length, slice_get, IsTrue, OnOk, OnErr, All};
ghost use Rattle.context_model.specs.Orders.{IsIn};
ghost use Rattle.bag_model.specs.Views.{Knows};
ghost use Rattle.field_table.specs.Ranges.{slots_between};
ghost use Rattle.field_table.specs.Views.{plain_view_of};

use bag_model::FIELDS_MAX;
use outside::Memory;
use std::alloc::Global;
use std::marker::Model;

/// The slots that a service knows.
#[derive(Debug, Drop)]
pub enum View {
    All,
    Nothing,
    Only(SlotSet),
}

/// Slot numbers, each greater than the one before. They are kept as ranges, so that many slots in a
/// row take as little room as one.
#[derive(Debug, Drop)]
pub struct SlotSet {
    /// Each as its first slot and the number after its last.
    ranges: Vec<(usize, usize)>,
}

impl Model for SlotSet {
    ghost use Rattle.std.specs.Prelude.{ℕ, List};
    ghost use Rattle.field_table.specs.Ranges.{slots_in_ranges, AreSlotRanges};

    ghost Value = { List ℕ };

    ghost view = { λ set. slots_in_ranges set.ranges.items };

    ghost invariant = { λ set. AreSlotRanges set.ranges.items };
}

impl SlotSet {
    /// No slot.
    pub fn new(alloc: Global) -> SlotSet
        ensures { result ≡ [] }
    {
        SlotSet {
            ranges: Vec::new(alloc),
        }
    }

    /// Whether there is none.
    pub fn is_empty(&self) -> bool
        ensures { IsTrue result ↔ (self.now ≡ []) }
    {
        self.ranges.is_empty()
    }

    /// How many slots there are. It takes as long as there are ranges.
    pub fn len(&self) -> usize
        ensures { result ≡ length self.now }
    {
        let mut count = 0;
        for range in &self.ranges {
            // The numbers before the range that are no slots of the set.
            let absent = range.0 - count;
            count = range.1 - absent;
        }
        count
    }

    /// The slot that has `place` slots before it; `None` where there is none. It takes as long as
    /// there are ranges.
    pub fn get(&self, place: usize) -> Option<usize>
        ensures { result ≡ slice_get self.now place }
    {
        let mut rest = place;
        for range in &self.ranges {
            let count = range.1 - range.0;
            if rest < count {
                return Some(range.0 + rest);
            }
            rest -= count;
        }
        None
    }

    /// Adds one slot at the end. Where memory runs out, the set stays as it was.
    pub fn push(&mut self, slot: usize) -> Result<(), Memory>
        requires greater { All (λ held. held < slot) self.old }
        requires few { slot < FIELDS_MAX }
        ensures ok { OnOk result (self.new ≡ self.old ++ slot ∷ []) }
        ensures err { OnErr result (self.new ≡ self.old) }
    {
        self.push_range(slot, slot + 1)
    }

    /// Adds the slots from `first` on, up to but not `end`, at the end. Where memory runs out, the
    /// set stays as it was.
    pub fn push_range(&mut self, first: usize, end: usize) -> Result<(), Memory>
        requires greater { All (λ held. held < first) self.old }
        ensures ok { OnOk result (self.new ≡ self.old ++ slots_between first end) }
        ensures err { OnErr result (self.new ≡ self.old) }
    {
        if first < end {
            self.ranges.push((first, end))?;
        }
        Ok(())
    }

    /// Whether the slot is among them.
    fn contains(&self, slot: usize) -> bool
        ensures { IsTrue result ↔ IsIn slot self.now }
    {
        let place = self.ranges.partition_point(|range| range.1 <= slot);
        place < self.ranges.len() && self.ranges[place].0 <= slot
    }
}

impl View {
    /// Whether a service with this view knows the slot.
    pub fn knows(&self, slot: usize) -> bool
        ensures { IsTrue result ↔ Knows (plain_view_of self.now) slot }
    {
        match self {
            View::All => true,
            View::Nothing => false,
            View::Only(slots) => slots.contains(slot),
        }
    }
}

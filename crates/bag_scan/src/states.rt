//! Whether what a context says of a slot is whole.

ghost use Rattle.std.specs.Prelude.{◌≡◌, ◌↔◌, ◌<◌, length};
ghost use Rattle.context_model.specs.Ended.{IsEnded, field_path};
ghost use Rattle.context_model.specs.WellFormed.{IsWellFormed};
ghost use Rattle.bag_model.specs.Slots.{SlotAt, slots_of};
ghost use Rattle.bag_model.specs.SlotValues.{HasSlot};
ghost use Rattle.bag_scan.specs.States.{IsFirstMarker, TellsState};

use crate::parts::atom;
use crate::spans::Span;
use atom_list::Context;
use field_table::Table;

/// Whether what a context says of a slot is all that was said of it.
#[derive(Clone, Copy, Debug, PartialEq, Eq)]
pub enum State {
    /// Nothing below the slot can have been cut off.
    Exact,
    /// Something may have been: the context has a marker, and no atom before the first one is
    /// beyond the slot.
    Partial,
}

/// The place of the first marker of a context. It takes no memory.
pub fn first_marker(context: &Context) -> Option<usize>
    ensures marker { IsFirstMarker context.now result }
    ensures well_formed { IsWellFormed context.now }
{
    let list = context.list();
    for at in 0..list.len() {
        if atom(list, at).is_empty() {
            return Some(at);
        }
    }
    None
}

impl Span {
    /// The state of the slot with this span in a context whose first marker is at `marker`.
    pub fn state(&self, marker: Option<usize>) -> State
        ensures { TellsState marker self.now result }
    {
        match marker {
            None => State::Exact,
            Some(place) => {
                if self.stop < place {
                    State::Exact
                } else {
                    State::Partial
                }
            }
        }
    }
}

/// The state of a slot. It takes no memory.
pub fn state_of(table: &Table, context: &Context, slot: usize) -> State
    requires { slot < length (slots_of table.now) }
    ensures { (at : SlotAt) → HasSlot table.now slot at
        → (result ≡ State.Exact) ↔ IsEnded context.now (field_path at.numbers) }
{
    if context.ended(table.numbers(slot).as_slice()) {
        State::Exact
    } else {
        State::Partial
    }
}

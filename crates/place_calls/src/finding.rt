//! The places of all slots of a table in the bytes of a context.

ghost use Rattle.std.specs.Prelude.{◌≡◌, ◌≤◌, length};
ghost use Rattle.context_model.specs.Ended.{field_path};
ghost use Rattle.context_model.specs.Framing.{offset_of, written_in};
ghost use Rattle.context_model.specs.Orders.{Path};
ghost use Rattle.bag_model.specs.Shapes.{Shape};
ghost use Rattle.bag_model.specs.Slots.{SlotAt};
ghost use Rattle.bag_walks.specs.Slots.{IsSpanOf};
ghost use Rattle.place_calls.specs.Found.{IsAbsentAt, IsPartAt, IsSearched};
ghost use Rattle.place_calls.specs.Places.{place_state, IsPlaceInBytes, PutsPlaces, Places, PlacesUnder, SaysWhetherEnded};

use crate::found::Searched;
use crate::places::{EXACT, ILL_TYPED, PARTIAL, Place};
use crate::refusals::PlaceRefusal;
use atom_list::Context;
use bag_scan::{Span, State, first_marker};
use field_table::Table;
use std::alloc::Global;
use table_text::read_table;
use wire_bytes::{Form, form_of, offset, read_context};

/// The number of a state.
fn place_state(state: State) -> u32
    ensures { result ≡ place_state state }
{
    match state {
        State::Exact => EXACT,
        State::Partial => PARTIAL,
    }
}

impl Searched<'_> {
    /// How many bytes of the context come before an atom. The frames are counted as those of form
    /// two, which are as long: for form one [`offset`] looks for an atom that is too long for it,
    /// among all of a large list and anew for each slot. What was read in form one has none.
    fn bytes_before(&self, place: usize) -> usize
        requires searched { IsSearched self.now }
        requires place { place ≤ length self.now.list.now }
        ensures { result ≡ offset_of self.now.form self.now.list.now place }
    {
        // It says that the frames of a list are no more than a buffer may have.
        let _count = self.list.len();
        let after_head = offset(Form::Two, self.list, place) as usize - Form::Two.head_len();
        self.form.head_len() + after_head
    }

    /// The state of a slot beyond which the first place is `stop`.
    fn state(&self, from: Option<usize>, stop: usize) -> u32
        requires { IsSearched self.now }
        ensures { (at : SlotAt) → IsSpanOf self.now.list.now (field_path at.numbers) from stop
            → SaysWhetherEnded self.now.list.now at result }
    {
        place_state(Span { from, stop }.state(self.marker))
    }

    /// The place of a slot whose part begins and ends at these places of the list, and of which this
    /// is the first atom that is misspelled.
    pub(crate) fn place_of_part(&self, from: usize, stop: usize, misspelled: Option<usize>) -> Place
        requires searched { IsSearched self.now }
        requires part { (s : Path) × (shape : Shape)
            × IsPartAt self.now.list.now s shape from stop misspelled }
        ensures { (at : SlotAt)
            → IsPartAt self.now.list.now (field_path at.numbers) at.shape from stop misspelled
            → IsPlaceInBytes self.now.form self.now.list.now at result }
    {
        if let Some(first) = misspelled {
            return Place::new(self.bytes_before(first), 0, ILL_TYPED);
        }
        let start = self.bytes_before(from);
        let end = self.bytes_before(stop);
        Place::new(start, end - start, self.state(Some(from), stop))
    }

    /// The place of a slot that isn't there, where the first place beyond it is `stop`.
    pub(crate) fn place_of_gap(&self, stop: usize) -> Place
        requires searched { IsSearched self.now }
        requires gap { (q : Path) × IsAbsentAt self.now.list.now q stop }
        ensures { (at : SlotAt) → IsAbsentAt self.now.list.now (field_path at.numbers) stop
            → IsPlaceInBytes self.now.form self.now.list.now at result }
    {
        let start = self.bytes_before(stop);
        Place::new(start, 0, self.state(None, stop))
    }
}

/// Writes the place of each slot at the beginning of the array, and answers how many slots there
/// are. It takes no memory.
fn put_places(
    form: Form,
    table: &Table,
    context: &Context,
    places: &mut [Place],
) -> Result<usize, PlaceRefusal>
    requires { written_in form context.now ≡ form }
    ensures { PutsPlaces form table.now context.now places.old places.new result }
{
    let size = table.slots();
    if places.len() < size {
        return Err(PlaceRefusal::Room { size });
    }
    let marker = first_marker(context);
    let list = context.list();
    Searched { form, list, marker }.put_table(table, places);
    Ok(size)
}

/// Writes where each slot is in the bytes of a context, as [`places_into`] does, under a table that
/// was read before.
pub fn places_under(
    alloc: Global,
    table: &Table,
    context: &[u8],
    places: &mut [Place],
) -> Result<(Form, usize), PlaceRefusal>
    ensures { PlacesUnder table.now context.now places.old places.new result }
{
    let form = form_of(context);
    let context = read_context(alloc, context)?;
    let slots = put_places(form, table, &context, places)?;
    Ok((form, slots))
}

/// Writes where each slot of a table is in the bytes of a context, and whether it is exact, partial
/// or ill typed, at the beginning of `places`: one place for each slot, in the order of the table.
/// Answers the form of the bytes, and how many slots there are.
///
/// `table` is a table as `table_text::print_table` writes it, and `context` the bytes of a context
/// in either form. Only the slots of this table are looked at, each by itself: an ill-typed slot
/// keeps no other from being read. [`PlaceRefusal`] has what may be wrong, in the order in which it
/// is looked for; then `places` stays.
pub fn places_into(
    alloc: Global,
    table: &[u8],
    context: &[u8],
    places: &mut [Place],
) -> Result<(Form, usize), PlaceRefusal>
    ensures { Places table.now context.now places.old places.new result }
{
    let table = read_table(alloc, table)?;
    places_under(alloc, &table, context, places)
}

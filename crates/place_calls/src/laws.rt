//! Laws of places, each the contract of a function that does nothing.

ghost use Rattle.place_calls.specs.Chosen.{ChosenAreOfAll};
ghost use Rattle.place_calls.specs.Parts.{PlacesHoldFrames};
ghost use Rattle.place_calls.specs.Places.{HasOnePlace};
ghost use Rattle.place_calls.specs.Readers.{PartsTellValues, PlacesTellValues};

/// A slot has one place in the bytes of a context.
pub fn slots_have_one_place()
    ensures { HasOnePlace }
{}

/// The places of chosen slots are those which the places of all slots have at the chosen numbers.
pub fn chosen_are_of_all()
    ensures { ChosenAreOfAll }
{}

/// The bytes at the place of a slot that isn't ill typed are the frames of the slot's part, in the
/// form of the context's bytes.
pub fn places_hold_frames()
    ensures { PlacesHoldFrames }
{}

/// A reader that sees only the part of a typed slot can tell what the context says of the slot.
/// `Tells` says how, shape by shape.
pub fn parts_tell_values()
    ensures { PartsTellValues }
{}

/// So the bytes at the place of a slot that isn't ill typed are all that such a reader needs, with
/// their form and the slot's shape.
pub fn places_tell_values()
    ensures { PlacesTellValues }
{}

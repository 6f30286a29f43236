//! A law of accessors, the contract of a function that does nothing.

ghost use Rattle.accessor_gen.specs.Laws.{ValuesFitAtSlots};

/// A value of a slot's shape may be written there, where each atom of its own is within the limit:
/// the headers on the way to the slot always are.
pub fn values_fit_at_slots()
    ensures { ValuesFitAtSlots }
{}

//! Laws of the bytes of all lists, each the contract of a function that does nothing.

ghost use Rattle.wire_bytes.specs.Laws.{FormTwoEnds, FormsDifferByHead, OffsetsStand};

/// At the offset of an atom its bytes begin, in whatever form the list is written.
pub fn offsets_stand()
    ensures { OffsetsStand }
{}

/// A list has as many bytes in form two as in form one and those of the head, unless it is written
/// in form two in any case.
pub fn forms_differ_by_head()
    ensures { FormsDifferByHead }
{}

/// Bytes of form two that were cut on the way are no list's, unless nothing is left of them. Form
/// one has no such end: a prefix of its bytes may be the bytes of a shorter list.
pub fn form_two_ends()
    ensures { FormTwoEnds }
{}

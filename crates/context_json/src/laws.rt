//! Laws of contexts as JSON, each the contract of a function that does nothing.

ghost use Rattle.context_json.specs.Objects.{BlocksHaveSameData, HasOneContextJson};

/// A list has one text as JSON, in each form.
pub fn lists_have_one_json()
    ensures { HasOneContextJson }
{}

/// The block of a list, in each form, has the same data as the objects of its slots.
pub fn blocks_have_the_same_data()
    ensures { BlocksHaveSameData }
{}

//! Laws of all spellings of scalars.

ghost use Rattle.bag_model.specs.SpellingLaws.{SpellingsKeepOrder};

/// For every kind of scalars: the byte order of two spellings is the order of the values, a
/// spelling belongs to one value, and within a struct no field's spelling begins that of another
/// value.
pub fn spellings_keep_order()
    ensures { SpellingsKeepOrder }
{}

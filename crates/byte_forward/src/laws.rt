//! Laws of merges over all inputs, each the contract of a function that does nothing.

ghost use Rattle.byte_forward.specs.Laws.{MergesFit};

/// A merge of contexts, cut to whatever budget, has at most as many bytes as these together, and
/// those of a head.
pub fn merges_fit()
    ensures { MergesFit }
{}

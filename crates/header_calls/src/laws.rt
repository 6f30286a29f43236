//! Laws of extracts, each the contract of a function that does nothing.

ghost use Rattle.header_calls.specs.Laws.{ExtractsAreJoins};

/// A field is ended in an extract exactly where it is ended in what each part carries, and no part
/// was lost where one is. What is read of an extract is the join of what is read of its parts.
pub fn extracts_are_joins()
    ensures { ExtractsAreJoins }
{}

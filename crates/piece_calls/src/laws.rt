//! Laws of literals, each the contract of a function that does nothing.

ghost use Rattle.piece_calls.specs.Laws.{QuotesReadBack};

/// The literal of a text or of bytes says them, and is a write of them.
pub fn quotes_read_back()
    ensures { QuotesReadBack }
{}

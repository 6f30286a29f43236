//! Laws of the codes over all numbers, each the contract of a function that does nothing.

ghost use Rattle.lex_varint.specs.Laws.{UnsignedReadsBack, SignedReadsBack};
ghost use Rattle.lex_varint.specs.Laws.{UnsignedCodesStandApart, SignedCodesStandApart};
ghost use Rattle.lex_varint.specs.Laws.{UnsignedCodesKeepOrder, SignedCodesKeepOrder};

/// The code of an unsigned number is read back, whatever follows it.
pub fn unsigned_reads_back()
    ensures { UnsignedReadsBack }
{}

/// The code of a signed number is read back, whatever follows it.
pub fn signed_reads_back()
    ensures { SignedReadsBack }
{}

/// No code of an unsigned number begins that of another.
pub fn unsigned_codes_stand_apart()
    ensures { UnsignedCodesStandApart }
{}

/// No code of a signed number begins that of another.
pub fn signed_codes_stand_apart()
    ensures { SignedCodesStandApart }
{}

/// The order of two codes of unsigned numbers is that of the numbers, and where these are equal
/// that of what follows.
pub fn unsigned_codes_keep_order()
    ensures { UnsignedCodesKeepOrder }
{}

/// The order of two codes of signed numbers is that of the numbers, and where these are equal that
/// of what follows.
pub fn signed_codes_keep_order()
    ensures { SignedCodesKeepOrder }
{}

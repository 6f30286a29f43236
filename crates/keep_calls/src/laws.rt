//! Laws of what is kept, each the contract of a function that does nothing.

ghost use Rattle.keep_calls.specs.Laws.{KeepsContexts, KeepMerges, KeepsOnce, KeptSlotsSayTheSame, NothingElseLeaves, UnsaidIsAsExact, CutsAreTold, CutsAreToldWithin};

/// Of a context something is kept, which the plain program computes, and one list alone.
pub fn keeps_contexts()
    ensures { KeepsContexts }
{}

/// What is kept of a merge is the merge of what is kept of its contexts: it doesn't matter on which
/// side of a boundary branches meet.
pub fn keep_merges()
    ensures { KeepMerges }
{}

/// Of what is kept all is kept.
pub fn keeps_once()
    ensures { KeepsOnce }
{}

/// The slots of the table say the same as before, and are typed as before.
pub fn kept_slots_say_the_same()
    ensures { KeptSlotsSayTheSame }
{}

/// Each atom that leaves is at or below a slot of the table, with the headers around it as in the
/// context, or is told by the table alone.
pub fn nothing_else_leaves()
    ensures { NothingElseLeaves }
{}

/// Where others go unsaid, a slot of the table is exact where it was, and only there.
pub fn unsaid_is_as_exact()
    ensures { UnsaidIsAsExact }
{}

/// Where others are cut off, what is read as exact is what the context says, whatever table reads
/// it.
pub fn cuts_are_told()
    ensures { CutsAreTold }
{}

/// The same where what is kept is cut to a budget after it.
pub fn cuts_are_told_within()
    ensures { CutsAreToldWithin }
{}

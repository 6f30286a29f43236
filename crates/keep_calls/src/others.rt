//! What becomes of what isn't kept.

/// What becomes of atoms that are below no slot of the table.
#[derive(Clone, Copy, Debug, PartialEq, Eq)]
pub enum Others {
    /// They are cut off, and markers say so: no field reads as exact of which something was
    /// dropped, whatever table reads it.
    Cut,
    /// They go unsaid. Only markers among them are still told of: a slot of the table is as exact
    /// as before, for readers whose table is this one.
    Unsaid,
}

//! What a look through the bytes of a context tells.

/// What one look at the bytes of a context tells of it.
#[derive(Clone, Copy, Debug)]
pub struct Survey {
    /// How many atoms it has.
    pub atoms: usize,
    /// Whether one of them is too long for form one.
    pub has_long: bool,
}

//! Places of slots.

ghost use Rattle.std.specs.Prelude.{◌≡◌};

/// What a context says of the slot is all that was said of it.
pub const EXACT: u32 = 1;

/// Some of what was said of the slot may have been cut off.
pub const PARTIAL: u32 = 2;

/// Some atom of the slot isn't spelled as its type says.
pub const ILL_TYPED: u32 = 3;

/// Where the atoms of a slot are in the bytes of a context. C sees it as two lengths and two
/// numbers.
#[repr(C)]
#[derive(Clone, Copy, Debug)]
pub struct Place {
    /// How many bytes come before the slot's part: before what is below its header. Without a
    /// header, before the first atom beyond the slot. Of an ill-typed slot, before the first atom
    /// that isn't spelled as the type says.
    pub offset: usize,
    /// How many bytes the part has: the frames of its atoms. None without a header, and none of an
    /// ill-typed slot.
    pub length: usize,
    /// [`EXACT`], [`PARTIAL`] or [`ILL_TYPED`].
    pub state: u32,
    /// Always 0.
    pub zero: u32,
}

impl Place {
    /// The place of `length` bytes after `offset` bytes.
    pub(crate) fn new(offset: usize, length: usize, state: u32) -> Place
        ensures { result ≡ record { offset = offset; length = length; state = state; zero = 0 } }
    {
        let zero = 0;
        Place {
            offset,
            length,
            state,
            zero,
        }
    }
}

//! Inputs in an array.

/// The bytes of one of several inputs. C sees it as a pointer and a length.
#[repr(C)]
#[derive(Clone, Copy, Debug)]
pub struct Span<'a> {
    pub bytes: &'a [u8],
}

//! The trait of a codec, and its laws as calls.

ghost use Rattle.std.specs.Prelude.{◌≡◌, ◌≢◌, ℕ, List, ◌++◌, IfOk, OnOk, OnErr, IsTrue, ◌↔◌};
ghost use Rattle.scalar_types.specs.Codec.{Spells, IsSpelled, OneValue};
ghost use Rattle.context_model.specs.Orders.{atom_cmp};

use outside::Memory;
use std::alloc::{AllocError, AllocFailed, Global};
use std::cmp::Ordering;
use std::error::Error;
use std::fmt;

/// Why bytes gave no value.
#[derive(Clone, Copy, Debug, PartialEq, Eq)]
pub enum TakeFault {
    /// The bytes are no value's spelling.
    NotSpelled,
    /// There is no memory for the value.
    Memory,
}

impl fmt::Display for TakeFault {
    ghost use Rattle.std.specs.Prelude.{Some};
    ghost use Rattle.scalar_types.specs.FaultTexts.{take_fault_text};

    ghost output = { λ fault. Some (take_fault_text fault) };

    fn fmt<W: fmt::Write>(&self, f: &mut fmt::Formatter<W>) -> fmt::Result {
        match self {
            TakeFault::NotSpelled => write!(f, "NotSpelled"),
            TakeFault::Memory => write!(f, "out of memory"),
        }
    }
}

impl Error for TakeFault {}

impl From<Memory> for TakeFault {
    ghost use Rattle.std.specs.Prelude.{◌≡◌};
    ghost use Rattle.scalar_types.specs.declared.codec.TakeFault.TheVariants.{Memory};

    ghost from_gives = { λ _ fault. fault ≡ Memory };

    fn from(_memory: Memory) -> TakeFault {
        TakeFault::Memory
    }
}

impl From<AllocError> for TakeFault {
    ghost use Rattle.std.specs.Prelude.{◌≡◌};
    ghost use Rattle.scalar_types.specs.declared.codec.TakeFault.TheVariants.{Memory};

    ghost from_gives = { λ _ fault. fault ≡ Memory };

    fn from(_error: AllocError) -> TakeFault {
        TakeFault::Memory
    }
}

impl<T: Drop> From<AllocFailed<T>> for TakeFault {
    ghost use Rattle.std.specs.Prelude.{◌≡◌};
    ghost use Rattle.scalar_types.specs.declared.codec.TakeFault.TheVariants.{Memory};

    ghost from_gives = { λ _ fault. fault ≡ Memory };

    fn from(_error: AllocFailed<T>) -> TakeFault {
        TakeFault::Memory
    }
}

/// A type of values. Each value that fits has one spelling in bytes. A codec is a value of its own,
/// so that one type can serve numbers of 32 and of 64 bits, or structs of any fields.
///
/// `fits` and `spelling` are what an implementation says of itself, and `one_value` is the law that
/// it proves: a spelling belongs to one value.
pub trait Codec: Drop {
    /// The values.
    type Value: Drop;

    ghost fits: { Self → Self.Value → Type 0 };

    ghost spelling: { Self → Self.Value → List ℕ };

    /// Whether the value is of the codec's type and in its range. It takes no memory.
    fn fits(&self, value: &Self::Value) -> bool
        ensures { IsTrue result ↔ fits self.now value.now };

    /// Appends the value's spelling.
    fn put(&self, value: &Self::Value, into: &mut Vec<u8>) -> Result<(), Memory>
        requires { fits self.now value.now }
        ensures ok { OnOk result (into.new.items ≡ into.old.items ++ spelling self.now value.now) }
        ensures err { OnErr result (into.new.items ≡ into.old.items) };

    /// Whether the bytes are some value's spelling. It takes no memory.
    fn spelled(&self, bytes: &[u8]) -> bool
        ensures { IsTrue result ↔ IsSpelled (fits self.now) (spelling self.now) bytes.now };

    /// The value whose spelling is the whole slice.
    fn take(&self, alloc: Global, bytes: &[u8]) -> Result<Self::Value, TakeFault>
        ensures taken { IfOk result (Spells (fits self.now) (spelling self.now) bytes.now) }
        ensures refused { result ≡ Err TakeFault.NotSpelled
            → ¬ IsSpelled (fits self.now) (spelling self.now) bytes.now };

    /// The order of the values, which is that of the bytes of their spellings. It takes no memory.
    fn compare(&self, a: &Self::Value, b: &Self::Value) -> Ordering
        requires a_fits { fits self.now a.now }
        requires b_fits { fits self.now b.now }
        ensures { result ≡ atom_cmp (spelling self.now a.now) (spelling self.now b.now) };

    /// The same value again.
    fn copy(&self, value: &Self::Value) -> Result<Self::Value, Memory>
        ensures { IfOk result (λ copied. copied ≡ value.now) };

    /// The same codec again.
    fn copy_codec(&self) -> Result<Self, Memory>
        ensures { IfOk result (λ copied. copied ≡ self.now) };

    ghost one_value: { (c : Self) → OneValue (fits c) (spelling c) };
}

/// A value taken from its own spelling: it is the same value, and the spelling is never refused.
pub fn round_trip<C: Codec>(
    alloc: Global,
    codec: &C,
    value: &C::Value,
) -> Result<C::Value, TakeFault>
    requires { C.fits codec.now value.now }
    ensures same { IfOk result (λ taken. taken ≡ value.now) }
    ensures accepted { result ≢ Err TakeFault.NotSpelled }
{
    let mut spelling = Vec::new(alloc);
    codec.put(value, &mut spelling)?;
    codec.take(alloc, &spelling)
}

/// The spelling of what is taken from these bytes: it is the same bytes, and they are refused
/// exactly where no value has them as its spelling.
pub fn respelled<C: Codec>(alloc: Global, codec: &C, bytes: &[u8]) -> Result<Vec<u8>, TakeFault>
    ensures same { IfOk result (λ spelling. spelling.items ≡ bytes.now) }
    ensures spelled { IfOk result
        (λ _. IsSpelled (C.fits codec.now) (C.spelling codec.now) bytes.now) }
    ensures refused { result ≡ Err TakeFault.NotSpelled
        → ¬ IsSpelled (C.fits codec.now) (C.spelling codec.now) bytes.now }
{
    let value = codec.take(alloc, bytes)?;
    let mut spelling = Vec::new(alloc);
    codec.put(&value, &mut spelling)?;
    Ok(spelling)
}

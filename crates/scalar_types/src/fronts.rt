//! Codecs whose values tell by their bytes where they end.

ghost use Rattle.std.specs.Prelude.{◌≡◌, ℕ, List, IfSome, IsNone};
ghost use Rattle.scalar_types.specs.Codec.{Spells, IsSpelled};
ghost use Rattle.scalar_types.specs.Fronts.{Begins, BeginsWithSome, OneRest};

/// A codec whose values tell by their bytes where they end: no spelling begins another one.
///
/// It says again what fits and how that is spelled, since `whole` is called by the codec itself:
/// with `Codec` above this trait, the proof of such a call would lead back to itself.
pub(crate) trait Front {
    /// The values.
    type Value: Drop;

    ghost fits: { Self → Self.Value → Type 0 };

    ghost spelling: { Self → Self.Value → List ℕ };

    /// The value that begins these bytes, and what follows it. It takes no memory.
    fn front<'a>(&self, bytes: &'a [u8]) -> Option<(Self::Value, &'a [u8])>
        ensures found { IfSome result
            (λ read. Begins (fits self.now) (spelling self.now) bytes.now read.0 read.1.now) }
        ensures none { IsNone result
            → ¬ BeginsWithSome (fits self.now) (spelling self.now) bytes.now };

    ghost one_rest: { (c : Self) → OneRest (fits c) (spelling c) };
}

/// The value whose spelling is the whole slice. It takes no memory.
pub(crate) fn whole<F: Front>(codec: &F, bytes: &[u8]) -> Option<F::Value>
    ensures found { IfSome result (Spells (F.fits codec.now) (F.spelling codec.now) bytes.now) }
    ensures none { IsNone result → ¬ IsSpelled (F.fits codec.now) (F.spelling codec.now) bytes.now }
{
    let (value, rest) = codec.front(bytes)?;
    if rest.is_empty() { Some(value) } else { None }
}

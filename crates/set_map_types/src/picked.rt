//! One of the values of a codec, of which a join picks.

ghost use Rattle.std.specs.Prelude.{◌≡◌, Some, None, IfOk};
ghost use Rattle.std.specs.Cmp.{IsTotalOrder};
ghost use Rattle.std.specs.Option.{option_copied};
ghost use Rattle.std.specs.declared.cmp.Ordering.{Ordering};
ghost use Rattle.std.specs.declared.cmp.Ordering.TheVariants.{Equal};

use counter_type::Lattice;
use outside::Memory;
use scalar_types::Codec;
use std::cmp::Ordering;
use std::marker::{Model, PhantomData};

/// Which of two values of a codec stays: the one that comes first in this order.
pub trait Pick<C: Codec>: Drop {
    ghost order: { C → C.Value → C.Value → Ordering };

    /// The order of two values. It takes no memory.
    fn compare(codec: &C, a: &C::Value, b: &C::Value) -> Ordering
        requires a_fits { C.fits codec.now a.now }
        requires b_fits { C.fits codec.now b.now }
        ensures { result ≡ order codec.now a.now b.now };

    ghost total: { (c : C) → IsTotalOrder (order c) };

    ghost exact: { (c : C) (v w : C.Value) → C.fits c v → C.fits c w → order c v w ≡ Equal → v ≡ w };
}

/// A value of a codec, or none. Contracts see it as its codec and the value, which fits the codec.
/// A join keeps the value that comes first in the order of the pick.
#[derive(Drop)]
#[derive_where(Debug; C, C::Value)]
pub struct Picked<C: Codec, P: Pick<C>> {
    codec: C,
    value: Option<C::Value>,
    pick: PhantomData<P>,
}

impl<C: Codec, P: Pick<C>> Model for Picked<C, P> {
    ghost use Rattle.set_map_types.specs.Picks.{HeldOne, IfThere};

    ghost Value = { HeldOne C C.Value };

    ghost view = { λ picked. record { codec = picked.codec; value = picked.value } };

    ghost invariant = { λ picked. IfThere (C.fits picked.codec) picked.value };
}

impl<C: Codec, P: Pick<C>> Picked<C, P> {
    /// No value.
    pub fn new(codec: C) -> Result<Picked<C, P>, Memory>
        ensures { IfOk result (λ picked. (picked.codec ≡ codec) × (picked.value ≡ None)) }
    {
        Ok(Picked {
            codec,
            value: None,
            pick: PhantomData,
        })
    }

    /// One value, which fits the codec.
    pub fn of(codec: C, value: C::Value) -> Result<Picked<C, P>, Memory>
        requires { C.fits codec value }
        ensures { IfOk result (λ picked. (picked.codec ≡ codec) × (picked.value ≡ Some value)) }
    {
        Ok(Picked {
            codec,
            value: Some(value),
            pick: PhantomData,
        })
    }

    /// The value; `None` exactly where there is none.
    pub fn get(&self) -> Option<&C::Value>
        ensures { option_copied result ≡ self.now.value }
    {
        self.value.as_ref()
    }
}

impl<C: Codec, P: Pick<C>> Lattice for Picked<C, P> {
    ghost use Rattle.set_map_types.specs.Picks.{IsAbsent, SameCodecOfOne, one_joined, one_proper};
    ghost use Rattle.set_map_types.specs.PickLaws.{one_laws};

    ghost proper = { one_proper C.fits };

    ghost alike = { SameCodecOfOne };

    ghost joined = { one_joined P.order };

    ghost bottom = { IsAbsent };

    ghost laws = { one_laws C.fits P.order P.total P.exact };

    fn join(&mut self, other: &Picked<C, P>) -> Result<(), Memory> {
        if let Some(theirs) = &other.value {
            let stays = match &self.value {
                Some(ours) => P::compare(&self.codec, ours, theirs) != Ordering::Greater,
                None => false,
            };
            if !stays {
                let copied = self.codec.copy(theirs)?;
                self.value = Some(copied);
            }
        }
        Ok(())
    }

    fn is_bottom(&self) -> bool {
        self.value.is_none()
    }

    fn copy(&self) -> Result<Picked<C, P>, Memory> {
        let codec = self.codec.copy_codec()?;
        let value = match &self.value {
            Some(value) => Some(self.codec.copy(value)?),
            None => None,
        };
        Ok(Picked {
            codec,
            value,
            pick: PhantomData,
        })
    }
}

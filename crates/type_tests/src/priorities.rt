//! A codec of one's own, and the sets, the least and the greatest values that come with it.

ghost use Rattle.std.specs.Prelude.{IsTrue, ◌↔◌, ◌≤◌};

use counter_type::{Lattice, joins_commute};
use outside::Memory;
use scalar_types::{Codec, TakeFault};
use set_map_types::{Greatest, Least, SetOf};
use std::alloc::Global;
use std::cmp::Ordering;
use std::test::Fail;

/// The codec of priorities from 1 to 5, one byte each.
#[derive(Clone, Copy, Debug, PartialEq, Eq)]
struct Priority;

/// Whether the number is a priority.
fn is_priority(number: u8) -> bool
    ensures { IsTrue result ↔ ((1 ≤ number) × (number ≤ 5)) }
{
    1 <= number && number <= 5
}

impl Codec for Priority {
    ghost use Rattle.std.specs.Prelude.{◌≤◌, [], ◌∷◌, slice_index};
    ghost use Rattle.std.proofs.Common.{ap};

    type Value = u8;

    ghost fits = { λ _ number. (1 ≤ number) × (number ≤ 5) };

    ghost spelling = { λ _ number. number ∷ [] };

    ghost one_value = { λ _ _ _ _ _ same. ap (λ bytes. slice_index bytes 0) same };

    fn fits(&self, number: &u8) -> bool {
        is_priority(*number)
    }

    fn put(&self, number: &u8, into: &mut Vec<u8>) -> Result<(), Memory> {
        into.push(*number)?;
        Ok(())
    }

    fn spelled(&self, bytes: &[u8]) -> bool {
        match bytes {
            [number] => is_priority(*number),
            _ => false,
        }
    }

    fn take(&self, _alloc: Global, bytes: &[u8]) -> Result<u8, TakeFault> {
        match bytes {
            [number] if is_priority(*number) => Ok(*number),
            _ => Err(TakeFault::NotSpelled),
        }
    }

    fn compare(&self, a: &u8, b: &u8) -> Ordering {
        a.cmp(b)
    }

    fn copy(&self, number: &u8) -> Result<u8, Memory> {
        Ok(*number)
    }

    fn copy_codec(&self) -> Result<Priority, Memory> {
        Ok(Priority)
    }
}

#[test]
fn sets_of_priorities(rt: HostRuntime) -> Result<(), Fail> {
    let alloc = rt.alloc();
    let three = SetOf::of(alloc, Priority, 3)?;
    let one = SetOf::of(alloc, Priority, 1)?;
    let (first, second) = joins_commute(&three, &one)?;
    for both in [first, second] {
        assert_eq!(rt; both.len(), 2);
        assert_eq!(rt; both.get(0).copied(), Some(1));
        assert_eq!(rt; both.get(1).copied(), Some(3));
    }
    Ok(())
}

#[test]
fn least_priority(rt: HostRuntime) -> Result<(), Fail> {
    let mut least = Least::of(Priority, 3)?;
    least.join(&Least::of(Priority, 1)?)?;
    assert_eq!(rt; least.get().copied(), Some(1));
    assert!(rt; !least.is_bottom());
    Ok(())
}

#[test]
fn greatest_priority(rt: HostRuntime) -> Result<(), Fail> {
    let mut greatest = Greatest::of(Priority, 3)?;
    greatest.join(&Greatest::of(Priority, 5)?)?;
    assert_eq!(rt; greatest.get().copied(), Some(5));
    greatest.join(&Greatest::of(Priority, 1)?)?;
    assert_eq!(rt; greatest.get().copied(), Some(5));
    assert!(rt; !greatest.is_bottom());
    Ok(())
}

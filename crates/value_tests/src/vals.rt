//! Values that are made by hand, their copies, and what is generic over lattices.

use bag_value::laws::values_of_one_shape_are_joined;
use bag_value::{Entries, Entry, Val, Vals};
use counter_type::{Counts, Lattice, join_repeats, keeps_join_laws};
use outside::Memory;
use scalar_types::Scalar;
use std::alloc::Global;
use std::test::Fail;

/// The count of a writer.
fn count_of(value: &Val, writer: &[u8]) -> Option<u64> {
    match value {
        Val::Counter(counts) => counts.get(writer),
        _ => None,
    }
}

/// The value of a map or of a bag at this place.
fn value_at(value: &Val, at: usize) -> Option<&Val> {
    match value {
        Val::Map(entries) => Some(&entries.get(at)?.value),
        Val::Bag(values) => values.get(at),
        _ => None,
    }
}

/// A map of one key.
fn map_of(alloc: Global, key: u64, value: Val) -> Result<Val, Memory> {
    let key = Scalar::Unsigned(key);
    let mut entries = Entries::new(alloc);
    entries.push(Entry { key, value })?;
    Ok(Val::Map(entries))
}

/// A map of a map of counts: one writer's count.
fn nested(alloc: Global, count: u64) -> Result<Val, Memory> {
    let counts = Counts::of(alloc, b"w", count)?;
    map_of(alloc, 1, map_of(alloc, 7, Val::Counter(counts))?)
}

#[test]
fn joins_repeat(rt: HostRuntime) -> Result<(), Fail> {
    let same = join_repeats(&nested(rt.alloc(), 3)?)?;
    assert!(rt; !same.is_bottom());
    let inner = value_at(&same, 0).expect(&rt, "a map");
    let counts = value_at(inner, 0).expect(&rt, "counts");
    assert_eq!(rt; count_of(counts, b"w"), Some(3));
    assert!(rt; value_at(&same, 1).is_none());
    keeps_join_laws::<Val>();
    values_of_one_shape_are_joined();
    Ok(())
}

#[test]
fn values_of_a_bag(rt: HostRuntime) -> Result<(), Fail> {
    let mut values = Vals::new(rt.alloc());
    assert!(rt; values.is_empty());
    values.push(Val::Taint(false))?;
    values.push(Val::Taint(true))?;
    let copied = values.copy()?;
    assert_eq!(rt; copied.len(), 2);
    assert_eq!(rt; copied.as_slice().len(), 2);
    assert!(rt; matches!(copied.get(0), Some(Val::Taint(false))));
    assert!(rt; matches!(copied.get(1), Some(Val::Taint(true))));
    assert!(rt; copied.get(2).is_none());
    assert!(rt; !Val::Bag(copied).is_bottom());
    Ok(())
}

#[test]
fn entries_of_a_map(rt: HostRuntime) -> Result<(), Fail> {
    let mut entries = Entries::new(rt.alloc());
    assert!(rt; entries.is_empty());
    let value = Val::Taint(false);
    let entry = Entry {
        key: Scalar::Unsigned(1),
        value,
    };
    entries.push(entry.copy()?)?;
    let copied = entries.copy()?;
    assert_eq!(rt; copied.len(), 1);
    assert_eq!(rt; copied.as_slice().len(), 1);
    let entry = copied.get(0).expect(&rt, "an entry");
    assert!(rt; matches!(entry.key, Scalar::Unsigned(1)));
    assert!(rt; matches!(entry.value, Val::Taint(false)));
    assert!(rt; !Val::Map(copied).is_bottom());
    Ok(())
}

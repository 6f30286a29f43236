//! Least and greatest values, sets and maps, and their joins.

use counter_type::{Counts, Lattice, join_repeats, joins_commute, joins_regroup, keeps_join_laws};
use outside::{Memory, Text};
use scalar_types::{LexU, Utf8};
use set_map_types::{
    Greatest, Least, MapOf, SetOf, greatest_join_is_last, least_join_is_first, map_join_is_union,
    set_join_is_union,
};
use std::alloc::Global;
use std::process::Abort;
use std::test::Fail;

/// What the tests see of a set of texts.
fn seen(rt: &impl Abort, set: &SetOf<Utf8>, expected: &[&str]) {
    assert_eq!(rt; set.len(), expected.len());
    for at in 0..expected.len() {
        let value = set.get(at).expect(rt, "a value");
        assert_eq!(rt; value.as_str(), expected[at]);
    }
    assert!(rt; set.get(expected.len()).is_none());
}

#[test]
fn least_of_texts(rt: HostRuntime) -> Result<(), Fail> {
    assert!(rt; Least::new(Utf8)?.is_bottom());
    let a = Least::of(Utf8, Text::of(rt.alloc(), "a")?)?;
    assert!(rt; !a.is_bottom());
    assert_eq!(rt; a.copy()?.get().expect(&rt, "a value").as_str(), "a");
    Ok(())
}

#[test]
fn least_of_two(rt: HostRuntime) -> Result<(), Fail> {
    let nine = Least::of(LexU { wide: true }, 9)?;
    let seven = Least::of(LexU { wide: true }, 7)?;
    let (first, second) = joins_commute(&nine, &seven)?;
    assert_eq!(rt; *first.get().expect(&rt, "a value"), 7);
    assert_eq!(rt; *second.get().expect(&rt, "a value"), 7);
    Ok(())
}

#[test]
fn least_of_three(rt: HostRuntime) -> Result<(), Fail> {
    let none = Least::new(LexU { wide: true })?;
    let nine = Least::of(LexU { wide: true }, 9)?;
    let seven = Least::of(LexU { wide: true }, 7)?;
    let (first, second) = joins_regroup(&none, &nine, &seven)?;
    assert_eq!(rt; *first.get().expect(&rt, "a value"), 7);
    assert_eq!(rt; *join_repeats(&second)?.get().expect(&rt, "a value"), 7);
    keeps_join_laws::<Least<LexU>>();
    least_join_is_first::<LexU>();
    Ok(())
}

#[test]
fn greatest_of_two(rt: HostRuntime) -> Result<(), Fail> {
    let alloc = rt.alloc();
    assert!(rt; Greatest::new(Utf8)?.is_bottom());
    let a = Greatest::of(Utf8, Text::of(alloc, "a")?)?;
    let b = Greatest::of(Utf8, Text::of(alloc, "b")?)?;
    assert!(rt; !a.is_bottom());
    let (first, second) = joins_commute(&a, &b)?;
    assert_eq!(rt; first.get().expect(&rt, "a value").as_str(), "b");
    assert_eq!(rt; second.copy()?.get().expect(&rt, "a value").as_str(), "b");
    Ok(())
}

#[test]
fn greatest_of_three(rt: HostRuntime) -> Result<(), Fail> {
    let none = Greatest::new(LexU { wide: true })?;
    let seven = Greatest::of(LexU { wide: true }, 7)?;
    let nine = Greatest::of(LexU { wide: true }, 9)?;
    let (first, second) = joins_regroup(&none, &seven, &nine)?;
    assert_eq!(rt; *first.get().expect(&rt, "a value"), 9);
    assert_eq!(rt; *join_repeats(&second)?.get().expect(&rt, "a value"), 9);
    keeps_join_laws::<Greatest<LexU>>();
    greatest_join_is_last::<LexU>();
    Ok(())
}

#[test]
fn sets_of_texts(rt: HostRuntime) -> Result<(), Fail> {
    let alloc = rt.alloc();
    let none = SetOf::new(alloc, Utf8)?;
    assert!(rt; none.is_bottom());
    seen(&rt, &none, &[]);
    let a = SetOf::of(alloc, Utf8, Text::of(alloc, "a")?)?;
    let text = Text::of(alloc, "b")?;
    let b = SetOf::of(alloc, Utf8, text.copy()?)?;
    assert!(rt; !b.is_bottom());
    assert!(rt; b.contains(&text) && !a.contains(&text));
    let mut pushed = a.copy()?;
    pushed.push(text)?;
    seen(&rt, &pushed, &["a", "b"]);
    let (first, _) = joins_regroup(&pushed, &none, &b)?;
    seen(&rt, &join_repeats(&first)?, &["a", "b"]);
    Ok(())
}

#[test]
fn union_of_sets(rt: HostRuntime) -> Result<(), Fail> {
    let alloc = rt.alloc();
    let a = SetOf::of(alloc, Utf8, Text::of(alloc, "a")?)?;
    let b = SetOf::of(alloc, Utf8, Text::of(alloc, "b")?)?;
    let (first, second) = joins_commute(&b, &a)?;
    seen(&rt, &first, &["a", "b"]);
    seen(&rt, &second, &["a", "b"]);
    keeps_join_laws::<SetOf<Utf8>>();
    set_join_is_union::<Utf8>();
    Ok(())
}

#[test]
fn maps_of_counts(rt: HostRuntime) -> Result<(), Fail> {
    let alloc = rt.alloc();
    let key = Text::of(alloc, "k")?;
    let map = MapOf::of(alloc, Utf8, key.copy()?, Counts::of(alloc, b"w", 3)?)?;
    let same = join_repeats(&map)?;
    assert_eq!(rt; same.len(), 1);
    assert!(rt; same.contains(&key));
    assert_eq!(rt; same.value(&key).expect(&rt, "counts").get(b"w"), Some(3));
    let none: MapOf<Utf8, Counts> = MapOf::new(alloc, Utf8)?;
    assert!(rt; none.is_bottom() && !map.is_bottom());
    assert!(rt; none.value(&key).is_none());
    Ok(())
}

/// A map has two keys, and at the key `k` the writer `w` has the count 3.
fn has_both(rt: &impl Abort, alloc: Global, map: &MapOf<Utf8, Counts>) -> Result<(), Memory> {
    assert_eq!(rt; map.len(), 2);
    let key = Text::of(alloc, "k")?;
    assert_eq!(rt; map.value(&key).expect(rt, "counts").get(b"w"), Some(3));
    Ok(())
}

#[test]
fn joins_of_maps(rt: HostRuntime) -> Result<(), Fail> {
    let alloc = rt.alloc();
    let none: MapOf<Utf8, Counts> = MapOf::new(alloc, Utf8)?;
    let map = MapOf::of(
        alloc,
        Utf8,
        Text::of(alloc, "k")?,
        Counts::of(alloc, b"w", 3)?,
    )?;
    let empty = MapOf::of(alloc, Utf8, Text::of(alloc, "l")?, Counts::new(alloc))?;
    assert!(rt; !empty.is_bottom());
    let (joined, _) = joins_commute(&map, &empty)?;
    has_both(&rt, alloc, &joined.copy()?)?;
    let (joined, _) = joins_regroup(&map, &none, &empty)?;
    has_both(&rt, alloc, &joined)?;
    keeps_join_laws::<MapOf<Utf8, Counts>>();
    map_join_is_union::<Utf8, Counts>();
    Ok(())
}

/// A map of maps of counts: one writer's count, at a text and a number.
fn nested(
    alloc: Global,
    text: &str,
    number: u64,
    count: u64,
) -> Result<MapOf<Utf8, MapOf<LexU, Counts>>, Memory> {
    let counts = Counts::of(alloc, b"w", count)?;
    let inner = MapOf::of(alloc, LexU { wide: true }, number, counts)?;
    MapOf::of(alloc, Utf8, Text::of(alloc, text)?, inner)
}

#[test]
fn maps_of_maps(rt: HostRuntime) -> Result<(), Fail> {
    let alloc = rt.alloc();
    let map = nested(alloc, "k", 7, 3)?;
    let same = join_repeats(&map)?;
    assert_eq!(rt; same.len(), 1);
    let key = Text::of(alloc, "k")?;
    let inner = same.value(&key).expect(&rt, "a map");
    assert_eq!(rt; inner.len(), 1);
    assert_eq!(rt; inner.value(&7).expect(&rt, "counts").get(b"w"), Some(3));
    assert!(rt; inner.codec().wide);
    assert!(rt; SetOf::of(alloc, LexU { wide: true }, 7)?.codec().wide);
    Ok(())
}

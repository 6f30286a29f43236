//! Counts of writers, and their joins.

use counter_type::{
    Counts, Lattice, counts_join_is_union, join_repeats, joins_commute, joins_regroup,
    keeps_join_laws,
};
use std::process::Abort;
use std::test::Fail;

/// What the tests see of counts.
fn seen(rt: &impl Abort, counts: &Counts, expected: &[(&[u8], u64)]) {
    assert_eq!(rt; counts.len(), expected.len());
    for at in 0..expected.len() {
        let (writer, count) = counts.nth(at).expect(rt, "an entry");
        assert_eq!(rt; writer, expected[at].0);
        assert_eq!(rt; count, expected[at].1);
        assert_eq!(rt; counts.get(writer), Some(count));
    }
    assert!(rt; counts.nth(expected.len()).is_none());
}

#[test]
fn the_least_and_the_most(rt: HostRuntime) -> Result<(), Fail> {
    let alloc = rt.alloc();
    let none = Counts::new(alloc);
    assert!(rt; none.is_bottom());
    assert_eq!(rt; none.total(), 0);
    seen(&rt, &none, &[]);
    let mut most = Counts::of(alloc, b"a", u64::MAX)?;
    most.join(&Counts::of(alloc, b"b", u64::MAX)?)?;
    assert_eq!(rt; most.total(), 36_893_488_147_419_103_230);
    Ok(())
}

#[test]
fn counts_of_writers(rt: HostRuntime) -> Result<(), Fail> {
    let alloc = rt.alloc();
    let mut counts = Counts::of(alloc, b"a", 3)?;
    assert!(rt; !counts.is_bottom());
    seen(&rt, &counts.copy()?, &[(b"a", 3)]);
    counts.push(b"b", 2)?;
    seen(&rt, &counts, &[(b"a", 3), (b"b", 2)]);
    assert_eq!(rt; counts.total(), 5);
    assert_eq!(rt; counts.get(b"c"), None);
    Ok(())
}

/// Joins through the bound: of two values in both orders, of the first of these joins with itself,
/// and of three values in both groupings.
fn joins<L: Lattice>(a: &L, b: &L, c: &L) -> Result<(L, L, L, L, L), Fail>
    requires first_two { L.alike a.now b.now }
    requires last_two { L.alike b.now c.now }
    requires ends { L.alike a.now c.now }
{
    keeps_join_laws::<L>();
    let (one, other) = joins_commute(a, b)?;
    let twice = join_repeats(&one)?;
    let (first, second) = joins_regroup(a, b, c)?;
    Ok((one, other, twice, first, second))
}

#[test]
fn joins_of_counts(rt: HostRuntime) -> Result<(), Fail> {
    let alloc = rt.alloc();
    let mut a = Counts::of(alloc, b"a", 3)?;
    a.push(b"c", 1)?;
    let b = Counts::of(alloc, b"b", 2)?;
    let c = Counts::of(alloc, b"c", 5)?;
    let (one, other, twice, first, second) = joins(&a, &b, &c)?;
    seen(&rt, &one, &[(b"a", 3), (b"b", 2), (b"c", 1)]);
    seen(&rt, &other, &[(b"a", 3), (b"b", 2), (b"c", 1)]);
    seen(&rt, &twice, &[(b"a", 3), (b"b", 2), (b"c", 1)]);
    seen(&rt, &first, &[(b"a", 3), (b"b", 2), (b"c", 5)]);
    seen(&rt, &second, &[(b"a", 3), (b"b", 2), (b"c", 5)]);
    counts_join_is_union();
    Ok(())
}

#[test]
fn joins_of_common_writers(rt: HostRuntime) -> Result<(), Fail> {
    let alloc = rt.alloc();
    let mut a = Counts::of(alloc, b"a", 3)?;
    a.push(b"c", 1)?;
    let c = Counts::of(alloc, b"c", 5)?;
    let (back, _) = joins_commute(&c, &a)?;
    seen(&rt, &back, &[(b"a", 3), (b"c", 5)]);
    let mut alone = a.copy()?;
    alone.join(&Counts::new(alloc))?;
    seen(&rt, &alone, &[(b"a", 3), (b"c", 1)]);
    Ok(())
}

#[test]
fn joins_of_numbers_and_of_nothing(rt: HostRuntime) -> Result<(), Fail> {
    let _ = joins(&(), &(), &())?;
    let (one, other, twice, first, second) = joins(&3_u64, &5, &4)?;
    assert_eq!(rt; (one, other), (5, 5));
    assert_eq!(rt; twice, 5);
    assert_eq!(rt; (first, second), (5, 5));
    assert!(rt; 0_u64.is_bottom() && !one.is_bottom());
    Ok(())
}

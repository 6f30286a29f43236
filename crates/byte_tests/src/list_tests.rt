//! Lists that are made of atoms, and of other lists.

use atom_list::{AtomList, Builder, Context};
use fixture_bytes::{expect_atoms, expect_bytes, list_of};
use outside::Memory;
use std::alloc::Global;
use std::process::Abort;
use std::test::Fail;

/// Cuts a list to `keep` atoms and a marker.
fn cut(rt: &impl Abort, list: &mut AtomList, keep: usize) {
    assert!(rt; keep < list.len());
    list.cut_to_marker(keep);
}

#[test]
fn fronts_of_a_list_that_was_cut(rt: HostRuntime) -> Result<(), Fail> {
    let alloc = rt.alloc();
    let mut list = list_of(alloc, "f800 0000000007 0000000009")?;
    assert_eq!(rt; list.len(), 3);
    assert!(rt; list.framed_front(1) == Some(b"\x02\xf8\0"));
    cut(&rt, &mut list, 1);
    assert_eq!(rt; list.len(), 2);
    expect_atoms(alloc, &list.front(2)?, "f800 -")?;
    assert!(rt; list.framed_front(2).is_none());
    assert!(rt; list.framed_front(1) == Some(b"\x02\xf8\0"));
    let front = list.front(1)?;
    drop(list);
    expect_atoms(alloc, &front, "f800")?;
    let framed = front.framed().ok_or("the bytes don't stand in the buffer")?;
    expect_bytes(alloc, framed, "02f800")
}

#[test]
fn empty_lists(rt: HostRuntime) -> Result<(), Fail> {
    let alloc = rt.alloc();
    expect_atoms(alloc, &AtomList::new(alloc), "")?;
    expect_atoms(alloc, Context::empty(alloc).list(), "")
}

#[test]
fn lists_that_are_built(rt: HostRuntime) -> Result<(), Fail> {
    let alloc = rt.alloc();
    let mut built = Builder::with_room(alloc, 8, 1)?;
    built.push(b"\xf8\x00");
    expect_atoms(alloc, &built.finish()?, "f800")?;
    let mut exact = Builder::with_room(alloc, 5, 1)?;
    exact.push(b"\xf8\x00");
    expect_bytes(alloc, &exact.into_bytes(), "02f800")
}

#[test]
fn lists_that_grow(rt: HostRuntime) -> Result<(), Fail> {
    let alloc = rt.alloc();
    assert!(rt; Builder::with_room(alloc, 1 << 32, 0).is_err());
    let mut grown = Builder::with_room(alloc, 0, 0)?;
    grown.reserve(5, 1)?;
    grown.push(b"\xf8\x01");
    assert!(rt; grown.reserve((1 << 32) - 3, 0).is_err());
    expect_atoms(alloc, &grown.finish()?, "f801")
}

/// All atoms of a list, in a list of their own.
fn rest_of(alloc: Global, list: &AtomList) -> Result<AtomList, Memory> {
    let room = list.room();
    let mut built = Builder::with_room(alloc, room, list.len())?;
    built.push_rest(list, 0);
    built.finish()
}

/// The atoms of a list from one place to another, in a list of their own.
#[tactic(auto, using(crate::proofs::Rooms::room_of_run))]
fn run_of(
    rt: &impl Abort,
    alloc: Global,
    list: &AtomList,
    from: usize,
    to: usize,
) -> Result<AtomList, Memory> {
    assert!(rt; from <= to);
    assert!(rt; to <= list.len());
    let room = list.room();
    let mut built = Builder::with_room(alloc, room, list.len())?;
    built.push_run(list, from, to);
    built.finish()
}

#[test]
fn runs_of_lists(rt: HostRuntime) -> Result<(), Fail> {
    let alloc = rt.alloc();
    let mut origin = list_of(alloc, "f800 0061 0062 -")?;
    assert_eq!(rt; origin.room(), 10 + 2 * 4);
    expect_atoms(alloc, &run_of(&rt, alloc, &origin, 1, 3)?, "0061 0062")?;
    cut(&rt, &mut origin, 2);
    assert_eq!(rt; origin.room(), 6 + 2 * 2 + 3);
    expect_atoms(alloc, &run_of(&rt, alloc, &origin, 1, 3)?, "0061 -")
}

#[test]
fn lists_of_other_lists(rt: HostRuntime) -> Result<(), Fail> {
    let alloc = rt.alloc();
    let mut origin = list_of(alloc, "f800 0061 0062 -")?;
    let copy = origin.copy()?;
    cut(&rt, &mut origin, 2);
    expect_atoms(alloc, &rest_of(alloc, &origin)?, "f800 0061 -")?;
    drop(origin);
    let rest = rest_of(alloc, &copy)?;
    drop(copy);
    assert!(rt; rest.framed() == Some(b"\x02\xf8\x00\x02\0a\x02\0b\0"));
    expect_atoms(alloc, &rest, "f800 0061 0062 -")
}

//! Merges of contexts in threads.

ghost use Rattle.std.specs.Prelude.{◌<◌};

use atom_list::Context;
use fan_in::{merge_all, merge_alone};
use fixture_bytes::{context_of, expect_atoms};
use outside::{Gate, MeetingGate, Memory, Open};
use std::alloc::Global;
use std::process::Abort;
use std::sync::atomic::{AtomicUsize, Ordering};
use std::test::Fail;
use std::thread::Threads;

/// A context for each of these texts.
fn contexts_of(alloc: Global, texts: &[&'static str]) -> Result<Vec<Context>, Fail> {
    let mut contexts = Vec::new(alloc);
    for atoms in texts {
        contexts.push(context_of(alloc, atoms)?)?;
    }
    Ok(contexts)
}

/// That the merge of the contexts of a pool at some places has exactly these atoms, in threads and
/// on one.
fn expect_merge<R: Threads + Abort + Sync, G: Gate>(
    rt: &R,
    alloc: Global,
    gate: &G,
    pool: &[Context],
    places: &[usize],
    atoms: &str,
) -> Result<(), Fail> {
    assert!(rt; places.iter().all(|place| *place < pool.len()));
    let merged = merge_all(rt, alloc, gate, pool, places)?;
    expect_atoms(alloc, merged.list(), atoms)?;
    expect_atoms(alloc, merge_alone(alloc, pool, places)?.list(), atoms)
}

/// Contexts that are merged at places.
static POOL: [&str; 5] = [
    "f802 f177 0003",
    "f802 f177 0005",
    "f801 0007",
    "f803 00",
    "f801 0009",
];

/// Places in the pool, and the merge there.
static PLACES: [(&[usize], &str); 6] = [
    (&[], ""),
    (&[0], "f802 f177 0003"),
    (&[0, 0], "f802 f177 0003"),
    (&[0, 1], "f802 f177 0003 0005"),
    (&[1, 0], "f802 f177 0003 0005"),
    (&[3, 1, 2], "f801 0007 f802 f177 0005 f803 00"),
];

/// `count` places, the numbers below `below` again and again.
fn in_turn(alloc: Global, count: usize, below: usize) -> Result<Vec<usize>, Memory>
    requires { 0 < below }
{
    let mut places = Vec::new(alloc);
    for number in 0..count {
        places.push(number % below)?;
    }
    Ok(places)
}

#[test]
fn merges_at_places(rt: HostRuntime) -> Result<(), Fail> {
    let alloc = rt.alloc();
    let pool = contexts_of(alloc, &POOL)?;
    for (places, atoms) in &PLACES {
        expect_merge(&rt, alloc, &Open, &pool, places, atoms)?;
    }
    let all = "f801 0007 0009 f802 f177 0003 0005 f803 00";
    expect_merge(&rt, alloc, &Open, &pool, &in_turn(alloc, 4096, 5)?, all)
}

/// A gate that counts how often each half passes it.
#[derive(Drop)]
struct CountingGate {
    first: AtomicUsize,
    second: AtomicUsize,
}

impl Gate for CountingGate {
    fn enter(&self, piece: usize) {
        let half = if piece == 0 {
            &self.first
        } else {
            &self.second
        };
        half.fetch_add(1, Ordering::SeqCst);
    }
}

/// Numbers of places, and how often each half of them passes the gate.
static PASSES: [(usize, usize); 5] = [(0, 0), (1, 0), (2, 1), (63, 1), (64, 1)];

/// That the merge of an empty context at `count` places passes a gate.
fn expect_empty_merge<R: Threads + Abort + Sync, G: Gate>(
    rt: &R,
    alloc: Global,
    gate: &G,
    count: usize,
) -> Result<(), Fail> {
    let mut pool = Vec::new(alloc);
    pool.push(Context::empty(alloc))?;
    expect_merge(rt, alloc, gate, &pool, &in_turn(alloc, count, 1)?, "")
}

#[test]
fn halves_pass_the_gate(rt: HostRuntime) -> Result<(), Fail> {
    let alloc = rt.alloc();
    for (count, passes) in &PASSES {
        let gate = CountingGate {
            first: AtomicUsize::new(0),
            second: AtomicUsize::new(0),
        };
        expect_empty_merge(&rt, alloc, &gate, *count)?;
        let first = gate.first.load(Ordering::SeqCst);
        let second = gate.second.load(Ordering::SeqCst);
        assert_eq!(rt; (first, second), (*passes, *passes), "{count} places");
    }
    let meeting = MeetingGate::new(0, 1);
    expect_empty_merge(&rt, alloc, &meeting, 64)?;
    assert!(rt; meeting.have_met());
    Ok(())
}

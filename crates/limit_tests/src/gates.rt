//! Gates that the steps of a graph pass.

use fixture_program::{FILES, Objects, RUN, call};
use outside::{Gate, MeetingGate};
use std::alloc::Global;
use std::fmt::Write;
use std::process::Abort;
use std::sync::atomic::{AtomicBool, AtomicUsize, Ordering};
use std::test::Fail;
use std::thread::Threads;

/// The first step of a rank and its last one are run at the same time.
#[test]
fn steps_of_one_rank_meet(rt: HostRuntime) -> Result<(), Fail> {
    let alloc = rt.alloc();
    let mut input = String::from_str(alloc, "service a all\nstart 0 a\n")?;
    for step in 1..1_001 {
        writeln!(input, "branch {step} 0")?;
    }
    input.push_str("show 1000\n")?;
    let meeting = MeetingGate::new(1, 1_000);
    let mut objects = Objects::new(alloc, FILES, input.as_bytes())?;
    let status = call(&rt, alloc, &meeting, RUN, &mut objects)?;
    assert_eq!(rt; status, 0);
    let report =
        b"step 1000\nbytes -\nid exact -\ntags exact {}\nhops exact 0{}\ndebug exact off\nload exact {}\n";
    assert_eq!(rt; objects.out.taken(), report.as_slice());
    assert!(rt; meeting.have_met());
    Ok(())
}

/// A gate that counts the steps that pass it, adds up their numbers, and sees whether one comes
/// after a step of a higher number.
#[derive(Drop)]
struct Counting {
    steps: AtomicUsize,
    numbers: AtomicUsize,
    last: AtomicUsize,
    goes_back: AtomicBool,
}

impl Counting {
    /// No step has come yet.
    fn new() -> Counting {
        Counting {
            steps: AtomicUsize::new(0),
            numbers: AtomicUsize::new(0),
            last: AtomicUsize::new(0),
            goes_back: AtomicBool::new(false),
        }
    }
}

impl Gate for Counting {
    fn enter(&self, piece: usize) {
        self.steps.fetch_add(1, Ordering::SeqCst);
        self.numbers.fetch_add(piece, Ordering::SeqCst);
        if piece < self.last.swap(piece, Ordering::SeqCst) {
            self.goes_back.store(true, Ordering::SeqCst);
        }
    }
}

/// Arguments that run a graph, its lines, the status, how many steps pass, the sum of their
/// numbers, and whether a step passes after one of a higher number.
type Row = (&'static str, &'static str, u8, usize, usize, bool);

/// Loads are run rank by rank, and small graphs step by step. `why` runs the steps of a place that it
/// explains; where it refuses the place that it is asked for, no step is run.
static ROWS: [Row; 10] = [
    ("load 1", "", 0, 43, 903, true),
    ("load 10", "", 0, 421, 88_410, true),
    (
        "run q.bdl Req",
        "service a all\nstart 0 a\n",
        0,
        1,
        0,
        false,
    ),
    (
        "run q.bdl Req",
        "service a all\nstart 0 a\nbranch 1 0\nstart 2 a\n",
        0,
        3,
        3,
        false,
    ),
    (
        "run q.bdl Req",
        "service a all\nstart 0 a\nset 1 0 id 7\nbranch 2 0\njoin 3 1 2\njoin 4 3 1 2 0 3\n",
        0,
        5,
        10,
        false,
    ),
    (
        "runjson q.bdl Req",
        "service a all\nstart 0 a\nbranch 1 0\njoin 2 1 0\nshow 2\n",
        0,
        3,
        3,
        false,
    ),
    (
        "runtable t",
        "service a all\nrecv 0 a -\nforward 1 0 a\ntrim 2 1 9\njoin 3 1 2\n",
        0,
        4,
        6,
        false,
    ),
    (
        "why q.bdl Req 1 id",
        "service a all\nstart 0 a\nset 1 0 id 7\n",
        0,
        2,
        1,
        false,
    ),
    (
        "why q.bdl Req 9 id",
        "service a all\nstart 0 a\n",
        2,
        0,
        0,
        false,
    ),
    (
        "why q.bdl Req 0 ids",
        "service a all\nstart 0 a\n",
        2,
        0,
        0,
        false,
    ),
];

/// Each step that is run passes the gate of the call once.
fn all_pass<R: Abort + Threads + Sync>(rt: &R, alloc: Global, row: Row) -> Result<(), Fail> {
    let (line, input, wanted, steps, numbers, goes_back) = row;
    let counting = Counting::new();
    let mut objects = Objects::new(alloc, FILES, input.as_bytes())?;
    objects
        .library
        .add("t", b"baggage table 1\n0 0 id scalar fixed32\n")?;
    let status = call(rt, alloc, &counting, line, &mut objects)?;
    assert_eq!(rt; status, wanted, "{line}");
    assert_eq!(rt; counting.steps.load(Ordering::SeqCst), steps, "{line}");
    assert_eq!(rt; counting.numbers.load(Ordering::SeqCst), numbers, "{line}");
    assert_eq!(rt;
        counting.goes_back.load(Ordering::SeqCst),
        goes_back,
        "{line}"
    );
    Ok(())
}

#[test]
fn each_step_passes_the_gate(rt: HostRuntime) -> Result<(), Fail> {
    for row in &ROWS {
        all_pass(&rt, rt.alloc(), *row)?;
    }
    Ok(())
}

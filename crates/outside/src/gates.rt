//! A gate that pieces of parallel work pass.

use std::sync::atomic::{AtomicBool, Ordering};

/// What a piece of parallel work passes before it begins. A test can hold pieces back here, to see
/// that they run beside one another; no contract speaks of it.
pub trait Gate: Sync {
    /// The piece of this number is about to begin.
    fn enter(&self, piece: usize);
}

/// The gate that holds nothing back.
#[derive(Clone, Copy, Debug)]
pub struct Open;

impl Gate for Open {
    fn enter(&self, _piece: usize) {}
}

/// How often a piece looks for the other at most.
const LOOKS: u32 = 100_000_000;

/// One of two pieces that meet: its number, whether it has come, and whether it saw the other.
#[derive(Debug, Drop)]
struct Guest {
    piece: usize,
    came: AtomicBool,
    saw: AtomicBool,
}

impl Guest {
    /// The piece of this number, which hasn't come yet.
    fn new(piece: usize) -> Guest {
        Guest {
            piece,
            came: AtomicBool::new(false),
            saw: AtomicBool::new(false),
        }
    }

    /// Comes, and looks for the other for a while.
    fn meet(&self, other: &Guest) {
        self.came.store(true, Ordering::SeqCst);
        for _ in 0..LOOKS {
            if other.came.load(Ordering::SeqCst) {
                self.saw.store(true, Ordering::SeqCst);
                return;
            }
        }
    }
}

/// A gate for tests, where two pieces meet: each looks for the other for a while, and both see one
/// another only where they run at the same time. No other piece is held back.
#[derive(Debug, Drop)]
pub struct MeetingGate {
    first: Guest,
    second: Guest,
}

impl MeetingGate {
    /// The gate where the pieces of these two numbers meet.
    pub fn new(first: usize, second: usize) -> MeetingGate {
        MeetingGate {
            first: Guest::new(first),
            second: Guest::new(second),
        }
    }

    /// Whether each has seen the other.
    pub fn have_met(&self) -> bool {
        self.first.saw.load(Ordering::SeqCst) && self.second.saw.load(Ordering::SeqCst)
    }
}

impl Gate for MeetingGate {
    fn enter(&self, piece: usize) {
        if piece == self.first.piece {
            self.first.meet(&self.second);
        } else if piece == self.second.piece {
            self.second.meet(&self.first);
        }
    }
}

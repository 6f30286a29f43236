//! Which calls of an object in memory fail.

ghost use Rattle.std.specs.Prelude.{◌≡◌, ◌+◌, ◌-◌, ◌^◌, min, if◌then◌else◌, ◌==◌};
ghost use Rattle.std.specs.List.{list_any};
ghost use Rattle.outside.specs.Faults.{faults_in};

use crate::faults::FaultCount;

/// The numbers of the calls that fail, from 0, and the counts of calls and faults so far. The count
/// of calls stays at its last value once it has reached it.
#[derive(Debug, Drop)]
pub(crate) struct Failures {
    failing: Vec<u64>,
    calls: u64,
    pub(crate) faults: FaultCount,
}

impl Failures {
    /// No call was made yet.
    pub(crate) fn new(failing: Vec<u64>) -> Failures
        ensures failing { result.failing ≡ failing }
        ensures calls { result.calls ≡ 0 }
        ensures faults { faults_in result.faults ≡ 0 }
    {
        Failures {
            failing,
            calls: 0,
            faults: FaultCount::new(),
        }
    }

    /// Counts a call, and a fault where it is one of those that fail. Answers whether it is.
    pub(crate) fn next_fails(&mut self) -> bool
        ensures fails { result
            ≡ list_any (λ call. call == self.old.calls) self.old.failing.items }
        ensures failing { self.new.failing ≡ self.old.failing }
        ensures calls { self.new.calls ≡ min (self.old.calls + 1) (2 ^ 64 - 1) }
        ensures faults { faults_in self.new.faults ≡ (if result
            then min (faults_in self.old.faults + 1) (2 ^ 64 - 1)
            else faults_in self.old.faults) }
    {
        let fails = self.failing.as_slice().contains(&self.calls);
        self.calls = self.calls.saturating_add(1);
        if fails {
            self.faults.rise();
        }
        fails
    }
}

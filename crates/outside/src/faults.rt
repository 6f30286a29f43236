//! Counts of faults.

ghost use Rattle.std.specs.Prelude.{◌≡◌, ◌+◌, ◌-◌, ◌^◌, ◌≤◌, min};

/// How many of its calls an object outside has failed. The count never falls, and stays at
/// `u64::MAX` once it has reached it.
#[derive(Debug, Drop)]
pub struct FaultCount {
    count: u64,
    ghost in_range: { count ≤ 2 ^ 64 - 1 },
}

impl FaultCount {
    ghost use Rattle.outside.specs.Faults.{faults_in};

    /// No fault was counted yet.
    pub fn new() -> FaultCount
        ensures { faults_in result ≡ 0 }
    {
        FaultCount { count: 0 }
    }

    /// Counts a fault.
    pub fn rise(&mut self)
        ensures { faults_in self.new ≡ min (faults_in self.old + 1) (2 ^ 64 - 1) }
    {
        self.count = self.count.saturating_add(1);
    }
}

//! Numbers for random tests.

ghost use Rattle.std.specs.Prelude.{◌<◌};

/// A generator of numbers: SplitMix64 (Steele, Lea, Flood 2014).
#[derive(Drop)]
pub struct Dice {
    state: u64,
}

impl Dice {
    /// The generator that begins with this seed.
    pub fn new(seed: u64) -> Dice {
        Dice { state: seed }
    }

    /// The next number.
    pub fn next(&mut self) -> u64 {
        self.state = self.state.wrapping_add(0x9e37_79b9_7f4a_7c15);
        let mut mixed = self.state;
        mixed = (mixed ^ (mixed >> 30)).wrapping_mul(0xbf58_476d_1ce4_e5b9);
        mixed = (mixed ^ (mixed >> 27)).wrapping_mul(0x94d0_49bb_1331_11eb);
        mixed ^ (mixed >> 31)
    }

    /// A number below this one, which isn't 0.
    pub fn below(&mut self, bound: usize) -> usize
        requires { 0 < bound }
        ensures { result < bound }
    {
        (self.next() % bound as u64) as usize
    }

    /// One of two answers.
    pub fn flips(&mut self) -> bool {
        self.below(2) == 0
    }
}

//! Where bytes come from and where they go.

ghost use Rattle.std.specs.Prelude.{◌≡◌, ℕ, ◌-◌, ◌^◌, ◌≤◌, List, [], length, Option, Ok, IfOk};
ghost use Rattle.std.specs.Io.{ReadsAtMost};
ghost use Rattle.std.specs.Io.KnownBytes.{ReadConsumes, WriteAppends};
ghost use Rattle.outside.specs.Causes.{HasCause};

use crate::answers::Failed;

/// A stream of bytes to read.
///
/// `left` is the bytes not yet read, where the source tells them. `faults` counts faults: it rises
/// by one or more with each failed read and with nothing else, never falls, and stays at `u64::MAX`
/// once it has reached it.
pub trait Source {
    ghost left: { Self → Option (List ℕ) };

    ghost faults: { Self → ℕ };

    /// Puts the next bytes at the beginning of `into` and answers how many. For a buffer that isn't
    /// empty, 0 comes only at the end. A failed read takes no bytes.
    fn read(&mut self, into: &mut [u8]) -> Result<usize, Failed>
        ensures bound { ReadsAtMost result into.new }
        ensures bytes { ReadConsumes (left self.old) (left self.new) result into.new }
        ensures cause { HasCause (faults self.old) (faults self.new) result };

    ghost counted: { (source : Self) → faults source ≤ 2 ^ 64 - 1 };
}

/// A stream of bytes to write.
///
/// `written` is the bytes taken so far, where the sink tells them. `faults` counts faults: it rises
/// by one or more with each failed write and with nothing else, never falls, and stays at
/// `u64::MAX` once it has reached it.
pub trait Sink {
    ghost written: { Self → Option (List ℕ) };

    ghost faults: { Self → ℕ };

    /// Takes the first bytes of the piece and answers how many: 0 only for an empty piece. A failed
    /// write takes none.
    fn write(&mut self, piece: &[u8]) -> Result<usize, Failed>
        ensures bound { IfOk result (λ count. count ≤ length piece.now) }
        ensures bytes { WriteAppends (written self.old) (written self.new) result piece.now }
        ensures some { result ≡ Ok 0 → piece.now ≡ [] }
        ensures cause { HasCause (faults self.old) (faults self.new) result };

    ghost counted: { (sink : Self) → faults sink ≤ 2 ^ 64 - 1 };
}

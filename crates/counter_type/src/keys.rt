//! Keys in order.

ghost use Rattle.std.specs.Prelude.{◌≡◌, IfOk};
ghost use Rattle.std.specs.Cmp.{IsTotalOrder};
ghost use Rattle.counter_type.specs.Entries.{IsExact};
ghost use Rattle.std.specs.declared.cmp.Ordering.{Ordering};

use outside::Memory;
use std::cmp::Ordering;

/// What keys are compared and copied by.
///
/// `fits` says of a key that it may be compared, `order` is how. The order is `total`, and two keys
/// that fit and tie are one key: it is `exact`.
pub trait Keys {
    /// The keys.
    type Key: Drop;

    ghost fits: { Self → Self.Key → Type 0 };

    ghost order: { Self → Self.Key → Self.Key → Ordering };

    /// The order of two keys. It takes no memory.
    fn compare(&self, a: &Self::Key, b: &Self::Key) -> Ordering
        requires a_fits { fits self.now a.now }
        requires b_fits { fits self.now b.now }
        ensures { result ≡ order self.now a.now b.now };

    /// The same key again.
    fn copy_key(&self, key: &Self::Key) -> Result<Self::Key, Memory>
        ensures { IfOk result (λ copied. copied ≡ key.now) };

    ghost total: { (keys : Self) → IsTotalOrder (order keys) };

    ghost exact: { (keys : Self) → IsExact (fits keys) (order keys) };
}

//! Values that are joined.

ghost use Rattle.std.specs.Prelude.{◌≡◌, ◌↔◌, IsTrue, IfOk, OnOk, OnErr};
ghost use Rattle.counter_type.specs.Lattice.{LatticeLaws};

use outside::Memory;

/// Values of which two that are alike are joined: the join says all that either says, and nothing
/// else. Its order, grouping and repetition change nothing.
///
/// `proper` holds of every value of the type, and is what the laws rest on; `is_bottom` tells it of
/// a value. `alike` says of two values that they may be joined, `joined` is their join, and a
/// `bottom` says nothing.
pub trait Lattice: Drop {
    ghost proper: { Self → Type 0 };

    ghost alike: { Self → Self → Type 0 };

    ghost joined: { Self → Self → Self };

    ghost bottom: { Self → Type 0 };

    /// Joins the other value to this one. Where memory runs out, this one stays unchanged.
    fn join(&mut self, other: &Self) -> Result<(), Memory>
        requires { alike self.old other.now }
        ensures ok { OnOk result (self.new ≡ joined self.old other.now) }
        ensures err { OnErr result (self.new ≡ self.old) };

    /// Whether the value says nothing.
    fn is_bottom(&self) -> bool
        ensures known { proper self.now }
        ensures value { IsTrue result ↔ bottom self.now };

    /// The same value again.
    fn copy(&self) -> Result<Self, Memory>
        ensures { IfOk result (λ made. made ≡ self.now) };

    ghost laws: { LatticeLaws proper alike joined bottom };
}

/// The lattice of one value, which says nothing. A set is a map to it.
impl Lattice for () {
    ghost use Rattle.counter_type.specs.Lattice.{unit_laws};

    ghost proper = { λ _. Unit {0} };

    ghost alike = { λ _ _. Unit {0} };

    ghost joined = { λ unit _. unit };

    ghost bottom = { λ _. Unit {0} };

    ghost laws = { unit_laws };

    fn join(&mut self, _other: &()) -> Result<(), Memory> {
        Ok(())
    }

    fn is_bottom(&self) -> bool {
        true
    }

    fn copy(&self) -> Result<(), Memory> {
        Ok(())
    }
}

/// The laws of the join hold for every lattice.
pub fn keeps_join_laws<L: Lattice>()
    ensures { LatticeLaws L.proper L.alike L.joined L.bottom }
{}

/// The joins of two values in both orders. They are one value.
pub fn joins_commute<L: Lattice>(a: &L, b: &L) -> Result<(L, L), Memory>
    requires { L.alike a.now b.now }
    ensures first { IfOk result (λ joins. joins.0 ≡ L.joined a.now b.now) }
    ensures second { IfOk result (λ joins. joins.1 ≡ L.joined b.now a.now) }
    ensures same { IfOk result (λ joins. joins.0 ≡ joins.1) }
{
    // for the proof: these calls tell that the values are proper
    let _ = a.is_bottom();
    let _ = b.is_bottom();
    let mut first = a.copy()?;
    first.join(b)?;
    let mut second = b.copy()?;
    second.join(a)?;
    Ok((first, second))
}

/// The joins of three values in both groupings. They are one value.
pub fn joins_regroup<L: Lattice>(a: &L, b: &L, c: &L) -> Result<(L, L), Memory>
    requires first_two { L.alike a.now b.now }
    requires last_two { L.alike b.now c.now }
    requires ends { L.alike a.now c.now }
    ensures first { IfOk result (λ joins. joins.0 ≡ L.joined (L.joined a.now b.now) c.now) }
    ensures second { IfOk result (λ joins. joins.1 ≡ L.joined a.now (L.joined b.now c.now)) }
    ensures same { IfOk result (λ joins. joins.0 ≡ joins.1) }
{
    // for the proof: these calls tell that the values are proper
    let _ = a.is_bottom();
    let _ = b.is_bottom();
    let _ = c.is_bottom();
    let mut first = a.copy()?;
    first.join(b)?;
    first.join(c)?;
    let mut rest = b.copy()?;
    rest.join(c)?;
    let mut second = a.copy()?;
    second.join(&rest)?;
    Ok((first, second))
}

/// The join of a value with itself. It is the value.
pub fn join_repeats<L: Lattice>(value: &L) -> Result<L, Memory>
    ensures { IfOk result (λ joined. joined ≡ value.now) }
{
    // for the proof: this call tells that the value is proper
    let _ = value.is_bottom();
    let mut joined = value.copy()?;
    joined.join(value)?;
    Ok(joined)
}

//! Joins of two values as a new one, built from copies: those of the fields of a bag and of the
//! keys of a map that the other says something of.

ghost use Rattle.std.specs.Prelude.{◌≡◌, ◌++◌, true, false, IfOk, OnOk};
ghost use Rattle.std.specs.Option.{option_map};
ghost use Rattle.context_model.specs.GreedyMerge.{first_of};
ghost use Rattle.bag_model.specs.Joins.{Alike, AlikeEntries, AreAlike, join, join_entries, join_values};
ghost use Rattle.bag_model.specs.Scalars.{pick_cmp};
ghost use Rattle.scalar_types.specs.KindViews.{kind_of};
ghost use Rattle.scalar_types.specs.Scalars.{value_of};
ghost use Rattle.bag_value.specs.Vals.{plain};

use crate::in_place::join_set;
use crate::lists::{Entries, Entry, Vals};
use crate::vals::{ScalarSet, Val};
use bag_model::Pick;
use counter_type::{Counts, Lattice};
use outside::Memory;
use scalar_types::Scalar;
use std::cmp::Ordering;

impl Val {
    /// The join of both.
    #[cycle(join)]
    pub(crate) fn joined(&self, other: &Val) -> Result<Val, Memory>
        requires { Alike (plain self.now) (plain other.now) }
        ensures { IfOk result (λ joined. plain joined ≡ join (plain self.now) (plain other.now)) }
    {
        match (self, other) {
            (Val::Taint(ours), Val::Taint(theirs)) => Ok(Val::Taint(*ours || *theirs)),
            (Val::Scalar(ours), Val::Scalar(theirs)) => {
                Ok(Val::Scalar(scalar_that_stays(Pick::Least, ours, theirs)?))
            }
            (Val::Greatest(ours), Val::Greatest(theirs)) => {
                Ok(Val::Greatest(scalar_that_stays(Pick::Greatest, ours, theirs)?))
            }
            (Val::Set(ours), Val::Set(theirs)) => Ok(Val::Set(union_of(ours, theirs)?)),
            (Val::Counter(ours), Val::Counter(theirs)) => {
                Ok(Val::Counter(greater_counts(ours, theirs)?))
            }
            (Val::Map(ours), Val::Map(theirs)) => Ok(Val::Map(ours.joined(theirs)?)),
            (Val::Bag(ours), Val::Bag(theirs)) => Ok(Val::Bag(ours.joined(theirs)?)),
            _ => unreachable!(),
        }
    }
}

impl Entries {
    /// The keys of both, and at a common key the join of its values.
    #[cycle(join)]
    pub(crate) fn joined(&self, other: &Entries) -> Result<Entries, Memory>
        requires { AlikeEntries self.now other.now }
        ensures { IfOk result (λ joined. joined ≡ join_entries self.now other.now) }
    {
        let ours = self.items.as_slice();
        let theirs = other.items.as_slice();
        let mut items = Vec::with_capacity(*self.items.allocator(), ours.len())?;
        let mut i = 0;
        let mut j = 0;
        while i < ours.len() && j < theirs.len() {
            let our = &ours[i];
            let their = &theirs[j];
            match our.key.order(&their.key) {
                Ordering::Less => {
                    items.push(our.copy()?)?;
                    i += 1;
                }
                Ordering::Equal => {
                    let key = our.key.copy()?;
                    let value = our.value.joined(&their.value)?;
                    items.push(Entry { key, value })?;
                    i += 1;
                    j += 1;
                }
                Ordering::Greater => {
                    items.push(their.copy()?)?;
                    j += 1;
                }
            }
        }
        append(&mut items, &ours[i..])?;
        append(&mut items, &theirs[j..])?;
        Ok(Entries { items })
    }
}

impl Vals {
    /// The joins of both, field by field.
    #[cycle(join)]
    pub(crate) fn joined(&self, other: &Vals) -> Result<Vals, Memory>
        requires { AreAlike self.now other.now }
        ensures { IfOk result (λ joined. joined ≡ join_values self.now other.now) }
    {
        let ours = self.items.as_slice();
        let theirs = other.items.as_slice();
        let mut items = Vec::with_capacity(*self.items.allocator(), ours.len())?;
        for at in 0..ours.len() {
            items.push(ours[at].joined(&theirs[at])?)?;
        }
        Ok(Vals { items })
    }
}

/// Adds copies of the entries at the end.
pub(crate) fn append(into: &mut Vec<Entry>, entries: &[Entry]) -> Result<(), Memory>
    ensures { OnOk result (into.new.items ≡ into.old.items ++ entries.now) }
{
    for entry in entries {
        into.push(entry.copy()?)?;
    }
    Ok(())
}

/// Of the scalars that are there the one that stays.
fn scalar_that_stays(
    pick: Pick,
    ours: &Option<Scalar>,
    theirs: &Option<Scalar>,
) -> Result<Option<Scalar>, Memory>
    ensures { IfOk result
        (λ stays. option_map value_of stays
        ≡ first_of (pick_cmp pick) (option_map value_of ours.now)
        (option_map value_of theirs.now)) }
{
    if theirs_stays(pick, ours, theirs) {
        copied_scalar(theirs)
    } else {
        copied_scalar(ours)
    }
}

/// Whether of the scalars that are there theirs is the one that stays, and not ours.
pub(crate) fn theirs_stays(pick: Pick, ours: &Option<Scalar>, theirs: &Option<Scalar>) -> bool
    ensures theirs { (result ≡ true)
        → (option_map value_of theirs.now
        ≡ first_of (pick_cmp pick) (option_map value_of ours.now)
        (option_map value_of theirs.now)) }
    ensures ours { (result ≡ false)
        → (option_map value_of ours.now
        ≡ first_of (pick_cmp pick) (option_map value_of ours.now)
        (option_map value_of theirs.now)) }
{
    match (ours, theirs) {
        (None, None) => false,
        (Some(_), None) => false,
        (None, Some(_)) => true,
        (Some(our), Some(their)) => match order_by(pick, our, their) {
            Ordering::Less => false,
            Ordering::Equal => false,
            Ordering::Greater => true,
        },
    }
}

/// The same scalar again, where there is one.
pub(crate) fn copied_scalar(scalar: &Option<Scalar>) -> Result<Option<Scalar>, Memory>
    ensures { IfOk result (λ copied. copied ≡ scalar.now) }
{
    match scalar {
        None => Ok(None),
        Some(scalar) => Ok(Some(scalar.copy()?)),
    }
}

/// The order in which the scalar that stays comes first.
fn order_by(pick: Pick, our: &Scalar, their: &Scalar) -> Ordering
    ensures { result ≡ pick_cmp pick (value_of our.now) (value_of their.now) }
{
    match pick {
        Pick::Least => our.order(their),
        Pick::Greatest => their.order(our),
    }
}

/// The elements of both sets, which are of one kind.
fn union_of(ours: &ScalarSet, theirs: &ScalarSet) -> Result<ScalarSet, Memory>
    requires { kind_of ours.now.codec ≡ kind_of theirs.now.codec }
    ensures { IfOk result
        (λ union. plain (Val.Set union)
        ≡ join (plain (Val.Set ours.now)) (plain (Val.Set theirs.now))) }
{
    let mut union = ours.copy()?;
    join_set(&mut union, theirs)?;
    Ok(union)
}

/// The writers of both, each with its greater count.
fn greater_counts(ours: &Counts, theirs: &Counts) -> Result<Counts, Memory>
    ensures { IfOk result
        (λ counts. plain (Val.Counter counts)
        ≡ join (plain (Val.Counter ours.now)) (plain (Val.Counter theirs.now))) }
{
    let mut counts = ours.copy()?;
    counts.join(theirs)?;
    Ok(counts)
}

//! Whether one value says no more than another.

ghost use Rattle.std.specs.Prelude.{◌≡◌, ◌↔◌, ◌<◌, ◌≤◌, ℕ, List, length, map, IsTrue};
ghost use Rattle.std.specs.Option.{option_map};
ghost use Rattle.context_model.specs.KeyedMerge.{IsAt};
ghost use Rattle.context_model.specs.GreedyMerge.{first_of};
ghost use Rattle.context_model.specs.Orders.{IsIn};
ghost use Rattle.bag_model.specs.declared.Pick.TheVariants as pick;
ghost use Rattle.bag_model.specs.Joins.{Alike, IsValueBelow, Proper, join_values};
ghost use Rattle.bag_model.specs.Scalars.{ScalarValue, pick_cmp};
ghost use Rattle.bag_model.specs.Values as model;
ghost use Rattle.scalar_types.specs.KindViews.{kind_of};
ghost use Rattle.scalar_types.specs.Scalars.{value_of};
ghost use Rattle.bag_value.specs.Vals.{plain};
ghost use Rattle.write_proof.specs.Belows.{AreOfOne, AreOfOneBag};

use bag_value::{Entries, ScalarSet, Val, Vals};
use counter_type::Counts;
use scalar_types::Scalar;

/// Whether of two scalars the second stays, where the least stays.
fn is_least(ours: &Option<Scalar>, theirs: &Option<Scalar>) -> bool
    ensures { IsTrue result
        ↔ (first_of (pick_cmp pick.Least) (option_map value_of ours.now)
        (option_map value_of theirs.now) ≡ option_map value_of theirs.now) }
{
    match (ours, theirs) {
        (None, _) => true,
        (Some(_), None) => false,
        (Some(our), Some(their)) => our.order(their).is_ge(),
    }
}

/// Whether of two scalars the second stays, where the greatest stays.
fn is_greatest(ours: &Option<Scalar>, theirs: &Option<Scalar>) -> bool
    ensures { IsTrue result
        ↔ (first_of (pick_cmp pick.Greatest) (option_map value_of ours.now)
        (option_map value_of theirs.now) ≡ option_map value_of theirs.now) }
{
    match (ours, theirs) {
        (None, _) => true,
        (Some(_), None) => false,
        (Some(our), Some(their)) => their.order(our).is_ge(),
    }
}

/// Whether all elements of the first set are in the second, which is of the same kind.
fn is_subset(ours: &ScalarSet, theirs: &ScalarSet) -> bool
    requires kinds { kind_of ours.now.codec ≡ kind_of theirs.now.codec }
    requires proper { Proper (plain (Val.Set ours.now)) }
    ensures { IsTrue result
        ↔ ((v : ScalarValue) → IsIn v (map value_of ours.now.items)
        → IsIn v (map value_of theirs.now.items)) }
{
    for at in 0..ours.len() {
        if !theirs.contains(ours.get(at).unwrap()) {
            return false;
        }
    }
    true
}

/// Whether the second counts have no less for each writer of the first.
fn are_counts_below(ours: &Counts, theirs: &Counts) -> bool
    requires { Proper (model.Value.Counter theirs.now) }
    ensures { IsTrue result
        ↔ ((writer : List ℕ) (n : ℕ) → IsAt writer n ours.now
        → (m : ℕ) × IsAt writer m theirs.now × (n ≤ m)) }
{
    for at in 0..ours.len() {
        let (writer, count) = ours.nth(at).unwrap();
        match theirs.get(writer) {
            Some(other) if count <= other => {}
            _ => return false,
        }
    }
    true
}

/// Whether all that a value says another says too. They are of one shape.
#[cycle(below)]
pub(crate) fn is_below(value: &Val, other: &Val) -> bool
    requires one { AreOfOne (plain value.now) (plain other.now) }
    requires alike { Alike (plain value.now) (plain other.now) }
    ensures { IsTrue result ↔ IsValueBelow (plain value.now) (plain other.now) }
{
    match (value, other) {
        (Val::Taint(ours), Val::Taint(theirs)) => !*ours || *theirs,
        (Val::Scalar(ours), Val::Scalar(theirs)) => is_least(ours, theirs),
        (Val::Greatest(ours), Val::Greatest(theirs)) => is_greatest(ours, theirs),
        (Val::Set(ours), Val::Set(theirs)) => is_subset(ours, theirs),
        (Val::Counter(ours), Val::Counter(theirs)) => are_counts_below(ours, theirs),
        (Val::Map(ours), Val::Map(theirs)) => are_entries_below(ours, theirs),
        (Val::Bag(ours), Val::Bag(theirs)) => are_values_below(ours, theirs),
        _ => unreachable!(),
    }
}

/// Whether at each key of the first map the second has a value that says no less.
#[cycle(below)]
fn are_entries_below(ours: &Entries, theirs: &Entries) -> bool
    requires { AreOfOne (model.Value.Map ours.now) (model.Value.Map theirs.now) }
    ensures { IsTrue result ↔ IsValueBelow (model.Value.Map ours.now) (model.Value.Map theirs.now) }
{
    for entry in ours.as_slice() {
        match theirs.find(&entry.key) {
            Some(other) => {
                if !is_below(&entry.value, other) {
                    return false;
                }
            }
            None => return false,
        }
    }
    true
}

/// Whether each value of the first bag says no more than that of the second at its place.
#[cycle(below)]
fn are_values_below(ours: &Vals, theirs: &Vals) -> bool
    requires { AreOfOneBag ours.now theirs.now }
    ensures { IsTrue result ↔ (join_values ours.now theirs.now ≡ theirs.now) }
{
    for at in 0..ours.len() {
        if !is_below(ours.get(at).unwrap(), theirs.get(at).unwrap()) {
            return false;
        }
    }
    true
}

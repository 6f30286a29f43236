//! Joins of values in place: what the other says is joined to what is there, and nothing else is
//! copied. All that needs memory is done before the first change, so that what is there stays
//! unchanged where memory runs out.

ghost use Rattle.std.specs.Prelude.{◌≡◌, length, IfOk, OnOk, OnErr};
ghost use Rattle.std.specs.Option.{option_map};
ghost use Rattle.context_model.specs.GreedyMerge.{first_of};
ghost use Rattle.bag_model.specs.Joins.{Alike, AreAlike, AreProper, join, join_values};
ghost use Rattle.bag_model.specs.Scalars.{pick_cmp};
ghost use Rattle.scalar_types.specs.KindViews.{kind_of};
ghost use Rattle.scalar_types.specs.Scalars.{value_of};
ghost use Rattle.bag_value.specs.InPlace.{AreForFields, with_news};
ghost use Rattle.bag_value.specs.Vals.{plain, plain_values};

use crate::joins::{copied_scalar, theirs_stays};
use crate::lists::Vals;
use crate::vals::{ScalarSet, Val};
use bag_model::Pick;
use counter_type::Lattice;
use outside::Memory;
use scalar_types::Scalar;
use std::alloc::Global;
use std::collections::VecDeque;

impl Val {
    /// Joins the other value to this one. Where memory runs out, this one stays unchanged.
    pub(crate) fn join_in_place(&mut self, other: &Val) -> Result<(), Memory>
        requires { Alike (plain self.old) (plain other.now) }
        ensures ok { OnOk result (plain self.new ≡ join (plain self.old) (plain other.now)) }
        ensures err { OnErr result (self.new ≡ self.old) }
    {
        match (self, other) {
            (Val::Taint(ours), Val::Taint(theirs)) => {
                *ours = *ours || *theirs;
                Ok(())
            }
            (Val::Scalar(ours), Val::Scalar(theirs)) => join_scalar(Pick::Least, ours, theirs),
            (Val::Greatest(ours), Val::Greatest(theirs)) => {
                join_scalar(Pick::Greatest, ours, theirs)
            }
            (Val::Set(ours), Val::Set(theirs)) => join_set(ours, theirs),
            (Val::Counter(ours), Val::Counter(theirs)) => ours.join(theirs),
            (Val::Map(ours), Val::Map(theirs)) => ours.join_in_place(theirs),
            (Val::Bag(ours), Val::Bag(theirs)) => ours.join_in_place(theirs),
            _ => unreachable!(),
        }
    }
}

impl Vals {
    /// Joins the other values to these, field by field. Where memory runs out, these stay
    /// unchanged.
    fn join_in_place(&mut self, other: &Vals) -> Result<(), Memory>
        requires { AreAlike self.old other.now }
        ensures ok { OnOk result (self.new ≡ join_values self.old other.now) }
        ensures err { OnErr result (self.new ≡ self.old) }
    {
        let alloc = *self.items.allocator();
        let news = brought(alloc, self.items.as_slice(), other.items.as_slice())?;
        put_in_place(&mut self.items, VecDeque::from(news));
        Ok(())
    }
}

/// The joins of the fields of which theirs say something, each with its field.
fn brought(alloc: Global, ours: &[Val], theirs: &[Val]) -> Result<Vec<(usize, Val)>, Memory>
    requires ours { AreProper (plain_values ours.now) }
    requires theirs { AreProper (plain_values theirs.now) }
    requires alike { AreAlike (plain_values ours.now) (plain_values theirs.now) }
    ensures fields { IfOk result (λ news. AreForFields (length ours.now) news.items) }
    ensures joined { IfOk result
        (λ news. plain_values (with_news ours.now news.items)
        ≡ join_values (plain_values ours.now) (plain_values theirs.now)) }
{
    let mut news = Vec::new(alloc);
    for at in 0..ours.len() {
        let our = &ours[at];
        let their = &theirs[at];
        if !their.says_nothing() {
            news.push((at, our.joined(their)?))?;
        }
    }
    Ok(news)
}

/// Puts each of the news in place of the value at its field. It takes no memory.
fn put_in_place(values: &mut Vec<Val>, mut news: VecDeque<(usize, Val)>)
    requires { AreForFields (length values.old.items) news.items }
    ensures { values.new.items ≡ with_news values.old.items news.items }
{
    while let Some((at, value)) = news.pop_front() {
        values[at] = value;
    }
}

/// Puts a copy of their scalar in place of ours where it is the one that stays.
fn join_scalar(pick: Pick, ours: &mut Option<Scalar>, theirs: &Option<Scalar>) -> Result<(), Memory>
    ensures ok { OnOk result
        (option_map value_of ours.new
        ≡ first_of (pick_cmp pick) (option_map value_of ours.old)
        (option_map value_of theirs.now)) }
    ensures err { OnErr result (ours.new ≡ ours.old) }
{
    if theirs_stays(pick, ours, theirs) {
        let copied = copied_scalar(theirs)?;
        *ours = copied;
    }
    Ok(())
}

/// Adds the elements of a set of the same kind.
pub(crate) fn join_set(ours: &mut ScalarSet, theirs: &ScalarSet) -> Result<(), Memory>
    requires { kind_of ours.old.codec ≡ kind_of theirs.now.codec }
    ensures ok { OnOk result
        (plain (Val.Set ours.new) ≡ join (plain (Val.Set ours.old)) (plain (Val.Set theirs.now))) }
    ensures err { OnErr result (ours.new ≡ ours.old) }
{
    // These tell the proof that the elements are in order.
    let _ = ours.is_bottom();
    let _ = theirs.is_bottom();
    ours.join(theirs)?;
    Ok(())
}

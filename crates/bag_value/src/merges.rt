//! Joins of maps in place: only the entries of keys that the other has are made anew, and all
//! entries are moved together. All that needs memory is done before the first entry is moved, so
//! that a map stays unchanged where memory runs out.

ghost use Rattle.std.specs.Prelude.{◌≡◌, ◌+◌, ◌≤◌, [], map, IfOk, OnOk, OnErr, vec_capacity};
ghost use Rattle.std.specs.VecDeque.{deque_len};
ghost use Rattle.context_model.specs.KeyedMerge.{brings, later, merge_with};
ghost use Rattle.bag_model.specs.Joins.{AlikeEntries, join, join_entries};
ghost use Rattle.bag_model.specs.Scalars.{scalar_cmp};
ghost use Rattle.bag_value.specs.Vals.{pair_of, plain_entries};

use crate::joins::append;
use crate::lists::{Entries, Entry};
use crate::moves::replace_first;
use counter_type::moves::{move_first, move_rest, room_for};
use outside::Memory;
use std::alloc::Global;
use std::cmp::Ordering;
use std::collections::VecDeque;
use std::mem;

impl Entries {
    /// Joins the other entries to these, key by key. Where memory runs out, these stay unchanged.
    pub(crate) fn join_in_place(&mut self, other: &Entries) -> Result<(), Memory>
        requires { AlikeEntries self.old other.now }
        ensures ok { OnOk result (self.new ≡ join_entries self.old other.now) }
        ensures err { OnErr result (self.new ≡ self.old) }
    {
        join_lists(&mut self.items, other.items.as_slice())?;
        Ok(())
    }
}

/// Joins their entries to ours. Where memory runs out, ours stay unchanged.
fn join_lists(ours: &mut Vec<Entry>, theirs: &[Entry]) -> Result<(), Memory>
    requires { AlikeEntries (plain_entries ours.old.items) (plain_entries theirs.now) }
    ensures ok { OnOk result
        (plain_entries ours.new.items
        ≡ join_entries (plain_entries ours.old.items) (plain_entries theirs.now)) }
    ensures err { OnErr result (ours.new.items ≡ ours.old.items) }
{
    if theirs.is_empty() {
        return Ok(());
    }
    let alloc = *ours.allocator();
    let news = brought(alloc, ours.as_slice(), theirs)?;
    let room = room_for(alloc, ours.len(), news.len())?;
    let entries = mem::replace(ours, Vec::new(alloc));
    *ours = merged(VecDeque::from(entries), VecDeque::from(news), room);
    Ok(())
}

/// What a join brings to our entries: each of theirs, with its value joined to ours where we have
/// the key.
fn brought(alloc: Global, ours: &[Entry], theirs: &[Entry]) -> Result<Vec<Entry>, Memory>
    requires { AlikeEntries (plain_entries ours.now) (plain_entries theirs.now) }
    ensures { IfOk result
        (λ news. map pair_of news.items
        ≡ brings scalar_cmp join (map pair_of ours.now) (map pair_of theirs.now)) }
{
    let mut news = Vec::with_capacity(alloc, theirs.len())?;
    let mut i = 0;
    let mut j = 0;
    while i < ours.len() && j < theirs.len() {
        let our = &ours[i];
        let their = &theirs[j];
        match our.key.order(&their.key) {
            Ordering::Less => i += 1,
            Ordering::Equal => {
                let key = their.key.copy()?;
                let value = our.value.joined(&their.value)?;
                news.push(Entry { key, value })?;
                i += 1;
                j += 1;
            }
            Ordering::Greater => {
                news.push(their.copy()?)?;
                j += 1;
            }
        }
    }
    append(&mut news, &theirs[j..])?;
    Ok(news)
}

/// Both lists in one, in the order of their keys, moved into a list that has room for them. It
/// takes no memory. At a common key the value is that of the news.
fn merged(mut ours: VecDeque<Entry>, mut news: VecDeque<Entry>, room: Vec<Entry>) -> Vec<Entry>
    requires empty { room.items ≡ [] }
    requires capacity { deque_len ours + deque_len news ≤ vec_capacity room }
    ensures { map pair_of result.items
        ≡ merge_with scalar_cmp later (map pair_of ours.items) (map pair_of news.items) }
{
    let mut entries = room;
    while !ours.is_empty() && !news.is_empty() {
        match ours[0].key.order(&news[0].key) {
            Ordering::Less => move_first(&mut ours, &mut entries),
            Ordering::Equal => replace_first(&mut ours, &mut news, &mut entries),
            Ordering::Greater => move_first(&mut news, &mut entries),
        }
    }
    move_rest(ours, &mut entries);
    move_rest(news, &mut entries);
    entries
}

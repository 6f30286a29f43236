//! Entries in order: keys with values, as counts, sets and maps hold them.

ghost use Rattle.std.specs.Prelude.{◌≡◌, ◌+◌, ◌<◌, ◌≤◌, List, [], ◌∷◌, ◌++◌, IfOk, OnOk, OnErr, vec_len, vec_capacity};
ghost use Rattle.std.specs.Option.{option_copied};
ghost use Rattle.std.specs.VecDeque.{deque_len};
ghost use Rattle.context_model.specs.Orders.{IsIn};
ghost use Rattle.context_model.specs.KeyedMerge.{AtOneKey, Finds, brings};
ghost use Rattle.context_model.specs.KeyedMerge.{keys_of, later, merge_with};
ghost use Rattle.counter_type.specs.Entries.{AreEntries, AreKeys};

use crate::keys::Keys;
use crate::lattice::Lattice;
use crate::moves::{move_first, move_rest, room_for};
use outside::Memory;
use std::alloc::Global;
use std::cmp::Ordering;
use std::collections::VecDeque;
use std::mem;

/// The value at a key, by binary search. It takes no memory.
///
/// The search is written out: std's calls its closure at whatever it meets, and asks that this may
/// be done at all values, while `compare` may be called at keys that fit alone.
pub fn value_at<'a, K: Keys, L: Lattice>(
    keys: &K,
    entries: &'a [(K::Key, L)],
    key: &K::Key,
) -> Option<&'a L>
    requires keys { AreKeys (K.fits keys.now) (K.order keys.now) (keys_of entries.now) }
    requires key_fits { K.fits keys.now key.now }
    ensures { Finds entries.now key.now (option_copied result) }
{
    let mut low = 0;
    let mut high = entries.len();
    while low < high {
        let middle = low + (high - low) / 2;
        let (held, value) = &entries[middle];
        match keys.compare(held, key) {
            Ordering::Less => low = middle + 1,
            Ordering::Equal => return Some(value),
            Ordering::Greater => high = middle,
        }
    }
    None
}

/// Joins their entries to ours, with the values of a common key joined. Where memory runs out, ours
/// stay unchanged: all that can fail is done before the first entry is moved.
pub fn join_entries<K: Keys, L: Lattice>(
    keys: &K,
    ours: &mut Vec<(K::Key, L)>,
    theirs: &[(K::Key, L)],
) -> Result<(), Memory>
    requires ours { AreEntries (K.fits keys.now) (K.order keys.now) L.proper ours.old.items }
    requires theirs { AreEntries (K.fits keys.now) (K.order keys.now) L.proper theirs.now }
    requires alike { AtOneKey L.alike ours.old.items theirs.now }
    ensures ok { OnOk result
        (ours.new.items ≡ merge_with (K.order keys.now) L.joined ours.old.items theirs.now) }
    ensures err { OnErr result (ours.new.items ≡ ours.old.items) }
{
    if theirs.is_empty() {
        return Ok(());
    }
    let alloc = *ours.allocator();
    let news = brought(alloc, keys, ours, theirs)?;
    let room = room_for(alloc, ours.len(), news.len())?;
    let entries = mem::replace(ours, Vec::new(alloc));
    *ours = merged(keys, VecDeque::from(entries), VecDeque::from(news), room);
    Ok(())
}

/// The same entries again.
pub fn copied_entries<K: Keys, L: Lattice>(
    alloc: Global,
    keys: &K,
    entries: &[(K::Key, L)],
) -> Result<Vec<(K::Key, L)>, Memory>
    ensures { IfOk result (λ copied. copied.items ≡ entries.now) }
{
    let mut copied = Vec::with_capacity(alloc, entries.len())?;
    append(keys, &mut copied, entries)?;
    Ok(copied)
}

/// What a join brings to our entries: a copy of each of theirs, with its value joined to a copy of
/// ours where we have the key.
fn brought<K: Keys, L: Lattice>(
    alloc: Global,
    keys: &K,
    ours: &[(K::Key, L)],
    theirs: &[(K::Key, L)],
) -> Result<Vec<(K::Key, L)>, Memory>
    requires ours { AreEntries (K.fits keys.now) (K.order keys.now) L.proper ours.now }
    requires theirs { AreEntries (K.fits keys.now) (K.order keys.now) L.proper theirs.now }
    requires alike { AtOneKey L.alike ours.now theirs.now }
    ensures { IfOk result
        (λ news. news.items ≡ brings (K.order keys.now) L.joined ours.now theirs.now) }
{
    let mut news = Vec::with_capacity(alloc, theirs.len())?;
    let mut i = 0;
    let mut j = 0;
    while i < ours.len() && j < theirs.len() {
        let (our_key, our_value) = &ours[i];
        let (key, value) = &theirs[j];
        match keys.compare(our_key, key) {
            Ordering::Less => i += 1,
            Ordering::Equal => {
                let joined = join_of(our_value, value)?;
                push_entry(keys, &mut news, key, joined)?;
                i += 1;
                j += 1;
            }
            Ordering::Greater => {
                push_entry(keys, &mut news, key, value.copy()?)?;
                j += 1;
            }
        }
    }
    append(keys, &mut news, &theirs[j..])?;
    Ok(news)
}

/// The join of two values.
fn join_of<L: Lattice>(ours: &L, theirs: &L) -> Result<L, Memory>
    requires { L.alike ours.now theirs.now }
    ensures { IfOk result (λ joined. joined ≡ L.joined ours.now theirs.now) }
{
    let mut joined = ours.copy()?;
    joined.join(theirs)?;
    Ok(joined)
}

/// Adds copies of the entries at the end.
fn append<K: Keys, L: Lattice>(
    keys: &K,
    into: &mut Vec<(K::Key, L)>,
    entries: &[(K::Key, L)],
) -> Result<(), Memory>
    ensures { OnOk result (into.new.items ≡ into.old.items ++ entries.now) }
{
    for (key, value) in entries {
        push_entry(keys, into, key, value.copy()?)?;
    }
    Ok(())
}

/// Adds a copy of the key with a value at the end.
fn push_entry<K: Keys, L: Lattice>(
    keys: &K,
    into: &mut Vec<(K::Key, L)>,
    key: &K::Key,
    value: L,
) -> Result<(), Memory>
    ensures { OnOk result (into.new.items ≡ into.old.items ++ (key.now, value) ∷ []) }
{
    into.push((keys.copy_key(key)?, value))?;
    Ok(())
}

/// Both lists in one, in the order of their keys, moved into a list that has room for them. It
/// takes no memory. At a common key the value is that of the news.
fn merged<K: Keys, L: Lattice>(
    keys: &K,
    mut ours: VecDeque<(K::Key, L)>,
    mut news: VecDeque<(K::Key, L)>,
    room: Vec<(K::Key, L)>,
) -> Vec<(K::Key, L)>
    requires ours_fit { (key : K.Key) → IsIn key (keys_of ours.items) → K.fits keys.now key }
    requires news_fit { (key : K.Key) → IsIn key (keys_of news.items) → K.fits keys.now key }
    requires empty { room.items ≡ [] }
    requires capacity { deque_len ours + deque_len news ≤ vec_capacity room }
    ensures { result.items ≡ merge_with (K.order keys.now) later ours.items news.items }
{
    let mut entries = room;
    while !ours.is_empty() && !news.is_empty() {
        match keys.compare(&ours[0].0, &news[0].0) {
            Ordering::Less => move_first(&mut ours, &mut entries),
            Ordering::Equal => replace_first(&mut ours, &mut news, &mut entries),
            Ordering::Greater => move_first(&mut news, &mut entries),
        }
    }
    move_rest(ours, &mut entries);
    move_rest(news, &mut entries);
    entries
}

/// Moves the first key of ours to the end of the entries, with the first value of the news.
fn replace_first<K: Drop, L: Drop>(
    ours: &mut VecDeque<(K, L)>,
    news: &mut VecDeque<(K, L)>,
    into: &mut Vec<(K, L)>,
)
    requires some { 0 < deque_len ours.old }
    requires some_news { 0 < deque_len news.old }
    requires room { vec_len into.old < vec_capacity into.old }
    ensures moved { (our : K × L) × (new : K × L) × (ours.old.items ≡ our ∷ ours.new.items)
        × (news.old.items ≡ new ∷ news.new.items)
        × (into.new.items ≡ into.old.items ++ (our.0, new.1) ∷ []) }
    ensures fewer { deque_len ours.old ≡ deque_len ours.new + 1 }
    ensures fewer_news { deque_len news.old ≡ deque_len news.new + 1 }
    ensures more { vec_len into.new ≡ vec_len into.old + 1 }
    ensures capacity { vec_capacity into.old ≤ vec_capacity into.new }
{
    if let Some(our) = ours.pop_front() {
        if let Some(new) = news.pop_front() {
            into.push((our.0, new.1)).unwrap();
        }
    }
}

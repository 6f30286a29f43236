//! The move of a map's entry with another's value, for a join that takes all its memory before it
//! changes anything.

ghost use Rattle.std.specs.Prelude.{◌≡◌, ◌+◌, ◌<◌, ◌≤◌, [], ◌∷◌, ◌++◌, IfOk, vec_len, vec_capacity};
ghost use Rattle.std.specs.VecDeque.{deque_len};

use crate::lists::Entry;
use std::collections::VecDeque;

/// Moves the first key of ours to the end of the entries, with the first value of the news. It
/// takes no memory.
pub(crate) fn replace_first(
    ours: &mut VecDeque<Entry>,
    news: &mut VecDeque<Entry>,
    into: &mut Vec<Entry>,
)
    requires some { 0 < deque_len ours.old }
    requires some_news { 0 < deque_len news.old }
    requires room { vec_len into.old < vec_capacity into.old }
    ensures moved { (our : Entry) × (new : Entry) × (ours.old.items ≡ our ∷ ours.new.items)
        × (news.old.items ≡ new ∷ news.new.items)
        × (into.new.items ≡ into.old.items ++ (record { key = our.key; value = new.value }) ∷ []) }
    ensures fewer { deque_len ours.old ≡ deque_len ours.new + 1 }
    ensures fewer_news { deque_len news.old ≡ deque_len news.new + 1 }
    ensures more { vec_len into.new ≡ vec_len into.old + 1 }
    ensures capacity { vec_capacity into.old ≤ vec_capacity into.new }
{
    if let Some(our) = ours.pop_front() {
        if let Some(new) = news.pop_front() {
            let entry = Entry {
                key: our.key,
                value: new.value,
            };
            into.push(entry).unwrap();
        }
    }
}

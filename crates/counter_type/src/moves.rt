//! Moves between lists, for a join that takes all its memory before it changes anything.

ghost use Rattle.std.specs.Prelude.{◌≡◌, ◌+◌, ◌<◌, ◌≤◌, [], ◌∷◌, ◌++◌, IfOk, vec_len, vec_capacity};
ghost use Rattle.std.specs.VecDeque.{deque_len};

use outside::Memory;
use std::alloc::Global;
use std::collections::VecDeque;

/// An empty list with room for the elements of two lists, of `ours` and `news` elements.
pub fn room_for<T: Drop>(alloc: Global, ours: usize, news: usize) -> Result<Vec<T>, Memory>
    ensures empty { IfOk result (λ room. room.items ≡ []) }
    ensures capacity { IfOk result (λ room. ours + news ≤ vec_capacity room) }
{
    let count = ours.checked_add(news).ok_or(Memory)?;
    let room = Vec::with_capacity(alloc, count)?;
    Ok(room)
}

/// Moves the first element to the end of a list that has room for it. It takes no memory.
pub fn move_first<T: Drop>(from: &mut VecDeque<T>, into: &mut Vec<T>)
    requires some { 0 < deque_len from.old }
    requires room { vec_len into.old < vec_capacity into.old }
    ensures moved { (first : T) × (from.old.items ≡ first ∷ from.new.items)
        × (into.new.items ≡ into.old.items ++ first ∷ []) }
    ensures fewer { deque_len from.old ≡ deque_len from.new + 1 }
    ensures more { vec_len into.new ≡ vec_len into.old + 1 }
    ensures capacity { vec_capacity into.old ≤ vec_capacity into.new }
{
    if let Some(first) = from.pop_front() {
        into.push(first).unwrap();
    }
}

/// Moves all elements to the end of a list that has room for them. It takes no memory.
pub fn move_rest<T: Drop>(mut from: VecDeque<T>, into: &mut Vec<T>)
    requires { vec_len into.old + deque_len from ≤ vec_capacity into.old }
    ensures moved { into.new.items ≡ into.old.items ++ from.items }
    ensures more { vec_len into.new ≡ vec_len into.old + deque_len from }
    ensures capacity { vec_capacity into.old ≤ vec_capacity into.new }
{
    while !from.is_empty() {
        move_first(&mut from, into);
    }
}

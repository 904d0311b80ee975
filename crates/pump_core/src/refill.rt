//! What a crash keeps and what an opening finds.

ghost use Rattle.std.specs.Prelude.{◌≡◌, ◌+◌, ◌-◌, ◌<◌, ◌^◌, ◌&&◌, true, nat_lt, if◌then◌else◌, ◌++◌, ◌∷◌, [], length};
ghost use Rattle.std.specs.Prelude.{IfOk, Some, None, vec_len, vec_capacity};
ghost use Rattle.std.specs.List.{range_with_len};
ghost use Rattle.pump_core.specs.Events.{with_kept, with_answer};

use pump_frame::{OutOfMemory, Payload};
use std::alloc::Global;
use std::collections::VecDeque;

/// What a crash leaves in a pump: how many are removed, and the numbers in its hands and between
/// them.
#[derive(Drop)]
pub struct Refill {
    pub removed: u64,
    pub high_hand: Option<u64>,
    pub held: VecDeque<u64>,
    pub low_hand: Option<u64>,
}

/// Whether both hold.
pub fn both(one: bool, other: bool) -> bool
    ensures { result ≡ (one && other) }
{
    one && other
}

/// One more, or not.
pub fn counted(count: u64, more: bool) -> u64
    requires { count + 1 < 2 ^ 64 }
    ensures { result ≡ (if more then count + 1 else count) }
{
    if more { count + 1 } else { count }
}

/// The first of so many live numbers.
pub fn first_of(removed: u64, live: u32) -> Option<u64>
    ensures { result ≡ (if nat_lt 0 live then Some removed else None) }
{
    if 0 < live { Some(removed) } else { None }
}

/// The last accepted number, where all places are full.
pub fn last_of(accepted: u64, is_full: bool) -> Option<u64>
    requires { is_full ≡ true → 0 < accepted }
    ensures { result ≡ (if is_full then Some (accepted - 1) else None) }
{
    if is_full { Some(accepted - 1) } else { None }
}

/// So many numbers from this one on.
pub fn numbers_from(alloc: Global, from: u64, count: u32) -> Result<VecDeque<u64>, OutOfMemory>
    requires { from + count < 2 ^ 64 }
    ensures { IfOk result (λ numbers. numbers.items ≡ range_with_len from count) }
{
    let mut numbers = VecDeque::new(alloc);
    for i in 0..count {
        numbers.push_back(from + u64::from(i))?;
    }
    Ok(numbers)
}

/// The length of a list after a crash, which kept an unfinished message or not.
pub fn length_kept(list: &[Payload], unfinished: Option<Payload>, kept: bool) -> u64
    requires { length list.now + 1 < 2 ^ 64 }
    ensures { result ≡ length (with_kept kept unfinished list.now) }
{
    if kept && unfinished.is_some() {
        list.len() as u64 + 1
    } else {
        list.len() as u64
    }
}

/// Adds one more, where there is room for it.
pub fn put<T: Copy>(list: &mut Vec<T>, item: T)
    requires room { vec_len list.old < vec_capacity list.old }
    ensures { list.new.items ≡ list.old.items ++ item ∷ [] }
{
    list.push(item).unwrap();
}

/// Adds an unfinished message where the crash kept it.
pub fn keep(list: &mut Vec<Payload>, unfinished: Option<Payload>, kept: bool)
    requires room { vec_len list.old < vec_capacity list.old }
    ensures { list.new.items ≡ with_kept kept unfinished list.old.items }
{
    if kept && let Some(payload) = unfinished {
        put(list, payload);
    }
}

/// Adds the TAKEN of an unfinished message where the crash kept it.
pub fn keep_answer(
    returned: &mut Vec<u64>,
    received: &[Payload],
    unfinished: Option<Payload>,
    kept: bool,
)
    requires room { vec_len returned.old < vec_capacity returned.old }
    ensures { returned.new.items ≡ with_answer kept unfinished received.now returned.old.items }
{
    if kept && unfinished.is_some() {
        put(returned, received.len() as u64);
    }
}

// The memory of a record, made beforehand.
ghost use Rattle.std.specs.Prelude.{◌≡◌, ◌+◌, ◌≤◌, ◌<◌, ◌∷◌, [], length, All, IfOk, vec_len, vec_capacity};
ghost use Rattle.std.specs.VecDeque.{deque_len, deque_capacity};
ghost use Rattle.disk_model.specs.Spare.{HasSpare};

use crate::record::{Entry, Piece};
use pump_frame::OutOfMemory;
use std::alloc::Global;
use std::collections::VecDeque;

pub fn spare_buffers(alloc: Global, room: usize, count: u32) -> Result<Vec<Vec<u8>>, OutOfMemory>
    ensures count { IfOk result (λ spare. vec_len spare ≡ count) }
    ensures room { IfOk result (λ spare. All (HasSpare room) spare.items) }
{
    let mut spare = Vec::new(alloc);
    for _ in 0..count {
        spare.push(Vec::with_capacity(alloc, room)?)?;
    }
    Ok(spare)
}

fn filled(mut buffer: Vec<u8>, bytes: &[u8]) -> Piece
    requires empty { buffer.items ≡ [] }
    requires room { length bytes.now ≤ vec_capacity buffer }
    ensures { result ≡ bytes.now }
{
    if buffer.extend_from_slice(bytes).is_err() {
        unreachable!();
    }
    Piece::new(buffer)
}

// A copy of the bytes, in one of the buffers.
pub fn next_piece(spare: &mut Vec<Vec<u8>>, room: usize, bytes: &[u8]) -> Piece
    requires some { 0 < vec_len spare.old }
    requires buffers { All (HasSpare room) spare.old.items }
    requires fits { length bytes.now ≤ room }
    ensures piece { result ≡ bytes.now }
    ensures count { vec_len spare.new + 1 ≡ vec_len spare.old }
    ensures buffers { All (HasSpare room) spare.new.items }
{
    match spare.pop() {
        Some(buffer) => filled(buffer, bytes),
        None => unreachable!(),
    }
}

pub fn put_first(log: &mut VecDeque<Entry>, entry: Entry)
    requires { deque_len log.old < deque_capacity log.old }
    ensures items { log.new.items ≡ entry ∷ log.old.items }
    ensures len { deque_len log.new ≡ deque_len log.old + 1 }
    ensures capacity { deque_capacity log.new ≡ deque_capacity log.old }
{
    if log.push_front(entry).is_err() {
        unreachable!();
    }
}

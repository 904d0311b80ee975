// A room is filled from a source.

ghost use Rattle.std.specs.Prelude.{ℕ, ◌<◌, ◌≤◌, List, length, take, IfOk, OnErr};
ghost use Rattle.std.specs.Io.KnownBytes.{Consumes, IsAtEnd};
ghost use Rattle.pump_link.specs.Causes.{HasCause};

use pump_link::{ReadFault, Source};

// Reads until the room is full or the source is at its end, and answers how many bytes came.
pub fn fill<I: Source>(file: &mut I, room: &mut [u8]) -> Result<usize, ReadFault>
    ensures most { IfOk result (λ n. n ≤ length room.new) }
    ensures bytes { IfOk result (λ n. Consumes (I.left file.old) (I.left file.new)
        (take n room.new)) }
    ensures end { IfOk result (λ n. n < length room.new → IsAtEnd (I.left file.new)) }
    ensures part { OnErr result ((bytes : List ℕ) × Consumes (I.left file.old) (I.left file.new)
        bytes × (length bytes < length room.old)) }
    ensures cause { HasCause (I.faults file.old) (I.faults file.new) result }
{
    let mut at = 0;
    while at < room.len() {
        match file.read(&mut room[at..])? {
            0 => return Ok(at),
            n => at += n,
        }
    }
    Ok(at)
}

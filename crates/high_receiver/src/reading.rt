// How the records of a receiver's disk are read.
ghost use Rattle.std.specs.Prelude.{◌≡◌, ◌≤◌, ◌+◌, ℕ, List, [], ◌∷◌, false, length, drop, slice_index_or, IfOk, OnOk};
ghost use Rattle.std.specs.Prelude.{OnErr, IfErr};
ghost use Rattle.disk_model.specs.Disk.{Moves, Same, Answers};
ghost use Rattle.stable_buffer.specs.Register.{IsReady, register_disk, register_value};
ghost use Rattle.high_receiver.specs.Receiving.{MayFill};
ghost use Rattle.high_receiver.specs.Records.{RecordsFrom, HasSome, HasMore, Walks};

use disk_model::Disk;
use pump_frame::Payload;
use stable_buffer::{Device, Register};

// Where the record of message n stands. On a disk that tells nothing it is cut at the end.
fn place<D: Disk>(register: &mut Register<D>, n: u64) -> Result<u64, Device>
    requires ready { IsReady D.told register.old }
    requires from { 80 ≤ (register_value register.old).1 }
    ensures ready { OnOk result (IsReady D.told register.new) }
    ensures value { register_value register.new ≡ register_value register.old }
    ensures within { IfOk result (λ at. at ≤ (register_value register.old).1) }
    ensures place { IfOk result (λ at. D.told.tells → (most : ℕ) (messages : List (List ℕ))
        → HasSome most messages n (register_value register.old).1
        (D.told.reading (register_disk register.old))
        → RecordsFrom most (drop n messages) at (register_value register.old).1
        (D.told.reading (register_disk register.old))) }
    ensures moves { Moves D.told Same (register_disk register.old) (register_disk register.new) }

    ensures walks { Walks D.told (register_disk register.old) (register_disk register.new) result }
    ensures never { OnErr result (D.told.tells_plan
        → D.told.armed (register_disk register.old) ≡ false
        → (most : ℕ) (messages : List (List ℕ))
        → HasSome most messages n (register_value register.old).1
        (D.told.reading (register_disk register.old)) → ⊥) }
    ensures device { IfErr result (λ e. e.faults ≡ D.told.count (register_disk register.new)) }
{
    let end = register.value().1;
    let mut at = 80;
    for _ in 0..n {
        let record = 2 + register.read_length(at)? as u64;
        at = if end - at < record { end } else { at + record };
    }
    Ok(at)
}

// The message of the record at an offset, and where the record after it stands. Where the record is
// longer than the greatest length, or the disk fails, the payload stays as it was.
pub fn read_record<D: Disk>(
    register: &mut Register<D>,
    at: u64,
    most: u32,
    into: &mut Payload,
) -> Result<u64, Device>
    requires ready { IsReady D.told register.old }
    requires within { at ≤ (register_value register.old).1 }
    requires short { most ≤ 1024 }
    ensures ready { OnOk result (IsReady D.told register.new) }
    ensures value { register_value register.new ≡ register_value register.old }
    ensures within { IfOk result (λ next. next ≤ (register_value register.old).1) }
    ensures fills { MayFill most into.old into.new result }
    ensures found { IfOk result (λ next. D.told.tells
        → (message : List ℕ) (later : List (List ℕ))
        → RecordsFrom most (message ∷ later) at (register_value register.old).1
        (D.told.reading (register_disk register.old))
        → (into.new ≡ message) × (next ≡ at + (2 + length message))) }
    ensures moves { Moves D.told Same (register_disk register.old) (register_disk register.new) }
    ensures answers { Answers D.told ((message : List ℕ) × (later : List (List ℕ))
        × RecordsFrom most (message ∷ later) at (register_value register.old).1
        (D.told.reading (register_disk register.old)))
        (register_disk register.old) (register_disk register.new) result }
    ensures device { IfErr result (λ e. e.faults ≡ D.told.count (register_disk register.new)) }
{
    let end = register.value().1;
    let length = register.read_length(at)?;
    if length > most {
        return Ok(end);
    }
    let size = 2 + length as usize;
    let mut record = [0; 1026];
    register.read_beside(at, &mut record[..size])?;
    into.set(&record[2..size]);
    Ok(if end - at < size as u64 {
        end
    } else {
        at + size as u64
    })
}

// Message n. Where its record is longer than the greatest length, or the disk fails, the payload stays
// as it was.
pub fn read_message<D: Disk>(
    register: &mut Register<D>,
    n: u64,
    most: u32,
    into: &mut Payload,
) -> Result<(), Device>
    requires ready { IsReady D.told register.old }
    requires from { 80 ≤ (register_value register.old).1 }
    requires short { most ≤ 1024 }
    ensures ready { OnOk result (IsReady D.told register.new) }
    ensures value { register_value register.new ≡ register_value register.old }
    ensures fills { MayFill most into.old into.new result }
    ensures found { OnOk result (D.told.tells → (messages : List (List ℕ))
        → HasMore most messages n (register_value register.old).1
        (D.told.reading (register_disk register.old))
        → into.new ≡ slice_index_or messages n []) }
    ensures moves { Moves D.told Same (register_disk register.old) (register_disk register.new) }
    ensures answers { Answers D.told ((messages : List (List ℕ))
        × HasMore most messages n (register_value register.old).1
        (D.told.reading (register_disk register.old)))
        (register_disk register.old) (register_disk register.new) result }
    ensures device { IfErr result (λ e. e.faults ≡ D.told.count (register_disk register.new)) }
{
    let at = place(register, n)?;
    read_record(register, at, most, into)?;
    Ok(())
}

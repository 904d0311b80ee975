//! The file is written again from a receiver's messages.

ghost use Rattle.std.specs.Prelude.{◌≡◌, ◌≢◌, ℕ, ◌≤◌, List, [], true, false, Err};
ghost use Rattle.stable_buffer.specs.Log.{RecvStands};
ghost use Rattle.high_receiver.specs.Receiving.{IsRecvReady, recv_disk, recv_is_open, recv_row};
ghost use Rattle.pump_wrapper.specs.Gathers.{Gathers, GathersBy, GatherCause, IsDeviceFault, IsUnbroken};
ghost use Rattle.pump_wrapper.specs.HeldBack.{Held, held_in};
ghost use Rattle.pump_wrapper.specs.Receivers.{ReadsReceiver};
ghost use Rattle.pump_link.specs.Causes.{AppendsPrefix};

use crate::gathering::Gathering;
use crate::room::Room;
use disk_model::Disk;
use high_receiver::Receiver;
use pump_link::Sink;

/// What was gathered of a receiver's messages.
#[derive(Clone, Copy, PartialEq, Eq, Debug)]
pub struct Gathered {
    /// How many bytes their pieces have.
    pub bytes: u64,
    /// They are a whole file.
    pub whole: bool,
}

/// Why messages were not all gathered.
#[derive(Clone, Copy, PartialEq, Eq, Debug)]
pub enum GatherFault {
    /// A call of the disk failed: its count after that call.
    Device { faults: u64 },
    /// No file has these messages up to the one of this number, but some file has those before it.
    NotWrapped { number: u64 },
    /// A write failed.
    Write,
}

fn is_unwritten(gathered: &Result<Gathered, GatherFault>) -> bool
    ensures yes { result ≡ true → gathered.now ≡ Err GatherFault.Write }
    ensures no { result ≡ false → gathered.now ≢ Err GatherFault.Write }
{
    matches!(gathered, Err(GatherFault::Write))
}

/// Puts the bytes of the pieces into the room, which hands them on.
fn gather_held<D: Disk, O: Sink>(
    receiver: &mut Receiver<D>,
    room: &mut Room,
    out: &mut O,
    message: u32,
) -> Result<Gathered, GatherFault>
    requires ready { IsRecvReady D.told receiver.old }
    requires least { 9 ≤ message }
    requires greatest { message ≤ 1024 }
    requires empty { held_in room.old ≡ [] }

    ensures gathers { D.told.tells → (messages : List (List ℕ))
        → RecvStands (recv_row receiver.old) messages (D.told.reading (recv_disk receiver.old))
        → GathersBy (Held (O.written out.old) (O.written out.new) (held_in room.new)) (AppendsPrefix (O.written out.old)
        (O.written out.new)) message messages result }
    ensures ready { (IsDeviceFault result → ⊥) → IsRecvReady D.told receiver.new }
    ensures closed { IsDeviceFault result → recv_is_open receiver.new ≡ false }
    ensures keeps { ReadsReceiver D.told receiver.old receiver.new }

    ensures cause { GatherCause (D.told.count (recv_disk receiver.old))
        (D.told.count (recv_disk receiver.new)) (O.faults out.old) (O.faults out.new) result }
    ensures later { O.faults out.old ≤ O.faults out.new }
{
    let mut gathering = Gathering::new(message);
    let mut log = receiver.reader();
    for number in 0..receiver.count() {
        match log.advance(receiver) {
            Ok(()) => {}
            Err(device) => {
                return Err(GatherFault::Device {
                    faults: device.faults,
                });
            }
        }
        let Some(piece) = gathering.take(log.message()) else {
            return Err(GatherFault::NotWrapped { number });
        };
        match room.put(piece, out) {
            Ok(()) => {}
            Err(_) => return Err(GatherFault::Write),
        }
    }
    Ok(Gathered {
        bytes: gathering.bytes(),
        whole: gathering.is_whole(),
    })
}

/// Writes the bytes of the pieces among a receiver's messages, each of at most `message` bytes, 9 to
/// 1024. After `Device` and `NotWrapped` the bytes of the pieces before were written, and after `Write` a
/// prefix of the pieces' bytes.
pub fn gather<D: Disk, O: Sink>(
    receiver: &mut Receiver<D>,
    out: &mut O,
    message: u32,
) -> Result<Gathered, GatherFault>
    requires ready { IsRecvReady D.told receiver.old }
    requires least { 9 ≤ message }
    requires greatest { message ≤ 1024 }

    ensures gathers { D.told.tells → (messages : List (List ℕ))
        → RecvStands (recv_row receiver.old) messages (D.told.reading (recv_disk receiver.old))
        → Gathers message messages (O.written out.old) (O.written out.new) result }
    ensures ready { IsUnbroken result → IsRecvReady D.told receiver.new }
    ensures closed { IsDeviceFault result → recv_is_open receiver.new ≡ false }
    ensures keeps { ReadsReceiver D.told receiver.old receiver.new }

    ensures cause { GatherCause (D.told.count (recv_disk receiver.old))
        (D.told.count (recv_disk receiver.new)) (O.faults out.old) (O.faults out.new) result }
    ensures later { O.faults out.old ≤ O.faults out.new }
{
    let mut room = Room::new();
    let gathered = gather_held(receiver, &mut room, out, message);
    if is_unwritten(&gathered) {
        return gathered;
    }
    match room.flush(out) {
        Ok(()) => gathered,
        Err(_) => Err(GatherFault::Write),
    }
}

//! The messages of a receiver are looked for in a file.

ghost use Rattle.std.specs.Prelude.{◌≡◌, ℕ, ◌≤◌, false, List, OnOk};
ghost use Rattle.stable_buffer.specs.Log.{RecvStands};
ghost use Rattle.high_receiver.specs.Receiving.{IsRecvReady, recv_disk, recv_is_open, recv_row};
ghost use Rattle.pump_wrapper.specs.Comparing.{Compares, CompareCause, IsDeviceStop, SameBytes, TakesInAll};
ghost use Rattle.pump_wrapper.specs.Cutting.{MayCut, cut_message};
ghost use Rattle.pump_wrapper.specs.Receivers.{ReadsReceiver};

use crate::{Cut, Cutter};
use disk_model::Disk;
use high_receiver::Receiver;
use pump_frame::Payload;
use pump_link::Source;

/// Why a receiver's messages were not all found in a file.
#[derive(Clone, Copy, PartialEq, Eq, Debug)]
pub enum CompareFault {
    /// A call of the disk failed: its count after that call.
    Device { faults: u64 },
    /// The file has another message with this number, or none; those before it are the same.
    Differs { number: u64 },
    /// A read of the file failed.
    Read,
    /// The file has 2^48 bytes or more.
    TooLong,
}

/// Takes as many messages from a cutter as a receiver has, which are the same. After an Ok the cutter
/// goes on with the messages that the receiver has not.
pub fn skip_received<D: Disk, I: Source>(
    receiver: &mut Receiver<D>,
    cutter: &mut Cutter,
    file: &mut I,
) -> Result<(), CompareFault>
    requires ready { IsRecvReady D.told receiver.old }
    requires may { MayCut cutter.old }

    ensures compares { D.told.tells → (messages : List (List ℕ))
        → RecvStands (recv_row receiver.old) messages (D.told.reading (recv_disk receiver.old))
        → Compares messages cutter.old cutter.new (I.left file.old) (I.left file.new) result }
    ensures same { OnOk result (SameBytes cutter.old cutter.new (I.left file.old) (I.left file.new)) }
    ensures takes { TakesInAll cutter.old cutter.new (I.left file.old) (I.left file.new) result }
    ensures may { OnOk result (MayCut cutter.new) }
    ensures message { cut_message cutter.new ≡ cut_message cutter.old }
    ensures ready { (IsDeviceStop result → ⊥) → IsRecvReady D.told receiver.new }
    ensures closed { IsDeviceStop result → recv_is_open receiver.new ≡ false }
    ensures keeps { ReadsReceiver D.told receiver.old receiver.new }

    ensures cause { CompareCause (D.told.count (recv_disk receiver.old))
        (D.told.count (recv_disk receiver.new)) (I.faults file.old) (I.faults file.new) result }
    ensures later { I.faults file.old ≤ I.faults file.new }
{
    let mut taken = Payload::default();
    let mut wanted = Payload::default();
    let mut at = 80;
    for number in 0..receiver.count() {
        at = match receiver.at(number, at, &mut taken) {
            Ok(next) => next,
            Err(device) => {
                return Err(CompareFault::Device {
                    faults: device.faults,
                });
            }
        };
        match cutter.next(file, &mut wanted) {
            Cut::Message => {}
            Cut::Done => return Err(CompareFault::Differs { number }),
            Cut::Failed => return Err(CompareFault::Read),
            Cut::TooLong => return Err(CompareFault::TooLong),
        }
        if taken.as_slice() != wanted.as_slice() {
            return Err(CompareFault::Differs { number });
        }
    }
    Ok(())
}

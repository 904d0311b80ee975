// Low's disk against the receiver's.
ghost use Rattle.std.specs.Prelude.{◌≡◌, ◌⊎◌, ◌+◌, ◌<◌, ◌≤◌, ℕ, true, false, List, IfOk, OnOk, IfErr};
ghost use Rattle.stable_buffer.specs.Low.{IsLowReady, low_disk, low_row, low_count, low_is_open};
ghost use Rattle.stable_buffer.specs.Log.{RecvStands};
ghost use Rattle.high_receiver.specs.Receiving.{IsRecvReady, recv_disk, recv_row, recv_count, recv_is_open};
ghost use Rattle.recovery.specs.Agreement.{SlotsAgree, Disagrees};
ghost use Rattle.recovery.specs.Calls.{Calls, GivesSlot, is_device};
ghost use Rattle.recovery.specs.Comparisons.{TellsSame, TellsShut, CallsBoth, LeavesLow, LeavesReceiver};

use crate::Why;
use disk_model::Disk;
use high_receiver::Receiver;
use pump_frame::Payload;
use stable_buffer::LowStore;

fn are_equal(one: &Payload, other: &Payload) -> bool
    ensures equal { result ≡ true → one.now ≡ other.now }
    ensures unequal { result ≡ false → ¬ (one.now ≡ other.now) }
{
    one.as_slice() == other.as_slice()
}

// Whether message n is the same on both disks.
fn is_same<D: Disk>(low: &mut LowStore<D>, n: u64, receiver: &mut Receiver<D>) -> Result<bool, Why>
    requires low { IsLowReady D.told low.old }
    requires receiver { IsRecvReady D.told receiver.old }
    requires live { (n < low_count low.old) × (low_count low.old ≤ n + (low_row low.old).capacity) }
    requires taken { n < recv_count receiver.old }

    ensures same { IfOk result (λ b. TellsSame D.told low.old n receiver.old b) }
    ensures device { IfErr result (λ why. is_device why ≡ true) }
    ensures told { IfErr result (λ why. TellsShut D.told low.new receiver.new why) }
    ensures calls { CallsBoth D.told n low.old low.new receiver.old receiver.new }
    ensures called { IfOk result (λ b. b ≡ true → Calls D.told (recv_disk receiver.old) (recv_disk receiver.new) false
        × (D.told.tells_plan → GivesSlot D.told (low_row low.old) n (low_disk low.old))) }

    ensures open { OnOk result ((low_is_open low.new ≡ true) × (recv_is_open receiver.new ≡ true)) }
    ensures low { LeavesLow D.told low.old low.new }
    ensures receiver { LeavesReceiver D.told receiver.old receiver.new }
{
    let mut stored = Payload::default();
    let mut taken = Payload::default();
    match low.slot(n, &mut stored) {
        Ok(length) => {
            // A message that is too long is not given.
            if length != stored.len() {
                return Ok(false);
            }
        }
        Err(device) => {
            return Err(Why::Device {
                faults: device.faults,
            });
        }
    }
    if let Err(device) = receiver.message(n, &mut taken) {
        return Err(Why::Device {
            faults: device.faults,
        });
    }
    Ok(are_equal(&stored, &taken))
}

/// Whether the receiver has what low's disk has: no fewer messages than are removed, no more than
/// are accepted, and those that are on both disks the same. `Device` is told by the one of the two
/// that is no longer open; the other one is open still.
pub fn agree<D: Disk>(
    low: &mut LowStore<D>,
    removed: u64,
    receiver: &mut Receiver<D>,
) -> Result<(), Why>
    requires low { IsLowReady D.told low.old }
    requires receiver { IsRecvReady D.told receiver.old }
    requires between { (removed ≤ low_count low.old) × (low_count low.old ≤ removed + (low_row low.old).capacity) }

    ensures fine { OnOk result ((removed ≤ recv_count receiver.old) × (recv_count receiver.old ≤ low_count low.old)
        × (D.told.tells → (messages : List (List ℕ))
        → RecvStands (recv_row receiver.old) messages (D.told.reading (recv_disk receiver.old))
        → SlotsAgree (low_row low.old) removed (recv_count receiver.old) messages
        (D.told.reading (low_disk low.old)))) }
    ensures exact { IfErr result (λ why. is_device why ≡ false → D.told.tells → (messages : List (List ℕ))
        → RecvStands (recv_row receiver.old) messages (D.told.reading (recv_disk receiver.old))
        → Disagrees (low_row low.old) removed (recv_count receiver.old) (low_count low.old) messages
        (D.told.reading (low_disk low.old)) why) }
    ensures told { IfErr result (λ why. TellsShut D.told low.new receiver.new why) }

    // The disks are called where there is a message to compare, and else are as they were.
    ensures idle { (recv_count receiver.old ≤ removed) ⊎ (low_count low.old < recv_count receiver.old)
        → (low.new ≡ low.old) × (receiver.new ≡ receiver.old) }
    ensures calls { removed < recv_count receiver.old → recv_count receiver.old ≤ low_count low.old
        → CallsBoth D.told removed low.old low.new receiver.old receiver.new }

    ensures open { OnOk result ((low_is_open low.new ≡ true) × (recv_is_open receiver.new ≡ true)) }
    ensures low { LeavesLow D.told low.old low.new }
    ensures receiver { LeavesReceiver D.told receiver.old receiver.new }
{
    let (taken, next) = (receiver.count(), low.accepted());
    if taken < removed {
        return Err(Why::Apart {
            count: taken,
            bound: removed,
        });
    }
    if taken > next {
        return Err(Why::Apart {
            count: taken,
            bound: next,
        });
    }
    for n in removed..taken {
        match is_same(low, n, receiver) {
            Ok(true) => {}
            Ok(false) => return Err(Why::Differs { number: n }),
            Err(why) => return Err(why),
        }
    }
    Ok(())
}

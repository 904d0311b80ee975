// The high worker of a session, and one look of it.
ghost use Rattle.std.specs.Prelude.{◌≡◌, ◌^◌, ◌≤◌, Bool, false, [], None, Some, if◌then◌else◌};
ghost use Rattle.pump_frame.specs.Counts.{Rose};
ghost use Rattle.pump_frame.specs.Streams.{spellings};
ghost use Rattle.pump_link.specs.Tells.{Draws};
ghost use Rattle.stable_buffer.specs.High.{high_disk};
ghost use Rattle.high_process.specs.Tasks.{frame_of};
ghost use Rattle.high_process.specs.States.{row_of, hand_of, last_of, is_down};
ghost use Rattle.relay_threads.specs.declared.high_served.HighWhy.TheVariants.{LinkFailed};
ghost use Rattle.relay_threads.specs.Workers.{SendsPrefix};
ghost use Rattle.relay_threads.specs.HighRounds.{Made, why_of, removes_by, data_in, data_made, cause_look};
ghost use Rattle.relay_threads.specs.HighEnds.{LookTakes};
ghost use Rattle.relay_threads.specs.HighServes.{LookMade, device_in, CountsFaultIn};
ghost use Rattle.relay_threads.specs.HighWorkers.{CanGoOn, GoesOn};

use crate::high_served::HighWhy;
use arrayvec::ArrayVec;
use disk_model::Disk;
use high_process::{HighFault, HighLook, HighProcess};
use passage::WaitHighEnd;
use pump_frame::{Frame, Kind, encode_parts};
use pump_link::{Clock, Link};
use stable_buffer::HighStore;
use std::sync::Wait;

/// The high worker of a session: the high process with its store and its end of the buffer, and its clock.
/// All are lent to it.
#[derive(Drop)]
pub struct HighWorker<'k, 'p, 's, 'h, K, D, H> {
    pub clock: &'k mut K,
    pub process: &'p mut HighProcess,
    pub store: &'s mut HighStore<D>,
    pub ends: &'h mut H,
}

/// What a look or a round came to.
#[derive(Clone, Copy)]
pub struct Turn {
    /// Why the connection ends, if it does.
    pub why: Option<HighWhy>,
    /// Whether a message was removed.
    pub has_removed: bool,
}

fn why_of(fault: HighFault) -> HighWhy
    ensures { result ≡ why_of fault }
{
    match fault {
        HighFault::Device { faults } => HighWhy::Device { faults },
        HighFault::Ahead { number, expected } => HighWhy::Ahead { number, expected },
        HighFault::Behind { count, removed } => HighWhy::Behind { count, removed },
    }
}

// Why a connection ends after a look, by whether what it sends was sent.
fn why_sent(is_sent: bool) -> Option<HighWhy>
    ensures why { result ≡ (if is_sent then None else Some LinkFailed) }
    ensures failed { result ≡ Some LinkFailed → is_sent ≡ false }
    ensures calm { device_in result ≡ false }
{
    if is_sent {
        None
    } else {
        Some(HighWhy::LinkFailed)
    }
}

// Sends the message in the hand, where the look sends it, from where it lies: it is spelled in `bytes`.
// False where the send failed.
fn send_hand<C: Link>(
    link: &mut C,
    process: &HighProcess,
    look: &HighLook,
    bytes: &mut ArrayVec<u8, 1042>,
) -> bool
    ensures sent { SendsPrefix (C.sent link.old) (C.sent link.new) result
        (spellings (data_in (row_of process.now).id look.now (hand_of process.now))) }
    ensures gives { Draws (C.gives link.old) (C.gives link.new) [] }
    ensures later { C.faults link.old ≤ C.faults link.new }
    ensures failed { result ≡ false → Rose (C.faults link.old) (C.faults link.new) }
{
    let Some(number) = look.sent else {
        return true;
    };
    let Some(item) = process.hand() else {
        return true;
    };
    encode_parts(Kind::Data, process.session(), number, &item.payload, bytes);
    link.send(bytes.as_slice()).is_ok()
}

impl<K: Clock, D: Disk, H: WaitHighEnd> HighWorker<'_, '_, '_, '_, K, D, H> {
    /// Makes one look at a moment that its clock gave, and sends what it sends, spelled in `bytes`.
    pub fn look<R: Wait, C: Link>(
        &mut self,
        rt: &R,
        link: &mut C,
        moment: u64,
        frame: Option<&Frame>,
        bytes: &mut ArrayVec<u8, 1042>,
    ) -> Turn
        requires can { CanGoOn K.floor D.told H.stands self.old }
        requires order { last_of self.old.process.now ≤ moment }
        requires moment { moment ≤ 2 ^ 62 }
        requires given { moment ≤ K.floor self.old.clock.now }
        ensures look { (x : Made) × (is_sent : Bool)
            × LookMade self.old.process.now self.new.process.now moment (frame_of frame.entry) x
            × SendsPrefix (C.sent link.old) (C.sent link.new) is_sent
            (spellings (data_made (row_of self.old.process.now).id (Some x)))
            × (result.why ≡ cause_look x.result is_sent) × (result.has_removed ≡ removes_by x.result)
            × LookTakes H.stands self.old.ends.now self.new.ends.now self.old.process.now self.new.process.now moment
            (Some x) }
        ensures goes_on { GoesOn K.floor D.told H.stands H.shape H.place self.old self.new }
        ensures clock { self.new.clock.now ≡ self.old.clock.now }
        ensures gives { Draws (C.gives link.old) (C.gives link.new) [] }
        ensures up { device_in result.why ≡ false → is_down self.new.process.now ≡ false }
        ensures later { C.faults link.old ≤ C.faults link.new }
        ensures failed { result.why ≡ Some LinkFailed → Rose (C.faults link.old) (C.faults link.new) }
        ensures device { CountsFaultIn result.why (D.told.count (high_disk self.old.store.now))
            (D.told.count (high_disk self.new.store.now)) }
    {
        match self
            .process
            .look_waiting(rt, moment, frame, self.store, self.ends)
        {
            Ok(look) => {
                let is_sent = send_hand(link, self.process, &look, bytes);
                Turn {
                    why: why_sent(is_sent),
                    has_removed: look.removed.is_some(),
                }
            }
            Err(fault) => Turn {
                why: Some(why_of(fault)),
                has_removed: false,
            },
        }
    }
}

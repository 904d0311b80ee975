// One round of the high worker on a connection.
ghost use Rattle.std.specs.Prelude.{◌≡◌, ◌≤◌, ◌||◌, false, [], ◌∷◌, Some};
ghost use Rattle.pump_frame.specs.Counts.{Rose};
ghost use Rattle.pump_frame.specs.declared.frame.Frame.{Frame as SentFrame};
ghost use Rattle.pump_frame.specs.Readings.{Within, HasBegun};
ghost use Rattle.pump_frame.specs.Streams.{spellings};
ghost use Rattle.pump_link.specs.Tells.{Draws};
ghost use Rattle.stable_buffer.specs.High.{high_disk};
ghost use Rattle.high_process.specs.Tasks.{frame_of};
ghost use Rattle.high_process.specs.States.{row_of, is_down};
ghost use Rattle.relay_threads.specs.declared.high_served.HighWhy.TheVariants.{LinkFailed};
ghost use Rattle.relay_threads.specs.Heards.{heard_with};
ghost use Rattle.relay_threads.specs.Hearings.{held_in, heard_as};
ghost use Rattle.relay_threads.specs.Workers.{SendsPrefix};
ghost use Rattle.relay_threads.specs.HighRounds.{Round, plan_of, frame_heard, is_frame, removes, looks_in_round};
ghost use Rattle.relay_threads.specs.HighRounds.{data_made, cause};
ghost use Rattle.relay_threads.specs.HighEnds.{LookTakes};
ghost use Rattle.relay_threads.specs.HighServes.{IsOpen, RoundMade, device_in, CountsFaultIn};
ghost use Rattle.relay_threads.specs.HighWorkers.{CanGoOn, GoesOn};

use crate::hear::{HeardHead, hear};
use crate::high_served::HighWhy;
use crate::high_worker::{HighWorker, Turn};
use arrayvec::ArrayVec;
use disk_model::Disk;
use passage::WaitHighEnd;
use pump_frame::{Frame, Kind, Reader};
use pump_link::{Clock, Link};
use std::sync::Wait;

/// What a round does once it has read.
#[derive(Clone, Copy)]
pub enum Plan {
    /// The connection ends, without a look.
    End(HighWhy),
    /// No look is made, since no frame has come yet.
    Pass,
    /// A look is made, with the frame if one came.
    Look,
}

/// What a high worker keeps of a connection from round to round.
#[derive(Drop)]
pub struct HighConnection {
    reader: Reader,
    // A frame is read into it.
    room: Frame,
    // The bytes of a frame that is sent are written into it.
    bytes: ArrayVec<u8, 1042>,
    // The first frame came, and was an ATTACH.
    is_attached: bool,
}

// What follows a reading: the first frame of a connection is to be an ATTACH, and no look is made
// before it.
fn planned(is_attached: bool, heard: HeardHead, room: &Frame) -> Plan
    ensures { result ≡ plan_of is_attached (heard_with room.now heard) }
{
    match heard {
        HeardHead::Frame => {
            if is_attached || room.kind == Kind::Attach {
                Plan::Look
            } else {
                Plan::End(HighWhy::NotAttach)
            }
        }
        HeardHead::Nothing => { if is_attached { Plan::Look } else { Plan::Pass } }
        HeardHead::Bad => Plan::End(HighWhy::Bad),
        HeardHead::Ended => Plan::End(HighWhy::Gone),
        HeardHead::Failed => Plan::End(HighWhy::LinkFailed),
    }
}

// The frame that came, if one did.
fn frame_in(heard: HeardHead, room: &Frame) -> Option<&Frame>
    ensures { frame_of result ≡ frame_heard (heard_with room.now heard) }
{
    match heard {
        HeardHead::Frame => Some(room),
        _ => None,
    }
}

fn is_frame(heard: HeardHead) -> bool
    ensures { (frame : SentFrame) → result ≡ is_frame (heard_with frame heard) }
{
    matches!(heard, HeardHead::Frame)
}

impl HighConnection {
    /// A connection of which nothing was read yet.
    pub fn new() -> HighConnection
        ensures open { IsOpen result }
        ensures reader { result.reader ≡ Within [] }
        ensures attached { result.is_attached ≡ false }
    {
        HighConnection {
            reader: Reader::new(),
            room: Frame::room(),
            bytes: ArrayVec::new(),
            is_attached: false,
        }
    }

    /// Makes one round: it draws a moment, reads, and makes a look and sends what that sends, where
    /// a look is due (`docs/design.md`, "Serving").
    pub fn round<R: Wait, C: Link, K: Clock, D: Disk, H: WaitHighEnd>(
        &mut self,
        rt: &R,
        link: &mut C,
        worker: &mut HighWorker<'_, '_, '_, '_, K, D, H>,
    ) -> Turn
        requires open { IsOpen self.old }
        requires can { CanGoOn K.floor D.told H.stands worker.old }
        ensures round { (r : Round)
            × RoundMade worker.old.process.now worker.new.process.now (held_in self.old.reader) self.new.reader
            self.old.is_attached r
            × Draws (C.gives link.old) (C.gives link.new) (looks_in_round r)
            × SendsPrefix (C.sent link.old) (C.sent link.new) r.is_sent
            (spellings (data_made (row_of worker.old.process.now).id r.made))
            × Draws (K.reads worker.old.clock.now) (K.reads worker.new.clock.now) (r.moment ∷ [])
            × (result.why ≡ cause self.old.is_attached r) × (result.has_removed ≡ removes r.made)
            × (self.new.is_attached ≡ (self.old.is_attached || is_frame (heard_as r.heard.ending)))
            × LookTakes H.stands worker.old.ends.now worker.new.ends.now worker.old.process.now worker.new.process.now
            r.moment r.made }
        ensures begun { HasBegun self.new.reader }
        ensures goes_on { GoesOn K.floor D.told H.stands H.shape H.place worker.old worker.new }
        ensures up { device_in result.why ≡ false → is_down worker.new.process.now ≡ false }
        ensures later { C.faults link.old ≤ C.faults link.new }
        ensures failed { result.why ≡ Some LinkFailed → Rose (C.faults link.old) (C.faults link.new) }
        ensures device { CountsFaultIn result.why (D.told.count (high_disk worker.old.store.now))
            (D.told.count (high_disk worker.new.store.now)) }
    {
        let moment = worker.clock.moment();
        let heard = hear(link, &mut self.reader, &mut self.room);
        let plan = planned(self.is_attached, heard, &self.room);
        self.is_attached |= is_frame(heard);
        match plan {
            Plan::End(why) => Turn {
                why: Some(why),
                has_removed: false,
            },
            Plan::Pass => Turn {
                why: None,
                has_removed: false,
            },
            Plan::Look => {
                let frame = frame_in(heard, &self.room);
                worker.look(rt, link, moment, frame, &mut self.bytes)
            }
        }
    }
}

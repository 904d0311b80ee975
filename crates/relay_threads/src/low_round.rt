// One round of the low worker on a connection.
ghost use Rattle.std.specs.Prelude.{◌≡◌, ℕ, ◌≤◌, true, false, List, [], ◌∷◌, None, Some, IfSome, option_map};
ghost use Rattle.std.specs.Io.KnownBytes.{Appends};
ghost use Rattle.pump_frame.specs.Counts.{Rose};
ghost use Rattle.pump_frame.specs.declared.frame.Frame.{Frame as SentFrame};
ghost use Rattle.pump_frame.specs.Readings.{Within, HasBegun};
ghost use Rattle.pump_link.specs.Tells.{Draws, Grows};
ghost use Rattle.pump_core.specs.ReplyFrames.{frame_of, IsLawfulReply};
ghost use Rattle.pump_core.specs.Step.{is_full};
ghost use Rattle.stable_buffer.specs.Low.{low_disk};
ghost use Rattle.low_process.specs.Looks.{arrival_of, row_of, is_down, IsLawful as CanCome};
ghost use Rattle.relay_threads.specs.declared.low_served.LowWhy.TheVariants.{LinkFailed, RecordFailed};
ghost use Rattle.relay_threads.specs.Heards.{heard_with};
ghost use Rattle.relay_threads.specs.Hearings.{held_in, IsLawfulHeard};
ghost use Rattle.relay_threads.specs.Levels.{IsEndOf};
ghost use Rattle.relay_threads.specs.LowEnds.{DoesSo, StoresSo};
ghost use Rattle.relay_threads.specs.Reaching.{Reaches};
ghost use Rattle.relay_threads.specs.Replays.{TellsLevel};
ghost use Rattle.relay_threads.specs.Records.{Made, was_full as full_before};
ghost use Rattle.relay_threads.specs.RecordLines.{HasLawfulFrame};
ghost use Rattle.relay_threads.specs.LowRounds.{Round, with_look, looks_heard, is_ack, is_ack_made, cause};
ghost use Rattle.relay_threads.specs.LowServes.{Turns, LeavesIf, HearsIf, arrival_heard, is_failed, text_made, why_by};
ghost use Rattle.relay_threads.specs.LowWorkers.{CanGoOn, KeepsWorker};
ghost use Rattle.relay_threads.specs.LowServes.{is_device_in, CountsFaultIn, bytes_of, bytes_made, full_after};

use crate::hear::{HeardHead, hear};
use crate::low_served::LowWhy;
use crate::low_worker::LowWorker;
use crate::record::LookMade;
use crate::tape::{LookRoom, record_look};
use arrayvec::ArrayVec;
use disk_model::Disk;
use low_process::{Arrival, LookHead};
use passage::WaitLowEnd;
use pump_core::{Feedback, Reply};
use pump_frame::{Frame, Reader, encode};
use pump_link::{Clock, Link, Sink, Words};
use std::sync::Wait;

/// What a round came to.
#[derive(Clone, Copy)]
pub struct LowTurn {
    /// Why the connection is left, if it is.
    pub why: Option<LowWhy>,
    /// The newest look found the passage full.
    pub is_full: bool,
    /// A message was acknowledged.
    pub is_acked: bool,
}

/// What a low worker keeps of a connection from round to round.
#[derive(Drop)]
pub struct LowConnection {
    pub reader: Reader,
    /// A frame is read into it.
    pub room: Frame,
    /// The bytes of a reply are made in it.
    pub bytes: ArrayVec<u8, 1042>,
    /// The lines of a look are made in it, where there is a record.
    pub lines: LookRoom,
}

impl LowConnection {
    /// Before the first byte.
    pub fn new() -> LowConnection
        ensures value { result.reader ≡ Within [] }
        ensures begun { HasBegun result.reader }
    {
        LowConnection {
            reader: Reader::new(),
            room: Frame::room(),
            bytes: ArrayVec::new(),
            lines: LookRoom::new(),
        }
    }
}

// A reading where the process wants what comes, and else none.
fn hear_if<C: Link>(wants: bool, link: &mut C, connection: &mut LowConnection) -> HeardHead
    requires within { connection.old.reader ≡ Within (held_in connection.old.reader) }
    requires begun { HasBegun connection.old.reader }
    ensures heard { HearsIf wants (held_in connection.old.reader) connection.new.reader (C.gives link.old)
        (C.gives link.new) (heard_with connection.new.room result) }
    ensures lawful { IsLawfulHeard (heard_with connection.new.room result) }
    ensures begun { HasBegun connection.new.reader }
    ensures sent { Grows (C.sent link.old) (C.sent link.new) [] }
    ensures later { C.faults link.old ≤ C.faults link.new }
    ensures failed { result ≡ HeardHead.Failed → Rose (C.faults link.old) (C.faults link.new) }
{
    if wants {
        hear(link, &mut connection.reader, &mut connection.room)
    } else {
        HeardHead::Nothing
    }
}

// The arrival that a reading brought.
fn arrival_in(heard: HeardHead, room: &Frame) -> Arrival<'_>
    requires { IsLawfulHeard (heard_with room.now heard) }
    ensures is { arrival_of result ≡ arrival_heard (heard_with room.now heard) }
    ensures can_come { CanCome (arrival_of result) }
    ensures lawful { HasLawfulFrame (arrival_of result) }
{
    match heard {
        HeardHead::Nothing | HeardHead::Failed => Arrival::Nothing,
        HeardHead::Frame => Arrival::Frame(room),
        HeardHead::Bad => Arrival::Bad,
        HeardHead::Ended => Arrival::Gone,
    }
}

// Sends a reply, if there is one, whose bytes are made in the room. False where it was not sent whole.
fn answer<C: Link>(
    link: &mut C,
    session: u32,
    reply: &Option<Reply>,
    bytes: &mut ArrayVec<u8, 1042>,
) -> bool
    requires { IfSome reply.now IsLawfulReply }
    ensures sent { Reaches (Grows (C.sent link.old) (C.sent link.new)) (C.faults link.old) (C.faults link.new) result
        (bytes_of (option_map (frame_of session) reply.now)) }
    ensures gives { Draws (C.gives link.old) (C.gives link.new) [] }
{
    let Some(reply) = reply else {
        return true;
    };
    encode(&reply.frame(session), bytes);
    link.send(bytes.as_slice()).is_ok()
}

fn is_failed(heard: HeardHead) -> bool
    ensures { (frame : SentFrame) → result ≡ is_failed (heard_with frame heard) }
{
    matches!(heard, HeardHead::Failed)
}

fn is_full(look: &LookHead) -> bool
    ensures { result ≡ is_full look.now.feedback }
{
    matches!(look.feedback, Feedback::Full)
}

fn is_ack(reply: &Option<Reply>) -> bool
    ensures { (session : ℕ) → result ≡ is_ack (option_map (frame_of session) reply.now) }
{
    matches!(reply, Some(Reply::Ack { .. }))
}

// Why a round with a look leaves the connection: the first cause that applies.
fn why_left(
    is_kept: bool,
    is_down: bool,
    faults: u64,
    is_sent: bool,
    heard: HeardHead,
) -> Option<LowWhy>
    ensures { (frame : SentFrame) → result ≡ why_by is_kept is_down faults is_sent (heard_with frame heard) }
{
    if !is_kept {
        return Some(LowWhy::RecordFailed);
    }
    if is_down {
        return Some(LowWhy::Device { faults });
    }
    if !is_sent {
        return Some(LowWhy::LinkFailed);
    }
    match heard {
        HeardHead::Nothing | HeardHead::Frame => None,
        HeardHead::Bad => Some(LowWhy::Bad),
        HeardHead::Ended => Some(LowWhy::Gone),
        HeardHead::Failed => Some(LowWhy::LinkFailed),
    }
}

impl<K: Clock, W: Words, D: Disk, L: WaitLowEnd, O: Sink> LowWorker<
    '_,
    '_,
    '_,
    '_,
    '_,
    '_,
    K,
    W,
    D,
    L,
    O,
> {
    /// Makes one round (`docs/design.md`, "Serving"): it draws a moment and a word, reads where the process
    /// wants what comes, makes a look, sends its reply, and records it, also where the send failed. Where the
    /// link failed in the reading, there is no look.
    pub fn round<R: Wait, C: Link>(
        &mut self,
        rt: &R,
        link: &mut C,
        connection: &mut LowConnection,
        was_full: bool,
    ) -> LowTurn
        requires within { connection.old.reader ≡ Within (held_in connection.old.reader) }
        requires begun { HasBegun connection.old.reader }
        requires can { CanGoOn K.floor D.told L.stands self.old }
        ensures turn { (r : Round)
            × Turns self.old.process.now self.new.process.now (held_in connection.old.reader) r
            × LeavesIf (held_in connection.old.reader) r.heard connection.new.reader
            × Draws (C.gives link.old) (C.gives link.new) (looks_heard r.heard)
            × Reaches (Grows (C.sent link.old) (C.sent link.new)) (C.faults link.old) (C.faults link.new) r.is_sent
            (bytes_made r.made)
            × Draws (K.reads self.old.clock.now) (K.reads self.new.clock.now) (r.moment ∷ [])
            × Draws (W.gives self.old.words.now) (W.gives self.new.words.now) (r.word ∷ [])
            × ((before : List Made) → was_full ≡ full_before before
            → Reaches (Appends (O.written self.old.tape.now) (O.written self.new.tape.now))
            (O.faults self.old.tape.now) (O.faults self.new.tape.now) r.is_kept
            (text_made (row_of self.old.process.now) before r.made))
            × (result.why ≡ cause r) × (result.is_full ≡ full_after was_full r.made)
            × (result.is_acked ≡ is_ack_made r.made)
            × (IsEndOf L.stands L.shape self.old.ends.now (row_of self.old.process.now)
            → IfSome r.made (TellsLevel (row_of self.old.process.now)))
            × DoesSo L.stands L.shape self.old.ends.now self.new.ends.now self.old.process.now self.new.process.now
            (with_look r.made [])
            × StoresSo D.told self.old.store.now self.new.store.now self.old.process.now self.new.process.now
            (with_look r.made []) }
        ensures begun { HasBegun connection.new.reader }
        ensures keeps { KeepsWorker K.floor D.told L.stands L.shape L.place self.old self.new }
        ensures up { is_device_in result.why ≡ false → (result.why ≡ Some RecordFailed → ⊥)
            → is_down self.new.process.now ≡ false }
        ensures link { result.why ≡ Some LinkFailed → Rose (C.faults link.old) (C.faults link.new) }
        ensures device { CountsFaultIn result.why (D.told.count (low_disk self.old.store.now))
            (D.told.count (low_disk self.new.store.now)) }
    {
        let moment = self.clock.moment();
        let word = self.words.word();
        let heard = hear_if(self.process.wants(), link, connection);
        if is_failed(heard) {
            return LowTurn {
                why: Some(LowWhy::LinkFailed),
                is_full: was_full,
                is_acked: false,
            };
        }
        let arrival = arrival_in(heard, &connection.room);
        let mut look = LookHead::new();
        self.process.look_waiting_into(rt, moment, word, arrival, self.store, self.ends, &mut look);
        let made = LookMade {
            moment,
            word,
            arrival,
            look,
        };
        let row = self.process.row();
        let is_sent = answer(link, row.id, &look.reply, &mut connection.bytes);
        let is_kept = record_look(self.tape, row, &made, was_full, &mut connection.lines);
        LowTurn {
            why: why_left(
                is_kept,
                self.process.is_down(),
                self.store.faults(),
                is_sent,
                heard,
            ),
            is_full: is_full(&look),
            is_acked: is_ack(&look.reply),
        }
    }
}

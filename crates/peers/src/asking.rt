// A frame that a sender sends, and the answer that it awaits.
ghost use Rattle.std.specs.Prelude.{◌≡◌, ℕ, ◌+◌, ◌<◌, ◌≤◌, List, [], length, slice_index};
ghost use Rattle.pump_frame.specs.Frames.{IsLawful};
ghost use Rattle.pump_link.specs.Tells.{Draws, Grows};
ghost use Rattle.peers.specs.Sending.{Wait, is_wanted, is_refusal};
ghost use Rattle.peers.specs.Replies.{WaitsFor, AsksFor};

use crate::looks::{Waited, await_frame};
use crate::outputs::send_frame;
use pump_frame::{Frame, Kind};
use pump_link::Link;

/// The frame that a sender awaits in answer to its own.
#[derive(Clone, Copy)]
pub enum Wanted {
    /// The WELCOME of the session.
    Welcome,
    /// The ACK of this number.
    Ack(u64),
}

/// What came in answer to a frame.
#[derive(Clone, Copy)]
pub enum Reply {
    /// The frame that was awaited; its number.
    Came(u64),
    /// A REFUSE of the session: why, and its number.
    Refused { code: u32, number: u64 },
    /// The frame was not sent whole, the link is over, or no look is left.
    Unanswered,
}

fn is_wanted(session: u32, wanted: Wanted, frame: &Frame) -> bool
    ensures { result ≡ is_wanted session wanted frame.now }
{
    match wanted {
        Wanted::Welcome => frame.session == session && matches!(frame.kind, Kind::Welcome),
        Wanted::Ack(number) => {
            frame.session == session && (matches!(frame.kind, Kind::Ack) && frame.number == number)
        }
    }
}

fn is_refusal(session: u32, frame: &Frame) -> bool
    ensures { result ≡ is_refusal session frame.now }
{
    frame.session == session && matches!(frame.kind, Kind::Refuse)
}

/// Why a frame was refused.
fn code_of(frame: &Frame) -> u32
    requires { 0 < length frame.now.payload }
    ensures { result ≡ slice_index frame.now.payload 0 }
{
    u32::from(frame.payload.as_slice()[0])
}

/// Passes over frames until the one that is awaited, or a refusal, is heard.
fn await_reply<C: Link>(session: u32, wanted: Wanted, left: &mut u32, link: &mut C) -> Reply
    ensures waits { (w : Wait) × WaitsFor session wanted w left.new (C.faults link.old) (C.faults link.new) result
        × (left.old ≡ left.new + length w.looks)
        × Draws (C.gives link.old) (C.gives link.new) w.looks }
    ensures sent { Grows (C.sent link.old) (C.sent link.new) [] }
    ensures later { C.faults link.old ≤ C.faults link.new }
{
    'frames: loop {
        match await_frame(link, left) {
            Waited::Frame(frame) => {
                if is_wanted(session, wanted, &frame) {
                    return Reply::Came(frame.number);
                }
                if is_refusal(session, &frame) {
                    return Reply::Refused {
                        code: code_of(&frame),
                        number: frame.number,
                    };
                }
            }
            Waited::Over => return Reply::Unanswered,
            Waited::Used => return Reply::Unanswered,
        }
    }
}

/// Sends a frame, and awaits the answer to it, for at most `left` looks at the link; each look made is
/// taken off `left`. It passes over every frame but the one that is wanted and a REFUSE of the frame's
/// session. `Unanswered` comes only where the frame was not sent whole, where the link shows bad bytes, has
/// ended or fails, or where no look is left.
pub fn ask<C: Link>(frame: &Frame, wanted: Wanted, left: &mut u32, link: &mut C) -> Reply
    requires lawful { IsLawful frame.now }
    ensures asks { (w : Wait) × (sent : List ℕ)
        × AsksFor frame.now.session frame.now wanted w left.new sent (C.faults link.old) (C.faults link.new) result
        × (left.old ≡ left.new + length w.looks)
        × Draws (C.gives link.old) (C.gives link.new) w.looks
        × Grows (C.sent link.old) (C.sent link.new) sent }
    ensures later { C.faults link.old ≤ C.faults link.new }
{
    if !send_frame(link, frame) {
        return Reply::Unanswered;
    }
    await_reply(frame.session, wanted, left, link)
}

//! The lines of output.

ghost use Rattle.std.specs.Prelude.{◌≡◌, ◌+◌, ◌≤◌, [], ◌∷◌, ◌++◌, length};
ghost use Rattle.low_process.specs.Heads.{look_with};
ghost use Rattle.script_reader.specs.EventHeads.{event_of};
ghost use Rattle.script_reader.specs.Lows.{printed_store, printed_feedback};
ghost use Rattle.two_worlds.specs.Private.Carrying.{printed_taken};
ghost use Rattle.two_worlds.specs.Printing.{lines_in, look_prints};

use arrayvec::ArrayVec;
use high_receiver::Taken;
use low_process::LookHead;
use pump_core::Feedback;
use pump_frame::SessionRow;
use script_reader::{Event, EventHead};

/// One more line.
pub fn put(event: EventHead, out: &mut ArrayVec<EventHead, 4>)
    requires { length out.old.items ≤ 3 }
    ensures items { lines_in out.new.items ≡ lines_in out.old.items ++ event_of event ∷ [] }
    ensures few { length out.new.items ≤ length out.old.items + 1 }
{
    out.push(event);
}

/// The line of a message that was stored, if one was.
fn put_store(session: u32, moment: u64, stored: Option<u64>, out: &mut ArrayVec<EventHead, 4>)
    requires { length out.old.items ≤ 3 }
    ensures items { lines_in out.new.items ≡ lines_in out.old.items ++ printed_store session moment stored }
    ensures few { length out.new.items ≤ length out.old.items + 1 }
{
    if let Some(number) = stored {
        put(
            EventHead::Stored {
                session,
                moment,
                number,
            },
            out,
        );
    }
}

/// The line of a feedback, if it has one.
fn put_feedback(session: u32, moment: u64, feedback: Feedback, out: &mut ArrayVec<EventHead, 4>)
    requires { length out.old.items ≤ 3 }
    ensures items { lines_in out.new.items ≡ lines_in out.old.items ++ printed_feedback session moment feedback }
    ensures few { length out.new.items ≤ length out.old.items + 1 }
{
    match feedback {
        Feedback::Quiet => {}
        Feedback::Full => put(EventHead::Full { session, moment }, out),
        Feedback::Passed(seen) => put(
            EventHead::Passed {
                session,
                moment,
                seen,
            },
            out,
        ),
        Feedback::Released => put(EventHead::Released { session, moment }, out),
        Feedback::Repeat(seen) => put(
            EventHead::Repeat {
                session,
                moment,
                seen,
            },
            out,
        ),
    }
}

/// What a low look prints, at most three lines: the message that was stored, the feedback, and the
/// reply.
pub fn print_look(row: &SessionRow, moment: u64, head: &LookHead, out: &mut ArrayVec<EventHead, 4>)
    requires { length out.old.items ≤ 1 }
    ensures { lines_in out.new.items ≡ lines_in out.old.items ++ look_prints row.now.id moment
        (look_with row.now head.now) }
{
    let session = row.id;
    put_store(session, moment, head.stored, out);
    put_feedback(session, moment, head.feedback, out);
    if let Some(reply) = head.reply {
        put(
            EventHead::Low {
                session,
                moment,
                reply,
            },
            out,
        );
    }
}

/// The line of a message that the receiver has, now or from before.
pub fn put_taken(session: u32, number: u64, taken: Taken, out: &mut ArrayVec<EventHead, 4>)
    requires { length out.old.items ≤ 3 }
    ensures items { lines_in out.new.items ≡ lines_in out.old.items ++ printed_taken session number taken ∷ [] }
    ensures few { length out.new.items ≤ length out.old.items + 1 }
{
    match taken {
        Taken::Took => put(EventHead::Took { session, number }, out),
        Taken::Repeat => put(EventHead::Again { session, number }, out),
    }
}

/// The events of these heads.
pub fn events_of(heads: &ArrayVec<EventHead, 4>) -> ArrayVec<Event, 4>
    ensures { result.items ≡ lines_in heads.now.items }
{
    let mut events = ArrayVec::new();
    for head in heads.as_slice() {
        events.push(head.event());
    }
    events
}

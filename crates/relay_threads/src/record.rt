// The lines of a record, put behind what a room holds.
ghost use Rattle.std.specs.Prelude.{◌≡◌, true, ℕ, ◌+◌, ◌≤◌, List, ◌++◌, IfSome, option_map};
ghost use Rattle.arrayvec.specs.ArrayVec.{array_vec_len};
ghost use Rattle.pump_frame.specs.declared.row.SessionRow.{SessionRow as Row};
ghost use Rattle.pump_core.specs.ReplyFrames.{frame_of, IsLawfulReply};
ghost use Rattle.low_process.specs.Looks.{arrival_of};
ghost use Rattle.script_reader.specs.declared.line.Line.TheVariants.{Coarse};
ghost use Rattle.script_reader.specs.Grammar.{IsLine};
ghost use Rattle.script_reader.specs.Heads.{arriving_with, line_with, CanHold, CanHoldLine};
ghost use Rattle.script_reader.specs.Lawful.{IsLawfulLine};
ghost use Rattle.script_reader.specs.Spelling.{line_spelling, line_text};
ghost use Rattle.relay_threads.specs.Records.{Made, is_recorded as is_recorded_after, was_full as is_full_after};
ghost use Rattle.relay_threads.specs.RecordLines.{told_of, taken_by, arriving_of, tells_fault as fault_in, line_of};
ghost use Rattle.relay_threads.specs.RecordLines.{opening_line, coarse_text, comment, look_text, made_by};
ghost use Rattle.relay_threads.specs.RecordLines.{HasLawfulFrame, IsReplyFrame};

use arrayvec::ArrayVec;
use low_process::{Arrival, LookHead};
use moving_avg::down;
use pump_core::{Feedback, Refusal, Reply};
use pump_frame::{SessionRow, encode};
use script_reader::{
    Act, ArrivingHead, EventHead, LineHead, ToldFeedback, append_head, append_line,
};

/// A look that a low process made: its moment in microseconds, the random word from which a delay was
/// made, what it was offered, and what it did.
#[derive(Clone, Copy)]
pub struct LookMade<'a> {
    pub moment: u64,
    pub word: u32,
    pub arrival: Arrival<'a>,
    pub look: LookHead,
}

// Whether the reply refuses because the device failed.
fn tells_fault(reply: &Option<Reply>) -> bool
    ensures { (session : ℕ) → result ≡ fault_in (option_map (frame_of session) reply.now) }
{
    matches!(
        reply,
        Some(Reply::Refuse {
            why: Refusal::Device,
            ..
        })
    )
}

/// Whether a look is recorded, where the look before it found the passage full or not: it took an
/// arrival, replied, passed a message on, or is the first that found the passage full.
pub fn is_recorded(made: &LookMade, was_full: bool) -> bool
    ensures { (row : Row) (before : List Made) → was_full ≡ is_full_after before
        → result ≡ is_recorded_after before (made_by row made.now) }
{
    let passes_on = matches!(made.look.feedback, Feedback::Passed(_) | Feedback::Released);
    let is_full = matches!(made.look.feedback, Feedback::Full);
    made.look.taken || made.look.reply.is_some() || passes_on || is_full && !was_full
}

// What the passage told, as a line tells it.
fn told(row: &SessionRow, feedback: &Feedback) -> ToldFeedback
    ensures { result ≡ told_of row.now feedback.now }
{
    match feedback {
        Feedback::Quiet => ToldFeedback::Quiet,
        Feedback::Full => ToldFeedback::Full,
        Feedback::Passed(seen) => ToldFeedback::Pair {
            count: seen.count,
            average: seen.average,
        },
        Feedback::Released => ToldFeedback::Pair {
            count: 0,
            average: down(&row.averaging(), row.start),
        },
        Feedback::Repeat(seen) => ToldFeedback::Pair {
            count: seen.count,
            average: seen.average,
        },
    }
}

// What the look took, with its bytes in the body.
fn taken_into(made: &LookMade, body: &mut ArrayVec<u8, 1042>) -> ArrivingHead
    requires { HasLawfulFrame (arrival_of made.now.arrival) }
    ensures value { (row : Row) → arriving_with body.new.items result ≡ arriving_of (taken_by (made_by row made.now)) }
    ensures room { CanHold result body.new.items }
{
    body.clear();
    if !made.look.taken {
        return ArrivingHead::Nothing;
    }
    match made.arrival {
        Arrival::Frame(frame) => {
            encode(frame, body);
            // A frame has at most 1042 bytes.
            let _length = body.len();
            ArrivingHead::Raw
        }
        Arrival::Bad => {
            body.try_push(0).unwrap();
            ArrivingHead::Raw
        }
        Arrival::Nothing | Arrival::Gone => ArrivingHead::Nothing,
    }
}

// The line of a look without its bytes, which are in the body.
fn head_of(row: &SessionRow, made: &LookMade, body: &mut ArrayVec<u8, 1042>) -> LineHead
    requires { HasLawfulFrame (arrival_of made.now.arrival) }
    ensures value { line_with body.new.items result ≡ line_of row.now (made_by row.now made.now) }
    ensures room { CanHoldLine result body.new.items }
{
    let session = row.id;
    let moment = made.moment;
    if matches!(made.arrival, Arrival::Gone) {
        let act = Act::Gone;
        return LineHead::At {
            session,
            moment,
            act,
        };
    }
    let act = Act::Told {
        word: made.word,
        fault: tells_fault(&made.look.reply),
        feedback: told(row, &made.look.feedback),
        arrival: taken_into(made, body),
    };
    LineHead::At {
        session,
        moment,
        act,
    }
}

// The line of a look, without the comment of its reply.
fn append_line_of<const N: usize>(
    row: &SessionRow,
    made: &LookMade,
    body: &mut ArrayVec<u8, 1042>,
    into: &mut ArrayVec<u8, N>,
)
    requires room { array_vec_len into.old + 2400 ≤ N }
    requires frame { HasLawfulFrame (arrival_of made.now.arrival) }
    ensures text { into.new.items ≡ into.old.items ++ line_text (line_of row.now (made_by row.now made.now)) }
    ensures len { array_vec_len into.new ≤ array_vec_len into.old + 2400 }
    ensures reads { IsLawfulLine (line_of row.now (made_by row.now made.now))
        → IsLine (line_of row.now (made_by row.now made.now))
        (line_spelling (line_of row.now (made_by row.now made.now))) }
{
    let head = head_of(row, made, body);
    append_line(&head, body.as_slice(), into);
}

// The comment of a reply.
fn append_comment<const N: usize>(row: &SessionRow, made: &LookMade, into: &mut ArrayVec<u8, N>)
    requires { array_vec_len into.old + 258 ≤ N }
    ensures { into.new.items ≡ into.old.items ++ comment row.now made.now.moment (option_map (frame_of row.now.id)
        made.now.look.reply) }
{
    let Some(reply) = made.look.reply else {
        return;
    };
    let head = EventHead::Low {
        session: row.id,
        moment: made.moment,
        reply,
    };
    into.try_extend_from_slice(b"# ").unwrap();
    append_head(&head, into);
}

/// Puts a look behind what the room holds, as a record has it: a `told` line, or a `gone` line where
/// the connection was lost, and behind it a comment with the reply's line of a transcript, where there
/// is one. `docs/formats.md`, "Records", has the lines. `body` is a room for the bytes of what the look
/// took, and holds nothing else: one room serves a whole record.
pub fn append_look<const N: usize>(
    row: &SessionRow,
    made: &LookMade,
    body: &mut ArrayVec<u8, 1042>,
    into: &mut ArrayVec<u8, N>,
)
    requires room { array_vec_len into.old + 2700 ≤ N }
    requires frame { HasLawfulFrame (arrival_of made.now.arrival) }
    requires reply { IfSome made.now.look.reply IsLawfulReply }
    ensures text { into.new.items ≡ into.old.items ++ look_text row.now (made_by row.now made.now) }
    ensures len { array_vec_len into.new ≤ array_vec_len into.old + 2700 }
    // What stands before the first line end is this line, so a reader of scripts gives it back.
    ensures reads { IsLawfulLine (line_of row.now (made_by row.now made.now))
        → IsLine (line_of row.now (made_by row.now made.now))
        (line_spelling (line_of row.now (made_by row.now made.now))) }
    // .. and skips the comment behind it.
    ensures told { IfSome (made_by row.now made.now).reply IsReplyFrame }
{
    // Their ranges bound the length.
    let (_session, _moment) = (row.id, made.moment);
    append_line_of(row, made, body, into);
    append_comment(row, made, into);
}

/// Puts the line that a record begins with behind what the room holds: the row, how many messages were
/// found stored, and whether the last of them is in the low hand.
pub fn append_opening<const N: usize>(
    row: &SessionRow,
    next: u64,
    held: bool,
    into: &mut ArrayVec<u8, N>,
)
    requires room { array_vec_len into.old + 2400 ≤ N }
    ensures text { into.new.items ≡ into.old.items ++ line_text
        (opening_line row.now (record { count = next; is_held = held })) }
    ensures len { array_vec_len into.new ≤ array_vec_len into.old + 2400 }
    ensures reads { IsLawfulLine (opening_line row.now (record { count = next; is_held = held }))
        → IsLine (opening_line row.now (record { count = next; is_held = held }))
        (line_spelling (opening_line row.now (record { count = next; is_held = held }))) }
{
    let row = SessionRow {
        low_port: 0,
        high_port: 0,
        coarse: false,
        ..*row
    };
    append_line(&LineHead::LowSession { row, next, held }, &[], into);
}

/// Puts the second line of a coarse session's record behind what the room holds; nothing where the
/// session is not coarse.
pub fn append_coarse<const N: usize>(row: &SessionRow, into: &mut ArrayVec<u8, N>)
    requires room { array_vec_len into.old + 2400 ≤ N }
    ensures text { into.new.items ≡ into.old.items ++ coarse_text row.now }
    ensures len { array_vec_len into.new ≤ array_vec_len into.old + 2400 }
    ensures reads { row.now.coarse ≡ true → IsLine (Coarse row.now.id) (line_spelling (Coarse row.now.id)) }
{
    // Its range bounds the length.
    let _session = row.id;
    if row.coarse {
        append_line(&LineHead::Coarse { session: row.id }, &[], into);
    }
}

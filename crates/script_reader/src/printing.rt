// Printing the lines of a transcript, and the line of a fault.
ghost use Rattle.std.specs.Prelude.{◌≡◌, ◌+◌, ◌*◌, ◌^◌, ◌<◌, ◌≤◌, [], ◌∷◌, ◌++◌, None, Some, length, codes, decimal};
ghost use Rattle.std.specs.Prelude.{slice_index};
ghost use Rattle.arrayvec.specs.ArrayVec.{array_vec_len};
ghost use Rattle.script_reader.specs.EventHeads.{event_of};
ghost use Rattle.script_reader.specs.Transcript.{role_field, reply_fields, high_fields, time_field, event_line};
ghost use Rattle.script_reader.specs.Transcript.{fault_line, line_with_end};
ghost use Rattle.script_reader.specs.Grammar.{held_field};
ghost use Rattle.hex.specs.Hex.{encode_lower};
ghost use Rattle.script_reader.specs.HexFields.{hex_field};
ghost use Rattle.script_reader.specs.Typed.{IsBehind, IsPrinted};

use crate::event::{Event, EventHead};
use crate::fault::Fault;
use arrayvec::ArrayVec;
use disk_model::Role;
use itoa::write_digits;
use pump_core::{Reply, Seen};
use pump_frame::{Frame, Kind, Payload};

// A printed line goes behind what a room holds. None of them has more than 256 bytes, at most a word
// of 40 bytes and five numbers of 40, but a `live` line: with its digits it has at most 2,136.

pub(crate) fn put<const N: usize>(into: &mut ArrayVec<u8, N>, text: &[u8])
    requires { array_vec_len into.old + length text.now ≤ N }
    ensures items { into.new.items ≡ into.old.items ++ text.now }
    ensures len { array_vec_len into.new ≡ array_vec_len into.old + length text.now }
{
    into.try_extend_from_slice(text).unwrap();
}

/// A mark and a number. A number of one digit, as most sessions have, is put without a call.
#[inline(always)]
pub(crate) fn put_marked<const N: usize>(into: &mut ArrayVec<u8, N>, mark: u8, number: u64)
    requires { array_vec_len into.old + 41 ≤ N }
    ensures items { into.new.items ≡ into.old.items ++ mark ∷ decimal number }
    ensures len { array_vec_len into.new ≤ array_vec_len into.old + 41 }
{
    if number < 10 {
        put(into, &[mark, b'0' + number as u8]);
    } else {
        put_long(into, mark, number);
    }
}

/// As `put_marked`, for any number.
#[inline(never)]
fn put_long<const N: usize>(into: &mut ArrayVec<u8, N>, mark: u8, number: u64)
    requires { array_vec_len into.old + 41 ≤ N }
    ensures items { into.new.items ≡ into.old.items ++ mark ∷ decimal number }
    ensures len { array_vec_len into.new ≤ array_vec_len into.old + 41 }
{
    // The digits come to the end, and what stands before them is the mark.
    let mut text = [mark; 21];
    let first = write_digits(number, &mut text, 21);
    put(into, &text[first - 1..]);
}

/// A space and a number.
#[inline(always)]
pub(crate) fn put_field<const N: usize>(into: &mut ArrayVec<u8, N>, number: u64)
    requires { array_vec_len into.old + 41 ≤ N }
    ensures items { into.new.items ≡ into.old.items ++ 32 ∷ decimal number }
    ensures len { array_vec_len into.new ≤ array_vec_len into.old + 41 }
{
    put_marked(into, b' ', number);
}

/// A space and two digits for each byte: at most `M` digits.
fn put_digits<const N: usize, const M: usize>(into: &mut ArrayVec<u8, N>, bytes: &[u8])
    requires few { 2 * length bytes.now ≤ M }
    requires most { M ≤ 2084 }
    requires room { array_vec_len into.old + 1 + 2 * length bytes.now ≤ N }
    ensures items { into.new.items ≡ into.old.items ++ 32 ∷ encode_lower bytes.now }
    ensures len { array_vec_len into.new ≤ array_vec_len into.old + 1 + 2 * length bytes.now }
{
    let mut digits = [0; M];
    let digits = &mut digits[..2 * bytes.len()];
    hex::encode_to_slice(bytes, digits).unwrap();
    put(into, b" ");
    put(into, digits);
}

/// A space and two digits for each byte, or a dash for none.
pub(crate) fn put_hex<const N: usize>(into: &mut ArrayVec<u8, N>, bytes: &[u8])
    requires few { length bytes.now ≤ 1042 }
    requires room { array_vec_len into.old + 2 + 2 * length bytes.now ≤ N }
    ensures items { into.new.items ≡ into.old.items ++ 32 ∷ hex_field bytes.now }
    ensures len { array_vec_len into.new ≤ array_vec_len into.old + 2 + 2 * length bytes.now }
    ensures printed { IsPrinted bytes.now }
{
    if bytes.is_empty() {
        put(into, b" -");
        return;
    }
    // The room for the digits is zeroed first, so a short frame gets a short one.
    if bytes.len() <= 96 {
        put_digits::<N, 192>(into, bytes);
    } else {
        put_digits::<N, 2084>(into, bytes);
    }
}

/// A word, a session and a number: what most lines begin with.
pub(crate) fn put_prefix<const N: usize>(
    into: &mut ArrayVec<u8, N>,
    word: &[u8],
    session: u32,
    number: u64,
)
    requires room { array_vec_len into.old + 122 ≤ N }
    requires short { length word.now ≤ 40 }
    ensures fields { IsBehind into.old.items into.new.items word.now (decimal session ∷ decimal number ∷ []) }
    ensures len { array_vec_len into.new ≤ array_vec_len into.old + length word.now + 82 }
    ensures session { session < 2 ^ 32 }
    ensures number { number < 2 ^ 64 }
{
    put(into, word);
    put_field(into, u64::from(session));
    put_field(into, number);
}

/// A line of a word and one number.
fn put_one<const N: usize>(into: &mut ArrayVec<u8, N>, word: &[u8], number: u64)
    requires room { array_vec_len into.old + 256 ≤ N }
    requires short { length word.now ≤ 40 }
    ensures { into.new.items ≡ into.old.items ++ line_with_end (word.now ∷ decimal number ∷ []) }
{
    put(into, word);
    put_field(into, number);
    put(into, b"\n");
}

/// A line of a word, a session and a number.
fn put_two<const N: usize>(into: &mut ArrayVec<u8, N>, word: &[u8], session: u32, number: u64)
    requires room { array_vec_len into.old + 256 ≤ N }
    requires short { length word.now ≤ 40 }
    ensures { into.new.items ≡ into.old.items ++ line_with_end (word.now ∷ decimal session ∷ decimal number ∷ []) }
{
    put_prefix(into, word, session, number);
    put(into, b"\n");
}

/// A line of a word, a session and two numbers.
fn put_three<const N: usize>(
    into: &mut ArrayVec<u8, N>,
    word: &[u8],
    session: u32,
    first: u64,
    second: u64,
)
    requires room { array_vec_len into.old + 256 ≤ N }
    requires short { length word.now ≤ 40 }
    ensures { into.new.items ≡ into.old.items ++ line_with_end (word.now ∷ decimal session ∷ decimal first ∷ decimal
        second ∷ []) }
{
    put_prefix(into, word, session, first);
    put_field(into, second);
    put(into, b"\n");
}

/// A line of a word, a session and three numbers.
fn put_four<const N: usize>(
    into: &mut ArrayVec<u8, N>,
    word: &[u8],
    session: u32,
    first: u64,
    second: u64,
    third: u64,
)
    requires room { array_vec_len into.old + 256 ≤ N }
    requires short { length word.now ≤ 40 }
    ensures { into.new.items ≡ into.old.items ++ line_with_end (word.now ∷ decimal session ∷ decimal first ∷ decimal
        second ∷ decimal third ∷ []) }
{
    put_prefix(into, word, session, first);
    put_field(into, second);
    put_field(into, third);
    put(into, b"\n");
}

/// A reply of a word and the session's count or the message's number.
fn put_numbered<const N: usize>(
    into: &mut ArrayVec<u8, N>,
    session: u32,
    moment: u64,
    word: &[u8],
    number: u64,
)
    requires room { array_vec_len into.old + 256 ≤ N }
    requires short { length word.now ≤ 40 }
    ensures { into.new.items ≡ into.old.items ++ line_with_end (codes "low" ∷ decimal session ∷ decimal
        moment ∷ word.now ∷ decimal number ∷ []) }
{
    put_prefix(into, b"low", session, moment);
    put(into, b" ");
    put(into, word);
    put_field(into, number);
    put(into, b"\n");
}

fn put_refusal<const N: usize>(
    into: &mut ArrayVec<u8, N>,
    session: u32,
    moment: u64,
    code: u8,
    number: u64,
)
    requires { array_vec_len into.old + 256 ≤ N }
    ensures { into.new.items ≡ into.old.items ++ line_with_end (codes "low" ∷ decimal session ∷ decimal moment ∷ codes
        "refuse" ∷ decimal code ∷ decimal number ∷ []) }
{
    put_prefix(into, b"low", session, moment);
    put(into, b" refuse");
    put_field(into, u64::from(code));
    put_field(into, number);
    put(into, b"\n");
}

/// The reason of a REFUSE.
fn code_of(reply: &Frame) -> u8
    ensures { result ≡ slice_index reply.now.payload 0 }
{
    match reply.payload.as_slice() {
        [code, ..] => *code,
        [] => 0,
    }
}

fn put_reply<const N: usize>(into: &mut ArrayVec<u8, N>, session: u32, moment: u64, reply: &Frame)
    requires { array_vec_len into.old + 256 ≤ N }
    ensures { into.new.items ≡ into.old.items ++ line_with_end (codes "low" ∷ decimal session ∷ decimal
        moment ∷ reply_fields reply.now.kind reply.now.number reply.now.payload) }
{
    match reply.kind {
        Kind::Welcome => put_numbered(into, session, moment, b"welcome", reply.number),
        Kind::Ack => put_numbered(into, session, moment, b"ack", reply.number),
        Kind::Refuse => put_refusal(into, session, moment, code_of(reply), reply.number),
        Kind::Hello | Kind::Data | Kind::Attach | Kind::Taken => {
            put_two(into, b"low", session, moment)
        }
    }
}

/// A space and a time, or a dash where none was published.
fn put_time<const N: usize>(into: &mut ArrayVec<u8, N>, time: Option<u32>)
    requires { array_vec_len into.old + 41 ≤ N }
    ensures items { into.new.items ≡ into.old.items ++ 32 ∷ time_field time }
    ensures len { array_vec_len into.new ≤ array_vec_len into.old + 41 }
{
    match time {
        Some(time) => put_field(into, u64::from(time)),
        None => put(into, b" -"),
    }
}

fn put_removed<const N: usize>(
    into: &mut ArrayVec<u8, N>,
    session: u32,
    moment: u64,
    number: u64,
    time: Option<u32>,
)
    requires { array_vec_len into.old + 256 ≤ N }
    ensures { into.new.items ≡ into.old.items ++ line_with_end (codes "removed" ∷ decimal session ∷ decimal
        moment ∷ decimal number ∷ time_field time ∷ []) }
{
    put_prefix(into, b"removed", session, moment);
    put_field(into, number);
    put_time(into, time);
    put(into, b"\n");
}

/// A space and whether the last message is in the low hand.
pub(crate) fn put_held<const N: usize>(into: &mut ArrayVec<u8, N>, held: bool)
    requires { array_vec_len into.old + 2 ≤ N }
    ensures items { into.new.items ≡ into.old.items ++ 32 ∷ held_field held }
    ensures len { array_vec_len into.new ≤ array_vec_len into.old + 2 }
{
    if held {
        put(into, b" 1");
    } else {
        put(into, b" 0");
    }
}

fn put_restart<const N: usize>(
    into: &mut ArrayVec<u8, N>,
    session: u32,
    moment: u64,
    accepted: u64,
    removed: u64,
    held: bool,
)
    requires { array_vec_len into.old + 256 ≤ N }
    ensures { into.new.items ≡ into.old.items ++ line_with_end (codes "restart" ∷ decimal session ∷ decimal
        moment ∷ decimal accepted ∷ decimal removed ∷ held_field held ∷ []) }
{
    put_prefix(into, b"restart", session, moment);
    put_field(into, accepted);
    put_field(into, removed);
    put_held(into, held);
    put(into, b"\n");
}

fn put_end<const N: usize>(
    into: &mut ArrayVec<u8, N>,
    session: u32,
    accepted: u64,
    high: Option<(u64, u64)>,
)
    requires { array_vec_len into.old + 256 ≤ N }
    ensures { into.new.items ≡ into.old.items ++ line_with_end (codes "end" ∷ decimal session ∷ decimal
        accepted ∷ high_fields high) }
{
    match high {
        Some((removed, received)) => {
            put_four(into, b"end", session, accepted, removed, received)
        }
        None => {
            put_prefix(into, b"end", session, accepted);
            put(into, b" - -");
            put(into, b"\n");
        }
    }
}

/// A pair that the low process read of High's times.
fn put_seen<const N: usize>(
    into: &mut ArrayVec<u8, N>,
    word: &[u8],
    session: u32,
    moment: u64,
    seen: &Seen,
)
    requires room { array_vec_len into.old + 256 ≤ N }
    requires short { length word.now ≤ 40 }
    ensures { into.new.items ≡ into.old.items ++ line_with_end (word.now ∷ decimal session ∷ decimal moment ∷ decimal
        seen.now.count ∷ decimal seen.now.average ∷ []) }
{
    put_four(
        into,
        word,
        session,
        moment,
        u64::from(seen.count),
        u64::from(seen.average),
    );
}

// A `low` line.
fn put_answer<const N: usize>(into: &mut ArrayVec<u8, N>, session: u32, moment: u64, reply: &Reply)
    requires { array_vec_len into.old + 256 ≤ N }
    ensures { into.new.items ≡ into.old.items ++ event_line (event_of (EventHead.Low session moment reply.now)) }
{
    match reply {
        Reply::Welcome { number } => put_numbered(into, session, moment, b"welcome", *number),
        Reply::Ack { number } => put_numbered(into, session, moment, b"ack", *number),
        Reply::Refuse { why, number } => put_refusal(into, session, moment, why.code(), *number),
    }
}

fn put_live<const N: usize>(
    into: &mut ArrayVec<u8, N>,
    session: u32,
    number: u64,
    payload: &Payload,
)
    requires { array_vec_len into.old + 2400 ≤ N }
    ensures { into.new.items ≡ into.old.items ++ line_with_end (codes "live" ∷ decimal session ∷ decimal
        number ∷ hex_field payload.now ∷ []) }
{
    put_prefix(into, b"live", session, number);
    put_hex(into, payload.as_slice());
    put(into, b"\n");
}

/// Puts the event's line, with its line end, behind what the room holds; `docs/formats.md`,
/// "Transcripts", has the lines.
pub fn append_head<const N: usize>(event: &EventHead, into: &mut ArrayVec<u8, N>)
    requires { array_vec_len into.old + 256 ≤ N }
    ensures line { into.new.items ≡ into.old.items ++ event_line (event_of event.now) }
{
    match *event {
        EventHead::Stored {
            session,
            moment,
            number,
        } => put_three(into, b"stored", session, moment, number),
        EventHead::Full { session, moment } => put_two(into, b"full", session, moment),
        EventHead::Passed {
            session,
            moment,
            ref seen,
        } => put_seen(into, b"passed", session, moment, seen),
        EventHead::Released { session, moment } => put_two(into, b"released", session, moment),
        EventHead::Repeat {
            session,
            moment,
            ref seen,
        } => put_seen(into, b"repeat", session, moment, seen),
        EventHead::Low {
            session,
            moment,
            ref reply,
        } => put_answer(into, session, moment, reply),
        EventHead::Removed {
            session,
            moment,
            number,
            time,
        } => put_removed(into, session, moment, number, time),
        EventHead::Sent {
            session,
            moment,
            number,
        } => put_three(into, b"sent", session, moment, number),
        EventHead::Took { session, number } => put_two(into, b"took", session, number),
        EventHead::Again { session, number } => put_two(into, b"again", session, number),
        EventHead::Attach {
            session,
            moment,
            count,
        } => put_three(into, b"attach", session, moment, count),
        EventHead::Restart {
            session,
            moment,
            accepted,
            removed,
            held,
        } => put_restart(into, session, moment, accepted, removed, held),
        EventHead::End {
            session,
            accepted,
            high,
        } => put_end(into, session, accepted, high),
    }
}

/// The room then holds the event's line, with its line end.
pub fn print_head(event: &EventHead, into: &mut ArrayVec<u8, 2400>)
    ensures line { into.new.items ≡ event_line (event_of event.now) }
{
    into.clear();
    append_head(event, into);
}

/// The room then holds the event's line, with its line end; `docs/formats.md`, "Transcripts", has
/// the lines. The reply of a `Low` is a WELCOME, an ACK or a REFUSE; of another frame only the word,
/// the session and the moment are printed.
pub fn print_event(event: &Event, into: &mut ArrayVec<u8, 2400>)
    ensures line { into.new.items ≡ event_line event.now }
{
    into.clear();
    match event {
        Event::Low {
            session,
            moment,
            reply,
        } => put_reply(into, *session, *moment, reply),
        Event::Show {
            session,
            accepted,
            removed,
            received,
        } => put_four(into, b"show", *session, *accepted, *removed, *received),
        Event::Live {
            session,
            number,
            payload,
        } => put_live(into, *session, *number, payload),
        _ => append_head(&event.head(), into),
    }
}

/// A space and which of a session's three disks.
fn put_role<const N: usize>(into: &mut ArrayVec<u8, N>, role: Role)
    requires { array_vec_len into.old + 5 ≤ N }
    ensures items { into.new.items ≡ into.old.items ++ 32 ∷ role_field role }
    ensures len { array_vec_len into.new ≤ array_vec_len into.old + 5 }
{
    match role {
        Role::Low => put(into, b" low"),
        Role::High => put(into, b" high"),
        Role::Recv => put(into, b" recv"),
    }
}

/// A word, a session and which of its disks: what a fault of a disk begins with.
fn put_disk_prefix<const N: usize>(
    into: &mut ArrayVec<u8, N>,
    word: &[u8],
    session: u32,
    role: Role,
)
    requires room { array_vec_len into.old + 256 ≤ N }
    requires short { length word.now ≤ 40 }
    ensures fields { IsBehind into.old.items into.new.items word.now (decimal session ∷ role_field role ∷ []) }
    ensures len { array_vec_len into.new ≤ array_vec_len into.old + 86 }
{
    put(into, word);
    put_field(into, u64::from(session));
    put_role(into, role);
}

fn put_device<const N: usize>(into: &mut ArrayVec<u8, N>, session: u32, role: Role)
    requires { array_vec_len into.old + 256 ≤ N }
    ensures { into.new.items ≡ into.old.items ++ line_with_end (codes "fault" ∷ codes "device" ∷ decimal
        session ∷ role_field role ∷ []) }
{
    put_disk_prefix(into, b"fault device", session, role);
    put(into, b"\n");
}

fn put_disk<const N: usize>(
    into: &mut ArrayVec<u8, N>,
    session: u32,
    role: Role,
    number: u32,
    first: u64,
    second: u64,
)
    requires { array_vec_len into.old + 256 ≤ N }
    ensures { into.new.items ≡ into.old.items ++ line_with_end (codes "fault" ∷ codes "disk" ∷ decimal
        session ∷ role_field role ∷ decimal number ∷ decimal first ∷ decimal second ∷ []) }
{
    put_disk_prefix(into, b"fault disk", session, role);
    put_field(into, u64::from(number));
    put_field(into, first);
    put_field(into, second);
    put(into, b"\n");
}

/// Puts the fault's line, with its line end, behind what the room holds.
pub fn append_fault<const N: usize>(fault: &Fault, into: &mut ArrayVec<u8, N>)
    requires { array_vec_len into.old + 256 ≤ N }
    ensures line { into.new.items ≡ into.old.items ++ fault_line fault.now }
{
    match fault {
        Fault::Words => put(into, b"fault words\n"),
        Fault::Read => put(into, b"fault read\n"),
        Fault::Script { line } => put_one(into, b"fault script", u64::from(*line)),
        Fault::Device { session, role } => put_device(into, *session, *role),
        Fault::Disk {
            session,
            role,
            number,
            first,
            second,
        } => put_disk(into, *session, *role, *number, *first, *second),
        Fault::Full {
            session,
            end,
            length,
            size,
        } => put_four(
            into,
            b"fault full",
            *session,
            *end,
            u64::from(*length),
            *size,
        ),
    }
}

/// The room then holds the fault's line, with its line end.
pub fn print_fault(fault: &Fault, into: &mut ArrayVec<u8, 2400>)
    ensures line { into.new.items ≡ fault_line fault.now }
{
    into.clear();
    append_fault(fault, into);
}

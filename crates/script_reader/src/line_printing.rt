// Printing the lines of a script.
ghost use Rattle.std.specs.Prelude.{◌≡◌, ◌+◌, ◌*◌, ◌≤◌, ◌<◌, ◌^◌, [], ◌∷◌, ◌++◌, length, codes, decimal};
ghost use Rattle.arrayvec.specs.ArrayVec.{array_vec_len};
ghost use Rattle.pump_frame.specs.Names.{IsName};
ghost use Rattle.script_reader.specs.Grammar.{IsWord, IsLine, row_fields, outcome_field};
ghost use Rattle.script_reader.specs.Lawful.{IsLawfulLine};
ghost use Rattle.script_reader.specs.Heads.{arriving_with, act_with, line_with, CanHold, CanHoldAct, CanHoldLine};
ghost use Rattle.script_reader.specs.Spelling.{word_field, arriving_fields, feedback_field, line_spelling, line_text};
ghost use Rattle.script_reader.specs.Typed.{behind, IsBehind, IsTypedRow, IsTypedArriving, IsTypedFeedback, IsPutLine};

use crate::head::{Act, ArrivingHead, LineHead};
use crate::line::{Line, ToldFeedback};
use crate::printing::{put, put_field, put_held, put_hex, put_marked, put_prefix};
use arrayvec::ArrayVec;
use pump_frame::{Name, SessionRow};

// A printed line goes behind what a room holds. It has at most 2,273 bytes: the longest is a `told`
// line with raw bytes, whose numbers are counted with 40 bytes each.

/// A space and the name.
fn put_name<const N: usize>(into: &mut ArrayVec<u8, N>, name: &Name)
    requires { array_vec_len into.old + 33 ≤ N }
    ensures items { into.new.items ≡ into.old.items ++ 32 ∷ name.now }
    ensures len { array_vec_len into.new ≤ array_vec_len into.old + 33 }
    ensures name { IsName name.now }
{
    put(into, b" ");
    put(into, name.as_slice());
}

/// A space and the word in eight digits.
fn put_word<const N: usize>(into: &mut ArrayVec<u8, N>, word: u32)
    requires { array_vec_len into.old + 9 ≤ N }
    ensures items { into.new.items ≡ into.old.items ++ 32 ∷ word_field word }
    ensures len { array_vec_len into.new ≤ array_vec_len into.old + 9 }
    ensures word { IsWord word (word_field word) }
{
    let mut digits = [0; 8];
    hex::encode_to_slice(word.to_be_bytes().as_slice(), &mut digits).unwrap();
    put(into, b" ");
    put(into, &digits);
}

/// A word and the nine fields of a row.
fn put_row<const N: usize>(into: &mut ArrayVec<u8, N>, word: &[u8], row: &SessionRow)
    requires room { array_vec_len into.old + 400 ≤ N }
    requires short { length word.now ≤ 16 }
    ensures fields { IsBehind into.old.items into.new.items word.now (row_fields row.now) }
    ensures len { array_vec_len into.new ≤ array_vec_len into.old + 369 }
    ensures typed { IsTypedRow row.now }
{
    put(into, word);
    put_field(into, u64::from(row.id));
    put_field(into, u64::from(row.capacity));
    put_field(into, u64::from(row.message));
    put_field(into, u64::from(row.window));
    put_field(into, u64::from(row.start));
    put_field(into, u64::from(row.longest));
    put_field(into, u64::from(row.resend));
    put_name(into, &row.low);
    put_name(into, &row.high);
}

/// What comes with a look.
fn put_arriving<const N: usize>(into: &mut ArrayVec<u8, N>, arrival: &ArrivingHead, body: &[u8])
    requires room { array_vec_len into.old + 2099 ≤ N }
    requires body { CanHold arrival.now body.now }
    ensures items { into.new.items ≡ into.old.items ++ behind (arriving_fields (arriving_with body.now arrival.now)) }
    ensures len { array_vec_len into.new ≤ array_vec_len into.old + 2099 }
    ensures typed { IsTypedArriving (arriving_with body.now arrival.now) }
{
    match arrival {
        ArrivingHead::Nothing => {}
        ArrivingHead::Hello { low, high } => {
            put(into, b" hello");
            put_name(into, low);
            put_name(into, high);
        }
        ArrivingHead::Data { number } => {
            put(into, b" data");
            put_field(into, *number);
            put_hex(into, body);
        }
        ArrivingHead::Raw => {
            put(into, b" raw");
            put_hex(into, body);
        }
    }
}

/// A space and whether the next device call fails.
fn put_outcome<const N: usize>(into: &mut ArrayVec<u8, N>, fault: bool)
    requires { array_vec_len into.old + 6 ≤ N }
    ensures items { into.new.items ≡ into.old.items ++ 32 ∷ outcome_field fault }
    ensures len { array_vec_len into.new ≤ array_vec_len into.old + 6 }
{
    if fault {
        put(into, b" fault");
    } else {
        put(into, b" fine");
    }
}

/// A space, and a count and an average with a slash between.
fn put_average<const N: usize>(into: &mut ArrayVec<u8, N>, count: u32, average: u32)
    requires { array_vec_len into.old + 82 ≤ N }
    ensures items { into.new.items ≡ into.old.items ++ 32 ∷ feedback_field (ToldFeedback.Pair count average) }
    ensures len { array_vec_len into.new ≤ array_vec_len into.old + 82 }
    ensures count { count < 2 ^ 32 }
{
    put_field(into, u64::from(count));
    put_marked(into, b'/', u64::from(average));
}

/// A space and what is told of the passage.
fn put_feedback<const N: usize>(into: &mut ArrayVec<u8, N>, feedback: ToldFeedback)
    requires { array_vec_len into.old + 82 ≤ N }
    ensures items { into.new.items ≡ into.old.items ++ 32 ∷ feedback_field feedback }
    ensures len { array_vec_len into.new ≤ array_vec_len into.old + 82 }
    ensures typed { IsTypedFeedback feedback }
{
    match feedback {
        ToldFeedback::Quiet => put(into, b" -"),
        ToldFeedback::Full => put(into, b" full"),
        ToldFeedback::Pair { count, average } => put_average(into, count, average),
    }
}

/// A word, a session, a moment and a number.
fn put_triple<const N: usize>(
    into: &mut ArrayVec<u8, N>,
    word: &[u8],
    session: u32,
    moment: u64,
    number: u64,
)
    requires room { array_vec_len into.old + 200 ≤ N }
    requires short { length word.now ≤ 16 }
    ensures fields { IsBehind into.old.items into.new.items word.now (decimal session ∷ decimal moment ∷ decimal
        number ∷ []) }
    ensures len { array_vec_len into.new ≤ array_vec_len into.old + 139 }
    ensures session { session < 2 ^ 32 }
    ensures number { number < 2 ^ 64 }
{
    put_prefix(into, word, session, moment);
    put_field(into, number);
}

/// A word, a session, a moment and eight digits.
fn put_step<const N: usize>(
    into: &mut ArrayVec<u8, N>,
    name: &[u8],
    session: u32,
    moment: u64,
    word: u32,
)
    requires room { array_vec_len into.old + 200 ≤ N }
    requires short { length name.now ≤ 16 }
    ensures fields { IsBehind into.old.items into.new.items name.now (decimal session ∷ decimal moment ∷ word_field
        word ∷ []) }
    ensures len { array_vec_len into.new ≤ array_vec_len into.old + 107 }
    ensures session { session < 2 ^ 32 }
    ensures word { IsWord word (word_field word) }
{
    put_prefix(into, name, session, moment);
    put_word(into, word);
}

/// A line of a session alone.
fn put_coarse<const N: usize>(into: &mut ArrayVec<u8, N>, session: u32)
    requires { array_vec_len into.old + 100 ≤ N }
    ensures fields { IsBehind into.old.items into.new.items (codes "coarse") (decimal session ∷ []) }
    ensures len { array_vec_len into.new ≤ array_vec_len into.old + 47 }
    ensures session { session < 2 ^ 32 }
{
    put(into, b"coarse");
    put_field(into, u64::from(session));
}

/// A row, the number of stored messages, and whether the last of them is in the low hand.
fn put_low_session<const N: usize>(
    into: &mut ArrayVec<u8, N>,
    row: &SessionRow,
    next: u64,
    held: bool,
)
    requires { array_vec_len into.old + 500 ≤ N }
    ensures { IsPutLine into.old.items into.new.items (Line.LowSession row.now next held) }
{
    put_row(into, b"low-session", row);
    put_field(into, next);
    put_held(into, held);
}

/// A line that has a moment, without its line end.
fn put_act<const N: usize>(
    into: &mut ArrayVec<u8, N>,
    session: u32,
    moment: u64,
    act: &Act,
    body: &[u8],
)
    requires room { array_vec_len into.old + 2400 ≤ N }
    requires body { CanHoldAct act.now body.now }
    ensures { IsPutLine into.old.items into.new.items (act_with body.now session moment act.now) }
{
    match act {
        Act::Look { word, arrival } => {
            put_step(into, b"look", session, moment, *word);
            put_arriving(into, arrival, body);
        }
        Act::Told {
            word,
            fault,
            feedback,
            arrival,
        } => {
            put_step(into, b"told", session, moment, *word);
            put_outcome(into, *fault);
            put_feedback(into, *feedback);
            put_arriving(into, arrival, body);
        }
        Act::Step { word } => put_step(into, b"step", session, moment, *word),
        Act::Gone => put_prefix(into, b"gone", session, moment),
        Act::High => put_prefix(into, b"high", session, moment),
        Act::Return { back } => put_triple(into, b"return", session, moment, *back),
        Act::Done { time } => put_triple(into, b"done", session, moment, u64::from(*time)),
        Act::Restart => put_prefix(into, b"restart", session, moment),
        Act::ReceiverRestart => put_prefix(into, b"receiver-restart", session, moment),
    }
}

/// The line without its line end.
fn put_line<const N: usize>(into: &mut ArrayVec<u8, N>, head: &LineHead, body: &[u8])
    requires room { array_vec_len into.old + 2400 ≤ N }
    requires body { CanHoldLine head.now body.now }
    ensures { IsPutLine into.old.items into.new.items (line_with body.now head.now) }
{
    match head {
        LineHead::Skip => {}
        LineHead::Session(row) => put_row(into, b"session", row),
        LineHead::LowSession { row, next, held } => put_low_session(into, row, *next, *held),
        LineHead::Coarse { session } => put_coarse(into, *session),
        LineHead::Carry { session, back } => put_prefix(into, b"carry", *session, *back),
        LineHead::At {
            session,
            moment,
            act,
        } => put_act(into, *session, *moment, act, body),
    }
}

/// Puts the line of this head and these bytes, with its line end, behind what the room holds, in its
/// one spelling, as `print_line`. It has at most 2,400 bytes.
pub fn append_line<const N: usize>(head: &LineHead, body: &[u8], into: &mut ArrayVec<u8, N>)
    requires room { array_vec_len into.old + 2400 ≤ N }
    requires body { CanHoldLine head.now body.now }
    ensures line { into.new.items ≡ into.old.items ++ line_text (line_with body.now head.now) }
    ensures len { array_vec_len into.new ≤ array_vec_len into.old + 2400 }
    // What stands before the line end is this line.
    ensures reads { IsLawfulLine (line_with body.now head.now)
        → IsLine (line_with body.now head.now) (line_spelling (line_with body.now head.now)) }
{
    put_line(into, head, body);
    put(into, b"\n");
}

/// The room then holds the line in its one spelling, with its line end: digits in lower case, and `-`
/// for no bytes; `docs/formats.md`, "Scripts", has the lines. A `Skip` is the line end alone.
pub fn print_line(line: &Line, into: &mut ArrayVec<u8, 2400>)
    ensures line { into.new.items ≡ line_text line.now }
    // What stands before the line end is this line, so `read_line` gives it back. A line is lawful
    // where a reader can have given it.
    ensures reads { IsLawfulLine line.now → IsLine line.now (line_spelling line.now) }
{
    into.clear();
    append_line(&line.head(), line.bytes(), into);
}

// Low's sender on a connection.
ghost use Rattle.std.specs.Prelude.{◌≡◌, ℕ, ◌+◌, ◌^◌, ◌<◌, ◌≤◌, List, ◌++◌, length, Option, false};
ghost use Rattle.std.specs.Io.KnownBytes.{Appends, Consumes};
ghost use Rattle.pump_frame.specs.Counts.{Rose};
ghost use Rattle.pump_frame.specs.Frames.{IsLawful};
ghost use Rattle.pump_link.specs.Tells.{Draws, Grows};
ghost use Rattle.peers.specs.Outputs.{PrintsPart, all_counts, counts};
ghost use Rattle.peers.specs.Payloads.{TakesAtMost};
ghost use Rattle.peers.specs.Sending.{Turn, AreTurns, Last, EndsBy, Sending, Sends, ack_line, looks_of, sendings};
ghost use Rattle.peers.specs.Sending.{printings, lines, all_looks, all_sent, all_printed};
ghost use Rattle.peers.specs.Replies.{Sends as SendsMessage};

use crate::asking::{Reply, Wanted, ask};
use crate::outputs::print;
use crate::payload_lines::{Lined, PayloadLines};
use arrayvec::ArrayVec;
use itoa::Buffer;
use pump_frame::{Frame, Kind, Payload, SessionRow};
use pump_link::{Link, Sink, Source};

/// Why a sender ended; `docs/formats.md`, "Low's sender and High's receiver", says when each comes.
#[derive(Clone, Copy, PartialEq, Eq, Debug)]
pub enum SendEnd {
    /// Every message of the script is stored.
    Done,
    /// The script could not be read.
    Read,
    /// A line could not be printed.
    Write,
    /// This line of the script, counted from 1, is no payload.
    Script { line: u32 },
    /// The relay refused a frame.
    Refused { code: u32, number: u64 },
    /// The message of this number was not acknowledged, or none is, for want of a WELCOME.
    Unfinished { number: u64 },
}

/// Prints that a message is acknowledged, and says whether the line was written whole.
pub(crate) fn print_ack<O: Sink>(out: &mut O, number: u64) -> bool
    ensures printed { PrintsPart (O.written out.old) (O.written out.new) result (ack_line number) }
    ensures later { O.faults out.old ≤ O.faults out.new }
    ensures failed { result ≡ false → Rose (O.faults out.old) (O.faults out.new) }
{
    let mut buffer = Buffer::new();
    let mut line: ArrayVec<u8, 64> = ArrayVec::new();
    line.try_extend_from_slice(b"ack ").unwrap();
    line.try_extend_from_slice(buffer.format(number).as_bytes())
        .unwrap();
    line.try_extend_from_slice(b"\n").unwrap();
    print(out, line.as_slice())
}

/// Sends the message of a line, awaits its acknowledgement and prints it; the end, if that ends the
/// call.
fn send_message<C: Link, O: Sink>(
    frame: &Frame,
    left: &mut u32,
    link: &mut C,
    out: &mut O,
) -> Option<SendEnd>
    requires lawful { IsLawful frame.now }
    ensures line { (last : Last) × SendsMessage frame.now last
        (counts (C.faults link.old) (C.faults link.new) (O.faults out.old) (O.faults out.new)) result
        × (last.left ≡ left.new) × (left.old ≡ left.new + length last.wait.looks)
        × Draws (C.gives link.old) (C.gives link.new) last.wait.looks
        × Grows (C.sent link.old) (C.sent link.new) last.sent
        × Appends (O.written out.old) (O.written out.new) last.printed }
    ensures later { C.faults link.old ≤ C.faults link.new }
    ensures out_later { O.faults out.old ≤ O.faults out.new }
{
    match ask(frame, Wanted::Ack(frame.number), left, link) {
        Reply::Came(_) => {}
        Reply::Refused { code, number } => return Some(SendEnd::Refused { code, number }),
        Reply::Unanswered => {
            return Some(SendEnd::Unfinished {
                number: frame.number,
            });
        }
    }
    if print_ack(out, frame.number) {
        None
    } else {
        Some(SendEnd::Write)
    }
}

/// Sends the messages of the script from number `first` on, one by one.
fn send_lines<C: Link, I: Source, O: Sink>(
    session: u32,
    first: u64,
    left: &mut u32,
    link: &mut C,
    script: &mut I,
    out: &mut O,
) -> SendEnd
    ensures lines { (turns : List Turn) × (last : Last) × (rest : Option (List ℕ))
        × AreTurns session first turns × (length turns < 2 ^ 32)
        × (left.old ≡ last.left + length (looks_of turns ++ last.wait.looks))
        × Consumes (I.left script.old) rest (lines turns) × TakesAtMost 6145 rest (I.left script.new)
        × EndsBy session first (length turns) rest last
        (all_counts (C.faults link.old) (C.faults link.new) (O.faults out.old) (O.faults out.new)
        (I.faults script.old) (I.faults script.new)) result
        × Draws (C.gives link.old) (C.gives link.new) (looks_of turns ++ last.wait.looks)
        × Grows (C.sent link.old) (C.sent link.new) (sendings session turns ++ last.sent)
        × Appends (O.written out.old) (O.written out.new) (printings turns ++ last.printed) }
    ensures out_later { O.faults out.old ≤ O.faults out.new }
{
    let mut script_lines = PayloadLines::new();
    let mut frame = Frame {
        kind: Kind::Data,
        session,
        number: 0,
        payload: Payload::default(),
    };
    let mut number: u32 = 0;
    'lines: loop {
        match script_lines.next(script, &mut frame.payload) {
            Lined::Payload => {}
            Lined::Bad => {
                return SendEnd::Script {
                    line: number.saturating_add(1),
                };
            }
            Lined::End => return SendEnd::Done,
            Lined::Failed => return SendEnd::Read,
        }
        if number == u32::MAX {
            return SendEnd::Script { line: u32::MAX };
        }
        frame.number = u64::from(number);
        if frame.number < first {
            number += 1;
            continue;
        }
        if let Some(end) = send_message(&frame, left, link, out) {
            return end;
        }
        number += 1;
    }
}

/// Low's sender on a connection (`docs/formats.md`, "Low's sender and High's receiver"). It greets
/// with the row's names, and when WELCOME tells how many messages are stored, it sends the payloads
/// of the script from that number on, each after the acknowledgement of the one before, and prints
/// the acknowledgements. It makes at most `looks` looks at the link.
pub fn send_with<C: Link, I: Source, O: Sink>(
    row: &SessionRow,
    looks: u32,
    link: &mut C,
    script: &mut I,
    out: &mut O,
) -> SendEnd
    ensures sends { (x : Sending) × Sends row.now looks (I.left script.old) (I.left script.new) x
        (all_counts (C.faults link.old) (C.faults link.new) (O.faults out.old) (O.faults out.new)
        (I.faults script.old) (I.faults script.new)) result
        × Draws (C.gives link.old) (C.gives link.new) (all_looks x)
        × Grows (C.sent link.old) (C.sent link.new) (all_sent row.now x)
        × Appends (O.written out.old) (O.written out.new) (all_printed x) }
    ensures out_later { O.faults out.old ≤ O.faults out.new }
{
    let mut left = looks;
    let hello = Frame::hello(row.id, &row.low, &row.high);
    match ask(&hello, Wanted::Welcome, &mut left, link) {
        Reply::Came(first) => send_lines(row.id, first, &mut left, link, script, out),
        Reply::Refused { code, number } => SendEnd::Refused { code, number },
        Reply::Unanswered => SendEnd::Unfinished { number: 0 },
    }
}

// High's party: the files that come over a connection are shown in a folder.
ghost use Rattle.std.specs.Prelude.{◌≡◌, ℕ, ◌+◌, ◌^◌, ◌<◌, ◌≤◌, true, false, List, ◌++◌, [], length};
ghost use Rattle.std.specs.Prelude.{Option, None, Some};
ghost use Rattle.std.specs.Io.KnownBytes.{Appends};
ghost use Rattle.std.specs.Str.{bytes_eq};
ghost use Rattle.file_messages.specs.Messages.{abandon_message};
ghost use Rattle.pump_frame.specs.Counts.{Rose};
ghost use Rattle.pump_frame.specs.Frames.{IsLawful};
ghost use Rattle.pump_link.specs.Tells.{Draws, Grows};
ghost use Rattle.file_collector.specs.Collecting.{HasTaken, IsCollecting, taken_count};
ghost use Rattle.peers.specs.Outputs.{PrintsPart, counts};
ghost use Rattle.peers.specs.Receiving.{is_wanted};
ghost use Rattle.file_peers.specs.Collecting.{Collection, Collects, KeepsCollector, has_failed, placed_line};
ghost use Rattle.file_peers.specs.Taking.{Step, IsAnswered, TakesNext, TakesFrame, has_failed_in};

use crate::lines::{Whole, print_dropped, print_file, print_odd};
use file_collector::{Collector, PlaceFault, Placed};
use folders::Inbox;
use peers::{Waited, await_frame, is_wanted, plain_frame, send_frame};
use pump_frame::{Frame, Kind, SessionRow};
use pump_link::{Link, Sink};

/// Why High's party ended (`docs/guarantees.md`, "file_peers").
#[derive(Clone, Copy, PartialEq, Eq, Debug)]
pub enum CollectEnd {
    /// The link has ended, failed, or shown bad bytes.
    Ended,
    /// All looks were made.
    Looks,
    /// A line could not be printed.
    Write,
    /// A call on the folder, or on the part in it, failed: the count of its failures.
    Folder { faults: u64 },
    /// A file is whole that ended with the message of this number, but another one has its name, and
    /// also the one with the number.
    NameTaken { number: u64 },
    /// The register's disk failed: its count of failures.
    Device { faults: u64 },
    /// A message came whose number is above the count of those taken.
    Ahead { number: u64, count: u64 },
}

/// Is it the message that gives a file up?
fn gives_up(frame: &Frame) -> bool
    ensures { result ≡ bytes_eq frame.now.payload abandon_message }
{
    frame.payload.as_slice() == [4].as_slice()
}

/// Prints what a message came to, where a file ends with it or the message is none of a file, and says
/// whether the line was written whole. Nothing is said where no file is given up.
fn print_placed<O: Sink>(out: &mut O, session: u32, frame: &Frame, placed: &Placed) -> bool
    ensures printed { PrintsPart (O.written out.old) (O.written out.new) result
        (placed_line session frame.now placed.now) }
    ensures later { O.faults out.old ≤ O.faults out.new }
    ensures failed { result ≡ false → Rose (O.faults out.old) (O.faults out.new) }
{
    let number = frame.number;
    match placed {
        Placed::Begun | Placed::Grown => true,
        Placed::Shown(shown) => {
            let whole = Whole {
                size: shown.size,
                digest: &shown.digest,
                name: shown.name.as_bytes(),
            };
            print_file(out, session, number, &whole)
        }
        Placed::Dropped(lost) => print_dropped(out, session, number, lost.cause, &lost.name),
        Placed::Odd => gives_up(frame) || print_odd(out, session, number),
    }
}

/// Places the next message, counts it and prints what it came to; the end, if that ends the call.
fn take_message<I: Inbox, O: Sink>(
    session: u32,
    frame: &Frame,
    collector: &mut Collector<I>,
    out: &mut O,
) -> Option<CollectEnd>
where
    I::Disk: Drop,
    requires ready { IsCollecting I.told I.Disk.told collector.old }
    requires next { frame.now.number ≡ taken_count collector.old }
    requires below { frame.now.number < 2 ^ 48 }
    ensures ready { has_failed_in result ≡ false → IsCollecting I.told I.Disk.told collector.new }
    ensures takes { (row : SessionRow) (before : List (List ℕ)) → row.id ≡ session → is_wanted row frame.now ≡ true
        → HasTaken I.told I.Disk.told collector.old before → (printed : List ℕ)
        × TakesNext I.told I.Disk.told row before frame.now collector.old collector.new printed (O.faults out.old)
        (O.faults out.new) result
        × Appends (O.written out.old) (O.written out.new) printed }
    ensures unwritten { result ≡ Some CollectEnd.Write → Rose (O.faults out.old) (O.faults out.new) }
    ensures out_later { O.faults out.old ≤ O.faults out.new }
{
    let placed = match collector.place(&frame.payload) {
        Ok(placed) => placed,
        Err(PlaceFault::Device { faults }) => return Some(CollectEnd::Folder { faults }),
        Err(PlaceFault::NameTaken) => {
            return Some(CollectEnd::NameTaken {
                number: frame.number,
            });
        }
    };
    if let Err(device) = collector.count() {
        return Some(CollectEnd::Device {
            faults: device.faults,
        });
    }
    if print_placed(out, session, frame, &placed) {
        None
    } else {
        Some(CollectEnd::Write)
    }
}

/// Sends TAKEN; the end, if that ends the call.
fn answer<C: Link>(link: &mut C, session: u32, number: u64) -> Option<CollectEnd>
    requires { number < 2 ^ 48 }
    ensures answers { (sent : List ℕ) × IsAnswered session number sent (C.faults link.old) (C.faults link.new) result
        × Grows (C.sent link.old) (C.sent link.new) sent }
    ensures gives { Draws (C.gives link.old) (C.gives link.new) [] }
    ensures later { C.faults link.old ≤ C.faults link.new }
{
    if send_frame(link, &plain_frame(Kind::Taken, session, number)) {
        None
    } else {
        Some(CollectEnd::Ended)
    }
}

/// Takes a frame where it is the next message, prints what came of it, and answers it; the end, if that
/// ends the call.
fn serve_frame<C: Link, I: Inbox, O: Sink>(
    row: &SessionRow,
    frame: &Frame,
    link: &mut C,
    collector: &mut Collector<I>,
    out: &mut O,
) -> Option<CollectEnd>
where
    I::Disk: Drop,
    requires ready { IsCollecting I.told I.Disk.told collector.old }
    requires lawful { IsLawful frame.now }
    ensures ready { has_failed_in result ≡ false → IsCollecting I.told I.Disk.told collector.new }
    ensures step { (before : List (List ℕ)) → HasTaken I.told I.Disk.told collector.old before → (x : Step)
        × TakesFrame I.told I.Disk.told row.now before frame.now collector.old collector.new x
        (counts (C.faults link.old) (C.faults link.new) (O.faults out.old) (O.faults out.new)) result
        × Grows (C.sent link.old) (C.sent link.new) x.sent
        × Appends (O.written out.old) (O.written out.new) x.printed }
    ensures gives { Draws (C.gives link.old) (C.gives link.new) [] }
    ensures later { C.faults link.old ≤ C.faults link.new }
    ensures unwritten { result ≡ Some CollectEnd.Write → Rose (O.faults out.old) (O.faults out.new) }
    ensures out_later { O.faults out.old ≤ O.faults out.new }
{
    if !is_wanted(row, frame) {
        return None;
    }
    let number = frame.number;
    let count = collector.taken();
    if number > count {
        return Some(CollectEnd::Ahead { number, count });
    }
    if number < count {
        return answer(link, row.id, number);
    }
    if let Some(end) = take_message(row.id, frame, collector, out) {
        return Some(end);
    }
    answer(link, row.id, number)
}

/// High's party on a connection (`docs/formats.md`, "Files from folder to folder"). It sends ATTACH with
/// the count of messages taken, takes each DATA of its session that is no longer than the row's messages,
/// prints what became of a file where that ends, and then answers with TAKEN. It makes at most `looks`
/// looks at the link.
pub fn collect_with<C: Link, I: Inbox, O: Sink>(
    row: &SessionRow,
    looks: u32,
    link: &mut C,
    collector: &mut Collector<I>,
    out: &mut O,
) -> CollectEnd
where
    I::Disk: Drop,
    requires { IsCollecting I.told I.Disk.told collector.old }
    ensures ready { has_failed result ≡ false → IsCollecting I.told I.Disk.told collector.new }
    ensures collects { (start : List (List ℕ)) → HasTaken I.told I.Disk.told collector.old start → (x : Collection)
        × Collects row.now looks start x
        (counts (C.faults link.old) (C.faults link.new) (O.faults out.old) (O.faults out.new)) result
        × Draws (C.gives link.old) (C.gives link.new) (x.heard ++ x.looks)
        × Grows (C.sent link.old) (C.sent link.new) x.sent
        × Appends (O.written out.old) (O.written out.new) x.printed
        × KeepsCollector I.told I.Disk.told start collector.old collector.new x result }
    ensures unwritten { result ≡ CollectEnd.Write → Rose (O.faults out.old) (O.faults out.new) }
    ensures out_later { O.faults out.old ≤ O.faults out.new }
{
    if !send_frame(link, &plain_frame(Kind::Attach, row.id, collector.taken())) {
        return CollectEnd::Ended;
    }
    let mut left = looks;
    'frames: loop {
        match await_frame(link, &mut left) {
            Waited::Frame(frame) => {
                if let Some(end) = serve_frame(row, &frame, link, collector, out) {
                    return end;
                }
            }
            Waited::Over => return CollectEnd::Ended,
            Waited::Used => return CollectEnd::Looks,
        }
    }
}

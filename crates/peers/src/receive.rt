// High's receiver on a connection.
ghost use Rattle.std.specs.Prelude.{◌≡◌, ◌+◌, ◌≤◌, false, ◌++◌, [], length, Option, None};
ghost use Rattle.std.specs.Io.KnownBytes.{Appends};
ghost use Rattle.pump_frame.specs.Counts.{Rose};
ghost use Rattle.pump_frame.specs.Frames.{IsLawful};
ghost use Rattle.pump_link.specs.Tells.{Draws, Grows};
ghost use Rattle.high_receiver.specs.Receiving.{IsRecvReady, recv_disk, recv_row, recv_size};
ghost use Rattle.peers.specs.Outputs.{PrintsPart, all_counts};
ghost use Rattle.peers.specs.Receiving.{is_wanted, place_of, taken_line, Reception, Receives, KeepsReceiver};
ghost use Rattle.peers.specs.Takes.{Step, TakesFrame};

use crate::looks::{Waited, await_frame};
use crate::outputs::{plain_frame, print, send_frame};
use arrayvec::ArrayVec;
use disk_model::Disk;
use high_receiver::{Receiver, TakeFault, Taken};
use pump_frame::{Frame, Kind, SessionRow};
use pump_link::{Link, Sink};
use script_reader::{EventHead, append_head};

/// Why a receiver ended; `docs/formats.md`, "Low's sender and High's receiver", says when each comes.
#[derive(Clone, Copy, PartialEq, Eq, Debug)]
pub enum ReceiveEnd {
    /// The link has ended, failed, or shown bad bytes.
    Ended,
    /// All looks were made.
    Looks,
    /// A line could not be printed.
    Write,
    /// The receiver's disk failed: its count of failures.
    Device { faults: u64 },
    /// A message came whose number is above the receiver's count.
    Ahead { number: u64, count: u64 },
    /// A message came whose record would end past the size: where it would begin, the message's
    /// length, and the size.
    LogFull { end: u64, length: u32, size: u64 },
}

/// Is it a message of the row's session, no longer than the row lets messages be?
pub fn is_wanted(row: &SessionRow, frame: &Frame) -> bool
    ensures { result ≡ is_wanted row.now frame.now }
{
    matches!(frame.kind, Kind::Data)
        && (frame.session == row.id && frame.payload.len() <= row.message)
}

/// Prints what became of a message, and says whether the line was written whole.
fn print_taken<O: Sink>(out: &mut O, session: u32, number: u64, taken: Taken) -> bool
    ensures printed { PrintsPart (O.written out.old) (O.written out.new) result (taken_line session number taken) }
    ensures later { O.faults out.old ≤ O.faults out.new }
    ensures failed { result ≡ false → Rose (O.faults out.old) (O.faults out.new) }
{
    let event = match taken {
        Taken::Took => EventHead::Took { session, number },
        Taken::Repeat => EventHead::Again { session, number },
    };
    let mut line: ArrayVec<u8, 256> = ArrayVec::new();
    append_head(&event, &mut line);
    print(out, line.as_slice())
}

/// Takes a frame where it is a message for the receiver, prints it and answers it; the end, if that
/// ends the call.
fn serve_frame<C: Link, D: Disk, O: Sink>(
    row: &SessionRow,
    frame: &Frame,
    link: &mut C,
    receiver: &mut Receiver<D>,
    out: &mut O,
) -> Option<ReceiveEnd>
    requires ready { IsRecvReady D.told receiver.old }
    requires row { recv_row receiver.old ≡ row.now }
    requires lawful { IsLawful frame.now }
    ensures step { (x : Step) × TakesFrame D.told row.now frame.now receiver.old receiver.new x
        (all_counts (C.faults link.old) (C.faults link.new) (O.faults out.old) (O.faults out.new)
        (D.told.count (recv_disk receiver.old)) (D.told.count (recv_disk receiver.new))) result
        × Grows (C.sent link.old) (C.sent link.new) x.sent
        × Appends (O.written out.old) (O.written out.new) x.printed }
    ensures gives { Draws (C.gives link.old) (C.gives link.new) [] }
    ensures later { C.faults link.old ≤ C.faults link.new }
    ensures out_later { O.faults out.old ≤ O.faults out.new }
{
    if !is_wanted(row, frame) {
        return None;
    }
    let taken = match receiver.take(frame.number, &frame.payload) {
        Ok(taken) => taken,
        Err(TakeFault::Device { faults }) => return Some(ReceiveEnd::Device { faults }),
        Err(TakeFault::Ahead { number, count }) => {
            return Some(ReceiveEnd::Ahead { number, count });
        }
        Err(TakeFault::LogFull { end, length, size }) => {
            return Some(ReceiveEnd::LogFull { end, length, size });
        }
    };
    if !print_taken(out, row.id, frame.number, taken) {
        return Some(ReceiveEnd::Write);
    }
    if !send_frame(link, &plain_frame(Kind::Taken, row.id, frame.number)) {
        return Some(ReceiveEnd::Ended);
    }
    None
}

/// High's receiver on a connection (`docs/formats.md`, "Low's sender and High's receiver"). It sends
/// ATTACH with its count, takes each DATA of its session that is no longer than the row's messages,
/// prints it and answers it with TAKEN. It makes at most `looks` looks at the link.
pub fn receive_with<C: Link, D: Disk, O: Sink>(
    row: &SessionRow,
    looks: u32,
    link: &mut C,
    receiver: &mut Receiver<D>,
    out: &mut O,
) -> ReceiveEnd
    requires ready { IsRecvReady D.told receiver.old }
    requires row { recv_row receiver.old ≡ row.now }
    ensures receives { (x : Reception) × Receives row.now (recv_size receiver.old) looks (place_of receiver.old) x
        (all_counts (C.faults link.old) (C.faults link.new) (O.faults out.old) (O.faults out.new)
        (D.told.count (recv_disk receiver.old)) (D.told.count (recv_disk receiver.new))) result
        × Draws (C.gives link.old) (C.gives link.new) (x.heard ++ x.looks)
        × Grows (C.sent link.old) (C.sent link.new) x.sent
        × Appends (O.written out.old) (O.written out.new) x.printed
        × KeepsReceiver D.told row.now receiver.old receiver.new x result }
    ensures out_later { O.faults out.old ≤ O.faults out.new }
{
    if !send_frame(link, &plain_frame(Kind::Attach, row.id, receiver.count())) {
        return ReceiveEnd::Ended;
    }
    let mut left = looks;
    'frames: loop {
        match await_frame(link, &mut left) {
            Waited::Frame(frame) => {
                if let Some(end) = serve_frame(row, &frame, link, receiver, out) {
                    return end;
                }
            }
            Waited::Over => return ReceiveEnd::Ended,
            Waited::Used => return ReceiveEnd::Looks,
        }
    }
}

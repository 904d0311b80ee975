// Low's party: the files of a folder are sent over a connection.
ghost use Rattle.std.specs.Prelude.{◌≡◌, ℕ, ◌+◌, ◌-◌, ◌^◌, ◌<◌, ◌≤◌, List, [], ◌++◌, length, Option, None, false};
ghost use Rattle.std.specs.Io.KnownBytes.{Appends};
ghost use Rattle.pump_frame.specs.Counts.{Rose};
ghost use Rattle.pump_frame.specs.Frames.{IsLawful};
ghost use Rattle.pump_frame.specs.declared.frame.Kind.TheVariants.{Data};
ghost use Rattle.pump_link.specs.Tells.{Draws, Grows};
ghost use Rattle.folders.specs.Outboxes.{Settled as IsSettled};
ghost use Rattle.file_dropper.specs.Leaving.{Fits};
ghost use Rattle.file_dropper.specs.Works.{MayAnswer, MayAsk, StandsBehind};
ghost use Rattle.peers.specs.Outputs.{PrintsPart, counts};
ghost use Rattle.file_peers.specs.Dropping.{Visit, Drops, KeepsFolder, all_looks, all_sent, all_printed, counted};
ghost use Rattle.file_peers.specs.Dropping.{dropper_behind, ended_line, given_line, given_number, settled_line};
ghost use Rattle.file_peers.specs.Delivering.{Part, Delivers, KeepsAnswered, MakesTurn, Settles, SendsFiles};

use crate::lines::{Whole, print_again, print_sent};
use crate::resting::{Rest, take_rest};
use file_dropper::{DropFault, Dropper, Next, Sent, Settled};
use folders::Outbox;
use peers::{Reply, Wanted, ask};
use pump_frame::{Frame, Kind, Payload, SessionRow};
use pump_link::{Link, Sink};

/// Why Low's party ended (`docs/formats.md`, "Files from folder to folder").
#[derive(Clone, Copy, PartialEq, Eq, Debug)]
pub enum DropEnd {
    /// The link has ended, failed, or shown bad bytes, while no file waited.
    Ended,
    /// All looks were made, while no file waited.
    Looks,
    /// A line could not be printed.
    Write,
    /// The relay refused a frame.
    Refused { code: u32, number: u64 },
    /// The message of this number was not acknowledged, or none is, for want of a WELCOME.
    Unfinished { number: u64 },
    /// The dropper failed.
    Failed(DropFault),
}

fn print_whole<W: Sink>(out: &mut W, session: u32, sent: &Sent) -> bool
    ensures printed { PrintsPart (W.written out.old) (W.written out.new) result
        (ended_line session (Some sent.now)) }
    ensures later { W.faults out.old ≤ W.faults out.new }
    ensures failed { result ≡ false → Rose (W.faults out.old) (W.faults out.new) }
{
    let whole = Whole {
        size: sent.size,
        digest: &sent.digest,
        name: sent.name.as_slice(),
    };
    print_sent(out, session, sent.start, &whole)
}

/// Prints what became of the file that was marked, and says whether the line was written whole.
fn print_settled<W: Sink>(out: &mut W, session: u32, settled: &Settled) -> bool
    ensures printed { PrintsPart (W.written out.old) (W.written out.new) result
        (settled_line session settled.now) }
    ensures later { W.faults out.old ≤ W.faults out.new }
    ensures failed { result ≡ false → Rose (W.faults out.old) (W.faults out.new) }
{
    match settled {
        Settled::Ready => true,
        Settled::Sent(sent) => print_whole(out, session, sent),
        Settled::Again { start, name } => print_again(out, session, *start, name),
    }
}

/// Prints that a file is given up, where the message does that, and says whether the line was written
/// whole.
fn print_given<W: Sink>(out: &mut W, session: u32, next: &Next) -> bool
    ensures printed { PrintsPart (W.written out.old) (W.written out.new) result (given_line session next.now) }
    ensures later { W.faults out.old ≤ W.faults out.new }
    ensures failed { result ≡ false → Rose (W.faults out.old) (W.faults out.new) }
{
    match next {
        Next::Idle | Next::Message { .. } => true,
        Next::Again { start, name, .. } => print_again(out, session, *start, name),
    }
}

/// Prints that a file was sent, where one ended, and says whether the line was written whole.
fn print_ended<W: Sink>(out: &mut W, session: u32, ended: &Option<Sent>) -> bool
    ensures printed { PrintsPart (W.written out.old) (W.written out.new) result (ended_line session ended.now) }
    ensures later { W.faults out.old ≤ W.faults out.new }
    ensures failed { result ≡ false → Rose (W.faults out.old) (W.faults out.new) }
{
    match ended {
        None => true,
        Some(sent) => print_whole(out, session, sent),
    }
}

/// The number of the message that is given.
fn given_number(next: &Next) -> Option<u64>
    ensures { result ≡ given_number next.now }
{
    match next {
        Next::Idle => None,
        Next::Message { number } => Some(*number),
        Next::Again { number, .. } => Some(*number),
    }
}

/// Settles the dropper, and prints what that tells; the end, if that ends the call.
fn settle<O: Outbox, W: Sink>(
    session: u32,
    accepted: u64,
    dropper: &mut Dropper<O, O::File>,
    out: &mut W,
) -> Option<DropEnd>
    requires least { 138 ≤ dropper.old.message }
    requires greatest { dropper.old.message ≤ 1024 }
    requires few { accepted ≤ 2 ^ 48 }
    ensures ask { result ≡ None → MayAsk O.told dropper.new × (dropper.new.number ≡ accepted) }
    ensures settles { (printed : List ℕ)
        × Settles O.told O.File.left O.File.faults session accepted dropper.old dropper.new printed
        (counts 0 0 (W.faults out.old) (W.faults out.new)) result
        × Appends (W.written out.old) (W.written out.new) printed }
    ensures message { dropper.new.message ≡ dropper.old.message }
    ensures later { O.told.count dropper.old.outbox ≤ O.told.count dropper.new.outbox }
    ensures out_later { W.faults out.old ≤ W.faults out.new }
{
    let settled = match dropper.settle(accepted) {
        Ok(settled) => settled,
        Err(fault) => return Some(DropEnd::Failed(fault)),
    };
    if print_settled(out, session, &settled) {
        None
    } else {
        Some(DropEnd::Write)
    }
}

/// Sends the message that was given, awaits its acknowledgement, and prints where a file was sent whole with
/// it; the end, if that ends the call.
fn deliver<C: Link, O: Outbox, W: Sink>(
    frame: &Frame,
    left: &mut u32,
    link: &mut C,
    dropper: &mut Dropper<O, O::File>,
    out: &mut W,
) -> Option<DropEnd>
    requires may { MayAnswer O.told dropper.old }
    requires lawful { IsLawful frame.now }
    requires number { frame.now.number ≡ dropper.old.number }
    ensures ask { result ≡ None → MayAsk O.told dropper.new × (dropper.new.number ≡ dropper.old.number + 1) }
    ensures delivers { (x : Part)
        × Delivers O.told O.File.faults frame.now dropper.old dropper.new left.new x
        (counts (C.faults link.old) (C.faults link.new) (W.faults out.old) (W.faults out.new)) result
        × (left.old ≡ left.new + length x.looks)
        × Draws (C.gives link.old) (C.gives link.new) x.looks
        × Grows (C.sent link.old) (C.sent link.new) x.sent
        × Appends (W.written out.old) (W.written out.new) x.printed }
    ensures behind { O.told.tells → (messages : List (List ℕ)) → StandsBehind O.told O.File.left dropper.old messages
        → KeepsAnswered O.told O.File.left messages dropper.old dropper.new result }
    ensures message { dropper.new.message ≡ dropper.old.message }
    ensures link_later { C.faults link.old ≤ C.faults link.new }
    ensures later { O.told.count dropper.old.outbox ≤ O.told.count dropper.new.outbox }
    ensures out_later { W.faults out.old ≤ W.faults out.new }
{
    match ask(frame, Wanted::Ack(frame.number), left, link) {
        Reply::Came(_) => {}
        Reply::Refused { code, number } => return Some(DropEnd::Refused { code, number }),
        Reply::Unanswered => {
            return Some(DropEnd::Unfinished {
                number: frame.number,
            });
        }
    }
    let ended = match dropper.acknowledged(frame.number) {
        Ok(ended) => ended,
        Err(fault) => return Some(DropEnd::Failed(fault)),
    };
    if print_ended(out, frame.session, &ended) {
        None
    } else {
        Some(DropEnd::Write)
    }
}

/// Takes a turn: a rest while no file waits, else the next message; the end, if that ends the call.
fn take_turn<C: Link, O: Outbox, W: Sink>(
    frame: &mut Frame,
    left: &mut u32,
    link: &mut C,
    dropper: &mut Dropper<O, O::File>,
    out: &mut W,
) -> Option<DropEnd>
    requires may { MayAsk O.told dropper.old }
    requires kind { frame.old.kind ≡ Data }
    ensures frame { (frame.new.kind ≡ Data) × (frame.new.session ≡ frame.old.session) }
    ensures ask { result ≡ None → MayAsk O.told dropper.new }
    ensures smaller { result ≡ None
        → left.new + (2 ^ 48 - dropper.new.number) < left.old + (2 ^ 48 - dropper.old.number) }
    ensures turn { (x : Part)
        × MakesTurn O.told O.File.left O.File.faults frame.old.session dropper.old dropper.new left.new x
        (counts (C.faults link.old) (C.faults link.new) (W.faults out.old) (W.faults out.new)) result
        × (left.old ≡ left.new + length x.looks)
        × Draws (C.gives link.old) (C.gives link.new) x.looks
        × Grows (C.sent link.old) (C.sent link.new) x.sent
        × Appends (W.written out.old) (W.written out.new) x.printed }
    ensures message { dropper.new.message ≡ dropper.old.message }
    ensures link_later { C.faults link.old ≤ C.faults link.new }
    ensures later { O.told.count dropper.old.outbox ≤ O.told.count dropper.new.outbox }
    ensures out_later { W.faults out.old ≤ W.faults out.new }
{
    let next = match dropper.next(&mut frame.payload) {
        Ok(next) => next,
        Err(fault) => return Some(DropEnd::Failed(fault)),
    };
    let Some(number) = given_number(&next) else {
        return match take_rest(link, left) {
            Rest::Done => None,
            Rest::Over => Some(DropEnd::Ended),
            Rest::Used => Some(DropEnd::Looks),
        };
    };
    if !print_given(out, frame.session, &next) {
        return Some(DropEnd::Write);
    }
    frame.number = number;
    deliver(frame, left, link, dropper, out)
}

/// Sends the messages of the dropper one by one, each after the acknowledgement of the one before.
fn send_files<C: Link, O: Outbox, W: Sink>(
    session: u32,
    left: &mut u32,
    link: &mut C,
    dropper: &mut Dropper<O, O::File>,
    out: &mut W,
) -> DropEnd
    requires { MayAsk O.told dropper.old }
    ensures sends { SendsFiles O.told O.File.left O.File.faults session left.old left.new dropper.old dropper.new
        (counts (C.faults link.old) (C.faults link.new) (W.faults out.old) (W.faults out.new)) result
        (Draws (C.gives link.old) (C.gives link.new)) (Grows (C.sent link.old) (C.sent link.new))
        (Appends (W.written out.old) (W.written out.new)) }
    ensures message { dropper.new.message ≡ dropper.old.message }
    ensures later { O.told.count dropper.old.outbox ≤ O.told.count dropper.new.outbox }
    ensures out_later { W.faults out.old ≤ W.faults out.new }
{
    let mut frame = Frame {
        kind: Kind::Data,
        session,
        number: 0,
        payload: Payload::default(),
    };
    'turns: loop {
        if let Some(end) = take_turn(&mut frame, left, link, dropper, out) {
            return end;
        }
    }
}

/// Low's party on a connection (`docs/formats.md`, "Files from folder to folder"). It greets with the row's
/// names, and when WELCOME tells how many messages are accepted, it settles the dropper by that, and sends
/// the messages of the folder's files from that number on, each after the acknowledgement of the one before.
/// It prints when a file was sent whole, and when one changed meanwhile and is sent again. While no file
/// waits it looks at the link, and at the folder again after every 500 looks. It makes at most `looks` looks
/// at the link.
pub fn drop_with<C: Link, O: Outbox, W: Sink>(
    row: &SessionRow,
    looks: u32,
    link: &mut C,
    dropper: &mut Dropper<O, O::File>,
    out: &mut W,
) -> DropEnd
    requires least { 138 ≤ dropper.old.message }
    requires greatest { dropper.old.message ≤ 1024 }
    requires row { dropper.old.message ≡ row.now.message }
    ensures drops { (x : Visit O O.File) × (left : ℕ)
        × Drops O.told O.File.faults row.now left dropper.old x
        (counts (C.faults link.old) (C.faults link.new) (W.faults out.old) (W.faults out.new)) result
        × (looks ≡ left + length (all_looks x))
        × Draws (C.gives link.old) (C.gives link.new) (all_looks x)
        × Grows (C.sent link.old) (C.sent link.new) (all_sent row.now x)
        × Appends (W.written out.old) (W.written out.new) (all_printed row.now.id x)
        × (dropper_behind dropper.old x ≡ dropper.new)
        × ((start : List (List ℕ)) → O.told.tells → counted x ≡ length start → IsSettled O.told dropper.old.outbox
        → Fits start (O.told.stands dropper.old.outbox) → KeepsFolder O.told O.File.left start dropper.old x) }
    ensures message { dropper.new.message ≡ dropper.old.message }
    ensures later { O.told.count dropper.old.outbox ≤ O.told.count dropper.new.outbox }
    ensures out_later { W.faults out.old ≤ W.faults out.new }
{
    let mut left = looks;
    let hello = Frame::hello(row.id, &row.low, &row.high);
    let accepted = match ask(&hello, Wanted::Welcome, &mut left, link) {
        Reply::Came(accepted) => accepted,
        Reply::Refused { code, number } => return DropEnd::Refused { code, number },
        Reply::Unanswered => return DropEnd::Unfinished { number: 0 },
    };
    if let Some(end) = settle(row.id, accepted, dropper, out) {
        return end;
    }
    send_files(row.id, &mut left, link, dropper, out)
}

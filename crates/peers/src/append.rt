// Low's sender of a stream, which connects again where a connection breaks.
ghost use Rattle.std.specs.Prelude.{◌≡◌, ℕ, ◌+◌, ◌-◌, ◌^◌, ◌<◌, ◌≤◌, List, [], ◌++◌, Option, Some, true, false};
ghost use Rattle.std.specs.Io.KnownBytes.{Appends, Consumes};
ghost use Rattle.pump_frame.specs.Counts.{Rose};
ghost use Rattle.pump_frame.specs.declared.frame.Kind.TheVariants.{Data};
ghost use Rattle.pump_link.specs.Tells.{Draws, Grows};
ghost use Rattle.peers.specs.Appender.{IsReady, Keeps, Holds, TakesWelcome, SendsLines, Visits, acknowledged, coming};
ghost use Rattle.peers.specs.Appender.{flight_of, next_number};
ghost use Rattle.peers.specs.Appending.{AppendsLines, Ask, Line, Made, Prints, Turn, Visit, appended_line, link_tells};
ghost use Rattle.peers.specs.Appending.{looks_in, looks_of, sendings, sent_in, steps, texts};
ghost use Rattle.peers.specs.Outputs.{PrintsPart};
ghost use Rattle.peers.specs.Payloads.{TakesAtMost};
ghost use Rattle.peers.specs.Sending.{ack_line};

use crate::asking::{Reply, Wanted, ask};
use crate::outputs::{print, put_number};
use crate::payload_lines::{Lined, PayloadLines};
use crate::send::print_ack;
use arrayvec::ArrayVec;
use pump_frame::{Frame, Kind, Payload, SessionRow};
use pump_link::{Link, Ports, Sink, Source};

/// Every message has a number below this one.
const LIMIT: u64 = 1 << 48;

/// Why a sender of a stream ended.
#[derive(Clone, Copy, PartialEq, Eq, Debug)]
pub enum AppendEnd {
    /// Every line is acknowledged.
    Done,
    /// The script could not be read.
    Read,
    /// A line could not be printed.
    Write,
    /// The line behind those that were acknowledged is no payload, or its message would have the number 2^48.
    Script,
    /// The relay refused a frame.
    Refused { code: u32, number: u64 },
    /// No look is left.
    Unfinished,
    /// A later WELCOME told this number, which is neither that of the message under way nor one more.
    Elsewhere { number: u64 },
}

/// How a sender of a stream ended.
#[derive(Clone, Copy, PartialEq, Eq, Debug)]
pub struct Appended {
    pub end: AppendEnd,
    /// How many lines were acknowledged.
    pub lines: u32,
    /// The number of the message of the line behind those. It is 0 where no WELCOME came.
    pub next: u64,
}

fn put_appended(into: &mut ArrayVec<u8, 96>, session: u32, appended: &Appended)
    requires { into.old.items ≡ [] }
    ensures { into.new.items ≡ appended_line session appended.now.lines appended.now.next }
{
    into.try_extend_from_slice(b"appended").unwrap();
    put_number(into, u64::from(session));
    put_number(into, u64::from(appended.lines));
    put_number(into, appended.next);
    into.try_extend_from_slice(b"\n").unwrap();
}

/// Prints how many lines were acknowledged, and the number of the next message, and says whether the line was
/// written whole.
pub fn print_appended<O: Sink>(out: &mut O, session: u32, appended: &Appended) -> bool
    ensures printed { PrintsPart (O.written out.old) (O.written out.new) result
        (appended_line session appended.now.lines appended.now.next) }
    ensures later { O.faults out.old ≤ O.faults out.new }
    ensures failed { result ≡ false → Rose (O.faults out.old) (O.faults out.new) }
{
    let mut line = ArrayVec::new();
    put_appended(&mut line, session, appended);
    print(out, line.as_slice())
}

/// What a sender of a stream takes from one connection to the next.
#[derive(Drop)]
struct Appender {
    script_lines: PayloadLines,
    // The message that is under way, if one is held. Its number is that of the next one.
    frame: Frame,
    is_held: bool,
    // How many lines were acknowledged.
    lines: u32,
    // How many looks are left.
    left: u32,
}

impl Appender {
    fn new(session: u32, looks: u32) -> Appender
        ensures is { result ≡ record {
          script_lines = [];
          frame = record {
            kind = Data;
            session = session;
            number = 0;
            payload = [];
          };
          is_held = false;
          lines = 0;
          left = looks;
        } }
        ensures ready { IsReady result }
    {
        Appender {
            script_lines: PayloadLines::new(),
            frame: Frame {
                kind: Kind::Data,
                session,
                number: 0,
                payload: Payload::default(),
            },
            is_held: false,
            lines: 0,
            left: looks,
        }
    }

    // Prints that the message under way is acknowledged, and says whether the line was written whole.
    fn acknowledge<O: Sink>(&mut self, out: &mut O) -> bool
        requires below { self.old.frame.number < 2 ^ 48 }
        requires few { self.old.lines < 2 ^ 32 - 1 }
        ensures after { self.new ≡ acknowledged self.old }
        ensures printed { PrintsPart (O.written out.old) (O.written out.new) result (ack_line self.old.frame.number) }
        ensures later { O.faults out.old ≤ O.faults out.new }
        ensures failed { result ≡ false → Rose (O.faults out.old) (O.faults out.new) }
    {
        let number = self.frame.number;
        self.is_held = false;
        self.frame.number += 1;
        self.lines += 1;
        print_ack(out, number)
    }

    // Goes by the number that a WELCOME told; the end, if that ends the call.
    fn welcome<O: Sink>(&mut self, number: u64, out: &mut O) -> Option<AppendEnd>
        requires below { self.old.is_held ≡ true → self.old.frame.number < 2 ^ 48 }
        requires few { self.old.lines < 2 ^ 32 - 1 }
        ensures takes { (counted : List (List ℕ)) × (printed : List ℕ)
            × TakesWelcome self.old number self.new counted result
            × Prints result (next_number (flight_of self.old) number) counted printed
            × Appends (O.written out.old) (O.written out.new) printed }
        ensures later { O.faults out.old ≤ O.faults out.new }
        ensures failed { result ≡ Some AppendEnd.Write → Rose (O.faults out.old) (O.faults out.new) }
    {
        if !self.is_held {
            self.frame.number = number;
            return None;
        }
        if number == self.frame.number {
            return None;
        }
        if number != self.frame.number + 1 {
            return Some(AppendEnd::Elsewhere { number });
        }
        if self.acknowledge(out) {
            None
        } else {
            Some(AppendEnd::Write)
        }
    }

    // Holds the message of the next line, unless one is held; the end, if there is none.
    fn hold<I: Source>(&mut self, script: &mut I) -> Option<AppendEnd>
        requires ready { IsReady self.old }
        ensures holds { (lines : List Line) × (rest : Option (List ℕ))
            × Holds self.old self.new lines rest (coming self.new (I.left script.new)) result
            × Consumes (coming self.old (I.left script.old)) rest (texts lines)
            × TakesAtMost 2049 rest (coming self.new (I.left script.new)) }
        ensures ready { IsReady self.new }
        ensures keeps { Keeps self.old self.new }
        ensures later { I.faults script.old ≤ I.faults script.new }
        ensures failed { result ≡ Some AppendEnd.Read → Rose (I.faults script.old) (I.faults script.new) }
    {
        if self.is_held {
            return None;
        }
        match self.script_lines.next(script, &mut self.frame.payload) {
            Lined::Payload => {}
            Lined::Bad => return Some(AppendEnd::Script),
            Lined::End => return Some(AppendEnd::Done),
            Lined::Failed => return Some(AppendEnd::Read),
        }
        if self.frame.number >= LIMIT {
            return Some(AppendEnd::Script);
        }
        self.is_held = true;
        None
    }

    // Sends the message under way and those of the script, one by one; the end, if that ends the call. There is none
    // where the link is broken or no look is left.
    fn send_lines<C: Link, I: Source, O: Sink>(
        &mut self,
        link: &mut C,
        script: &mut I,
        out: &mut O,
    ) -> Option<AppendEnd>
        requires ready { IsReady self.old }
        ensures lines { (turns : List Turn) × (lines : List Line) × (a : Ask) × (printed : List ℕ)
            × SendsLines self.old self.new turns lines a (coming self.old (I.left script.old))
            (coming self.new (I.left script.new)) (C.faults link.old) (C.faults link.new) result printed
            × Draws (C.gives link.old) (C.gives link.new) (looks_of turns ++ a.wait.looks)
            × Grows (C.sent link.old) (C.sent link.new) (sendings self.old.frame.session self.old.frame.number
            turns ++ a.sent)
            × Appends (O.written out.old) (O.written out.new) printed }
        ensures ready { IsReady self.new }
        ensures session { self.new.frame.session ≡ self.old.frame.session }
        ensures later { O.faults out.old ≤ O.faults out.new }
        ensures source_later { I.faults script.old ≤ I.faults script.new }
        ensures read { result ≡ Some AppendEnd.Read → Rose (I.faults script.old) (I.faults script.new) }
        ensures unwritten { result ≡ Some AppendEnd.Write → Rose (O.faults out.old) (O.faults out.new) }
    {
        'lines: loop {
            if let Some(end) = self.hold(script) {
                return Some(end);
            }
            let mut left = self.left;
            let reply = ask(&self.frame, Wanted::Ack(self.frame.number), &mut left, link);
            self.left = left;
            match reply {
                Reply::Came(_) => {}
                Reply::Refused { code, number } => {
                    return Some(AppendEnd::Refused { code, number });
                }
                Reply::Unanswered => return None,
            }
            if !self.acknowledge(out) {
                return Some(AppendEnd::Write);
            }
        }
    }

    // Greets, and sends what is to be sent; the end, if that ends the call.
    fn visit<C: Link, I: Source, O: Sink>(
        &mut self,
        row: &SessionRow,
        link: &mut C,
        script: &mut I,
        out: &mut O,
    ) -> Option<AppendEnd>
        requires ready { IsReady self.old }
        requires session { self.old.frame.session ≡ row.now.id }
        ensures visits { (visit : Visit) × (printed : List ℕ)
            × Visits row.now self.old self.new visit (coming self.old (I.left script.old))
            (coming self.new (I.left script.new)) (C.faults link.old) (C.faults link.new) result printed
            × Draws (C.gives link.old) (C.gives link.new) (looks_in visit)
            × Grows (C.sent link.old) (C.sent link.new) (sent_in row.now visit)
            × Appends (O.written out.old) (O.written out.new) printed }
        ensures ready { IsReady self.new }
        ensures session { self.new.frame.session ≡ row.now.id }
        ensures later { O.faults out.old ≤ O.faults out.new }
        ensures source_later { I.faults script.old ≤ I.faults script.new }
        ensures read { result ≡ Some AppendEnd.Read → Rose (I.faults script.old) (I.faults script.new) }
        ensures unwritten { result ≡ Some AppendEnd.Write → Rose (O.faults out.old) (O.faults out.new) }
    {
        let hello = Frame::hello(row.id, &row.low, &row.high);
        let mut left = self.left;
        let reply = ask(&hello, Wanted::Welcome, &mut left, link);
        self.left = left;
        let number = match reply {
            Reply::Came(number) => number,
            Reply::Refused { code, number } => return Some(AppendEnd::Refused { code, number }),
            Reply::Unanswered => return None,
        };
        if let Some(end) = self.welcome(number, out) {
            return Some(end);
        }
        self.send_lines(link, script, out)
    }
}

/// Low's sender of a stream (`docs/formats.md`, "Low's sender and High's receiver"). The number of
/// the first WELCOME is that of the script's first line. Each line is sent after the line before it
/// is acknowledged, by its ACK or by the WELCOME of a later connection, and its acknowledgement is
/// printed. Where a connection breaks, its link goes back to the ports, and another one is asked for
/// while looks are left. Each attempt to connect costs a look, and so does each look at a link.
pub fn append_with<P: Ports, I: Source, O: Sink>(
    row: &SessionRow,
    looks: u32,
    ports: &mut P,
    script: &mut I,
    out: &mut O,
) -> Appended
    ensures appends { (tries : List (Option (Made P.Link))) × (printed : List ℕ)
        × AppendsLines (link_tells P.Link.gives P.Link.sent P.Link.faults) row.now looks tries (I.left script.old)
        (I.left script.new) result.end result.lines result.next printed
        × Grows (P.did ports.old) (P.did ports.new) (steps row.now.low_port tries)
        × Appends (O.written out.old) (O.written out.new) printed }
    ensures read { result.end ≡ AppendEnd.Read → Rose (I.faults script.old) (I.faults script.new) }
    ensures unwritten { result.end ≡ AppendEnd.Write → Rose (O.faults out.old) (O.faults out.new) }
    ensures out_later { O.faults out.old ≤ O.faults out.new }
{
    let mut appender = Appender::new(row.id, looks);
    'tries: while appender.left > 0 {
        appender.left -= 1;
        let mut link = match ports.connect(row.low_port) {
            Ok(link) => link,
            Err(_) => continue,
        };
        let end = appender.visit(row, &mut link, script, out);
        ports.back(link);
        if let Some(end) = end {
            return Appended {
                end,
                lines: appender.lines,
                next: appender.frame.number,
            };
        }
    }
    Appended {
        end: AppendEnd::Unfinished,
        lines: appender.lines,
        next: appender.frame.number,
    }
}

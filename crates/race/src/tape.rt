// The record of a race on its way to a sink.
ghost use Rattle.std.specs.Prelude.{◌≡◌, ◌+◌, ◌<◌, ◌≤◌, ℕ, Option, List, [], ◌++◌, length, decimal, IfSome, true};
ghost use Rattle.std.specs.Prelude.{false};
ghost use Rattle.pump_core.specs.ReplyFrames.{IsLawfulReply};
ghost use Rattle.low_process.specs.Looks.{arrival_of};
ghost use Rattle.relay_threads.specs.Records.{Made, was_full as full_before};
ghost use Rattle.relay_threads.specs.RecordLines.{made_by, opening_line, HasLawfulFrame};
ghost use Rattle.script_reader.specs.Grammar.{IsLine};
ghost use Rattle.script_reader.specs.Spelling.{line_spelling};
ghost use Rattle.script_reader.specs.Generated.{generated_row};
ghost use Rattle.race.specs.MadeLooks.{IsPlain};
ghost use Rattle.race.specs.Messages.{race_opening};
ghost use Rattle.race.specs.Race.{opening_text, look_lines, ReadsBack, number_line, time_lines, end_line, end_lines};
ghost use Rattle.race.specs.Tape.{held_of, has_failed, row_in, Prints, Stays, Shuts, Closes};
ghost use Rattle.race.specs.Turns.{turns};

use arrayvec::ArrayVec;
use itoa::Buffer;
use pump_frame::SessionRow;
use pump_link::{Sink, write_all};
use relay_threads::{LookMade, append_look, append_opening, is_recorded};

/// Enough for a look's line and the comment behind it.
const LINES_ROOM: usize = 2700;

/// The record of a race on its way to a sink. It is held back until a large piece of it is there, so
/// that a line costs no call of the sink. After a failed write nothing further is written.
#[derive(Drop)]
pub struct Tape {
    row: SessionRow,
    held: ArrayVec<u8, 8192>,
    // A room for the bytes of what a look took.
    body: ArrayVec<u8, 1042>,
    has_failed: bool,
}

/// What is told at the end of a record.
#[derive(Clone, Copy)]
pub struct Ending<'a> {
    /// The times come in turn, so many in all.
    pub times: &'a [u32],
    pub count: u32,
    /// How many messages the receiver took, and how many are accepted and removed.
    pub received: u64,
    pub accepted: u64,
    pub removed: u64,
}

fn put(into: &mut ArrayVec<u8, 8192>, text: &[u8])
    requires { length into.old.items + length text.now ≤ 8192 }
    ensures items { into.new.items ≡ into.old.items ++ text.now }
    ensures len { length into.new.items ≡ length into.old.items + length text.now }
{
    into.try_extend_from_slice(text).unwrap();
}

fn put_number(into: &mut ArrayVec<u8, 8192>, number: u64)
    requires { length into.old.items + 40 ≤ 8192 }
    ensures items { into.new.items ≡ into.old.items ++ decimal number }
    ensures len { length into.new.items ≤ length into.old.items + 40 }
{
    let mut buffer = Buffer::new();
    put(into, buffer.format(number).as_bytes());
}

/// A comment of a word and a number.
fn put_numbered(into: &mut ArrayVec<u8, 8192>, word: &[u8], number: u64)
    requires room { length into.old.items + 256 ≤ 8192 }
    requires short { length word.now ≤ 40 }
    ensures { into.new.items ≡ into.old.items ++ number_line word.now number }
{
    put(into, b"# ");
    put(into, word);
    put(into, b" ");
    put_number(into, number);
    put(into, b"\n");
}

/// The comment that ends a record.
fn put_end(into: &mut ArrayVec<u8, 8192>, accepted: u64, removed: u64)
    requires { length into.old.items + 256 ≤ 8192 }
    ensures { into.new.items ≡ into.old.items ++ end_line accepted removed }
{
    put(into, b"# end ");
    put_number(into, accepted);
    put(into, b" ");
    put_number(into, removed);
    put(into, b"\n");
}

impl Tape {
    /// The tape of a session's record, on which nothing stands yet.
    pub fn new(row: &SessionRow) -> Tape
        ensures row { row_in result ≡ row.now }
        ensures empty { held_of result ≡ [] }
        ensures going { has_failed result ≡ false }
    {
        Tape {
            row: *row,
            held: ArrayVec::new(),
            body: ArrayVec::new(),
            has_failed: false,
        }
    }

    /// Writes what is held, unless a write failed before.
    fn flush<O: Sink>(&mut self, out: &mut O)
        ensures stays { Stays self.old self.new (O.written out.old) (O.written out.new) (O.faults out.old)
            (O.faults out.new) }
        ensures empty { held_of self.new ≡ [] }
        ensures row { row_in self.new ≡ row_in self.old }
    {
        if self.has_failed {
            self.held.clear();
            return;
        }
        match write_all(out, self.held.as_slice()) {
            Ok(()) => self.held.clear(),
            Err(_) => {
                self.held.clear();
                self.has_failed = true;
            }
        }
    }

    /// Writes what is held where the lines of a look may not fit behind it.
    fn make_room<O: Sink>(&mut self, out: &mut O)
        ensures stays { Stays self.old self.new (O.written out.old) (O.written out.new) (O.faults out.old)
            (O.faults out.new) }
        ensures room { length (held_of self.new) + 2700 ≤ 8192 }
        ensures row { row_in self.new ≡ row_in self.old }
    {
        if self.held.remaining_capacity() < LINES_ROOM {
            self.flush(out);
        }
    }

    /// Holds the line that the record of a new session begins with. Nothing is written yet.
    pub fn open(&mut self)
        requires row { row_in self.old ≡ generated_row }
        requires empty { held_of self.old ≡ [] }
        ensures prints { (written : Option (List ℕ)) (faults : ℕ)
            → Prints self.old self.new written written faults faults opening_text }
        ensures reads { IsLine (opening_line generated_row race_opening)
            (line_spelling (opening_line generated_row race_opening)) }
        ensures row { row_in self.new ≡ row_in self.old }
    {
        append_opening(&self.row, 0, false, &mut self.held);
    }

    /// Prints the lines of a look, if it is one that a record has. The look before it found the
    /// passage full or not.
    pub fn look<O: Sink>(&mut self, out: &mut O, made: &LookMade, was_full: bool)
        requires row { row_in self.old ≡ generated_row }
        requires lawful { HasLawfulFrame (arrival_of made.now.arrival) }
        requires reply { IfSome made.now.look.reply IsLawfulReply }
        requires plain { IsPlain (made_by generated_row made.now) }
        ensures prints { (before : List Made) → was_full ≡ full_before before
            → Prints self.old self.new (O.written out.old) (O.written out.new) (O.faults out.old) (O.faults out.new)
            (look_lines before (made_by generated_row made.now)) }
        ensures reads { (before : List Made) → was_full ≡ full_before before
            → ReadsBack before (made_by generated_row made.now) }
        ensures row { row_in self.new ≡ row_in self.old }
    {
        if !is_recorded(made, was_full) {
            return;
        }
        self.make_room(out);
        append_look(&self.row, made, &mut self.body, &mut self.held);
    }

    /// Prints a comment of a word and a number.
    fn number<O: Sink>(&mut self, out: &mut O, word: &[u8], number: u64)
        requires short { length word.now ≤ 40 }
        ensures prints { Prints self.old self.new (O.written out.old) (O.written out.new) (O.faults out.old)
            (O.faults out.new) (number_line word.now number) }
    {
        self.make_room(out);
        put_numbered(&mut self.held, word, number);
    }

    /// Prints the times in turn as comments.
    fn times<O: Sink>(&mut self, out: &mut O, times: &[u32], count: u32)
        requires some { 0 < length times.now }
        ensures prints { Prints self.old self.new (O.written out.old) (O.written out.new) (O.faults out.old)
            (O.faults out.new) (time_lines (turns times.now count)) }
    {
        'times: for number in 0..count {
            let time = times[number as usize % times.len()];
            self.number(out, b"time", u64::from(time));
        }
    }

    /// Prints the comments at the end of a record.
    fn end<O: Sink>(&mut self, out: &mut O, ending: &Ending)
        requires some { 0 < length ending.now.times.now }
        ensures prints { Prints self.old self.new (O.written out.old) (O.written out.new) (O.faults out.old)
            (O.faults out.new)
            (end_lines (turns ending.now.times.now ending.now.count) ending.now.received ending.now.accepted
            ending.now.removed) }
    {
        self.times(out, ending.times, ending.count);
        self.number(out, b"took", ending.received);
        self.make_room(out);
        put_end(&mut self.held, ending.accepted, ending.removed);
    }

    /// Writes all that is held. True where a write failed.
    fn shut<O: Sink>(&mut self, out: &mut O) -> bool
        ensures written { Shuts self.old result (O.written out.old) (O.written out.new) (O.faults out.old)
            (O.faults out.new) }
    {
        self.flush(out);
        self.has_failed
    }

    /// Prints the comments at the end of a record, unless a worker was stopped, and writes all that is
    /// held. True where a write failed.
    pub fn close<O: Sink>(&mut self, out: &mut O, is_stopped: bool, ending: &Ending) -> bool
        requires some { 0 < length ending.now.times.now }
        ensures ended { is_stopped ≡ false
            → Closes self.old result (O.written out.old) (O.written out.new) (O.faults out.old) (O.faults out.new)
            (end_lines (turns ending.now.times.now ending.now.count) ending.now.received ending.now.accepted
            ending.now.removed) }
        ensures stopped { is_stopped ≡ true
            → Closes self.old result (O.written out.old) (O.written out.new) (O.faults out.old) (O.faults out.new) [] }
    {
        if is_stopped {
            return self.shut(out);
        }
        self.end(out, ending);
        self.shut(out)
    }
}

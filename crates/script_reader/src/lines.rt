// A reader of the lines of a script.
ghost use Rattle.std.specs.Prelude.{◌≡◌, ◌≢◌, ◌+◌, ◌-◌, ◌^◌, ◌<◌, ◌≤◌, min, [], length, drop, position, Some};
ghost use Rattle.std.specs.Prelude.{IsTrue, ◌↔◌};
ghost use Rattle.pump_frame.specs.Counts.{Rose};
ghost use Rattle.script_reader.specs.Lines.{is_end, IsNextLine, LineIsReady, ReadsOn};
ghost use Rattle.script_reader.specs.Prefixes.{IsFirst};
ghost use Rattle.script_reader.specs.Heads.{lined_with, CanHoldNext};

use crate::body::Body;
use crate::head::LinedHead;
use crate::held_lines::{FirstLine, HeldLines};
use crate::line::Line;
use crate::reading::read_head;
use pump_link::Source;
use std::marker::Model;

/// What comes next in a script.
#[derive(Drop)]
pub enum Lined {
    /// The next line.
    Line(Line),
    /// The next line is outside the grammar, longer than 2,400 bytes, without a line end, or would
    /// have the number 2^32.
    Bad,
    /// No line is left.
    End,
    /// The source could not be read.
    Failed,
}

/// A reader of the lines of a script. It takes no memory: its room of 4,096 bytes is in the value.
/// Contracts see the bytes that it holds and the number of the line last answered.
#[derive(Drop)]
pub struct Lines {
    room: HeldLines,
    number: u32,
}

impl Model for Lines {
    ghost use Rattle.script_reader.specs.Lines.{LineReading};

    ghost Value = { LineReading };

    ghost view = { λ s. record { held = s.room; number = s.number } };
}

impl Lines {
    /// A reader that holds nothing yet.
    pub fn new() -> Self
        ensures { result ≡ record { held = []; number = 0 } }
    {
        Lines {
            room: HeldLines::new(),
            number: 0,
        }
    }

    /// The number of the line last answered, counted from 1. After `Bad` it is the number of the bad
    /// line, and 4294967295 for a line that would have the number 2^32; after `End` and `Failed` it
    /// is the number of the lines before.
    pub fn number(&self) -> u32
        ensures { result ≡ self.now.number }
    {
        self.number
    }

    fn advance(&mut self, len: usize)
        requires held { len ≤ length self.old.held }
        requires few { self.old.number < 2 ^ 32 - 1 }
        ensures { self.new ≡ record { held = drop len self.old.held; number = self.old.number + 1 } }
    {
        self.room.advance(len);
        self.number += 1;
    }

    fn refuse(&mut self)
        ensures { self.new ≡ record { held = self.old.held; number = min (self.old.number + 1) (2 ^ 32 - 1) } }
    {
        self.number = self.number.saturating_add(1);
    }

    /// Whether a whole line is held, or bytes that no line can begin with: then `next` does not ask
    /// the source.
    pub fn is_ready(&self) -> bool
        ensures { IsTrue result ↔ LineIsReady self.now.held }
    {
        self.room.is_ready()
    }

    /// The next line of the script. The source is asked only where `is_ready` is false, and again only
    /// as long as it is. After any answer but a line, what is still to come is as it was before; after
    /// `Failed` no whole line is held.
    pub fn next<I: Source>(&mut self, script: &mut I) -> Lined
        ensures next { IsNextLine self.old self.new (I.left script.old) (I.left script.new) result }
        ensures reads { ReadsOn self.old self.new (I.gives script.old) (I.gives script.new) result }
        ensures failed { result ≡ Lined.Failed → Rose (I.faults script.old) (I.faults script.new) }
        ensures later { I.faults script.old ≤ I.faults script.new }
        ensures few { result ≢ Lined.Failed → result ≢ Lined.End → self.new.number < 2 ^ 32 }
        ensures unasked { LineIsReady self.old.held → script.new ≡ script.old }
    {
        let mut body = Body::new();
        match self.next_head(script, &mut body) {
            LinedHead::Line(line) => Lined::Line(line.with(body.as_slice())),
            LinedHead::Bad => Lined::Bad,
            LinedHead::End => Lined::End,
            LinedHead::Failed => Lined::Failed,
        }
    }

    /// As `next`, with the bytes that come with the line in the room. It moves little, where a line
    /// with its bytes has more than 1 KB.
    pub fn next_head<I: Source>(&mut self, script: &mut I, body: &mut Body) -> LinedHead
        ensures next { IsNextLine self.old self.new (I.left script.old) (I.left script.new)
            (lined_with body.new result) }
        ensures reads { ReadsOn self.old self.new (I.gives script.old) (I.gives script.new)
            (lined_with body.new result) }
        ensures room { CanHoldNext result body.new }
        ensures failed { result ≡ LinedHead.Failed → Rose (I.faults script.old) (I.faults script.new) }
        ensures later { I.faults script.old ≤ I.faults script.new }
        ensures few { result ≢ LinedHead.Failed → result ≢ LinedHead.End → self.new.number < 2 ^ 32 }
        ensures unasked { LineIsReady self.old.held → script.new ≡ script.old }
    {
        match self.room.first_line(script) {
            FirstLine::Ended(len) => self.first(len, body),
            FirstLine::Long => {
                self.refuse();
                LinedHead::Bad
            }
            FirstLine::Unended => self.last(),
            FirstLine::Failed => LinedHead::Failed,
        }
    }

    /// The first line of what is held: its `len` bytes stand before the first line end.
    fn first(&mut self, len: usize, body: &mut Body) -> LinedHead
        requires { position is_end self.old.held ≡ Some len }
        ensures first { IsFirst self.old self.new len (lined_with body.new result) }
        ensures room { CanHoldNext result body.new }
        ensures few { self.new.number < 2 ^ 32 }
    {
        if self.number() < u32::MAX {
            if let Some(line) = read_head(&self.room.held()[..len], body) {
                self.advance(len + 1);
                return LinedHead::Line(line);
            }
        }
        self.refuse();
        LinedHead::Bad
    }

    /// What is held at the end of the script, where no line end stands in it.
    fn last(&mut self) -> LinedHead
        ensures end { self.old.held ≡ [] → (result ≡ LinedHead.End) × (self.new ≡ self.old) }
        ensures bad { self.old.held ≢ [] → (result ≡ LinedHead.Bad)
            × (self.new ≡ record { held = self.old.held; number = min (self.old.number + 1) (2 ^ 32 - 1) }) }
    {
        if self.room.held().is_empty() {
            return LinedHead::End;
        }
        self.refuse();
        LinedHead::Bad
    }
}

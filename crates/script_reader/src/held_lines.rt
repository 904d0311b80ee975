// The lines of a source, of which the first ones are held.
ghost use Rattle.std.specs.Prelude.{◌≡◌, ◌+◌, ◌-◌, ◌<◌, ◌≤◌, [], length, take, drop, position};
ghost use Rattle.std.specs.Prelude.{IsTrue, ◌↔◌, IfOk};
ghost use Rattle.std.specs.Io.KnownBytes.{prepend_known, Keeps, IsAtEnd};
ghost use Rattle.pump_frame.specs.Counts.{Rose};
ghost use Rattle.pump_link.specs.Causes.{HasCause};
ghost use Rattle.script_reader.specs.FirstLines.{IsFirstLine, Fills};
ghost use Rattle.script_reader.specs.Lines.{is_end, LineIsReady, ReadsTo};

use memchr::memchr;
use pump_link::{ReadFault, Source};
use std::marker::Model;

/// What is known of the first line that is still to come.
#[derive(Clone, Copy)]
pub enum FirstLine {
    /// It is held whole: so many bytes stand before its line end.
    Ended(usize),
    /// It has more than 2,400 bytes.
    Long,
    /// It has no line end: nothing comes behind what is held.
    Unended,
    /// The source could not be read up to its end.
    Failed,
}

/// The bytes of a source that were read and not yet given on, with the end of their first line. It takes
/// no memory: its room of 4,096 bytes is in the value. Contracts see the bytes that it holds.
#[derive(Drop)]
pub struct HeldLines {
    cells: [u8; 4096],
    start: usize,
    end: usize,
    // Where the first line end of what is held stands.
    line_end: Option<usize>,
}

impl Model for HeldLines {
    ghost use Rattle.std.specs.Prelude.{◌≡◌, ℕ, ◌-◌, ◌≤◌, List, length, take, drop, position};
    ghost use Rattle.script_reader.specs.Lines.{is_end};

    ghost Value = { List ℕ };

    ghost view = { λ s. take (s.end - s.start) (drop s.start s.cells) };

    ghost invariant = { λ s. (s.start ≤ s.end) × (s.end ≤ 4096) × (length s.cells ≡ 4096)
        × (s.line_end ≡ position is_end (take (s.end - s.start) (drop s.start s.cells))) };
}

fn first_line_end(bytes: &[u8]) -> Option<usize>
    ensures { result ≡ position is_end bytes.now }
{
    memchr(b'\n', bytes)
}

impl HeldLines {
    /// Nothing is held yet.
    pub fn new() -> Self
        ensures { result ≡ [] }
    {
        HeldLines {
            cells: [0; 4096],
            start: 0,
            end: 0,
            line_end: None,
        }
    }

    /// The bytes that are held.
    pub fn held(&self) -> &[u8]
        ensures held { result.now ≡ self.now }
        ensures short { length result.now ≤ 4096 }
    {
        &self.cells[self.start..self.end]
    }

    /// Where the first line end of what is held stands.
    fn line_end(&self) -> Option<usize>
        ensures at { result ≡ position is_end self.now }
        ensures short { length self.now ≤ 4096 }
    {
        self.line_end
    }

    /// So many of the bytes held are given on.
    pub fn advance(&mut self, len: usize)
        requires { len ≤ length self.old }
        ensures { self.new ≡ drop len self.old }
    {
        self.start += len;
        self.line_end = first_line_end(&self.cells[self.start..self.end]);
    }

    fn fill<I: Source>(&mut self, source: &mut I) -> Result<usize, ReadFault>
        requires { length self.old < 4096 }
        ensures fills { Fills self.old self.new (I.gives source.old) (I.gives source.new) result }
        ensures kept { Keeps (prepend_known self.old (I.left source.old)) (prepend_known self.new (I.left source.new)) }
        ensures grown { IfOk result (λ n. length self.new ≡ length self.old + n) }
        ensures same { IfOk result (λ n. n ≡ 0 → self.new ≡ self.old) }
        ensures room { length self.new ≤ 4096 }
        ensures end { IfOk result (λ n. n ≡ 0 → IsAtEnd (I.left source.new)) }
        ensures cause { HasCause (I.faults source.old) (I.faults source.new) result }
    {
        self.cells.copy_within(self.start..self.end, 0);
        self.end -= self.start;
        self.start = 0;
        match source.read(&mut self.cells[self.end..]) {
            Ok(count) => {
                self.end += count;
                self.line_end = first_line_end(&self.cells[..self.end]);
                Ok(count)
            }
            Err(fault) => Err(fault),
        }
    }

    /// Whether a whole line is held, or more bytes than a line has: then `first_line` does not ask the
    /// source.
    pub fn is_ready(&self) -> bool
        ensures { IsTrue result ↔ LineIsReady self.now }
    {
        self.line_end().is_some() || self.held().len() > 2400
    }

    /// Reads up to the end of the first line, and says where it stands. The source is asked only where
    /// `is_ready` is false, and again only as long as it is. Nothing is given on.
    pub fn first_line<I: Source>(&mut self, source: &mut I) -> FirstLine
        ensures first { IsFirstLine self.new (I.left source.new) result }
        ensures kept { Keeps (prepend_known self.old (I.left source.old)) (prepend_known self.new (I.left source.new)) }
        ensures reads { ReadsTo self.old (I.gives source.old) (I.gives source.new) self.new }
        ensures short { length self.new ≤ 4096 }
        ensures failed { result ≡ FirstLine.Failed → Rose (I.faults source.old) (I.faults source.new) }
        ensures later { I.faults source.old ≤ I.faults source.new }
        ensures unasked { LineIsReady self.old → source.new ≡ source.old }
    {
        'turns: loop {
            if let Some(len) = self.line_end() {
                return FirstLine::Ended(len);
            }
            if self.held().len() > 2400 {
                return FirstLine::Long;
            }
            match self.fill(source) {
                Ok(0) => return FirstLine::Unended,
                Ok(_) => {}
                Err(_) => return FirstLine::Failed,
            }
        }
    }
}

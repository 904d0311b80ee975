// The lines of a stream.
ghost use Rattle.std.specs.Prelude.{◌≡◌, ◌≤◌, [], position, Some};
ghost use Rattle.std.specs.Io.KnownBytes.{prepend_known};
ghost use Rattle.pump_frame.specs.Counts.{Rose};
ghost use Rattle.script_reader.specs.Lines.{is_end};
ghost use Rattle.pump_audit.specs.Texts.{IsFirstText, IsNextText, IsTextAtEnd};

use arrayvec::ArrayVec;
use pump_link::Source;
use script_reader::{FirstLine, HeldLines};
use std::marker::Model;

/// What comes next in a stream of lines.
#[derive(Clone, Copy)]
pub(crate) enum Texted {
    /// A line, which is in the room.
    Text,
    /// What is left begins with no line: it has no line end, or more than 2,400 bytes before one.
    Cut,
    /// Nothing is left.
    End,
    /// The source could not be read.
    Failed,
}

/// Reads the lines of a stream as texts. It takes no memory: its room is in the value. Contracts see the
/// bytes that it has read ahead.
#[derive(Drop)]
pub(crate) struct Texts {
    lines: HeldLines,
}

impl Model for Texts {
    ghost use Rattle.std.specs.Prelude.{ℕ, List};

    ghost Value = { List ℕ };

    ghost view = { λ s. s.lines };
}

// Where no line end comes behind what is held.
fn at_end(held: &[u8]) -> Texted
    ensures { IsTextAtEnd held.now result }
{
    if held.is_empty() {
        Texted::End
    } else {
        Texted::Cut
    }
}

impl Texts {
    /// A reader that has read nothing ahead.
    pub fn new() -> Texts
        ensures { result ≡ [] }
    {
        Texts {
            lines: HeldLines::new(),
        }
    }

    // The first line of what is held, of this length, into the room.
    fn first(&mut self, len: usize, text: &mut ArrayVec<u8, 2400>) -> Texted
        requires { position is_end self.old ≡ Some len }
        ensures { IsFirstText self.old self.new len text.new.items result }
    {
        text.clear();
        if text
            .try_extend_from_slice(&self.lines.held()[..len])
            .is_err()
        {
            return Texted::Cut;
        }
        self.lines.advance(len + 1);
        Texted::Text
    }

    /// The next line, without its end, into the room. After any answer but `Text` nothing is said of the
    /// room.
    pub fn next<I: Source>(&mut self, tape: &mut I, text: &mut ArrayVec<u8, 2400>) -> Texted
        ensures next { IsNextText (prepend_known self.old (I.left tape.old)) (prepend_known self.new (I.left tape.new))
            text.new.items result }
        ensures later { I.faults tape.old ≤ I.faults tape.new }
        ensures failed { result ≡ Texted.Failed → Rose (I.faults tape.old) (I.faults tape.new) }
    {
        match self.lines.first_line(tape) {
            FirstLine::Ended(len) => self.first(len, text),
            FirstLine::Long => Texted::Cut,
            FirstLine::Unended => at_end(self.lines.held()),
            FirstLine::Failed => Texted::Failed,
        }
    }
}

//! What is printed, held back until a large piece of it is there.

ghost use Rattle.std.specs.Prelude.{◌≡◌, ◌+◌, ◌≤◌, [], ◌++◌, length, OnOk, OnErr};
ghost use Rattle.std.specs.Io.KnownBytes.{Appends};
ghost use Rattle.pump_link.specs.Causes.{HasCause, AppendsPrefix};
ghost use Rattle.script_reader.specs.EventHeads.{event_of};
ghost use Rattle.script_reader.specs.Lines.{LineIsReady};
ghost use Rattle.script_reader.specs.Transcript.{text, event_line, fault_line};
ghost use Rattle.two_worlds.specs.Printing.{lines_in};
ghost use Rattle.script_replay.specs.Outputs.{held_of, Gathers};

use arrayvec::ArrayVec;
use pump_link::{Sink, WriteFault, write_all};
use script_reader::{EventHead, Fault, Lines, append_fault, append_head};

/// The most bytes that a printed line can ask for.
const LINE_ROOM: usize = 256;

/// What is printed, held back until a large piece of it is there or somebody is to see it.
#[derive(Drop)]
pub struct Output {
    held: ArrayVec<u8, 8192>,
}

impl Output {
    /// Nothing is held.
    pub fn new() -> Output
        ensures { held_of result ≡ [] }
    {
        Output {
            held: ArrayVec::new(),
        }
    }

    /// Hands on all that is held.
    pub fn flush<O: Sink>(&mut self, out: &mut O) -> Result<(), WriteFault>
        ensures ok { OnOk result (Appends (O.written out.old) (O.written out.new) (held_of self.old)) }
        ensures empty { OnOk result (held_of self.new ≡ []) }
        ensures err { OnErr result (AppendsPrefix (O.written out.old) (O.written out.new) (held_of self.old)) }
        ensures cause { HasCause (O.faults out.old) (O.faults out.new) result }
    {
        write_all(out, self.held.as_slice())?;
        self.held.clear();
        Ok(())
    }

    /// Hands on what is held where a line may not fit behind it.
    fn make_room<O: Sink>(&mut self, out: &mut O) -> Result<(), WriteFault>
        ensures ok { OnOk result (Gathers (held_of self.old) (held_of self.new) (O.written out.old) (O.written out.new)
            []) }
        ensures room { OnOk result (length (held_of self.new) + 256 ≤ 8192) }
        ensures err { OnErr result (AppendsPrefix (O.written out.old) (O.written out.new) (held_of self.old)) }
        ensures cause { HasCause (O.faults out.old) (O.faults out.new) result }
    {
        if self.held.remaining_capacity() < LINE_ROOM {
            return self.flush(out);
        }
        Ok(())
    }

    /// Hands on what is held where the next line is not there yet, so that nobody waits for it.
    pub fn show<O: Sink>(&mut self, lines: &Lines, out: &mut O) -> Result<(), WriteFault>
        ensures shown { OnOk result ((LineIsReady lines.now.held → ⊥) → held_of self.new ≡ []) }
        ensures ok { OnOk result (Gathers (held_of self.old) (held_of self.new) (O.written out.old) (O.written out.new)
            []) }
        ensures err { OnErr result (AppendsPrefix (O.written out.old) (O.written out.new) (held_of self.old)) }
        ensures cause { HasCause (O.faults out.old) (O.faults out.new) result }
    {
        if lines.is_ready() {
            return Ok(());
        }
        self.flush(out)
    }

    /// Adds the line of this event.
    pub fn print<O: Sink>(&mut self, event: &EventHead, out: &mut O) -> Result<(), WriteFault>
        ensures ok { OnOk result (Gathers (held_of self.old) (held_of self.new) (O.written out.old) (O.written out.new)
            (event_line (event_of event.now))) }
        ensures err { OnErr result (AppendsPrefix (O.written out.old) (O.written out.new) (held_of self.old)) }
        ensures cause { HasCause (O.faults out.old) (O.faults out.new) result }
    {
        self.make_room(out)?;
        append_head(event, &mut self.held);
        Ok(())
    }

    /// Adds the lines of these events.
    pub fn print_all<O: Sink>(
        &mut self,
        events: &[EventHead],
        out: &mut O,
    ) -> Result<(), WriteFault>
        ensures ok { OnOk result (Gathers (held_of self.old) (held_of self.new) (O.written out.old) (O.written out.new)
            (text (lines_in events.now))) }
        ensures err { OnErr result (AppendsPrefix (O.written out.old) (O.written out.new)
            (held_of self.old ++ text (lines_in events.now))) }
        ensures cause { HasCause (O.faults out.old) (O.faults out.new) result }
    {
        for event in events {
            self.print(event, out)?;
        }
        Ok(())
    }

    /// Hands on all that is held, and the fault's line after it.
    pub fn stop<O: Sink>(&mut self, fault: &Fault, out: &mut O) -> Result<(), WriteFault>
        ensures ok { OnOk result (Appends (O.written out.old) (O.written out.new) (held_of self.old ++ fault_line
            fault.now)) }
        ensures err { OnErr result (AppendsPrefix (O.written out.old) (O.written out.new)
            (held_of self.old ++ fault_line fault.now)) }
        ensures cause { HasCause (O.faults out.old) (O.faults out.new) result }
    {
        self.make_room(out)?;
        append_fault(fault, &mut self.held);
        self.flush(out)
    }
}

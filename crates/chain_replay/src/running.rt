//! The lines of a chain.

ghost use Rattle.std.specs.Prelude.{◌≡◌, ◌^◌, ◌<◌, ◌≤◌, ◌++◌, ℕ, List, [], false, length, Option, OnOk, OnErr};
ghost use Rattle.std.specs.Io.KnownBytes.{Appends};
ghost use Rattle.chain_replay.specs.Ends.{EndsChain};
ghost use Rattle.chain_replay.specs.Private.{AreOf, HasFailed, HasRead, IsDeviceEnd, lent};
ghost use Rattle.chain_replay.specs.Scripts.{BothPumps};
ghost use Rattle.pump_chain.specs.Chained.{Chained};
ghost use Rattle.pump_chain.specs.Ends.{ends_of};
ghost use Rattle.pump_chain.specs.Standing.{ChainStands, chain_is_down};
ghost use Rattle.pump_frame.specs.Counts.{Rose};
ghost use Rattle.pump_link.specs.Causes.{HasCause, AppendsPrefix};
ghost use Rattle.script_reader.specs.Lines.{to_come};
ghost use Rattle.script_reader.specs.Openings.{Openings};
ghost use Rattle.script_reader.specs.Transcript.{text, fault_line};
ghost use Rattle.script_replay.specs.Outputs.{held_of};
ghost use Rattle.script_replay.specs.Runners.{Closes};
ghost use Rattle.two_worlds.specs.Printing.{lines_in};

use crate::applying::{ChainOutcome, apply_line};
use crate::printing::stop_behind;
use arrayvec::ArrayVec;
use disk_model::Disk;
use pump_chain::Chain;
use pump_frame::SessionRow;
use pump_link::{Sink, Source, WriteFault};
use script_reader::{Body, EventHead, Fault, LinedHead, Lines};
use script_replay::{Ended, Output};

// Hands on what is held, and what is printed last.
fn write_last<O: Sink>(
    last: &[EventHead],
    output: &mut Output,
    out: &mut O,
) -> Result<(), WriteFault>
    ensures ok { OnOk result (Appends (O.written out.old) (O.written out.new)
        (held_of output.old ++ text (lines_in last.now))) }
    ensures err { OnErr result (AppendsPrefix (O.written out.old) (O.written out.new)
        (held_of output.old ++ text (lines_in last.now))) }
    ensures cause { HasCause (O.faults out.old) (O.faults out.new) result }
{
    output.print_all(last, out)?;
    output.flush(out)
}

// The script is at its end.
fn finish<D: Disk, O: Sink>(chain: &Chain<D>, output: &mut Output, out: &mut O) -> Ended
    ensures closes { (c : Chained) → ChainStands D.told chain.now c
        → Closes (O.written out.old) (O.written out.new) (O.faults out.old) (O.faults out.new)
        (held_of output.old ++ text (ends_of c)) Ended.Done result }
    ensures cause { result ≡ Ended.Write → Rose (O.faults out.old) (O.faults out.new) }
    ensures stops { (fault : Fault) → result ≡ Ended.Stopped fault → ⊥ }
    ensures memory { result ≡ Ended.Memory → ⊥ }
{
    match write_last(&chain.ends(), output, out) {
        Ok(()) => Ended::Done,
        Err(_) => Ended::Write,
    }
}

// The line with this number is faulty.
fn refuse<O: Sink>(line: u32, output: &mut Output, out: &mut O) -> Ended
    ensures { Closes (O.written out.old) (O.written out.new) (O.faults out.old) (O.faults out.new)
        (held_of output.old ++ fault_line (Fault.Script line)) (Ended.Stopped (Fault.Script line)) result }
{
    stop_behind(Fault::Script { line }, output, out)
}

/// Applies the lines of the chain whose first session has this number, and writes what they print, at the
/// latest where the next line is not there yet.
pub fn run<D: Disk, I: Source, O: Sink>(
    chain: &mut Chain<D>,
    first: u32,
    lines: &mut Lines,
    body: &mut Body,
    script: &mut I,
    out: &mut O,
) -> Ended
    requires up { chain_is_down chain.old ≡ false }
    requires few { lines.old.number < 2 ^ 32 }
    requires held { length lines.old.held ≤ 4096 }
    ensures ends { D.told.tells → (o : Openings) (all : Option (List ℕ)) (one two : SessionRow) (c : Chained)
        → first ≡ one.id
        → ChainStands D.told chain.old c → AreOf one two c
        → HasRead o all (to_come lines.old (I.left script.old)) lines.old.number (BothPumps one two c) []
        → EndsChain (lent D.told chain.old chain.new o one two) all (I.left script.new) (O.written out.old)
        (O.written out.new) (I.faults script.old) (I.faults script.new) result }
    ensures memory { result ≡ Ended.Memory → ⊥ }
    ensures device { IsDeviceEnd result → HasFailed D.told chain.old chain.new }
    ensures words { result ≡ Ended.Stopped Fault.Words → ⊥ }
    ensures read { result ≡ Ended.Stopped Fault.Read → Rose (I.faults script.old) (I.faults script.new) }
    ensures write { result ≡ Ended.Write → Rose (O.faults out.old) (O.faults out.new) }
{
    let mut events = ArrayVec::new();
    let mut output = Output::new();
    'turns: loop {
        match output.show(lines, out) {
            Ok(()) => {}
            Err(_) => return Ended::Write,
        }
        match lines.next_head(script, body) {
            LinedHead::Line(line) => {
                match apply_line(chain, first, &line, body, &mut events, &mut output, out) {
                    ChainOutcome::Applied => {}
                    ChainOutcome::Refused => return refuse(lines.number(), &mut output, out),
                    ChainOutcome::Stopped(fault) => return stop_behind(fault, &mut output, out),
                    ChainOutcome::Unwritten => return Ended::Write,
                }
            }
            LinedHead::Bad => return refuse(lines.number(), &mut output, out),
            LinedHead::Failed => return stop_behind(Fault::Read, &mut output, out),
            LinedHead::End => return finish(chain, &mut output, out),
        }
    }
}

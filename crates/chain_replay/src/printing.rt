//! The script is not read further, because of a fault.

ghost use Rattle.std.specs.Prelude.{◌++◌};
ghost use Rattle.script_reader.specs.Transcript.{fault_line};
ghost use Rattle.script_replay.specs.Outputs.{held_of};
ghost use Rattle.script_replay.specs.Runners.{Closes};

use pump_link::Sink;
use script_reader::Fault;
use script_replay::{Ended, Output};

/// Hands on all that is held, and the fault's line after it.
pub fn stop_behind<O: Sink>(fault: Fault, output: &mut Output, out: &mut O) -> Ended
    ensures { Closes (O.written out.old) (O.written out.new) (O.faults out.old) (O.faults out.new)
        (held_of output.old ++ fault_line fault) (Ended.Stopped fault) result }
{
    match output.stop(&fault, out) {
        Ok(()) => Ended::Stopped(fault),
        Err(_) => Ended::Write,
    }
}

/// As `stop_behind`, where nothing was printed before.
pub fn stop<O: Sink>(fault: Fault, out: &mut O) -> Ended
    ensures { Closes (O.written out.old) (O.written out.new) (O.faults out.old) (O.faults out.new) (fault_line fault)
        (Ended.Stopped fault) result }
{
    stop_behind(fault, &mut Output::new(), out)
}

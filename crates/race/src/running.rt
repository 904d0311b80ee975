// The two works of a race, run side by side.
ghost use Rattle.std.specs.Prelude.{◌≡◌, List, false, IfOk, OnErr};
ghost use Rattle.std.specs.List.{AllByRecursion};
ghost use Rattle.pump_link.specs.Tells.{Draws, Grows};
ghost use Rattle.high_receiver.specs.Receiving.{recv_disk};
ghost use Rattle.relay_threads.specs.Records.{Made, record_of};
ghost use Rattle.relay_threads.specs.RecordLines.{looks_text};
ghost use Rattle.relay_threads.specs.Replays.{IsReadable};
ghost use Rattle.script_reader.specs.Generated.{generated_row};
ghost use Rattle.race.specs.HighRacers.{HighBegins, HighStays};
ghost use Rattle.race.specs.HighWorks.{HighEnds};
ghost use Rattle.race.specs.LowRacers.{LowRests, LowBegins, LowStays};
ghost use Rattle.race.specs.LowWorks.{LowEnds};
ghost use Rattle.race.specs.MadeLooks.{moments_of, acks_of};
ghost use Rattle.race.specs.Tape.{row_in, Prints};
ghost use Rattle.race.specs.Turns.{AsksHigh, asks_in_run};

use crate::high::HighRacer;
use crate::high_work::HighRaceWork;
use crate::low::LowRacer;
use crate::low_work::LowRaceWork;
use crate::tape::Tape;
use passage::{WaitHighEnd, WaitLowEnd};
use pump_frame::OutOfMemory;
use pump_link::{Clock, Sink};
use relay_threads::{Gate, try_run_pair};
use std::sync::Wait;
use std::thread::Threads;

/// Which workers were stopped.
#[derive(Clone, Copy)]
pub struct Raced {
    pub low_stopped: bool,
    pub high_stopped: bool,
}

/// Runs the works of both racers side by side. `OutOfMemory` where the second thread can't be started:
/// then nothing was written.
pub fn run_sides<
    R: Threads + Wait + Sync,
    K: Clock + Send,
    O: Sink + Send,
    L: WaitLowEnd + Send,
    G: Gate + Send,
    H: WaitHighEnd + Send,
    I: Gate + Send,
>(
    rt: &R,
    low: &mut LowRacer<L>,
    high: &mut HighRacer<H>,
    low_clock: &mut K,
    out: &mut O,
    tape: &mut Tape,
    low_gate: &mut G,
    high_gate: &mut I,
) -> Result<Raced, OutOfMemory>
    requires low { LowBegins L.stands L.shape low.old }
    requires row { row_in tape.old ≡ generated_row }
    requires high { HighBegins H.stands high.old }
    ensures low { IfOk result (λ raced. (made : List Made) × LowRests L.stands L.shape low.new made
        × Draws (K.reads low_clock.old) (K.reads low_clock.new) (moments_of made)
        × Prints tape.old tape.new (O.written out.old) (O.written out.new) (O.faults out.old) (O.faults out.new)
        (looks_text generated_row (record_of made))
        × Grows (G.asked low_gate.old) (G.asked low_gate.new) (asks_in_run raced.low_stopped (acks_of made))
        × AllByRecursion (IsReadable generated_row) (record_of made)) }
    ensures low_ends { IfOk result (λ raced. LowEnds low.new raced.low_stopped (G.stops low_gate.old)
        (G.stops low_gate.new)) }
    ensures low_stays { IfOk result (λ _. LowStays L.place L.shape low.old low.new) }
    ensures high_ends { IfOk result (λ raced. HighEnds H.stands high.new raced.high_stopped (I.stops high_gate.old)
        (I.stops high_gate.new)) }
    ensures high_asks { IfOk result (λ raced. AsksHigh high.new.count raced.high_stopped (I.asked high_gate.old)
        (I.asked high_gate.new) (recv_disk high.new.receiver).bytes) }
    ensures high_stays { IfOk result (λ _. HighStays H.place H.shape high.old high.new) }
    ensures nothing { OnErr result (out.new ≡ out.old) }
{
    let mut low_work = LowRaceWork {
        racer: low,
        clock: low_clock,
        out,
        tape,
        gate: low_gate,
        is_stopped: false,
    };
    let mut high_work = HighRaceWork {
        racer: high,
        gate: high_gate,
        is_stopped: false,
    };
    try_run_pair(rt, &mut low_work, &mut high_work)?;
    Ok(Raced {
        low_stopped: low_work.is_stopped,
        high_stopped: high_work.is_stopped,
    })
}

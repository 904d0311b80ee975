// The low worker of a race.
ghost use Rattle.std.specs.Prelude.{◌≡◌};
ghost use Rattle.pump_core.specs.Step.{is_full};

use crate::low::LowRacer;
use crate::messages::no_frame;
use crate::tape::Tape;
use low_process::LookHead;
use passage::WaitLowEnd;
use pump_core::Feedback;
use pump_link::{Clock, Sink};
use relay_threads::{Gate, Work};
use std::sync::Wait;
use std::thread;

// The look found the passage full.
fn found_full(look: &LookHead) -> bool
    ensures { result ≡ is_full look.now.feedback }
{
    matches!(look.feedback, Feedback::Full)
}

// Where the look found nothing to do, the other worker may have to take a message up first.
fn make_way(look: &LookHead) {
    let is_idle = matches!(look.feedback, Feedback::Quiet | Feedback::Full);
    if is_idle && !look.taken && look.reply.is_none() {
        thread::yield_now();
    }
}

/// The low worker of a race: its racer, the clock, the sink with the tape before it, and the gate that
/// lets it go on.
#[derive(Drop)]
pub struct LowRaceWork<'h, 'k, 'o, 't, 'g, K, O, L, G> {
    pub racer: &'h mut LowRacer<L>,
    pub clock: &'k mut K,
    pub out: &'o mut O,
    pub tape: &'t mut Tape,
    pub gate: &'g mut G,
    /// The gate has stopped it.
    pub is_stopped: bool,
}

impl<K: Clock, O: Sink, L: WaitLowEnd, G: Gate> Work
    for LowRaceWork<'_, '_, '_, '_, '_, K, O, L, G> {
    ghost use Rattle.race.specs.LowWorks.{LowCan, LowRuns};

    ghost can_run = { LowCan K.reads K.floor O.written O.faults L.stands L.place L.shape G.asked G.stops };

    ghost ran = { LowRuns K.reads K.floor O.written O.faults L.stands L.place L.shape G.asked G.stops };

    fn run<R: Wait>(&mut self, rt: &R) {
        let mut looks = 0u64;
        let mut was_full = false;
        // The frame that comes to a look: it is written over by the next one.
        let mut frame = no_frame();
        for _ in rt.forever() {
            if self.racer.is_done() {
                return;
            }
            let acknowledged = self.racer.acknowledged();
            if !self.gate.pass(rt, looks, acknowledged) {
                self.is_stopped = true;
                return;
            }
            let comes = self.racer.next_frame(&mut frame);
            let moment = self.clock.moment();
            let made = self.racer.look_with(rt, moment, comes, &frame);
            looks = looks.saturating_add(1);
            self.tape.look(self.out, &made, was_full);
            was_full = found_full(&made.look);
            make_way(&made.look);
        }
        unreachable!();
    }
}

// The high worker of a race.
use crate::high::HighRacer;
use passage::WaitHighEnd;
use relay_threads::{Gate, Work};
use std::sync::Wait;
use std::thread;

/// The high worker of a race: its racer, and the gate that lets it go on.
#[derive(Drop)]
pub struct HighRaceWork<'h, 'g, H, G> {
    pub racer: &'h mut HighRacer<H>,
    pub gate: &'g mut G,
    /// The gate has stopped it.
    pub is_stopped: bool,
}

impl<H: WaitHighEnd, G: Gate> Work for HighRaceWork<'_, '_, H, G> {
    ghost use Rattle.race.specs.HighWorks.{HighCan, HighRuns};

    ghost can_run = { HighCan H.stands H.place H.shape G.asked G.stops };

    ghost ran = { HighRuns H.stands H.place H.shape G.asked G.stops };

    fn run<R: Wait>(&mut self, rt: &R) {
        let mut looks = 0u64;
        let mut has_taken = false;
        for _ in rt.forever() {
            if self.racer.is_done() {
                return;
            }
            let taken = self.racer.taken();
            if !self.gate.pass(rt, looks, taken) {
                self.is_stopped = true;
                return;
            }
            looks = looks.saturating_add(1);
            if has_taken {
                self.racer.give_back(rt);
                has_taken = false;
                continue;
            }
            self.racer.look(rt);
            has_taken = self.racer.receive();
            if !has_taken {
                // The other worker may have to make the next message.
                thread::yield_now();
            }
        }
        unreachable!();
    }
}

// The high worker at its door.
ghost use Rattle.std.specs.Prelude.{◌≡◌, ℕ, ◌<◌, ◌≤◌, false, List, Some};
ghost use Rattle.std.specs.List.{AllByRecursion};
ghost use Rattle.pump_link.specs.Tells.{Draws, Grows};
ghost use Rattle.stable_buffer.specs.High.{high_disk};
ghost use Rattle.high_process.specs.Ready.{Ready};
ghost use Rattle.high_process.specs.States.{row_of, last_of, is_down};
ghost use Rattle.relay_threads.specs.Workers.{CountsEnd};
ghost use Rattle.relay_threads.specs.HighEnds.{StayTakes, StaysTake};
ghost use Rattle.relay_threads.specs.HighStays.{Stay, StaySo, StaysSo, EndsStay, EndsStays, end_by, is_broken};
ghost use Rattle.relay_threads.specs.HighStays.{steps_at, steps, answers_at, answers, moments_at, moments_in};
ghost use Rattle.relay_threads.specs.HighStays.{TellsVisit};
ghost use Rattle.relay_threads.specs.HighWorkers.{CanGoOn, GoesOn};

use crate::gate::Open;
use crate::high_served::HighWhy;
use crate::high_worker::HighWorker;
use crate::rounds_end::{RoundsEnd, Stayed};
use crate::watch::Watch;
use disk_model::Disk;
use high_process::HighProcess;
use passage::WaitHighEnd;
use pump_link::{Accepted, Clock, Door};
use stable_buffer::HighStore;
use std::sync::Wait;

// The worker's end after a connection that ended so, if it ends.
fn end_by(why: HighWhy) -> Option<RoundsEnd>
    ensures { result ≡ end_by why }
{
    match why {
        HighWhy::Device { faults } => Some(RoundsEnd::Device { faults }),
        _ => None,
    }
}

impl<K: Clock, D: Disk, H: WaitHighEnd> HighWorker<'_, '_, '_, '_, K, D, H> {
    /// One stay at the door, with at most `most` rounds. The first of them asks the door; a link that
    /// comes is served, and then given back.
    fn stay<R: Wait, P: Door, V: Watch>(
        &mut self,
        rt: &R,
        door: &mut P,
        watch: &V,
        most: u64,
    ) -> Stayed
        requires can { CanGoOn K.floor D.told H.stands self.old }
        requires some { 0 < most }
        ensures stay { (x : Stay P.Link) × StaySo self.old.process.now self.new.process.now x
            × EndsStay x most result
            × Grows (P.did door.old) (P.did door.new) (steps_at x)
            × Draws (P.gives door.old) (P.gives door.new) (answers_at x)
            × TellsVisit P.Link.gives P.Link.sent P.Link.faults (row_of self.old.process.now).id x
            × Draws (K.reads self.old.clock.now) (K.reads self.new.clock.now) (moments_at x)
            × StayTakes H.stands self.old.ends.now self.new.ends.now self.old.process.now self.new.process.now x }
        ensures port { (n : ℕ) → P.port door.old n → P.port door.new n }
        ensures goes_on { GoesOn K.floor D.told H.stands H.shape H.place self.old self.new }
        ensures up { is_broken result.end ≡ false → is_down self.new.process.now ≡ false }
        ensures device { CountsEnd result.end (D.told.count (high_disk self.old.store.now))
            (D.told.count (high_disk self.new.store.now)) }
    {
        self.clock.moment();
        match door.accept() {
            Accepted::Came(mut link) => {
                watch.high_came();
                let served = self.serve(rt, &mut link, &mut Open, most - 1);
                watch.high_left(served.why);
                door.back(link);
                Stayed {
                    end: end_by(served.why),
                    looks: 1 + served.looks,
                }
            }
            Accepted::NotYet | Accepted::Failed => Stayed {
                end: None,
                looks: 1,
            },
        }
    }
}

/// The high worker of a session over its door, with this many rounds (`docs/design.md`,
/// "Serving"). A round without connection draws a moment, in microseconds, asks the door, and makes
/// no look; a link that comes is served by `serve_high`, and given back to the door when its
/// connection or the worker ends. At its end of the passage nothing is done but by `serve_high`. A
/// connection's failure ends that connection alone. The watch is told of each link.
///
/// `Rounds` comes exactly where all rounds were made and none of them ended the worker. `Device`
/// comes only where the disk's count of faults rose; the process is then down. `RecordFailed` never
/// comes.
pub fn high_rounds<R: Wait, P: Door, K: Clock, D: Disk, H: WaitHighEnd, V: Watch>(
    rt: &R,
    door: &mut P,
    clock: &mut K,
    process: &mut HighProcess,
    store: &mut HighStore<D>,
    ends: &mut H,
    watch: &V,
    rounds: u32,
) -> RoundsEnd
    requires ready { Ready D.told process.old store.old (H.stands ends.old) }
    requires order { last_of process.old ≤ K.floor clock.old }
    ensures rounds { (stays : List (Stay P.Link)) × StaysSo process.old process.new stays
        × EndsStays stays rounds result
        × Grows (P.did door.old) (P.did door.new) (steps stays)
        × Draws (P.gives door.old) (P.gives door.new) (answers stays)
        × AllByRecursion (TellsVisit P.Link.gives P.Link.sent P.Link.faults (row_of process.old).id) stays
        × Draws (K.reads clock.old) (K.reads clock.new) (moments_in stays)
        × StaysTake H.stands ends.old ends.new process.old process.new stays }
    ensures port { (n : ℕ) → P.port door.old n → P.port door.new n }
    ensures ready { is_down process.new ≡ false → Ready D.told process.new store.new (H.stands ends.new) }
    ensures up { is_broken (Some result) ≡ false → is_down process.new ≡ false }
    ensures order { last_of process.new ≤ K.floor clock.new }
    ensures shape { H.shape ends.new ≡ H.shape ends.old }
    ensures place { H.place ends.new ≡ H.place ends.old }
    ensures counts { D.told.count (high_disk store.old) ≤ D.told.count (high_disk store.new) }
    ensures device { CountsEnd (Some result) (D.told.count (high_disk store.old)) (D.told.count (high_disk store.new)) }
{
    let mut worker = HighWorker {
        clock,
        process,
        store,
        ends,
    };
    let most = u64::from(rounds);
    let mut made = 0;
    while made < most {
        let turn = worker.stay(rt, door, watch, most - made);
        made += turn.looks;
        if let Some(end) = turn.end {
            return end;
        }
    }
    RoundsEnd::Rounds
}

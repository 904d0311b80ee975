// The high worker on one connection.
ghost use Rattle.std.specs.Prelude.{◌≡◌, ◌+◌, ◌-◌, ◌^◌, ◌<◌, ◌≤◌, false, List, if◌then◌else◌};
ghost use Rattle.pump_frame.specs.Streams.{spellings};
ghost use Rattle.pump_link.specs.Tells.{Draws, Grows};
ghost use Rattle.stable_buffer.specs.High.{high_disk};
ghost use Rattle.high_process.specs.Ready.{Ready};
ghost use Rattle.high_process.specs.States.{row_of, last_of, is_down};
ghost use Rattle.relay_threads.specs.Workers.{SendsPrefix};
ghost use Rattle.relay_threads.specs.HighRounds.{Round, looks_of_rounds, moments, data_sent, asks_of};
ghost use Rattle.relay_threads.specs.HighEnds.{TakesSo};
ghost use Rattle.relay_threads.specs.HighServes.{Serves, IsServed, all_sent, is_device, IsCaused};
ghost use Rattle.relay_threads.specs.HighWorkers.{CanGoOn, GoesOn};

use crate::gate::Gate;
use crate::high_round::HighConnection;
use crate::high_served::{HighServed, HighWhy};
use crate::high_worker::HighWorker;
use disk_model::Disk;
use high_process::HighProcess;
use passage::WaitHighEnd;
use pump_link::{Clock, Link};
use stable_buffer::HighStore;
use std::sync::Wait;

// The messages removed so far, after a round that has removed one or not.
fn counted(removed: u64, has_removed: bool) -> u64
    requires { removed < 2 ^ 64 - 1 }
    ensures { result ≡ removed + (if has_removed then 1 else 0) }
{
    if has_removed { removed + 1 } else { removed }
}

impl<K: Clock, D: Disk, H: WaitHighEnd> HighWorker<'_, '_, '_, '_, K, D, H> {
    /// Serves one connection, as `serve_high` does.
    pub fn serve<R: Wait, C: Link, G: Gate>(
        &mut self,
        rt: &R,
        link: &mut C,
        gate: &mut G,
        looks: u64,
    ) -> HighServed
        requires can { CanGoOn K.floor D.told H.stands self.old }
        ensures served { (rounds : List Round) × Serves self.old.process.now self.new.process.now rounds
            × IsServed rounds looks result
            × Draws (C.gives link.old) (C.gives link.new) (looks_of_rounds rounds)
            × SendsPrefix (C.sent link.old) (C.sent link.new) (all_sent rounds)
            (spellings (data_sent (row_of self.old.process.now).id rounds))
            × Draws (K.reads self.old.clock.now) (K.reads self.new.clock.now) (moments rounds)
            × Grows (G.asked gate.old) (G.asked gate.new) (asks_of result.why rounds)
            × TakesSo H.stands self.old.ends.now self.new.ends.now self.old.process.now self.new.process.now rounds }
        ensures goes_on { GoesOn K.floor D.told H.stands H.shape H.place self.old self.new }
        ensures up { is_device result.why ≡ false → is_down self.new.process.now ≡ false }
        ensures caused { IsCaused result.why (C.faults link.old) (C.faults link.new)
            (D.told.count (high_disk self.old.store.now)) (D.told.count (high_disk self.new.store.now))
            (G.stops gate.old) (G.stops gate.new) }
    {
        let mut connection = HighConnection::new();
        let mut rounds = 0;
        let mut removed = 0;
        while rounds < looks {
            if !gate.pass(rt, rounds, removed) {
                return HighServed {
                    why: HighWhy::Stopped,
                    looks: rounds,
                };
            }
            let turn = connection.round(rt, link, self);
            rounds += 1;
            if let Some(why) = turn.why {
                return HighServed { why, looks: rounds };
            }
            removed = counted(removed, turn.has_removed);
        }
        HighServed {
            why: HighWhy::Looks,
            looks: rounds,
        }
    }
}

/// Serves one connection of a receiver, with at most `looks` rounds (`docs/design.md`,
/// "Serving"). Each round draws a moment, in microseconds, and reads the link. No look is made
/// before the first frame, which is to be an ATTACH, and then one in each round; what it sends goes
/// out as a DATA. At its end of the passage it takes up just what comes into the hand in these looks,
/// and publishes just the times of their removals. The gate is asked before each round, with the
/// rounds made and the messages removed in this call.
///
/// `Gone`, `Bad` and `NotAttach` come where a round read the link's end, bad bytes, or a first frame
/// that is no ATTACH; that round makes no look. `LinkFailed` comes only where the link's count of
/// faults rose, and `Device` only where the disk's did; the process is then down. `Ahead` and
/// `Behind` come as the look refuses them, and change nothing. `Looks` comes exactly where all
/// rounds were made and none of them ended the call. `Stopped` comes only where the gate's count of
/// stops rose, and with any other answer that count is as before.
pub fn serve_high<R: Wait, C: Link, K: Clock, D: Disk, H: WaitHighEnd, G: Gate>(
    rt: &R,
    link: &mut C,
    clock: &mut K,
    process: &mut HighProcess,
    store: &mut HighStore<D>,
    ends: &mut H,
    gate: &mut G,
    looks: u64,
) -> HighServed
    requires ready { Ready D.told process.old store.old (H.stands ends.old) }
    requires order { last_of process.old ≤ K.floor clock.old }
    ensures served { (rounds : List Round) × Serves process.old process.new rounds
        × IsServed rounds looks result
        × Draws (C.gives link.old) (C.gives link.new) (looks_of_rounds rounds)
        × SendsPrefix (C.sent link.old) (C.sent link.new) (all_sent rounds)
        (spellings (data_sent (row_of process.old).id rounds))
        × Draws (K.reads clock.old) (K.reads clock.new) (moments rounds)
        × Grows (G.asked gate.old) (G.asked gate.new) (asks_of result.why rounds)
        × TakesSo H.stands ends.old ends.new process.old process.new rounds }
    ensures ready { is_down process.new ≡ false → Ready D.told process.new store.new (H.stands ends.new) }
    ensures up { is_device result.why ≡ false → is_down process.new ≡ false }
    ensures order { last_of process.new ≤ K.floor clock.new }
    ensures shape { H.shape ends.new ≡ H.shape ends.old }
    ensures place { H.place ends.new ≡ H.place ends.old }
    ensures counts { D.told.count (high_disk store.old) ≤ D.told.count (high_disk store.new) }
    ensures caused { IsCaused result.why (C.faults link.old) (C.faults link.new) (D.told.count (high_disk store.old))
        (D.told.count (high_disk store.new)) (G.stops gate.old) (G.stops gate.new) }
{
    let mut worker = HighWorker {
        clock,
        process,
        store,
        ends,
    };
    worker.serve(rt, link, gate, looks)
}

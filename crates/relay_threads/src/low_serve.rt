// The low worker on one connection.
ghost use Rattle.std.specs.Prelude.{◌≡◌, ◌+◌, ◌^◌, ◌<◌, ◌≤◌, false, if◌then◌else◌};
ghost use Rattle.std.specs.Io.KnownBytes.{Appends};
ghost use Rattle.pump_link.specs.Tells.{Draws, Grows};
ghost use Rattle.stable_buffer.specs.Low.{low_disk};
ghost use Rattle.low_process.specs.Ready.{Ready};
ghost use Rattle.low_process.specs.Looks.{row_of, last_of, is_down};
ghost use Rattle.relay_threads.specs.declared.low_served.LowWhy.TheVariants.{RecordFailed};
ghost use Rattle.relay_threads.specs.Levels.{IsEndOf};
ghost use Rattle.relay_threads.specs.LowEnds.{DoesSo, StoresSo};
ghost use Rattle.relay_threads.specs.Reaching.{Reaches};
ghost use Rattle.relay_threads.specs.LowWorkers.{CanGoOn, KeepsWorker};
ghost use Rattle.relay_threads.specs.LowServes.{is_device, IsCaused};
ghost use Rattle.relay_threads.specs.LowWorks.{ServesLink};

use crate::gate::Gate;
use crate::low_round::LowConnection;
use crate::low_served::{LowServed, LowWhy};
use crate::low_worker::LowWorker;
use disk_model::Disk;
use low_process::LowProcess;
use passage::WaitLowEnd;
use pump_link::{Clock, Link, Sink, Words};
use stable_buffer::LowStore;
use std::sync::Wait;

fn counted(acks: u64, is_acked: bool) -> u64
    requires { acks + 1 < 2 ^ 64 }
    ensures { result ≡ (if is_acked then acks + 1 else acks) }
{
    if is_acked { acks + 1 } else { acks }
}

impl<K: Clock, W: Words, D: Disk, L: WaitLowEnd, O: Sink> LowWorker<
    '_,
    '_,
    '_,
    '_,
    '_,
    '_,
    K,
    W,
    D,
    L,
    O,
> {
    /// As `serve_low`, which makes the worker.
    pub fn serve<R: Wait, C: Link, G: Gate>(
        &mut self,
        rt: &R,
        link: &mut C,
        gate: &mut G,
        looks: u64,
    ) -> LowServed
        requires { CanGoOn K.floor D.told L.stands self.old }
        ensures served { ServesLink self.old.process.now self.new.process.now looks result
            (Draws (C.gives link.old) (C.gives link.new))
            (Reaches (Grows (C.sent link.old) (C.sent link.new)) (C.faults link.old) (C.faults link.new))
            (Draws (K.reads self.old.clock.now) (K.reads self.new.clock.now))
            (Draws (W.gives self.old.words.now) (W.gives self.new.words.now))
            (Reaches (Appends (O.written self.old.tape.now) (O.written self.new.tape.now))
            (O.faults self.old.tape.now) (O.faults self.new.tape.now))
            (Grows (G.asked gate.old) (G.asked gate.new))
            (IsEndOf L.stands L.shape self.old.ends.now (row_of self.old.process.now))
            (DoesSo L.stands L.shape self.old.ends.now self.new.ends.now self.old.process.now self.new.process.now)
            (StoresSo D.told self.old.store.now self.new.store.now self.old.process.now self.new.process.now) }
        ensures keeps { KeepsWorker K.floor D.told L.stands L.shape L.place self.old self.new }
        ensures up { is_device result.why ≡ false → (result.why ≡ RecordFailed → ⊥)
            → is_down self.new.process.now ≡ false }
        ensures caused { IsCaused result.why (C.faults link.old) (C.faults link.new) (O.faults self.old.tape.now)
            (O.faults self.new.tape.now) (D.told.count (low_disk self.old.store.now))
            (D.told.count (low_disk self.new.store.now)) (G.stops gate.old) (G.stops gate.new) }
    {
        let mut connection = LowConnection::new();
        let mut was_full = false;
        let mut rounds = 0;
        let mut acks = 0;
        while rounds < looks {
            if !gate.pass(rt, rounds, acks) {
                return LowServed {
                    why: LowWhy::Stopped,
                    looks: rounds,
                };
            }
            let turn = self.round(rt, link, &mut connection, was_full);
            rounds += 1;
            if let Some(why) = turn.why {
                return LowServed { why, looks: rounds };
            }
            was_full = turn.is_full;
            acks = counted(acks, turn.is_acked);
        }
        LowServed {
            why: LowWhy::Looks,
            looks: rounds,
        }
    }
}

/// Serves one connection of the low party, for at most `looks` rounds (`docs/design.md`,
/// "Serving"). The process replies over the link, and the tape takes the record of its looks. What the
/// looks pass on is forwarded at the end of the passage, and what they store is on the disk. The gate is
/// asked before each round, with the rounds so far and the messages that were acknowledged in them, and
/// the answer is `Stopped` exactly where it stops the worker. The call may wait for the other end of the
/// passage.
pub fn serve_low<R: Wait, C: Link, K: Clock, W: Words, D: Disk, L: WaitLowEnd, O: Sink, G: Gate>(
    rt: &R,
    link: &mut C,
    clock: &mut K,
    words: &mut W,
    process: &mut LowProcess,
    store: &mut LowStore<D>,
    ends: &mut L,
    tape: &mut O,
    gate: &mut G,
    looks: u64,
) -> LowServed
    requires ready { Ready D.told process.old store.old (L.stands ends.old) }
    requires up { is_down process.old ≡ false }
    requires order { last_of process.old ≤ K.floor clock.old }
    ensures served { ServesLink process.old process.new looks result (Draws (C.gives link.old) (C.gives link.new))
        (Reaches (Grows (C.sent link.old) (C.sent link.new)) (C.faults link.old) (C.faults link.new))
        (Draws (K.reads clock.old) (K.reads clock.new)) (Draws (W.gives words.old) (W.gives words.new))
        (Reaches (Appends (O.written tape.old) (O.written tape.new)) (O.faults tape.old) (O.faults tape.new))
        (Grows (G.asked gate.old) (G.asked gate.new)) (IsEndOf L.stands L.shape ends.old (row_of process.old))
        (DoesSo L.stands L.shape ends.old ends.new process.old process.new)
        (StoresSo D.told store.old store.new process.old process.new) }
    ensures ready { Ready D.told process.new store.new (L.stands ends.new) }
    ensures up { is_device result.why ≡ false → (result.why ≡ RecordFailed → ⊥) → is_down process.new ≡ false }
    ensures order { last_of process.new ≤ K.floor clock.new }
    ensures shape { L.shape ends.new ≡ L.shape ends.old }
    ensures place { L.place ends.new ≡ L.place ends.old }
    ensures counts { D.told.count (low_disk store.old) ≤ D.told.count (low_disk store.new) }
    ensures caused { IsCaused result.why (C.faults link.old) (C.faults link.new) (O.faults tape.old)
        (O.faults tape.new) (D.told.count (low_disk store.old)) (D.told.count (low_disk store.new)) (G.stops gate.old)
        (G.stops gate.new) }
{
    let mut worker = LowWorker {
        clock,
        words,
        process,
        store,
        ends,
        tape,
    };
    worker.serve(rt, link, gate, looks)
}

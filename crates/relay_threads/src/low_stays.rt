// The low worker at its door.
ghost use Rattle.std.specs.Prelude.{◌≡◌, ℕ, ◌<◌, ◌≤◌, Bool, false, [], Option, None, Some, IfSome};
ghost use Rattle.std.specs.Prelude.{true, if◌then◌else◌};
ghost use Rattle.std.specs.Io.KnownBytes.{Appends};
ghost use Rattle.pump_frame.specs.Counts.{Rose};
ghost use Rattle.pump_frame.specs.Rows.{IsLawfulRow};
ghost use Rattle.pump_link.specs.Tells.{Draws, Grows};
ghost use Rattle.stable_buffer.specs.Low.{low_disk};
ghost use Rattle.low_process.specs.Ready.{Ready};
ghost use Rattle.low_process.specs.Looks.{row_of, last_of, is_down};
ghost use Rattle.relay_threads.specs.declared.rounds_end.RoundsEnd.TheVariants.{Rounds as RoundsMade};
ghost use Rattle.relay_threads.specs.declared.rounds_end.RoundsEnd.TheVariants.{RecordFailed as RecordBroke};
ghost use Rattle.relay_threads.specs.Levels.{IsEndOf};
ghost use Rattle.relay_threads.specs.LowEnds.{DoesSo, StoresSo};
ghost use Rattle.relay_threads.specs.Reaching.{Reaches};
ghost use Rattle.relay_threads.specs.Workers.{CountsEnd};
ghost use Rattle.relay_threads.specs.Records.{Made};
ghost use Rattle.relay_threads.specs.Replays.{ReadsBack, TellsLevel, TellLevels};
ghost use Rattle.relay_threads.specs.LowRounds.{with_look};
ghost use Rattle.relay_threads.specs.LowServes.{Leads, text_made};
ghost use Rattle.relay_threads.specs.LowWorkers.{Rests, CanGoOn, KeepsWorker};
ghost use Rattle.relay_threads.specs.LowStays.{Stay, GoneAfter, IsStay, stay_after, end_at};
ghost use Rattle.relay_threads.specs.LowStays.{EndsStay, moment_made};
ghost use Rattle.relay_threads.specs.LowStays.{is_kept_by, is_left_so, end_by, is_ended, steps_at, answers_at};
ghost use Rattle.relay_threads.specs.LowStays.{answers, moments_at, words_at, text_at};
ghost use Rattle.relay_threads.specs.LowStays.{TellsVisit};
ghost use Rattle.relay_threads.specs.LowWorks.{ServesDoor};

use crate::gate::Open;
use crate::low_served::LowWhy;
use crate::low_worker::LowWorker;
use crate::record::LookMade;
use crate::rounds_end::{RoundsEnd, Stayed};
use crate::tape::{LookRoom, record_look};
use crate::watch::Watch;
use disk_model::Disk;
use low_process::{Arrival, LookHead, LowProcess};
use passage::WaitLowEnd;
use pump_link::{Accepted, Clock, Door, Link, Sink, Words};
use stable_buffer::LowStore;
use std::sync::Wait;

// Whether a look with Gone follows.
fn is_left_so(why: LowWhy) -> bool
    ensures { result ≡ is_left_so why }
{
    matches!(why, LowWhy::LinkFailed | LowWhy::Bad)
}

// The worker's end, where this is one.
fn end_by(why: LowWhy) -> Option<RoundsEnd>
    ensures { result ≡ end_by why }
{
    match why {
        LowWhy::RecordFailed => Some(RoundsEnd::RecordFailed),
        LowWhy::Device { faults } => Some(RoundsEnd::Device { faults }),
        _ => None,
    }
}

fn end_kept(is_kept: bool) -> Option<RoundsEnd>
    ensures { result ≡ (if is_kept then None else Some RecordBroke) }
{
    if is_kept {
        None
    } else {
        Some(RoundsEnd::RecordFailed)
    }
}

impl<K: Clock, W: Words, D: Disk, L: WaitLowEnd, O: Sink> LowWorker<
    '_,
    '_,
    '_,
    '_,
    '_,
    '_,
    K,
    W,
    D,
    L,
    O,
> {
    // Leaves a link for this reason: after one that failed or showed bad bytes it makes a look with Gone, with
    // a moment of its own and the word 0. It answers the worker's end, where this is one.
    fn leave<R: Wait>(&mut self, rt: &R, why: LowWhy) -> Option<RoundsEnd>
        requires rests { Rests K.floor D.told L.stands self.old }
        requires up { is_left_so why ≡ true → is_down self.old.process.now ≡ false }
        ensures leaves { (gone : Option Made) × (is_kept : Bool) × GoneAfter (Some why) gone
            × (gone ≡ None → is_kept ≡ true) × (result ≡ end_at (Some why) is_kept)
            × Leads self.old.process.now self.new.process.now (λ row o before. IsLawfulRow row
            → IfSome gone (ReadsBack row before)) (λ before. with_look gone before)
            × Draws (K.reads self.old.clock.now) (K.reads self.new.clock.now) (moment_made gone)
            × Reaches (Appends (O.written self.old.tape.now) (O.written self.new.tape.now))
            (O.faults self.old.tape.now) (O.faults self.new.tape.now) is_kept
            (text_made (row_of self.old.process.now) [] gone)
            × (IsEndOf L.stands L.shape self.old.ends.now (row_of self.old.process.now)
            → IfSome gone (TellsLevel (row_of self.old.process.now)))
            × DoesSo L.stands L.shape self.old.ends.now self.new.ends.now self.old.process.now self.new.process.now
            (with_look gone [])
            × StoresSo D.told self.old.store.now self.new.store.now self.old.process.now self.new.process.now
            (with_look gone []) }
        ensures keeps { KeepsWorker K.floor D.told L.stands L.shape L.place self.old self.new }
        ensures words { self.new.words.now ≡ self.old.words.now }
        ensures up { is_down self.new.process.now ≡ is_down self.old.process.now }
        ensures store { self.new.store.now ≡ self.old.store.now }
    {
        if !is_left_so(why) {
            return end_by(why);
        }
        let moment = self.clock.moment();
        let arrival = Arrival::Gone;
        let mut look = LookHead::new();
        self.process
            .look_waiting_into(rt, moment, 0, arrival, self.store, self.ends, &mut look);
        let made = LookMade {
            moment,
            word: 0,
            arrival,
            look,
        };
        end_kept(record_look(
            self.tape,
            self.process.row(),
            &made,
            false,
            &mut LookRoom::new(),
        ))
    }

    // One stay at the door, with at most `most` rounds. The first of them asks the door; a link that comes is
    // served, and then given back.
    fn stay<R: Wait, P: Door, V: Watch>(
        &mut self,
        rt: &R,
        door: &mut P,
        watch: &V,
        most: u64,
    ) -> Stayed
        requires can { CanGoOn K.floor D.told L.stands self.old }
        requires some { 0 < most }
        ensures stay { (x : Stay P.Link)
            × Leads self.old.process.now self.new.process.now (λ row o before. IsStay row o before x) (λ before.
            stay_after before x)
            × EndsStay x most result
            × Grows (P.did door.old) (P.did door.new) (steps_at x)
            × Draws (P.gives door.old) (P.gives door.new) (answers_at x)
            × TellsVisit P.Link.gives P.Link.sent P.Link.faults x
            × Draws (K.reads self.old.clock.now) (K.reads self.new.clock.now) (moments_at x)
            × Draws (W.gives self.old.words.now) (W.gives self.new.words.now) (words_at x)
            × Reaches (Appends (O.written self.old.tape.now) (O.written self.new.tape.now))
            (O.faults self.old.tape.now) (O.faults self.new.tape.now) (is_kept_by result.end)
            (text_at (row_of self.old.process.now) x)
            × (IsEndOf L.stands L.shape self.old.ends.now (row_of self.old.process.now)
            → TellLevels (row_of self.old.process.now) (stay_after [] x))
            × DoesSo L.stands L.shape self.old.ends.now self.new.ends.now self.old.process.now self.new.process.now
            (stay_after [] x)
            × StoresSo D.told self.old.store.now self.new.store.now self.old.process.now self.new.process.now
            (stay_after [] x) }
        ensures port { (n : ℕ) → P.port door.old n → P.port door.new n }
        ensures keeps { KeepsWorker K.floor D.told L.stands L.shape L.place self.old self.new }
        ensures up { is_ended result.end ≡ false → is_down self.new.process.now ≡ false }
        ensures device { CountsEnd result.end (D.told.count (low_disk self.old.store.now))
            (D.told.count (low_disk self.new.store.now)) }
    {
        self.clock.moment();
        match door.accept() {
            Accepted::Came(mut link) => {
                watch.low_came();
                let served = self.serve(rt, &mut link, &mut Open, most - 1);
                watch.low_left(served.why);
                let end = self.leave(rt, served.why);
                door.back(link);
                Stayed {
                    end,
                    looks: 1 + served.looks,
                }
            }
            Accepted::NotYet | Accepted::Failed => Stayed {
                end: None,
                looks: 1,
            },
        }
    }
}

/// The low worker of a session over its door, with this many rounds (`docs/design.md`, "Serving").
/// A round without connection draws a moment, in microseconds, asks the door, and makes no look; a link
/// that comes is served by `serve_low`, and given back to the door when its connection or the worker
/// ends. After a link that failed or showed bad bytes the process makes a look with Gone, which counts as
/// no round. A connection's failure ends that connection alone. The tape takes the record of all looks, what
/// they pass on is forwarded at the end of the passage, and what they store is on the disk. The watch is told
/// of each link.
///
/// `Rounds` comes exactly where all rounds were made and nothing ended the worker. `Device` comes only
/// where the disk's count of faults rose; the process is then down. `RecordFailed` comes only where the
/// tape's count rose.
pub fn low_rounds<R: Wait, P: Door, K: Clock, W: Words, D: Disk, L: WaitLowEnd, O: Sink, V: Watch>(
    rt: &R,
    door: &mut P,
    clock: &mut K,
    words: &mut W,
    process: &mut LowProcess,
    store: &mut LowStore<D>,
    ends: &mut L,
    tape: &mut O,
    watch: &V,
    rounds: u32,
) -> RoundsEnd
    requires ready { Ready D.told process.old store.old (L.stands ends.old) }
    requires up { is_down process.old ≡ false }
    requires order { last_of process.old ≤ K.floor clock.old }
    ensures rounds { ServesDoor process.old process.new rounds result (Grows (P.did door.old) (P.did door.new))
        (Draws (P.gives door.old) (P.gives door.new)) (TellsVisit P.Link.gives P.Link.sent P.Link.faults)
        (Draws (K.reads clock.old) (K.reads clock.new)) (Draws (W.gives words.old) (W.gives words.new))
        (Reaches (Appends (O.written tape.old) (O.written tape.new)) (O.faults tape.old) (O.faults tape.new))
        (IsEndOf L.stands L.shape ends.old (row_of process.old))
        (DoesSo L.stands L.shape ends.old ends.new process.old process.new)
        (StoresSo D.told store.old store.new process.old process.new)
        (Ready D.told process.new store.new (L.stands ends.new)) }
    ensures port { (n : ℕ) → P.port door.old n → P.port door.new n }
    ensures up { result ≡ RoundsMade → is_down process.new ≡ false }
    ensures order { last_of process.new ≤ K.floor clock.new }
    ensures shape { L.shape ends.new ≡ L.shape ends.old }
    ensures place { L.place ends.new ≡ L.place ends.old }
    ensures counts { D.told.count (low_disk store.old) ≤ D.told.count (low_disk store.new) }
    ensures tape { result ≡ RecordBroke → Rose (O.faults tape.old) (O.faults tape.new) }
    ensures device { CountsEnd (Some result) (D.told.count (low_disk store.old)) (D.told.count (low_disk store.new)) }
{
    let mut worker = LowWorker {
        clock,
        words,
        process,
        store,
        ends,
        tape,
    };
    let most = u64::from(rounds);
    let mut made = 0;
    while made < most {
        let turn = worker.stay(rt, door, watch, most - made);
        made += turn.looks;
        if let Some(end) = turn.end {
            return end;
        }
    }
    RoundsEnd::Rounds
}

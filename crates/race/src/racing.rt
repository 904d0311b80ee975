// A race over disks in memory, which prints its record.
ghost use Rattle.std.specs.Prelude.{◌≡◌, ◌≤◌, ◌⊎◌, ℕ, true, false, List, IfOk, OnErr};
ghost use Rattle.pump_frame.specs.Counts.{Rose};
ghost use Rattle.pump_link.specs.Tells.{Draws, Grows};
ghost use Rattle.pump_core.specs.Passage.{shape_of_row};
ghost use Rattle.relay_ring.specs.RingEnds.{LowEndStands, HighEndStands, low_place, high_place, low_shape, high_shape};
ghost use Rattle.script_reader.specs.Generated.{generated_row};
ghost use Rattle.race.specs.HighRacers.{HighBegins};
ghost use Rattle.race.specs.LowRacers.{LowBegins};
ghost use Rattle.race.specs.Race.{IsRaceRecord, IsStoppedRecord, AreRaceDisks};
ghost use Rattle.race.specs.Tape.{Written};
ghost use Rattle.race.specs.Turns.{CanTurn, AsksHigh, CountsStop};

use crate::high::HighRacer;
use crate::low::LowRacer;
use crate::new_disks::new_disks;
use crate::running::run_sides;
use crate::tape::{Ending, Tape};
use disk_model::PlainDisk;
use passage::Calm;
use pump_frame::OutOfMemory;
use pump_link::{Clock, Sink};
use relay_ring::{RingHigh, RingLow, RingPassage};
use relay_threads::Gate;
use script_reader::{Generator, generated_row};
use std::alloc::Global;
use std::sync::Wait;
use std::thread::Threads;

/// How a race ended.
#[derive(Drop)]
pub struct RaceEnd {
    /// A write of the record failed, and nothing further was written.
    pub write_failed: bool,
    /// The gate of the low or of the high worker stopped it.
    pub low_stopped: bool,
    pub high_stopped: bool,
    /// The disks, as the two processes and the receiver left them.
    pub low: PlainDisk,
    pub high: PlainDisk,
    pub recv: PlainDisk,
}

/// Races both sides over the ends of one passage, and prints the record. `OutOfMemory` where the second
/// thread can't be started: then nothing was written.
fn race_sides<
    R: Threads + Wait + Sync,
    K: Clock + Send,
    O: Sink + Send,
    G: Gate + Send,
    H: Gate + Send,
>(
    rt: &R,
    mut low: LowRacer<Calm<RingLow<'_>>>,
    mut high: HighRacer<Calm<RingHigh<'_>>>,
    low_clock: &mut K,
    out: &mut O,
    low_gate: &mut G,
    high_gate: &mut H,
) -> Result<RaceEnd, OutOfMemory>
    requires low { LowBegins (λ end. LowEndStands end.0) (λ end. low_shape end.0) low }
    requires high { HighBegins (λ end. HighEndStands end.0) high }
    requires place { low_place low.half.ends.0 ≡ high_place high.half.ends.0 }
    requires shape { high_shape high.half.ends.0 ≡ shape_of_row generated_row }
    requires count { low.count ≡ high.count }
    ensures record { IfOk result (λ end. end.low_stopped ≡ false → end.high_stopped ≡ false → (bytes readings : List ℕ)
        × (asks : List (ℕ × ℕ))
        × Written end.write_failed (O.written out.old) (O.written out.new) (O.faults out.old) (O.faults out.new) bytes
        × Draws (K.reads low_clock.old) (K.reads low_clock.new) readings
        × Grows (G.asked low_gate.old) (G.asked low_gate.new) asks
        × IsRaceRecord low.entry.seed high.entry.count high.entry.times.items readings asks bytes) }
    ensures cut_short { IfOk result (λ end. (end.low_stopped ≡ true) ⊎ (end.high_stopped ≡ true)
        → (bytes readings : List ℕ) × (asks : List (ℕ × ℕ))
        × Written end.write_failed (O.written out.old) (O.written out.new) (O.faults out.old) (O.faults out.new) bytes
        × Draws (K.reads low_clock.old) (K.reads low_clock.new) readings
        × Grows (G.asked low_gate.old) (G.asked low_gate.new) asks
        × IsStoppedRecord low.entry.seed low.entry.count end.low_stopped readings asks bytes) }
    ensures disks { IfOk result (λ end. end.low_stopped ≡ false → end.high_stopped ≡ false
        → AreRaceDisks low.entry.seed high.entry.count end.low.bytes end.high.bytes end.recv.bytes) }
    ensures low_stopped { IfOk result (λ end. CountsStop end.low_stopped (G.stops low_gate.old)
        (G.stops low_gate.new)) }
    ensures high_stopped { IfOk result (λ end. CountsStop end.high_stopped (H.stops high_gate.old)
        (H.stops high_gate.new)) }
    ensures asked_high { IfOk result (λ end. AsksHigh high.entry.count end.high_stopped (H.asked high_gate.old)
        (H.asked high_gate.new) end.recv.bytes) }
    ensures nothing { OnErr result (out.new ≡ out.old) }
{
    let mut tape = Tape::new(&low.row);
    tape.open();
    let raced = run_sides(
        rt, &mut low, &mut high, low_clock, out, &mut tape, low_gate, high_gate,
    )?;
    let ending = Ending {
        times: high.times.as_slice(),
        count: high.count,
        received: high.receiver.count(),
        accepted: low.half.process.next(),
        removed: high.half.process.removed(),
    };
    let write_failed = tape.close(out, raced.low_stopped | raced.high_stopped, &ending);
    let (low_disk, low_end) = low.into_disk();
    let (high_disk, high_end, recv_disk) = high.into_disks();
    RingPassage::rejoin(low_end.0, high_end.0);
    Ok(RaceEnd {
        write_failed,
        low_stopped: raced.low_stopped,
        high_stopped: raced.high_stopped,
        low: low_disk,
        high: high_disk,
        recv: recv_disk,
    })
}

/// Races the two workers of a session over disks in memory, each in a thread of its own, and prints the
/// record of what the low one did. The seed makes the session, its messages and the words of the looks;
/// `docs/formats.md`, "Generated scripts", has the rule. There are `count` messages, 1 to 100000. The
/// receiver needs one of the times for each of them, in turn, in microseconds: 1 to 16 times, each at
/// most 10^9.
///
/// A worker asks its gate before each look: the low one with its looks so far and the messages
/// acknowledged, the high one with its looks so far and the messages that the receiver has taken. The
/// lines at the record's end are printed only where no worker was stopped. Where a write fails, both
/// workers go on to the end. `OutOfMemory` comes only before anything is printed.
pub fn race_with<
    R: Threads + Wait + Sync,
    K: Clock + Send,
    O: Sink + Send,
    G: Gate + Send,
    H: Gate + Send,
>(
    rt: &R,
    alloc: Global,
    seed: u32,
    count: u32,
    times: &[u32],
    low_clock: &mut K,
    out: &mut O,
    low_gate: &mut G,
    high_gate: &mut H,
) -> Result<RaceEnd, OutOfMemory>
    requires some { 1 ≤ count }
    requires turn { CanTurn times.now count }
    // Without a stopped worker: all of the record was written, or a prefix of it where a write failed. The
    // low worker's gate was asked before each of its looks, with the messages acknowledged.
    ensures record { IfOk result (λ end. end.low_stopped ≡ false → end.high_stopped ≡ false → (bytes readings : List ℕ)
        × (asks : List (ℕ × ℕ))
        × Written end.write_failed (O.written out.old) (O.written out.new) (O.faults out.old) (O.faults out.new) bytes
        × Draws (K.reads low_clock.old) (K.reads low_clock.new) readings
        × Grows (G.asked low_gate.old) (G.asked low_gate.new) asks
        × IsRaceRecord seed count times.now readings asks bytes) }
    // With one: the same of the record of the looks made.
    ensures cut_short { IfOk result (λ end. (end.low_stopped ≡ true) ⊎ (end.high_stopped ≡ true)
        → (bytes readings : List ℕ) × (asks : List (ℕ × ℕ))
        × Written end.write_failed (O.written out.old) (O.written out.new) (O.faults out.old) (O.faults out.new) bytes
        × Draws (K.reads low_clock.old) (K.reads low_clock.new) readings
        × Grows (G.asked low_gate.old) (G.asked low_gate.new) asks
        × IsStoppedRecord seed count end.low_stopped readings asks bytes) }
    ensures disks { IfOk result (λ end. end.low_stopped ≡ false → end.high_stopped ≡ false
        → AreRaceDisks seed count end.low.bytes end.high.bytes end.recv.bytes) }
    ensures failed { IfOk result (λ end. end.write_failed ≡ true → Rose (O.faults out.old) (O.faults out.new)) }
    ensures low_stopped { IfOk result (λ end. CountsStop end.low_stopped (G.stops low_gate.old)
        (G.stops low_gate.new)) }
    ensures high_stopped { IfOk result (λ end. CountsStop end.high_stopped (H.stops high_gate.old)
        (H.stops high_gate.new)) }
    // The high worker's gate is asked before each look, with the messages that the receiver has.
    ensures asked_high { IfOk result (λ end. AsksHigh count end.high_stopped (H.asked high_gate.old)
        (H.asked high_gate.new) end.recv.bytes) }
    ensures nothing { OnErr result (out.new ≡ out.old) }
{
    let row = generated_row();
    let mut passage = RingPassage::new(alloc, &row)?;
    let disks = new_disks(alloc, &row, count)?;
    let (low_end, high_end) = passage.ends();
    let script = Generator::new(seed, count);
    let low = LowRacer::start(Calm(low_end), disks.low, &row, script, seed, count);
    let high = HighRacer::start(
        Calm(high_end),
        disks.high,
        disks.receiver,
        &row,
        times,
        count,
    );
    race_sides(rt, low, high, low_clock, out, low_gate, high_gate)
}

// A session is served over its two disks.
ghost use Rattle.std.specs.Prelude.{◌≡◌, ◌-◌};
ghost use Rattle.pump_core.specs.Passage.{Low, new_low, new_high};
ghost use Rattle.pump_frame.specs.Rows.{IsLawfulRow};
ghost use Rattle.relay_side.specs.Sides.{side};
ghost use Rattle.relay_threads.specs.Levels.{IsEndOf};
ghost use Rattle.serving.specs.Doors.{doors, links};
ghost use Rattle.serving.specs.Joined.{BothServed, EndsAsDone};
ghost use Rattle.serving.specs.PassageEnds.{end_tells};
ghost use Rattle.serving.specs.Sessions.{IfEnded, SessionComes, workers_end};
ghost use Rattle.stable_buffer.specs.Low.{low_disk};
ghost use Rattle.stable_buffer.specs.High.{high_disk};

use crate::doors::open_doors;
use crate::high_half::{HighHalf, HighParts};
use crate::low_half::{LowHalf, LowParts};
use crate::starting::{start_high, start_low};
use crate::watched::WatchedLow;
use crate::works::serve_halves;
use disk_model::{Disk, Role};
use passage::{Calm, WaitHighEnd, WaitLowEnd};
use pump_frame::{OutOfMemory, SessionRow};
use pump_link::{Clock, Ports, Sink};
use recovery::{NotOpened, Why, open_pump_waiting};
use relay_ring::RingPassage;
use relay_side::RelaySide;
use relay_threads::{RoundsEnd, Watch};
use std::alloc::Global;
use std::sync::Wait;
use std::thread::Threads;

/// How a session that was to be served ended.
#[derive(Clone, Copy)]
pub enum SessionEnd {
    /// There was not enough memory.
    Memory,
    /// This disk is refused, or a call of it failed when it was opened.
    Refused { role: Role, why: Why },
    /// A port gave no door.
    NoDoor,
    /// The second thread could not be started, for want of memory.
    NoThread,
    /// Both workers served, and ended so.
    Ended { low: RoundsEnd, high: RoundsEnd },
}

/// How a session ended, and its two disks.
#[derive(Drop)]
pub struct Served<D> {
    pub end: SessionEnd,
    pub low: D,
    pub high: D,
}

/// What a session is served by: its row, the key of its words, the watch that is told, and how many rounds a worker
/// makes at most.
#[derive(Drop)]
pub struct Serving<'a, V> {
    pub row: &'a SessionRow,
    pub key: [u8; 32],
    pub watch: &'a V,
    pub rounds: u32,
}

/// The two disks of a session, and the two ends of its passage.
#[derive(Drop)]
pub struct SessionParts<D, L, H> {
    pub low: D,
    pub high: D,
    pub low_end: L,
    pub high_end: H,
}

// No worker ran, since a disk is refused.
fn refused_by<D, L, H>(
    refused: NotOpened<D>,
    low_end: L,
    high_end: H,
) -> (SessionEnd, SessionParts<D, L, H>)
    ensures { result ≡ (
      SessionEnd.Refused refused.role refused.why,
      record { low = refused.low; high = refused.high; low_end = low_end; high_end = high_end },
    ) }
{
    let end = SessionEnd::Refused {
        role: refused.role,
        why: refused.why,
    };
    let parts = SessionParts {
        low: refused.low,
        high: refused.high,
        low_end,
        high_end,
    };
    (end, parts)
}

// How the workers ended, or that they did not run.
fn workers_end(served: Result<(), OutOfMemory>, low: RoundsEnd, high: RoundsEnd) -> SessionEnd
    ensures { result ≡ workers_end served low high }
{
    match served {
        Ok(()) => SessionEnd::Ended { low, high },
        Err(OutOfMemory) => SessionEnd::NoThread,
    }
}

// The disks and the ends that the two processes had.
fn parts_of<W: Drop, D: Disk, L, H>(
    low: LowParts<W, D, L>,
    high: HighParts<D, H>,
) -> SessionParts<D, L, H>
    ensures { result ≡ record {
      low = low_disk low.store;
      high = high_disk high.store;
      low_end = low.ends;
      high_end = high.ends;
    } }
{
    SessionParts {
        low: low.store.into_disk(),
        high: high.store.into_disk(),
        low_end: low.ends,
        high_end: high.ends,
    }
}

// Serves a session over the two ends of a passage in which nothing was done yet. Both workers run side by side, each at
// the door of its own port and by the clock of its own side, and each shuts its door when it ends.
fn serve_over<
    T: Threads + Wait + Sync,
    P: Ports + Send,
    K: Clock + Send,
    D: Disk + Send,
    L: WaitLowEnd + Send + Drop,
    H: WaitHighEnd + Send + Drop,
    O: Sink + Send,
    V: Watch + Sync,
>(
    rt: &T,
    serving: &Serving<'_, V>,
    mut parts: SessionParts<D, L, H>,
    low_side: &mut RelaySide<P, K>,
    high_side: &mut RelaySide<P, K>,
    tape: &mut O,
) -> (SessionEnd, SessionParts<D, L, H>)
where
    P::Link: Send,
    P::Door: Send,
    requires lawful { IsLawfulRow serving.now.row.now }
    requires shape { (L.shape parts.low_end).places ≡ serving.now.row.now.capacity - 2 }
    requires averages { IsEndOf L.stands L.shape parts.low_end serving.now.row.now }
    requires low_end { L.stands parts.low_end new_low new_high }
    requires high_end { (l : Low) → H.stands parts.high_end l new_high }
    ensures ended { IfEnded result.0 (λ how_low how_high. EndsAsDone (end_tells L.stands L.shape L.place)
        (end_tells H.stands H.shape H.place) serving.now.row.now parts.low_end parts.high_end result.1.low_end
        result.1.high_end (λ l h. (b : BothServed (doors P.Door.port P.Door.did P.Door.gives (links P.Link.gives
        P.Link.sent P.Link.faults)) D.told serving.now.row.now serving.now.rounds serving.now.key
        (side P.did P.faults K.reads low_side.old low_side.new) (side P.did P.faults K.reads high_side.old
        high_side.new) (O.written tape.old) (O.written tape.new) (O.faults tape.old) (O.faults tape.new)
        parts.low parts.high result.1.low result.1.high how_low how_high) × (b.l ≡ l) × (b.h ≡ h))) }
    ensures comes { SessionComes P.did P.faults D.told serving.now.row.now low_side.old high_side.old low_side.new
        high_side.new tape.old tape.new parts.low parts.high result.1.low result.1.high result.0 }
{
    let row = serving.row;
    let opened = match open_pump_waiting(rt, parts.low, parts.high, row, &mut parts.low_end) {
        Ok(opened) => opened,
        Err(refused) => return refused_by(refused, parts.low_end, parts.high_end),
    };
    let low = start_low(
        row,
        opened.low,
        opened.next,
        opened.low_hand,
        parts.low_end,
        serving.key,
    );
    let high = start_high(
        row,
        opened.high,
        opened.removed,
        opened.high_hand,
        parts.high_end,
    );
    let (low_door, high_door) = match open_doors(&mut low_side.ports, &mut high_side.ports, row) {
        Ok(doors) => doors,
        Err(_fault) => return (SessionEnd::NoDoor, parts_of(low, high)),
    };
    let mut low_half = LowHalf {
        door: Some(low_door),
        parts: low,
        end: RoundsEnd::Rounds,
    };
    let mut high_half = HighHalf {
        door: Some(high_door),
        parts: high,
        end: RoundsEnd::Rounds,
    };
    let served = serve_halves(
        rt,
        &mut low_half,
        low_side,
        tape,
        &mut high_half,
        high_side,
        serving.watch,
        serving.rounds,
    );
    let (low, low_end) = low_half.close(&mut low_side.ports);
    let (high, high_end) = high_half.close(&mut high_side.ports);
    (workers_end(served, low_end, high_end), parts_of(low, high))
}

/// Serves a session: opens its two disks, listens on both ports of the row, first at the low side and then at
/// the high one, and lets the two workers make at most `rounds` rounds each, side by side in two threads, each
/// at the door and by the clock of its own side. The low worker writes the record, its opening line first, and
/// draws its words from the stream of the key. Neither disk is formatted. The workers have the two ends of one
/// passage, which are joined again when both have ended.
///
/// Both disks come back, and both doors are shut, however it ends. `Memory`, `Refused`, `NoDoor`
/// and `NoThread` come before anything is written and before a clock is read, and leave what the
/// disks hold: `Refused` for the first cause in the order of refusals, or where a call of that disk
/// failed, and `NoDoor` only where the count of the low side's ports rose, or else that of the high
/// side's. Otherwise both workers ended; `docs/design.md`, "Serving", has the rules of each.
pub fn serve_session<
    T: Threads + Wait + Sync,
    P: Ports + Send,
    K: Clock + Send,
    D: Disk + Send,
    O: Sink + Send,
    V: Watch + Sync,
>(
    rt: &T,
    alloc: Global,
    row: &SessionRow,
    low: D,
    high: D,
    low_side: &mut RelaySide<P, K>,
    high_side: &mut RelaySide<P, K>,
    key: [u8; 32],
    tape: &mut O,
    watch: &V,
    rounds: u32,
) -> Served<D>
where
    P::Link: Send,
    P::Door: Send,
    requires lawful { IsLawfulRow row.now }
    // The two workers, at the two ends of one passage.
    ensures both { IfEnded result.end (λ how_low how_high. BothServed (doors P.Door.port P.Door.did P.Door.gives
        (links P.Link.gives P.Link.sent P.Link.faults)) D.told row.now rounds key
        (side P.did P.faults K.reads low_side.old low_side.new) (side P.did P.faults K.reads high_side.old
        high_side.new) (O.written tape.old) (O.written tape.new) (O.faults tape.old) (O.faults tape.new)
        low high result.low result.high how_low how_high) }
    // Each end by its causes, and what it leaves.
    ensures comes { SessionComes P.did P.faults D.told row.now low_side.old high_side.old low_side.new high_side.new
        tape.old tape.new low high result.low result.high result.end }
{
    let Ok(mut passage) = RingPassage::new(alloc, row) else {
        return Served {
            end: SessionEnd::Memory,
            low,
            high,
        };
    };
    let (low_ring, high_ring) = passage.ends();
    let parts = SessionParts {
        low,
        high,
        low_end: WatchedLow {
            ends: Calm(low_ring),
            watch,
        },
        high_end: Calm(high_ring),
    };
    let serving = Serving {
        row,
        key,
        watch,
        rounds,
    };
    let (end, parts) = serve_over(rt, &serving, parts, low_side, high_side, tape);
    match end {
        SessionEnd::Ended { .. } => {
            // What both did at their ends keeps the law of one passage.
            RingPassage::rejoin(parts.low_end.ends.0, parts.high_end.0);
            Served {
                end,
                low: parts.low,
                high: parts.high,
            }
        }
        _ => Served {
            end,
            low: parts.low,
            high: parts.high,
        },
    }
}

// The low half of a session: the low process with what it needs, and its door.
ghost use Rattle.std.specs.Prelude.{◌≡◌, ◌≤◌, true, false, is_some};
ghost use Rattle.low_process.specs.Ready.{Ready};
ghost use Rattle.low_process.specs.Looks.{last_of, is_down};
ghost use Rattle.relay_side.specs.Sides.{side};
ghost use Rattle.serving.specs.Doors.{doors, links};
ghost use Rattle.serving.specs.LowRuns.{LowDone};
ghost use Rattle.serving.specs.PassageEnds.{end_tells};

use crate::works::ServesLow;
use disk_model::Disk;
use low_process::LowProcess;
use passage::WaitLowEnd;
use pump_link::{Clock, Ports, Sink, Words};
use relay_side::RelaySide;
use relay_threads::{RoundsEnd, Watch, low_rounds, write_opening};
use stable_buffer::LowStore;
use std::sync::Wait;

/// The low process of a session with its store, its end of the passage and its words, and whether a
/// message was found in its hand.
#[derive(Drop)]
pub struct LowParts<W, D, L> {
    pub process: LowProcess,
    pub store: LowStore<D>,
    pub ends: L,
    pub words: W,
    pub is_held: bool,
}

/// What is the low worker's own: the parts, and the door of the low port.
pub struct LowHalf<P: Ports, W, D, L> {
    /// None once the worker has ended: it shuts the door.
    pub door: Option<P::Door>,
    pub parts: LowParts<W, D, L>,
    /// How the worker ended.
    pub end: RoundsEnd,
}

impl<P: Ports, K: Clock, W: Words, D: Disk, L: WaitLowEnd, O: Sink> ServesLow<RelaySide<P, K>, O>
    for LowHalf<P, W, D, L> {
    ghost can_serve = { λ v k o. (is_some v.door ≡ true)
        × Ready D.told v.parts.process v.parts.store (L.stands v.parts.ends) × (is_down v.parts.process ≡ false)
        × (last_of v.parts.process ≤ K.floor k.clock) };

    ghost served = { λ n v w k j o t.
        LowDone (doors P.Door.port P.Door.did P.Door.gives (links P.Link.gives P.Link.sent P.Link.faults)) D.told
        W.gives (end_tells L.stands L.shape L.place) (side P.did P.faults K.reads k j)
        (O.written o) (O.written t) (O.faults o) (O.faults t) n v.door w.door v.parts w.parts w.end };

    fn serve<T: Wait, V: Watch>(
        &mut self,
        rt: &T,
        side: &mut RelaySide<P, K>,
        tape: &mut O,
        watch: &V,
        rounds: u32,
    ) {
        let Some(mut door) = self.door.take() else {
            return;
        };
        watch.low_began();
        let next = self.parts.process.next();
        let opened = write_opening(tape, self.parts.process.row(), next, self.parts.is_held);
        // No round is made where the line that opens the record is not written whole.
        self.end = if opened.is_err() {
            RoundsEnd::RecordFailed
        } else {
            low_rounds(
                rt,
                &mut door,
                &mut side.clock,
                &mut self.parts.words,
                &mut self.parts.process,
                &mut self.parts.store,
                &mut self.parts.ends,
                tape,
                watch,
                rounds,
            )
        };
        side.ports.shut(door);
        watch.low_ended(self.end);
    }
}

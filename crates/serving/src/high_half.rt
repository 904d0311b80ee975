// The high half of a session: the high process with what it needs, and its door.
ghost use Rattle.std.specs.Prelude.{◌≡◌, ◌≤◌, true, is_some};
ghost use Rattle.high_process.specs.Ready.{Ready};
ghost use Rattle.high_process.specs.States.{last_of};
ghost use Rattle.relay_side.specs.Sides.{side};
ghost use Rattle.serving.specs.Doors.{doors, links};
ghost use Rattle.serving.specs.HighRuns.{HighDone};
ghost use Rattle.serving.specs.PassageEnds.{end_tells};

use crate::works::ServesHigh;
use disk_model::Disk;
use high_process::HighProcess;
use passage::WaitHighEnd;
use pump_link::{Clock, Ports};
use relay_side::RelaySide;
use relay_threads::{RoundsEnd, Watch, high_rounds};
use stable_buffer::HighStore;
use std::sync::Wait;

/// The high process of a session with its store and its end of the passage.
#[derive(Drop)]
pub struct HighParts<D, H> {
    pub process: HighProcess,
    pub store: HighStore<D>,
    pub ends: H,
}

/// What is the high worker's own: the parts, and the door of the high port.
pub struct HighHalf<P: Ports, D, H> {
    /// None once the worker has ended: it shuts the door.
    pub door: Option<P::Door>,
    pub parts: HighParts<D, H>,
    /// How the worker ended.
    pub end: RoundsEnd,
}

impl<P: Ports, K: Clock, D: Disk, H: WaitHighEnd> ServesHigh<RelaySide<P, K>>
    for HighHalf<P, D, H> {
    ghost can_serve = { λ v k. (is_some v.door ≡ true)
        × Ready D.told v.parts.process v.parts.store (H.stands v.parts.ends)
        × (last_of v.parts.process ≤ K.floor k.clock) };

    ghost served = { λ n v w k j. HighDone (doors P.Door.port P.Door.did P.Door.gives (links P.Link.gives P.Link.sent
        P.Link.faults)) D.told (end_tells H.stands H.shape H.place) (side P.did P.faults K.reads k j) n v.door w.door
        v.parts w.parts w.end };

    fn serve<T: Wait, V: Watch>(
        &mut self,
        rt: &T,
        side: &mut RelaySide<P, K>,
        watch: &V,
        rounds: u32,
    ) {
        let Some(mut door) = self.door.take() else {
            return;
        };
        watch.high_began();
        self.end = high_rounds(
            rt,
            &mut door,
            &mut side.clock,
            &mut self.parts.process,
            &mut self.parts.store,
            &mut self.parts.ends,
            watch,
            rounds,
        );
        side.ports.shut(door);
        watch.high_ended(self.end);
    }
}

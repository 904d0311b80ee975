//! Both processes of a pump are opened again from their disks.

ghost use Rattle.std.specs.Prelude.{◌≡◌, ◌^◌, ◌≤◌};
ghost use Rattle.script_reader.specs.declared.line.Line.TheVariants as lines;
ghost use Rattle.script_reader.specs.Past.{Past};
ghost use Rattle.two_worlds.specs.Printing.{lines_in};
ghost use Rattle.two_worlds.specs.Rooms.{DisksGo};
ghost use Rattle.two_worlds.specs.Standing.{Stands, bare_of};
ghost use Rattle.two_worlds.specs.States.{disks_in, IsOpenWith, StandsIn};
ghost use Rattle.two_worlds.specs.Working.{IsAble};
ghost use Rattle.two_worlds.specs.Private.Restarting.{stop_for, is_due_in, RestartsFrom, RestartsOn, DisksRestart};
ghost use Rattle.two_worlds.specs.Private.StateSteps.{StateApplies, StateAppliesOn};

use crate::applied::Stop;
use crate::printing::put;
use crate::pump::parts::Parts;
use crate::pump::state::{BareDisks, PumpState};
use arrayvec::ArrayVec;
use core::mem::replace_with;
use disk_model::{Disk, Role};
use high_process::HighProcess;
use low_process::LowProcess;
use recovery::{Why, open_pump};
use script_reader::EventHead;

/// The reason to stop where this disk is refused.
pub fn stop_for(role: Role, why: Why) -> Stop
    ensures { result ≡ stop_for role why }
{
    match why {
        Why::Device { faults } => Stop::Device { role, faults },
        why => Stop::Disk { role, why },
    }
}

impl<D: Disk> Parts<D> {
    /// Drops both processes and opens them again at this moment, on a new connection. The packets and
    /// the receiver stay. It is told what was found; or, where a disk is refused, all three are bare.
    pub fn restarted(self, moment: u64) -> (PumpState<D>, Result<EventHead, Stop>)
        requires able { IsAble D.told self }
        requires order { self.moment ≤ moment }
        requires moment { moment ≤ 2 ^ 62 }
        ensures does { D.told.tells → (p : Past) → Stands D.told self p
            → RestartsFrom D.told (bare_of self) result.0 moment p result.1 }
        ensures on { RestartsOn D.told result.0 result.1 }
        ensures serve { DisksRestart D.told (bare_of self) (disks_in result.0) result.1 }
    {
        let row = self.row;
        let mut connection = self.connection;
        connection.lose();
        let mut ends = self.ends;
        ends.clear();
        match open_pump(
            self.low_store.into_disk(),
            self.high_store.into_disk(),
            &row,
            &mut ends,
        ) {
            Ok(pump) => {
                let event = EventHead::Restart {
                    session: row.id,
                    moment,
                    accepted: pump.next,
                    removed: pump.removed,
                    held: pump.low_hand.is_some(),
                };
                let parts = Parts {
                    row,
                    connection,
                    low: LowProcess::open(&row, pump.next, pump.low_hand),
                    low_store: pump.low,
                    ends,
                    high: HighProcess::open(&row, pump.removed, pump.high_hand),
                    high_store: pump.high,
                    receiver: self.receiver,
                    sent: self.sent,
                    returned: self.returned,
                    taken: self.taken,
                    moment,
                };
                (PumpState::Open(parts), Ok(event))
            }
            Err(refused) => {
                let disks = BareDisks {
                    row,
                    low: refused.low,
                    high: refused.high,
                    recv: self.receiver.into_disk(),
                };
                let stop = stop_for(refused.role, refused.why);
                (PumpState::Shut(disks), Err(stop))
            }
        }
    }
}

impl<D: Disk> PumpState<D> {
    // A pump at work is opened again.
    fn restarted(self, moment: u64) -> (PumpState<D>, Result<EventHead, Stop>)
        requires able { IsOpenWith (IsAble D.told) self }
        requires order { IsOpenWith (λ c. c.moment ≤ moment) self }
        requires moment { moment ≤ 2 ^ 62 }
        ensures does { D.told.tells → (p : Past) → StandsIn D.told self p
            → RestartsFrom D.told (disks_in self) result.0 moment p result.1 }
        ensures on { RestartsOn D.told result.0 result.1 }
        ensures serve { DisksRestart D.told (disks_in self) (disks_in result.0) result.1 }
    {
        match self {
            PumpState::Open(parts) => parts.restarted(moment),
            PumpState::Shut(_) => unreachable!(),
        }
    }

    /// Whether the disks of this session can be opened again at this moment.
    pub fn is_due(&self, session: u32, moment: u64) -> bool
        requires open { IsOpenWith (IsAble D.told) self.now }
        ensures { result ≡ is_due_in self.now session moment }
    {
        match self {
            PumpState::Open(parts) => session == parts.row.id && parts.moment <= moment,
            PumpState::Shut(_) => unreachable!(),
        }
    }

    /// A `restart` line: both processes are opened again. Apart, since its parts take much of the stack.
    #[inline(never)]
    pub fn restart(
        &mut self,
        session: u32,
        moment: u64,
        out: &mut ArrayVec<EventHead, 4>,
    ) -> Option<Stop>
        requires able { IsOpenWith (IsAble D.told) self.old }
        requires moment { moment ≤ 2 ^ 62 }
        ensures applies { D.told.tells → (p : Past) → StandsIn D.told self.old p
            → StateApplies D.told self.old self.new (lines.Restart session moment) p (lines_in out.new.items) result }
        ensures on { StateAppliesOn D.told self.old self.new (lines.Restart session moment) (lines_in out.new.items)
            result }
        ensures serve { DisksGo D.told (disks_in self.old).row (disks_in self.old).low (disks_in self.old).high
            (disks_in self.old).recv
            (disks_in self.new).low (disks_in self.new).high (disks_in self.new).recv result }
        ensures row { (disks_in self.new).row ≡ (disks_in self.old).row }
    {
        out.clear();
        if !self.is_due(session, moment) {
            return Some(Stop::Line);
        }
        match replace_with(self, moment, PumpState::restarted) {
            Ok(event) => {
                put(event, out);
                None
            }
            Err(stop) => Some(stop),
        }
    }
}

//! The receiver of a pump is opened again from its disk, and attaches.

ghost use Rattle.std.specs.Prelude.{◌≡◌, ◌^◌, ◌≤◌, length};
ghost use Rattle.script_reader.specs.declared.line.Line.TheVariants as lines;
ghost use Rattle.script_reader.specs.Past.{Past};
ghost use Rattle.two_worlds.specs.Printing.{lines_in};
ghost use Rattle.two_worlds.specs.States.{disks_in, IsOpenWith, StandsIn};
ghost use Rattle.two_worlds.specs.Working.{IsAble};
ghost use Rattle.two_worlds.specs.Private.Reopening.{Reopens, Reattaches};
ghost use Rattle.two_worlds.specs.Private.StateSteps.{StateApplies, StateAppliesOn};
ghost use Rattle.two_worlds.specs.Rooms.{DisksGo};

use crate::applied::Stop;
use crate::pump::parts::Parts;
use crate::pump::restart::stop_for;
use crate::pump::state::{BareDisks, PumpState};
use arrayvec::ArrayVec;
use core::mem::replace_with;
use disk_model::{Disk, Role};
use recovery::open_receiver;
use script_reader::EventHead;
use stable_buffer::RECEIVER_SIZE;

impl<D: Disk> Parts<D> {
    /// Opens the receiver again from its disk; the processes and the packets stay. Where the disk is
    /// refused, all three are bare.
    fn reopened(self) -> (PumpState<D>, Result<(), Stop>)
        requires able { IsAble D.told self }
        ensures { Reopens D.told self result.0 result.1 }
    {
        let row = self.row;
        match open_receiver(self.receiver.into_disk(), &row, RECEIVER_SIZE) {
            Ok(receiver) => {
                let parts = Parts {
                    row,
                    connection: self.connection,
                    low: self.low,
                    low_store: self.low_store,
                    ends: self.ends,
                    high: self.high,
                    high_store: self.high_store,
                    receiver,
                    sent: self.sent,
                    returned: self.returned,
                    taken: self.taken,
                    moment: self.moment,
                };
                (PumpState::Open(parts), Ok(()))
            }
            Err((recv, why)) => {
                let disks = BareDisks {
                    row,
                    low: self.low_store.into_disk(),
                    high: self.high_store.into_disk(),
                    recv,
                };
                (PumpState::Shut(disks), Err(stop_for(Role::Recv, why)))
            }
        }
    }
}

impl<D: Disk> PumpState<D> {
    // The receiver of a pump at work is opened again.
    fn reopened(self, _by: ()) -> (PumpState<D>, Result<(), Stop>)
        requires able { IsOpenWith (IsAble D.told) self }
        ensures { IsOpenWith (λ c. Reopens D.told c result.0 result.1) self }
    {
        match self {
            PumpState::Open(parts) => parts.reopened(),
            PumpState::Shut(_) => unreachable!(),
        }
    }

    // The receiver of a pump at work attaches to the high process.
    fn attach(&mut self, moment: u64, out: &mut ArrayVec<EventHead, 4>) -> Result<(), Stop>
        requires able { IsOpenWith (IsAble D.told) self.old }
        requires order { IsOpenWith (λ c. c.moment ≤ moment) self.old }
        requires moment { moment ≤ 2 ^ 62 }
        requires out { length out.old.items ≤ 0 }
        ensures { IsOpenWith (λ c. IsOpenWith (λ d. Reattaches D.told c d moment (lines_in out.new.items) result)
            self.new) self.old }
    {
        match self {
            PumpState::Open(parts) => parts.attach(moment, out),
            PumpState::Shut(_) => unreachable!(),
        }
    }

    /// A `receiver-restart` line: the receiver is opened again from its disk, and attaches to the high
    /// process. `Stop::Device` says that the receiver's disk failed in the opening, and the pump is then
    /// shut, or the high disk in the removal of a message that the receiver has. `Stop::Disk` never
    /// comes where the disks tell what they hold. Apart, since its parts take much of the stack.
    #[inline(never)]
    pub fn restart_receiver(
        &mut self,
        session: u32,
        moment: u64,
        out: &mut ArrayVec<EventHead, 4>,
    ) -> Option<Stop>
        requires able { IsOpenWith (IsAble D.told) self.old }
        requires moment { moment ≤ 2 ^ 62 }
        ensures applies { D.told.tells → (p : Past) → StandsIn D.told self.old p
            → StateApplies D.told self.old self.new (lines.ReceiverRestart session moment) p (lines_in out.new.items)
            result }
        ensures on { StateAppliesOn D.told self.old self.new (lines.ReceiverRestart session moment)
            (lines_in out.new.items) result }
        ensures serve { DisksGo D.told (disks_in self.old).row (disks_in self.old).low (disks_in self.old).high
            (disks_in self.old).recv
            (disks_in self.new).low (disks_in self.new).high (disks_in self.new).recv result }
        ensures row { (disks_in self.new).row ≡ (disks_in self.old).row }
    {
        out.clear();
        if !self.is_due(session, moment) {
            return Some(Stop::Line);
        }
        if let Err(stop) = replace_with(self, (), PumpState::reopened) {
            return Some(stop);
        }
        self.attach(moment, out).err()
    }
}

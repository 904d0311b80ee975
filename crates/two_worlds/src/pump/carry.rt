//! A packet of a pump that comes to its receiver.

ghost use Rattle.std.specs.Prelude.{◌≡◌, ◌+◌, ◌<◌, ◌≤◌, [], length, OnOk};
ghost use Rattle.disk_model.specs.declared.name.Role.TheVariants as roles;
ghost use Rattle.script_reader.specs.Past.{Past};
ghost use Rattle.script_reader.specs.declared.line.Line.TheVariants as lines;
ghost use Rattle.script_reader.specs.Highs.{IsCarried, IsOverfull};
ghost use Rattle.script_reader.specs.Breaks.{IsUntaken};
ghost use Rattle.two_worlds.specs.Printing.{lines_in};
ghost use Rattle.two_worlds.specs.Working.{IsAble};
ghost use Rattle.two_worlds.specs.Standing.{Stands};
ghost use Rattle.two_worlds.specs.Doing.{LeavesAlone};
ghost use Rattle.two_worlds.specs.Private.PartSteps.{PartStep};
ghost use Rattle.two_worlds.specs.Private.LineSteps.{RefusesAhead};

use crate::applied::Stop;
use crate::printing::put_taken;
use crate::pump::parts::Parts;
use arrayvec::ArrayVec;
use disk_model::{Disk, Role};
use high_receiver::TakeFault;
use script_reader::EventHead;

impl<D: Disk> Parts<D> {
    /// The DATA that was sent so many packets before the last one comes to the receiver. What the
    /// receiver has taken, then or before, is returned. A message that does not fit on the receiver's
    /// disk is `Stop::Full`, and then nothing was done; `Stop::Device` leaves the receiver closed.
    pub fn carry(&mut self, back: u64, out: &mut ArrayVec<EventHead, 4>) -> Result<(), Stop>
        requires able { IsAble D.told self.old }
        requires back { back < length self.old.sent.items }
        requires out { length out.old.items ≤ 3 }
        ensures step { PartStep (λ p q printed. IsCarried self.old.row p back q printed)
            (λ role p q printed. (role ≡ roles.Recv) × IsUntaken p back q × (printed ≡ []))
            (λ p q printed end size_of_message size. (q ≡ p) × IsOverfull p.world back end size_of_message size
            × (printed ≡ []))
            D.told self.old self.new (lines_in out.old.items) (lines_in out.new.items) result }
        ensures ahead { RefusesAhead self.old self.new (lines.Carry self.old.row.id back) (lines_in out.old.items)
            (lines_in out.new.items) }
        ensures low { LeavesAlone roles.Low self.old self.new }
        ensures high { LeavesAlone roles.High self.old self.new }
        ensures out { length out.new.items ≤ length out.old.items + 1 }
        ensures returned { OnOk result ((p : Past) → Stands D.told self.old p → 0 < length self.new.returned.items) }
        ensures moment { self.new.moment ≡ self.old.moment }
    {
        let Some(item) = self.sent.nth_back(back as usize) else {
            unreachable!()
        };
        let number = item.number;
        match self.receiver.take(number, &item.payload) {
            Ok(taken) => {
                self.returned.push_back(number);
                put_taken(self.row.id, number, taken, out);
                Ok(())
            }
            Err(TakeFault::Device { faults }) => Err(Stop::Device {
                role: Role::Recv,
                faults,
            }),
            Err(TakeFault::LogFull { end, length, size }) => Err(Stop::Full { end, length, size }),
            // Only over disks that do not agree is a DATA ahead of the receiver.
            Err(TakeFault::Ahead { .. }) => Ok(()),
        }
    }
}

//! A high look of a pump.

ghost use Rattle.std.specs.Prelude.{◌≡◌, ℕ, Bool, ◌+◌, ◌^◌, ◌<◌, ◌≤◌, ◌++◌, true, is_some, [], Option, None, Some};
ghost use Rattle.std.specs.Prelude.{length, slice_get};
ghost use Rattle.disk_model.specs.declared.name.Role.TheVariants as roles;
ghost use Rattle.high_process.specs.States as high;
ghost use Rattle.high_process.specs.Tasks.{frame_of};
ghost use Rattle.high_process.specs.declared.values.HighFault.{HighFault};
ghost use Rattle.high_process.specs.declared.values.Task.TheVariants.{Refuse};
ghost use Rattle.script_reader.specs.Past.{Past};
ghost use Rattle.script_reader.specs.declared.line.Line.TheVariants as lines;
ghost use Rattle.script_reader.specs.Highs.{IsHighLook, IsReturn, place};
ghost use Rattle.script_reader.specs.Breaks.{IsUnremoved};
ghost use Rattle.two_worlds.specs.Standing.{Stands, bare_of};
ghost use Rattle.two_worlds.specs.Working.{IsAble};
ghost use Rattle.two_worlds.specs.Doing.{DoesFrom, NeverBreaks, NeverOverfills, LeavesAlone};
ghost use Rattle.two_worlds.specs.Private.PartSteps.{PartStep};
ghost use Rattle.two_worlds.specs.Private.GoingOn.{WorksOn};
ghost use Rattle.two_worlds.specs.Private.LineSteps.{RefusesAhead};
ghost use Rattle.two_worlds.specs.Private.Serving.{DisksServe};
ghost use Rattle.two_worlds.specs.Timely.{goes_on_by};
ghost use Rattle.two_worlds.specs.Printing.{lines_in};
ghost use Rattle.two_worlds.specs.Private.HighLooks.{ComesBack, LeadsWith, BreaksWith, Attaches, BreaksAttaching};
ghost use Rattle.two_worlds.specs.Private.HighLooks.{frame_when, most_lines, printed_look, packets_after};

use crate::applied::Stop;
use crate::printing::put;
use crate::pump::parts::Parts;
use arrayvec::ArrayVec;
use disk_model::{Disk, Role};
use high_process::{HighFault, HighLook};
use pump_frame::{Frame, Kind};
use script_reader::EventHead;
use std::slice;

/// The frame, where it comes back.
fn frame_back(comes_back: bool, frame: &Box<Frame>) -> Option<&Frame>
    ensures { frame_of result ≡ frame_when comes_back frame.now.value }
{
    if comes_back { Some(frame) } else { None }
}

impl<D: Disk> Parts<D> {
    /// The removal and the sending of a look are printed, and the message that was sent joins the
    /// packets.
    fn tell_high(&mut self, moment: u64, look: &HighLook, out: &mut ArrayVec<EventHead, 4>)
        requires out { length out.old.items + length (printed_look self.old.row.id moment look.now) ≤ 4 }
        ensures out { lines_in out.new.items ≡ lines_in out.old.items ++ printed_look self.old.row.id moment look.now }
        ensures rest { self.new ≡ record self.old {
          sent = packets_after look.now.sent (high.hand_of self.old.high) self.old.sent;
        } }
    {
        if let Some(number) = look.removed {
            put(
                EventHead::Removed {
                    session: self.row.id,
                    moment,
                    number,
                    time: look.published,
                },
                out,
            );
        }
        if let Some(number) = look.sent {
            if let Some(item) = self.high.hand() {
                // By reference, since a message has more than 1 KB and the first packet is let go.
                self.sent.extend_from_slice(slice::from_ref(item));
            }
            put(
                EventHead::Sent {
                    session: self.row.id,
                    moment,
                    number,
                },
                out,
            );
        }
    }

    /// The frame at hand gets this kind and this number.
    fn number_frame(&mut self, kind: Kind, number: u64)
        ensures { self.new ≡ record self.old {
          taken = record self.old.taken {
            value = record self.old.taken.value { kind = kind; number = number };
          };
        } }
    {
        let frame = &mut *self.taken;
        frame.kind = kind;
        frame.number = number;
    }

    /// A high look at this moment, to which the TAKEN or the ATTACH at hand comes back or nothing.
    fn look_with(
        &mut self,
        moment: u64,
        comes_back: bool,
        out: &mut ArrayVec<EventHead, 4>,
    ) -> Result<(), Stop>
        requires able { IsAble D.told self.old }
        requires order { self.old.moment ≤ moment }
        requires moment { moment ≤ 2 ^ 62 }
        requires back { (p : Past) → Stands D.told self.old p
            → (attaches : Bool) × (back : Option ℕ)
            × ComesBack self.old.row.id p.world attaches (frame_when comes_back self.old.taken.value) back }
        requires out { length out.old.items + most_lines (frame_when comes_back self.old.taken.value) ≤ 4 }
        ensures does { (p : Past) → Stands D.told self.old p
            → (attaches : Bool) (back : Option ℕ)
            → ComesBack self.old.row.id p.world attaches (frame_when comes_back self.old.taken.value) back
            → DoesFrom (LeadsWith self.old.row moment attaches back) (BreaksWith moment back) NeverOverfills
            D.told self.old self.new (lines_in out.old.items) (lines_in out.new.items) p result }
        ensures works { WorksOn D.told self.new result }
        ensures ahead { (fault : HighFault) → high.task_at self.old.high (frame_when comes_back self.old.taken.value)
            ≡ Refuse fault
            → (lines_in out.new.items ≡ lines_in out.old.items) × (bare_of self.new ≡ bare_of self.old) }
        ensures goes { is_some (high.hand_of self.new.high) ≡ true → goes_on_by self.old ≡ true }
        ensures serve { DisksServe D.told self.old self.new result }
        ensures low { LeavesAlone roles.Low self.old self.new }
        ensures high { frame_when comes_back self.old.taken.value ≡ None → LeavesAlone roles.High self.old self.new }
        ensures recv { LeavesAlone roles.Recv self.old self.new }
        ensures out { length out.new.items ≤ length out.old.items
            + most_lines (frame_when comes_back self.old.taken.value) }
        ensures row { self.new.row ≡ self.old.row }
        ensures moment { self.new.moment ≡ moment }
    {
        self.moment = moment;
        let frame = frame_back(comes_back, &self.taken);
        match self
            .high
            .look(moment, frame, &mut self.high_store, &mut self.ends)
        {
            Ok(look) => {
                self.tell_high(moment, &look, out);
                Ok(())
            }
            Err(HighFault::Device { faults }) => Err(Stop::Device {
                role: Role::High,
                faults,
            }),
            // A TAKEN of a message that was not sent is refused, and so is an ATTACH that counts one.
            Err(HighFault::Ahead { .. }) => Ok(()),
            // Only over disks that do not agree has a receiver fewer messages than were removed.
            Err(HighFault::Behind { .. }) => Ok(()),
        }
    }

    /// A high look to which nothing comes back, at this moment in microseconds, which is not below the
    /// last one and at most 2^62. No disk is called.
    pub fn look_high(&mut self, moment: u64, out: &mut ArrayVec<EventHead, 4>) -> Result<(), Stop>
        requires able { IsAble D.told self.old }
        requires order { self.old.moment ≤ moment }
        requires moment { moment ≤ 2 ^ 62 }
        requires out { length out.old.items ≤ 3 }
        ensures step { PartStep (λ p q printed. IsHighLook self.old.row p moment None q printed)
            NeverBreaks NeverOverfills D.told self.old self.new (lines_in out.old.items) (lines_in out.new.items)
            result }
        ensures goes { is_some (high.hand_of self.new.high) ≡ true → goes_on_by self.old ≡ true }
        ensures low { LeavesAlone roles.Low self.old self.new }
        ensures high { LeavesAlone roles.High self.old self.new }
        ensures recv { LeavesAlone roles.Recv self.old self.new }
        ensures out { length out.new.items ≤ length out.old.items + 1 }
        ensures moment { self.new.moment ≡ moment }
    {
        self.look_with(moment, false, out)
    }

    /// The number of the TAKEN that was sent so many packets before the last one.
    fn number_back(&self, back: u64) -> u64
        requires { back < length self.now.returned.items }
        ensures { slice_get self.now.returned.items (place self.now.returned.items back) ≡ Some result }
    {
        *self.returned.nth_back(back as usize).unwrap()
    }

    /// A high look at this moment, to which the TAKEN comes back that was sent so many packets before
    /// the last one. Where its message was not sent it is refused, and the look does nothing.
    /// `Stop::Device` says that the high disk failed in the removal; the high process is then down.
    pub fn take_back(
        &mut self,
        moment: u64,
        back: u64,
        out: &mut ArrayVec<EventHead, 4>,
    ) -> Result<(), Stop>
        requires able { IsAble D.told self.old }
        requires order { self.old.moment ≤ moment }
        requires moment { moment ≤ 2 ^ 62 }
        requires back { back < length self.old.returned.items }
        requires out { length out.old.items ≤ 2 }
        ensures step { PartStep (λ p q printed. IsReturn self.old.row p moment (place p.world.returned back) q printed)
            (λ role p q printed. (role ≡ roles.High)
            × IsUnremoved p moment (Some (place p.world.returned back)) q × (printed ≡ []))
            NeverOverfills D.told self.old self.new (lines_in out.old.items) (lines_in out.new.items) result }
        ensures ahead { RefusesAhead self.old self.new (lines.Return self.old.row.id moment back)
            (lines_in out.old.items) (lines_in out.new.items) }
        ensures low { LeavesAlone roles.Low self.old self.new }
        ensures recv { LeavesAlone roles.Recv self.old self.new }
    {
        let number = self.number_back(back);
        self.number_frame(Kind::Taken, number);
        self.look_with(moment, true, out)
    }

    /// A high look at this moment, to which the receiver's ATTACH comes: it brings back the TAKEN of
    /// the last message that the receiver has, and what is then in the hand is sent. Where that
    /// message was not sent it is refused, and the look does nothing. `Stop::Device` says that the
    /// high disk failed in the removal; the high process is then down.
    pub fn attach(&mut self, moment: u64, out: &mut ArrayVec<EventHead, 4>) -> Result<(), Stop>
        requires able { IsAble D.told self.old }
        requires order { self.old.moment ≤ moment }
        requires moment { moment ≤ 2 ^ 62 }
        requires out { length out.old.items ≤ 1 }
        ensures step { PartStep (Attaches self.old.row moment) (BreaksAttaching self.old.row moment)
            NeverOverfills D.told self.old self.new (lines_in out.old.items) (lines_in out.new.items) result }
        ensures low { LeavesAlone roles.Low self.old self.new }
        ensures recv { LeavesAlone roles.Recv self.old self.new }
    {
        let count = self.receiver.count();
        put(
            EventHead::Attach {
                session: self.row.id,
                moment,
                count,
            },
            out,
        );
        self.number_frame(Kind::Attach, count);
        self.look_with(moment, true, out)
    }
}

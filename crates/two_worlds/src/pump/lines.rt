//! The lines of a script.

ghost use Rattle.std.specs.Prelude.{◌≡◌, ℕ, ◌+◌, ◌^◌, ◌<◌, ◌≤◌, true, false, ◌&&◌, ◌||◌, not, ◌==◌, nat_lt, nat_le};
ghost use Rattle.std.specs.Prelude.{[], length, Some};
ghost use Rattle.disk_model.specs.declared.name.Role.TheVariants as roles;
ghost use Rattle.script_reader.specs.Lawful.{IsLawfulLine};
ghost use Rattle.script_reader.specs.declared.line.Line.TheVariants as lines;
ghost use Rattle.script_reader.specs.Heads.{act_with, line_with, CanHoldAct, CanHoldLine};
ghost use Rattle.script_reader.specs.Steps.{IsCarriedBack};
ghost use Rattle.script_reader.specs.Breaks.{BreaksOff};
ghost use Rattle.two_worlds.specs.Printing.{lines_in};
ghost use Rattle.two_worlds.specs.Working.{IsAble};
ghost use Rattle.two_worlds.specs.Doing.{LeavesAlone};
ghost use Rattle.two_worlds.specs.Private.PartSteps.{PartStep};
ghost use Rattle.two_worlds.specs.Private.GoingOn.{WorksOn};
ghost use Rattle.two_worlds.specs.Private.Serving.{DisksServe};
ghost use Rattle.two_worlds.specs.Private.LineSteps.{IsOverfullSent, Runs, Tried};
ghost use Rattle.two_worlds.specs.Timely.{goes_on_by, opens_again};

use crate::applied::Stop;
use crate::pump::parts::Parts;
use arrayvec::ArrayVec;
use disk_model::Disk;
use script_reader::{Act, EventHead, LineHead};

/// The last moment of a script, 2^62.
const LAST_MOMENT: u64 = 4_611_686_018_427_387_904;

impl<D: Disk> Parts<D> {
    /// Whether a high look to which nothing comes back leaves a message in the high hand.
    fn goes_on(&self) -> bool
        requires able { IsAble D.told self.now }
        ensures { result ≡ goes_on_by self.now }
    {
        self.high.hand().is_some() || self.ends.held() > 0
    }

    /// The line names this session, and no moment falls.
    fn is_timely(&self, session: u32, moment: u64) -> bool
        ensures { result ≡ (session == self.now.row.id && nat_le self.now.moment moment) }
    {
        session == self.row.id && self.moment <= moment
    }

    /// The line names this session, and the packet so many before the last one is kept.
    fn can_carry(&self, session: u32, back: u64) -> bool
        ensures { result ≡ (session == self.now.row.id && nat_lt back (length self.now.sent.items)) }
    {
        session == self.row.id && back < self.sent.len() as u64
    }

    /// The number of the TAKEN so many before the last one is kept.
    fn can_return(&self, back: u64) -> bool
        ensures { result ≡ nat_lt back (length self.now.returned.items) }
    {
        back < self.returned.len() as u64
    }

    /// No TAKEN comes back, or it does so by the last moment of a script.
    fn can_be_done(&self, moment: u64, time: u32) -> bool
        requires able { IsAble D.told self.now }
        requires moment { moment ≤ 2 ^ 62 }
        ensures { result ≡ (not (goes_on_by self.now) || nat_le (moment + time) (2 ^ 62)) }
    {
        !self.goes_on() || moment + time as u64 <= LAST_MOMENT
    }

    /// The message in the high hand, which was sent last, comes to the receiver, and its TAKEN comes
    /// back.
    fn carry_back(&mut self, moment: u64, out: &mut ArrayVec<EventHead, 4>) -> Result<(), Stop>
        requires able { IsAble D.told self.old }
        requires order { self.old.moment ≤ moment }
        requires moment { moment ≤ 2 ^ 62 }
        requires sent { 0 < length self.old.sent.items }
        requires out { length out.old.items ≤ 1 }
        ensures step { PartStep (λ p q printed. (n : ℕ) → IsCarriedBack self.old.row (Some n) p moment q printed)
            (λ role p q printed. BreaksOff self.old.row p moment role q printed)
            IsOverfullSent D.told self.old self.new (lines_in out.old.items) (lines_in out.new.items) result }
        ensures low { LeavesAlone roles.Low self.old self.new }
    {
        self.carry(0, out)?;
        // A receiver whose disk tells nothing may refuse it, and then nothing has come back.
        if self.returned.is_empty() {
            return Ok(());
        }
        self.take_back(moment, 0, out)
    }

    /// A `done` line: a high look, and where the hand is full then, its message to the receiver and
    /// the TAKEN back.
    fn done_line(
        &mut self,
        moment: u64,
        time: u32,
        out: &mut ArrayVec<EventHead, 4>,
    ) -> Result<(), Stop>
        requires able { IsAble D.told self.old }
        requires order { self.old.moment ≤ moment }
        requires moment { moment ≤ 2 ^ 62 }
        requires back { goes_on_by self.old ≡ true → moment + time ≤ 2 ^ 62 }
        requires out { length out.old.items ≤ 0 }
        ensures runs { Runs D.told self.old self.new (lines.Done self.old.row.id moment time)
            (lines_in out.old.items) (lines_in out.new.items) result }
        ensures works { WorksOn D.told self.new result }
        ensures serve { DisksServe D.told self.old self.new result }
        ensures row { self.new.row ≡ self.old.row }
    {
        self.look_high(moment, out)?;
        if self.high.hand().is_none() {
            return Ok(());
        }
        if self.sent.is_empty() {
            return Ok(());
        }
        self.carry_back(moment + time as u64, out)
    }

    /// What is done at a moment of this session, which does not fall. `Stop::Line` where it can't be, and
    /// then nothing was done.
    fn act(
        &mut self,
        moment: u64,
        act: &Act,
        bytes: &[u8],
        out: &mut ArrayVec<EventHead, 4>,
    ) -> Result<(), Stop>
        requires able { IsAble D.told self.old }
        requires order { self.old.moment ≤ moment }
        requires lawful { IsLawfulLine (act_with bytes.now self.old.row.id moment act.now) }
        requires room { CanHoldAct act.now bytes.now }
        requires stays { opens_again (act_with bytes.now self.old.row.id moment act.now) ≡ false }
        requires out { out.old.items ≡ [] }
        ensures { Tried D.told self.old self.new (act_with bytes.now self.old.row.id moment act.now)
            (lines_in out.new.items) result }
    {
        match *act {
            Act::Look { word, ref arrival } => self.look_line(moment, word, arrival, bytes, out),
            Act::Gone => self.gone_line(moment, out),
            Act::High => self.look_high(moment, out),
            Act::Return { back } if self.can_return(back) => self.take_back(moment, back, out),
            Act::Done { time } if self.can_be_done(moment, time) => {
                self.done_line(moment, time, out)
            }
            _ => Err(Stop::Line),
        }
    }

    /// A line of the script: what it prints is all that is in the list after it. `Stop::Line` where it
    /// can't be applied, and then nothing was done.
    pub fn apply(
        &mut self,
        line: &LineHead,
        bytes: &[u8],
        out: &mut ArrayVec<EventHead, 4>,
    ) -> Result<(), Stop>
        requires able { IsAble D.told self.old }
        requires lawful { IsLawfulLine (line_with bytes.now line.now) }
        requires room { CanHoldLine line.now bytes.now }
        requires stays { opens_again (line_with bytes.now line.now) ≡ false }
        ensures { Tried D.told self.old self.new (line_with bytes.now line.now) (lines_in out.new.items) result }
    {
        out.clear();
        match *line {
            LineHead::At {
                session,
                moment,
                ref act,
            } if self.is_timely(session, moment) => self.act(moment, act, bytes, out),
            LineHead::Carry { session, back } if self.can_carry(session, back) => {
                self.carry(back, out)
            }
            _ => Err(Stop::Line),
        }
    }
}

//! A low look of a pump.

ghost use Rattle.std.specs.Prelude.{◌≡◌, ◌^◌, ◌≤◌, length};
ghost use Rattle.script_reader.specs.Heads.{arriving_with, CanHold};
ghost use Rattle.script_reader.specs.Lawful.{IsLawfulArriving};
ghost use Rattle.script_reader.specs.declared.line.Line.TheVariants as lines;
ghost use Rattle.two_worlds.specs.Printing.{lines_in};
ghost use Rattle.two_worlds.specs.Private.LineSteps.{Ran};
ghost use Rattle.two_worlds.specs.Working.{IsAble};

use crate::applied::Stop;
use crate::low_side::end_look;
use crate::pump::parts::Parts;
use arrayvec::ArrayVec;
use disk_model::Disk;
use low_process::{Arrival, LookHead};
use script_reader::{ArrivingHead, EventHead};

impl<D: Disk> Parts<D> {
    /// A `look` line: what comes joins what waits, and the low process looks with what waits first.
    /// `Stop::Line` where more than 64 arrivals would wait. `Stop::Device` where the low disk failed in
    /// the store of the message: the refusal is printed, and the low process is down.
    pub fn look_line(
        &mut self,
        moment: u64,
        word: u32,
        arriving: &ArrivingHead,
        bytes: &[u8],
        out: &mut ArrayVec<EventHead, 4>,
    ) -> Result<(), Stop>
        requires able { IsAble D.told self.old }
        requires lawful { IsLawfulArriving (arriving_with bytes.now arriving.now) }
        requires room { CanHold arriving.now bytes.now }
        requires order { self.old.moment ≤ moment }
        requires moment { moment ≤ 2 ^ 62 }
        requires out { length out.old.items ≤ 1 }
        ensures { Ran D.told self.old self.new (lines.Look self.old.row.id moment word
            (arriving_with bytes.now arriving.now))
            (lines_in out.old.items) (lines_in out.new.items) result }
    {
        if !self.connection.join(self.row.id, arriving, bytes) {
            return Err(Stop::Line);
        }
        let arrival = self.connection.first();
        let mut head = LookHead::new();
        self.low.look_into(
            moment,
            word,
            arrival,
            &mut self.low_store,
            &mut self.ends,
            &mut head,
        );
        self.connection.settle(head.taken);
        self.moment = moment;
        end_look(&self.row, &self.low, &self.low_store, moment, &head, out)
    }

    /// A `gone` line: the connection is lost, and the low process looks. Nothing waits on the new one.
    pub fn gone_line(&mut self, moment: u64, out: &mut ArrayVec<EventHead, 4>) -> Result<(), Stop>
        requires able { IsAble D.told self.old }
        requires order { self.old.moment ≤ moment }
        requires moment { moment ≤ 2 ^ 62 }
        requires out { length out.old.items ≤ 1 }
        ensures { Ran D.told self.old self.new (lines.Gone self.old.row.id moment)
            (lines_in out.old.items) (lines_in out.new.items) result }
    {
        self.connection.lose();
        let mut head = LookHead::new();
        self.low.look_into(
            moment,
            0,
            Arrival::Gone,
            &mut self.low_store,
            &mut self.ends,
            &mut head,
        );
        self.moment = moment;
        end_look(&self.row, &self.low, &self.low_store, moment, &head, out)
    }
}

//! Two pumps in a row.

mod comparing;
mod ending;
mod lines;
mod opening;
mod reading;

use crate::place::LogPlace;
use crate::sender::Sender;
use crate::whose::{Whose, find_whose};
use arrayvec::ArrayVec;
use disk_model::Disk;
use script_reader::{EventHead, Line, LineHead};
use two_worlds::{Applied, Pump, Stop, events_of};

/// Two pumps in a row: what the receiver of the first one took is sent on, in order, by a sender between
/// them that is the Low of the second one.
#[derive(Drop)]
pub struct Chain<D: Disk> {
    first: Pump<D>,
    second: Pump<D>,
    sender: Sender,
    /// Where the first receiver's log is read next.
    place: LogPlace,
    /// A line came that is of one of the sessions and makes neither coarse.
    is_under_way: bool,
    // The place is that of a record of the first receiver's log, where its disk tells what it holds.
    ghost keeps: { ∥ Keeps D.told first place ∥₁ },
}

ghost use Rattle.pump_chain.specs.Keeping.{Keeps};

impl<D: Disk> Chain<D> {
    ghost use Rattle.std.specs.Prelude.{◌≡◌, false};
    ghost use Rattle.pump_chain.specs.Chained.{Chained};
    ghost use Rattle.pump_chain.specs.Failing.{FailNoLess};
    ghost use Rattle.pump_chain.specs.Standing.{ChainStands, ChainApplies, LeavesPrefixes, IsCounted, chain_is_down};
    ghost use Rattle.script_reader.specs.Heads.{line_with, CanHoldLine};
    ghost use Rattle.script_reader.specs.Lawful.{IsLawfulLine};
    ghost use Rattle.two_worlds.specs.LowPumps.{stops_at_disk};
    ghost use Rattle.two_worlds.specs.Printing.{lines_in};

    /// A line of the script: what it prints, and whether it stops the chain. Until a call of a disk has
    /// failed. It takes no memory. `Stop::Device` of the receiver's disk at a `step` is of the first session,
    /// and the look is not made; every other stop is of the line's session. What crashes leave of the six
    /// disks at any moment of it tells four lists, each a prefix of the next.
    pub fn apply(&mut self, line: &Line) -> Applied
        requires lawful { IsLawfulLine line.now }
        requires up { chain_is_down self.old ≡ false }
        ensures applies { D.told.tells → (c : Chained) → ChainStands D.told self.old c
            → ChainApplies D.told self.old self.new line.now c result.events.items result.stop }
        ensures crashes { D.told.tells → (c : Chained) → ChainStands D.told self.old c
            → LeavesPrefixes D.told self.old self.new }
        ensures device { IsCounted D.told self.old self.new line.now result.stop }
        ensures later { FailNoLess D.told self.old self.new }
        ensures down { chain_is_down self.new ≡ stops_at_disk result.stop }
    {
        let mut heads = ArrayVec::new();
        let stop = self.apply_head(&line.head(), line.bytes(), &mut heads);
        Applied {
            events: events_of(&heads),
            stop,
        }
    }

    /// As `apply`, for a line's head with the bytes that come with it. What is printed is all that the
    /// caller's list of events holds after it.
    pub fn apply_head(
        &mut self,
        line: &LineHead,
        bytes: &[u8],
        events: &mut ArrayVec<EventHead, 4>,
    ) -> Option<Stop>
        requires lawful { IsLawfulLine (line_with bytes.now line.now) }
        requires room { CanHoldLine line.now bytes.now }
        requires up { chain_is_down self.old ≡ false }
        ensures applies { D.told.tells → (c : Chained) → ChainStands D.told self.old c
            → ChainApplies D.told self.old self.new (line_with bytes.now line.now) c (lines_in events.new.items)
            result }
        ensures crashes { D.told.tells → (c : Chained) → ChainStands D.told self.old c
            → LeavesPrefixes D.told self.old self.new }
        ensures device { IsCounted D.told self.old self.new (line_with bytes.now line.now) result }
        ensures later { FailNoLess D.told self.old self.new }
        ensures down { chain_is_down self.new ≡ stops_at_disk result }
    {
        events.clear();
        match find_whose(line, self.first.row().id, self.second.row().id) {
            Whose::Nobodys => None,
            Whose::NoChains => Some(Stop::Line),
            Whose::CoarsensFirst => self.coarsen_first(),
            Whose::CoarsensSecond => self.coarsen_second(),
            Whose::Firsts => self.apply_first(line, bytes, events),
            Whose::Seconds => self.apply_second(line, bytes, events),
            Whose::Senders { moment, word } => self.step(moment, word, events),
        }
    }
}

//! What the end of a script prints of a chain.

ghost use Rattle.std.specs.Prelude.{◌≡◌};
ghost use Rattle.pump_chain.specs.Chained.{Chained};
ghost use Rattle.pump_chain.specs.Ends.{ends_of};
ghost use Rattle.pump_chain.specs.Standing.{ChainStands};
ghost use Rattle.script_reader.specs.EventHeads.{event_of};
ghost use Rattle.script_reader.specs.Past.{Past};
ghost use Rattle.script_reader.specs.Scripts.{end_of};
ghost use Rattle.two_worlds.specs.Printing.{lines_in};
ghost use Rattle.two_worlds.specs.Pumps.{StandsFor, row_of};

use crate::chain::Chain;
use disk_model::Disk;
use script_reader::EventHead;
use two_worlds::Pump;

fn end_of_one<D: Disk>(pump: &Pump<D>) -> EventHead
    ensures { (p : Past) → StandsFor D.told pump.now p → event_of result ≡ end_of (row_of pump.now) p }
{
    let (accepted, removed, received) = pump.counts();
    EventHead::End {
        session: pump.row().id,
        accepted,
        high: Some((removed, received)),
    }
}

impl<D: Disk> Chain<D> {
    /// What the end of a script prints: of each session how many messages were accepted, removed and
    /// received, by rising number.
    pub fn ends(&self) -> [EventHead; 2]
        ensures { (c : Chained) → ChainStands D.told self.now c → lines_in result ≡ ends_of c }
    {
        let first = end_of_one(&self.first);
        let second = end_of_one(&self.second);
        if self.first.row().id < self.second.row().id {
            [first, second]
        } else {
            [second, first]
        }
    }
}

//! What a chain does with a line.

ghost use Rattle.std.specs.Prelude.{◌≡◌, ◌^◌, ◌<◌, ◌≤◌, ℕ, List, max, false, [], length, is_none, IfOk, IfErr, OnOk};
ghost use Rattle.std.specs.Prelude.{OnErr};
ghost use Rattle.disk_model.specs.declared.name.Role.TheVariants as roles;
ghost use Rattle.pump_chain.specs.Chained.{Chained, OfFirst, OfSecond, MakesFirst, MakesSecond, added};
ghost use Rattle.pump_chain.specs.Chained.{is_frame as adds_frame, is_look};
ghost use Rattle.pump_chain.specs.Failing.{FailNoLess};
ghost use Rattle.pump_chain.specs.Private.{order_by, AddsMessage};
ghost use Rattle.pump_chain.specs.Standing.{ChainStands, AppliesBy, LeavesPrefixes, IsCountedBy, chain_is_down};
ghost use Rattle.script_reader.specs.declared.line.Arriving.TheVariants as arriving;
ghost use Rattle.script_reader.specs.declared.line.Line.TheVariants as lines;
ghost use Rattle.script_reader.specs.Heads.{arriving_with, line_with, CanHoldLine};
ghost use Rattle.script_reader.specs.Lawful.{IsLawfulArriving, IsLawfulLine};
ghost use Rattle.two_worlds.specs.LowPumps.{stops_at_disk};
ghost use Rattle.two_worlds.specs.Printing.{lines_in};
ghost use Rattle.two_worlds.specs.Pumps.{row_of, kept_moment, disk_at};
ghost use Rattle.two_worlds.specs.Reads.{ReadsOn, FailsReading};

use crate::chain::Chain;
use crate::sender::either;
use arrayvec::ArrayVec;
use disk_model::{Disk, Role};
use pump_frame::Payload;
use script_reader::{Act, ArrivingHead, EventHead, LineHead, moment_of};
use stable_buffer::Device;
use two_worlds::Stop;

// Whether nothing stops the line.
fn is_applied(stop: Option<Stop>) -> bool
    ensures { result ≡ is_none stop }
{
    match stop {
        None => true,
        Some(_) => false,
    }
}

// Whether a frame is added.
fn is_frame(arrival: &ArrivingHead) -> bool
    ensures { (bytes : List ℕ) → result ≡ adds_frame (arriving_with bytes arrival.now) }
{
    match arrival {
        ArrivingHead::Nothing => false,
        ArrivingHead::Hello { .. } | ArrivingHead::Data { .. } | ArrivingHead::Raw => true,
    }
}

impl<D: Disk> Chain<D> {
    /// The first session is made coarse, before all that is done with either.
    pub fn coarsen_first(&mut self) -> Option<Stop>
        requires up { chain_is_down self.old ≡ false }
        ensures applies { D.told.tells → (c : Chained) → ChainStands D.told self.old c
            → AppliesBy D.told self.old self.new c MakesFirst [] result }
        ensures crashes { D.told.tells → (c : Chained) → ChainStands D.told self.old c
            → LeavesPrefixes D.told self.old self.new }
        ensures down { chain_is_down self.new ≡ stops_at_disk result }
        ensures device { IsCountedBy D.told self.old self.new MakesFirst result }
        ensures later { FailNoLess D.told self.old self.new }
    {
        if self.is_under_way || self.first.is_coarse() {
            return Some(Stop::Line);
        }
        self.first.make_coarse();
        None
    }

    /// So the second session.
    pub fn coarsen_second(&mut self) -> Option<Stop>
        requires up { chain_is_down self.old ≡ false }
        ensures applies { D.told.tells → (c : Chained) → ChainStands D.told self.old c
            → AppliesBy D.told self.old self.new c MakesSecond [] result }
        ensures crashes { D.told.tells → (c : Chained) → ChainStands D.told self.old c
            → LeavesPrefixes D.told self.old self.new }
        ensures down { chain_is_down self.new ≡ stops_at_disk result }
        ensures device { IsCountedBy D.told self.old self.new MakesSecond result }
        ensures later { FailNoLess D.told self.old self.new }
    {
        if self.is_under_way || self.second.is_coarse() {
            return Some(Stop::Line);
        }
        self.second.make_coarse();
        None
    }

    // The moment of the last line of either session that had one.
    fn moment(&self) -> u64
        ensures { result ≡ max (kept_moment self.now.first) (kept_moment self.now.second) }
    {
        self.first.moment().max(self.second.moment())
    }

    // Whether the line is no earlier than those before it, whichever session they were of.
    fn is_in_order(&self, line: &LineHead) -> bool
        ensures { (bytes : List ℕ) → result ≡ order_by self.now (line_with bytes line.now) }
    {
        match moment_of(line) {
            Some(moment) => self.moment() <= moment,
            None => true,
        }
    }

    /// A line of the first session.
    pub fn apply_first(
        &mut self,
        line: &LineHead,
        bytes: &[u8],
        events: &mut ArrayVec<EventHead, 4>,
    ) -> Option<Stop>
        requires lawful { IsLawfulLine (line_with bytes.now line.now) }
        requires room { CanHoldLine line.now bytes.now }
        requires up { chain_is_down self.old ≡ false }
        requires none { length events.old.items ≤ 0 }
        ensures applies { D.told.tells → (c : Chained) → ChainStands D.told self.old c
            → AppliesBy D.told self.old self.new c (OfFirst (line_with bytes.now line.now)) (lines_in events.new.items)
            result }
        ensures crashes { D.told.tells → (c : Chained) → ChainStands D.told self.old c
            → LeavesPrefixes D.told self.old self.new }
        ensures down { chain_is_down self.new ≡ stops_at_disk result }
        ensures device { IsCountedBy D.told self.old self.new (OfFirst (line_with bytes.now line.now)) result }
        ensures later { FailNoLess D.told self.old self.new }
    {
        if !self.is_in_order(line) {
            return Some(Stop::Line);
        }
        let stop = self.first.apply_head(line, bytes, events);
        let applied = is_applied(stop);
        self.is_under_way = either(self.is_under_way, applied);
        stop
    }

    /// A line of the second session: with its connection or its processes the sender begins anew.
    pub fn apply_second(
        &mut self,
        line: &LineHead,
        bytes: &[u8],
        events: &mut ArrayVec<EventHead, 4>,
    ) -> Option<Stop>
        requires lawful { IsLawfulLine (line_with bytes.now line.now) }
        requires room { CanHoldLine line.now bytes.now }
        requires up { chain_is_down self.old ≡ false }
        requires none { length events.old.items ≤ 0 }
        requires look { is_look (line_with bytes.now line.now) ≡ false }
        ensures applies { D.told.tells → (c : Chained) → ChainStands D.told self.old c
            → AppliesBy D.told self.old self.new c (OfSecond (line_with bytes.now line.now)) (lines_in events.new.items)
            result }
        ensures crashes { D.told.tells → (c : Chained) → ChainStands D.told self.old c
            → LeavesPrefixes D.told self.old self.new }
        ensures down { chain_is_down self.new ≡ stops_at_disk result }
        ensures device { IsCountedBy D.told self.old self.new (OfSecond (line_with bytes.now line.now)) result }
        ensures later { FailNoLess D.told self.old self.new }
    {
        if !self.is_in_order(line) {
            return Some(Stop::Line);
        }
        let stop = self.second.apply_head(line, bytes, events);
        let applied = is_applied(stop);
        self.sender.went_on(line, applied);
        self.is_under_way = either(self.is_under_way, applied);
        stop
    }

    // What the sender adds before a look of the second pump; the bytes that come with it are put into the
    // payload.
    fn add(&mut self, payload: &mut Payload) -> Result<ArrivingHead, Device>
        requires up { chain_is_down self.old ≡ false }
        ensures adds { IfOk result (λ arrival. D.told.tells → (c : Chained) → ChainStands D.told self.old c
            → arriving_with payload.new arrival ≡ added c) }
        ensures lawful { IfOk result (λ arrival. IsLawfulArriving (arriving_with payload.new arrival)) }
        ensures reads { OnOk result (ReadsOn D.told roles.Recv self.old.first self.new.first) }
        ensures fails { OnErr result (FailsReading D.told roles.Recv self.old.first self.new.first) }
        ensures message { OnErr result (D.told.tells → (c : Chained) → ChainStands D.told self.old c → AddsMessage c) }
        ensures device { IfErr result (λ e. e.faults ≡ D.told.count (disk_at roles.Recv self.new.first)) }
        ensures second { self.new.second ≡ self.old.second }
        ensures sender { self.new.sender ≡ self.old.sender }
        ensures under_way { self.new.is_under_way ≡ self.old.is_under_way }
    {
        if self.sender.is_under_way {
            return Ok(ArrivingHead::Nothing);
        }
        if !self.sender.is_welcome {
            let row = self.second.row();
            return Ok(ArrivingHead::Hello {
                low: row.low,
                high: row.high,
            });
        }
        let (number, _, _) = self.second.counts();
        let (_, _, received) = self.first.counts();
        if number >= received {
            return Ok(ArrivingHead::Nothing);
        }
        match self.fetch(number, payload) {
            Ok(()) => Ok(ArrivingHead::Data { number }),
            Err(device) => Err(device),
        }
    }

    /// A look of the second session, before which the sender adds what it has.
    pub fn step(
        &mut self,
        moment: u64,
        word: u32,
        events: &mut ArrayVec<EventHead, 4>,
    ) -> Option<Stop>
        requires up { chain_is_down self.old ≡ false }
        requires moment { moment ≤ 2 ^ 62 }
        requires none { length events.old.items ≤ 0 }
        ensures applies { D.told.tells → (c : Chained) → ChainStands D.told self.old c
            → AppliesBy D.told self.old self.new c
            (OfSecond (lines.Look (row_of self.old.second).id moment word (added c))) (lines_in events.new.items)
            result }
        ensures crashes { D.told.tells → (c : Chained) → ChainStands D.told self.old c
            → LeavesPrefixes D.told self.old self.new }
        ensures down { chain_is_down self.new ≡ stops_at_disk result }
        ensures device { IsCountedBy D.told self.old self.new
            (OfSecond (lines.Look (row_of self.old.second).id moment word arriving.Nothing)) result }
        ensures later { FailNoLess D.told self.old self.new }
    {
        if moment < self.moment() {
            return Some(Stop::Line);
        }
        let mut payload = Payload::default();
        let arrival = match self.add(&mut payload) {
            Ok(arrival) => arrival,
            Err(device) => {
                return Some(Stop::Device {
                    role: Role::Recv,
                    faults: device.faults,
                });
            }
        };
        let look = LineHead::At {
            session: self.second.row().id,
            moment,
            act: Act::Look { word, arrival },
        };
        let stop = self.second.apply_head(&look, payload.as_slice(), events);
        let applied = is_applied(stop);
        self.sender
            .looked(is_frame(&arrival), events.as_slice(), applied);
        self.is_under_way = either(self.is_under_way, applied);
        stop
    }
}

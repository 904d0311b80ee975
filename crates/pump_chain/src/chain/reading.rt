//! The first receiver's messages are read in order.

ghost use Rattle.std.specs.Prelude.{◌≡◌, ◌+◌, ◌^◌, ◌<◌, ◌≤◌, false, [], slice_index_or, OnOk, OnErr, IfErr};
ghost use Rattle.disk_model.specs.declared.name.Role.TheVariants as roles;
ghost use Rattle.script_reader.specs.Past.{Past};
ghost use Rattle.two_worlds.specs.Pumps.{StandsFor, counts_of, disk_at, is_down};
ghost use Rattle.two_worlds.specs.Reads.{ReadsOn, FailsReading};

use crate::chain::Chain;
use crate::place::LogPlace;
use disk_model::Disk;
use pump_frame::Payload;
use stable_buffer::Device;

impl<D: Disk> Chain<D> {
    // The message at the place in the first receiver's log; the place is then the next one's.
    fn read_on(&mut self, into: &mut Payload) -> Result<(), Device>
        requires up { is_down self.old.first ≡ false }
        requires some { self.old.place.number < (counts_of self.old.first).2 }
        requires small { self.old.place.number < 2 ^ 48 }
        ensures message { OnOk result (D.told.tells → (p : Past) → StandsFor D.told self.old.first p
            → into.new ≡ slice_index_or p.world.received self.old.place.number []) }
        ensures number { OnOk result (self.new.place.number ≡ self.old.place.number + 1) }
        ensures reads { OnOk result (ReadsOn D.told roles.Recv self.old.first self.new.first) }
        ensures fails { OnErr result (FailsReading D.told roles.Recv self.old.first self.new.first) }
        ensures device { IfErr result (λ e. e.faults ≡ D.told.count (disk_at roles.Recv self.new.first)) }
        ensures second { self.new.second ≡ self.old.second }
        ensures sender { self.new.sender ≡ self.old.sender }
        ensures under_way { self.new.is_under_way ≡ self.old.is_under_way }
    {
        let number = self.place.number;
        let at = self.first.received(number, self.place.at, into)?;
        self.place = LogPlace {
            number: number + 1,
            at,
        };
        Ok(())
    }

    // The place is none behind this message: a log is read forwards alone.
    fn go_back(&mut self, number: u64)
        ensures from { self.new.place.number ≤ number }
        ensures first { self.new.first ≡ self.old.first }
        ensures second { self.new.second ≡ self.old.second }
        ensures sender { self.new.sender ≡ self.old.sender }
        ensures under_way { self.new.is_under_way ≡ self.old.is_under_way }
    {
        if number < self.place.number {
            self.place = LogPlace::first();
        }
    }

    /// Message `number` of the first receiver, from where its log was read last, or from its start.
    pub fn fetch(&mut self, number: u64, into: &mut Payload) -> Result<(), Device>
        requires up { is_down self.old.first ≡ false }
        requires some { number < (counts_of self.old.first).2 }
        requires small { number < 2 ^ 48 }
        ensures message { OnOk result (D.told.tells → (p : Past) → StandsFor D.told self.old.first p
            → into.new ≡ slice_index_or p.world.received number []) }
        ensures reads { OnOk result (ReadsOn D.told roles.Recv self.old.first self.new.first) }
        ensures fails { OnErr result (FailsReading D.told roles.Recv self.old.first self.new.first) }
        ensures device { IfErr result (λ e. e.faults ≡ D.told.count (disk_at roles.Recv self.new.first)) }
        ensures second { self.new.second ≡ self.old.second }
        ensures sender { self.new.sender ≡ self.old.sender }
        ensures under_way { self.new.is_under_way ≡ self.old.is_under_way }
    {
        self.go_back(number);
        for _earlier in self.place.number..number {
            match self.read_on(into) {
                Ok(()) => {}
                Err(device) => return Err(device),
            }
        }
        self.read_on(into)
    }
}

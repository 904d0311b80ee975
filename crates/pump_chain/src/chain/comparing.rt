//! What the second pump has is compared with what the first receiver has.

ghost use Rattle.std.specs.Prelude.{◌≡◌, ◌^◌, ◌≤◌, true, false, OnOk, IfErr};
ghost use Rattle.disk_model.specs.declared.name.Role.TheVariants as roles;
ghost use Rattle.pump_chain.specs.Compared.{EndsReading, IsUnlike};
ghost use Rattle.pump_chain.specs.Comparing.{Agree};
ghost use Rattle.recovery.specs.declared.why.Why.TheVariants.{Device as Failed};
ghost use Rattle.pump_chain.specs.declared.not_chained.ChainWhy.TheVariants as reasons;
ghost use Rattle.script_reader.specs.Past.{Past};
ghost use Rattle.two_worlds.specs.Pumps.{StandsFor, counts_of, is_down};
ghost use Rattle.two_worlds.specs.Reads.{ReadsOn};

use crate::chain::Chain;
use crate::not_chained::ChainWhy;
use disk_model::{Disk, Role};
use pump_frame::Payload;
use recovery::Why;
use stable_buffer::Device;

// Whether two messages are equal.
fn are_equal(one: &Payload, other: &Payload) -> bool
    ensures equal { result ≡ true → one.now ≡ other.now }
    ensures unequal { result ≡ false → one.now ≡ other.now → ⊥ }
{
    one.as_slice() == other.as_slice()
}

fn unread(session: u32, role: Role, device: Device) -> ChainWhy
    ensures { result ≡ reasons.Pump session role (Failed device.faults) }
{
    ChainWhy::Pump {
        session,
        role,
        why: Why::Device {
            faults: device.faults,
        },
    }
}

impl<D: Disk> Chain<D> {
    /// So many messages that the second receiver has are the first ones that the first receiver has.
    pub fn compare_taken(&mut self, count: u64) -> Result<(), ChainWhy>
        requires first { is_down self.old.first ≡ false }
        requires second { is_down self.old.second ≡ false }
        requires count { count ≤ (counts_of self.old.second).2 }
        requires bound { count ≤ (counts_of self.old.first).2 }
        requires few { count ≤ 2 ^ 48 }
        ensures agree { OnOk result (D.told.tells → (p q : Past) → StandsFor D.told self.old.first p
            → StandsFor D.told self.old.second q
            → Agree 0 count q.world.received p.world.received) }
        ensures first { OnOk result (ReadsOn D.told roles.Recv self.old.first self.new.first) }
        ensures second { OnOk result (ReadsOn D.told roles.Recv self.old.second self.new.second) }
        ensures unlike { IfErr result (λ why. D.told.tells → (p q : Past) → StandsFor D.told self.old.first p
            → StandsFor D.told self.old.second q
            → IsUnlike 0 q.world.accepted p.world.received why) }
        ensures ends { IfErr result (EndsReading D.told roles.Recv self.old.first self.new.first self.old.second
            self.new.second) }
        ensures sender { self.new.sender ≡ self.old.sender }
        ensures under_way { self.new.is_under_way ≡ self.old.is_under_way }
    {
        let mut sent = Payload::default();
        let mut taken = Payload::default();
        let mut at = 80;
        for number in 0..count {
            match self.fetch(number, &mut sent) {
                Ok(()) => {}
                Err(device) => return Err(unread(self.first.row().id, Role::Recv, device)),
            }
            match self.second.received(number, at, &mut taken) {
                Ok(next) => at = next,
                Err(device) => return Err(unread(self.second.row().id, Role::Recv, device)),
            }
            if !are_equal(&sent, &taken) {
                return Err(ChainWhy::Unlike { number });
            }
        }
        Ok(())
    }

    /// So those that its low disk has.
    pub fn compare_live(&mut self, removed: u64, count: u64) -> Result<(), ChainWhy>
        requires first { is_down self.old.first ≡ false }
        requires second { is_down self.old.second ≡ false }
        requires removed { removed ≡ (counts_of self.old.second).1 }
        requires count { count ≡ (counts_of self.old.second).0 }
        requires bound { count ≤ (counts_of self.old.first).2 }
        requires few { count ≤ 2 ^ 48 }
        ensures agree { OnOk result (D.told.tells → (p q : Past) → StandsFor D.told self.old.first p
            → StandsFor D.told self.old.second q
            → Agree removed count q.world.accepted p.world.received) }
        ensures first { OnOk result (ReadsOn D.told roles.Recv self.old.first self.new.first) }
        ensures second { OnOk result (ReadsOn D.told roles.Low self.old.second self.new.second) }
        ensures unlike { IfErr result (λ why. D.told.tells → (p q : Past) → StandsFor D.told self.old.first p
            → StandsFor D.told self.old.second q
            → IsUnlike removed q.world.accepted p.world.received why) }
        ensures ends { IfErr result (EndsReading D.told roles.Low self.old.first self.new.first self.old.second
            self.new.second) }
        ensures sender { self.new.sender ≡ self.old.sender }
        ensures under_way { self.new.is_under_way ≡ self.old.is_under_way }
    {
        let mut sent = Payload::default();
        let mut live = Payload::default();
        for number in removed..count {
            match self.fetch(number, &mut sent) {
                Ok(()) => {}
                Err(device) => return Err(unread(self.first.row().id, Role::Recv, device)),
            }
            match self.second.live(number, &mut live) {
                Ok(()) => {}
                Err(device) => return Err(unread(self.second.row().id, Role::Low, device)),
            }
            if !are_equal(&sent, &live) {
                return Err(ChainWhy::Unlike { number });
            }
        }
        Ok(())
    }
}

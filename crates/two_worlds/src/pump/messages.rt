//! A message of a pump is read from its disk.

ghost use Rattle.std.specs.Prelude.{◌≡◌, ◌<◌, ◌≤◌, ◌+◌, true, false, [], slice_index_or, IfOk, OnOk, OnErr, IfErr};
ghost use Rattle.disk_model.specs.Disk.{Moves, Same};
ghost use Rattle.disk_model.specs.declared.name.Role.TheVariants as roles;
ghost use Rattle.high_process.specs.States as high;
ghost use Rattle.high_receiver.specs.Receiving.{IsRecvReady, KeepsLog, recv_count, recv_disk, recv_is_open, record_at};
ghost use Rattle.low_process.specs.Looks as low;
ghost use Rattle.script_reader.specs.Past.{Past};
ghost use Rattle.stable_buffer.specs.Low.{IsLowReady, low_count, low_disk, low_row};
ghost use Rattle.two_worlds.specs.Reads.{ReadsIn, FailsToRead};
ghost use Rattle.two_worlds.specs.Rooms.{Serves};
ghost use Rattle.two_worlds.specs.Standing.{Stands, bare_disk};
ghost use Rattle.two_worlds.specs.States.{disks_in, counts_in, IsOpenWith, StandsIn};
ghost use Rattle.two_worlds.specs.Working.{IsAble};

use crate::pump::parts::Parts;
use crate::pump::state::PumpState;
use core::mem::replace_with;
use disk_model::Disk;
use pump_frame::Payload;
use stable_buffer::Device;

impl<D: Disk> Parts<D> {
    // Message n of the low disk, which has it still. Over disks that do not agree it may not: then
    // `into` stays as it was.
    fn live(&mut self, n: u64, into: &mut Payload) -> Result<(), Device>
        requires able { IsAble D.told self.old }
        requires live { (high.removed_of self.old.high ≤ n) × (n < low.next_of self.old.low) }
        ensures message { OnOk result (D.told.tells → (p : Past) → Stands D.told self.old p
            → into.new ≡ slice_index_or p.world.accepted n []) }
        ensures rest { self.new ≡ record self.old { low_store = self.new.low_store } }
        ensures ready { OnOk result (IsLowReady D.told self.new.low_store) }
        ensures count { low_count self.new.low_store ≡ low_count self.old.low_store }
        ensures row { low_row self.new.low_store ≡ low_row self.old.low_store }
        ensures same { Moves D.told Same (low_disk self.old.low_store) (low_disk self.new.low_store) }
        ensures serves { OnOk result (Serves D.told 0 (low_disk self.old.low_store) (low_disk self.new.low_store)
            false) }
        ensures fails { OnErr result (Serves D.told 0 (low_disk self.old.low_store) (low_disk self.new.low_store)
            true) }
        ensures device { IfErr result (λ e. e.faults ≡ D.told.count (low_disk self.new.low_store)) }
    {
        if self.low.next() - n > u64::from(self.row.capacity) {
            return Ok(());
        }
        match self.low_store.slot(n, into) {
            Ok(_) => Ok(()),
            Err(device) => Err(device),
        }
    }

    // Message n of the receiver, whose record is at this offset, and the offset of the next record. Over
    // disks that do not agree no record may be there: the offset is cut at the end of the records.
    fn received(&mut self, n: u64, at: u64, into: &mut Payload) -> Result<u64, Device>
        requires able { IsAble D.told self.old }
        requires taken { n < recv_count self.old.receiver }
        requires place { D.told.tells → (p : Past) → Stands D.told self.old p → at ≡ record_at p.world.received n }
        ensures message { OnOk result (D.told.tells → (p : Past) → Stands D.told self.old p
            → into.new ≡ slice_index_or p.world.received n []) }
        ensures next { IfOk result (λ next. D.told.tells → (p : Past) → Stands D.told self.old p
            → next ≡ record_at p.world.received (n + 1)) }
        ensures rest { self.new ≡ record self.old { receiver = self.new.receiver } }
        ensures ready { OnOk result (IsRecvReady D.told self.new.receiver) }
        ensures keeps { KeepsLog D.told self.old.receiver self.new.receiver }
        ensures serves { OnOk result (Serves D.told 0 (recv_disk self.old.receiver) (recv_disk self.new.receiver)
            false) }
        ensures fails { OnErr result (Serves D.told 0 (recv_disk self.old.receiver) (recv_disk self.new.receiver)
            true) }
        ensures closed { OnErr result (recv_is_open self.new.receiver ≡ false) }
        ensures device { IfErr result (λ e. e.faults ≡ D.told.count (recv_disk self.new.receiver)) }
    {
        let place = at.min(self.receiver.end());
        match self.receiver.at(n, place, into) {
            Ok(next) => Ok(next),
            Err(device) => Err(device),
        }
    }
}

impl<D: Disk> PumpState<D> {
    // The pump is shut, with its disks as they are.
    fn shut(self, _by: ()) -> (PumpState<D>, ())
        ensures { result.0 ≡ PumpState.Shut (disks_in self) }
    {
        (PumpState::Shut(self.into_disks()), ())
    }

    /// Message n, which was accepted and is not removed, as the low disk has it. After `Device` the pump
    /// is shut.
    pub fn live(&mut self, n: u64, into: &mut Payload) -> Result<(), Device>
        requires able { IsOpenWith (IsAble D.told) self.old }
        requires live { ((counts_in self.old).1 ≤ n) × (n < (counts_in self.old).0) }
        ensures message { OnOk result (D.told.tells → (p : Past) → StandsIn D.told self.old p
            → into.new ≡ slice_index_or p.world.accepted n []) }
        ensures reads { OnOk result (ReadsIn D.told roles.Low self.old self.new) }
        ensures able { OnOk result (IsOpenWith (IsAble D.told) self.new) }
        ensures fails { OnErr result (FailsToRead D.told roles.Low self.old self.new) }
        ensures device { IfErr result (λ e. e.faults ≡ D.told.count (bare_disk roles.Low (disks_in self.new))) }
    {
        let read = match self {
            PumpState::Open(parts) => parts.live(n, into),
            PumpState::Shut(_) => unreachable!(),
        };
        match read {
            Ok(()) => Ok(()),
            Err(device) => {
                replace_with(self, (), PumpState::shut);
                Err(device)
            }
        }
    }

    /// Message n of the receiver, whose record is at this offset, and the offset of the next record.
    pub fn received(&mut self, n: u64, at: u64, into: &mut Payload) -> Result<u64, Device>
        requires able { IsOpenWith (IsAble D.told) self.old }
        requires taken { n < (counts_in self.old).2 }
        requires place { D.told.tells → (p : Past) → StandsIn D.told self.old p → at ≡ record_at p.world.received n }
        ensures message { OnOk result (D.told.tells → (p : Past) → StandsIn D.told self.old p
            → into.new ≡ slice_index_or p.world.received n []) }
        ensures next { IfOk result (λ next. D.told.tells → (p : Past) → StandsIn D.told self.old p
            → next ≡ record_at p.world.received (n + 1)) }
        ensures reads { OnOk result (ReadsIn D.told roles.Recv self.old self.new) }
        ensures able { OnOk result (IsOpenWith (IsAble D.told) self.new) }
        ensures fails { OnErr result (FailsToRead D.told roles.Recv self.old self.new) }
        ensures device { IfErr result (λ e. e.faults ≡ D.told.count (bare_disk roles.Recv (disks_in self.new))) }
    {
        let read = match self {
            PumpState::Open(parts) => parts.received(n, at, into),
            PumpState::Shut(_) => unreachable!(),
        };
        match read {
            Ok(next) => Ok(next),
            Err(device) => Err(device),
        }
    }
}

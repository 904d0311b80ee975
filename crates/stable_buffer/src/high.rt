// The store of the high process: how many messages it has removed.
ghost use Rattle.std.specs.Prelude.{◌≡◌, ◌+◌, ◌^◌, ◌<◌, ◌≤◌, false, IfOk, OnOk, OnErr, IfErr};
ghost use Rattle.disk_model.specs.Disk.{Moves, Settled, Leaves, Answers};
ghost use Rattle.stable_buffer.specs.Stands.{HighStands, MayRemove, Removes, StandsOrRemoves};
ghost use Rattle.pump_frame.specs.declared.row.SessionRow.{SessionRow};

use crate::{Device, Register};
use disk_model::Disk;

/// The count of messages that the high process has removed, on its disk.
#[derive(Drop)]
pub struct HighStore<D> {
    register: Register<D>,
}

impl<D: Disk> HighStore<D> {
    ghost use Rattle.stable_buffer.specs.Register.{IsReady, register_disk, register_value};
    ghost use Rattle.stable_buffer.specs.High.{IsHighReady, StandsForRemoved, high_disk, high_count, high_is_open};
    ghost use Rattle.stable_buffer.specs.High.{removal_end};

    /// A store over a register, whose disk stands for a count of at most 2^48.
    pub fn over(register: Register<D>) -> HighStore<D>
        requires ready { IsReady D.told register }
        requires count { (register_value register).0 ≤ 2 ^ 48 }
        requires second { (register_value register).1 ≡ 0 }
        requires settled { Settled D.told (register_disk register) }
        requires stands { D.told.tells
            → StandsForRemoved (register_value register).0 (D.told.reading (register_disk register)) }
        ensures ready { IsHighReady D.told result }
        ensures disk { high_disk result ≡ register_disk register }
        ensures count { high_count result ≡ (register_value register).0 }
    {
        HighStore { register }
    }

    /// No call of the disk has failed. Once one has, `remove` may not be called.
    pub fn is_open(&self) -> bool
        ensures { result ≡ high_is_open self.now }
    {
        self.register.is_open()
    }

    /// The disk, with no further call.
    pub fn into_disk(self) -> D
        ensures { result ≡ high_disk self }
    {
        self.register.into_disk()
    }

    /// How many messages are removed.
    pub fn removed(&self) -> u64
        ensures { result ≡ high_count self.now }
    {
        self.register.value().0
    }

    /// Removes one message more, and gives how many are removed then.
    pub fn remove(&mut self) -> Result<u64, Device>
        requires ready { IsHighReady D.told self.old }
        requires below { high_count self.old < 2 ^ 48 }

        ensures number { IfOk result (λ n. n ≡ high_count self.old + 1) }
        ensures ready { OnOk result (IsHighReady D.told self.new) }
        ensures count { OnOk result (high_count self.new ≡ high_count self.old + 1) }

        // A crash at any moment leaves the count from before the call, or one more.
        ensures moves { Moves D.told MayRemove (high_disk self.old) (high_disk self.new) }
        ensures during { (row : SessionRow)
            → HighStands row (high_count self.old) (D.told.reading (high_disk self.old))
            → Leaves D.told (high_disk self.old) (high_disk self.new)
            (StandsOrRemoves row (high_count self.old)) }
        ensures removed { OnOk result (D.told.tells
            → Removes (D.told.reading (high_disk self.old)) (D.told.reading (high_disk self.new))) }

        ensures closed { OnErr result (high_is_open self.new ≡ false) }
        ensures answers { Answers D.told (removal_end self.old ≤ D.told.room (high_disk self.old))
            (high_disk self.old) (high_disk self.new) result }
        ensures device { IfErr result (λ e. e.faults ≡ D.told.count (high_disk self.new)) }
    {
        let number = self.register.value().0 + 1;
        self.register.stage(number, 0)?;
        self.register.commit()?;
        Ok(number)
    }
}

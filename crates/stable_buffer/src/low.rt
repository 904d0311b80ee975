// The store of the low process: the messages that it has accepted.
ghost use Rattle.std.specs.Prelude.{◌≡◌, ℕ, List, ◌+◌, ◌^◌, ◌<◌, ◌≤◌, false, length, IfOk, OnOk, OnErr, IfErr};
ghost use Rattle.disk_model.specs.Disk.{Moves, Settled, Leaves, Answers};
ghost use Rattle.pump_frame.specs.Rows.{IsLawfulRow};
ghost use Rattle.stable_buffer.specs.Low.{HasRanges};
ghost use Rattle.stable_buffer.specs.Stands.{slot_of, slot_end, low_size, InSlot, LowStands, CellStandsOn, MayGain};
ghost use Rattle.stable_buffer.specs.Stands.{Gains, StandsOrGains};

use crate::{Device, Register};
use disk_model::Disk;
use pump_frame::{Payload, SessionRow};

/// The messages that the low process has accepted, on its disk: the last of them, in a ring of slots.
#[derive(Drop)]
pub struct LowStore<D> {
    register: Register<D>,
    row: SessionRow,
}

/// Where message n stands on the low disk of a row, in bytes from its begin.
pub fn slot_place(row: &SessionRow, n: u64) -> u64
    requires ranges { HasRanges row.now }
    ensures place { result ≡ slot_of row.now n }
    ensures low { result ≤ 262736 }
{
    80 + n % row.capacity as u64 * (2 + row.message as u64)
}

impl<D: Disk> LowStore<D> {
    ghost use Rattle.std.specs.Borrow.{sem, Lends};
    ghost use Rattle.stable_buffer.specs.contracts.low.LowStore.{the_row};
    ghost use Rattle.stable_buffer.specs.Low.{IsLowReady, MayStore, KeepsMessages, HasRead, HasRanges, StandsForCount};
    ghost use Rattle.stable_buffer.specs.Low.{low_disk, low_with_disk};
    ghost use Rattle.stable_buffer.specs.Low.{low_made_coarse, low_count, low_row, low_is_open};
    ghost use Rattle.stable_buffer.specs.Register.{IsReady, register_disk, register_value};

    /// A store over a register, whose disk stands for a count of at most 2^48 and some messages.
    pub fn over(register: Register<D>, row: &SessionRow) -> LowStore<D>
        requires ready { IsReady D.told register }
        requires lawful { IsLawfulRow row.now }
        requires count { (register_value register).0 ≤ 2 ^ 48 }
        requires second { (register_value register).1 ≡ 0 }
        requires settled { Settled D.told (register_disk register) }
        requires stands { D.told.tells → StandsForCount row.now (register_value register).0
            (D.told.reading (register_disk register)) }
        ensures ready { IsLowReady D.told result }
        ensures disk { low_disk result ≡ register_disk register }
        ensures count { low_count result ≡ (register_value register).0 }
        ensures row { low_row result ≡ row.now }
    {
        LowStore {
            register,
            row: *row,
        }
    }

    /// No call of the disk has failed. Once one has, `store` and `slot` may not be called.
    pub fn is_open(&self) -> bool
        ensures { result ≡ low_is_open self.now }
    {
        self.register.is_open()
    }

    /// How often a call of the disk failed, up to the greatest u64.
    pub fn faults(&self) -> u64
        ensures { result ≡ D.told.count (low_disk self.now) }
    {
        self.register.faults()
    }

    /// The disk itself. Its bytes are the store's: once they are written through it, `store` and
    /// `slot` may not be called.
    pub fn disk(&mut self) -> &mut D
        ensures value { result.now ≡ low_disk self.old }
        ensures* writes_back { sem 𝓛 (Lends (the_row D.row) D.row self.entry result
            (λ disk. low_with_disk self.old disk)) }
    {
        self.register.disk()
    }

    /// The disk, with no further call.
    pub fn into_disk(self) -> D
        ensures { result ≡ low_disk self }
    {
        self.register.into_disk()
    }

    /// How many messages are accepted.
    pub fn accepted(&self) -> u64
        ensures { result ≡ low_count self.now }
    {
        self.register.value().0
    }

    /// Makes its row coarse. All else is as before, and no call of the disk is made.
    pub fn make_coarse(&mut self)
        ensures same { self.new ≡ low_made_coarse self.old }
        ensures ready { IsLowReady D.told self.old → IsLowReady D.told self.new }
    {
        self.row.coarse = true;
    }

    // Writes a message into its slot.
    fn write_slot(&mut self, payload: &Payload) -> Result<(), Device>
        requires ready { IsLowReady D.told self.old }
        requires fits { length payload.now ≤ (low_row self.old).message }

        ensures ready { OnOk result (IsReady D.told self.new.register) }
        ensures value { register_value self.new.register ≡ register_value self.old.register }
        ensures row { low_row self.new ≡ low_row self.old }
        ensures slot { OnOk result (D.told.tells → InSlot (low_row self.old) (low_count self.old)
            payload.now (D.told.reading (low_disk self.new))) }
        ensures moves { Moves D.told (CellStandsOn (low_row self.old)) (low_disk self.old) (low_disk self.new) }

        ensures closed { OnErr result (low_is_open self.new ≡ false) }
        ensures answers { Answers D.told
            (slot_end (low_row self.old) (low_count self.old) payload.now ≤ D.told.room (low_disk self.old))
            (low_disk self.old) (low_disk self.new) result }
        ensures device { IfErr result (λ e. e.faults ≡ D.told.count (low_disk self.new)) }
    {
        let number = self.register.value().0;
        let at = slot_place(&self.row, number);
        self.register.write_message(at, payload)
    }

    /// Stores a message, and gives its number.
    pub fn store(&mut self, payload: &Payload) -> Result<u64, Device>
        requires { MayStore D.told self.old payload.now }

        ensures number { IfOk result (λ n. n ≡ low_count self.old) }
        ensures ready { OnOk result (IsLowReady D.told self.new) }
        ensures count { OnOk result (low_count self.new ≡ low_count self.old + 1) }
        ensures row { low_row self.new ≡ low_row self.old }

        // A crash at any moment leaves the messages from before the call, with this one or without.
        ensures moves { Moves D.told (MayGain (low_row self.old) payload.now)
            (low_disk self.old) (low_disk self.new) }
        ensures during { (b : ℕ) (messages : List (List ℕ))
            → low_count self.old + 1 ≤ b + (low_row self.old).capacity
            → LowStands (low_row self.old) (low_count self.old) b messages
            (D.told.reading (low_disk self.old))
            → Leaves D.told (low_disk self.old) (low_disk self.new)
            (StandsOrGains (low_row self.old) (low_count self.old) b messages payload.now) }
        ensures gained { OnOk result (D.told.tells → Gains (low_row self.old) payload.now
            (D.told.reading (low_disk self.old)) (D.told.reading (low_disk self.new))) }

        ensures closed { OnErr result (low_is_open self.new ≡ false) }
        ensures answers { Answers D.told
            (slot_end (low_row self.old) (low_count self.old) payload.now ≤ D.told.room (low_disk self.old))
            (low_disk self.old) (low_disk self.new) result }
        ensures device { IfErr result (λ e. e.faults ≡ D.told.count (low_disk self.new)) }
    {
        let number = self.register.value().0;
        self.write_slot(payload)?;
        self.register.stage(number + 1, 0)?;
        self.register.commit()?;
        Ok(number)
    }

    /// The message in a slot, and its length. A length above the row's leaves `into` as it was.
    pub fn slot(&mut self, n: u64, into: &mut Payload) -> Result<u32, Device>
        requires ready { IsLowReady D.told self.old }
        requires stored { n < low_count self.old }
        requires kept { low_count self.old ≤ n + (low_row self.old).capacity }

        ensures read { IfOk result (λ length. HasRead D.told self.old n length into.old into.new) }
        ensures ready { OnOk result (IsLowReady D.told self.new) }
        ensures keeps { KeepsMessages D.told self.old self.new }

        ensures closed { OnErr result (low_is_open self.new ≡ false) }
        ensures answers { Answers D.told
            (low_size (low_row self.old) ≤ length (D.told.reading (low_disk self.old)))
            (low_disk self.old) (low_disk self.new) result }
        ensures device { IfErr result (λ e. e.faults ≡ D.told.count (low_disk self.new)) }
    {
        let at = slot_place(&self.row, n);
        let length = self.register.read_length(at)?;
        if length > self.row.message {
            return Ok(length);
        }
        let mut bytes = [0; 1024];
        self.register
            .read_beside(at + 2, &mut bytes[..length as usize])?;
        into.set(&bytes[..length as usize]);
        Ok(length)
    }
}

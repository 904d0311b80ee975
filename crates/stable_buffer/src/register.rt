// A register: two numbers on a disk, of which a change is whole or not at all.
ghost use Rattle.std.specs.Prelude.{◌≡◌, ◌⊎◌, ◌+◌, ◌^◌, ◌<◌, ◌≤◌, false, length, take, drop, IfOk, OnOk, OnErr, IfErr};
ghost use Rattle.disk_model.specs.Disk.{Moves, Same, Torn, IsWritten, Settled, Leaves, Answers};
ghost use Rattle.byteorder.specs.Endian.{big_bytes};
ghost use Rattle.stable_buffer.specs.Numbers.{length_at};
ghost use Rattle.stable_buffer.specs.Stands.{spelled};

use crate::Device;
use crate::bytes::{cell_of, read_length, read_number, spell};
use crate::device::{write, write_and_sync};
use disk_model::{Disk, DiskFault};
use pump_frame::Payload;

/// Two numbers on bytes 32 to 79 of a disk: a selector, and two cells of which it selects one. A
/// change of them is whole or not at all, whenever a crash comes.
#[derive(Drop)]
pub struct Register<D> {
    disk: D,
    parity: u8,
    first: u64,
    second: u64,
    next_first: u64,
    next_second: u64,
    is_open: bool,
}

fn sync_and_read<D: Disk>(disk: &mut D, at: u64, into: &mut [u8]) -> Result<(), DiskFault>
    ensures within { OnOk result (D.told.tells
        → at + length into.old ≤ length (D.told.reading disk.old)) }
    ensures bytes { OnOk result (D.told.tells
        → into.new ≡ take (length into.old) (drop at (D.told.reading disk.old))) }
    ensures size { length into.new ≡ length into.old }
    ensures settled { OnOk result (Settled D.told disk.new) }
    ensures moves { Moves D.told Same disk.old disk.new }
    ensures answers { Answers D.told (at + length into.old ≤ length (D.told.reading disk.old))
        disk.old disk.new result }
{
    disk.sync()?;
    disk.read(at, into)?;
    Ok(())
}

impl<D: Disk> Register<D> {
    ghost use Rattle.std.specs.Borrow.{sem, Lends};
    ghost use Rattle.stable_buffer.specs.contracts.register.Register.{the_row};
    ghost use Rattle.stable_buffer.specs.Register.{IsReady, IsStaged, KeepsValue, MayTurnTo, register_disk};
    ghost use Rattle.stable_buffer.specs.Register.{register_value, register_is_open, staged_value, staging_end};
    ghost use Rattle.stable_buffer.specs.Register.{with_disk, value_of, disk_of};

    /// Syncs the disk, and finds what its register holds. Where a call of the disk fails, the disk
    /// comes back.
    pub fn open(mut disk: D) -> Result<Register<D>, (D, DiskFault)>
        ensures ready { IfOk result (λ register. IsReady D.told register) }
        ensures settled { IfOk result (λ register. Settled D.told (register_disk register)) }
        ensures found { IfOk result (λ register. D.told.tells
            → register_value register ≡ value_of (D.told.reading disk)) }
        ensures moves { Moves D.told Same disk (disk_of result) }
        ensures answers { Answers D.told (80 ≤ length (D.told.reading disk))
            disk (disk_of result) result }
    {
        let mut area = [0; 48];
        if let Err(fault) = sync_and_read(&mut disk, 32, &mut area) {
            return Err((disk, fault));
        }
        let parity = area[0] % 2;
        let cell = 16 + 16 * parity as usize;
        let first = read_number(&area, cell);
        let second = read_number(&area, cell + 8);
        Ok(Register {
            disk,
            parity,
            first,
            second,
            next_first: first,
            next_second: second,
            is_open: true,
        })
    }

    /// The two numbers that it holds.
    pub fn value(&self) -> (u64, u64)
        ensures { result ≡ register_value self.now }
    {
        (self.first, self.second)
    }

    /// Writes the cell that isn't selected, and syncs.
    pub fn stage(&mut self, first: u64, second: u64) -> Result<(), Device>
        requires { IsReady D.told self.old }

        ensures staged { OnOk result (IsStaged D.told self.new) }
        ensures next { OnOk result (staged_value self.new ≡ (first, second)) }
        ensures settled { OnOk result (Settled D.told (register_disk self.new)) }
        ensures value { register_value self.new ≡ register_value self.old }

        // A crash at any moment leaves the value from before the call.
        ensures moves { Moves D.told KeepsValue (register_disk self.old) (register_disk self.new) }
        ensures during { Leaves D.told (register_disk self.old) (register_disk self.new)
            (λ image. value_of image ≡ register_value self.old) }

        ensures closed { OnErr result (register_is_open self.new ≡ false) }
        ensures answers { Answers D.told (staging_end self.old ≤ D.told.room (register_disk self.old))
            (register_disk self.old) (register_disk self.new) result }
        ensures device { IfErr result (λ e. e.faults ≡ D.told.count (register_disk self.new)) }
    {
        let at = 48 + 16 * (1 - self.parity as u64);
        let cell = cell_of(first, second);
        if let Err(device) = write_and_sync(&mut self.disk, at, &cell) {
            self.is_open = false;
            return Err(device);
        }
        self.next_first = first;
        self.next_second = second;
        Ok(())
    }

    /// Selects the cell that was staged, and syncs.
    pub fn commit(&mut self) -> Result<(), Device>
        requires { IsStaged D.told self.old }

        ensures ready { OnOk result (IsReady D.told self.new) }
        ensures settled { OnOk result (Settled D.told (register_disk self.new)) }
        ensures value { OnOk result (register_value self.new ≡ staged_value self.old) }
        ensures value_err { OnErr result (register_value self.new ≡ register_value self.old) }

        // A crash at any moment leaves the value from before the call, or the one that was staged.
        ensures moves { Moves D.told (MayTurnTo (staged_value self.old))
            (register_disk self.old) (register_disk self.new) }
        ensures during { Leaves D.told (register_disk self.old) (register_disk self.new)
            (λ image. (value_of image ≡ register_value self.old)
            ⊎ (value_of image ≡ staged_value self.old)) }

        ensures closed { OnErr result (register_is_open self.new ≡ false) }
        ensures answers { Answers D.told (33 ≤ D.told.room (register_disk self.old))
            (register_disk self.old) (register_disk self.new) result }
        ensures device { IfErr result (λ e. e.faults ≡ D.told.count (register_disk self.new)) }
    {
        let parity = 1 - self.parity;
        if let Err(device) = write_and_sync(&mut self.disk, 32, &[parity]) {
            self.is_open = false;
            return Err(device);
        }
        self.parity = parity;
        self.first = self.next_first;
        self.second = self.next_second;
        Ok(())
    }

    /// No call of the disk has failed. Once one has, nothing may be staged, committed, written or
    /// read.
    pub fn is_open(&self) -> bool
        ensures { result ≡ register_is_open self.now }
    {
        self.is_open
    }

    /// How often a call of the disk failed, up to the greatest u64.
    pub fn faults(&self) -> u64
        ensures { result ≡ D.told.count (register_disk self.now) }
    {
        self.disk.faults()
    }

    // Writes a message beside the register, spelled in a room of so many bytes.
    fn write_spelled<const N: usize>(&mut self, at: u64, message: &Payload) -> Result<(), Device>
        requires ready { IsReady D.told self.old }
        requires beside { 80 ≤ at }
        requires within { D.told.tells → at ≤ length (D.told.reading (register_disk self.old)) }
        requires room { (2 + length message.now ≤ N) × (N ≤ 1026) }

        ensures ready { OnOk result (IsReady D.told self.new) }
        ensures value { register_value self.new ≡ register_value self.old }
        ensures written { OnOk result (D.told.tells → IsWritten (D.told.reading (register_disk self.old))
            at (spelled message.now) (D.told.reading (register_disk self.new))) }
        ensures moves { Moves D.told (Torn at (2 + length message.now))
            (register_disk self.old) (register_disk self.new) }

        ensures closed { OnErr result (register_is_open self.new ≡ false) }
        ensures answers { Answers D.told
            (at + 2 + length message.now ≤ D.told.room (register_disk self.old))
            (register_disk self.old) (register_disk self.new) result }
        ensures device { IfErr result (λ e. e.faults ≡ D.told.count (register_disk self.new)) }
    {
        let mut record = [0; N];
        spell(message, &mut record);
        if let Err(device) = write(&mut self.disk, at, &record[..2 + message.len() as usize]) {
            self.is_open = false;
            return Err(device);
        }
        Ok(())
    }

    /// Writes a message beside the register: its length in two bytes, then its bytes.
    pub fn write_message(&mut self, at: u64, message: &Payload) -> Result<(), Device>
        requires ready { IsReady D.told self.old }
        requires beside { 80 ≤ at }
        requires within { D.told.tells → at ≤ length (D.told.reading (register_disk self.old)) }

        ensures ready { OnOk result (IsReady D.told self.new) }
        ensures value { register_value self.new ≡ register_value self.old }
        ensures written { OnOk result (D.told.tells → IsWritten (D.told.reading (register_disk self.old))
            at (spelled message.now) (D.told.reading (register_disk self.new))) }
        ensures moves { Moves D.told (Torn at (2 + length message.now))
            (register_disk self.old) (register_disk self.new) }

        ensures closed { OnErr result (register_is_open self.new ≡ false) }
        ensures answers { Answers D.told
            (at + 2 + length message.now ≤ D.told.room (register_disk self.old))
            (register_disk self.old) (register_disk self.new) result }
        ensures device { IfErr result (λ e. e.faults ≡ D.told.count (register_disk self.new)) }
    {
        // The room is zeroed first, so a short message gets a short one.
        if message.len() <= 126 {
            self.write_spelled::<128>(at, message)
        } else {
            self.write_spelled::<1026>(at, message)
        }
    }

    /// The length of the message that stands beside the register.
    pub fn read_length(&mut self, at: u64) -> Result<u32, Device>
        requires ready { IsReady D.told self.old }

        ensures ready { OnOk result (IsReady D.told self.new) }
        ensures value { register_value self.new ≡ register_value self.old }
        ensures length { IfOk result (λ l. D.told.tells
            → l ≡ length_at (D.told.reading (register_disk self.old)) at) }
        ensures spells { IfOk result (λ l. D.told.tells
            → big_bytes 2 l ≡ take 2 (drop at (D.told.reading (register_disk self.old)))) }
        ensures small { IfOk result (λ l. l < 2 ^ 16) }
        ensures moves { Moves D.told Same (register_disk self.old) (register_disk self.new) }

        ensures closed { OnErr result (register_is_open self.new ≡ false) }
        ensures answers { Answers D.told
            (at + 2 ≤ length (D.told.reading (register_disk self.old)))
            (register_disk self.old) (register_disk self.new) result }
        ensures device { IfErr result (λ e. e.faults ≡ D.told.count (register_disk self.new)) }
    {
        let mut head = [0; 2];
        self.read_beside(at, &mut head)?;
        let length = read_length(&head);
        Ok(length)
    }

    /// The bytes from an offset on. Where they end past the disk, its call fails.
    pub fn read_beside(&mut self, at: u64, into: &mut [u8]) -> Result<(), Device>
        requires ready { IsReady D.told self.old }

        ensures ready { OnOk result (IsReady D.told self.new) }
        ensures value { register_value self.new ≡ register_value self.old }
        ensures size { length into.new ≡ length into.old }
        ensures within { OnOk result (D.told.tells
            → at + length into.old ≤ length (D.told.reading (register_disk self.old))) }
        ensures bytes { OnOk result (D.told.tells → into.new
            ≡ take (length into.old) (drop at (D.told.reading (register_disk self.old)))) }
        ensures moves { Moves D.told Same (register_disk self.old) (register_disk self.new) }

        ensures closed { OnErr result (register_is_open self.new ≡ false) }
        ensures answers { Answers D.told
            (at + length into.old ≤ length (D.told.reading (register_disk self.old)))
            (register_disk self.old) (register_disk self.new) result }
        ensures device { IfErr result (λ e. e.faults ≡ D.told.count (register_disk self.new)) }
    {
        if let Err(DiskFault) = self.disk.read(at, into) {
            self.is_open = false;
            return Err(Device {
                faults: self.disk.faults(),
            });
        }
        Ok(())
    }

    /// The disk itself. Its bytes 32 to 79 are the register's: once they are written through it,
    /// nothing may be staged, committed, written or read.
    pub fn disk(&mut self) -> &mut D
        ensures value { result.now ≡ register_disk self.old }
        ensures* writes_back { sem 𝓛 (Lends (the_row D.row) D.row self.entry result
            (λ disk. with_disk self.old disk)) }
    {
        &mut self.disk
    }

    /// The disk, with no further call.
    pub fn into_disk(self) -> D
        ensures { result ≡ register_disk self }
    {
        self.disk
    }
}

// High's receiver over its disk.
ghost use Rattle.std.specs.Prelude.{◌≡◌, ◌+◌, ◌^◌, ◌<◌, ◌≤◌, ℕ, List, None, true, false, ⊤, [], length, take, drop};
ghost use Rattle.std.specs.Prelude.{slice_index_or, IfSome, IfOk, OnOk, OnErr, IfErr};
ghost use Rattle.disk_model.specs.Disk.{Moves, Same, Settled, Leaves, Answers};
ghost use Rattle.pump_frame.specs.Rows.{IsLawfulRow};
ghost use Rattle.stable_buffer.specs.Log.{RecvStands};

use crate::reading::{read_message, read_record};
use crate::{LogReader, TakeFault, Taken};
use disk_model::Disk;
use pump_frame::{Payload, SessionRow};
use stable_buffer::{Device, Register};

/// The messages that high has taken, on its disk: one record after another from byte 80, and a
/// register that holds their number and where they end.
#[derive(Drop)]
pub struct Receiver<D> {
    register: Register<D>,
    row: SessionRow,
    size: u64,
    is_open: bool,
}

impl<D: Disk> Receiver<D> {
    ghost use Rattle.stable_buffer.specs.Register.{IsReady, register_disk, register_value};
    ghost use Rattle.high_receiver.specs.Steps.{MayTake, TakesMessage, StandsOrTakes};
    ghost use Rattle.high_receiver.specs.LogReading.{IsReading, given_count};
    ghost use Rattle.high_receiver.specs.Receiving.{HasWritten, IsRecordAt, IsRecvReady, KeepsLog, MayFill};
    ghost use Rattle.high_receiver.specs.Receiving.{StandsForSome, Stores};
    ghost use Rattle.high_receiver.specs.Receiving.{answer_at_once, is_device, recv_disk, recv_count, recv_end};
    ghost use Rattle.high_receiver.specs.Receiving.{recv_row, recv_size, recv_made_coarse, recv_is_open};

    /// A receiver over a register, whose disk stands for a list of at most 2^48 messages, and has
    /// `size` bytes to fill.
    pub fn over(register: Register<D>, row: &SessionRow, size: u64) -> Receiver<D>
        requires ready { IsReady D.told register }
        requires lawful { IsLawfulRow row.now }
        requires count { (register_value register).0 ≤ 2 ^ 48 }
        requires from { 80 ≤ (register_value register).1 }
        requires within { (register_value register).1 ≤ size }
        requires settled { Settled D.told (register_disk register) }
        requires stands { D.told.tells → StandsForSome row.now
            (D.told.reading (register_disk register)) }
        ensures ready { IsRecvReady D.told result }
        ensures disk { recv_disk result ≡ register_disk register }
        ensures count { recv_count result ≡ (register_value register).0 }
        ensures end { recv_end result ≡ (register_value register).1 }
        ensures row { recv_row result ≡ row.now }
        ensures size { recv_size result ≡ size }
    {
        Receiver {
            register,
            row: *row,
            size,
            is_open: true,
        }
    }

    /// No call of the disk has failed. Once one has, `take` and `message` may not be called.
    pub fn is_open(&self) -> bool
        ensures { result ≡ recv_is_open self.now }
    {
        self.is_open
    }

    /// The disk, with no further call.
    pub fn into_disk(self) -> D
        ensures { result ≡ recv_disk self }
    {
        self.register.into_disk()
    }

    /// How many messages are taken.
    pub fn count(&self) -> u64
        ensures { result ≡ recv_count self.now }
    {
        self.register.value().0
    }

    /// Where their records end: the offset of the next one.
    pub fn end(&self) -> u64
        ensures { result ≡ recv_end self.now }
    {
        self.register.value().1
    }

    // The greatest length of a message of its row.
    pub(crate) fn most(&self) -> u32
        ensures { result ≡ (recv_row self.now).message }
    {
        self.row.message
    }

    /// Makes its row coarse. All else is as before, and no call of the disk is made.
    pub fn make_coarse(&mut self)
        ensures same { self.new ≡ recv_made_coarse self.old }
        ensures ready { IsRecvReady D.told self.old → IsRecvReady D.told self.new }
    {
        self.row.coarse = true;
    }

    // What a message of this number and length is answered where it isn't to be stored.
    fn answer_at_once(&self, number: u64, length: u32) -> Option<Result<Taken, TakeFault>>
        requires within { recv_end self.now ≤ recv_size self.now }
        requires short { length ≤ 1024 }
        ensures answer { result ≡ answer_at_once (recv_count self.now) (recv_end self.now)
            (recv_size self.now) number length }
        ensures no_device { IfSome result (λ answer. is_device answer ≡ false) }
    {
        let (count, end) = self.register.value();
        if number < count {
            return Some(Ok(Taken::Repeat));
        }
        if number > count {
            return Some(Err(TakeFault::Ahead { number, count }));
        }
        // The end of the message itself may be no u64.
        if self.size - end < 2 + length as u64 {
            return Some(Err(TakeFault::LogFull {
                end,
                length,
                size: self.size,
            }));
        }
        None
    }

    // Writes a message at the end, and turns the register to it.
    fn write(&mut self, payload: &Payload) -> Result<(), Device>
        requires ready { IsRecvReady D.told self.old }
        requires fits { length payload.now ≤ (recv_row self.old).message }
        requires below { recv_count self.old < 2 ^ 48 }
        requires room { recv_end self.old + 2 + length payload.now ≤ recv_size self.old }

        ensures written { OnOk result (HasWritten D.told payload.now self.old self.new) }
        ensures row { recv_row self.new ≡ recv_row self.old }
        ensures size { recv_size self.new ≡ recv_size self.old }
        ensures open { recv_is_open self.new ≡ recv_is_open self.old }

        ensures moves { Moves D.told (MayTake (recv_row self.old) payload.now)
            (recv_disk self.old) (recv_disk self.new) }
        ensures during { (messages : List (List ℕ))
            → RecvStands (recv_row self.old) messages (D.told.reading (recv_disk self.old))
            → Leaves D.told (recv_disk self.old) (recv_disk self.new)
            (StandsOrTakes (recv_row self.old) messages payload.now) }

        ensures answers { Answers D.told
            (recv_end self.old + 2 + length payload.now ≤ D.told.room (recv_disk self.old))
            (recv_disk self.old) (recv_disk self.new) result }
        ensures device { IfErr result (λ e. e.faults ≡ D.told.count (recv_disk self.new)) }
    {
        let (count, end) = self.register.value();
        let length = payload.len();
        self.register.write_message(end, payload)?;
        self.register.stage(count + 1, end + 2 + length as u64)?;
        self.register.commit()?;
        Ok(())
    }

    fn store(&mut self, payload: &Payload) -> Result<Taken, TakeFault>
        requires ready { IsRecvReady D.told self.old }
        requires fits { length payload.now ≤ (recv_row self.old).message }
        requires below { recv_count self.old < 2 ^ 48 }
        requires room { recv_end self.old + 2 + length payload.now ≤ recv_size self.old }
        ensures stores { Stores D.told payload.now self.old self.new result }
        ensures ready { is_device result ≡ false → IsRecvReady D.told self.new }
        ensures closed { is_device result ≡ true → recv_is_open self.new ≡ false }
        ensures row { recv_row self.new ≡ recv_row self.old }
        ensures size { recv_size self.new ≡ recv_size self.old }
    {
        match self.write(payload) {
            Ok(()) => Ok(Taken::Took),
            Err(device) => {
                self.is_open = false;
                Err(TakeFault::Device {
                    faults: device.faults,
                })
            }
        }
    }

    /// Takes a message where it is the next one. A number below the count is a repeat, one above it
    /// is ahead, and a message that would end past the size makes the log full: these change nothing.
    /// After `Device` the disk must be opened again.
    pub fn take(&mut self, number: u64, payload: &Payload) -> Result<Taken, TakeFault>
        requires ready { IsRecvReady D.told self.old }
        requires number { number < 2 ^ 48 }
        requires fits { length payload.now ≤ (recv_row self.old).message }
        ensures at_once { IfSome (answer_at_once (recv_count self.old) (recv_end self.old)
            (recv_size self.old) number (length payload.now)) (λ answer. result ≡ answer) }
        ensures unchanged { IfSome (answer_at_once (recv_count self.old) (recv_end self.old)
            (recv_size self.old) number (length payload.now)) (λ answer. self.new ≡ self.old) }
        ensures stores { answer_at_once (recv_count self.old) (recv_end self.old)
            (recv_size self.old) number (length payload.now) ≡ None
            → Stores D.told payload.now self.old self.new result }
        ensures ready { is_device result ≡ false → IsRecvReady D.told self.new }
        ensures closed { is_device result ≡ true → recv_is_open self.new ≡ false }
        ensures row { recv_row self.new ≡ recv_row self.old }
        ensures size { recv_size self.new ≡ recv_size self.old }
    {
        match self.answer_at_once(number, payload.len()) {
            Some(answer) => answer,
            None => self.store(payload),
        }
    }

    /// Message `n`, as the disk stands for it. On a disk that tells nothing `into` has at most as many
    /// bytes as a message of the row, or stays as it was. It stays where a call of the disk fails.
    pub fn message(&mut self, n: u64, into: &mut Payload) -> Result<(), Device>
        requires ready { IsRecvReady D.told self.old }
        requires taken { n < recv_count self.old }

        ensures message { OnOk result (D.told.tells → (messages : List (List ℕ))
            → RecvStands (recv_row self.old) messages (D.told.reading (recv_disk self.old))
            → into.new ≡ slice_index_or messages n []) }
        ensures fills { MayFill (recv_row self.old).message into.old into.new result }
        ensures ready { OnOk result (IsRecvReady D.told self.new) }
        ensures keeps { KeepsLog D.told self.old self.new }

        ensures closed { OnErr result (recv_is_open self.new ≡ false) }
        ensures answers { Answers D.told ⊤ (recv_disk self.old) (recv_disk self.new) result }
        ensures device { IfErr result (λ e. e.faults ≡ D.told.count (recv_disk self.new)) }
    {
        match read_message(&mut self.register, n, self.row.message, into) {
            Ok(()) => Ok(()),
            Err(device) => {
                self.is_open = false;
                Err(device)
            }
        }
    }

    /// The message of record `n`, which stands at the offset `at`, and the offset of the record after
    /// it. Record 0 stands at 80. On a disk that tells nothing `into` has at most as many bytes as a
    /// message of the row, or stays as it was. It stays where a call of the disk fails.
    pub fn at(&mut self, n: u64, at: u64, into: &mut Payload) -> Result<u64, Device>
        requires ready { IsRecvReady D.told self.old }
        requires taken { n < recv_count self.old }
        requires place { IsRecordAt D.told self.old n at }

        ensures message { OnOk result (D.told.tells → (messages : List (List ℕ))
            → RecvStands (recv_row self.old) messages (D.told.reading (recv_disk self.old))
            → into.new ≡ slice_index_or messages n []) }
        ensures fills { MayFill (recv_row self.old).message into.old into.new result }
        ensures next { IfOk result (λ next. IsRecordAt D.told self.new (n + 1) next) }
        ensures ready { OnOk result (IsRecvReady D.told self.new) }
        ensures keeps { KeepsLog D.told self.old self.new }

        ensures closed { OnErr result (recv_is_open self.new ≡ false) }
        ensures answers { Answers D.told ⊤ (recv_disk self.old) (recv_disk self.new) result }
        ensures device { IfErr result (λ e. e.faults ≡ D.told.count (recv_disk self.new)) }
    {
        match read_record(&mut self.register, at, self.row.message, into) {
            Ok(next) => Ok(next),
            Err(device) => {
                self.is_open = false;
                Err(device)
            }
        }
    }

    /// A reader of its messages, from the first on.
    pub fn reader(&self) -> LogReader
        requires ready { IsRecvReady D.told self.now }
        ensures reading { IsReading D.told self.now result }
        ensures given { given_count result ≡ 0 }
    {
        LogReader::new()
    }

    // The bytes of the log from an offset on.
    pub(crate) fn read_log(&mut self, at: u64, into: &mut [u8]) -> Result<(), Device>
        requires ready { IsRecvReady D.told self.old }
        requires within { at + length into.old ≤ recv_end self.old }

        ensures bytes { OnOk result (D.told.tells → into.new
            ≡ take (length into.old) (drop at (D.told.reading (recv_disk self.old)))) }
        ensures length { length into.new ≡ length into.old }
        ensures ready { OnOk result (IsRecvReady D.told self.new) }
        ensures keeps { KeepsLog D.told self.old self.new }

        ensures closed { OnErr result (recv_is_open self.new ≡ false) }
        ensures answers { Answers D.told ⊤ (recv_disk self.old) (recv_disk self.new) result }
        ensures device { IfErr result (λ e. e.faults ≡ D.told.count (recv_disk self.new)) }
    {
        match self.register.read_beside(at, into) {
            Ok(()) => Ok(()),
            Err(device) => {
                self.is_open = false;
                Err(device)
            }
        }
    }
}

// A reader that gives a receiver's messages in order.
ghost use Rattle.std.specs.Prelude.{◌≡◌, ◌+◌, ◌≤◌, ◌<◌, ◌^◌, ℕ, List, None, false, ⊤, [], length, slice_index_or};
ghost use Rattle.std.specs.Prelude.{IfSome, OnOk, OnErr, IfErr};
ghost use Rattle.disk_model.specs.Disk.{Answers};
ghost use Rattle.stable_buffer.specs.Log.{RecvStands};
ghost use Rattle.stable_buffer.specs.Numbers.{length_at};
ghost use Rattle.high_receiver.specs.Receiving.{IsRecvReady, recv_count, recv_disk, recv_end, recv_is_open, recv_row};
ghost use Rattle.high_receiver.specs.Receiving.{KeepsLog};
ghost use Rattle.high_receiver.specs.LogReading.{IsInBlock, IsReading, IsNew, HasFilled, HasStepped, MayAnswer};
ghost use Rattle.high_receiver.specs.LogReading.{given_count, given_message};

use crate::Receiver;
use byteorder::{BigEndian, ByteOrder};
use disk_model::Disk;
use stable_buffer::Device;

/// How many bytes of a log are read at once. The longest record has 1,026.
const BLOCK: usize = 65536;

/// Gives the messages of a receiver in order; [`Receiver::reader`] makes it. It reads the log by blocks
/// of 64 KB, and gives a message where it stands in its block.
#[derive(Drop)]
pub struct LogReader {
    block: [u8; BLOCK],
    // Where the block begins on the disk, and how many bytes of it are there.
    start: u64,
    filled: usize,
    // The part of the block that is the message given last. The next record stands behind it.
    from: usize,
    until: usize,
    // How many messages were given.
    count: u64,
}

impl LogReader {
    // A reader that has given no message, and holds nothing of the log.
    pub(crate) fn new() -> LogReader
        ensures { IsNew result }
    {
        LogReader {
            block: [0; BLOCK],
            start: 80,
            filled: 0,
            from: 0,
            until: 0,
            count: 0,
        }
    }

    /// The message that the last `advance` went on to.
    pub fn message(&self) -> &[u8]
        requires block { IsInBlock self.now }
        ensures message { result.now ≡ given_message self.now }
        ensures short { length result.now ≤ 1024 }
    {
        &self.block[self.from..self.until]
    }

    // The length of the next message, of `most` bytes at most, where its whole record is in the block.
    #[tactic(auto, unfolding(stable_buffer::specs::Numbers::length_at))]
    fn next_length(&self, most: u32) -> Option<usize>
        requires block { IsInBlock self.now }
        ensures some { IfSome result (λ l. (l ≡ length_at self.now.block self.now.until) × (l ≤ most)
            × (self.now.until + (2 + l) ≤ self.now.filled)) }
        ensures none { result ≡ None → length_at self.now.block self.now.until ≤ most
            → self.now.until + (2 + length_at self.now.block self.now.until) ≤ self.now.filled → ⊥ }
    {
        let held = self.filled - self.until;
        if held < 2 {
            return None;
        }
        let length = BigEndian::read_u16(&self.block[self.until..]) as usize;
        if length > most as usize || held - 2 < length {
            return None;
        }
        Some(length)
    }

    // Reads the log from the next record on.
    fn fill<D: Disk>(&mut self, receiver: &mut Receiver<D>) -> Result<(), Device>
        requires ready { IsRecvReady D.told receiver.old }
        requires reading { IsReading D.told receiver.old self.old }

        ensures reading { OnOk result (IsReading D.told receiver.new self.new) }
        ensures filled { OnOk result (HasFilled receiver.old self.old self.new) }
        ensures ready { OnOk result (IsRecvReady D.told receiver.new) }
        ensures keeps { KeepsLog D.told receiver.old receiver.new }

        ensures closed { OnErr result (recv_is_open receiver.new ≡ false) }
        ensures answers { Answers D.told ⊤ (recv_disk receiver.old) (recv_disk receiver.new) result }
        ensures device { IfErr result (λ e. e.faults ≡ D.told.count (recv_disk receiver.new)) }
    {
        let start = self.start + self.until as u64;
        let filled = (receiver.end() - start).min(BLOCK as u64) as usize;
        receiver.read_log(start, &mut self.block[..filled])?;
        self.start = start;
        self.filled = filled;
        self.from = 0;
        self.until = 0;
        Ok(())
    }

    // Goes on to the next message in the block, which has `most` bytes at most. Where its record is
    // not whole there, the message is empty.
    fn step(&mut self, most: u32)
        requires block { IsInBlock self.old }
        requires few { given_count self.old < 2 ^ 48 }
        requires short { most ≤ 1024 }
        ensures block { IsInBlock self.new }
        ensures steps { HasStepped most self.old self.new }
    {
        match self.next_length(most) {
            Some(length) => {
                self.from = self.until + 2;
                self.until = self.from + length;
            }
            None => {
                self.from = self.filled;
                self.until = self.filled;
            }
        }
        self.count += 1;
    }

    /// Goes on to the receiver's next message, which on any disk has at most as many bytes as a message
    /// of the row. `Device` comes only where a call of the disk failed, after which the receiver must be
    /// opened again.
    pub fn advance<D: Disk>(&mut self, receiver: &mut Receiver<D>) -> Result<(), Device>
        requires ready { IsRecvReady D.told receiver.old }
        requires reading { IsReading D.told receiver.old self.old }
        requires more { given_count self.old < recv_count receiver.old }

        ensures message { OnOk result (D.told.tells → (messages : List (List ℕ))
            → RecvStands (recv_row receiver.old) messages (D.told.reading (recv_disk receiver.old))
            → given_message self.new ≡ slice_index_or messages (given_count self.old) []) }
        ensures short { OnOk result (length (given_message self.new) ≤ (recv_row receiver.old).message) }
        ensures given { OnOk result (given_count self.new ≡ given_count self.old + 1) }
        ensures reading { OnOk result (IsReading D.told receiver.new self.new) }
        ensures ready { OnOk result (IsRecvReady D.told receiver.new) }
        ensures keeps { KeepsLog D.told receiver.old receiver.new }

        ensures closed { OnErr result (recv_is_open receiver.new ≡ false) }
        ensures answers { MayAnswer D.told (recv_disk receiver.old) (recv_disk receiver.new) result }
        ensures device { IfErr result (λ e. e.faults ≡ D.told.count (recv_disk receiver.new)) }
    {
        // A record that is longer than any message is none, and its message is empty.
        let most = receiver.most();
        if self.next_length(most).is_none() {
            self.fill(receiver)?;
        }
        self.step(most);
        Ok(())
    }
}

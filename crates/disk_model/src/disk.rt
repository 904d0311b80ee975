// The calls of a disk, and what they promise.
ghost use Rattle.std.specs.Prelude.{◌≡◌, ◌+◌, ◌≤◌, length, take, drop, OnOk, IfOk, OnErr, ⊤};
ghost use Rattle.disk_model.specs.Disk.{Meaning, Moves, Same, Torn, IsWritten, Settled, KeepsImages, Answers};
ghost use Rattle.disk_model.specs.Disk.{FailsPast};

/// A call of a disk failed; its count rose, or stands at its greatest value.
#[derive(Clone, Copy, Debug, PartialEq, Eq)]
pub struct DiskFault;

/// Bytes that outlive a crash. Between two syncs each range that was written, and the part past the
/// old end, may hold any bytes after a crash; bytes outside stay. A write that fails counts as
/// written: a read may then give any bytes in its range, and the size lies between the old one and
/// that which the write would have given. Any other call that fails changes nothing.
pub trait Disk {
    /// What the disk tells of itself: its readings, what a crash may leave, when calls fail. Each of
    /// the three is optional.
    ghost told: { Meaning Self };

    /// The number of bytes.
    fn size(&mut self) -> Result<u64, DiskFault>
        ensures size { IfOk result (λ n. told.tells → n ≡ length (told.reading self.new)) }
        ensures moves { Moves told Same self.old self.new }
        ensures images { KeepsImages told self.old self.new }
        ensures answers { Answers told ⊤ self.old self.new result };

    /// The bytes from an offset on. A read past the size fails.
    fn read(&mut self, at: u64, into: &mut [u8]) -> Result<(), DiskFault>
        ensures within { OnOk result (told.tells
            → at + length into.old ≤ length (told.reading self.old)) }
        ensures bytes { OnOk result (told.tells
            → into.new ≡ take (length into.old) (drop at (told.reading self.old))) }
        ensures moves { Moves told Same self.old self.new }
        ensures images { KeepsImages told self.old self.new }
        ensures answers { Answers told (at + length into.old ≤ length (told.reading self.old))
            self.old self.new result }
        ensures past { FailsPast told (length (told.reading self.old)) (at + length into.old) result };

    /// Writes over what is there, and grows the disk where it reaches past the end. Until a sync a
    /// crash may leave any bytes in the range.
    fn write_at(&mut self, at: u64, bytes: &[u8]) -> Result<(), DiskFault>
        requires { told.tells → at ≤ length (told.reading self.old) }
        ensures written { OnOk result (told.tells
            → IsWritten (told.reading self.old) at bytes.now (told.reading self.new)) }
        ensures moves { Moves told (Torn at (length bytes.now)) self.old self.new }
        ensures answers { Answers told (at + length bytes.now ≤ told.room self.old)
            self.old self.new result }
        ensures past { FailsPast told (told.room self.old) (at + length bytes.now) result };

    /// After it a crash leaves what a read gives.
    fn sync(&mut self) -> Result<(), DiskFault>
        ensures durable { OnOk result (Settled told self.new) }
        ensures moves { Moves told Same self.old self.new }
        ensures images_err { OnErr result (KeepsImages told self.old self.new) }
        ensures answers { Answers told ⊤ self.old self.new result };

    /// How often a call failed, up to the greatest u64.
    fn faults(&self) -> u64
        ensures { result ≡ told.count self.now };
}

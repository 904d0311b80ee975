// The calls of a shelf, and what they promise.
ghost use Rattle.std.specs.Prelude.{◌≡◌, ◌≤◌, Some, IfOk, OnErr};
ghost use Rattle.disk_model.specs.Shelf.{Holdings, Out, OnShelf, IsOut, FailsBy, LeavesOthers, ReadsFile};
ghost use Rattle.disk_model.specs.Shelf.{reading_given, count_when_back};

use crate::disk::Disk;
use crate::name::DiskName;

/// Why a call of a shelf gives nothing.
#[derive(Clone, Copy, Debug, PartialEq, Eq)]
pub enum ShelfFault {
    /// It failed, and its count rose, or stands at its greatest value.
    Failed,
    /// There was no memory for it.
    Memory,
}

/// Disks, each under its name, and files. A disk is taken off the shelf to work with it, and put
/// back. Each call leaves all other disks, and every file, as they were.
pub trait Shelf {
    type Disk: Disk;

    /// What the shelf tells of itself.
    ghost told: { Holdings Self };

    /// The length of a file in bytes. As much of the file as fits goes to the start of `into`; what
    /// is beyond it there stays. It answers `Failed` only where `faults` rose.
    fn whole(&mut self, name: &str, into: &mut [u8]) -> Result<u64, ShelfFault>
        ensures reads { IfOk result (λ n. told.tells
            → ReadsFile (told.file self.old name.now) into.old into.new n) }
        ensures disks { told.disk self.new ≡ told.disk self.old }
        ensures files { told.file self.new ≡ told.file self.old }
        ensures cause { FailsBy (told.faults self.old) (told.faults self.new) result }
        ensures disk_faults { told.disk_faults self.new ≡ told.disk_faults self.old };

    /// Takes a disk off the shelf; one that the shelf never had is new, and has size 0. It answers
    /// `Failed` only where `disk_faults` rose, and then takes none.
    fn disk(&mut self, name: DiskName) -> Result<Self::Disk, ShelfFault>
        ensures reads { IfOk result (λ disk. told.tells
            → reading_given (told.disk self.old name) ≡ Some (Self.Disk.told.reading disk)) }
        ensures out { IfOk result (λ disk. told.disk self.new name
            ≡ Out (Self.Disk.told.count disk)) }
        ensures none { OnErr result (told.disk self.new ≡ told.disk self.old) }
        ensures others { LeavesOthers told name self.old self.new }
        ensures files { told.file self.new ≡ told.file self.old }
        ensures cause { FailsBy (told.disk_faults self.old) (told.disk_faults self.new) result }
        ensures faults { told.faults self.new ≡ told.faults self.old };

    /// Puts a disk back that `disk` gave under this name. `disk_faults` rises exactly where the
    /// disk's own count rose since then, or stands at its greatest value.
    fn keep(&mut self, name: DiskName, disk: Self::Disk)
        requires { IsOut (told.disk self.old name) }
        ensures back { told.tells
            → told.disk self.new name ≡ OnShelf (Self.Disk.told.reading disk) }
        ensures others { LeavesOthers told name self.old self.new }
        ensures files { told.file self.new ≡ told.file self.old }
        ensures counted { told.disk_faults self.new
            ≡ count_when_back (told.disk self.old name) (Self.Disk.told.count disk)
            (told.disk_faults self.old) }
        ensures later { told.disk_faults self.old ≤ told.disk_faults self.new }
        ensures faults { told.faults self.new ≡ told.faults self.old };

    /// How many calls of `whole` failed, up to the greatest u64.
    fn faults(&self) -> u64
        ensures { result ≡ told.faults self.now };

    /// How many calls of `disk` failed and how many disks came back with faults, up to the greatest
    /// u64.
    fn disk_faults(&self) -> u64
        ensures { result ≡ told.disk_faults self.now };
}

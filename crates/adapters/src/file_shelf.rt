//! The current folder as a shelf.

ghost use Rattle.std.specs.Prelude.{◌≡◌, IfOk};
ghost use Rattle.adapters.specs.Files.{counts_alone};

use crate::file_disk::FileDisk;
use crate::file_place::{Access, is_there};
use crate::interruption::{TRIES, is_interrupted};
use disk_model::{Disk, DiskName, Shelf, ShelfFault};
use pump_frame::raised;
use std::alloc::Global;
use std::fs::{File, Files};
use std::io::{self, ErrorKind};
use std::os::unix::fs::FileExt;

/// The current folder as a shelf. The disks of session S are its files `S.low`, `S.high` and
/// `S.recv`; one that isn't there is an empty disk. Only regular files are taken, and no link is followed.
/// The file of a disk that is off the shelf is locked: until the disk is kept or this process ends, neither
/// this process nor another can take it. Where there is no file, each may take the disk, and the first that
/// writes to it makes the file; the writes of the others fail. A disk takes the memory in which it reads
/// ahead; no other call takes any.
#[derive(Drop)]
pub struct FileShelf<'a, R> {
    alloc: Global,
    files: &'a R,
    access: Access,
    // The folder, open to be synced once a disk was taken that may be written.
    folder: Option<File>,
    faults: u64,
    disk_faults: u64,
    // Why the last file that failed did.
    why: Option<ErrorKind>,
}

// Reads from the file's start until it ends or the room is full, and says how many bytes came.
fn fill(file: &File, into: &mut [u8]) -> io::Result<usize> {
    let mut count = 0;
    // Each try but the last gives a byte at least, or a signal interrupted it.
    for _ in 0..into.len().saturating_add(TRIES as usize) {
        match file.read_at(&mut into[count..], count as u64) {
            Ok(0) => return Ok(count),
            Ok(more) => count += more,
            Err(error) if is_interrupted(&error) => continue,
            Err(error) => return Err(error),
        }
    }
    Err(io::Error::from(ErrorKind::Interrupted))
}

// The size is what the reads found, and is asked for only where the room was too small. A disk has its register
// first, so what the register names was there before the rest is read.
fn read_whole<R: Files<File = File>>(files: &R, name: &str, into: &mut [u8]) -> io::Result<u64> {
    is_there(files, name)?;
    let file = File::open(files, name)?;
    let count = fill(&file, into)?;
    if count < into.len() {
        return Ok(count as u64);
    }
    Ok(file.metadata()?.len())
}

// The disk of this name. One that may be written needs the folder, which stays open for the next.
fn take<'a, R: Files<File = File>>(
    alloc: Global,
    files: &'a R,
    name: DiskName,
    access: Access,
    folder: &mut Option<File>,
) -> io::Result<FileDisk<'a, R>>
    ensures { IfOk result (λ disk. disk.faults ≡ 0) }
{
    if access == Access::Write && folder.is_none() {
        *folder = Some(File::open(files, ".")?);
    }
    FileDisk::take(alloc, files, name, folder.as_ref())
}

impl<'a, R> FileShelf<'a, R> {
    /// The current folder, whose disks are used so.
    pub fn new(alloc: Global, files: &'a R, access: Access) -> FileShelf<'a, R> {
        FileShelf {
            alloc,
            files,
            access,
            folder: None,
            faults: 0,
            disk_faults: 0,
            why: None,
        }
    }

    /// Why the last file that failed did, where one has: of a disk that is off the shelf this is known when
    /// it is kept. `WouldBlock` says that a disk is in use, by another process or by this one,
    /// `AlreadyExists` that another one has made its file meanwhile, and `InvalidInput` that what has the
    /// name is no regular file.
    pub fn why(&self) -> Option<ErrorKind> {
        self.why
    }
}

impl<'a, R: Files<File = File>> Shelf for FileShelf<'a, R> {
    type Disk = FileDisk<'a, R>;

    ghost told = { counts_alone (λ s. s.faults) (λ s. s.disk_faults) };

    fn whole(&mut self, name: &str, into: &mut [u8]) -> Result<u64, ShelfFault> {
        match read_whole(self.files, name, into) {
            Ok(length) => Ok(length),
            Err(error) => {
                self.why = Some(error.kind());
                self.faults = raised(self.faults);
                Err(ShelfFault::Failed)
            }
        }
    }

    fn disk(&mut self, name: DiskName) -> Result<FileDisk<'a, R>, ShelfFault> {
        match take(self.alloc, self.files, name, self.access, &mut self.folder) {
            Ok(disk) => Ok(disk),
            Err(error) if error.kind() == ErrorKind::OutOfMemory => Err(ShelfFault::Memory),
            Err(error) => {
                self.why = Some(error.kind());
                self.disk_faults = raised(self.disk_faults);
                Err(ShelfFault::Failed)
            }
        }
    }

    // The file is closed, and so its lock is given up.
    fn keep(&mut self, _name: DiskName, disk: FileDisk<'a, R>) {
        if disk.faults() > 0 {
            self.why = disk.why();
            self.disk_faults = raised(self.disk_faults);
        }
    }

    fn faults(&self) -> u64 {
        self.faults
    }

    fn disk_faults(&self) -> u64 {
        self.disk_faults
    }
}

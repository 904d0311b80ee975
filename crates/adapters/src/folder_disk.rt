//! A file that is open as a disk, as a file of a folder is.

ghost use Rattle.std.specs.Prelude.{◌≡◌, ◌≤◌, None};
ghost use Rattle.pump_frame.specs.Counts.{raised};
ghost use Rattle.adapters.specs.Files.{count_alone};

use disk_model::{Disk, DiskFault};
use pump_frame::raised;
use std::cell::Cell;
use std::fs::File;
use std::io::{self, ErrorKind};
use std::os::unix::fs::FileExt;

/// A file that is open as a disk, as a file of a folder is. It tells how often a call failed, and nothing of
/// what it holds. It reads nothing ahead, and takes no memory.
#[derive(Drop)]
pub struct FolderDisk<'a> {
    file: File,
    // The size in bytes, where it is known without asking.
    size: Option<u64>,
    faults: u64,
    // Where it stands why the last failed call failed.
    why: &'a Cell<Option<ErrorKind>>,
}

impl<'a> FolderDisk<'a> {
    /// The open file as a disk. Nobody else may write it. Why a call of it failed is put into `why`, which
    /// outlives the disk.
    pub fn new(file: File, why: &'a Cell<Option<ErrorKind>>) -> FolderDisk<'a>
        ensures { result.faults ≡ 0 }
    {
        FolderDisk {
            file,
            size: None,
            faults: 0,
            why,
        }
    }

    fn fault(&mut self, error: &io::Error) -> DiskFault
        ensures raised { self.new.faults ≡ raised self.old.faults }
        ensures later { self.old.faults ≤ self.new.faults }
    {
        self.faults = raised(self.faults);
        self.why.set(Some(error.kind()));
        DiskFault
    }
}

impl Disk for FolderDisk<'_> {
    ghost told = { count_alone (λ d. d.faults) };

    fn size(&mut self) -> Result<u64, DiskFault> {
        if let Some(size) = self.size {
            return Ok(size);
        }
        match self.file.metadata() {
            Ok(metadata) => {
                self.size = Some(metadata.len());
                Ok(metadata.len())
            }
            Err(error) => Err(self.fault(&error)),
        }
    }

    fn read(&mut self, at: u64, into: &mut [u8]) -> Result<(), DiskFault> {
        match self.file.read_exact_at(into, at) {
            Ok(()) => Ok(()),
            Err(error) => Err(self.fault(&error)),
        }
    }

    fn write_at(&mut self, at: u64, bytes: &[u8]) -> Result<(), DiskFault> {
        match self.file.write_all_at(bytes, at) {
            Ok(()) => {
                let end = at.saturating_add(bytes.len() as u64);
                self.size = self.size.map(|size| size.max(end));
                Ok(())
            }
            Err(error) => {
                // A part may be written.
                self.size = None;
                Err(self.fault(&error))
            }
        }
    }

    // The size is kept too, since a later read needs it.
    fn sync(&mut self) -> Result<(), DiskFault> {
        match self.file.sync_data() {
            Ok(()) => Ok(()),
            Err(error) => Err(self.fault(&error)),
        }
    }

    fn faults(&self) -> u64 {
        self.faults
    }
}

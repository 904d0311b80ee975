//! A file as a disk.

ghost use Rattle.std.specs.Prelude.{◌≡◌, ◌≤◌, IfOk};
ghost use Rattle.pump_frame.specs.Counts.{raised};
ghost use Rattle.adapters.specs.Files.{count_alone};

use crate::file_ahead::FileAhead;
use crate::file_place::FilePlace;
use disk_model::{Disk, DiskFault, DiskName};
use pump_frame::raised;
use std::alloc::Global;
use std::fs::{File, Files};
use std::io::{self, ErrorKind};

/// A file as a disk. It tells how often a call failed, and nothing of what it holds. Nobody else
/// may write the file meanwhile: reads that follow one another are served from bytes read ahead.
/// Where there is no file the disk is empty, and its first write makes the file, if it may.
#[derive(Drop)]
pub struct FileDisk<'a, R> {
    place: FilePlace<'a, R>,
    // The size in bytes, where it is known without asking.
    size: Option<u64>,
    ahead: FileAhead,
    faults: u64,
    // Why the last failed call failed.
    why: Option<ErrorKind>,
}

impl<'a, R> FileDisk<'a, R> {
    /// Why the last call that failed did, where one has.
    pub fn why(&self) -> Option<ErrorKind> {
        self.why
    }

    fn fault(&mut self, error: &io::Error) -> DiskFault
        ensures raised { self.new.faults ≡ raised self.old.faults }
        ensures later { self.old.faults ≤ self.new.faults }
    {
        self.faults = raised(self.faults);
        self.why = Some(error.kind());
        DiskFault
    }
}

impl<'a, R: Files<File = File>> FileDisk<'a, R> {
    /// The disk of this name. Where it has a file, that is locked from now on. It may be written where the
    /// folder is given, which is synced for that.
    pub fn take(
        alloc: Global,
        files: &'a R,
        name: DiskName,
        folder: Option<&File>,
    ) -> io::Result<FileDisk<'a, R>>
        ensures { IfOk result (λ disk. disk.faults ≡ 0) }
    {
        let ahead = FileAhead::new(alloc)?;
        Ok(FileDisk {
            place: FilePlace::take(files, name, folder)?,
            size: None,
            ahead,
            faults: 0,
            why: None,
        })
    }
}

impl<'a, R: Files<File = File>> Disk for FileDisk<'a, R> {
    ghost told = { count_alone (λ d. d.faults) };

    fn size(&mut self) -> Result<u64, DiskFault> {
        if let Some(size) = self.size {
            return Ok(size);
        }
        match self.place.length() {
            Ok(length) => {
                self.size = Some(length);
                Ok(length)
            }
            Err(error) => Err(self.fault(&error)),
        }
    }

    fn read(&mut self, at: u64, into: &mut [u8]) -> Result<(), DiskFault> {
        match self.place.read(&mut self.ahead, at, into) {
            Ok(()) => Ok(()),
            Err(error) => Err(self.fault(&error)),
        }
    }

    fn write_at(&mut self, at: u64, bytes: &[u8]) -> Result<(), DiskFault> {
        self.ahead.clear();
        match self.place.write(at, bytes) {
            Ok(()) => {
                let end = at.saturating_add(bytes.len() as u64);
                self.size = self.size.map(|size| size.max(end));
                Ok(())
            }
            Err(error) => {
                // A part may be written.
                self.size = None;
                Err(self.fault(&error))
            }
        }
    }

    // The size is kept too, since a later read needs it.
    fn sync(&mut self) -> Result<(), DiskFault> {
        match self.place.sync() {
            Ok(()) => Ok(()),
            Err(error) => Err(self.fault(&error)),
        }
    }

    fn faults(&self) -> u64 {
        self.faults
    }
}

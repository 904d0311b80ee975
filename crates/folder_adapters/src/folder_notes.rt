//! What is noted of a folder while a command works in it.

ghost use Rattle.std.specs.Prelude.{◌≡◌, ◌≤◌};
ghost use Rattle.pump_frame.specs.Counts.{raised};

use crate::progress_line::ProgressLine;
use file_messages::Progress;
use pump_frame::raised;
use std::cell::Cell;
use std::io::{self, ErrorKind};

/// What is noted of a folder while a command works in it, for the sentences at its end: the folder and the
/// files that it gave are let go where the command ends, and who starts the command keeps this. How far a
/// file is stands on a terminal meanwhile.
#[derive(Drop)]
pub struct FolderNotes {
    why: Cell<Option<ErrorKind>>,
    lying: Cell<u64>,
    line: ProgressLine,
}

impl FolderNotes {
    /// No call has failed, and no file was left lying.
    pub fn new(line: ProgressLine) -> FolderNotes {
        FolderNotes {
            why: Cell::new(None),
            lying: Cell::new(0),
            line,
        }
    }

    /// Why the last call that failed did, of the folder or of a file that it gave, where one has.
    /// `WouldBlock` says that another process is at work in the folder, `StorageFull` that there is no room,
    /// `NotFound` that the folder or the file isn't there, `NotADirectory` that what has the folder's name is
    /// no folder, `PermissionDenied` that it is not the user's, `OutOfMemory` that there was no memory for a
    /// list of it, and `InvalidInput` that what has the name of a file is no regular file.
    pub fn why(&self) -> Option<ErrorKind> {
        self.why.get()
    }

    /// How many files the last list of the folder left lying: their names are none of files that go from
    /// folder to folder, or they are no regular files.
    pub fn lying(&self) -> u64 {
        self.lying.get()
    }

    // No file comes any more: what is written next has a line of its own.
    pub(crate) fn end_progress(&self) {
        self.line.end();
    }

    pub(crate) fn note_progress(&self, progress: &Option<Progress>) {
        self.line.show(progress);
    }

    // Where a file that the folder gave puts why it failed.
    pub(crate) fn why_of_files(&self) -> &Cell<Option<ErrorKind>> {
        &self.why
    }

    // A call failed. It is counted, why it failed is noted, and the fault that tells of it is handed back.
    pub(crate) fn fault<F>(&self, faults: &mut u64, error: &io::Error, fault: F) -> F
        ensures raised { faults.new ≡ raised faults.old }
        ensures later { faults.old ≤ faults.new }
        ensures value { result ≡ fault }
    {
        *faults = raised(*faults);
        self.why.set(Some(error.kind()));
        fault
    }

    pub(crate) fn note_lying(&self, count: u64) {
        self.lying.set(count);
    }
}

//! The folders below the current one, by their names.

use crate::file_inbox::FileInbox;
use crate::file_outbox::FileOutbox;
use crate::folder_notes::FolderNotes;
use folders::{Folders, FoldersFault};
use std::alloc::Alloc;
use std::fs::{File, Files};
use std::time::Clock;

/// The folders below the current one, by their names. They tell how often one was not given, and nothing
/// else. A folder that was given is locked, until it is taken back or this process ends: no other one is
/// given it.
#[derive(Drop)]
pub struct FileFolders<'a, R> {
    files: &'a R,
    notes: &'a FolderNotes,
    faults: u64,
}

impl<'a, R> FileFolders<'a, R> {
    /// Folders of which none is given yet. What is noted of those that are given stands in `notes`, and so
    /// does why one was not.
    pub fn new(files: &'a R, notes: &'a FolderNotes) -> FileFolders<'a, R> {
        FileFolders {
            files,
            notes,
            faults: 0,
        }
    }
}

impl<'a, R: Files<File = File> + Alloc + Clock> Folders for FileFolders<'a, R> {
    type Inbox = FileInbox<'a, R>;

    type Outbox = FileOutbox<'a, R>;

    // Anything may have been done.
    ghost did = { λ s steps. Unit {0} };

    ghost faults = { λ s. s.faults };

    fn inbox(&mut self, name: &str, session: u32) -> Result<FileInbox<'a, R>, FoldersFault> {
        match FileInbox::open(self.files, self.notes, name, session) {
            Ok(inbox) => Ok(inbox),
            Err(error) => Err(self.notes.fault(&mut self.faults, &error, FoldersFault)),
        }
    }

    fn outbox(&mut self, name: &str, session: u32) -> Result<FileOutbox<'a, R>, FoldersFault> {
        match FileOutbox::open(self.files, self.notes, name, session) {
            Ok(outbox) => Ok(outbox),
            Err(error) => Err(self.notes.fault(&mut self.faults, &error, FoldersFault)),
        }
    }

    // The folder is closed, and so its lock is given up.
    fn inbox_back(&mut self, _inbox: FileInbox<'a, R>) {
        self.notes.end_progress();
    }

    // As with an inbox.
    fn outbox_back(&mut self, _outbox: FileOutbox<'a, R>) {
        self.notes.end_progress();
    }

    fn faults(&self) -> u64 {
        self.faults
    }
}

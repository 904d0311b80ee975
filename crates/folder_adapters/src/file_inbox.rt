//! A folder of the machine that files come into.

ghost use Rattle.std.specs.Prelude.{◌≡◌, IfOk};
ghost use Rattle.folder_adapters.specs.Folders.{inbox_counts_alone};

use crate::folder::Folder;
use crate::folder_notes::FolderNotes;
use adapters::FolderDisk;
use arrayvec::ArrayString;
use file_messages::Progress;
use folders::{Inbox, InboxFault};
use std::fmt::Write;
use std::fs::{File, Files};
use std::io::{self, ErrorKind};

/// A folder of the machine that files come into, in a session S. The register is its file `.S.files`, and
/// the part its file `.S.part`; a shown file has its name. It tells how often a call failed, and nothing of
/// what it holds.
///
/// The folder is locked as long as this lives. No file is overwritten but by one that gets the name between
/// `is_free` and `publish`. What is assumed of the machine: a new name takes the place of the old one in one
/// step, what is synced is kept, and nobody else touches names that begin with a dot.
#[derive(Drop)]
pub struct FileInbox<'a, R> {
    files: &'a R,
    folder: Folder,
    session: u32,
    faults: u64,
    notes: &'a FolderNotes,
}

// A dot, ten digits, and an ending of six bytes at most.
fn hidden_name(session: u32, ending: &str) -> ArrayString<17> {
    let mut name = ArrayString::new();
    let _ = write!(name, ".{session}{ending}");
    name
}

impl<'a, R: Files<File = File>> FileInbox<'a, R> {
    /// The folder of this name, into which the files of a session come. `notes` keeps why a later call
    /// of it failed, and says too what the errors of this one mean.
    pub(crate) fn open(
        files: &'a R,
        notes: &'a FolderNotes,
        name: &str,
        session: u32,
    ) -> io::Result<FileInbox<'a, R>>
        ensures { IfOk result (λ inbox. inbox.faults ≡ 0) }
    {
        match Folder::open(files, name) {
            Ok(folder) => Ok(FileInbox {
                files,
                folder,
                session,
                faults: 0,
                notes,
            }),
            Err(error) => Err(error),
        }
    }

    fn part_name(&self) -> ArrayString<17> {
        hidden_name(self.session, ".part")
    }

    // An empty file is a new register, as a missing one is. The file and the folder are synced before the
    // file is handed out: one whose process was killed may have left bytes that no sync covered, and others
    // may have copied or moved it there.
    fn open_register(&self) -> io::Result<File> {
        let name = hidden_name(self.session, ".files");
        match self.folder.open_file(self.files, name.as_str(), true)? {
            Some(file) => {
                file.sync_all()?;
                self.folder.sync()?;
                Ok(file)
            }
            None => self.folder.make_file(self.files, name.as_str()),
        }
    }

    // The part is made anew, and not emptied, so that it is never one that was linked to elsewhere.
    fn begin_part(&self) -> io::Result<File> {
        let name = self.part_name();
        self.folder.remove(self.files, name.as_str())?;
        self.folder.make_file(self.files, name.as_str())
    }

    fn resume_part(&self, count: u64) -> io::Result<Option<File>> {
        let Some(file) = self
            .folder
            .open_file(self.files, self.part_name().as_str(), true)?
        else {
            return Ok(None);
        };
        if file.metadata()?.len() < count {
            return Ok(None);
        }
        file.set_len(count)?;
        file.sync_all()?;
        self.folder.sync()?;
        Ok(Some(file))
    }

    fn show(&self, name: &str) -> io::Result<()> {
        if !self
            .folder
            .rename(self.files, self.part_name().as_str(), name)?
        {
            return Err(io::Error::from(ErrorKind::NotFound));
        }
        self.folder.sync()
    }
}

impl<'a, R: Files<File = File>> Inbox for FileInbox<'a, R> {
    type Disk = FolderDisk<'a>;

    ghost told = { inbox_counts_alone (λ i. i.faults) };

    fn register(&mut self) -> Result<FolderDisk<'a>, InboxFault> {
        match self.open_register() {
            Ok(file) => Ok(FolderDisk::new(file, self.notes.why_of_files())),
            Err(error) => Err(self.notes.fault(&mut self.faults, &error, InboxFault)),
        }
    }

    fn begin(&mut self) -> Result<FolderDisk<'a>, InboxFault> {
        match self.begin_part() {
            Ok(file) => Ok(FolderDisk::new(file, self.notes.why_of_files())),
            Err(error) => Err(self.notes.fault(&mut self.faults, &error, InboxFault)),
        }
    }

    fn resume(&mut self, count: u64) -> Result<Option<FolderDisk<'a>>, InboxFault> {
        match self.resume_part(count) {
            Ok(Some(file)) => Ok(Some(FolderDisk::new(file, self.notes.why_of_files()))),
            Ok(None) => Ok(None),
            Err(error) => Err(self.notes.fault(&mut self.faults, &error, InboxFault)),
        }
    }

    fn is_free(&mut self, name: &str) -> Result<bool, InboxFault> {
        match self.folder.metadata(self.files, name) {
            Ok(found) => Ok(found.is_none()),
            Err(error) => Err(self.notes.fault(&mut self.faults, &error, InboxFault)),
        }
    }

    fn publish(&mut self, _part: FolderDisk<'a>, name: &str) -> Result<(), InboxFault> {
        match self.show(name) {
            Ok(()) => Ok(()),
            Err(error) => Err(self.notes.fault(&mut self.faults, &error, InboxFault)),
        }
    }

    fn note_progress(&self, progress: &Option<Progress>) {
        self.notes.note_progress(progress);
    }

    fn faults(&self) -> u64 {
        self.faults
    }
}

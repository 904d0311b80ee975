//! A folder of the machine that files go out of.

ghost use Rattle.std.specs.Prelude.{◌≡◌, IfOk, IfSome};
ghost use Rattle.folders.specs.Marks.{HasNumbers};
ghost use Rattle.folders.specs.Outboxes.{IsLawfulFound};
ghost use Rattle.folder_adapters.specs.Folders.{outbox_counts_alone};

use crate::folder::Folder;
use crate::folder_notes::FolderNotes;
use crate::waiting::{Waiting, list};
use adapters::StdSource;
use arrayvec::ArrayString;
use file_messages::{FileName, Progress};
use folders::{Found, Mark, Outbox, OutboxFault, Stage};
use std::alloc::{Alloc, Allocator};
use std::fs::{DirEntry, File, Files};
use std::io::{self, ErrorKind};
use std::time::Clock;
use std::vec::IntoIter;

/// A folder of the machine that files go out of, in a session. A file that is marked has the name that tells
/// its mark, which begins with a dot. It tells how often a call failed, and nothing of what it holds.
///
/// A file waits once two seconds have passed since it was modified last, so what is written more slowly than
/// that is to be moved in whole. The first that was modified goes first. A list of the folder serves for the
/// first 256 files of it, as long as the next of them is as it was. The folder is locked as long as this lives.
/// What is assumed of the machine: a new name takes the place of the old one in one step, what is synced is kept,
/// and nobody else touches names that begin with a dot.
#[derive(Drop)]
pub struct FileOutbox<'a, R: Alloc> {
    files: &'a R,
    folder: Folder,
    session: u32,
    // What is left of the last list.
    listed: IntoIter<Waiting, R::A>,
    // The name that the marked file has, where there is one.
    marked: Option<ArrayString<247>>,
    faults: u64,
    notes: &'a FolderNotes,
}

// The mark that the entry's name tells, if it tells one. A name that is no UTF-8 is an error of the entry.
fn mark_in<R: Files + Drop, A: Allocator>(
    session: u32,
    entry: io::Result<DirEntry<R, A>>,
) -> io::Result<Option<Mark>>
    ensures { IfOk result (λ found. IfSome found (λ mark. HasNumbers mark.stage)) }
{
    match entry {
        Ok(entry) => Ok(Mark::read(session, entry.file_name().as_bytes())),
        Err(error) if error.kind() == ErrorKind::InvalidFilename => Ok(None),
        Err(error) => Err(error),
    }
}

// The marks of a session that names in the folder tell.
fn find_marked<R: Files<File = File> + Alloc>(
    folder: &Folder,
    files: &R,
    session: u32,
) -> io::Result<Found>
    ensures { IfOk result IsLawfulFound }
{
    let mut found = Found::Nothing;
    for entry in folder.list(files)? {
        if let Some(mark) = mark_in(session, entry)? {
            found = match found {
                Found::Nothing => Found::One(mark),
                _ => Found::Several,
            };
        }
    }
    Ok(found)
}

impl<'a, R: Files<File = File> + Alloc + Clock> FileOutbox<'a, R> {
    /// The folder of this name, out of which the files of a session go. `notes` keeps why a later call
    /// of it failed, and says too what the errors of this one mean.
    pub(crate) fn open(
        files: &'a R,
        notes: &'a FolderNotes,
        name: &str,
        session: u32,
    ) -> io::Result<FileOutbox<'a, R>>
        ensures { IfOk result (λ outbox. outbox.faults ≡ 0) }
    {
        let folder = Folder::open(files, name)?;
        // A process that was killed may have left a name that no sync covers yet.
        folder.sync()?;
        Ok(FileOutbox {
            files,
            folder,
            session,
            listed: Vec::new(files.alloc()).into_iter(),
            marked: None,
            faults: 0,
            notes,
        })
    }

    // The file that goes next. The folder is listed anew where nothing is left of the last list, or the next
    // file of it has changed.
    fn next_file(&mut self) -> io::Result<Option<FileName>>
        ensures faults { self.new.faults ≡ self.old.faults }
    {
        if let Some(waiting) = self.listed.next() {
            if waiting.is_there(&self.folder, self.files)? {
                return Ok(FileName::parse(waiting.name().as_bytes()));
            }
        }
        let listed = list(&self.folder, self.files)?;
        self.notes.note_lying(listed.lying);
        self.listed = listed.files;
        let Some(waiting) = self.listed.next() else {
            return Ok(None);
        };
        Ok(FileName::parse(waiting.name().as_bytes()))
    }

    // Is the marked file a regular file? A link or a pipe that was moved there is none.
    fn is_regular(&self, marked: &str) -> io::Result<bool> {
        let metadata = self.folder.metadata(self.files, marked)?;
        Ok(metadata.is_some_and(|metadata| metadata.is_file()))
    }

    // What came in place of the file since it was listed is given its name back.
    fn take_file(&mut self, name: &FileName) -> io::Result<bool>
        ensures faults { self.new.faults ≡ self.old.faults }
    {
        let mark = Mark {
            stage: Stage::Fresh,
            name: *name,
        };
        let marked = mark.spell(self.session);
        if !self
            .folder
            .rename(self.files, name.as_str(), marked.as_str())?
        {
            return Ok(false);
        }
        let is_taken = self.is_regular(marked.as_str())?;
        if is_taken {
            self.marked = Some(marked);
        } else {
            self.folder
                .rename(self.files, marked.as_str(), name.as_str())?;
        }
        self.folder.sync()?;
        Ok(is_taken)
    }

    fn mark_file(&mut self, mark: &Mark) -> io::Result<()>
        requires { HasNumbers mark.now.stage }
        ensures faults { self.new.faults ≡ self.old.faults }
    {
        let marked = mark.spell(self.session);
        let is_there = match &self.marked {
            Some(old) => self
                .folder
                .rename(self.files, old.as_str(), marked.as_str())?,
            None => false,
        };
        if !is_there {
            return Err(io::Error::from(ErrorKind::NotFound));
        }
        self.marked = Some(marked);
        self.folder.sync()
    }

    fn open_file(&self) -> io::Result<File> {
        let file = match &self.marked {
            Some(marked) => self.folder.open_file(self.files, marked.as_str(), false)?,
            None => None,
        };
        file.ok_or(io::Error::from(ErrorKind::NotFound))
    }

    // A file that somebody removed meanwhile is removed.
    fn remove_file(&mut self) -> io::Result<()>
        ensures faults { self.new.faults ≡ self.old.faults }
    {
        if let Some(marked) = &self.marked {
            self.folder.remove(self.files, marked.as_str())?;
        }
        self.marked = None;
        self.folder.sync()
    }
}

impl<'a, R: Files<File = File> + Alloc + Clock> Outbox for FileOutbox<'a, R> {
    type File = StdSource<File>;

    ghost told = { outbox_counts_alone (λ o. o.faults) };

    fn marked(&mut self) -> Result<Found, OutboxFault> {
        match find_marked(&self.folder, self.files, self.session) {
            Ok(found) => {
                self.marked = match &found {
                    Found::One(mark) => Some(mark.spell(self.session)),
                    _ => None,
                };
                Ok(found)
            }
            Err(error) => Err(self.notes.fault(&mut self.faults, &error, OutboxFault)),
        }
    }

    fn next(&mut self) -> Result<Option<FileName>, OutboxFault> {
        match self.next_file() {
            Ok(next) => Ok(next),
            Err(error) => Err(self.notes.fault(&mut self.faults, &error, OutboxFault)),
        }
    }

    fn take(&mut self, name: &FileName) -> Result<bool, OutboxFault> {
        match self.take_file(name) {
            Ok(is_taken) => Ok(is_taken),
            Err(error) => Err(self.notes.fault(&mut self.faults, &error, OutboxFault)),
        }
    }

    fn mark(&mut self, mark: &Mark) -> Result<(), OutboxFault> {
        match self.mark_file(mark) {
            Ok(()) => Ok(()),
            Err(error) => Err(self.notes.fault(&mut self.faults, &error, OutboxFault)),
        }
    }

    fn open(&mut self) -> Result<StdSource<File>, OutboxFault> {
        match self.open_file() {
            Ok(file) => Ok(StdSource::new(file)),
            Err(error) => Err(self.notes.fault(&mut self.faults, &error, OutboxFault)),
        }
    }

    fn remove(&mut self) -> Result<(), OutboxFault> {
        match self.remove_file() {
            Ok(()) => Ok(()),
            Err(error) => Err(self.notes.fault(&mut self.faults, &error, OutboxFault)),
        }
    }

    fn note_progress(&self, progress: &Option<Progress>) {
        self.notes.note_progress(progress);
    }

    fn faults(&self) -> u64 {
        self.faults
    }
}

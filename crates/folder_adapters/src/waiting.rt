//! The files of a folder that wait to be sent.

use crate::folder::Folder;
use arrayvec::ArrayString;
use file_messages::FileName;
use pump_frame::raised;
use std::alloc::{Alloc, Allocator};
use std::collections::BinaryHeap;
use std::fs::{DirEntry, File, Files, Metadata};
use std::io::{self, ErrorKind};
use std::os::unix::fs::MetadataExt;
use std::time::{Clock, Duration};
use std::vec::IntoIter;

/// How many seconds ago a file was modified last that is taken. A younger one may be half written.
const QUIET: i64 = 2;

/// How many files of a list are kept, so that a folder of many is not listed for each of them.
const KEPT: usize = 256;

/// What lies in a folder.
#[derive(Drop)]
pub struct Listed<A: Allocator> {
    /// The files that go next, 256 at most, in their order: the one that was modified first goes first,
    /// and of several such the first by name.
    pub files: IntoIter<Waiting, A>,
    /// How many files are left lying: their names are none of files that go from folder to folder, or they
    /// are no regular files. Names that begin with a dot are not counted.
    pub lying: u64,
}

/// A file that waits, with the seconds since 1970 at which it was modified last, and the nanoseconds
/// behind them.
#[derive(Clone, Copy, PartialEq, Eq, PartialOrd, Ord)]
pub struct Waiting {
    seconds: i64,
    nanos: i64,
    name: ArrayString<128>,
}

impl Waiting {
    fn of(name: ArrayString<128>, metadata: &Metadata) -> Waiting {
        Waiting {
            seconds: metadata.mtime(),
            nanos: metadata.mtime_nsec(),
            name,
        }
    }

    /// Its name.
    pub fn name(&self) -> &str {
        self.name.as_str()
    }

    /// Does it wait still as it did when it was listed?
    pub fn is_there<R: Files<File = File>>(&self, folder: &Folder, files: &R) -> io::Result<bool> {
        let metadata = folder.metadata(files, self.name())?;
        Ok(metadata.is_some_and(|it| it.is_file() && Waiting::of(self.name, &it) == *self))
    }

    // Was it left alone long enough at this time since 1970?
    fn is_quiet(&self, now: Duration) -> bool {
        let seconds = i64::try_from(now.as_secs()).unwrap_or(i64::MAX);
        let since = self.seconds.saturating_add(QUIET);
        since < seconds || (since == seconds && self.nanos <= i64::from(now.subsec_nanos()))
    }
}

// What an entry of a folder is.
#[derive(Clone, Copy)]
enum Seen {
    // It is hidden, may be half written, or is gone.
    Passed,
    // It is left lying.
    Lying,
    Waits(Waiting),
}

fn judge(name: ArrayString<128>, metadata: &Metadata, now: Duration) -> Seen {
    if !metadata.is_file() {
        return Seen::Lying;
    }
    let waiting = Waiting::of(name, metadata);
    if waiting.is_quiet(now) {
        Seen::Waits(waiting)
    } else {
        Seen::Passed
    }
}

// The text where it is the name of a file that goes from folder to folder.
fn lawful(text: &str) -> Option<ArrayString<128>> {
    FileName::parse(text.as_bytes())?;
    ArrayString::from(text).ok()
}

fn look_at<R: Files, A: Allocator>(entry: &DirEntry<R, A>, now: Duration) -> io::Result<Seen> {
    let text = entry.file_name();
    if text.starts_with('.') {
        return Ok(Seen::Passed);
    }
    let Some(name) = lawful(text) else {
        return Ok(Seen::Lying);
    };
    match entry.metadata() {
        Ok(metadata) => Ok(judge(name, &metadata, now)),
        Err(error) if error.kind() == ErrorKind::NotFound => Ok(Seen::Passed),
        Err(error) => Err(error),
    }
}

// A name that is no UTF-8 is an error of the entry.
fn look<R: Files + Drop, A: Allocator>(
    entry: io::Result<DirEntry<R, A>>,
    now: Duration,
) -> io::Result<Seen> {
    match entry {
        Ok(entry) => look_at(&entry, now),
        Err(error) if error.kind() == ErrorKind::InvalidFilename => Ok(Seen::Lying),
        Err(error) => Err(error),
    }
}

// One more file that waits. Where they are more than are kept, the one that goes last is left out.
fn keep<A: Allocator>(files: &mut BinaryHeap<Waiting, A>, waiting: Waiting) -> io::Result<()> {
    files.push(waiting)?;
    if files.len() > KEPT {
        files.pop();
    }
    Ok(())
}

/// What lies in the folder now.
pub fn list<R: Files<File = File> + Alloc + Clock>(
    folder: &Folder,
    machine: &R,
) -> io::Result<Listed<R::A>> {
    let now = machine.since_1970()?;
    let mut files = BinaryHeap::new(machine.alloc());
    let mut lying = 0;
    for entry in folder.list(machine)? {
        match look(entry, now)? {
            Seen::Waits(waiting) => keep(&mut files, waiting)?,
            Seen::Lying => lying = raised(lying),
            Seen::Passed => {}
        }
    }
    Ok(Listed {
        files: files.into_sorted_vec().into_iter(),
        lying,
    })
}

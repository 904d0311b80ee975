//! The place of a disk's file in the current folder.

use crate::file_ahead::FileAhead;
use arrayvec::ArrayString;
use disk_model::{DiskName, Role};
use std::fmt::Write;
use std::fs::{self, File, Files, OpenOptions};
use std::io::{self, ErrorKind};
use std::os::unix::fs::{FileExt, OpenOptionsExt};

/// What is done with the disks of a shelf.
#[derive(Clone, Copy, PartialEq, Eq)]
pub enum Access {
    /// They are read. No file is made, and none has to be the user's to write.
    Read,
    /// They are read and written. Where there is no file, the first write makes one, for its user alone.
    Write,
}

/// The place of a disk's file in the current folder.
#[derive(Drop)]
pub enum FilePlace<'a, R> {
    /// A file is there. It is open and locked.
    Filled(File),
    /// There is none yet, and the first write makes it, in this folder.
    Free {
        files: &'a R,
        name: DiskName,
        folder: File,
    },
    /// There is none, and none is made.
    Closed,
}

// Ten digits, a dot and four letters at most.
fn file_name(name: DiskName) -> ArrayString<15> {
    let ending = match name.role {
        Role::Low => "low",
        Role::High => "high",
        Role::Recv => "recv",
    };
    let mut text = ArrayString::new();
    let _ = write!(text, "{}.{}", name.session, ending);
    text
}

/// Is there a file of this name? Only a regular one is taken: a device of length 0 would pass for a new
/// disk, and a pipe would keep the call. A link is not followed.
pub fn is_there<R: Files<File = File>>(files: &R, name: &str) -> io::Result<bool> {
    match fs::symlink_metadata(files, name) {
        Ok(metadata) if metadata.is_file() => Ok(true),
        Ok(_) => Err(io::Error::from(ErrorKind::InvalidInput)),
        Err(error) if error.kind() == ErrorKind::NotFound => Ok(false),
        Err(error) => Err(error),
    }
}

// The file that is there, locked. The folder is synced before one that may be written is handed out, so
// that what is acknowledged outlives a crash, also in a file that was copied or moved there by others.
fn open<R: Files<File = File>>(files: &R, name: &str, folder: Option<&File>) -> io::Result<File> {
    let file = OpenOptions::new()
        .read(true)
        .write(folder.is_some())
        .open(files, name)?;
    file.try_lock()?;
    if let Some(folder) = folder {
        folder.sync_all()?;
    }
    Ok(file)
}

// A new file, locked. One that came meanwhile is left alone. The folder is synced before anything is
// written, so that the file's name outlives a crash as long as its bytes.
fn make<R: Files<File = File>>(files: &R, name: &str, folder: &File) -> io::Result<File> {
    let file = OpenOptions::new()
        .read(true)
        .write(true)
        .create_new(true)
        .mode(0o600)
        .open(files, name)?;
    file.try_lock()?;
    folder.sync_all()?;
    Ok(file)
}

impl<'a, R: Files<File = File>> FilePlace<'a, R> {
    /// The place of this disk, whose file is taken where it is there. It may be written where the folder is
    /// given, which is synced for that.
    pub fn take(
        files: &'a R,
        name: DiskName,
        folder: Option<&File>,
    ) -> io::Result<FilePlace<'a, R>> {
        let text = file_name(name);
        if is_there(files, text.as_str())? {
            return Ok(FilePlace::Filled(open(files, text.as_str(), folder)?));
        }
        match folder {
            None => Ok(FilePlace::Closed),
            Some(folder) => Ok(FilePlace::Free {
                files,
                name,
                folder: folder.try_clone()?,
            }),
        }
    }

    /// How many bytes the disk has.
    pub fn length(&self) -> io::Result<u64> {
        match self {
            FilePlace::Filled(file) => Ok(file.metadata()?.len()),
            FilePlace::Free { .. } | FilePlace::Closed => Ok(0),
        }
    }

    /// The bytes from an offset on, by way of what was read ahead. A read past the end fails.
    pub fn read(&self, ahead: &mut FileAhead, at: u64, into: &mut [u8]) -> io::Result<()> {
        match self {
            FilePlace::Filled(file) => ahead.read(file, at, into),
            _ if into.is_empty() => Ok(()),
            _ => Err(io::Error::from(ErrorKind::UnexpectedEof)),
        }
    }

    /// Writes the bytes at an offset. The first write of a disk makes its file.
    pub fn write(&mut self, at: u64, bytes: &[u8]) -> io::Result<()> {
        if let FilePlace::Free {
            files,
            name,
            folder,
        } = self
        {
            *self = FilePlace::Filled(make(*files, file_name(*name).as_str(), folder)?);
        }
        match self {
            FilePlace::Filled(file) => file.write_all_at(bytes, at),
            _ => Err(io::Error::from(ErrorKind::NotFound)),
        }
    }

    /// What was written outlives a crash after it.
    pub fn sync(&self) -> io::Result<()> {
        match self {
            FilePlace::Filled(file) => file.sync_data(),
            FilePlace::Free { .. } | FilePlace::Closed => Ok(()),
        }
    }
}

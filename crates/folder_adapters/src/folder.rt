//! A folder of the machine, and what is done with the files in it by their names.

use arrayvec::ArrayString;
use std::alloc::Alloc;
use std::fs::{self, File, Files, Metadata, OpenOptions, ReadDir};
use std::io::{self, ErrorKind};
use std::os::unix::fs::OpenOptionsExt;

/// A folder's name, a slash and the name of a file, which has 255 bytes at most.
const PATH: usize = 320;

/// What may be done with files that are made: their user reads and writes them, and their group reads them,
/// as far as the user's mask lets them.
const MODE: u32 = 0o640;

/// A folder of the machine. It is locked as long as this lives, so that no other process that locks it
/// works in it meanwhile. No link to a file is followed.
#[derive(Drop)]
pub struct Folder {
    name: ArrayString<64>,
    handle: File,
}

// What a call gave; `None` where it failed since nothing has the name.
fn if_there<T>(given: io::Result<T>) -> io::Result<Option<T>> {
    match given {
        Ok(value) => Ok(Some(value)),
        Err(error) if error.kind() == ErrorKind::NotFound => Ok(None),
        Err(error) => Err(error),
    }
}

impl Folder {
    /// The folder of this name, 64 bytes at most. What has the name is asked first, since a pipe would keep
    /// the call that opens it.
    pub fn open<R: Files<File = File>>(files: &R, name: &str) -> io::Result<Folder> {
        let Ok(text) = ArrayString::from(name) else {
            return Err(io::Error::from(ErrorKind::InvalidFilename));
        };
        if !fs::metadata(files, name)?.is_dir() {
            return Err(io::Error::from(ErrorKind::NotADirectory));
        }
        let handle = File::open(files, name)?;
        handle.try_lock()?;
        Ok(Folder { name: text, handle })
    }

    fn path(&self, name: &str) -> io::Result<ArrayString<PATH>> {
        let mut path = ArrayString::new();
        for part in [self.name.as_str(), "/", name] {
            if path.try_push_str(part).is_err() {
                return Err(io::Error::from(ErrorKind::InvalidFilename));
            }
        }
        Ok(path)
    }

    /// What has this name; `None` where nothing does.
    pub fn metadata<R: Files<File = File>>(
        &self,
        files: &R,
        name: &str,
    ) -> io::Result<Option<Metadata>> {
        if_there(fs::symlink_metadata(files, self.path(name)?.as_str()))
    }

    /// The regular file of this name, opened to be read, or to be read and written; `None` where nothing has
    /// the name. What else has it is asked first, since a link would be followed, and a pipe would keep the
    /// call.
    pub fn open_file<R: Files<File = File>>(
        &self,
        files: &R,
        name: &str,
        may_write: bool,
    ) -> io::Result<Option<File>> {
        match self.metadata(files, name)? {
            Some(metadata) if metadata.is_file() => {}
            Some(_) => return Err(io::Error::from(ErrorKind::InvalidInput)),
            None => return Ok(None),
        }
        let opened = OpenOptions::new()
            .read(true)
            .write(may_write)
            .open(files, self.path(name)?.as_str());
        if_there(opened)
    }

    /// A new file of this name, which nothing may have. It and its name outlive a crash.
    pub fn make_file<R: Files<File = File>>(&self, files: &R, name: &str) -> io::Result<File> {
        let file = OpenOptions::new()
            .read(true)
            .write(true)
            .create_new(true)
            .mode(MODE)
            .open(files, self.path(name)?.as_str())?;
        file.sync_all()?;
        self.sync()?;
        Ok(file)
    }

    /// Gives a file another name; what had that before is gone. `false` where nothing has the first name.
    pub fn rename<R: Files<File = File>>(
        &self,
        files: &R,
        from: &str,
        to: &str,
    ) -> io::Result<bool> {
        let (from, to) = (self.path(from)?, self.path(to)?);
        let renamed = fs::rename(files, from.as_str(), to.as_str());
        Ok(if_there(renamed)?.is_some())
    }

    /// Removes the file of this name, if there is one.
    pub fn remove<R: Files<File = File>>(&self, files: &R, name: &str) -> io::Result<()> {
        if_there(fs::remove_file(files, self.path(name)?.as_str()))?;
        Ok(())
    }

    /// The names that files have now outlive a crash.
    pub fn sync(&self) -> io::Result<()> {
        self.handle.sync_all()
    }

    /// What is in the folder. A name that is no UTF-8 is the error `InvalidFilename`.
    pub fn list<'a, R: Files<File = File> + Alloc>(
        &self,
        files: &'a R,
    ) -> io::Result<ReadDir<&'a R, R::A>> {
        fs::read_dir(&files, self.name.as_str())
    }
}

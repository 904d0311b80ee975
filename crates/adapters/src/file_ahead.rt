//! Bytes of a file that are read ahead in a walk along it.

ghost use Rattle.std.specs.Prelude.{◌≡◌, IfSome, length as count_of};

use std::alloc::{AllocError, Global};
use std::fs::File;
use std::io;
use std::os::unix::fs::FileExt;

/// How many bytes are read ahead at most.
const ROOM: usize = 65536;

/// How many are read ahead at first. Most walks end in them.
const FIRST: usize = 2048;

/// How far behind the end of a read the next one may begin to go on from it. A walk along a log reads
/// the length of each record alone, and steps over the rest.
const STEP: u64 = 4096;

/// Bytes of a file that were read ahead. Nothing is read ahead but where one read goes on from the one
/// before it, as in a walk along a log: a read elsewhere asks for its own bytes alone. So does one as
/// long as all that would be read ahead, whose bytes are then copied once.
#[derive(Drop)]
pub struct FileAhead {
    /// The room for them: none before the first fill, then the first part of it, and all once that part was
    /// full. It has the memory for all from the start.
    bytes: Vec<u8>,
    /// Where in the file the bytes begin, and how many there are.
    start: u64,
    count: usize,
    /// The last read, if the file was not written since.
    last: Option<Span>,
}

/// A part of a file, from one offset up to another.
#[derive(Clone, Copy)]
struct Span {
    start: u64,
    end: u64,
}

impl FileAhead {
    /// No bytes. An error is want of memory.
    pub fn new(alloc: Global) -> Result<FileAhead, AllocError> {
        Ok(FileAhead {
            bytes: Vec::with_capacity(alloc, ROOM)?,
            start: 0,
            count: 0,
            last: None,
        })
    }

    /// No bytes any more. The file is to be written.
    pub fn clear(&mut self) {
        self.count = 0;
        self.last = None;
    }

    // A read at this offset goes on from the last one: it begins there again, or a step behind its end
    // at most.
    fn goes_on(&self, at: u64) -> bool {
        match self.last {
            Some(last) => last.start <= at && at <= last.end.saturating_add(STEP),
            None => false,
        }
    }

    // The bytes from an offset of the file on, where all of them are there.
    fn held(&self, at: u64, length: usize) -> Option<&[u8]>
        ensures { IfSome result (λ bytes. count_of bytes.now ≡ length) }
    {
        let from = usize::try_from(at.checked_sub(self.start)?).ok()?;
        let end = from.checked_add(length)?;
        self.bytes.as_slice().get(..self.count)?.get(from..end)
    }

    // Makes room for as many bytes as are to be read ahead.
    fn widen(&mut self, wanted: usize) {
        let size = if self.count < FIRST && wanted <= FIRST {
            FIRST
        } else {
            ROOM
        };
        for _part in self.bytes.len() / FIRST..size / FIRST {
            let _ = self.bytes.extend_from_slice(&[0; FIRST]);
        }
    }

    // Takes in the file's bytes from this offset on, for a read of so many. A failure is met again by the
    // read that follows.
    fn fill(&mut self, file: &File, at: u64, wanted: usize) {
        self.widen(wanted);
        self.start = at;
        self.count = file.read_at(self.bytes.as_mut_slice(), at).unwrap_or(0);
    }

    /// The file's bytes from an offset on. A read past the file's end fails.
    pub fn read(&mut self, file: &File, at: u64, into: &mut [u8]) -> io::Result<()> {
        if into.len() < ROOM && self.goes_on(at) && self.held(at, into.len()).is_none() {
            self.fill(file, at, into.len());
        }
        self.last = Some(Span {
            start: at,
            end: at.saturating_add(into.len() as u64),
        });
        match self.held(at, into.len()) {
            Some(bytes) => {
                into.copy_from_slice(bytes);
                Ok(())
            }
            None => file.read_exact_at(into, at),
        }
    }
}

//! A reader of std as a source, and a writer as a sink.

ghost use Rattle.std.specs.Prelude.{◌≡◌};

use crate::interruption::{TRIES, is_interrupted, read_again};
use pump_frame::raised;
use pump_link::{ReadFault, Sink, Source, WriteFault};
use std::io::{Read, Write};

/// A reader of std as a source.
#[derive(Drop)]
pub struct StdSource<R> {
    inner: R,
    faults: u64,
}

impl<R> StdSource<R> {
    pub fn new(inner: R) -> Self
        ensures { result.faults ≡ 0 }
    {
        StdSource { inner, faults: 0 }
    }
}

impl<R: Read> Source for StdSource<R> {
    ghost left = { λ s. R.remaining s.inner };

    // It tells no pieces.
    ghost gives = { λ s pieces. ⊥ };

    ghost faults = { λ s. s.faults };

    fn read(&mut self, into: &mut [u8]) -> Result<usize, ReadFault> {
        match read_again(&mut self.inner, into) {
            Ok(count) => Ok(count),
            Err(fault) => {
                self.faults = raised(self.faults);
                Err(fault)
            }
        }
    }

    fn faults(&self) -> u64 {
        self.faults
    }
}

/// More than the longest line of a fault.
const LAST: usize = 128;

/// A writer of std as a sink. A write that takes nothing is a fault.
#[derive(Drop)]
pub struct StdSink<W> {
    inner: W,
    faults: u64,
    /// The last bytes that were written, from which `main` tells what was wrong; zeros before the first.
    last: [u8; LAST],
}

impl<W> StdSink<W> {
    pub fn new(inner: W) -> Self {
        StdSink {
            inner,
            faults: 0,
            last: [0; LAST],
        }
    }

    /// The last 128 bytes that were written, with zeros before the first.
    pub fn last(&self) -> &[u8] {
        &self.last
    }

    fn keep_last(&mut self, piece: &[u8])
        ensures inner { self.new.inner ≡ self.old.inner }
        ensures faults { self.new.faults ≡ self.old.faults }
    {
        let end = &piece[piece.len().saturating_sub(LAST)..];
        let before = self.last;
        let kept = LAST - end.len();
        self.last[..kept].copy_from_slice(&before[end.len()..]);
        self.last[kept..].copy_from_slice(end);
    }
}

impl<W: Write> Sink for StdSink<W> {
    ghost written = { λ s. W.contents s.inner };

    ghost faults = { λ s. s.faults };

    fn write(&mut self, bytes: &[u8]) -> Result<usize, WriteFault> {
        for _ in 0..TRIES {
            match self.inner.write(bytes) {
                Ok(count) if count > 0 => {
                    self.keep_last(&bytes[..count]);
                    return Ok(count);
                }
                Err(error) if is_interrupted(&error) => {}
                _ => break,
            }
        }
        self.faults = raised(self.faults);
        Err(WriteFault)
    }

    fn faults(&self) -> u64 {
        self.faults
    }
}

//! A source that shows on a terminal how far it is read.

ghost use Rattle.std.specs.Prelude.{◌≡◌};

use pump_link::{ReadFault, Source};
use std::io::Write;

/// A source that shows on a terminal how far it is read: how many bytes came, and how many pieces they
/// are, in one line that is written over. A piece begins where as many bytes are asked for as ever. Where
/// it is not to be shown, it is the source alone.
#[derive(Drop)]
pub struct ShownSource<I, W> {
    inner: I,
    terminal: W,
    is_shown: bool,
    piece: usize,
    bytes: u64,
    pieces: u64,
}

impl<I, W: Write> ShownSource<I, W> {
    /// Nothing came yet.
    pub fn new(inner: I, terminal: W, is_shown: bool) -> Self {
        ShownSource {
            inner,
            terminal,
            is_shown,
            piece: 0,
            bytes: 0,
            pieces: 0,
        }
    }

    // Shows that so many bytes came where so many were asked for. A terminal that can't be written shows
    // nothing.
    fn show(&mut self, count: usize, asked: usize)
        ensures inner { self.new.inner ≡ self.old.inner }
    {
        if asked >= self.piece && count > 0 {
            self.piece = asked;
            self.pieces = self.pieces.saturating_add(1);
        }
        self.bytes = self.bytes.saturating_add(count as u64);
        let _ = write!(
            self.terminal,
            "\r{} bytes, {} messages",
            self.bytes, self.pieces
        );
    }

    /// Ends the line, where one was shown.
    pub fn end(&mut self) {
        if self.is_shown && self.bytes > 0 {
            let _ = self.terminal.write_all(b"\n");
        }
    }
}

impl<I: Source, W: Write> Source for ShownSource<I, W> {
    ghost left = { λ s. I.left s.inner };

    ghost gives = { λ s. I.gives s.inner };

    ghost faults = { λ s. I.faults s.inner };

    fn read(&mut self, into: &mut [u8]) -> Result<usize, ReadFault> {
        let count = self.inner.read(into)?;
        if self.is_shown {
            self.show(count, into.len());
        }
        Ok(count)
    }

    fn faults(&self) -> u64 {
        self.inner.faults()
    }
}

//! A source or a sink that counts the lines that pass.

ghost use Rattle.std.specs.Prelude.{◌≡◌};

use pump_link::{ReadFault, Sink, Source, WriteFault};

/// A source or a sink, and how many line ends passed through it.
#[derive(Drop)]
pub struct Counted<T> {
    inner: T,
    lines: u64,
}

fn line_ends(bytes: &[u8]) -> u64 {
    let mut ends: u64 = 0;
    for byte in bytes {
        if *byte == b'\n' {
            ends = ends.saturating_add(1);
        }
    }
    ends
}

impl<T> Counted<T> {
    /// Nothing passed yet.
    pub fn new(inner: T) -> Self {
        Counted { inner, lines: 0 }
    }

    /// How many line ends passed. The count stays at its greatest value.
    pub fn lines(&self) -> u64 {
        self.lines
    }

    /// What is counted.
    pub fn inner(&self) -> &T {
        &self.inner
    }

    /// What is counted, to be used without a count.
    pub fn inner_mut(&mut self) -> &mut T {
        &mut self.inner
    }

    fn count(&mut self, bytes: &[u8])
        ensures inner { self.new.inner ≡ self.old.inner }
    {
        self.lines = self.lines.saturating_add(line_ends(bytes));
    }
}

impl<I: Source> Source for Counted<I> {
    ghost left = { λ s. I.left s.inner };

    ghost gives = { λ s. I.gives s.inner };

    ghost faults = { λ s. I.faults s.inner };

    fn read(&mut self, into: &mut [u8]) -> Result<usize, ReadFault> {
        let count = self.inner.read(into)?;
        self.count(&into[..count]);
        Ok(count)
    }

    fn faults(&self) -> u64 {
        self.inner.faults()
    }
}

impl<O: Sink> Sink for Counted<O> {
    ghost written = { λ s. O.written s.inner };

    ghost faults = { λ s. O.faults s.inner };

    fn write(&mut self, bytes: &[u8]) -> Result<usize, WriteFault> {
        let count = self.inner.write(bytes)?;
        self.count(&bytes[..count]);
        Ok(count)
    }

    fn faults(&self) -> u64 {
        self.inner.faults()
    }
}

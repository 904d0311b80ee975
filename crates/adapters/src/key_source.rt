//! The system's random bytes as a source.

ghost use Rattle.std.specs.Prelude.{None};

use crate::interruption::read_again;
use pump_frame::raised;
use pump_link::{ReadFault, Source};
use std::fs::{File, Files};

/// The system's random bytes as a source: `/dev/urandom`, which is opened at the first read. It tells
/// how often a read failed, and nothing of the bytes.
#[derive(Drop)]
pub struct KeySource<R> {
    files: R,
    opened: Option<File>,
    faults: u64,
}

impl<R: Files<File = File>> KeySource<R> {
    pub fn new(files: R) -> KeySource<R> {
        KeySource {
            files,
            opened: None,
            faults: 0,
        }
    }
}

impl<R: Files<File = File>> Source for KeySource<R> {
    // It tells no bytes.
    ghost left = { λ s. None };

    ghost gives = { λ s pieces. ⊥ };

    ghost faults = { λ s. s.faults };

    fn read(&mut self, into: &mut [u8]) -> Result<usize, ReadFault> {
        if self.opened.is_none() {
            self.opened = File::open(&self.files, "/dev/urandom").ok();
        }
        if let Some(file) = &mut self.opened {
            if let Ok(count) = read_again(file, into) {
                return Ok(count);
            }
        }
        self.faults = raised(self.faults);
        Err(ReadFault)
    }

    fn faults(&self) -> u64 {
        self.faults
    }
}

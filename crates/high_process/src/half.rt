//! The high half of a session: the high process with what it works over.

ghost use Rattle.std.specs.Prelude.{◌≡◌};
ghost use Rattle.stable_buffer.specs.High.{high_disk};

use crate::process::HighProcess;
use disk_model::Disk;
use stable_buffer::HighStore;

/// The high half of a session: the high process with its store and its end of the buffer. The three are in
/// step (`IsReady` of `specs/Halves.antt`) before each look and after it, so they are made, moved and taken
/// apart together.
#[derive(Drop)]
pub struct HighHalf<D, H> {
    pub process: HighProcess,
    pub store: HighStore<D>,
    pub ends: H,
}

impl<D: Disk, H> HighHalf<D, H> {
    /// Its disk and its end of the buffer, as it left them.
    pub fn into_disk(self) -> (D, H)
        ensures disk { result.0 ≡ high_disk self.store }
        ensures end { result.1 ≡ self.ends }
    {
        let HighHalf { store, ends, .. } = self;
        (store.into_disk(), ends)
    }
}

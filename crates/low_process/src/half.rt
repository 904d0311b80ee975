//! The low half of a session: the low process with what it works over.

ghost use Rattle.std.specs.Prelude.{◌≡◌};
ghost use Rattle.stable_buffer.specs.Low.{low_disk};

use crate::process::LowProcess;
use disk_model::Disk;
use stable_buffer::LowStore;

/// The low half of a session: the low process with its store and its end of the buffer. The three are in
/// step (`IsReady` of `specs/Halves.antt`) before each look and after it, so they are made, moved and taken
/// apart together.
#[derive(Drop)]
pub struct LowHalf<D, L> {
    pub process: LowProcess,
    pub store: LowStore<D>,
    pub ends: L,
}

impl<D: Disk, L> LowHalf<D, L> {
    /// Its disk and its end of the buffer, as it left them.
    pub fn into_disk(self) -> (D, L)
        ensures disk { result.0 ≡ low_disk self.store }
        ensures end { result.1 ≡ self.ends }
    {
        let LowHalf { store, ends, .. } = self;
        (store.into_disk(), ends)
    }
}

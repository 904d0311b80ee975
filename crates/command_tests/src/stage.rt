//! A shelf in memory over which tests replay scripts. What a replay needs is made and let go here, and a
//! test holds small values alone: statuses, and the bytes that were written.

ghost use Rattle.std.specs.Prelude.{◌<◌};

use chain_replay::replay_chain;
use disk_model::{Disk, DiskName, MemShelf, Role};
use pump_link::{MemSink, MemSource};
use script_replay::replay;
use std::alloc::{AllocError, Global};

/// How a script is replayed: its sessions one beside the other, or two of them as a chain.
#[derive(Clone, Copy)]
pub enum Play {
    Sessions,
    Chain,
}

/// The shelf with its disks.
pub struct Stage<D: Disk + Drop> {
    shelf: MemShelf<D>,
}

// By hand, so that the end of a stage is one call wherever it stands.
impl<D: Disk + Drop> Drop for Stage<D> {
    fn drop(self) {
        let Stage { shelf } = self;
        drop(shelf);
    }
}

// The most bytes that a replay may write.
const ROOM: usize = 32_768;

impl<D: Disk + Drop> Stage<D> {
    /// A stage with these disks.
    pub fn new(disks: Vec<(DiskName, D)>) -> Stage<D> {
        let files = Vec::new(*disks.allocator());
        let fails = Vec::new(*disks.allocator());
        Stage {
            shelf: MemShelf::new(disks, files, fails),
        }
    }

    /// The status and the output of a script that comes in pieces, where these reads and writes fail.
    pub fn run(
        &mut self,
        play: Play,
        script: Vec<u8>,
        piece: usize,
        read_fails: Vec<u64>,
        write_fails: Vec<u64>,
    ) -> Result<(u8, Vec<u8>), AllocError>
        requires { 0 < piece }
    {
        let alloc = *script.allocator();
        let room = vec![in alloc; 0; ROOM]?;
        let mut source = MemSource::new(script, piece, read_fails);
        let mut sink = MemSink::new(room, ROOM, write_fails);
        let status = match play {
            Play::Sessions => replay(alloc, &mut self.shelf, &mut source, &mut sink),
            Play::Chain => replay_chain(alloc, &mut self.shelf, &mut source, &mut sink).status(),
        };
        let written = Vec::from_slice(alloc, sink.written());
        drop(source);
        drop(sink);
        Ok((status, written?))
    }

    /// The status and the output of a script of these parts.
    pub fn play(
        &mut self,
        alloc: Global,
        play: Play,
        parts: &[&str],
    ) -> Result<(u8, Vec<u8>), AllocError> {
        let script = joined(alloc, parts)?;
        self.run(play, script, 7, Vec::new(alloc), Vec::new(alloc))
    }

    /// Whether the three disks of session 1 are on the shelf.
    pub fn are_back(&self) -> bool {
        [Role::Low, Role::High, Role::Recv].iter().all(|role| self
            .shelf
            .home(DiskName {
                session: 1,
                role: *role,
            })
            .is_some())
    }
}

pub fn joined(alloc: Global, parts: &[&str]) -> Result<Vec<u8>, AllocError> {
    let mut bytes = Vec::new(alloc);
    for part in parts {
        bytes.extend_from_slice(part.as_bytes())?;
    }
    Ok(bytes)
}

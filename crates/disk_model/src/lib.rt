//! A disk as the stores see it (`Disk`): what its calls may change, what a crash may leave of it, and two
//! forms in memory, `MemDisk`, which tells every image that a crash may leave, and `PlainDisk`, which tells
//! when its next call fails. What a disk tells of itself is the record `Meaning` of `specs/Disk.antt`. A
//! `Shelf`, from which disks are taken by their names (`DiskName`, `Role`) and to which they come back, tells
//! the `Holdings` of `specs/Shelf.antt`; `MemShelf` is one in memory. It knows no session and no byte of any
//! format.
#![tactic(auto)]

mod contents;
mod crash;
mod disk;
mod mem;
mod mem_shelf;
mod name;
mod plain;
mod range;
mod record;
mod shelf;
mod spare;

pub use disk::{Disk, DiskFault};
pub use mem::MemDisk;
pub use mem_shelf::MemShelf;
pub use name::{DiskName, Role};
pub use plain::PlainDisk;
pub use record::Outcome;
pub use shelf::{Shelf, ShelfFault};

// What a collector makes of messages, and why it does not.
use arrayvec::ArrayString;
use file_messages::{Cause, FileName};

/// A file that was shown.
#[derive(Clone, Copy)]
pub struct Shown {
    /// The name under which it is shown.
    pub name: ArrayString<144>,
    /// How many bytes it has.
    pub size: u64,
    /// The SHA-256 of its bytes.
    pub digest: [u8; 32],
}

/// A file that was dropped.
#[derive(Clone, Copy)]
pub struct Lost {
    pub cause: Cause,
    /// Its own name.
    pub name: FileName,
}

/// What a message came to.
#[derive(Clone, Copy)]
pub enum Placed {
    /// A file begins.
    Begun,
    /// It has more bytes.
    Grown,
    /// It is whole, and shown.
    Shown(Shown),
    /// It is dropped.
    Dropped(Lost),
    /// The message is none of a file that has begun.
    Odd,
}

/// Why a message could not be placed.
#[derive(Clone, Copy, Debug, PartialEq, Eq)]
pub enum PlaceFault {
    /// A call of the folder or of the part failed: its count after that call.
    Device { faults: u64 },
    /// The file is whole, but its name is taken, and also the one with its number.
    NameTaken,
}

/// Why a collector does not open.
#[derive(Clone, Copy, Debug, PartialEq, Eq)]
pub enum CollectFault {
    /// A call of the folder or of the part failed: its count after that call.
    Folder { faults: u64 },
    /// A call of the register's disk failed: its count after that call.
    Register { faults: u64 },
    /// The register's disk is none of a collector.
    Other,
    /// The register's disk is one of a collector, but what it holds was written by none.
    Damaged,
}

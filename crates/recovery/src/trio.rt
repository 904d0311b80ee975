// The three disks of a session, and how a move to new ones ended.
use crate::Why;
use disk_model::Role;

/// The three disks of a session.
#[derive(Drop)]
pub struct Trio<D> {
    pub low: D,
    pub high: D,
    pub recv: D,
}

/// Why the disks of a session are not moved.
#[derive(Clone, Copy, PartialEq, Eq, Debug)]
pub struct MoveFault {
    /// The fault is one of the new disks, and else one of the old.
    pub new: bool,
    pub role: Role,
    pub why: Why,
}

/// Both sets of disks after a move, and how it ended: how many messages were accepted, removed and
/// received, or why nothing was moved.
#[derive(Drop)]
pub struct Migrated<D> {
    pub old: Trio<D>,
    pub new: Trio<D>,
    pub end: Result<(u64, u64, u64), MoveFault>,
}

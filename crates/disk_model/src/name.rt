/// Which of a session's three disks.
#[derive(Clone, Copy, Debug, PartialEq, Eq)]
pub enum Role {
    /// The low process's disk: the accepted messages.
    Low,
    /// The high process's disk: how many messages are removed.
    High,
    /// The receiver's disk: the messages that it has taken.
    Recv,
}

/// The name of a disk.
#[derive(Clone, Copy, Debug, PartialEq, Eq)]
pub struct DiskName {
    pub session: u32,
    pub role: Role,
}

//! Why two pumps make no chain.

use crate::six::Six;
use disk_model::Role;
use recovery::Why;

/// Why two pumps make no chain: the first cause in this order. The first pump's opening, the second
/// one's, and then their comparison: `Link` before `Unlike`.
#[derive(Clone, Copy, PartialEq, Eq, Debug)]
pub enum ChainWhy {
    /// Memory was wanting.
    Memory,
    /// The pump of this session is not opened, for the cause that its own opening gives; or its disk
    /// failed while the two were compared.
    Pump { session: u32, role: Role, why: Why },
    /// The second pump has accepted more messages than the first receiver has: how many, and how many
    /// that has.
    Link { count: u64, bound: u64 },
    /// The least message that the second pump has accepted and the first receiver has otherwise.
    Unlike { number: u64 },
}

/// Two pumps that make no chain. The six disks come back; one that was empty may be formatted, and each
/// other is as it was.
#[derive(Drop)]
pub struct NotChained<D> {
    pub disks: Six<D>,
    pub why: ChainWhy,
}

//! Why a pump was not opened, with its disks.

use disk_model::Role;
use recovery::Why;

/// Why a pump was not opened. The three disks come back: one that was empty may be formatted, and each
/// other is as it was.
#[derive(Drop)]
pub struct NotOpen<D> {
    /// The disk that is the cause; low's where memory was wanting.
    pub role: Role,
    /// The first cause in the order of `docs/formats.md`, "Disks"; none where memory was wanting, and
    /// then no disk was called.
    pub why: Option<Why>,
    pub low: D,
    pub high: D,
    pub recv: D,
}

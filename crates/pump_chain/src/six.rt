//! The six disks of two pumps in a row.

use recovery::Trio;

/// The disks of two pumps in a row.
#[derive(Drop)]
pub struct Six<D> {
    pub first: Trio<D>,
    pub second: Trio<D>,
}

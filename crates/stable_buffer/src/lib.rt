//! Counts and messages on disks, which outlive a crash at any moment. A `Register` holds two numbers that
//! change whole or not at all; `LowStore` keeps the messages of the low process in slots beside it, and
//! `HighStore` the count of the high process. `begin` and `finish`, or `format`, make new disks of a row, and
//! `disk_size`, `letter` and `slot_place` say where things lie on one. After a call that failed a store is
//! shut, and says which fault it was (`Device`). The bytes are those of `docs/formats.md`, "Disks". It knows
//! no process and no frame.
#![tactic(auto)]

mod bytes;
mod device;
mod high;
mod low;
mod new_disk;
mod register;

pub use bytes::read_length;
pub use device::Device;
pub use high::HighStore;
pub use low::{LowStore, slot_place};
pub use new_disk::{
    RECEIVER_SIZE, VERSION, allows_version, begin, disk_size, finish, format, letter,
};
pub use register::Register;

//! What the three disks of a session stand for when it begins, and why they are refused: the first cause in
//! the order of `docs/formats.md`, "Disks" (`Why`). `open_pump` opens the disks of a relay and deals the
//! messages that are not removed out to the hands and the passage; `open_receiver` opens the receiver's;
//! `agree` compares the low disk with the receiver's; `migrate` writes what a session has on new disks. No
//! disk is mended: each comes back as it was. The laws say that all disks that a crash leaves of a lawful
//! world open. It knows no shelf and no script.
#![tactic(auto)]

mod compare;
mod filling;
mod fitting;
mod hands;
mod kept;
mod law;
mod moving;
mod pass;
mod pump;
mod receiver;
mod records;
mod shape;
mod survey;
mod trio;
mod why;

pub use compare::agree;
pub use law::{
    disks_tell_messages, each_triple_opens, each_world_opens, openings_refill, removed_images,
    stored_images, taken_images,
};
pub use moving::migrate;
pub use pump::{NotOpened, Opened, open_pump, open_pump_waiting};
pub use receiver::open_receiver;
pub use trio::{Migrated, MoveFault, Trio};
pub use why::Why;

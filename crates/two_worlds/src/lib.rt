//! The whole relay on one thread, and the laws over all that may happen in it. A `Pump` is a session over its
//! three disks: both processes, the passage between them and High's receiver, moved line by line of a script
//! (`apply`). A `LowPump` is a low side alone, told by its lines what the buffer answers. `survey_disks`
//! opens and compares the disks of a session and changes no byte of them (`Survey`). `Applied` is what a line
//! printed and whether it stopped the session (`Stop`). The module `laws` hands on the laws of `world_laws`.
//! It knows no shelf, no stream and no thread.
#![tactic(auto)]

mod applied;
mod connection;
pub mod laws;
mod low_pump;
mod low_side;
mod not_open;
mod printing;
mod pump;
mod waiting_list;

pub use applied::{Applied, Stop};
pub use low_pump::LowPump;
pub use not_open::NotOpen;
pub use printing::events_of;
pub use pump::{Pump, Survey, survey_disks};

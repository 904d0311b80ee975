//! The values that every layer of the relay speaks of: names of parties (`Name`), what a message carries
//! (`Payload`), the frames on the wire (`Frame`, `Kind`) with their bytes (`encode`, `Reader`), the row of a
//! session (`SessionRow`), a message with its number (`Item`), and how times are averaged (`Averaging`). Its
//! specs define delays, averages and levels, lawful rows, and how faults are counted (`raised`). The laws say
//! that each frame has one spelling and each stream one reading. It knows no link, no disk and no clock.
#![tactic(auto)]

mod averaging;
mod count;
mod frame;
mod laws;
mod memory;
mod name;
mod payload;
mod place;
mod reader;
mod row;
mod spelling;

pub use averaging::Averaging;
pub use count::raised;
pub use frame::{Frame, Item, Kind};
pub use laws::{
    all_bytes_are_a_stream, answers_are_exact, cuts_do_not_matter, names_are_one,
    spellings_are_free, streams_are_one,
};
pub use memory::OutOfMemory;
pub use name::Name;
pub use payload::Payload;
pub use reader::{Fed, Reader, Step};
pub use row::{GREATEST_CAPACITY, LEAST_CAPACITY, RowKey, SessionRow};
pub use spelling::{encode, encode_parts};

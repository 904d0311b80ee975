//! The replay of a script over the disks of a shelf: it reads the script line by line, writes the transcript,
//! and answers how it ended (`replay`). A session is a pump over the three disks of its number, or a low side
//! alone. Printed lines are held back until a large piece is there or the next line has not come yet
//! (`Output`). The disks are back on the shelf at the end, however that comes; `take_disks` and
//! `put_disks_back` serve other commands too. It knows no file of the machine and no word of a command line.
//! `docs/formats.md`, "Scripts", has the lines.
#![tactic(auto)]

mod applying;
mod disks;
mod ended;
mod outcome;
mod output;
mod replaying;
mod session;
mod sessions;

pub use disks::{NotTaken, put_disk_back, put_disks_back, take_disk, take_disks};
pub use ended::Ended;
pub use outcome::{fault_of, refusal_of, untaken_fault};
pub use output::Output;
pub use replaying::replay;

//! How a replay ends, and its status.

ghost use Rattle.std.specs.Prelude.{◌≡◌, ◌≤◌, ◌⊎◌};
ghost use Rattle.script_replay.specs.Ends.{end_status};

use script_reader::Fault;

/// How a replay ends.
#[derive(Clone, Copy)]
pub enum Ended {
    /// The script was read to its end, and its transcript was written.
    Done,
    /// There was not enough memory; nothing was written.
    Memory,
    /// The output could not be written; a prefix of it was.
    Write,
    /// With this fault, which is the last line of the output.
    Stopped(Fault),
}

impl Ended {
    /// The status of the program. `docs/formats.md`, "Statuses and fault lines", has them.
    pub fn status(&self) -> u8
        ensures is { result ≡ end_status self.now }
        ensures range { (result ≤ 8) ⊎ (result ≡ 10) }
    {
        match self {
            Ended::Done => 0,
            Ended::Memory => 1,
            Ended::Stopped(Fault::Words) => 2,
            Ended::Stopped(Fault::Read) => 3,
            Ended::Write => 4,
            Ended::Stopped(Fault::Script { .. }) => 5,
            Ended::Stopped(Fault::Device { .. }) => 7,
            Ended::Stopped(Fault::Disk { .. }) => 8,
            Ended::Stopped(Fault::Full { .. }) => 10,
        }
    }
}

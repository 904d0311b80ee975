//! Laws of a session that is served. Each is a function without a body whose contract is the law.

ghost use Rattle.std.specs.Prelude.{[], List};
ghost use Rattle.pump_core.specs.History.{Opening};
ghost use Rattle.pump_frame.specs.Rows.{IsLawfulRow};
ghost use Rattle.pump_frame.specs.declared.row.SessionRow.{SessionRow};
ghost use Rattle.relay_threads.specs.LowStays.{Stay, AreStays, stayed};
ghost use Rattle.relay_threads.specs.Records.{AreMade};
ghost use Rattle.relay_threads.specs.Replays.{AreReadable, TellLevels};
ghost use Rattle.script_reader.specs.Openings.{Openings};
ghost use Rattle.serving.specs.Replayed.{ReplaysToItself};

use pump_link::Door;

/// The record of a low worker's stays, of which `LowServed` says that they are stays, that their looks are
/// a life, that each line reads back and that a coarse session is told levels, is a script that replays to
/// its own `low` lines, whatever any disks are found to hold.
pub fn served_records_replay<P: Door>()
    ensures { (opens : Openings) (row : SessionRow) (o : Opening) (stays : List (Stay P.Link)) → IsLawfulRow row
        → AreStays row o [] stays
        → AreMade row o (stayed [] stays) → AreReadable row o (stayed [] stays) → TellLevels row (stayed [] stays)
        → ReplaysToItself opens row o (stayed [] stays) }
{}

//! Laws of records. Each is a function without a body whose contract is the law.

ghost use Rattle.std.specs.Prelude.{◌≡◌, [], List, Some, true, false};
ghost use Rattle.std.specs.List.{AllByRecursion};
ghost use Rattle.pump_frame.specs.Rows.{IsLawfulRow};
ghost use Rattle.pump_frame.specs.declared.row.SessionRow.{SessionRow};
ghost use Rattle.pump_core.specs.History.{Opening};
ghost use Rattle.pump_core.specs.Exchanges.{Part, IsCut};
ghost use Rattle.pump_core.specs.Standing.{end_of};
ghost use Rattle.relay_threads.specs.Records.{Made, AreMade, life_made, replies_made, record_of};
ghost use Rattle.relay_threads.specs.LowStays.{Stay, AreStays, stayed};
ghost use Rattle.relay_threads.specs.Replays.{TellLevels, TakeLawful, AreConnected, is_lost, IsReadable, AreReadable};
ghost use Rattle.relay_threads.specs.Replays.{Replays, StopsAtLast};
ghost use Rattle.relay_threads.specs.RecordLines.{record_text, record_script};
ghost use Rattle.script_reader.specs.Lines.{AreLines};
ghost use Rattle.script_reader.specs.Openings.{Openings};

use pump_link::Door;

/// The recorded looks of a life are a life of their own (`life`), each with what it took and replied.
/// They have all the replies, at their moments (`replies`), and end where the life ends: with as many
/// messages stored, on a connection that is greeted or not, in the same phase (`end`).
pub fn records_are_lives()
    ensures life { (row : SessionRow) (o : Opening) (made : List Made) → AreMade row o made
        → AreMade row o (record_of made) }
    ensures replies { (made : List Made) → replies_made (record_of made) ≡ replies_made made }
    ensures end { (row : SessionRow) (o : Opening) (made : List Made) (parts fewer : List Part) → AreMade row o made
        → IsCut row (life_made o made) parts → IsCut row (life_made o (record_of made)) fewer
        → end_of row o fewer ≡ end_of row o parts }
{}

/// A record replays to its own `low` lines, byte for byte: its script has a transcript, whose `low` lines
/// are all replies of the life, each with its moment, which are the comments of the record (`whole`).
/// Where the last recorded look lost its message, that look stops the script, as a device that failed,
/// and the `low` lines up to and with it are all replies (`stopped`). Whatever any disks were found to
/// hold plays no part. Each frame that was taken is lawful, and after bad bytes nothing more was taken of
/// a connection but its loss, as a reader of frames gives it; and where the session is coarse, each
/// average that was told is a level, as a coarse passage gives it.
pub fn records_replay()
    ensures whole { (opens : Openings) (row : SessionRow) (o : Opening) (made : List Made) → IsLawfulRow row
        → AreMade row o made
        → TellLevels row made → TakeLawful made → AreConnected made → is_lost (record_of made) ≡ false
        → Replays opens row o made }
    ensures stopped { (opens : Openings) (row : SessionRow) (o : Opening) (made : List Made) → IsLawfulRow row
        → AreMade row o made
        → TellLevels row made → TakeLawful made → AreConnected made → is_lost (record_of made) ≡ true
        → StopsAtLast opens row o made }
{}

/// The bytes of a record are its script, each comment a line that is skipped, where each of its lines
/// reads back, as `append_opening`, `append_coarse` and `append_look` say of what they put down.
pub fn records_are_scripts()
    ensures { (row : SessionRow) (o : Opening) (made : List Made) → AreReadable row o made
        → AreLines (Some (record_text row o made)) (record_script row o made) (Some []) }
{}

/// The looks of a low worker's stays at its door are looks whose record replays: each frame that was taken
/// is lawful (`lawful`), after bad bytes nothing more was taken of a connection but its loss
/// (`connected`), and a reader of scripts reads each line that a record has of them (`readable`).
pub fn stays_are_replayable<P: Door>()
    ensures lawful { (row : SessionRow) (o : Opening) (stays : List (Stay P.Link)) → AreStays row o [] stays
        → TakeLawful (stayed [] stays) }
    ensures connected { (row : SessionRow) (o : Opening) (stays : List (Stay P.Link)) → AreStays row o [] stays
        → AreMade row o (stayed [] stays)
        → AreConnected (stayed [] stays) }
    ensures readable { (row : SessionRow) (o : Opening) (stays : List (Stay P.Link)) → IsLawfulRow row
        → AreStays row o [] stays
        → AllByRecursion (IsReadable row) (record_of (stayed [] stays)) }
{}

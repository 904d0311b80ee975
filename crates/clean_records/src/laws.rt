//! Records that the relay prints are clean. Each is a function without a body whose contract is the law.

ghost use Rattle.std.specs.Prelude.{ℕ, ◌+◌, ◌*◌, ◌^◌, ◌<◌, List, []};
ghost use Rattle.pump_core.specs.History.{Opening};
ghost use Rattle.pump_core.specs.Passage.{NeverFall};
ghost use Rattle.pump_frame.specs.Rows.{IsLawfulRow};
ghost use Rattle.pump_frame.specs.declared.row.SessionRow.{SessionRow};
ghost use Rattle.race.specs.Race.{IsRaceRecord};
ghost use Rattle.race.specs.Turns.{CanTurn};
ghost use Rattle.relay_threads.specs.LowStays.{Stay, AreStays, stayed, count};
ghost use Rattle.relay_threads.specs.PairsRead.{pairs_of};
ghost use Rattle.relay_threads.specs.RecordLines.{record_text};
ghost use Rattle.relay_threads.specs.Records.{Made, AreMade};
ghost use Rattle.relay_threads.specs.Replays.{AreReadable, TellLevels, TakeLawful};
ghost use Rattle.clean_records.specs.Clean.{IsCleanRecord, HasFewLines};

use pump_link::Door;

/// The record of a low process's looks is clean, where each of its lines reads back, each frame that was
/// taken is lawful, each average that a coarse session is told is a level, the counts that are told never
/// fall, and it has few enough lines.
pub fn records_are_clean()
    ensures { (row : SessionRow) (o : Opening) (made : List Made) → IsLawfulRow row → AreMade row o made
        → AreReadable row o made
        → TellLevels row made → TakeLawful made → NeverFall (pairs_of made) → HasFewLines (record_text row o made)
        → IsCleanRecord (record_text row o made) }
{}

/// The record of a low worker's stays is clean. `LowServed` says of what a relay served that they are stays,
/// that their looks are a life, that each line reads back, that a coarse session is told levels and that the
/// counts that are told never fall. It has at most two lines for each round and two at its head, so of fewer
/// than 2^31 - 1 rounds it has few enough lines.
pub fn served_records_are_clean<P: Door>()
    ensures clean { (row : SessionRow) (o : Opening) (stays : List (Stay P.Link)) → IsLawfulRow row
        → AreStays row o [] stays
        → AreMade row o (stayed [] stays) → AreReadable row o (stayed [] stays) → TellLevels row (stayed [] stays)
        → NeverFall (pairs_of (stayed [] stays)) → HasFewLines (record_text row o (stayed [] stays))
        → IsCleanRecord (record_text row o (stayed [] stays)) }
    ensures few { (row : SessionRow) (o : Opening) (stays : List (Stay P.Link)) → AreReadable row o (stayed [] stays)
        → 2 * count stays + 2 < 2 ^ 32 → HasFewLines (record_text row o (stayed [] stays)) }
{}

/// The record that a race prints where neither of its workers was stopped is clean. The times of a race are 1
/// to 16, each at most 10^9, and its messages at most 100000, as it asks of its caller.
pub fn race_records_are_clean()
    ensures { (seed count : ℕ) (times readings : List ℕ) (asks : List (ℕ × ℕ)) (bytes : List ℕ) → CanTurn times count
        → IsRaceRecord seed count times readings asks bytes → IsCleanRecord bytes }
{}

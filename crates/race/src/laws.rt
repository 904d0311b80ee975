//! Laws of a race. Each is a function without a body whose contract is the law.

ghost use Rattle.std.specs.Prelude.{◌≡◌, ℕ, Bool, List};
ghost use Rattle.pump_core.specs.Passage.{Low, High, Agrees, shape_of_row};
ghost use Rattle.relay_threads.specs.Records.{Made, recorded};
ghost use Rattle.script_reader.specs.Generated.{generated_row};
ghost use Rattle.script_reader.specs.Openings.{Openings};
ghost use Rattle.race.specs.MadeLooks.{moments_of};
ghost use Rattle.race.specs.Race.{IsLowRun, IsHighRun, ArePrinted, IsRaceRecord, IsStoppedRecord, payloads};
ghost use Rattle.race.specs.Replayed.{ReplaysToItself};

/// What the two works did and what ties their two ends decide what is printed (`printed`), and what the
/// receiver has (`received`).
pub fn works_and_ends_decide()
    ensures printed { (seed count : ℕ) (times : List ℕ) (made : List Made) (low : Low) (high : High)
        (received : List (List ℕ)) → IsLowRun seed count made low
        → IsHighRun count times high received → Agrees (shape_of_row generated_row) low high
        → ArePrinted seed count times (moments_of made) (recorded made) }
    ensures received { (seed count : ℕ) (times : List ℕ) (made : List Made) (low : Low) (high : High)
        (received : List (List ℕ)) → IsLowRun seed count made low
        → IsHighRun count times high received → Agrees (shape_of_row generated_row) low high
        → received ≡ payloads seed count }
{}

/// The record of a race is a script that replays to its own `low` lines (`whole`), and so is that of a
/// race of which a worker was stopped (`stopped`).
pub fn race_records_replay()
    ensures whole { (seed count : ℕ) (times readings : List ℕ) (asks : List (ℕ × ℕ)) (bytes : List ℕ) (opens : Openings)
        → IsRaceRecord seed count times readings asks bytes → ReplaysToItself opens bytes }
    ensures stopped { (seed count : ℕ) (is_low_stopped : Bool) (readings : List ℕ) (asks : List (ℕ × ℕ))
        (bytes : List ℕ) (opens : Openings)
        → IsStoppedRecord seed count is_low_stopped readings asks bytes → ReplaysToItself opens bytes }
{}

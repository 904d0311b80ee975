//! The law that each line of a generated script can be applied.

ghost use Rattle.std.specs.Prelude.{ℕ, ◌≤◌, drop};
ghost use Rattle.script_reader.specs.Generated.{generated_row, generated};
ghost use Rattle.script_reader.specs.Openings.{nothing_found, first_past};
ghost use Rattle.script_reader.specs.Applying.{AllApply};

/// Each line of a generated script can be applied, over new disks: after its first line none is refused,
/// and no message overfills the receiver's disk.
pub fn generated_lines_apply()
    ensures { (seed count : ℕ) → count ≤ 100000
        → AllApply generated_row (first_past generated_row nothing_found) (drop 1 (generated seed count)) }
{}

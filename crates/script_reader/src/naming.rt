//! What a line says of itself before it is applied.

ghost use Rattle.std.specs.Prelude.{◌≡◌, ℕ, List};
ghost use Rattle.script_reader.specs.Heads.{line_with};
ghost use Rattle.script_reader.specs.Sessions.{session_in, begins_session as begins, stands_first as is_first};
ghost use Rattle.script_reader.specs.Sessions.{moment_in};

use crate::head::LineHead;

/// The number of the session that a line names.
pub fn session_of(line: &LineHead) -> Option<u32>
    ensures { (bytes : List ℕ) → session_in (line_with bytes line.now) ≡ result }
{
    match line {
        LineHead::Skip => None,
        LineHead::Session(row) => Some(row.id),
        LineHead::LowSession { row, .. } => Some(row.id),
        LineHead::Coarse { session }
        | LineHead::Carry { session, .. }
        | LineHead::At { session, .. } => Some(*session),
    }
}

/// The moment of a line that has one, in microseconds.
pub fn moment_of(line: &LineHead) -> Option<u64>
    ensures { (bytes : List ℕ) → moment_in (line_with bytes line.now) ≡ result }
{
    match line {
        LineHead::At { moment, .. } => Some(*moment),
        _ => None,
    }
}

/// Whether a line is to begin a session.
pub fn begins_session(line: &LineHead) -> bool
    ensures { (bytes : List ℕ) → begins (line_with bytes line.now) ≡ result }
{
    matches!(line, LineHead::Session(_) | LineHead::LowSession { .. })
}

/// Whether a line stands before all others: it begins a session, or makes one coarse.
pub fn stands_first(line: &LineHead) -> bool
    ensures { (bytes : List ℕ) → is_first (line_with bytes line.now) ≡ result }
{
    begins_session(line) || matches!(line, LineHead::Coarse { .. })
}

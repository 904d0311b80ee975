//! The two `session` lines with which a script begins.

ghost use Rattle.std.specs.Prelude.{◌≡◌, ◌^◌, ◌<◌, ◌≤◌, ℕ, List, [], length, Option, IfOk, OnOk, IfErr, true, false};
ghost use Rattle.chain_replay.specs.Private.{IsOpens, HasRead, ReadsRow, ReadsNoFurther};
ghost use Rattle.chain_replay.specs.Scripts.{Begun, OnePump, MayFollow, LacksPump};
ghost use Rattle.pump_frame.specs.Rows.{IsLawfulRow};
ghost use Rattle.script_reader.specs.Heads.{line_with};
ghost use Rattle.script_reader.specs.Lines.{to_come};
ghost use Rattle.script_reader.specs.Openings.{Openings};

use pump_frame::SessionRow;
use pump_link::Source;
use script_reader::{Body, Fault, LineHead, LinedHead, Lines};

/// What a line is to a script that is to begin a session.
#[derive(Clone, Copy)]
pub enum FirstLine {
    /// It is skipped.
    Nothing,
    /// It begins the session of this row.
    Pump(SessionRow),
    /// It can't be applied.
    Wrongly,
}

fn find_opens(line: &LineHead) -> FirstLine
    ensures { (bytes : List ℕ) → IsOpens (line_with bytes line.now) result }
{
    match line {
        LineHead::Skip => FirstLine::Nothing,
        LineHead::Session(row) => match row.first_bad() {
            None => FirstLine::Pump(*row),
            Some(_) => FirstLine::Wrongly,
        },
        _ => FirstLine::Wrongly,
    }
}

/// The row of the next `session` line, before which lines are only skipped.
fn next_row<I: Source>(
    lines: &mut Lines,
    body: &mut Body,
    script: &mut I,
) -> Result<SessionRow, Fault>
    requires few { lines.old.number < 2 ^ 32 }
    ensures row { IfOk result (λ row. (o : Openings) (all : Option (List ℕ)) (begun : Begun) → LacksPump begun
        → HasRead o all (to_come lines.old (I.left script.old)) lines.old.number begun []
        → ReadsRow o all (I.left script.new) lines.new begun row) }
    ensures lawful { IfOk result (λ row. IsLawfulRow row) }
    ensures halted { IfErr result (λ fault. (o : Openings) (all : Option (List ℕ)) (begun : Begun) → LacksPump begun
        → HasRead o all (to_come lines.old (I.left script.old)) lines.old.number begun []
        → ReadsNoFurther o all (I.left script.new) (I.faults script.old) (I.faults script.new) begun fault) }
    ensures number { lines.new.number < 2 ^ 32 }
    ensures held { OnOk result (length lines.new.held ≤ 4096) }
    ensures later { I.faults script.old ≤ I.faults script.new }
{
    'turns: loop {
        match lines.next_head(script, body) {
            LinedHead::Line(line) => match find_opens(&line) {
                FirstLine::Nothing => {}
                FirstLine::Pump(row) => return Ok(row),
                FirstLine::Wrongly => return Err(Fault::Script {
                    line: lines.number(),
                }),
            },
            LinedHead::Bad => return Err(Fault::Script {
                line: lines.number(),
            }),
            LinedHead::Failed => return Err(Fault::Read),
            // The end counts as the line after the last.
            LinedHead::End => return Err(Fault::Script {
                line: lines.number().saturating_add(1),
            }),
        }
    }
}

// Whether the second row may follow the first one in a chain.
fn may_follow(one: &SessionRow, two: &SessionRow) -> bool
    requires { IsLawfulRow two.now }
    ensures may { result ≡ true → MayFollow one.now two.now }
    ensures not { result ≡ false → MayFollow one.now two.now → ⊥ }
{
    one.id != two.id && one.message <= two.message
}

/// The rows of the two pumps, the first one's first.
pub fn read_rows<I: Source>(
    lines: &mut Lines,
    body: &mut Body,
    script: &mut I,
) -> Result<(SessionRow, SessionRow), Fault>
    requires fresh { lines.old ≡ record { held = []; number = 0 } }
    ensures rows { IfOk result (λ rows. (o : Openings)
        → ReadsRow o (I.left script.old) (I.left script.new) lines.new (OnePump rows.0) rows.1) }
    ensures lawful { IfOk result (λ rows. IsLawfulRow rows.0) }
    ensures follows { IfOk result (λ rows. MayFollow rows.0 rows.1) }
    ensures halted { IfErr result (λ fault. (o : Openings) → (begun : Begun) × LacksPump begun
        × ReadsNoFurther o (I.left script.old) (I.left script.new) (I.faults script.old) (I.faults script.new) begun
        fault) }
    ensures number { lines.new.number < 2 ^ 32 }
    ensures held { OnOk result (length lines.new.held ≤ 4096) }
    ensures later { I.faults script.old ≤ I.faults script.new }
{
    let one = match next_row(lines, body, script) {
        Ok(row) => row,
        Err(fault) => return Err(fault),
    };
    let two = match next_row(lines, body, script) {
        Ok(row) => row,
        Err(fault) => return Err(fault),
    };
    if !may_follow(&one, &two) {
        return Err(Fault::Script {
            line: lines.number(),
        });
    }
    Ok((one, two))
}

//! Which session of a chain a line belongs to.

ghost use Rattle.std.specs.Prelude.{◌≡◌, ◌==◌, if◌then◌else◌, ℕ, List, false};
ghost use Rattle.script_reader.specs.Heads.{line_with};
ghost use Rattle.pump_chain.specs.Chained.{is_look};
ghost use Rattle.pump_chain.specs.Private.{IsWhose};

use script_reader::{Act, LineHead};

/// What a line is to a chain of two pumps.
#[derive(Clone, Copy)]
pub enum Whose {
    /// It is skipped.
    Nobodys,
    /// A line of the first session.
    Firsts,
    /// A line of the second session.
    Seconds,
    /// A look of the second session, before which the sender adds what it has.
    Senders { moment: u64, word: u32 },
    CoarsensFirst,
    CoarsensSecond,
    /// No line of a chain.
    NoChains,
}

// The one of the session of this number.
fn of(session: u32, first: u32, second: u32, one: Whose, other: Whose) -> Whose
    ensures { result ≡ (if session == first then one else if session == second then other else Whose.NoChains) }
{
    if session == first {
        one
    } else if session == second {
        other
    } else {
        Whose::NoChains
    }
}

/// Whose the line is, by the numbers of the two sessions.
pub fn find_whose(line: &LineHead, first: u32, second: u32) -> Whose
    ensures is { (bytes : List ℕ) → IsWhose first second (line_with bytes line.now) result }
    ensures seconds { result ≡ Whose.Seconds → (bytes : List ℕ) → is_look (line_with bytes line.now) ≡ false }
{
    match *line {
        LineHead::Skip => Whose::Nobodys,
        LineHead::Session(_) | LineHead::LowSession { .. } => Whose::NoChains,
        LineHead::Coarse { session } => of(
            session,
            first,
            second,
            Whose::CoarsensFirst,
            Whose::CoarsensSecond,
        ),
        LineHead::Carry { session, .. } => {
            of(session, first, second, Whose::Firsts, Whose::Seconds)
        }
        LineHead::At {
            session,
            moment,
            ref act,
        } => match *act {
            Act::Told { .. } => Whose::NoChains,
            Act::Look { .. } => of(session, first, first, Whose::Firsts, Whose::NoChains),
            Act::Step { word } => {
                let look = Whose::Senders { moment, word };
                of(session, second, second, look, Whose::NoChains)
            }
            Act::Gone
            | Act::High
            | Act::Return { .. }
            | Act::Done { .. }
            | Act::Restart
            | Act::ReceiverRestart => of(session, first, second, Whose::Firsts, Whose::Seconds),
        },
    }
}

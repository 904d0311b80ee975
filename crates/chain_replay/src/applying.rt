//! A line of a chain.

ghost use Rattle.std.specs.Prelude.{◌≡◌, ◌≤◌, ℕ, List, false};
ghost use Rattle.chain_replay.specs.Faults.{session_or, broken_in};
ghost use Rattle.chain_replay.specs.Private.{outcome_by, HasFailed, IsByLine, IsDevice, LineDoes};
ghost use Rattle.pump_chain.specs.Chained.{Chained};
ghost use Rattle.pump_chain.specs.Failing.{FailNoLess};
ghost use Rattle.pump_chain.specs.Standing.{ChainStands, chain_is_down};
ghost use Rattle.pump_frame.specs.Counts.{Rose};
ghost use Rattle.script_reader.specs.Heads.{line_with, CanHoldLine};
ghost use Rattle.script_reader.specs.Lawful.{IsLawfulLine};
ghost use Rattle.script_replay.specs.Outputs.{held_of};

use arrayvec::ArrayVec;
use disk_model::{Disk, Role};
use pump_chain::Chain;
use pump_link::Sink;
use script_reader::{Act, Body, EventHead, Fault, LineHead, session_of};
use script_replay::{Output, refusal_of};
use two_worlds::Stop;

/// What became of a line of a chain.
#[derive(Clone, Copy)]
pub enum ChainOutcome {
    Applied,
    Refused,
    /// It stops the script with this fault.
    Stopped(Fault),
    Unwritten,
}

// The session whose disk of this role fails in a line: at a `step` the receiver's disk is the first
// session's, from which the message is read that is to be sent on.
fn session_at(first: u32, line: &LineHead, role: Role) -> u32
    ensures { (bytes : List ℕ) → result ≡ broken_in first (line_with bytes line.now) role }
{
    match (line, role) {
        (
            LineHead::At {
                act: Act::Step { .. },
                ..
            },
            Role::Recv,
        ) => first,
        _ => session_or(first, line),
    }
}

// The session that the line names, or the first one where it names none.
fn session_or(first: u32, line: &LineHead) -> u32
    ensures { (bytes : List ℕ) → result ≡ session_or first (line_with bytes line.now) }
{
    match session_of(line) {
        Some(session) => session,
        None => first,
    }
}

// What becomes of a line by why it stops the chain, if it does.
fn outcome_of(first: u32, line: &LineHead, stop: &Option<Stop>) -> ChainOutcome
    ensures is { (bytes : List ℕ) → result ≡ outcome_by first (line_with bytes line.now) stop.now }
    ensures line { IsByLine result }
{
    match stop {
        None => ChainOutcome::Applied,
        Some(Stop::Line) => ChainOutcome::Refused,
        Some(Stop::Device { role, .. }) => ChainOutcome::Stopped(Fault::Device {
            session: session_at(first, line, *role),
            role: *role,
        }),
        Some(Stop::Full { end, length, size }) => ChainOutcome::Stopped(Fault::Full {
            session: session_or(first, line),
            end: *end,
            length: *length,
            size: *size,
        }),
        Some(Stop::Disk { role, why }) => {
            ChainOutcome::Stopped(refusal_of(session_or(first, line), *role, why))
        }
    }
}

/// A line of the chain whose first session has this number. The list is for what it prints.
pub fn apply_line<D: Disk, O: Sink>(
    chain: &mut Chain<D>,
    first: u32,
    line: &LineHead,
    body: &Body,
    events: &mut ArrayVec<EventHead, 4>,
    output: &mut Output,
    out: &mut O,
) -> ChainOutcome
    requires lawful { IsLawfulLine (line_with body.now line.now) }
    requires room { CanHoldLine line.now body.now }
    requires up { chain_is_down chain.old ≡ false }
    ensures does { D.told.tells → (c : Chained) → ChainStands D.told chain.old c
        → LineDoes D.told first c (line_with body.now line.now) chain.old chain.new (held_of output.old)
        (held_of output.new) (O.written out.old) (O.written out.new) result }
    ensures line { IsByLine result }
    ensures device { (fault : Fault) → result ≡ ChainOutcome.Stopped fault → IsDevice fault
        → HasFailed D.told chain.old chain.new }
    ensures counts { FailNoLess D.told chain.old chain.new }
    ensures up { result ≡ ChainOutcome.Applied → chain_is_down chain.new ≡ false }
    ensures later { O.faults out.old ≤ O.faults out.new }
    ensures cause { result ≡ ChainOutcome.Unwritten → Rose (O.faults out.old) (O.faults out.new) }
{
    let stop = chain.apply_head(line, body.as_slice(), events);
    match output.print_all(events.as_slice(), out) {
        Ok(()) => outcome_of(first, line, &stop),
        Err(_) => ChainOutcome::Unwritten,
    }
}

//! What becomes of a line of a script.

ghost use Rattle.std.specs.Prelude.{◌≡◌, Some, None};
ghost use Rattle.script_replay.specs.Runners.{fault_of, outcome_of, outcome_at, refusal_of, IsLineFault, StopsByLine};

use crate::disks::NotTaken;
use disk_model::{Role, ShelfFault};
use recovery::Why;
use script_reader::Fault;
use two_worlds::Stop;

/// What became of a line. What it prints is with the output.
#[derive(Clone, Copy)]
pub enum LineOutcome {
    Applied,
    Refused,
    /// It stops the script with this fault.
    Stopped(Fault),
    Memory,
    Unwritten,
}

/// The fault of a disk that is refused.
pub fn refusal_of(session: u32, role: Role, why: &Why) -> Fault
    ensures line { IsLineFault result }
    ensures is { result ≡ refusal_of session role why.now }
{
    let (first, second) = why.values();
    Fault::Disk {
        session,
        role,
        number: why.number(),
        first,
        second,
    }
}

/// The fault of a disk that is refused, or whose call failed.
pub fn fault_of(session: u32, role: Role, why: &Why) -> Fault
    ensures line { IsLineFault result }
    ensures is { result ≡ fault_of session role why.now }
{
    match why {
        Why::Device { .. } => Fault::Device { session, role },
        _ => refusal_of(session, role, why),
    }
}

pub fn outcome_at(session: u32, role: Role, why: &Option<Why>) -> LineOutcome
    ensures line { StopsByLine result }
    ensures is { result ≡ outcome_at session role why.now }
{
    match why {
        None => LineOutcome::Memory,
        Some(why) => LineOutcome::Stopped(fault_of(session, role, why)),
    }
}

/// The fault of a disk that can't be taken off the shelf; `None` where memory was wanting.
pub fn untaken_fault(session: u32, not_taken: NotTaken) -> Option<Fault>
    ensures memory { not_taken.fault ≡ ShelfFault.Memory → result ≡ None }
    ensures failed { not_taken.fault ≡ ShelfFault.Failed → result ≡ Some (Fault.Device session not_taken.role) }
{
    match not_taken.fault {
        ShelfFault::Memory => None,
        ShelfFault::Failed => Some(Fault::Device {
            session,
            role: not_taken.role,
        }),
    }
}

// What becomes of a line whose disks can't be taken off the shelf.
pub fn untaken(session: u32, not_taken: NotTaken) -> LineOutcome
    ensures line { StopsByLine result }
    ensures memory { not_taken.fault ≡ ShelfFault.Memory → result ≡ LineOutcome.Memory }
    ensures failed { not_taken.fault ≡ ShelfFault.Failed
        → result ≡ LineOutcome.Stopped (Fault.Device session not_taken.role) }
{
    match untaken_fault(session, not_taken) {
        None => LineOutcome::Memory,
        Some(fault) => LineOutcome::Stopped(fault),
    }
}

/// What becomes of a line, by why it stops the session with this number, if it does.
pub fn outcome_of(id: u32, stop: &Option<Stop>) -> LineOutcome
    ensures line { StopsByLine result }
    ensures is { result ≡ outcome_of id stop.now }
{
    match stop {
        None => LineOutcome::Applied,
        Some(Stop::Line) => LineOutcome::Refused,
        Some(Stop::Device { role, .. }) => LineOutcome::Stopped(Fault::Device {
            session: id,
            role: *role,
        }),
        Some(Stop::Full { end, length, size }) => LineOutcome::Stopped(Fault::Full {
            session: id,
            end: *end,
            length: *length,
            size: *size,
        }),
        Some(Stop::Disk { role, why }) => LineOutcome::Stopped(refusal_of(id, *role, why)),
    }
}

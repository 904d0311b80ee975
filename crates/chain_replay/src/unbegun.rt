//! A script whose chain has not begun: its fault, and its end.

ghost use Rattle.std.specs.Prelude.{◌≡◌};
ghost use Rattle.chain_replay.specs.Faults.{chain_fault};
ghost use Rattle.chain_replay.specs.Private.{ClosesUnbegun, IsOfLine};
ghost use Rattle.disk_model.specs.declared.name.Role.TheVariants as roles;

use crate::printing::stop;
use disk_model::Role;
use pump_chain::ChainWhy;
use pump_link::Sink;
use script_reader::Fault;
use script_replay::{Ended, fault_of};

// Of two pumps that make no chain the fault is that of the second one's low disk.
fn unlinked(second: u32, number: u32, one: u64, two: u64) -> Fault
    ensures { result ≡ Fault.Disk second roles.Low number one two }
{
    Fault::Disk {
        session: second,
        role: Role::Low,
        number,
        first: one,
        second: two,
    }
}

/// The fault of two pumps that make no chain for this cause; `None` where memory was wanting.
pub fn chain_fault(second: u32, why: &ChainWhy) -> Option<Fault>
    ensures is { result ≡ chain_fault second why.now }
    ensures line { IsOfLine result }
{
    match why {
        ChainWhy::Memory => None,
        ChainWhy::Pump { session, role, why } => Some(fault_of(*session, *role, why)),
        ChainWhy::Link { count, bound } => Some(unlinked(second, 12, *count, *bound)),
        ChainWhy::Unlike { number } => Some(unlinked(second, 13, *number, 0)),
    }
}

/// No chain has begun, for this fault or for want of memory.
pub fn end_unbegun<O: Sink>(fault: Option<Fault>, out: &mut O) -> Ended
    ensures { ClosesUnbegun (O.written out.old) (O.written out.new) (O.faults out.old) (O.faults out.new) fault result }
{
    match fault {
        Some(fault) => stop(fault, out),
        None => Ended::Memory,
    }
}

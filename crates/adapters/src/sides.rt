//! The sides of a relay over the machine.

use crate::real_clock::RealClock;
use crate::side_clock::SideClock;
use crate::tcp_ports::TcpPorts;
use crate::traffic::Traffic;
use pump_link::StepClock;
use relay_side::RelaySide;
use std::alloc::Global;
use std::time::{self, Duration};

/// A millisecond, in microseconds.
const STEP: u64 = 1000;

/// A side with TCP ports and the machine's clock, which has its 0 where the machine's clock said `start`.
///
/// The clock is paced by what comes and goes at these ports and at no others: the traffic is borrowed for this side
/// alone, so that no other side can be made with it. A link takes its memory from `alloc` as it comes.
pub fn machine_side<'a, R: time::Clock>(
    alloc: Global,
    machine: &'a R,
    start: Duration,
    traffic: &'a mut Traffic,
) -> RelaySide<TcpPorts<'a, R>, SideClock<'a, R>> {
    let traffic: &'a Traffic = traffic;
    RelaySide {
        ports: TcpPorts::new(alloc, machine, traffic),
        clock: SideClock::Machine(RealClock::new(machine, start, traffic)),
    }
}

/// A side with TCP ports, and a clock that goes on by a millisecond at each reading, whatever comes and goes.
pub fn stepping_side<'a, R>(
    alloc: Global,
    machine: &'a R,
    traffic: &'a mut Traffic,
) -> RelaySide<TcpPorts<'a, R>, SideClock<'a, R>> {
    RelaySide {
        ports: TcpPorts::new(alloc, machine, traffic),
        clock: SideClock::Steps(StepClock::new(0, STEP)),
    }
}

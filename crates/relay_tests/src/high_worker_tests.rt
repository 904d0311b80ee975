// The high worker: what it makes of a connection, and of the links of a door.
ghost use Rattle.std.specs.Prelude.{◌≡◌};
ghost use Rattle.passage.specs.Plain.{StandsFor as EndsStandFor};
ghost use Rattle.high_process.specs.Ready.{Ready};
ghost use Rattle.high_process.specs.States.{last_of};

use crate::high_bench::{HighBench, high_bench};
use crate::pieces::{Few, bytes, link};
use disk_model::{Disk, MemDisk, PlainDisk};
use pump_link::{Clock, MemLink, MemPorts, Ports, StepClock};
use relay_threads::{
    Gate, HighServed, HighWhy, Open, RoundsEnd, Unwatched, high_rounds, serve_high,
};
use std::alloc::Global;
use std::sync::Wait;
use std::test::Fail;

/// ATTACH with the count 0.
const ATTACH: &str = "4e5001060000000100000000000000000000";

/// ATTACH 0, then TAKEN 0.
const TAKES: &str = "4e50010600000001000000000000000000004e5001070000000100000000000000000000";

/// DATA 0, `a`.
const DATA: &str = "4e500103000000010000000000000000000161";

/// DATA 0, `a`, then DATA 1, `a`.
const BOTH: &str = "4e5001030000000100000000000000000001614e500103000000010000000000000001000161";

/// What came of a connection: the looks as the clock counted them, and how many messages are removed
/// by the process and on its disk.
#[derive(Clone, Copy, PartialEq, Debug)]
struct Served {
    served: HighServed,
    readings: u64,
    removed: (u64, u64),
}

// Serves a connection with a process of its own.
fn serve<D: Disk + Drop, G: Gate, R: Wait>(
    rt: &R,
    mut bench: HighBench<D>,
    link: &mut MemLink,
    gate: &mut G,
    looks: u64,
) -> Served
    requires ready { Ready D.told bench.process bench.store (EndsStandFor bench.ends.0) }
    requires last { last_of bench.process ≡ 0 }
{
    let mut clock = StepClock::new(5, 10);
    let served = serve_high(
        rt,
        link,
        &mut clock,
        &mut bench.process,
        &mut bench.store,
        &mut bench.ends,
        gate,
        looks,
    );
    Served {
        served,
        readings: clock.readings(),
        removed: (bench.process.removed(), bench.store.removed()),
    }
}

/// What comes on a link to a process that has removed `count` messages, and what becomes of it.
#[derive(Clone, Copy)]
struct Case {
    count: u64,
    quiet: u32,
    coming: &'static str,
    is_failing: bool,
    looks: u64,
    why: HighWhy,
    rounds: u64,
    sent: &'static str,
    removed: u64,
}

// A receiver that attaches and goes.
const CASE: Case = Case {
    count: 0,
    quiet: 0,
    coming: ATTACH,
    is_failing: false,
    looks: 10,
    why: HighWhy::Gone,
    rounds: 2,
    sent: DATA,
    removed: 0,
};

// Whether a connection goes as the case says.
fn is_served_so<R: Wait>(rt: &R, alloc: Global, case: Case) -> Result<bool, Fail> {
    let sent = bytes(alloc, case.sent)?;
    let coming = bytes(alloc, case.coming)?;
    let mut link = link(alloc, case.quiet, coming.as_slice(), case.is_failing)?;
    let bench = high_bench(alloc, PlainDisk::new(alloc, 80)?, case.count)?;
    let found = serve(rt, bench, &mut link, &mut Open, case.looks);
    let wanted = Served {
        served: HighServed {
            why: case.why,
            looks: case.rounds,
        },
        readings: case.rounds,
        removed: (case.removed, case.removed),
    };
    Ok(found == wanted && link.sent() == sent.as_slice())
}

#[test]
fn connections_are_served(rt: HostRuntime) -> Result<(), Fail> {
    let alloc = rt.alloc();
    for (number, case) in [
        CASE,
        Case {
            // TAKEN 0 first
            coming: "4e5001070000000100000000000000000000",
            why: HighWhy::NotAttach,
            rounds: 1,
            sent: "",
            ..CASE
        },
        Case {
            // ATTACH 0, TAKEN 5
            coming: "4e50010600000001000000000000000000004e5001070000000100000000000000050000",
            why: HighWhy::Ahead {
                number: 5,
                expected: 1,
            },
            ..CASE
        },
        Case {
            // ATTACH 0 where two are removed
            count: 2,
            why: HighWhy::Behind {
                count: 0,
                removed: 2,
            },
            rounds: 1,
            sent: "",
            removed: 2,
            ..CASE
        },
        Case {
            // ATTACH 0, bad bytes
            coming: "4e50010600000001000000000000000000004e51",
            why: HighWhy::Bad,
            ..CASE
        },
        Case {
            // ATTACH 0, TAKEN 0
            coming: TAKES,
            rounds: 3,
            sent: BOTH,
            removed: 1,
            ..CASE
        },
        Case {
            // nothing, then the end
            quiet: 3,
            coming: "",
            rounds: 4,
            sent: "",
            ..CASE
        },
        Case {
            // an ATTACH of session 2
            coming: "4e5001060000000200000000000000000000",
            ..CASE
        },
        Case {
            // the first send fails
            is_failing: true,
            why: HighWhy::LinkFailed,
            rounds: 1,
            sent: "",
            ..CASE
        },
        Case {
            // as many rounds as were given
            coming: TAKES,
            looks: 1,
            why: HighWhy::Looks,
            rounds: 1,
            ..CASE
        },
    ]
    .into_iter()
    .enumerate()
    {
        assert!(rt; is_served_so(&rt, alloc, case)?, "case {number}");
    }
    Ok(())
}

#[test]
fn a_gate_stops_a_connection(rt: HostRuntime) -> Result<(), Fail> {
    let alloc = rt.alloc();
    let mut gate = Few { looks: 2, stops: 0 };
    let mut link = link(alloc, 9, &[], false)?;
    let bench = high_bench(alloc, PlainDisk::new(alloc, 80)?, 0)?;
    let wanted = HighServed {
        why: HighWhy::Stopped,
        looks: 2,
    };
    let found = serve(&rt, bench, &mut link, &mut gate, 7);
    assert_eq!(rt; (found.served, gate.stops), (wanted, 1));
    Ok(())
}

/// How many rounds a worker is given, which call of its disk fails, and what becomes of it.
#[derive(Clone, Copy)]
struct DoorCase {
    rounds: u32,
    failing: u64,
    end: RoundsEnd,
    readings: u64,
    sent: &'static str,
}

// Serves the links of the high port, and counts the readings of the clock. None where it can't be listened
// at.
fn keep<D: Disk + Drop, P: Ports, R: Wait>(
    rt: &R,
    mut bench: HighBench<D>,
    ports: &mut P,
    rounds: u32,
) -> Option<(RoundsEnd, u64)>
    requires ready { Ready D.told bench.process bench.store (EndsStandFor bench.ends.0) }
    requires last { last_of bench.process ≡ 0 }
{
    let Ok(mut door) = ports.listen(7002) else {
        return None;
    };
    let mut clock = StepClock::new(0, 10);
    let end = high_rounds(
        rt,
        &mut door,
        &mut clock,
        &mut bench.process,
        &mut bench.store,
        &mut bench.ends,
        &Unwatched,
        rounds,
    );
    ports.shut(door);
    Some((end, clock.readings()))
}

// Whether a worker goes as the case says, over a link with ATTACH 0 and TAKEN 0.
fn is_kept_so<R: Wait>(rt: &R, alloc: Global, case: DoorCase) -> Result<bool, Fail> {
    let sent = bytes(alloc, case.sent)?;
    let coming = bytes(alloc, TAKES)?;
    let links = vec![in alloc; link(alloc, 0, coming.as_slice(), false)?]?;
    let disk = MemDisk::new(alloc, 80, 40, vec![in alloc; case.failing]?)?;
    let bench = high_bench(alloc, disk, 0)?;
    let mut ports = MemPorts::new(links, Vec::new(alloc));
    let found = keep(rt, bench, &mut ports, case.rounds);
    let has_sent = match ports.given_back().first() {
        Some(back) => back.sent() == sent.as_slice(),
        None => false,
    };
    Ok(found == Some((case.end, case.readings)) && has_sent)
}

// A new disk takes three calls and its opening two, so the second call of a removal has number 6.
#[test]
fn links_of_a_door_are_served(rt: HostRuntime) -> Result<(), Fail> {
    let alloc = rt.alloc();
    for (number, case) in [
        DoorCase {
            rounds: 5,
            failing: 100,
            end: RoundsEnd::Rounds,
            readings: 5,
            sent: BOTH,
        },
        DoorCase {
            rounds: 1,
            failing: 100,
            end: RoundsEnd::Rounds,
            readings: 1,
            sent: "",
        },
        DoorCase {
            rounds: 5,
            failing: 6,
            end: RoundsEnd::Device { faults: 1 },
            readings: 3,
            sent: DATA,
        },
    ]
    .into_iter()
    .enumerate()
    {
        assert!(rt; is_kept_so(&rt, alloc, case)?, "case {number}");
    }
    Ok(())
}

//! A stop at each call of a disk: the session ends, the disks crash, and it is opened again.

ghost use Rattle.std.specs.Prelude.{◌≡◌, ◌<◌, false, IfOk};
ghost use Rattle.two_worlds.specs.Pumps.{is_down};

use crate::held::Held;
use crate::playing_tests::play;
use disk_model::{MemDisk, Outcome, Role};
use fixtures::row;
use recovery::Why;
use stable_buffer::format;
use std::alloc::Global;
use std::test::Fail;
use two_worlds::{NotOpen, Pump, Stop};

// A message is stored, passed on, sent, taken and removed.
const SCRIPT: [&str; 4] = [
    "look 1 10 00000000 hello weather watch",
    "look 1 100 00000000 data 0 61",
    "look 1 100 00000000",
    "done 1 120 50",
];

// What is printed until it is stored, and from then until it is taken.
const STORED: &str = "low 1 10 welcome 0\nstored 1 100 0\n";

const TOOK: &str = "passed 1 100 0 20000\nsent 1 120 0\ntook 1 0\n";

const REMOVED: &str = "removed 1 170 0 50\n";

const OUTCOMES: [Outcome; 5] = [
    Outcome::Old,
    Outcome::New,
    Outcome::Fill(0),
    Outcome::Fill(1),
    Outcome::Fill(165),
];

#[derive(Drop)]
struct Disks {
    low: Held<MemDisk>,
    high: Held<MemDisk>,
    recv: Held<MemDisk>,
}

fn held(low: MemDisk, high: MemDisk, recv: MemDisk) -> Disks {
    Disks {
        low: Held(low),
        high: Held(high),
        recv: Held(recv),
    }
}

// How many messages were accepted, removed and taken.
type Counts = (u64, u64, u64);

// A formatted disk of the session, of which this call fails, counted from the first one of the
// formatting; `None` where that is one of these.
fn formatted(alloc: Global, role: Role, fails: Vec<u64>) -> Result<Option<Held<MemDisk>>, Fail> {
    let Some(row) = row(8) else {
        return Err(Fail::new("no row"));
    };
    let mut disk = Held(MemDisk::new(alloc, 128, 64, fails)?);
    if format(&mut disk.0, &row, role, 0).is_err() {
        return Ok(None);
    }
    Ok(Some(disk))
}

fn calls_that_fail(alloc: Global, is_failing: bool, call: u64) -> Result<Vec<u64>, Fail> {
    if is_failing {
        Ok(vec![in alloc; call]?)
    } else {
        Ok(Vec::new(alloc))
    }
}

// New disks; this call of the one of this role fails.
fn failing_disks(alloc: Global, failing: Role, call: u64) -> Result<Option<Disks>, Fail> {
    let low = calls_that_fail(alloc, failing == Role::Low, call)?;
    let high = calls_that_fail(alloc, failing == Role::High, call)?;
    let recv = calls_that_fail(alloc, failing == Role::Recv, call)?;
    let Some(low) = formatted(alloc, Role::Low, low)? else {
        return Ok(None);
    };
    let Some(high) = formatted(alloc, Role::High, high)? else {
        return Ok(None);
    };
    let Some(recv) = formatted(alloc, Role::Recv, recv)? else {
        return Ok(None);
    };
    Ok(Some(Disks { low, high, recv }))
}

fn open(alloc: Global, disks: Disks) -> Result<Result<Pump<MemDisk>, NotOpen<MemDisk>>, Fail>
    ensures up { IfOk result (λ opened. IfOk opened (λ pump. is_down pump ≡ false)) }
{
    let Some(row) = row(8) else {
        return Err(Fail::new("no row"));
    };
    let Disks { low, high, recv } = disks;
    Ok(Pump::open(alloc, &row, low.taken(), high.taken(), recv.taken()))
}

// The disks of a session that is not open, where a call of one failed.
fn after_failed_opening(refused: NotOpen<MemDisk>) -> Result<(Role, Disks), Fail> {
    let NotOpen {
        role,
        why,
        low,
        high,
        recv,
    } = refused;
    match why {
        Some(Why::Device { .. }) => Ok((role, held(low, high, recv))),
        _ => Err(Fail::new("refused")),
    }
}

fn stopped_by(stop: Option<Stop>) -> Result<Option<Role>, Fail> {
    match stop {
        None => Ok(None),
        Some(Stop::Device { role, faults: 1 }) => Ok(Some(role)),
        Some(_) => Err(Fail::new("another stop")),
    }
}

// Runs the script over the disks: which of them failed, and the disks that are handed back. The output
// gets what is printed.
fn run(alloc: Global, disks: Disks, output: &mut Vec<u8>) -> Result<(Option<Role>, Disks), Fail> {
    match open(alloc, disks)? {
        Ok(mut pump) => {
            let ended = play(&mut pump, &SCRIPT, output);
            let (low, high, recv) = pump.close();
            let disks = held(low, high, recv);
            Ok((stopped_by(ended?)?, disks))
        }
        Err(refused) => {
            let (role, disks) = after_failed_opening(refused)?;
            Ok((Some(role), disks))
        }
    }
}

// What the disks count after a crash. Where no call failed before, the opening meets it, and is tried
// again.
fn open_again(alloc: Global, mut disks: Disks, outcome: Outcome) -> Result<Counts, Fail> {
    disks.low.0.crash(outcome);
    disks.high.0.crash(outcome);
    disks.recv.0.crash(outcome);
    let refused = match open(alloc, disks) {
        Ok(Ok(pump)) => return Ok(last_counts(pump)),
        Ok(Err(refused)) => refused,
        Err(fail) => return Err(fail),
    };
    let (_, disks) = after_failed_opening(refused)?;
    match open(alloc, disks) {
        Ok(Ok(pump)) => Ok(last_counts(pump)),
        Ok(Err(refused)) => {
            drop(refused);
            Err(Fail::new("refused twice"))
        }
        Err(fail) => Err(fail),
    }
}

// What a pump counts at its end.
fn last_counts(pump: Pump<MemDisk>) -> Counts {
    let counts = pump.counts();
    drop(pump);
    counts
}

// What was printed, in its parts.
#[derive(Clone, Copy)]
struct Printed {
    stored: bool,
    took: bool,
    removed: bool,
}

fn read_output(output: &[u8]) -> Printed {
    let rest = output.strip_prefix(STORED.as_bytes());
    let passed = rest.and_then(|rest| rest.strip_prefix(TOOK.as_bytes()));
    Printed {
        stored: rest.is_some(),
        took: passed.is_some(),
        removed: passed.is_some_and(|rest| rest == REMOVED.as_bytes()),
    }
}

// Whether a count is the one of what was done; the call that was not finished may count too.
fn is_kept_or_not(count: u64, is_done: bool, is_unfinished: bool) -> bool {
    count == u64::from(is_done) || (is_unfinished && count == 1)
}

// Whether these are the counts of what was printed, with what the failed disk was at kept or not.
fn fit(output: &[u8], failed: Option<Role>, counts: Counts) -> bool {
    let printed = read_output(output);
    let (accepted, removed, taken) = counts;
    // In an opening nothing is printed, and no call is left unfinished.
    is_kept_or_not(
        accepted,
        printed.stored,
        !output.is_empty() && failed == Some(Role::Low),
    ) && is_kept_or_not(
        removed,
        printed.removed,
        printed.took && failed == Some(Role::High),
    ) && is_kept_or_not(
        taken,
        printed.took,
        printed.stored && failed == Some(Role::Recv),
    )
}

// A run in which this call fails: whether some disk failed; `None` where that was in the formatting.
fn try_call(alloc: Global, role: Role, call: u64, outcome: Outcome) -> Result<Option<bool>, Fail> {
    let Some(disks) = failing_disks(alloc, role, call)? else {
        return Ok(None);
    };
    let mut output = Vec::new(alloc);
    let (failed, disks) = run(alloc, disks, &mut output)?;
    if failed.is_some_and(|failed| failed != role) {
        return Err(Fail::new("another disk failed"));
    }
    let counts = open_again(alloc, disks, outcome)?;
    if !fit(output.as_slice(), failed, counts) {
        return Err(Fail::new("other counts"));
    }
    Ok(Some(failed.is_some()))
}

// The number of calls of a disk that stop the session; what they leave crashes so.
fn count_stops(alloc: Global, role: Role, outcome: Outcome) -> Result<u64, Fail> {
    let mut stops = 0u64;
    for call in 0..64 {
        match try_call(alloc, role, call, outcome)? {
            None => {}
            Some(true) => stops = stops.saturating_add(1),
            Some(false) => return Ok(stops),
        }
    }
    Err(Fail::new("no run without a stop"))
}

#[test]
fn a_stop_at_each_call_is_outlived(rt: HostRuntime) -> Result<(), Fail> {
    let alloc = rt.alloc();
    // An opening makes at least a call, a store five more, a removal four, and a taking five.
    for (role, calls) in [(Role::Low, 6), (Role::High, 5), (Role::Recv, 6)] {
        for outcome in OUTCOMES {
            let stops = count_stops(alloc, role, outcome)?;
            assert!(rt; calls <= stops, "{role:?} stopped {stops} times");
        }
    }
    Ok(())
}

// The first call of the high disk that fails once a message was taken: one of its removal.
fn first_of_removal(alloc: Global) -> Result<u64, Fail>
    ensures { IfOk result (λ call. call < 64) }
{
    for call in 0..64 {
        let Some(disks) = failing_disks(alloc, Role::High, call)? else {
            continue;
        };
        let mut output = Vec::new(alloc);
        run(alloc, disks, &mut output)?;
        if read_output(output.as_slice()).took {
            return Ok(call);
        }
    }
    Err(Fail::new("never taken"))
}

// Of a register's cell that was being chosen only the parity counts.
#[test]
fn the_choice_of_a_cell_is_kept_or_lost(rt: HostRuntime) -> Result<(), Fail> {
    let alloc = rt.alloc();
    let third = first_of_removal(alloc)? + 2;
    for (outcome, removed) in [
        (Outcome::Old, 0),
        (Outcome::New, 1),
        (Outcome::Fill(0), 0),
        (Outcome::Fill(1), 1),
        (Outcome::Fill(165), 1),
    ] {
        let Some(disks) = failing_disks(alloc, Role::High, third)? else {
            return Err(Fail::new("not formatted"));
        };
        let mut output = Vec::new(alloc);
        let (failed, disks) = run(alloc, disks, &mut output)?;
        assert_eq!(rt; failed, Some(Role::High));
        let rest = output.as_slice().strip_prefix(STORED.as_bytes());
        assert!(rt; rest.is_some_and(|rest| rest == TOOK.as_bytes()));
        assert_eq!(rt;
            open_again(alloc, disks, outcome)?,
            (1, removed, 1),
            "{outcome:?}"
        );
    }
    Ok(())
}

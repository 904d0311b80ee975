//! The pump that plays the lines of a script over a disk that fails. What it does with packets is in
//! `tests/pump-packets.t`.

ghost use Rattle.std.specs.Prelude.{◌≡◌, ◌<◌, false, IfSome, IfOk};
ghost use Rattle.two_worlds.specs.LowPumps.{stops_at_disk};
ghost use Rattle.two_worlds.specs.Pumps.{is_down};

use crate::held::Held;
use crate::move_tests::numbers;
use arrayvec::ArrayVec;
use disk_model::{Disk, MemDisk, Outcome, Role};
use fixtures::row;
use script_reader::{print_event, read_line};
use std::alloc::Global;
use std::test::Fail;
use two_worlds::{Pump, Stop};

const HELLO: &str = "look 1 10 00000000 hello weather watch";

// Adds what the lines print, until one stops.
pub fn play<D: Disk>(
    pump: &mut Pump<D>,
    script: &[&str],
    output: &mut Vec<u8>,
) -> Result<Option<Stop>, Fail>
    requires up { is_down pump.old ≡ false }
    ensures down { IfOk result (λ stop. is_down pump.new ≡ stops_at_disk stop) }
{
    let mut text = ArrayVec::new();
    for line in script {
        let Some(line) = read_line(line.as_bytes()) else {
            return Err(Fail::new("no line"));
        };
        let applied = pump.apply(&line);
        for event in applied.events.as_slice() {
            print_event(event, &mut text);
            output.extend_from_slice(text.as_slice())?;
        }
        if applied.stop.is_some() {
            return Ok(applied.stop);
        }
    }
    Ok(None)
}

// A new pump over disks in memory; this call of low's disk fails.
fn failing_pump(alloc: Global, fails: u64) -> Result<Option<Pump<MemDisk>>, Fail>
    ensures up { IfOk result (λ made. IfSome made (λ pump. is_down pump ≡ false)) }
{
    let Some(row) = row(8) else {
        return Err(Fail::new("no row"));
    };
    let low = Held(MemDisk::new(alloc, 4096, 64, vec![in alloc; fails]?)?);
    let high = Held(MemDisk::new(alloc, 80, 64, Vec::new(alloc))?);
    let recv = Held(MemDisk::new(alloc, 4096, 64, Vec::new(alloc))?);
    match Pump::open(alloc, &row, low.taken(), high.taken(), recv.taken()) {
        Ok(pump) => Ok(Some(pump)),
        Err(refused) => {
            drop(refused);
            Ok(None)
        }
    }
}

// Whether a pump is opened where this call of low's disk fails.
fn opens(alloc: Global, fails: u64) -> Result<bool, Fail> {
    match failing_pump(alloc, fails) {
        Ok(Some(pump)) => {
            drop(pump);
            Ok(true)
        }
        Ok(None) => Ok(false),
        Err(fail) => Err(fail),
    }
}

// The number of calls of low's disk in an opening.
fn opening_calls(alloc: Global) -> Result<u64, Fail>
    ensures { IfOk result (λ n. n < 64) }
{
    for n in 0..64 {
        if opens(alloc, n)? {
            return Ok(n);
        }
    }
    Err(Fail::new("never open"))
}

// A message is stored while this call of low's disk fails: whether it stops, and the disk. The output
// gets what is printed.
fn store_while_failing(
    alloc: Global,
    fails: u64,
    output: &mut Vec<u8>,
) -> Result<(Option<Stop>, Held<MemDisk>), Fail> {
    let mut pump = match failing_pump(alloc, fails) {
        Ok(Some(pump)) => pump,
        Ok(None) => return Err(Fail::new("not open")),
        Err(fail) => return Err(fail),
    };
    let store = [HELLO, "look 1 100 00000000 data 0 61"];
    let ended = play(&mut pump, &store, output);
    let (low, high, recv) = pump.close();
    drop(high);
    drop(recv);
    let low = Held(low);
    Ok((ended?, low))
}

// So, and how many messages a crash then leaves.
fn store_and_crash(
    alloc: Global,
    fails: u64,
    outcome: Outcome,
    output: &mut Vec<u8>,
) -> Result<(Option<Stop>, u64), Fail> {
    let (stop, mut low) = store_while_failing(alloc, fails, output)?;
    low.0.crash(outcome);
    match numbers(low) {
        Some((accepted, _)) => Ok((stop, accepted)),
        None => Err(Fail::new("no register")),
    }
}

const STORED: &str = "low 1 10 welcome 0\nstored 1 100 0\n";

// A store makes five calls: the slot, the register's cell and its sync, and the selection and its sync.
#[test]
fn a_store_that_fails_is_refused(rt: HostRuntime) -> Result<(), Fail> {
    let alloc = rt.alloc();
    let opening = opening_calls(alloc)?;
    let refused = "low 1 10 welcome 0\nlow 1 100 refuse 5 0\n";
    let failed = Some(Stop::Device {
        role: Role::Low,
        faults: 1,
    });
    for (call, wanted, stop, old, new) in [
        (1, refused, failed, 0, 0),
        (4, refused, failed, 0, 1),
        (40, STORED, None, 1, 1),
    ] {
        for (outcome, count) in [(Outcome::Old, old), (Outcome::New, new)] {
            let mut output = Vec::new(alloc);
            let ended = store_and_crash(alloc, opening + call, outcome, &mut output)?;
            assert_eq!(rt; ended, (stop, count), "at {call}");
            assert_eq!(rt; output.as_slice(), wanted.as_bytes());
        }
    }
    // A sixth call is not made.
    let mut output = Vec::new(alloc);
    let (stop, _) = store_while_failing(alloc, opening + 5, &mut output)?;
    assert_eq!(rt; stop, None);
    assert_eq!(rt; output.as_slice(), STORED.as_bytes());
    Ok(())
}

// Races of two workers over a ring: their records, and what their gates are told.
ghost use Rattle.std.specs.Prelude.{◌≤◌};
ghost use Rattle.race.specs.Turns.{CanTurn};

use crate::pieces::Few;
use arrayvec::ArrayVec;
use disk_model::Disk;
use pump_link::{MemSink, StepClock};
use race::race_with;
use relay_threads::{Gate, Open};
use std::alloc::Global;
use std::sync::Wait;
use std::sync::atomic::{AtomicBool, Ordering};
use std::test::Fail;
use std::thread;
use std::thread::Threads;

const TIMES: [u32; 3] = [50, 700, 20];

/// How a race ended.
#[derive(Clone, Copy, PartialEq, Debug)]
struct Raced {
    write_failed: bool,
    low_stopped: bool,
    high_stopped: bool,
}

const WHOLE: Raced = Raced {
    write_failed: false,
    low_stopped: false,
    high_stopped: false,
};

// A sink whose writes with these numbers fail.
fn sink(alloc: Global, fails: &[u64]) -> Result<MemSink, Fail> {
    let fails = Vec::from_slice(alloc, fails)?;
    let room = vec![in alloc; 0u8; 1_000_000]?;
    Ok(MemSink::new(room, 4096, fails))
}

// Races so many messages. Answers with the size of the receiver's disk, too.
fn race<G: Gate + Send, H: Gate + Send, R: Threads + Wait + Sync>(
    rt: &R,
    alloc: Global,
    count: u32,
    times: &[u32],
    out: &mut MemSink,
    low: &mut G,
    high: &mut H,
) -> Result<(Raced, u64), Fail>
    requires some { 1 ≤ count }
    requires turn { CanTurn times.now count }
{
    let mut clock = StepClock::new(0, 1000);
    match race_with(rt, alloc, 0, count, times, &mut clock, out, low, high) {
        Ok(mut end) => {
            let raced = Raced {
                write_failed: end.write_failed,
                low_stopped: end.low_stopped,
                high_stopped: end.high_stopped,
            };
            Ok((raced, end.recv.size().unwrap_or(0)))
        }
        Err(_) => Err(Fail::new("no memory")),
    }
}

const OPENING: &[u8] =
    b"low-session 1 8 64 4 20000 100000 500000 weather watch 0 0\ntold 1 0 3c6ef35f fine - raw 4e50";

const CLOSING: &[u8] = b"# time 7\n# time 8\n# time 7\n# time 8\n# time 7\n# took 5\n# end 5 5\n";

#[test]
fn a_record_begins_with_the_session_and_ends_with_the_counts(rt: HostRuntime) -> Result<(), Fail> {
    let mut out = sink(rt.alloc(), &[])?;
    let (raced, _) = race(&rt, rt.alloc(), 5, &[7, 8], &mut out, &mut Open, &mut Open)?;
    assert_eq!(rt; raced, WHOLE);
    assert!(rt; out.written().starts_with(OPENING) && out.written().ends_with(CLOSING));
    Ok(())
}

#[test]
fn a_failed_write_leaves_a_prefix_and_the_disks(rt: HostRuntime) -> Result<(), Fail> {
    let mut out = sink(rt.alloc(), &[1])?;
    let (raced, received) = race(&rt, rt.alloc(), 100, &TIMES, &mut out, &mut Open, &mut Open)?;
    let wanted = Raced {
        write_failed: true,
        ..WHOLE
    };
    assert_eq!(rt; raced, wanted);
    assert!(rt;
        out.written().starts_with(b"low-session 1 8 64 4 20000 100000 500000 weather watch 0 0\n")
    );
    assert!(rt; out.written().len() <= 8192);
    assert!(rt; received > 80);
    Ok(())
}

#[test]
fn a_stopped_race_has_no_end_lines(rt: HostRuntime) -> Result<(), Fail> {
    let mut out = sink(rt.alloc(), &[])?;
    let mut low = Few { looks: 2, stops: 0 };
    let mut high = Few {
        looks: 100,
        stops: 0,
    };
    let (raced, _) = race(&rt, rt.alloc(), 3, &TIMES, &mut out, &mut low, &mut high)?;
    let wanted = Raced {
        low_stopped: true,
        high_stopped: true,
        ..WHOLE
    };
    assert_eq!(rt; (raced, low.stops, high.stops), (wanted, 1, 1));
    assert!(rt; !out.written().contains(&b'#') || !out.written().ends_with(b"# end 3 3\n"));
    assert_eq!(rt;
        out.written().iter().filter(|byte| **byte == b'\n').count(),
        4
    );
    Ok(())
}

/// Holds one look, for so many turns, until the other gate tells that its worker is so far. It keeps
/// what it was told first.
#[derive(Drop)]
struct Holding<'a> {
    look: u64,
    is_so_far: &'a AtomicBool,
    told: ArrayVec<(u64, u64), 4>,
    stops: u64,
}

/// Tells that so many messages are done, and stops a worker that makes no way.
#[derive(Drop)]
struct Telling<'a> {
    count: u64,
    is_so_far: &'a AtomicBool,
    // The messages done so far, and how many looks were made when the last of them was.
    done: u64,
    since: u64,
    stops: u64,
}

impl<'a> Holding<'a> {
    fn new(look: u64, is_so_far: &'a AtomicBool) -> Holding<'a> {
        Holding {
            look,
            is_so_far,
            told: ArrayVec::new(),
            stops: 0,
        }
    }
}

impl<'a> Telling<'a> {
    fn new(count: u64, is_so_far: &'a AtomicBool) -> Telling<'a> {
        Telling {
            count,
            is_so_far,
            done: 0,
            since: 0,
            stops: 0,
        }
    }
}

impl Gate for Holding<'_> {
    ghost asked = { λ gate asks. ⊥ };

    ghost stops = { λ gate. gate.stops };

    fn pass<R: Wait>(&mut self, _rt: &R, looks: u64, done: u64) -> bool {
        let _has_room = self.told.try_push((looks, done)).is_ok();
        if looks != self.look {
            return true;
        }
        for _ in 0..1_000_000u32 {
            if self.is_so_far.load(Ordering::SeqCst) {
                return true;
            }
            thread::yield_now();
        }
        self.stops = self.stops.saturating_add(1);
        false
    }

    fn stops(&self) -> u64 {
        self.stops
    }
}

impl Gate for Telling<'_> {
    ghost asked = { λ gate asks. ⊥ };

    ghost stops = { λ gate. gate.stops };

    fn pass<R: Wait>(&mut self, _rt: &R, looks: u64, done: u64) -> bool {
        thread::yield_now();
        if done >= self.count {
            self.is_so_far.store(true, Ordering::SeqCst);
        }
        if done > self.done {
            self.done = done;
            self.since = looks;
        }
        if looks.saturating_sub(self.since) >= 1_000_000 {
            self.stops = self.stops.saturating_add(1);
            return false;
        }
        true
    }

    fn stops(&self) -> u64 {
        self.stops
    }
}

// The low worker waits until the high one has taken a message.
#[test]
fn workers_run_side_by_side(rt: HostRuntime) -> Result<(), Fail> {
    let mut out = sink(rt.alloc(), &[])?;
    let has_taken = AtomicBool::new(false);
    let mut low = Holding::new(3, &has_taken);
    let mut high = Telling::new(1, &has_taken);
    let (raced, _) = race(&rt, rt.alloc(), 3, &TIMES, &mut out, &mut low, &mut high)?;
    assert_eq!(rt; raced, WHOLE);
    assert!(rt;
        out.written()
            .ends_with(b"# time 50\n# time 700\n# time 20\n# took 3\n# end 3 3\n")
    );
    Ok(())
}

// The high worker begins with two messages in the passage, and needs two looks for each.
#[test]
fn the_high_gate_is_told_the_looks_and_the_messages_taken(rt: HostRuntime) -> Result<(), Fail> {
    let mut out = sink(rt.alloc(), &[])?;
    let has_passed = AtomicBool::new(false);
    let mut low = Telling::new(2, &has_passed);
    let mut high = Holding::new(0, &has_passed);
    let (raced, _) = race(&rt, rt.alloc(), 3, &TIMES, &mut out, &mut low, &mut high)?;
    assert_eq!(rt; raced, WHOLE);
    assert!(rt; high.told.as_slice() == [(0, 0), (1, 1), (2, 1), (3, 2)].as_slice());
    Ok(())
}

// The two ends of a queue and of a ring, which fill and empty alike.
ghost use Rattle.std.specs.Prelude.{◌≡◌, ◌-◌, ◌^◌, ◌<◌, ◌≤◌, true};

use crate::pieces::item;
use fixtures::row;
use passage::{Calm, Forwarded, Joined, Next, QueuePassage, WaitHighEnd, WaitLowEnd};
use pump_core::Seen;
use relay_ring::RingPassage;
use std::process::Abort;
use std::sync::Wait;
use std::test::Fail;

/// Both ends of a passage in one hand.
trait Bench {
    ghost ready: { Self → Type 0 };

    /// Offers the next item. True where it passed.
    fn offer<R: Wait>(&mut self, rt: &R) -> bool
        requires { Self.ready self.old }
        ensures { Self.ready self.new };

    fn read<R: Wait>(&mut self, rt: &R) -> Seen
        requires { Self.ready self.old }
        ensures { Self.ready self.new };

    /// Asks for the next item, and tells its number.
    fn ask<R: Wait>(&mut self, rt: &R) -> Option<u64>
        requires { Self.ready self.old }
        ensures { Self.ready self.new };

    fn publish<R: Wait>(&mut self, rt: &R, micros: u32)
        requires { Self.ready self.old }
        ensures { Self.ready self.new };
}

/// The next number, how many are removed and how many times were published.
#[derive(Clone, Copy)]
struct Counts {
    next: u64,
    removed: u64,
    published: u32,
}

/// Two ends that know nothing of each other.
#[derive(Drop)]
struct Apart<L, H> {
    low: L,
    high: H,
    counts: Counts,
}

impl Counts {
    fn new() -> Counts
        ensures { result ≡ record { next = 0; removed = 0; published = 0 } }
    {
        Counts {
            next: 0,
            removed: 0,
            published: 0,
        }
    }

    /// Whether a time of so many microseconds may be published.
    fn may_publish(&self, micros: u32) -> bool
        ensures { result ≡ true → (micros ≤ 10 ^ 9) × (self.now.published < 2 ^ 32 - 1) }
    {
        micros <= 1_000_000_000 && self.published < u32::MAX
    }
}

impl<L: WaitLowEnd, H: WaitHighEnd> Bench for Apart<L, H> {
    ghost use Rattle.std.specs.Prelude.{◌≡◌};
    ghost use Rattle.passage.specs.Ready.{LowReady, HighReady};

    ghost ready = { λ b. LowReady (L.stands b.low) b.counts.next
        × HighReady (H.stands b.high) b.counts.removed b.counts.published × (L.place b.low ≡ H.place b.high) };

    fn offer<R: Wait>(&mut self, rt: &R) -> bool {
        let Some(item) = item(self.counts.next) else {
            return false;
        };
        match self.low.forward(rt, item) {
            Forwarded::Passed => {
                self.counts.next += 1;
                true
            }
            Forwarded::Full(_) => false,
        }
    }

    fn read<R: Wait>(&mut self, rt: &R) -> Seen {
        self.low.average(rt)
    }

    fn ask<R: Wait>(&mut self, rt: &R) -> Option<u64> {
        if self.counts.removed == u64::MAX {
            return None;
        }
        match self.high.next(rt, self.counts.removed) {
            Next::Got(item) => {
                self.counts.removed += 1;
                Some(item.number)
            }
            Next::Empty => None,
        }
    }

    fn publish<R: Wait>(&mut self, rt: &R, micros: u32) {
        if self.counts.may_publish(micros) {
            self.high.publish(rt, micros);
            self.counts.published += 1;
        }
    }
}

/// Calls, with what is to come back, of a passage with one place.
#[derive(Clone, Copy)]
enum Call {
    Ask(Option<u64>),
    Offer(bool),
    Read(Seen),
    Publish(u32),
}

fn make<B: Bench, R: Abort + Wait>(rt: &R, bench: &mut B, calls: &[Call])
    requires { B.ready bench.old }
    ensures { B.ready bench.new }
{
    for call in calls {
        match *call {
            Call::Ask(wanted) => assert_eq!(rt; bench.ask(rt), wanted),
            Call::Offer(passes) => assert_eq!(rt; bench.offer(rt), passes),
            Call::Read(wanted) => assert_eq!(rt; bench.read(rt), wanted),
            Call::Publish(micros) => bench.publish(rt, micros),
        }
    }
}

const CALLS: [Call; 10] = [
    Call::Ask(None),
    Call::Offer(true),
    Call::Offer(false),
    Call::Ask(Some(0)),
    Call::Offer(true),
    Call::Read(Seen {
        count: 0,
        average: 20000,
    }),
    Call::Publish(100),
    Call::Read(Seen {
        count: 1,
        average: 100,
    }),
    Call::Ask(Some(1)),
    Call::Ask(None),
];

const EMPTIED: Joined = Joined {
    forwarded: 2,
    taken: 2,
};

#[test]
fn the_ends_of_a_queue_fill_and_empty(rt: HostRuntime) -> Result<(), Fail> {
    let Some(row) = row(8) else {
        return Err(Fail::new("no row"));
    };
    let mut passage = QueuePassage::new(rt.alloc(), &row)?;
    let (low, high) = passage.ends(&rt);
    let mut bench = Apart {
        low,
        high,
        counts: Counts::new(),
    };
    make(&rt, &mut bench, &CALLS);
    let Apart { low, high, .. } = bench;
    assert_eq!(rt; QueuePassage::rejoin(&rt, low, high), EMPTIED);
    Ok(())
}

#[test]
fn the_ends_of_a_ring_fill_and_empty(rt: HostRuntime) -> Result<(), Fail> {
    let Some(row) = row(8) else {
        return Err(Fail::new("no row"));
    };
    let mut passage = RingPassage::new(rt.alloc(), &row)?;
    let (low, high) = passage.ends();
    let mut bench = Apart {
        low: Calm(low),
        high: Calm(high),
        counts: Counts::new(),
    };
    make(&rt, &mut bench, &CALLS);
    let Apart { low, high, .. } = bench;
    assert_eq!(rt; RingPassage::rejoin(low.0, high.0), EMPTIED);
    Ok(())
}

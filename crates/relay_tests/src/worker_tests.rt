// Two workers in two threads, over each passage, and the lines of a record.
ghost use Rattle.std.specs.Prelude.{◌≡◌, ◌+◌, ◌<◌, true, IfOk, IfSome};
ghost use Rattle.pump_core.specs.Passage.{Low, High};
ghost use Rattle.passage.specs.Ready.{LowReady, HighReady};
ghost use Rattle.low_process.specs.Looks.{arrival_of};
ghost use Rattle.pump_core.specs.ReplyFrames.{IsLawfulReply};
ghost use Rattle.relay_threads.specs.RecordLines.{HasLawfulFrame};

use crate::pieces::data;
use arrayvec::ArrayVec;
use fixtures::row;
use low_process::{Arrival, LookHead};
use passage::{Calm, Forwarded, Joined, Next, QueuePassage, WaitHighEnd, WaitLowEnd};
use pump_core::{Feedback, Reply, Seen};
use pump_frame::{Item, OutOfMemory, Payload, SessionRow};
use relay_ring::RingPassage;
use relay_threads::{LookMade, Work, append_look, is_recorded, run_pair, try_run_pair};
use std::sync::Wait;
use std::sync::atomic::{AtomicBool, Ordering};
use std::test::Fail;
use std::thread;
use std::thread::Threads;

/// A work that says that it is here, and waits a while until the other one has said so.
#[derive(Drop)]
struct Meets<'a> {
    here: &'a AtomicBool,
    there: &'a AtomicBool,
    runs: u32,
    has_met: bool,
}

fn comes(there: &AtomicBool) -> bool {
    for _ in 0..1_000_000 {
        if there.load(Ordering::SeqCst) {
            return true;
        }
        thread::yield_now();
    }
    false
}

impl Work for Meets<'_> {
    ghost use Rattle.std.specs.Prelude.{◌≡◌, ◌+◌, ◌<◌};

    ghost can_run = { λ w. w.runs < 9 };

    ghost ran = { λ v w. w.runs ≡ v.runs + 1 };

    fn run<R: Wait>(&mut self, _rt: &R) {
        self.runs += 1;
        self.here.store(true, Ordering::SeqCst);
        self.has_met = comes(self.there);
    }
}

/// Forwards items until it has forwarded so many.
#[derive(Drop)]
struct Forwards<L> {
    end: L,
    next: u64,
    most: u64,
}

impl<L: WaitLowEnd> Forwards<L> {
    // The next item. False where it did not pass.
    fn forward<R: Wait>(&mut self, rt: &R) -> bool
        requires { LowReady (L.stands self.old.end) self.old.next }
        ensures ready { LowReady (L.stands self.new.end) self.new.next }
        ensures place { L.place self.new.end ≡ L.place self.old.end }
    {
        if self.next >= 1 << 48 {
            return false;
        }
        let item = Item {
            number: self.next,
            payload: Payload::default(),
        };
        match self.end.forward(rt, item) {
            Forwarded::Passed => {
                self.next += 1;
                true
            }
            Forwarded::Full(_) => false,
        }
    }
}

impl<L: WaitLowEnd> Work for Forwards<L> {
    ghost use Rattle.std.specs.Prelude.{◌≡◌};
    ghost use Rattle.passage.specs.Ready.{LowReady};

    ghost can_run = { λ w. LowReady (L.stands w.end) w.next };

    ghost ran = { λ v w. LowReady (L.stands w.end) w.next × (L.place w.end ≡ L.place v.end) };

    fn run<R: Wait>(&mut self, rt: &R) {
        for _ in rt.forever() {
            if self.next == self.most {
                return;
            }
            if !self.forward(rt) {
                thread::yield_now();
            }
        }
    }
}

/// Takes items up until it has so many.
#[derive(Drop)]
struct TakesUp<H> {
    end: H,
    removed: u64,
    most: u64,
}

impl<H: WaitHighEnd> TakesUp<H> {
    // The next item. False where there is none, or another one.
    fn take_up<R: Wait>(&mut self, rt: &R) -> bool
        requires { HighReady (H.stands self.old.end) self.old.removed 0 }
        ensures ready { HighReady (H.stands self.new.end) self.new.removed 0 }
        ensures place { H.place self.new.end ≡ H.place self.old.end }
    {
        if self.removed == u64::MAX {
            return false;
        }
        match self.end.next(rt, self.removed) {
            Next::Got(item) => {
                let is_next = item.number == self.removed;
                self.removed += 1;
                is_next
            }
            Next::Empty => false,
        }
    }
}

impl<H: WaitHighEnd> Work for TakesUp<H> {
    ghost use Rattle.std.specs.Prelude.{◌≡◌};
    ghost use Rattle.passage.specs.Ready.{HighReady};

    ghost can_run = { λ w. HighReady (H.stands w.end) w.removed 0 };

    ghost ran = { λ v w. HighReady (H.stands w.end) w.removed 0 × (H.place w.end ≡ H.place v.end) };

    fn run<R: Wait>(&mut self, rt: &R) {
        for _ in rt.forever() {
            if self.removed == self.most {
                return;
            }
            if !self.take_up(rt) {
                thread::yield_now();
            }
        }
    }
}

#[test]
fn two_works_run_side_by_side(rt: HostRuntime) {
    let (one, other) = (AtomicBool::new(false), AtomicBool::new(false));
    let mut low = Meets {
        here: &one,
        there: &other,
        runs: 0,
        has_met: false,
    };
    let mut high = Meets {
        here: &other,
        there: &one,
        runs: 4,
        has_met: false,
    };
    run_pair(&rt, &mut low, &mut high);
    assert_eq!(rt; (low.runs, high.runs), (1, 5));
    assert_eq!(rt; (low.has_met, high.has_met), (true, true));
}

/// Passes 1000 items from one end to the other, each in a thread of its own, and gives the ends back.
fn pass_items<L: WaitLowEnd + Send + Drop, H: WaitHighEnd + Send + Drop, R: Threads + Wait + Sync>(
    rt: &R,
    low: L,
    high: H,
) -> Result<(L, H), OutOfMemory>
    requires low { LowReady (L.stands low) 0 }
    requires high { HighReady (H.stands high) 0 0 }
    ensures low { IfOk result (λ ends. (l : Low) × (h : High) × L.stands ends.0 l h) }
    ensures high { IfOk result (λ ends. (l : Low) × (h : High) × H.stands ends.1 l h) }
    ensures low_place { IfOk result (λ ends. L.place ends.0 ≡ L.place low) }
    ensures high_place { IfOk result (λ ends. H.place ends.1 ≡ H.place high) }
{
    let mut low = Forwards {
        end: low,
        next: 0,
        most: 1000,
    };
    let mut high = TakesUp {
        end: high,
        removed: 0,
        most: 1000,
    };
    try_run_pair(rt, &mut low, &mut high)?;
    Ok((low.end, high.end))
}

const ALL_PASSED: Joined = Joined {
    forwarded: 1000,
    taken: 1000,
};

#[test]
fn items_pass_through_the_queue(rt: HostRuntime) -> Result<(), Fail> {
    let Some(row) = row(8) else {
        return Err(Fail::new("no row"));
    };
    let mut passage = QueuePassage::new(rt.alloc(), &row)?;
    let (low, high) = passage.ends(&rt);
    let (low, high) = pass_items(&rt, low, high)?;
    assert_eq!(rt; QueuePassage::rejoin(&rt, low, high), ALL_PASSED);
    Ok(())
}

#[test]
fn items_pass_through_the_ring(rt: HostRuntime) -> Result<(), Fail> {
    let Some(row) = row(8) else {
        return Err(Fail::new("no row"));
    };
    let mut passage = RingPassage::new(rt.alloc(), &row)?;
    let (low, high) = passage.ends();
    let (low, high) = pass_items(&rt, Calm(low), Calm(high))?;
    assert_eq!(rt; RingPassage::rejoin(low.0, high.0), ALL_PASSED);
    Ok(())
}

// What a look did that took this arrival or not, and replied nothing.
fn done(taken: bool, feedback: Feedback) -> LookHead {
    LookHead {
        taken,
        stored: None,
        reply: None,
        feedback,
    }
}

fn made(moment: u64, arrival: Arrival<'_>, look: LookHead) -> LookMade<'_> {
    LookMade {
        moment,
        word: 0x3c6ef35f,
        arrival,
        look,
    }
}

fn may_come(arrival: Arrival<'_>) -> bool
    ensures { result ≡ true → HasLawfulFrame (arrival_of arrival.entry) }
{
    match arrival {
        Arrival::Frame(frame) => frame.is_lawful(),
        _ => true,
    }
}

fn is_silent(reply: &Option<Reply>) -> bool
    ensures { result ≡ true → IfSome reply.now IsLawfulReply }
{
    match reply {
        Some(_) => false,
        None => true,
    }
}

// Whether the look is recorded by this text.
fn is_told(row: &SessionRow, look: &LookMade, text: &[u8]) -> bool {
    if !may_come(look.arrival) || !is_silent(&look.look.reply) {
        return false;
    }
    let mut body = ArrayVec::new();
    let mut into: ArrayVec<u8, 2700> = ArrayVec::new();
    append_look(row, look, &mut body, &mut into);
    into.as_slice() == text
}

// What the records of `low_worker_tests` do not have.
#[test]
fn looks_are_told(rt: HostRuntime) -> Result<(), Fail> {
    let (Some(row), Some(data)) = (row(8), data(0)) else {
        return Err(Fail::new("no row"));
    };
    let seen = Seen {
        count: 2,
        average: 375,
    };
    let rows = [
        (
            made(2, Arrival::Frame(&data), done(false, Feedback::Full)),
            b"told 1 2 3c6ef35f fine full\n".as_slice(),
        ),
        (
            made(5, Arrival::Frame(&data), done(true, Feedback::Repeat(seen))),
            b"told 1 5 3c6ef35f fine 2/375 raw 4e500103000000010000000000000000000161\n",
        ),
        (
            made(8, Arrival::Nothing, done(false, Feedback::Released)),
            b"told 1 8 3c6ef35f fine 0/20000\n",
        ),
    ];
    for (look, text) in &rows {
        assert!(rt; is_told(&row, look, text));
    }
    Ok(())
}

#[test]
fn a_quiet_look_is_not_recorded(rt: HostRuntime) {
    let quiet = made(0, Arrival::Nothing, done(false, Feedback::Quiet));
    let full = made(0, Arrival::Nothing, done(false, Feedback::Full));
    assert_eq!(rt;
        (
            is_recorded(&quiet, false),
            is_recorded(&full, false),
            is_recorded(&full, true)
        ),
        (false, true, false)
    );
}

// Two works, run side by side in two threads.
ghost use Rattle.std.specs.Prelude.{◌≡◌, true, false, OnOk, OnErr};
ghost use Rattle.relay_threads.specs.Pairs.{IsDoneFrom};

use pump_frame::OutOfMemory;
use std::snapshot::Snapshot;
use std::sync::Wait;
use std::sync::atomic::{AtomicBool, Ordering};
use std::thread;
use std::thread::{Promise, Threads};

/// A worker's work, with what it makes of its value.
pub trait Work {
    /// The value with which it may run.
    ghost can_run: { Self → Type 0 };

    /// What the value was before a run, and what it is after it.
    ghost ran: { Self → Self → Type 0 };

    fn run<R: Wait>(&mut self, rt: &R)
        requires { Self.can_run self.old }
        ensures { Self.ran self.old self.new };
}

// A work that is lent for a run. `run_both` holds it as a value of a type parameter, so that its caller
// learns what became of the work.
trait Task {
    type Output;

    ghost can_run: { Self → Type 0 };

    // What a run gives, and what is given back without one.
    ghost gives: { Self → Self.Output → Type 0 };

    ghost gives_back: { Self → Self.Output → Type 0 };

    fn run<R: Wait>(self, rt: &R) -> Self::Output
        requires { can_run self }
        ensures { gives self result };

    fn give_back(self) -> Self::Output
        ensures { gives_back self result };
}

#[derive(Drop)]
struct Lent<'w, A> {
    work: &'w mut A,
}

impl<'w, A: Work> Task for Lent<'w, A> {
    type Output = &'w mut A;

    ghost can_run = { λ t. A.can_run t.work.now };

    ghost gives = { λ t work. (work.ghost_name ≡ t.work.ghost_name) × A.ran t.work.now work.now };

    ghost gives_back = { λ t work. (work.ghost_name ≡ t.work.ghost_name) × (work.now ≡ t.work.now) };

    fn run<R: Wait>(self, rt: &R) -> &'w mut A {
        let Lent { work } = self;
        work.run(rt);
        work
    }

    fn give_back(self) -> &'w mut A {
        let Lent { work } = self;
        work
    }
}

// What a task gave, or the task as it was.
#[derive(Drop)]
enum Done<S, A> {
    Ran(A),
    Kept(S),
}

// What a thread promises that is to run a task.
#[derive(Drop)]
struct DoneFrom<S>(Snapshot<S>);

impl<S: Task<Output = A>, A> Promise<Done<S, A>> for DoneFrom<S> {
    ghost use Rattle.relay_threads.specs.Pairs.{IsDoneFrom};

    ghost kept_by = { λ p done. IsDoneFrom S.gives p.0.value done };
}

// Runs a task, unless its thread was refused.
fn run_unless<R: Wait, S: Task<Output = A>, A>(
    rt: &R,
    task: S,
    is_refused: &AtomicBool,
) -> Done<S, A>
    requires { S.can_run task }
    ensures { IsDoneFrom S.gives task result }
{
    if is_refused.load(Ordering::SeqCst) {
        return Done::Kept(task);
    }
    Done::Ran(task.run(rt))
}

// Runs both tasks side by side, the first one in a new thread, and tells that they were run. Where no
// thread can be started both are given back. The mark is set only once the thread was refused, so a thread
// keeps no task, and a refused one runs none; but no clause follows a mark, so each case is written out.
fn run_both<
    R: Threads + Wait + Sync,
    S: Task<Output = A> + Send + Drop,
    T: Task<Output = B> + Drop,
    A: Send + Drop,
    B,
>(rt: &R, first: S, second: T) -> (A, B, bool)
    requires { S.can_run first × T.can_run second }
    ensures ran { result.2 ≡ true → S.gives first result.0 × T.gives second result.1 }
    ensures kept { result.2 ≡ false → S.gives_back first result.0 × T.gives_back second result.1 }
{
    let mark = AtomicBool::new(false);
    let is_refused = &mark;
    thread::scope(
        thread::scope_env(),
        rt,
        move |scope| -> (A, B, bool)
            requires { S.can_run first × T.can_run second }
            ensures ran { result.2 ≡ true → S.gives first result.0 × T.gives second result.1 }
            ensures kept { result.2 ≡ false → S.gives_back first result.0 × T.gives_back second result.1 }
        {
            let promise = DoneFrom(Snapshot::of(&first));
            match scope.spawn_with(promise, move || run_unless(rt, first, is_refused)) {
                Ok(thread) => {
                    let other = second.run(rt);
                    match thread.join(rt) {
                        Done::Ran(one) => (one, other, true),
                        Done::Kept(first) => (first.run(rt), other, true),
                    }
                }
                Err(unstarted) => {
                    is_refused.store(true, Ordering::SeqCst);
                    match (unstarted.value)() {
                        Done::Ran(one) => (one, second.run(rt), true),
                        Done::Kept(first) => (first.give_back(), second.give_back(), false),
                    }
                }
            }
        },
    )
}

// Does nothing, but this use of a reference that came back ties it to the one that was lent.
fn take_back<A>(work: &mut A)
    ensures { work.new ≡ work.old }
{}

/// Runs each of the two works once, side by side in two threads, and waits for both. `OutOfMemory` where
/// the second thread can't be started: then neither was run, and both are as they were.
pub fn try_run_pair<R: Threads + Wait + Sync, A: Work + Send, B: Work>(
    rt: &R,
    low: &mut A,
    high: &mut B,
) -> Result<(), OutOfMemory>
    requires low { A.can_run low.old }
    requires high { B.can_run high.old }
    ensures low { OnOk result (A.ran low.old low.new) }
    ensures high { OnOk result (B.ran high.old high.new) }
    ensures kept { OnErr result ((low.new ≡ low.old) × (high.new ≡ high.old)) }
{
    let (low, high, has_run) = run_both(rt, Lent { work: low }, Lent { work: high });
    take_back(low);
    take_back(high);
    if has_run { Ok(()) } else { Err(OutOfMemory) }
}

/// Runs each of the two works once, side by side in two threads, and waits for both. Where the second
/// thread can't be started, this one does the work of both, low's first.
pub fn run_pair<R: Threads + Wait + Sync, A: Work + Send, B: Work>(
    rt: &R,
    low: &mut A,
    high: &mut B,
)
    requires low { A.can_run low.old }
    requires high { B.can_run high.old }
    ensures low { A.ran low.old low.new }
    ensures high { B.ran high.old high.new }
{
    if try_run_pair(rt, low, high).is_err() {
        low.run(rt);
        high.run(rt);
    }
}

// Both halves of a session, serving side by side in two threads.
ghost use Rattle.std.specs.Prelude.{◌≡◌, OnOk, OnErr};

use pump_frame::OutOfMemory;
use relay_threads::{Watch, Work, try_run_pair};
use std::sync::Wait;
use std::thread::Threads;

// A work of `try_run_pair` holds references alone, each to a value of a type parameter, and its relation
// begins with their names: so the caller learns what became of each value that it lent.

/// The low half of a session, which serves at a side of the relay and writes a record: both are lent to it.
pub trait ServesLow<A, O> {
    ghost use Rattle.std.specs.Prelude.{ℕ};

    ghost can_serve: { Self → A → O → Type 0 };

    /// What became of the half, the side and the tape in so many rounds.
    ghost served: { ℕ → Self → Self → A → A → O → O → Type 0 };

    fn serve<R: Wait, V: Watch>(
        &mut self,
        rt: &R,
        side: &mut A,
        tape: &mut O,
        watch: &V,
        rounds: u32,
    )
        requires { can_serve self.old side.old tape.old }
        ensures { served rounds self.old self.new side.old side.new tape.old tape.new };
}

/// The high half of a session, which serves at a side of the relay that is lent to it.
pub trait ServesHigh<A> {
    ghost use Rattle.std.specs.Prelude.{ℕ};

    ghost can_serve: { Self → A → Type 0 };

    /// What became of the half and the side in so many rounds.
    ghost served: { ℕ → Self → Self → A → A → Type 0 };

    fn serve<R: Wait, V: Watch>(&mut self, rt: &R, side: &mut A, watch: &V, rounds: u32)
        requires { can_serve self.old side.old }
        ensures { served rounds self.old self.new side.old side.new };
}

#[derive(Drop)]
struct LowWork<'h, 'a, 'o, 'w, S, A, O, V> {
    half: &'h mut S,
    side: &'a mut A,
    tape: &'o mut O,
    watch: &'w V,
    rounds: u32,
}

#[derive(Drop)]
struct HighWork<'h, 'a, 'w, S, A, V> {
    half: &'h mut S,
    side: &'a mut A,
    watch: &'w V,
    rounds: u32,
}

impl<S: ServesLow<A, O>, A, O, V: Watch> Work for LowWork<'_, '_, '_, '_, S, A, O, V> {
    ghost can_run = { λ v. S.can_serve v.half.now v.side.now v.tape.now };

    ghost ran = { λ v w. (w.half.ghost_name ≡ v.half.ghost_name) × (w.side.ghost_name ≡ v.side.ghost_name)
        × (w.tape.ghost_name ≡ v.tape.ghost_name)
        × S.served v.rounds v.half.now w.half.now v.side.now w.side.now v.tape.now w.tape.now };

    fn run<R: Wait>(&mut self, rt: &R) {
        self.half
            .serve(rt, self.side, self.tape, self.watch, self.rounds);
    }
}

impl<S: ServesHigh<A>, A, V: Watch> Work for HighWork<'_, '_, '_, S, A, V> {
    ghost can_run = { λ v. S.can_serve v.half.now v.side.now };

    ghost ran = { λ v w. (w.half.ghost_name ≡ v.half.ghost_name) × (w.side.ghost_name ≡ v.side.ghost_name)
        × S.served v.rounds v.half.now w.half.now v.side.now w.side.now };

    fn run<R: Wait>(&mut self, rt: &R) {
        self.half.serve(rt, self.side, self.watch, self.rounds);
    }
}

/// Lets both halves serve for so many rounds, side by side in two threads, and the watch is told of both.
/// `OutOfMemory` where the second thread can't be started: then nothing was done.
pub fn serve_halves<
    R: Threads + Wait + Sync,
    S: ServesLow<A, O> + Send,
    T: ServesHigh<A> + Send,
    A: Send,
    O: Send,
    V: Watch + Sync,
>(
    rt: &R,
    low: &mut S,
    low_side: &mut A,
    tape: &mut O,
    high: &mut T,
    high_side: &mut A,
    watch: &V,
    rounds: u32,
) -> Result<(), OutOfMemory>
    requires low { S.can_serve low.old low_side.old tape.old }
    requires high { T.can_serve high.old high_side.old }
    ensures low { OnOk result (S.served rounds low.old low.new low_side.old low_side.new tape.old tape.new) }
    ensures high { OnOk result (T.served rounds high.old high.new high_side.old high_side.new) }
    ensures kept { OnErr result ((low.new ≡ low.old) × (low_side.new ≡ low_side.old) × (tape.new ≡ tape.old)
        × (high.new ≡ high.old) × (high_side.new ≡ high_side.old)) }
{
    let mut low_work = LowWork {
        half: low,
        side: low_side,
        tape,
        watch,
        rounds,
    };
    let mut high_work = HighWork {
        half: high,
        side: high_side,
        watch,
        rounds,
    };
    try_run_pair(rt, &mut low_work, &mut high_work)
}

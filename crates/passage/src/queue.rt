// The queue between the ends: the low end pushes, and the high end pops.
ghost use Rattle.std.specs.Prelude.{◌≡◌, ◌^◌, ◌<◌, true, length};
ghost use Rattle.crossbeam_queue.specs.Passes.{view, IsPassOf, IsSamePass};
ghost use Rattle.pump_core.specs.Passage.{ComesNext};
ghost use Rattle.passage.specs.QueueRule.{with_sent, with_got, QueueTies};

use crossbeam_queue::protocol::{Join, Lesson, Outcome, Protocol, Split};
use crossbeam_queue::{Pass, RuledArrayQueue};
use pump_frame::Item;
use std::collections::LinkedList;
use std::sync::Wait;
use std::thread;

/// What an end knows of the queue. No value of it is made.
pub struct QueueView {
    // The low end's part.
    pub pushes: bool,
    pub forwarded: LinkedList<Item>,
    // The high end's part.
    pub pops: bool,
    pub taken: LinkedList<Item>,
}

pub struct QueueRule;

impl Protocol<Item, QueueView> for QueueRule {
    ghost use Rattle.passage.specs.QueueRule.{QueueKept, queue_first};

    ghost holds = { QueueKept };

    ghost first = { queue_first };
}

pub type Queue = RuledArrayQueue<Item, QueueView, QueueRule>;

pub type QueuePass = Pass<Item, QueueView>;

struct Pushed;

impl Outcome<Item, QueueView> for Pushed {
    ghost use Rattle.passage.specs.QueueRule.{with_sent};

    ghost then = { λ v x w. (w ≡ with_sent v x) × (length v.forwarded < 2 ^ 48) };
}

struct Popped;

impl Outcome<Item, QueueView> for Popped {
    ghost use Rattle.passage.specs.QueueRule.{with_got};

    ghost then = { λ v x w. (w ≡ with_got v x) × (length v.taken < 2 ^ 48) };
}

/// The two roles are parted.
pub struct QueueParts;

impl Split<QueueView> for QueueParts {
    ghost use Rattle.passage.specs.QueueRule.{queue_pusher, queue_popper};

    ghost left = { queue_pusher };

    ghost right = { queue_popper };
}

/// The pusher takes in what the popper knows.
pub struct QueueMeets;

impl Join<QueueView> for QueueMeets {
    ghost use Rattle.passage.specs.QueueRule.{queue_both, queue_spent};

    ghost both = { queue_both };

    ghost spent = { queue_spent };
}

/// What both parts together say.
pub struct QueueLearns;

impl Lesson<Item, QueueView> for QueueLearns {
    ghost use Rattle.passage.specs.QueueRule.{QueueTies};

    ghost fact = { λ v items. QueueTies v items };
}

/// Pushes the item. No rule spans the queue and the cells, so it tries until there is room.
pub fn push<R: Wait>(rt: &R, queue: &Queue, pass: &mut QueuePass, item: Item)
    requires pass { IsPassOf queue.now pass.old }
    requires role { (view pass.old).pushes ≡ true }
    requires follows { ComesNext (view pass.old).forwarded item.number × (item.number < 2 ^ 48) }
    ensures pass { IsSamePass pass.old pass.new }
    ensures sent { view pass.new ≡ with_sent (view pass.old) item }
    ensures small { length (view pass.old).forwarded < 2 ^ 48 }
{
    let mut item = item;
    for _ in rt.forever() {
        match queue.try_push_as::<Pushed>(pass, item) {
            Ok(()) => return,
            Err(back) => item = back,
        }
        thread::yield_now();
    }
    unreachable!()
}

/// Pops an item. No rule spans the queue and the cells, so it tries until there is one.
pub fn pop<R: Wait>(rt: &R, queue: &Queue, pass: &mut QueuePass) -> Item
    requires pass { IsPassOf queue.now pass.old }
    requires role { (view pass.old).pops ≡ true }
    ensures pass { IsSamePass pass.old pass.new }
    ensures got { view pass.new ≡ with_got (view pass.old) result }
    ensures small { length (view pass.old).taken < 2 ^ 48 }
{
    for _ in rt.forever() {
        if let Some(item) = queue.try_pop_as::<Popped>(pass) {
            return item;
        }
        thread::yield_now();
    }
    unreachable!()
}

// What the two ends' passes say together: each object's two passes meet, and the object is looked at once.
ghost use Rattle.std.specs.Prelude.{◌≡◌, List, true};
ghost use Rattle.crossbeam_queue.specs.Passes.{view, IsPassOf};
ghost use Rattle.crossbeam_queue.specs.Fifo.{Forks as ForksInQueue, Merges as MergesInQueue, Learns};
ghost use Rattle.crossbeam_utils.specs.Register.{Turns, Forks, Merges};
ghost use Rattle.crossbeam_utils.specs.Seq.{cell_view};
ghost use Rattle.pump_frame.specs.declared.frame.Item.{Item};
ghost use Rattle.passage.specs.QueueRule.{QueueKept, QueueTies, queue_pusher, queue_popper, queue_both, queue_spent};
ghost use Rattle.passage.specs.LowRule.{LowKept, LowTies, low_writer, low_reader, low_both, low_spent};
ghost use Rattle.passage.specs.HighRule.{HighKept, HighTies, high_writer, high_reader, high_both, high_spent};

use crate::high_cell::{HighCell, HighLearns, HighMeets, HighParts, HighPass};
use crate::low_cell::{LowCell, LowLearns, LowMeets, LowParts, LowPass};
use crate::queue::{Queue, QueueLearns, QueueMeets, QueuePass};
use std::sync::Wait;

// Laws without code: each step keeps the rule of its object.
fn merging_in_queue(sent: &QueuePass, popped: &QueuePass)
    requires pushes { (view sent.now).pushes ≡ true }
    requires pops { (view popped.now).pops ≡ true }
    ensures { MergesInQueue QueueKept sent.now.id (view sent.now) popped.now.id (view popped.now)
        (queue_both (view sent.now) (view popped.now)) queue_spent }
{}

fn learning_of_queue(pass: &QueuePass)
    requires pushes { (view pass.now).pushes ≡ true }
    requires pops { (view pass.now).pops ≡ true }
    ensures { Learns QueueKept pass.now.id (view pass.now) (λ items. QueueTies (view pass.now) items) }
{}

pub fn parting_queue(pass: &QueuePass)
    requires { (view pass.now).pops ≡ true }
    ensures { ForksInQueue QueueKept pass.now.id (view pass.now) (queue_pusher (view pass.now))
        (queue_popper (view pass.now)) }
{}

pub fn parting_high(pass: &HighPass)
    requires { (cell_view pass.now).reads ≡ true }
    ensures { Forks HighKept pass.now.id (cell_view pass.now) (high_writer (cell_view pass.now))
        (high_reader (cell_view pass.now)) }
{}

fn merging_high(told: &HighPass, reader: &HighPass)
    requires writes { (cell_view told.now).writes ≡ true }
    requires reads { (cell_view reader.now).reads ≡ true }
    ensures { Merges HighKept told.now.id (cell_view told.now) reader.now.id (cell_view reader.now)
        (high_both (cell_view told.now) (cell_view reader.now)) high_spent }
{}

fn learning_of_high(pass: &HighPass)
    requires writes { (cell_view pass.now).writes ≡ true }
    requires reads { (cell_view pass.now).reads ≡ true }
    ensures { Turns HighKept pass.now.id (cell_view pass.now) (λ x. x) (λ v x y w. (w ≡ v) × HighTies v) }
{}

pub fn parting_low(pass: &LowPass)
    ensures { Forks LowKept pass.now.id (cell_view pass.now) (low_writer (cell_view pass.now))
        (low_reader (cell_view pass.now)) }
{}

fn merging_low(told: &LowPass, seeker: &LowPass)
    ensures { Merges LowKept told.now.id (cell_view told.now) seeker.now.id (cell_view seeker.now)
        (low_both (cell_view told.now) (cell_view seeker.now)) low_spent }
{}

fn learning_of_low(pass: &LowPass)
    requires writes { (cell_view pass.now).writes ≡ true }
    requires reads { (cell_view pass.now).reads ≡ true }
    ensures { Turns LowKept pass.now.id (cell_view pass.now) (λ x. x) (λ v x y w. (w ≡ v) × LowTies v) }
{}

/// What the two passes of the queue say of what it holds.
pub fn meet_in_queue(queue: &Queue, sent: &mut QueuePass, popped: QueuePass)
    requires sent { IsPassOf queue.now sent.old }
    requires popped { IsPassOf queue.now popped }
    requires pushes { (view sent.old).pushes ≡ true }
    requires pops { (view popped).pops ≡ true }
    ensures { (items : List Item) × QueueTies (queue_both (view sent.old) (view popped)) items }
{
    merging_in_queue(sent, &popped);
    queue.absorb::<QueueMeets>(sent, popped);
    learning_of_queue(sent);
    queue.learn_as::<QueueLearns>(sent);
}

/// What the two passes of high's cell say of it.
pub fn meet_in_high<R: Wait>(rt: &R, cell: &HighCell, told: &mut HighPass, read: &mut HighPass)
    requires told { told.old.table_id ≡ cell.now.table.shared.table_id }
    requires read { read.old.table_id ≡ cell.now.table.shared.table_id }
    requires writes { (cell_view told.old).writes ≡ true }
    requires reads { (cell_view read.old).reads ≡ true }
    ensures { HighTies (high_both (cell_view told.old) (high_reader (cell_view read.old))) }
{
    parting_high(read);
    let reader = cell.split_pass::<HighParts>(read);
    merging_high(told, &reader);
    cell.join_pass::<HighMeets>(told, reader);
    learning_of_high(told);
    cell.load_as::<HighLearns, R>(rt, told);
}

/// What the two passes of low's cell say of it.
pub fn meet_in_low<R: Wait>(rt: &R, cell: &LowCell, told: &mut LowPass, sought: &mut LowPass)
    requires told { told.old.table_id ≡ cell.now.table.shared.table_id }
    requires sought { sought.old.table_id ≡ cell.now.table.shared.table_id }
    requires writes { (cell_view told.old).writes ≡ true }
    requires reads { (cell_view sought.old).reads ≡ true }
    ensures { LowTies (low_both (cell_view told.old) (low_reader (cell_view sought.old))) }
{
    parting_low(sought);
    let seeker = cell.split_pass::<LowParts>(sought);
    merging_low(told, &seeker);
    cell.join_pass::<LowMeets>(told, seeker);
    learning_of_low(told);
    cell.load_as::<LowLearns, R>(rt, told);
}

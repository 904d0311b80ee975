// The steps on low's cell.
ghost use Rattle.std.specs.Prelude.{◌≡◌, ◌+◌, true, false, length};
ghost use Rattle.crossbeam_queue.specs.Passes.{view};
ghost use Rattle.crossbeam_utils.specs.Register.{Turns};
ghost use Rattle.crossbeam_utils.specs.Seq.{cell_view, IsSamePass};
ghost use Rattle.passage.specs.LowRule.{LowKept, with_forwarded, with_seek};

use crate::low_cell::{FindsForwarded, HighTry, LowCell, LowPass, LowWord, TellsForwarded};
use crate::queue::QueuePass;
use std::marker::Brand;
use std::sync::Wait;

impl HighTry for Brand {
    ghost taken = { 0 };
}

// A law without code: this step keeps the cell's rule.
fn telling_forwarded(pass: &LowPass, word: LowWord)
    requires writes { (cell_view pass.now).writes ≡ true }
    requires idle { (cell_view pass.now).reads ≡ false }
    requires word { word.forwarded ≡ (cell_view pass.now).forwarded + 1 }
    ensures { Turns LowKept pass.now.id (cell_view pass.now) (λ _. word) (λ v x y w. w ≡ with_forwarded v) }
{}

/// The low end's swap, after a push: no number is told before so many were pushed.
pub fn tell_forwarded<R: Wait>(
    rt: &R,
    cell: &LowCell,
    pass: &mut LowPass,
    word: LowWord,
    _sent: &QueuePass,
)
    requires pushed { word.forwarded ≡ length (view _sent.now).forwarded }
    requires cell { pass.old.table_id ≡ cell.now.table.shared.table_id }
    requires role { ((cell_view pass.old).writes ≡ true) × ((cell_view pass.old).reads ≡ false) }
    requires word { word.forwarded ≡ (cell_view pass.old).forwarded + 1 }
    ensures cell { IsSamePass pass.old pass.new }
    ensures rule { cell_view pass.new ≡ with_forwarded (cell_view pass.old) }
{
    telling_forwarded(pass, word);
    cell.swap_as::<TellsForwarded, R>(rt, pass, word);
}

// A law without code: this step keeps the cell's rule.
fn finding_forwarded<K: HighTry>(pass: &LowPass)
    requires idle { (cell_view pass.now).writes ≡ false }
    requires reads { (cell_view pass.now).reads ≡ true }
    ensures { Turns LowKept pass.now.id (cell_view pass.now) (λ x. x) (λ v x y w. (y ≡ x)
        × (w ≡ with_seek K.taken v x.forwarded)) }
{}

fn load_forwarded<K: HighTry, R: Wait>(
    rt: &R,
    cell: &LowCell,
    pass: &mut LowPass,
    taken: u64,
) -> LowWord
    requires cell { pass.old.table_id ≡ cell.now.table.shared.table_id }
    requires role { ((cell_view pass.old).writes ≡ false) × ((cell_view pass.old).reads ≡ true) }
    requires taken { taken ≡ K.taken }
    ensures cell { IsSamePass pass.old pass.new }
    ensures rule { cell_view pass.new ≡ with_seek taken (cell_view pass.old) result.forwarded }
{
    finding_forwarded::<K>(pass);
    cell.load_as::<FindsForwarded<K>, R>(rt, pass)
}

/// The high end's load, where it has taken up so many.
pub fn find_forwarded<R: Wait>(rt: &R, cell: &LowCell, pass: &mut LowPass, taken: u64) -> LowWord
    requires cell { pass.old.table_id ≡ cell.now.table.shared.table_id }
    requires role { ((cell_view pass.old).writes ≡ false) × ((cell_view pass.old).reads ≡ true) }
    ensures cell { IsSamePass pass.old pass.new }
    ensures rule { cell_view pass.new ≡ with_seek taken (cell_view pass.old) result.forwarded }
{
    load_forwarded::<Brand, R>(rt, cell, pass, taken)
}

// The steps on high's cell.
ghost use Rattle.std.specs.Prelude.{◌≡◌, ◌+◌, ◌≤◌, ◌++◌, ◌∷◌, [], true, false, length};
ghost use Rattle.crossbeam_queue.specs.Passes.{view};
ghost use Rattle.crossbeam_utils.specs.Register.{Turns};
ghost use Rattle.crossbeam_utils.specs.Seq.{cell_view, IsSamePass};
ghost use Rattle.pump_frame.specs.Averages.{average_of};
ghost use Rattle.passage.specs.HighRule.{HighKept, no_averaging, with_row, with_try, with_pair, PairsUpTo, with_taken};
ghost use Rattle.passage.specs.HighRule.{with_time, high_first};

use crate::high_cell::{
    FindsPair, FindsTaken, HighCell, HighPass, HighWord, LowTry, RemovedTold, RowTold, TellsRow,
    TellsTaken, TellsTime, TimeTold,
};
use crate::queue::QueuePass;
use pump_frame::Averaging;
use std::marker::Brand;
use std::sync::Wait;

impl LowTry for Brand {
    ghost forwarded = { 0 };
}

impl RemovedTold for Brand {
    ghost removed = { 0 };
}

impl TimeTold for Brand {
    ghost micros = { 0 };
}

impl RowTold for Brand {
    ghost places = { 0 };

    ghost averaging = { no_averaging };
}

// A law without code: this step keeps the cell's rule.
fn finding_taken<K: LowTry>(pass: &HighPass)
    requires idle { (cell_view pass.now).writes ≡ false }
    requires reads { (cell_view pass.now).reads ≡ true }
    ensures { Turns HighKept pass.now.id (cell_view pass.now) (λ x. x) (λ v x y w. (y ≡ x)
        × (w ≡ with_try K.forwarded v x.taken) × (v.found ≤ x.taken)) }
{}

fn load_taken<K: LowTry, R: Wait>(
    rt: &R,
    cell: &HighCell,
    pass: &mut HighPass,
    forwarded: u64,
) -> HighWord
    requires cell { pass.old.table_id ≡ cell.now.table.shared.table_id }
    requires role { ((cell_view pass.old).writes ≡ false) × ((cell_view pass.old).reads ≡ true) }
    requires forwarded { forwarded ≡ K.forwarded }
    ensures cell { IsSamePass pass.old pass.new }
    ensures rule { cell_view pass.new ≡ with_try forwarded (cell_view pass.old) result.taken }
    ensures up { (cell_view pass.old).found ≤ result.taken }
{
    finding_taken::<K>(pass);
    cell.load_as::<FindsTaken<K>, R>(rt, pass)
}

/// The low end's load for a try, where it has forwarded so many.
pub fn find_taken<R: Wait>(rt: &R, cell: &HighCell, pass: &mut HighPass, forwarded: u64) -> HighWord
    requires cell { pass.old.table_id ≡ cell.now.table.shared.table_id }
    requires role { ((cell_view pass.old).writes ≡ false) × ((cell_view pass.old).reads ≡ true) }
    ensures cell { IsSamePass pass.old pass.new }
    ensures rule { cell_view pass.new ≡ with_try forwarded (cell_view pass.old) result.taken }
    ensures up { (cell_view pass.old).found ≤ result.taken }
{
    load_taken::<Brand, R>(rt, cell, pass, forwarded)
}

// A law without code: this step keeps the cell's rule.
fn finding_pair(pass: &HighPass)
    requires idle { (cell_view pass.now).writes ≡ false }
    requires reads { (cell_view pass.now).reads ≡ true }
    ensures { Turns HighKept pass.now.id (cell_view pass.now) (λ x. x) (λ v x y w. (y ≡ x)
        × (w ≡ with_pair v x.count x.average) × PairsUpTo v x.count) }
{}

/// The low end's load for a pair.
pub fn find_pair<R: Wait>(rt: &R, cell: &HighCell, pass: &mut HighPass) -> HighWord
    requires cell { pass.old.table_id ≡ cell.now.table.shared.table_id }
    requires role { ((cell_view pass.old).writes ≡ false) × ((cell_view pass.old).reads ≡ true) }
    ensures cell { IsSamePass pass.old pass.new }
    ensures rule { cell_view pass.new ≡ with_pair (cell_view pass.old) result.count result.average }
    ensures up { PairsUpTo (cell_view pass.old) result.count }
{
    finding_pair(pass);
    cell.load_as::<FindsPair, R>(rt, pass)
}

// A law without code: this step keeps the cell's rule.
fn telling_taken<K: RemovedTold>(pass: &HighPass, word: HighWord)
    requires writes { (cell_view pass.now).writes ≡ true }
    requires idle { (cell_view pass.now).reads ≡ false }
    requires taken { word.taken ≡ (cell_view pass.now).taken + 1 }
    requires count { word.count ≡ length (cell_view pass.now).times }
    requires average { word.average ≡ average_of (cell_view pass.now).averaging (cell_view pass.now).times }
    ensures { Turns HighKept pass.now.id (cell_view pass.now) (λ _. word) (λ v x y w. w ≡ with_taken v K.removed) }
{}

fn swap_taken<K: RemovedTold, R: Wait>(
    rt: &R,
    cell: &HighCell,
    pass: &mut HighPass,
    word: HighWord,
    removed: u64,
)
    requires cell { pass.old.table_id ≡ cell.now.table.shared.table_id }
    requires role { ((cell_view pass.old).writes ≡ true) × ((cell_view pass.old).reads ≡ false) }
    requires taken { word.taken ≡ (cell_view pass.old).taken + 1 }
    requires count { word.count ≡ length (cell_view pass.old).times }
    requires average { word.average ≡ average_of (cell_view pass.old).averaging (cell_view pass.old).times }
    requires removed { removed ≡ K.removed }
    ensures cell { IsSamePass pass.old pass.new }
    ensures rule { cell_view pass.new ≡ with_taken (cell_view pass.old) removed }
{
    telling_taken::<K>(pass, word);
    cell.swap_as::<TellsTaken<K>, R>(rt, pass, word);
}

/// The high end's swap, after a pop, where so many messages were removed: no number is told before so
/// many were popped.
pub fn tell_taken<R: Wait>(
    rt: &R,
    cell: &HighCell,
    pass: &mut HighPass,
    word: HighWord,
    removed: u64,
    _popped: &QueuePass,
)
    requires popped { word.taken ≡ length (view _popped.now).taken }
    requires cell { pass.old.table_id ≡ cell.now.table.shared.table_id }
    requires role { ((cell_view pass.old).writes ≡ true) × ((cell_view pass.old).reads ≡ false) }
    requires taken { word.taken ≡ (cell_view pass.old).taken + 1 }
    requires count { word.count ≡ length (cell_view pass.old).times }
    requires average { word.average ≡ average_of (cell_view pass.old).averaging (cell_view pass.old).times }
    ensures cell { IsSamePass pass.old pass.new }
    ensures rule { cell_view pass.new ≡ with_taken (cell_view pass.old) removed }
{
    swap_taken::<Brand, R>(rt, cell, pass, word, removed);
}

// A law without code: this step keeps the cell's rule.
fn telling_time<K: TimeTold>(pass: &HighPass, word: HighWord)
    requires writes { (cell_view pass.now).writes ≡ true }
    requires idle { (cell_view pass.now).reads ≡ false }
    requires taken { word.taken ≡ (cell_view pass.now).taken }
    requires count { word.count ≡ length ((cell_view pass.now).times ++ K.micros ∷ []) }
    requires average { word.average
        ≡ average_of (cell_view pass.now).averaging ((cell_view pass.now).times ++ K.micros ∷ []) }
    ensures { Turns HighKept pass.now.id (cell_view pass.now) (λ _. word) (λ v x y w. w ≡ with_time v K.micros) }
{}

fn swap_time<K: TimeTold, R: Wait>(
    rt: &R,
    cell: &HighCell,
    pass: &mut HighPass,
    word: HighWord,
    micros: u32,
)
    requires cell { pass.old.table_id ≡ cell.now.table.shared.table_id }
    requires role { ((cell_view pass.old).writes ≡ true) × ((cell_view pass.old).reads ≡ false) }
    requires taken { word.taken ≡ (cell_view pass.old).taken }
    requires count { word.count ≡ length ((cell_view pass.old).times ++ micros ∷ []) }
    requires average { word.average
        ≡ average_of (cell_view pass.old).averaging ((cell_view pass.old).times ++ micros ∷ []) }
    requires time { micros ≡ K.micros }
    ensures cell { IsSamePass pass.old pass.new }
    ensures rule { cell_view pass.new ≡ with_time (cell_view pass.old) micros }
{
    telling_time::<K>(pass, word);
    cell.swap_as::<TellsTime<K>, R>(rt, pass, word);
}

/// The high end's swap where it publishes this time.
pub fn tell_time<R: Wait>(rt: &R, cell: &HighCell, pass: &mut HighPass, word: HighWord, micros: u32)
    requires cell { pass.old.table_id ≡ cell.now.table.shared.table_id }
    requires role { ((cell_view pass.old).writes ≡ true) × ((cell_view pass.old).reads ≡ false) }
    requires taken { word.taken ≡ (cell_view pass.old).taken }
    requires count { word.count ≡ length ((cell_view pass.old).times ++ micros ∷ []) }
    requires average { word.average
        ≡ average_of (cell_view pass.old).averaging ((cell_view pass.old).times ++ micros ∷ []) }
    ensures cell { IsSamePass pass.old pass.new }
    ensures rule { cell_view pass.new ≡ with_time (cell_view pass.old) micros }
{
    swap_time::<Brand, R>(rt, cell, pass, word, micros);
}

// A law without code: this step keeps the cell's rule.
fn telling_row<K: RowTold>(pass: &HighPass, word: HighWord)
    requires fresh { cell_view pass.now ≡ high_first }
    requires count { word.count ≡ 0 }
    requires average { word.average ≡ average_of K.averaging [] }
    requires taken { word.taken ≡ 0 }
    ensures { Turns HighKept pass.now.id (cell_view pass.now) (λ _. word) (λ v x y w. w
        ≡ with_row v K.places K.averaging) }
{}

fn swap_row<K: RowTold, R: Wait>(
    rt: &R,
    cell: &HighCell,
    pass: &mut HighPass,
    places: u64,
    averaging: Averaging,
    word: HighWord,
)
    requires cell { pass.old.table_id ≡ cell.now.table.shared.table_id }
    requires fresh { cell_view pass.old ≡ high_first }
    requires word { (word.count ≡ 0) × (word.taken ≡ 0) }
    requires average { word.average ≡ average_of averaging [] }
    requires row { (places ≡ K.places) × (averaging ≡ K.averaging) }
    ensures cell { IsSamePass pass.old pass.new }
    ensures rule { cell_view pass.new ≡ with_row (cell_view pass.old) places averaging }
{
    telling_row::<K>(pass, word);
    cell.swap_as::<TellsRow<K>, R>(rt, pass, word);
}

/// The first swap, under the pass that is not parted yet. Its word has the average of no
/// times.
pub fn tell_row<R: Wait>(
    rt: &R,
    cell: &HighCell,
    pass: &mut HighPass,
    places: u64,
    averaging: Averaging,
    word: HighWord,
)
    requires cell { pass.old.table_id ≡ cell.now.table.shared.table_id }
    requires fresh { cell_view pass.old ≡ high_first }
    requires word { (word.count ≡ 0) × (word.taken ≡ 0) }
    requires average { word.average ≡ average_of averaging [] }
    ensures cell { IsSamePass pass.old pass.new }
    ensures rule { cell_view pass.new ≡ with_row (cell_view pass.old) places averaging }
{
    swap_row::<Brand, R>(rt, cell, pass, places, averaging, word);
}

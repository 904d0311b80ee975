// Low's side of a record.
ghost use Rattle.std.specs.Prelude.{◌≤◌, length};

use crate::compared::What;
use crate::form::RecordPlace;
use pump_frame::SessionRow;
use script_reader::ToldFeedback;

/// A look, without the count that it was told.
#[derive(Drop)]
pub(crate) struct Item {
    pub moment: u64,
    pub word: u32,
    /// What it was offered: no bytes for nothing, a frame's own, 0 for bad bytes, 1 for a lost connection.
    pub offered: Vec<u8>,
    pub is_fault: bool,
    pub told: ToldFeedback,
}

/// What was found at the opening of a record.
#[derive(Drop)]
pub(crate) struct Opened {
    pub row: SessionRow,
    pub next: u64,
    pub is_held: bool,
}

/// The looks of a second record, each compared with that of the first record in its place.
#[derive(Drop)]
pub(crate) struct Matching {
    /// The first record's looks.
    pub first: Vec<Item>,
    /// How many looks are alike.
    pub alike: usize,
    /// In what the ones behind these differ. What comes then is no matter.
    pub difference: Option<What>,
    ghost few: { alike ≤ length first.items },
}

/// The looks of a side, the oldest first.
#[derive(Drop)]
pub(crate) enum Looks {
    /// Those of a first record are kept.
    Kept(Vec<Item>),
    /// Those of a second one are compared as they come.
    Matched(Matching),
}

/// Low's side of a record.
#[derive(Drop)]
pub(crate) struct Side {
    pub opened: Opened,
    pub place: RecordPlace,
    pub looks: Looks,
}

// How two sides differ.
ghost use Rattle.std.specs.Prelude.{◌≡◌, ◌+◌, ◌^◌, ◌<◌, true, false, ◌&&◌, List, [], ◌∷◌, ◌++◌, Option, None, Some};
ghost use Rattle.std.specs.Prelude.{length, OnOk, MatchOption, map};
ghost use Rattle.std.specs.Str.{bytes_eq};
ghost use Rattle.pump_frame.specs.Frames.{IsLawful};
ghost use Rattle.pump_frame.specs.Spellings.{spelling};
ghost use Rattle.pump_audit.specs.Comparing.{ItemTold, SideTold, SidesAre, AreAlike, DifferAt, item_of, offered_bytes};
ghost use Rattle.pump_audit.specs.Comparing.{same_told, unlike};
ghost use Rattle.pump_audit.specs.Entries.{IsPlain};
ghost use Rattle.pump_audit.specs.Siding.{tells, LooksTell, Matches, SideOpens, Stands, has_same_numbers, has_same_row};
ghost use Rattle.pump_audit.specs.Siding.{has_same_opening};

use crate::compared::{Compared, What};
use crate::entry::{LookLine, Offer};
use crate::items::{item, uncounted};
use crate::side::{Item, Looks, Matching, Opened, Side};
use arrayvec::ArrayVec;
use pump_frame::{Frame, OutOfMemory, SessionRow, encode};
use script_reader::ToldFeedback;
use std::alloc::Global;

fn same_told(a: &ToldFeedback, b: &ToldFeedback) -> bool
    ensures { result ≡ same_told a.now b.now }
{
    match (a, b) {
        (ToldFeedback::Quiet, ToldFeedback::Quiet) | (ToldFeedback::Full, ToldFeedback::Full) => {
            true
        }
        (
            ToldFeedback::Pair { count, average },
            ToldFeedback::Pair {
                count: other_count,
                average: other_average,
            },
        ) => count == other_count && average == other_average,
        _ => false,
    }
}

// Whether these are the frame's bytes.
fn is_spelling(bytes: &[u8], frame: &Frame) -> bool
    requires { IsLawful frame.now }
    ensures { result ≡ bytes_eq bytes.now (spelling frame.now) }
{
    let mut room = ArrayVec::new();
    encode(frame, &mut room);
    bytes == room.as_slice()
}

// Whether the look was offered just these bytes.
fn has_offered(line: &LookLine, bytes: &[u8]) -> bool
    requires { IsPlain line.now }
    ensures { result ≡ bytes_eq bytes.now (offered_bytes line.now.coming) }
{
    match line.coming.offer() {
        Offer::Nothing => bytes == [].as_slice(),
        Offer::Frame(frame) => is_spelling(bytes, frame),
        Offer::Bad => bytes == [0].as_slice(),
        Offer::Gone => bytes == [1].as_slice(),
    }
}

// The first part in which a look that was kept and another one differ.
fn unlike(x: &Item, y: &LookLine) -> Option<What>
    requires { IsPlain y.now }
    ensures { result ≡ unlike (tells x.now) (item_of y.now) }
{
    if x.moment != y.moment {
        return Some(What::Moment);
    }
    if x.word != y.word {
        return Some(What::Word);
    }
    if !has_offered(y, x.offered.as_slice()) {
        return Some(What::Arrival);
    }
    if x.is_fault != y.is_fault {
        return Some(What::Outcome);
    }
    if !same_told(&x.told, &uncounted(&y.told)) {
        return Some(What::Feedback);
    }
    None
}

impl Matching {
    /// Nothing came of the second record.
    fn new(first: Vec<Item>) -> Matching
        ensures { Matches (map tells first.items) result [] }
    {
        Matching {
            first,
            alike: 0,
            difference: None,
        }
    }

    /// The next look of the second record.
    fn add(&mut self, line: &LookLine)
        requires { IsPlain line.now }
        ensures { (us xs : List ItemTold) → Matches us self.old xs → Matches us self.new (xs ++ item_of line.now ∷ []) }
    {
        if self.difference.is_some() {
            return;
        }
        match self.first.get(self.alike) {
            Some(own) => match unlike(own, line) {
                Some(what) => self.difference = Some(what),
                None => self.alike += 1,
            },
            None => self.difference = Some(What::Length),
        }
    }

    /// How many looks are alike where no further one comes, and in what those behind them differ.
    fn ended(&self) -> (usize, Option<What>)
        ensures is { (us xs : List ItemTold) → Matches us self.now xs
            → MatchOption result.1 (AreAlike us xs × (result.0 ≡ length us)) (λ w. DifferAt us xs result.0 w) }
        ensures bound { result.0 < 2 ^ 63 }
    {
        match self.difference {
            Some(what) => (self.alike, Some(what)),
            None if self.alike < self.first.len() => (self.alike, Some(What::Length)),
            None => (self.alike, None),
        }
    }
}

impl Looks {
    /// One more look.
    pub fn add(&mut self, alloc: Global, line: &LookLine) -> Result<(), OutOfMemory>
        requires { IsPlain line.now }
        ensures { OnOk result ((first : Option (List ItemTold)) (xs : List ItemTold) → LooksTell first self.old xs
            → LooksTell first self.new (xs ++ item_of line.now ∷ [])) }
    {
        match self {
            Looks::Kept(items) => items.push(item(alloc, line)?)?,
            Looks::Matched(matching) => matching.add(line),
        }
        Ok(())
    }

    // How many looks are alike where no further one comes, and in what those behind them differ. Looks that
    // are kept are compared with none.
    fn ended(&self) -> (usize, Option<What>)
        ensures is { (us xs : List ItemTold) → LooksTell (Some us) self.now xs
            → MatchOption result.1 (AreAlike us xs × (result.0 ≡ length us)) (λ w. DifferAt us xs result.0 w) }
        ensures bound { result.0 < 2 ^ 63 }
    {
        match self {
            Looks::Kept(items) => (items.len(), None),
            Looks::Matched(matching) => matching.ended(),
        }
    }

    /// The looks of a second record are to be compared with those that were kept.
    pub fn to_match(self) -> Looks
        ensures { (xs : List ItemTold) → LooksTell None self xs → LooksTell (Some xs) result [] }
    {
        match self {
            Looks::Kept(items) => Looks::Matched(Matching::new(items)),
            Looks::Matched(matching) => Looks::Matched(matching),
        }
    }
}

fn same_numbers(a: &SessionRow, b: &SessionRow) -> bool
    ensures { result ≡ has_same_numbers a.now b.now }
{
    a.id == b.id
        && a.capacity == b.capacity
        && a.message == b.message
        && a.window == b.window
        && a.start == b.start
        && a.longest == b.longest
        && a.resend == b.resend
        && a.low_port == b.low_port
        && a.high_port == b.high_port
}

fn same_row(a: &SessionRow, b: &SessionRow) -> bool
    ensures { result ≡ has_same_row a.now b.now }
{
    same_numbers(a, b)
        && a.low.as_slice() == b.low.as_slice()
        && a.high.as_slice() == b.high.as_slice()
        && a.coarse == b.coarse
}

impl Opened {
    fn is_same(&self, other: &Opened) -> bool
        ensures { result ≡ has_same_opening self.now other.now }
    {
        same_row(&self.row, &other.row) && self.next == other.next && self.is_held == other.is_held
    }
}

impl Side {
    /// How a first record that was opened so compares with this one, of which no further line comes.
    pub fn compared(&self, first: &Opened) -> Compared
        ensures { (a b : SideTold) → SideOpens first.now a → Stands (Some a.items) self.now b → SidesAre a b result }
    {
        if !first.is_same(&self.opened) {
            return Compared::Differ {
                item: 0,
                what: What::Opening,
            };
        }
        match self.looks.ended() {
            (at, Some(what)) => Compared::Differ {
                item: at as u64 + 1,
                what,
            },
            (count, None) => Compared::Agree {
                items: count as u64 + 1,
            },
        }
    }
}

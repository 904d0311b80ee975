//! The low side of a session alone: a script tells what the passage answers.

ghost use Rattle.two_worlds.specs.LowPumpParts.{StandsForSome};
ghost use Rattle.std.specs.Prelude.{◌≡◌, false};
ghost use Rattle.low_process.specs.Looks.{is_down};

use crate::applied::{Applied, Stop};
use crate::printing::events_of;
use arrayvec::ArrayVec;
use pump_frame::{OutOfMemory, SessionRow};
use script_reader::{EventHead, Line, LineHead};
use std::alloc::Global;

mod parts;

use parts::LowPumpParts;

/// The low process of a session with its connection and its store, which lies on a disk in memory.
/// All its room was taken when it was made.
#[derive(Drop)]
pub struct LowPump {
    parts: LowPumpParts,
    ghost stands: { is_down parts.process ≡ false → ∥ StandsForSome parts ∥₁ },
}

impl LowPump {
    ghost use Rattle.std.specs.Prelude.{◌≤◌, ◌^◌, true, None, IfOk};
    ghost use Rattle.pump_frame.specs.Rows.{IsLawfulRow};
    ghost use Rattle.script_reader.specs.declared.event.Event.TheVariants.{End};
    ghost use Rattle.script_reader.specs.Lawful.{IsLawfulLine};
    ghost use Rattle.script_reader.specs.Heads.{line_with, CanHoldLine};
    ghost use Rattle.two_worlds.specs.Printing.{lines_in};
    ghost use Rattle.script_reader.specs.Scripts.{IsEndAlone};
    ghost use Rattle.script_reader.specs.Alone.{PastAlone, fresh_alone};
    ghost use Rattle.two_worlds.specs.LowPumps.{low_row_of, low_is_down, stops_at_disk, LowStandsFor, AppliesAlone};

    /// The low side of a lawful row before its first line, with `next` messages stored, at most 2^48.
    /// Where it is held, the last one, without bytes, is in the low hand; then `next` is at least 1.
    pub fn open(
        alloc: Global,
        row: &SessionRow,
        next: u64,
        held: bool,
    ) -> Result<LowPump, OutOfMemory>
        requires lawful { IsLawfulRow row.now }
        requires next { next ≤ 2 ^ 48 }
        requires held { held ≡ true → 1 ≤ next }
        ensures fresh { IfOk result (λ pump. LowStandsFor pump (fresh_alone next held)) }
        ensures row { IfOk result (λ pump. low_row_of pump ≡ row.now) }
        ensures up { IfOk result (λ pump. low_is_down pump ≡ false) }
    {
        let parts = LowPumpParts::open(alloc, row, next, held)?;
        Ok(LowPump { parts })
    }

    /// Whether the session is coarse.
    pub fn is_coarse(&self) -> bool
        ensures { result ≡ (low_row_of self.now).coarse }
    {
        self.parts.row.coarse
    }

    /// Makes the session coarse: from now on what comes down of an average is its level. It is called
    /// before the first line, takes no memory, and makes no call of the disk. The pump is as before but
    /// for its row, and stands for what it stood for.
    pub fn make_coarse(&mut self)
        ensures row { low_row_of self.new ≡ record (low_row_of self.old) { coarse = true } }
        ensures stands { (p : PastAlone) → LowStandsFor self.old p → LowStandsFor self.new p }
        ensures up { low_is_down self.new ≡ low_is_down self.old }
    {
        self.parts.make_coarse();
    }

    /// A line of the script, which must not come after a device fault: what it prints. It stops with
    /// `Line` exactly where the line can't be applied, and then nothing is printed or changed; with
    /// `Device` exactly where the disk fails in a store, and then the store's refusal was printed.
    pub fn apply(&mut self, line: &Line) -> Applied
        requires lawful { IsLawfulLine line.now }
        requires up { low_is_down self.old ≡ false }
        ensures applies { (p : PastAlone) → LowStandsFor self.old p
            → AppliesAlone self.old self.new line.now p result.events.items result.stop }
        ensures down { low_is_down self.new ≡ stops_at_disk result.stop }
        ensures row { low_row_of self.new ≡ low_row_of self.old }
    {
        let mut heads = ArrayVec::new();
        let stop = self.apply_head(&line.head(), line.bytes(), &mut heads);
        Applied {
            events: events_of(&heads),
            stop,
        }
    }

    /// As `apply`, for a line's head with the bytes that come with it. What is printed is all that the
    /// caller's list of events holds after it: one list serves a whole script.
    pub fn apply_head(
        &mut self,
        line: &LineHead,
        bytes: &[u8],
        events: &mut ArrayVec<EventHead, 4>,
    ) -> Option<Stop>
        requires lawful { IsLawfulLine (line_with bytes.now line.now) }
        requires room { CanHoldLine line.now bytes.now }
        requires up { low_is_down self.old ≡ false }
        ensures applies { (p : PastAlone) → LowStandsFor self.old p
            → AppliesAlone self.old self.new (line_with bytes.now line.now) p (lines_in events.new.items) result }
        ensures down { low_is_down self.new ≡ stops_at_disk result }
        ensures row { low_row_of self.new ≡ low_row_of self.old }
    {
        self.parts.apply(line, bytes, events)
    }

    /// The moment of the last line that had one, in microseconds; 0 before the first one.
    pub fn moment(&self) -> u64
        ensures { (p : PastAlone) → LowStandsFor self.now p → result ≡ p.moment }
    {
        self.parts.moment
    }

    /// How many messages are stored.
    pub fn next(&self) -> u64
        ensures { (p : PastAlone) → LowStandsFor self.now p
            → IsEndAlone (low_row_of self.now) p (End (low_row_of self.now).id result None) }
    {
        self.parts.next()
    }
}

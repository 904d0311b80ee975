//! The whole pump of a session over three disks, on one thread.

mod carry;
mod coarse;
mod high_look;
mod lines;
mod low_look;
mod messages;
mod open;
mod parts;
mod readied;
mod reopen;
mod restart;
mod state;
mod surveying;

use crate::applied::{Applied, Stop};
use crate::not_open::NotOpen;
use crate::printing::events_of;
use arrayvec::ArrayVec;
use disk_model::Disk;
use parts::Parts;
use pump_frame::{Payload, SessionRow};
use script_reader::{EventHead, Line, LineHead};
use stable_buffer::Device;
use state::PumpState;
use std::alloc::Global;
pub use surveying::{Survey, survey_disks};

/// A whole session: its processes, its passage, its receiver, over three disks.
#[derive(Drop)]
pub struct Pump<D: Disk> {
    state: PumpState<D>,
    // Until it is down its parts work. What is read of disks that tell what they hold, and what a crash
    // leaves of them, is a lawful world's, for which the parts stand until then.
    ghost keeps: { ∥ Keeps D.told state ∥₁ },
}

ghost use Rattle.two_worlds.specs.Keeping.{Keeps};

impl<D: Disk> Pump<D> {
    ghost use Rattle.std.specs.Prelude.{◌≡◌, ◌<◌, ◌≤◌, ◌+◌, ◌^◌, true, false, [], length, slice_index_or, None, OnOk};
    ghost use Rattle.std.specs.Prelude.{OnErr, IfOk, IfErr, IfSome};
    ghost use Rattle.disk_model.specs.declared.name.Role.{Role};
    ghost use Rattle.disk_model.specs.declared.name.Role.TheVariants as roles;
    ghost use Rattle.pump_frame.specs.Rows.{IsLawfulRow};
    ghost use Rattle.two_worlds.specs.Openings.{DisksStandFor, LeavesDisk, ComeBack};
    ghost use Rattle.script_reader.specs.Lawful.{IsLawfulLine};
    ghost use Rattle.script_reader.specs.Heads.{line_with, CanHoldLine};
    ghost use Rattle.two_worlds.specs.Printing.{lines_in};
    ghost use Rattle.script_reader.specs.Past.{Past};
    ghost use Rattle.script_reader.specs.Openings.{Found, first_past, nothing_found};
    ghost use Rattle.world_laws.specs.Disks.{DisksOpen, CrashesOpen, LeaveWorld, OpenAgain};
    ghost use Rattle.recovery.specs.Calls.{is_device};
    ghost use Rattle.two_worlds.specs.LowPumps.{stops_at_disk};
    ghost use Rattle.two_worlds.specs.Pumps.{row_of, StandsFor, StandsOrFails, counts_of, is_down, kept_moment};
    ghost use Rattle.two_worlds.specs.Pumps.{disk_at, Applies, AppliesOn, RefusesAhead};
    ghost use Rattle.two_worlds.specs.Rooms.{HasRoom, DisksGo};
    ghost use Rattle.two_worlds.specs.Reads.{ReadsOn, FailsReading};
    ghost use Rattle.high_receiver.specs.Receiving.{record_at};

    /// The pump of a lawful row over three disks. Each that is empty is formatted first. Where they tell
    /// what they hold, the session begins on what they stand for, and where they stand for nothing they
    /// are refused, for the first cause in the order of `docs/formats.md`, "Disks".
    pub fn open(
        alloc: Global,
        row: &SessionRow,
        low: D,
        high: D,
        recv: D,
    ) -> Result<Pump<D>, NotOpen<D>>
        requires lawful { IsLawfulRow row.now }
        ensures opens { IfOk result (λ pump. D.told.tells → (f : Found)
            × DisksStandFor D.told row.now low high recv f) }
        ensures stands { IfOk result (λ pump. D.told.tells → (f : Found) → DisksStandFor D.told row.now low high recv f
            → StandsFor D.told pump (first_past row.now f)) }
        ensures fresh { D.told.tells → D.told.reading low ≡ [] → D.told.reading high ≡ [] → D.told.reading recv ≡ []
            → IfOk result (λ pump. StandsFor D.told pump (first_past row.now nothing_found)) }
        ensures row { IfOk result (λ pump. row_of pump ≡ row.now) }
        ensures up { IfOk result (λ pump. is_down pump ≡ false) }
        ensures low { IfOk result (λ pump. LeavesDisk D.told row.now roles.Low low (disk_at roles.Low pump) false) }
        ensures high { IfOk result (λ pump. LeavesDisk D.told row.now roles.High high (disk_at roles.High pump) false) }
        ensures recv { IfOk result (λ pump. LeavesDisk D.told row.now roles.Recv recv (disk_at roles.Recv pump) false) }
        ensures back { IfErr result (λ e. ComeBack D.told row.now low high recv e) }
        ensures stops { IfErr result (λ e. D.told.tells → (f : Found) → DisksStandFor D.told row.now low high recv f
            → IfSome e.why (λ why. is_device why ≡ true)) }
        ensures room { D.told.tells_plan → HasRoom D.told row.now low high recv
            → IfOk result (λ pump. HasRoom D.told row.now (disk_at roles.Low pump) (disk_at roles.High pump)
            (disk_at roles.Recv pump)) }
        ensures never { D.told.tells_plan → HasRoom D.told row.now low high recv
            → D.told.reading low ≡ [] → D.told.reading high ≡ [] → D.told.reading recv ≡ []
            → IfErr result (λ e. e.why ≡ None) }
    {
        // It is read so that it is known to be in the range of its type.
        let _id = row.id;
        let parts = Parts::open(alloc, row, low, high, recv)?;
        Ok(Pump {
            state: PumpState::Open(parts),
        })
    }

    /// The row of the session.
    pub fn row(&self) -> &SessionRow
        ensures { result.now ≡ row_of self.now }
    {
        match &self.state {
            PumpState::Open(parts) => &parts.row,
            PumpState::Shut(disks) => &disks.row,
        }
    }

    /// Whether the session is coarse.
    pub fn is_coarse(&self) -> bool
        ensures { result ≡ (row_of self.now).coarse }
    {
        match &self.state {
            PumpState::Open(parts) => parts.row.coarse,
            PumpState::Shut(disks) => disks.row.coarse,
        }
    }

    /// Makes the session coarse: from now on what comes down of an average is its level. It is called
    /// before the first line, takes no memory, and makes no call of a disk. The pump is as before but
    /// for its row, and stands for what it stood for.
    pub fn make_coarse(&mut self)
        ensures row { row_of self.new ≡ record (row_of self.old) { coarse = true } }
        ensures stands { (p : Past) → StandsFor D.told self.old p → StandsFor D.told self.new p }
        ensures disks { (role : Role) → disk_at role self.new ≡ disk_at role self.old }
        ensures room { HasRoom D.told (row_of self.old) (disk_at roles.Low self.old) (disk_at roles.High self.old)
            (disk_at roles.Recv self.old)
            → HasRoom D.told (row_of self.new) (disk_at roles.Low self.new) (disk_at roles.High self.new)
            (disk_at roles.Recv self.new) }
        ensures up { is_down self.new ≡ is_down self.old }
        ensures moment { kept_moment self.new ≡ kept_moment self.old }
    {
        self.state.make_coarse();
    }

    /// A line of the script: what it prints, and whether it stops the session. Until a call of a disk
    /// has failed. Over disks that do not agree a DATA may be ahead of the receiver, or a TAKEN be of a
    /// message that was not sent: it is refused, prints nothing and changes no disk.
    pub fn apply(&mut self, line: &Line) -> Applied
        requires lawful { IsLawfulLine line.now }
        requires up { is_down self.old ≡ false }
        ensures applies { D.told.tells → (p : Past) → StandsFor D.told self.old p
            → Applies D.told self.old self.new line.now p result.events.items result.stop }
        ensures on { AppliesOn D.told self.old self.new line.now result.events.items result.stop }
        ensures ahead { RefusesAhead self.old self.new line.now result.events.items }
        ensures serve { DisksGo D.told (row_of self.old) (disk_at roles.Low self.old) (disk_at roles.High self.old)
            (disk_at roles.Recv self.old)
            (disk_at roles.Low self.new) (disk_at roles.High self.new) (disk_at roles.Recv self.new) result.stop }
        ensures down { is_down self.new ≡ stops_at_disk result.stop }
        ensures row { row_of self.new ≡ row_of self.old }
    {
        let mut heads = ArrayVec::new();
        let stop = self.apply_head(&line.head(), line.bytes(), &mut heads);
        Applied {
            events: events_of(&heads),
            stop,
        }
    }

    /// As `apply`, for a line's head with the bytes that come with it. What is printed is all that the
    /// caller's list of events holds after it: one list serves a whole script.
    pub fn apply_head(
        &mut self,
        line: &LineHead,
        bytes: &[u8],
        events: &mut ArrayVec<EventHead, 4>,
    ) -> Option<Stop>
        requires lawful { IsLawfulLine (line_with bytes.now line.now) }
        requires room { CanHoldLine line.now bytes.now }
        requires up { is_down self.old ≡ false }
        ensures applies { D.told.tells → (p : Past) → StandsFor D.told self.old p
            → Applies D.told self.old self.new (line_with bytes.now line.now) p (lines_in events.new.items) result }
        ensures on { AppliesOn D.told self.old self.new (line_with bytes.now line.now) (lines_in events.new.items)
            result }
        ensures ahead { RefusesAhead self.old self.new (line_with bytes.now line.now) (lines_in events.new.items) }
        ensures serve { DisksGo D.told (row_of self.old) (disk_at roles.Low self.old) (disk_at roles.High self.old)
            (disk_at roles.Recv self.old)
            (disk_at roles.Low self.new) (disk_at roles.High self.new) (disk_at roles.Recv self.new) result }
        ensures down { is_down self.new ≡ stops_at_disk result }
        ensures row { row_of self.new ≡ row_of self.old }
    {
        self.state.apply(line, bytes, events)
    }

    /// How many messages were accepted, removed, and taken by the receiver; 0 of a pump that is shut.
    pub fn counts(&self) -> (u64, u64, u64)
        ensures stands { (p : Past) → StandsFor D.told self.now p
            → result ≡ (length p.world.accepted, p.world.removed, length p.world.received) }
        ensures kept { result ≡ counts_of self.now }
        ensures few { is_down self.now ≡ false → result.2 ≤ 2 ^ 48 }
    {
        match &self.state {
            PumpState::Open(parts) => (
                parts.low.next(),
                parts.high.removed(),
                parts.receiver.count(),
            ),
            PumpState::Shut(_) => (0, 0, 0),
        }
    }

    /// Message n of the receiver is put into the payload, as its disk has it. `at` is the offset of its
    /// record, 80 for the first, and the answer is that of the next record: so the log is walked once. It
    /// takes no memory, and changes no byte of a disk. After `Device` the pump is down: `close` alone may
    /// follow, and its disks stand for what the pump stood for.
    pub fn received(&mut self, n: u64, at: u64, into: &mut Payload) -> Result<u64, Device>
        requires up { is_down self.old ≡ false }
        requires taken { n < (counts_of self.old).2 }
        requires place { D.told.tells → (p : Past) → StandsFor D.told self.old p → at ≡ record_at p.world.received n }
        ensures message { OnOk result (D.told.tells → (p : Past) → StandsFor D.told self.old p
            → into.new ≡ slice_index_or p.world.received n []) }
        ensures next { IfOk result (λ next. D.told.tells → (p : Past) → StandsFor D.told self.old p
            → next ≡ record_at p.world.received (n + 1)) }
        ensures reads { OnOk result (ReadsOn D.told roles.Recv self.old self.new) }
        ensures fails { OnErr result (FailsReading D.told roles.Recv self.old self.new) }
        ensures device { IfErr result (λ e. e.faults ≡ D.told.count (disk_at roles.Recv self.new)) }
    {
        self.state.received(n, at, into)
    }

    /// Message n, which was accepted and is not removed, is put into the payload, as the low disk has it.
    /// It takes no memory, and changes no byte of a disk. After `Device` the pump is down: `close` alone
    /// may follow, and its disks stand for what the pump stood for.
    pub fn live(&mut self, n: u64, into: &mut Payload) -> Result<(), Device>
        requires up { is_down self.old ≡ false }
        requires removed { (counts_of self.old).1 ≤ n }
        requires accepted { n < (counts_of self.old).0 }
        ensures message { OnOk result (D.told.tells → (p : Past) → StandsFor D.told self.old p
            → into.new ≡ slice_index_or p.world.accepted n []) }
        ensures reads { OnOk result (ReadsOn D.told roles.Low self.old self.new) }
        ensures fails { OnErr result (FailsReading D.told roles.Low self.old self.new) }
        ensures device { IfErr result (λ e. e.faults ≡ D.told.count (disk_at roles.Low self.new)) }
    {
        self.state.live(n, into)
    }

    /// The moment of the last line that had one, in microseconds: 0 before the first one, and of a pump
    /// that is shut.
    pub fn moment(&self) -> u64
        ensures stands { (p : Past) → StandsFor D.told self.now p → result ≡ p.moment }
        ensures kept { result ≡ kept_moment self.now }
    {
        match &self.state {
            PumpState::Open(parts) => parts.moment,
            PumpState::Shut(_) => 0,
        }
    }

    /// The low, the high and the receiver's disk, with no further call. What is read of them stands for
    /// the world to which the session came, also where a call of one of them failed, and so does whatever
    /// crashes leave of them, with each call that is unfinished kept or lost: over such disks no opening
    /// refuses anything, and the receiver's list agrees with low's. The law `acknowledged_outlives` says
    /// what that means for the messages.
    pub fn close(self) -> (D, D, D)
        ensures disks { result ≡ (disk_at roles.Low self, disk_at roles.High self, disk_at roles.Recv self) }
        ensures left { (p : Past) → StandsOrFails D.told self p
            → LeaveWorld D.told (row_of self) p.world result.0 result.1 result.2 }
        ensures again { (p : Past) → StandsOrFails D.told self p
            → OpenAgain D.told (row_of self) p.world result.0 result.1 result.2 }
        ensures open { CrashesOpen D.told (row_of self) result.0 result.1 result.2 }
        ensures read { D.told.tells → DisksOpen (row_of self) (D.told.reading result.0) (D.told.reading result.1)
            (D.told.reading result.2) }
    {
        let disks = self.state.into_disks();
        // Its range: an opening is spoken of for rows of this type.
        let _session = disks.row.id;
        (disks.low, disks.high, disks.recv)
    }
}

//! The session that a script has begun: a whole one over three disks, or a low side alone.

ghost use Rattle.std.specs.Prelude.{◌≡◌, ◌≢◌, ℕ, ◌∷◌, [], false, Some, None, IfOk};
ghost use Rattle.disk_model.specs.declared.name.Role.{Role as DiskRole};
ghost use Rattle.pump_frame.specs.Rows.{IsLawfulRow};
ghost use Rattle.script_reader.specs.Lawful.{IsLawfulLine};
ghost use Rattle.script_reader.specs.EventHeads.{event_of};
ghost use Rattle.script_reader.specs.Heads.{line_with, CanHoldLine};
ghost use Rattle.script_reader.specs.Grammar.{IsCount};
ghost use Rattle.script_reader.specs.Alone.{fresh_alone};
ghost use Rattle.script_reader.specs.Scripts.{RunningAlone, Begun, Alone, Ends, made_coarse};
ghost use Rattle.script_reader.specs.Sessions.{moment_of, stands_first};
ghost use Rattle.two_worlds.specs.declared.applied.Stop.TheVariants as stops;
ghost use Rattle.two_worlds.specs.Printing.{lines_in};
ghost use Rattle.script_replay.specs.Runners.{IsFresh};
ghost use Rattle.script_replay.specs.Shelves.{Places};
ghost use Rattle.script_replay.specs.Sessions.{id_of, is_coarse, IsUp, IsAlone, StandsFor, SessionApplies, GoesOnWith};
ghost use Rattle.script_replay.specs.Sessions.{FailedWith};

use arrayvec::ArrayVec;
use disk_model::Disk;
use pump_frame::{OutOfMemory, SessionRow};
use script_reader::{Body, EventHead, Line, LineHead};
use std::alloc::Global;
use two_worlds::{LowPump, Pump, Stop};

/// A session with its number. All its room was taken when it was opened.
#[derive(Drop)]
pub enum Session<D: Disk> {
    Whole { id: u32, pump: Pump<D> },
    Alone { id: u32, pump: LowPump },
}

impl<D: Disk> Session<D> {
    /// A low side alone that has stored `next` messages; the last one is in the low hand where `held`.
    pub fn alone(
        alloc: Global,
        row: &SessionRow,
        next: u64,
        held: bool,
    ) -> Result<Session<D>, OutOfMemory>
        requires lawful { IsLawfulRow row.now }
        requires count { IsCount next held }
        ensures stands { IfOk result (λ session. StandsFor D.told session
            (Alone (record { row = row.now; past = fresh_alone next held }))) }
        ensures alone { IfOk result (λ session. IsAlone session) }
    {
        let pump = LowPump::open(alloc, row, next, held)?;
        Ok(Session::Alone { id: row.id, pump })
    }

    pub fn id(&self) -> u32
        ensures { result ≡ id_of self.now }
    {
        match self {
            Session::Whole { id, .. } => *id,
            Session::Alone { id, .. } => *id,
        }
    }

    /// Whether it is coarse.
    pub fn is_coarse(&self) -> bool
        ensures { result ≡ is_coarse self.now }
    {
        match self {
            Session::Whole { pump, .. } => pump.is_coarse(),
            Session::Alone { pump, .. } => pump.is_coarse(),
        }
    }

    /// Makes it coarse. It takes no memory, and makes no call of a disk.
    pub fn make_coarse(&mut self)
        ensures stands { (running : Begun) → StandsFor D.told self.old running
            → StandsFor D.told self.new (made_coarse running) }
        ensures up { IsUp self.old → IsUp self.new }
        ensures with { GoesOnWith D.told self.old self.new }
        ensures fresh { (before now : Places) (number : ℕ) → IsFresh D.told before now number (Some self.old)
            → IsFresh D.told before now number (Some self.new) }
    {
        match self {
            Session::Whole { pump, .. } => pump.make_coarse(),
            Session::Alone { pump, .. } => pump.make_coarse(),
        }
    }

    /// A line of the script that needs not stand first: what it prints, in the place of what the list
    /// held, and whether it stops the session. Until a disk has failed.
    pub fn apply(
        &mut self,
        line: &LineHead,
        body: &Body,
        events: &mut ArrayVec<EventHead, 4>,
    ) -> Option<Stop>
        requires lawful { IsLawfulLine (line_with body.now line.now) }
        requires room { CanHoldLine line.now body.now }
        requires some { line_with body.now line.now ≢ Line.Skip }
        requires later { stands_first (line_with body.now line.now) ≡ false }
        requires up { IsUp self.old }
        ensures applies { D.told.tells → (running : Begun) → StandsFor D.told self.old running
            → SessionApplies D.told running (line_with body.now line.now) self.new (lines_in events.new.items) result }
        ensures alone { (s : RunningAlone) → StandsFor D.told self.old (Alone s)
            → SessionApplies D.told (Alone s) (line_with body.now line.now) self.new (lines_in events.new.items)
            result }
        ensures up { result ≡ None → IsUp self.new }
        ensures with { GoesOnWith D.told self.old self.new }
        ensures failed { (role : DiskRole) (count : ℕ) → result ≡ Some (stops.Device role count)
            → FailedWith D.told self.old self.new role }
    {
        match self {
            Session::Whole { pump, .. } => pump.apply_head(line, body.as_slice(), events),
            Session::Alone { pump, .. } => pump.apply_head(line, body.as_slice(), events),
        }
    }

    /// The moment of its last line that had one, in microseconds.
    pub fn moment(&self) -> u64
        ensures { (running : Begun) → StandsFor D.told self.now running → result ≡ moment_of running }
    {
        match self {
            Session::Whole { pump, .. } => pump.moment(),
            Session::Alone { pump, .. } => pump.moment(),
        }
    }

    /// What the end of the script prints.
    pub fn end(&self) -> EventHead
        ensures { (running : Begun) → StandsFor D.told self.now running → Ends (Some running) (event_of result ∷ []) }
    {
        match self {
            Session::Whole { id, pump } => {
                let (accepted, removed, received) = pump.counts();
                EventHead::End {
                    session: *id,
                    accepted,
                    high: Some((removed, received)),
                }
            }
            Session::Alone { id, pump } => EventHead::End {
                session: *id,
                accepted: pump.next(),
                high: None,
            },
        }
    }
}

//! Whether a pump is open.

ghost use Rattle.std.specs.Prelude.{◌≡◌, ℕ, List};
ghost use Rattle.script_reader.specs.Heads.{line_with, CanHoldLine};
ghost use Rattle.script_reader.specs.Lawful.{IsLawfulLine};
ghost use Rattle.two_worlds.specs.Printing.{lines_in};
ghost use Rattle.two_worlds.specs.Standing.{bare_of};
ghost use Rattle.two_worlds.specs.States.{disks_in, IsOpenWith};
ghost use Rattle.two_worlds.specs.Working.{IsAble};
ghost use Rattle.two_worlds.specs.Private.StateSteps.{IsReopened, StateTried};

use crate::applied::Stop;
use crate::pump::parts::Parts;
use arrayvec::ArrayVec;
use disk_model::Disk;
use pump_frame::SessionRow;
use script_reader::{Act, EventHead, LineHead};

/// The three disks of a session's row, with nothing over them.
#[derive(Drop)]
pub struct BareDisks<D> {
    pub row: SessionRow,
    pub low: D,
    pub high: D,
    pub recv: D,
}

/// A pump at work, or the disks of one that is shut.
#[derive(Drop)]
pub enum PumpState<D> {
    Open(Parts<D>),
    Shut(BareDisks<D>),
}

/// What a line opens again, of which session and at which moment.
#[derive(Clone, Copy)]
pub enum Reopening {
    Relay { session: u32, moment: u64 },
    Receiver { session: u32, moment: u64 },
    Nothing,
}

fn reopens(line: &LineHead) -> Reopening
    ensures { (bytes : List ℕ) → IsReopened (line_with bytes line.now) result }
{
    match *line {
        LineHead::At {
            session,
            moment,
            ref act,
        } => match act {
            Act::Restart => Reopening::Relay { session, moment },
            Act::ReceiverRestart => Reopening::Receiver { session, moment },
            _ => Reopening::Nothing,
        },
        _ => Reopening::Nothing,
    }
}

impl<D: Disk> Parts<D> {
    /// The disks, with no further call.
    pub fn into_disks(self) -> BareDisks<D>
        ensures { result ≡ bare_of self }
    {
        BareDisks {
            row: self.row,
            low: self.low_store.into_disk(),
            high: self.high_store.into_disk(),
            recv: self.receiver.into_disk(),
        }
    }
}

impl<D: Disk> PumpState<D> {
    /// The disks, with no further call.
    pub fn into_disks(self) -> BareDisks<D>
        ensures { result ≡ disks_in self }
    {
        match self {
            PumpState::Open(parts) => parts.into_disks(),
            PumpState::Shut(disks) => disks,
        }
    }
}

impl<D: Disk> PumpState<D> {
    /// A line of the script, to a pump that is open: what it prints is all that is in the list after it,
    /// and whether it stops the session.
    pub fn apply(
        &mut self,
        line: &LineHead,
        bytes: &[u8],
        out: &mut ArrayVec<EventHead, 4>,
    ) -> Option<Stop>
        requires able { IsOpenWith (IsAble D.told) self.old }
        requires lawful { IsLawfulLine (line_with bytes.now line.now) }
        requires room { CanHoldLine line.now bytes.now }
        ensures { StateTried D.told self.old self.new (line_with bytes.now line.now) (lines_in out.new.items) result }
    {
        match reopens(line) {
            Reopening::Relay { session, moment } => self.restart(session, moment, out),
            Reopening::Receiver { session, moment } => self.restart_receiver(session, moment, out),
            Reopening::Nothing => match self {
                PumpState::Open(parts) => parts.apply(line, bytes, out).err(),
                PumpState::Shut(_) => unreachable!(),
            },
        }
    }
}

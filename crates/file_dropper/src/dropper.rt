// Files go out of a folder, one after another.
ghost use Rattle.std.specs.Prelude.{◌≡◌, ℕ, ◌^◌, ◌<◌, ◌≤◌, List, length, false, Ok, Some, IfErr, IfOk, OnOk, ◌+◌};
ghost use Rattle.file_dropper.specs.Leaving.{Leaves};
ghost use Rattle.file_dropper.specs.Works.{HasFolderFault, IsNotSettled, GivesNothing, MayAsk, MayAnswer, LeavesNext};
ghost use Rattle.file_dropper.specs.Works.{GivesBehind, SettlesBehind, StandsBehind};
ghost use Rattle.file_dropper.specs.Works.{HasOther, HasRoom, IsBetweenFiles, IsSettledFor, bytes_of};
ghost use Rattle.file_dropper.specs.Works.{ended_in};
ghost use Rattle.file_dropper.specs.declared.answers.Next.TheVariants.{Idle};
ghost use Rattle.file_dropper.specs.declared.work.Work.TheVariants.{Unsettled};

use crate::answers::{DropFault, Next, Settled};
use crate::work::{Sent, Work};
use folders::{Found, Outbox};
use pump_frame::{Payload, SessionRow};
use std::mem;

/// Files that go out of a folder over one connection.
#[derive(Drop)]
pub struct Dropper<O, F> {
    pub(crate) outbox: O,
    // How many bytes a message may have.
    pub(crate) message: u32,
    // The number of the next message, or of that which was given.
    pub(crate) number: u64,
    // Is the acknowledgement of a message awaited?
    pub(crate) awaited: bool,
    pub(crate) work: Work<F>,
}

// Every name of a file has room in messages of at least so many bytes.
pub(crate) const LEAST: u32 = 138;

// The numbers of messages are below it.
const LIMIT: u64 = 1 << 48;

impl<O: Outbox> Dropper<O, O::File> {
    /// A dropper for a connection of the row's session, which is not settled yet. The row has to let
    /// messages have 138 to 1,024 bytes.
    pub fn open(outbox: O, row: &SessionRow) -> Dropper<O, O::File>
        ensures { result ≡ record {
          outbox = outbox;
          message = row.now.message;
          number = 0;
          awaited = false;
          work = Unsettled;
        } }
    {
        Dropper {
            outbox,
            message: row.message,
            number: 0,
            awaited: false,
            work: Work::Unsettled,
        }
    }

    /// The folder again, at the end of the connection.
    pub fn close(self) -> O
        ensures { result ≡ self.outbox }
    {
        let Dropper {
            outbox,
            message: _,
            number: _,
            awaited: _,
            work: _,
        } = self;
        outbox
    }

    /// Settles what was left of a connection before, where so many messages are accepted by now.
    pub fn settle(&mut self, accepted: u64) -> Result<Settled, DropFault>
        requires least { 138 ≤ self.old.message }
        requires greatest { self.old.message ≤ 1024 }
        requires few { accepted ≤ 2 ^ 48 }
        ensures ask { OnOk result (MayAsk O.told self.new × (self.new.number ≡ accepted)) }
        ensures behind { SettlesBehind O.told O.File.left accepted self.old self.new result }
        ensures answer { O.told.tells → IsSettledFor self.old.message (O.told.stands self.old.outbox).marked
            (bytes_of (O.told.stands self.new.outbox).marked) result }
        ensures message { self.new.message ≡ self.old.message }
        ensures cause { IfErr result (IsNotSettled O.told O.File.faults self.old self.new) }
        ensures later { O.told.count self.old.outbox ≤ O.told.count self.new.outbox }
    {
        self.number = accepted;
        self.awaited = false;
        self.work = Work::Unsettled;
        match self.outbox.marked() {
            Ok(Found::Nothing) => {
                self.work = Work::GivingUp(None);
                Ok(Settled::Ready)
            }
            Ok(Found::One(mark)) => self.settle_marked(&mark),
            Ok(Found::Several) => Err(DropFault::Marks),
            Err(_) => Err(DropFault::Folder),
        }
    }

    /// Gives the next message, which is to be sent under its number. No other call but `acknowledged`
    /// comes after it.
    pub fn next(&mut self, into: &mut Payload) -> Result<Next, DropFault>
        requires { MayAsk O.told self.old }
        ensures next { LeavesNext O.told self.old self.new result }
        ensures behind { GivesBehind O.told O.File.left self.old self.new into.new
            (HasOther self.old.work (bytes_of (O.told.stands self.old.outbox).marked)) result }
        ensures idle { result ≡ Ok Idle → IsBetweenFiles self.old.work }
        ensures room { HasRoom self.old.message into.new result }
        ensures message { self.new.message ≡ self.old.message }
        ensures cause { IfErr result (GivesNothing O.told O.File.faults self.old self.new) }
        ensures later { O.told.count self.old.outbox ≤ O.told.count self.new.outbox }
    {
        if self.number >= LIMIT {
            return Err(DropFault::Full);
        }
        match mem::replace(&mut self.work, Work::Unsettled) {
            Work::GivingUp(name) => Ok(self.give_up(name, into)),
            Work::Free(None) => self.take(into),
            Work::Free(Some(name)) => self.begin(&name, into),
            Work::Sending(sender) => self.send(sender, into),
            Work::Unsettled | Work::Ended(_) | Work::Failed(_) => unreachable!(),
        }
    }

    /// The message of this number, which was given last, is acknowledged. Where it was the end of a
    /// file, the file is removed, and is answered.
    pub fn acknowledged(&mut self, number: u64) -> Result<Option<Sent>, DropFault>
        requires may { MayAnswer O.told self.old }
        requires number { number ≡ self.old.number }
        ensures ask { OnOk result (MayAsk O.told self.new × (self.new.number ≡ number + 1)) }
        ensures behind { O.told.tells → (messages : List (List ℕ)) → StandsBehind O.told O.File.left self.old messages
            → Leaves O.told messages self.old.outbox self.new.outbox
            × OnOk result (StandsBehind O.told O.File.left self.new messages) }
        ensures sent { IfOk result (λ sent. sent ≡ ended_in self.old.work) }
        ensures message { self.new.message ≡ self.old.message }
        ensures cause { IfErr result (HasFolderFault (O.told.count self.old.outbox) O.told O.File.faults self.new) }
        ensures later { O.told.count self.old.outbox ≤ O.told.count self.new.outbox }
    {
        self.number = number + 1;
        self.awaited = false;
        self.outbox.note_progress(&self.work.progress());
        let Some(sent) = self.work.ended() else {
            return Ok(None);
        };
        self.remove()?;
        Ok(Some(sent))
    }
}

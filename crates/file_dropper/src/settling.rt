// What a dropper does at the beginning of a connection.
ghost use Rattle.std.specs.Prelude.{◌≡◌, ℕ, ◌^◌, ◌<◌, ◌≤◌, List, length, Some, IfErr, OnOk};
ghost use Rattle.folders.specs.Marks.{HasNumbers};
ghost use Rattle.file_messages.specs.FileNames.{IsFileName};
ghost use Rattle.file_messages.specs.Files.{files};
ghost use Rattle.folders.specs.Outboxes.{Settled as IsSettled, HasName};
ghost use Rattle.file_dropper.specs.Leaving.{Fits, Leaves};
ghost use Rattle.file_dropper.specs.Works.{HasFolderFault, IsMarked, IsNotSettledHere, MayAsk, MayResume, MaySettle};
ghost use Rattle.file_dropper.specs.Works.{GivesUpFor, GivesUpOther, IsSettledFor, IsToldOf, SettlesBehind};
ghost use Rattle.file_dropper.specs.Works.{StandsBehind};
ghost use Rattle.file_dropper.specs.Works.{bytes_of, mark_of};

use crate::Dropper;
use crate::answers::{DropFault, Settled};
use crate::dropper::LEAST;
use crate::reading::Measure;
use crate::skipping::skip;
use crate::work::{Sent, Work, cut_length};
use file_cutter::Cut;
use folders::{Mark, Outbox, Stage};

impl<O: Outbox> Dropper<O, O::File> {
    // Settles the marked file.
    pub(crate) fn settle_marked(&mut self, mark: &Mark) -> Result<Settled, DropFault>
        requires may { MaySettle O.told self.old }
        requires numbers { HasNumbers mark.now.stage }
        requires marked { O.told.tells → IsMarked mark.now (O.told.stands self.old.outbox).marked }
        ensures ask { OnOk result (MayAsk O.told self.new × (self.new.number ≡ self.old.number)) }
        ensures behind { SettlesBehind O.told O.File.left self.old.number self.old self.new result }
        ensures answer { O.told.tells → IsSettledFor self.old.message (O.told.stands self.old.outbox).marked
            (bytes_of (O.told.stands self.new.outbox).marked) result }
        ensures message { self.new.message ≡ self.old.message }
        ensures cause { IfErr result (IsNotSettledHere O.told O.File.faults self.old self.new) }
        ensures later { O.told.count self.old.outbox ≤ O.told.count self.new.outbox }
    {
        match mark.stage {
            Stage::Fresh | Stage::Stopped { start: _ } => {
                self.work = Work::GivingUp(Some(mark.name));
                Ok(Settled::Ready)
            }
            Stage::Sending {
                start,
                message,
                size,
                digest,
            } => {
                let measure = Measure { size, digest };
                self.settle_sending(message, &Sent::new(start, &measure, &mark.name))
            }
        }
    }

    // Settles the marked file, where it is being sent in messages of at most so many bytes.
    fn settle_sending(&mut self, message: u32, sent: &Sent) -> Result<Settled, DropFault>
        requires may { MaySettle O.told self.old }
        requires greatest { message ≤ 1024 }
        requires size { sent.now.size < 2 ^ 48 }
        requires start { sent.now.start < 2 ^ 48 }
        requires name { IsFileName sent.now.name }
        requires marked { O.told.tells → IsMarked (mark_of message sent.now) (O.told.stands self.old.outbox).marked }
        ensures ask { OnOk result (MayAsk O.told self.new × (self.new.number ≡ self.old.number)) }
        ensures behind { SettlesBehind O.told O.File.left self.old.number self.old self.new result }
        ensures answer { O.told.tells → IsSettledFor self.old.message (O.told.stands self.old.outbox).marked
            (bytes_of (O.told.stands self.new.outbox).marked) result }
        ensures message { self.new.message ≡ self.old.message }
        ensures cause { IfErr result (IsNotSettledHere O.told O.File.faults self.old self.new) }
        ensures later { O.told.count self.old.outbox ≤ O.told.count self.new.outbox }
    {
        let accepted = self.number;
        let fault = DropFault::Step {
            start: sent.start,
            accepted,
        };
        if message < LEAST || accepted < sent.start {
            return Err(fault);
        }
        let end = sent.start + cut_length(message, sent.size);
        if end < accepted {
            return Err(fault);
        }
        if end == accepted {
            self.remove()?;
            return Ok(Settled::Sent(*sent));
        }
        if message == self.message {
            self.resume(sent)
        } else {
            self.give_up_file(sent)
        }
    }

    // Goes on with the marked file where it is still that of its mark.
    fn resume(&mut self, sent: &Sent) -> Result<Settled, DropFault>
        requires { MayResume O.told self.old sent.now }
        ensures ask { OnOk result (MayAsk O.told self.new × (self.new.number ≡ self.old.number)) }
        ensures behind { SettlesBehind O.told O.File.left self.old.number self.old self.new result }
        ensures answer { GivesUpOther O.told sent.now self.new result }
        ensures message { self.new.message ≡ self.old.message }
        ensures cause { IfErr result (HasFolderFault (O.told.count self.old.outbox) O.told O.File.faults self.new) }
        ensures later { O.told.count self.old.outbox ≤ O.told.count self.new.outbox }
    {
        let measure = self.measure()?;
        if sent.is_of(&measure) {
            self.go_on(sent)
        } else {
            self.give_up_file(sent)
        }
    }

    // Reads the marked file up to its next message.
    fn go_on(&mut self, sent: &Sent) -> Result<Settled, DropFault>
        requires { MayResume O.told self.old sent.now }
        ensures ask { OnOk result (MayAsk O.told self.new × (self.new.number ≡ self.old.number)) }
        ensures behind { SettlesBehind O.told O.File.left self.old.number self.old self.new result }
        ensures answer { GivesUpOther O.told sent.now self.new result }
        ensures message { self.new.message ≡ self.old.message }
        ensures cause { IfErr result (HasFolderFault (O.told.count self.old.outbox) O.told O.File.faults self.new) }
        ensures later { O.told.count self.old.outbox ≤ O.told.count self.new.outbox }
    {
        let mut sender = self.reopen(sent)?;
        match skip(&mut sender, self.number - sent.start) {
            Cut::Message => {
                self.work = Work::Sending(sender);
                Ok(Settled::Ready)
            }
            Cut::Failed => {
                self.work = Work::Failed(sender.reading);
                Err(DropFault::Folder)
            }
            Cut::Done | Cut::TooLong => self.give_up_file(sent),
        }
    }

    // Gives up the marked file: it is not that of its mark any more.
    fn give_up_file(&mut self, sent: &Sent) -> Result<Settled, DropFault>
        requires may { MaySettle O.told self.old }
        requires start { sent.now.start < 2 ^ 48 }
        requires named { O.told.tells → HasName sent.now.name (O.told.stands self.old.outbox).marked }
        ensures ask { OnOk result (MayAsk O.told self.new × (self.new.number ≡ self.old.number)) }
        ensures behind { O.told.tells → (messages : List (List ℕ)) → self.old.number ≡ length messages
            → IsSettled O.told self.old.outbox → Fits messages (O.told.stands self.old.outbox)
            → files messages ≡ (O.told.stands self.old.outbox).removed
            → Leaves O.told messages self.old.outbox self.new.outbox
            × OnOk result (StandsBehind O.told O.File.left self.new messages) }
        ensures bytes { OnOk result (O.told.tells
            → bytes_of (O.told.stands self.new.outbox).marked ≡ bytes_of (O.told.stands self.old.outbox).marked) }
        ensures answer { GivesUpFor (IsToldOf sent.now) result }
        ensures message { self.new.message ≡ self.old.message }
        ensures cause { IfErr result (HasFolderFault (O.told.count self.old.outbox) O.told O.File.faults self.new) }
        ensures later { O.told.count self.old.outbox ≤ O.told.count self.new.outbox }
    {
        self.mark_stopped(sent)?;
        self.work = Work::GivingUp(Some(sent.name));
        Ok(Settled::Again {
            start: sent.start,
            name: sent.name,
        })
    }
}

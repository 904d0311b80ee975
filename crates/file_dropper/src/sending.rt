// The messages of a dropper's files.
ghost use Rattle.std.specs.Prelude.{◌≡◌, ℕ, ◌^◌, ◌<◌, ◌≤◌, List, [], false, true, length, Ok, Some, None, IfErr};
ghost use Rattle.file_messages.specs.Messages.{abandon_message, start_message};
ghost use Rattle.file_messages.specs.Files.{files};
ghost use Rattle.folders.specs.Outboxes.{Settled as IsSettled};
ghost use Rattle.file_dropper.specs.Leaving.{Fits, Leaves};
ghost use Rattle.file_dropper.specs.Readings.{IsMeasure};
ghost use Rattle.file_dropper.specs.Works.{GivesBehind, HasFolderFault, MayAsk, LeavesNext, StandsNext};
ghost use Rattle.file_dropper.specs.Works.{HasOther, HasRoom, IsOther, IsToldOther, MaySend, SendsPart, bytes_of};
ghost use Rattle.file_dropper.specs.declared.answers.Next.TheVariants.{Idle, Message};
ghost use Rattle.file_dropper.specs.declared.work.Work.TheVariants.{Free, Sending};

use crate::Dropper;
use crate::answers::{DropFault, Next};
use crate::reading::Measure;
use crate::work::{Sender, Sent, Work, cut_length};
use file_cutter::Cut;
use file_messages::{FileName, put_abandon, put_end, put_start};
use folders::Outbox;
use pump_frame::Payload;

impl<O: Outbox> Dropper<O, O::File> {
    // Gives a message, behind which it is at this work.
    fn give(&mut self, work: Work<O::File>) -> Next
        ensures value { self.new ≡ record self.old { work = work; awaited = true } }
        ensures message { result ≡ Message self.old.number }
    {
        self.work = work;
        self.awaited = true;
        Next::Message {
            number: self.number,
        }
    }

    // Gives up a file that may have begun.
    pub(crate) fn give_up(&mut self, name: Option<FileName>, into: &mut Payload) -> Next
        ensures value { self.new ≡ record self.old { work = Free name; awaited = true } }
        ensures message { result ≡ Message self.old.number }
        ensures abandons { into.new ≡ abandon_message }
    {
        put_abandon(into);
        self.give(Work::Free(name))
    }

    // Takes the next file that waits.
    pub(crate) fn take(&mut self, into: &mut Payload) -> Result<Next, DropFault>
        requires may { MayAsk O.told (record self.old { work = Free None }) }
        requires few { self.old.number < 2 ^ 48 }
        ensures next { LeavesNext O.told self.old self.new result }
        ensures behind { GivesBehind O.told O.File.left (record self.old { work = Free None }) self.new into.new
            (λ start name. ⊥) result }
        ensures room { HasRoom self.old.message into.new result }
        ensures message { self.new.message ≡ self.old.message }
        ensures cause { IfErr result (HasFolderFault (O.told.count self.old.outbox) O.told O.File.faults self.new) }
        ensures later { O.told.count self.old.outbox ≤ O.told.count self.new.outbox }
    {
        let Ok(found) = self.outbox.next() else {
            return Err(DropFault::Folder);
        };
        self.work = Work::Free(None);
        let Some(name) = found else {
            return Ok(Next::Idle);
        };
        match self.outbox.take(&name) {
            Ok(true) => self.begin(&name, into),
            Ok(false) => Ok(Next::Idle),
            Err(_) => Err(DropFault::Folder),
        }
    }

    // Begins to send the marked file, of which no message counts.
    pub(crate) fn begin(&mut self, name: &FileName, into: &mut Payload) -> Result<Next, DropFault>
        requires may { MayAsk O.told (record self.old { work = Free (Some name.now) }) }
        requires few { self.old.number < 2 ^ 48 }
        ensures next { LeavesNext O.told self.old self.new result }
        ensures behind { GivesBehind O.told O.File.left (record self.old { work = Free (Some name.now) })
            self.new into.new (λ start name. ⊥) result }
        ensures begins { result ≡ Ok Idle → ⊥ }
        ensures room { HasRoom self.old.message into.new result }
        ensures message { self.new.message ≡ self.old.message }
        ensures cause { IfErr result (HasFolderFault (O.told.count self.old.outbox) O.told O.File.faults self.new) }
        ensures later { O.told.count self.old.outbox ≤ O.told.count self.new.outbox }
    {
        let measure = self.measure()?;
        let sent = Sent::new(self.number, &measure, name);
        self.mark_sending(&sent)?;
        let sender = self.reopen(&sent)?;
        self.send(sender, into)
    }

    // Gives the next message of a file.
    pub(crate) fn send(
        &mut self,
        sender: Sender<O::File>,
        into: &mut Payload,
    ) -> Result<Next, DropFault>
        requires may { MayAsk O.told (record self.old { work = Sending sender }) }
        requires few { self.old.number < 2 ^ 48 }
        ensures next { LeavesNext O.told self.old self.new result }
        ensures behind { GivesBehind O.told O.File.left (record self.old { work = Sending sender }) self.new into.new
            (HasOther (Sending sender) (bytes_of (O.told.stands self.old.outbox).marked)) result }
        ensures sends { result ≡ Ok Idle → ⊥ }
        ensures room { HasRoom self.old.message into.new result }
        ensures message { self.new.message ≡ self.old.message }
        ensures cause { IfErr result (HasFolderFault (O.told.count self.old.outbox) O.told O.File.faults self.new) }
        ensures later { O.told.count self.old.outbox ≤ O.told.count self.new.outbox }
    {
        if sender.started {
            self.send_piece(sender, into)
        } else {
            Ok(self.send_start(sender, into))
        }
    }

    // Gives the first message of a file.
    fn send_start(&mut self, sender: Sender<O::File>, into: &mut Payload) -> Next
        requires may { MayAsk O.told (record self.old { work = Sending sender }) }
        requires few { self.old.number < 2 ^ 48 }
        requires first { sender.started ≡ false }
        ensures value { self.new ≡ record self.old
            { work = Sending (record sender { started = true }); awaited = true } }
        ensures message { result ≡ Message self.old.number }
        ensures start { into.new ≡ start_message sender.sent.name sender.sent.size }
        ensures room { length into.new ≤ 138 }
    {
        put_start(&sender.sent.name, sender.sent.size, into);
        self.give(Work::Sending(Sender {
            sent: sender.sent,
            reading: sender.reading,
            started: true,
        }))
    }

    // Gives the next piece of a file, or its end.
    fn send_piece(
        &mut self,
        mut sender: Sender<O::File>,
        into: &mut Payload,
    ) -> Result<Next, DropFault>
        requires may { MayAsk O.told (record self.old { work = Sending sender }) }
        requires few { self.old.number < 2 ^ 48 }
        requires started { sender.started ≡ true }
        ensures next { LeavesNext O.told self.old self.new result }
        ensures behind { GivesBehind O.told O.File.left (record self.old { work = Sending sender }) self.new into.new
            (HasOther (Sending sender) (bytes_of (O.told.stands self.old.outbox).marked)) result }
        ensures sends { result ≡ Ok Idle → ⊥ }
        ensures room { HasRoom self.old.message into.new result }
        ensures message { self.new.message ≡ self.old.message }
        ensures cause { IfErr result (HasFolderFault (O.told.count self.old.outbox) O.told O.File.faults self.new) }
        ensures later { O.told.count self.old.outbox ≤ O.told.count self.new.outbox }
    {
        match sender.reading.next(into) {
            Cut::Message => {
                if self.number + 1
                    < sender.sent.start + cut_length(self.message, sender.sent.size)
                {
                    Ok(self.give(Work::Sending(sender)))
                } else {
                    self.stop(&sender.sent, into)
                }
            }
            Cut::Done => {
                let measure = sender.reading.finish();
                self.send_end(&sender.sent, &measure, into)
            }
            Cut::Failed => {
                self.work = Work::Failed(sender.reading);
                Err(DropFault::Folder)
            }
            Cut::TooLong => self.stop(&sender.sent, into),
        }
    }

    // Gives the end of a file that was read to its end, where it is still that of its mark.
    fn send_end(
        &mut self,
        sent: &Sent,
        measure: &Measure,
        into: &mut Payload,
    ) -> Result<Next, DropFault>
        requires may { MaySend O.told self.old sent.now }
        ensures next { LeavesNext O.told self.old self.new result }
        ensures behind { O.told.tells → (messages : List (List ℕ)) → self.old.number ≡ length messages
            → IsSettled O.told self.old.outbox
            → IsMeasure measure.now (bytes_of (O.told.stands self.old.outbox).marked)
            → SendsPart self.old.message sent.now (bytes_of (O.told.stands self.old.outbox).marked)
            (O.told.stands self.old.outbox).removed messages []
            → Leaves O.told messages self.old.outbox self.new.outbox
            × StandsNext O.told O.File.left self.new messages into.new
            (IsToldOther sent.now (bytes_of (O.told.stands self.old.outbox).marked)) result }
        ensures sends { result ≡ Ok Idle → ⊥ }
        ensures room { HasRoom self.old.message into.new result }
        ensures message { self.new.message ≡ self.old.message }
        ensures cause { IfErr result (HasFolderFault (O.told.count self.old.outbox) O.told O.File.faults self.new) }
        ensures later { O.told.count self.old.outbox ≤ O.told.count self.new.outbox }
    {
        if !sent.is_of(measure) {
            return self.stop(sent, into);
        }
        put_end(&sent.digest, into);
        Ok(self.give(Work::Ended(*sent)))
    }

    // Gives up a file that changed. Its mark says so before the message is given: else, if the file
    // changed back, its sending would go on behind that message.
    fn stop(&mut self, sent: &Sent, into: &mut Payload) -> Result<Next, DropFault>
        requires may { MaySend O.told self.old sent.now }
        ensures next { LeavesNext O.told self.old self.new result }
        ensures behind { O.told.tells → (messages : List (List ℕ)) → self.old.number ≡ length messages
            → IsSettled O.told self.old.outbox → Fits messages (O.told.stands self.old.outbox)
            → files messages ≡ (O.told.stands self.old.outbox).removed
            → IsOther sent.now (bytes_of (O.told.stands self.old.outbox).marked)
            → Leaves O.told messages self.old.outbox self.new.outbox
            × StandsNext O.told O.File.left self.new messages into.new
            (IsToldOther sent.now (bytes_of (O.told.stands self.old.outbox).marked)) result }
        ensures sends { result ≡ Ok Idle → ⊥ }
        ensures room { HasRoom self.old.message into.new result }
        ensures message { self.new.message ≡ self.old.message }
        ensures cause { IfErr result (HasFolderFault (O.told.count self.old.outbox) O.told O.File.faults self.new) }
        ensures later { O.told.count self.old.outbox ≤ O.told.count self.new.outbox }
    {
        self.mark_stopped(sent)?;
        put_abandon(into);
        self.work = Work::Free(Some(sent.name));
        self.awaited = true;
        Ok(Next::Again {
            number: self.number,
            start: sent.start,
            name: sent.name,
        })
    }
}

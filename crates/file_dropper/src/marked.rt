// What a dropper does with the marked file in its folder.
ghost use Rattle.std.specs.Prelude.{◌≡◌, ◌⊎◌, ℕ, ◌-◌, ◌^◌, ◌<◌, ◌≤◌, List, [], false, map, Ok, None, IfOk, IfErr};
ghost use Rattle.std.specs.Prelude.{OnOk, OnErr};
ghost use Rattle.file_messages.specs.Messages.{piece_message};
ghost use Rattle.file_messages.specs.Cuts.{pieces};
ghost use Rattle.folders.specs.Outboxes.{Moves, Makes, Same, Is, MayBe, IsTaken, HasName, opened, with_mark};
ghost use Rattle.folders.specs.Outboxes.{without_marked};
ghost use Rattle.file_cutter.specs.Cutting.{MayCut, cut_message};
ghost use Rattle.file_dropper.specs.Readings.{HasRead, IsMeasure, still};
ghost use Rattle.file_dropper.specs.Works.{HasFolderFault, mark_of, stopped_mark_of};
ghost use Rattle.file_dropper.specs.declared.work.Work.TheVariants.{Free};

use crate::Dropper;
use crate::answers::DropFault;
use crate::reading::{Measure, Reading};
use crate::work::{Sender, Sent, Work};
use file_cutter::Cut;
use folders::{Mark, Outbox, Stage};

impl<O: Outbox> Dropper<O, O::File> {
    // Reads the marked file to its end.
    pub(crate) fn measure(&mut self) -> Result<Measure, DropFault>
        requires least { 138 ≤ self.old.message }
        requires greatest { self.old.message ≤ 1024 }
        requires taken { O.told.tells → IsTaken (O.told.stands self.old.outbox).marked }
        ensures ok { IfOk result (λ measure. (measure.size < 2 ^ 48)
            × ((bytes : List ℕ) × Moves O.told (Is (opened bytes)) self.old.outbox self.new.outbox
            × (O.told.tells → IsMeasure measure bytes))) }
        ensures err { OnErr result (Moves O.told Same self.old.outbox self.new.outbox
            ⊎ ((bytes : List ℕ) × Moves O.told (Is (opened bytes)) self.old.outbox self.new.outbox)) }
        ensures same { OnOk result (self.new ≡ record self.old { outbox = self.new.outbox }) }
        ensures message { self.new.message ≡ self.old.message }
        ensures cause { IfErr result (HasFolderFault (O.told.count self.old.outbox) O.told O.File.faults self.new) }
        ensures later { O.told.count self.old.outbox ≤ O.told.count self.new.outbox }
    {
        let Ok(file) = self.outbox.open() else {
            return Err(DropFault::Folder);
        };
        let mut reading = Reading::new(file, self.message);
        match reading.finish_reading() {
            Cut::Done => Ok(reading.finish()),
            Cut::Failed => {
                self.work = Work::Failed(reading);
                Err(DropFault::Folder)
            }
            Cut::Message | Cut::TooLong => {
                self.work = Work::Failed(reading);
                Err(DropFault::TooLong)
            }
        }
    }

    // Opens the marked file, to be sent from its first message on.
    pub(crate) fn reopen(&mut self, sent: &Sent) -> Result<Sender<O::File>, DropFault>
        requires least { 138 ≤ self.old.message }
        requires greatest { self.old.message ≤ 1024 }
        requires taken { O.told.tells → IsTaken (O.told.stands self.old.outbox).marked }
        ensures ok { IfOk result (λ sender. (sender.sent ≡ sent.now) × (sender.started ≡ false)
            × MayCut sender.reading.pieces × (cut_message sender.reading.pieces ≡ self.old.message)
            × ((bytes : List ℕ) × Moves O.told (Is (opened bytes)) self.old.outbox self.new.outbox
            × (O.told.tells → HasRead O.File.left sender.reading bytes []
            × (still O.File.left sender.reading ≡ map piece_message (pieces (self.old.message - 1) bytes))))) }
        ensures err { OnErr result (Moves O.told Same self.old.outbox self.new.outbox) }
        ensures same { self.new ≡ record self.old { outbox = self.new.outbox } }
        ensures cause { IfErr result (HasFolderFault (O.told.count self.old.outbox) O.told O.File.faults self.new) }
        ensures later { O.told.count self.old.outbox ≤ O.told.count self.new.outbox }
    {
        let Ok(file) = self.outbox.open() else {
            return Err(DropFault::Folder);
        };
        Ok(Sender {
            sent: *sent,
            reading: Reading::new(file, self.message),
            started: false,
        })
    }

    // Marks the marked file as one that is being sent.
    pub(crate) fn mark_sending(&mut self, sent: &Sent) -> Result<(), DropFault>
        requires greatest { self.old.message ≤ 1024 }
        requires start { sent.now.start < 2 ^ 48 }
        requires size { sent.now.size < 2 ^ 48 }
        requires named { O.told.tells → HasName sent.now.name (O.told.stands self.old.outbox).marked }
        ensures ok { OnOk result (Makes O.told (with_mark (mark_of self.old.message sent.now))
            self.old.outbox self.new.outbox) }
        ensures moves { Moves O.told (MayBe (with_mark (mark_of self.old.message sent.now)))
            self.old.outbox self.new.outbox }
        ensures same { self.new ≡ record self.old { outbox = self.new.outbox } }
        ensures cause { IfErr result (HasFolderFault (O.told.count self.old.outbox) O.told O.File.faults self.new) }
        ensures later { O.told.count self.old.outbox ≤ O.told.count self.new.outbox }
    {
        let mark = Mark {
            stage: Stage::Sending {
                start: sent.start,
                message: self.message,
                size: sent.size,
                digest: sent.digest,
            },
            name: sent.name,
        };
        match self.outbox.mark(&mark) {
            Ok(()) => Ok(()),
            Err(_) => Err(DropFault::Folder),
        }
    }

    // Marks the marked file as one that changed while it was sent.
    pub(crate) fn mark_stopped(&mut self, sent: &Sent) -> Result<(), DropFault>
        requires start { sent.now.start < 2 ^ 48 }
        requires named { O.told.tells → HasName sent.now.name (O.told.stands self.old.outbox).marked }
        ensures ok { OnOk result (Makes O.told (with_mark (stopped_mark_of sent.now)) self.old.outbox self.new.outbox) }
        ensures moves { Moves O.told (MayBe (with_mark (stopped_mark_of sent.now))) self.old.outbox self.new.outbox }
        ensures same { self.new ≡ record self.old { outbox = self.new.outbox } }
        ensures cause { IfErr result (HasFolderFault (O.told.count self.old.outbox) O.told O.File.faults self.new) }
        ensures later { O.told.count self.old.outbox ≤ O.told.count self.new.outbox }
    {
        let mark = Mark {
            stage: Stage::Stopped { start: sent.start },
            name: sent.name,
        };
        match self.outbox.mark(&mark) {
            Ok(()) => Ok(()),
            Err(_) => Err(DropFault::Folder),
        }
    }

    // Removes the marked file.
    pub(crate) fn remove(&mut self) -> Result<(), DropFault>
        requires { O.told.tells → IsTaken (O.told.stands self.old.outbox).marked }
        ensures ok { OnOk result (Makes O.told without_marked self.old.outbox self.new.outbox) }
        ensures moves { Moves O.told (MayBe without_marked) self.old.outbox self.new.outbox }
        ensures same { self.new ≡ record self.old { outbox = self.new.outbox; work = Free None } }
        ensures cause { IfErr result (HasFolderFault (O.told.count self.old.outbox) O.told O.File.faults self.new) }
        ensures later { O.told.count self.old.outbox ≤ O.told.count self.new.outbox }
    {
        self.work = Work::Free(None);
        match self.outbox.remove() {
            Ok(()) => Ok(()),
            Err(_) => Err(DropFault::Folder),
        }
    }
}

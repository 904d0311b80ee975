// The collector: messages are placed, and then counted.
ghost use Rattle.std.specs.Prelude.{◌≡◌, ℕ, List, ◌+◌, ◌∷◌, ◌++◌, [], ◌^◌, ◌<◌, ◌≤◌, false, None, option_copied};
ghost use Rattle.std.specs.Prelude.{length, take, IfOk, OnOk, OnErr, IfErr, IsErr};
ghost use Rattle.pump_frame.specs.Counts.{Rose};
ghost use Rattle.stable_buffer.specs.Register.{register_disk};
ghost use Rattle.file_messages.specs.Files.{State, Between, Inside, state_after};
ghost use Rattle.file_collector.specs.Gathering.{Places, IsWellBegun};
ghost use Rattle.file_collector.specs.Collecting.{taken_count, HasTaken, HasPlaced, AlwaysFits, IsCollecting};
ghost use Rattle.file_collector.specs.Collecting.{IsCounting};
ghost use Rattle.file_collector.specs.Registers.{RegisterStands};
ghost use Rattle.file_collector.specs.Reopening.{OpensOn, IsNew, TakesUp, inbox_of};
ghost use Rattle.folders.specs.Placing.{Turns};
ghost use Rattle.file_collector.specs.Closed.{IsWhyClosed, CallFailed, RegisterReads, IsOwn, IsLeftOf};
ghost use Rattle.file_collector.specs.Making.{IsUnmade};

use crate::gathering::Gatherer;
use crate::opening::find;
use crate::turning::turn;
use crate::values::{CollectFault, PlaceFault, Placed};
use file_messages::FileName;
use folders::Inbox;
use pump_frame::Payload;
use stable_buffer::{Device, Register};

/// The files that come as messages, in a folder, and the count of these messages on a disk. Each message
/// is first placed and then counted; a crash at any moment leaves the folder as the counted messages
/// make it, or as one more does.
pub struct Collector<I: Inbox> {
    gatherer: Gatherer<I>,
    register: Register<I::Disk>,
    is_placed: bool,
    is_open: bool,
    // The file whose part was lost when the collector opened.
    lost: Option<FileName>,
}

impl<I: Inbox> Collector<I>
where
    I::Disk: Drop,
{
    /// Opens a folder that was left at any moment, also by a crash. It makes the register where there is
    /// none yet, and takes up the file that had begun. A file that is shown already, though its last
    /// message was not counted, is counted. Where a fault comes, the folder comes back: `Folder` and
    /// `Register` where a call failed, `Other` where the register's disk is another's, `Damaged` where it
    /// is a collector's, but stands for no count and no file to which messages lead.
    pub fn open(mut inbox: I) -> Result<Collector<I>, (I, CollectFault)>
        ensures ready { IfOk result (λ c. IsCollecting I.told I.Disk.told c) }

        // What fits messages is opened as what the counted ones of them make, and no file is lost.
        ensures here { IfOk result (λ c. I.told.tells → I.Disk.told.tells → (messages : List (List ℕ))
            → (on : OpensOn I.told inbox messages)
            → HasTaken I.told I.Disk.told c (take (taken_count c) messages)
            × (on.fits.count ≤ taken_count c) × (c.lost ≡ None)) }

        // A file that had begun goes on where its part has the bytes that were counted. Else it was shown
        // already where all had come, and is counted; and where not it is lost, and told by its name.
        ensures lost { IfOk result (λ c. I.told.tells → I.Disk.told.tells → (count : ℕ) (name : List ℕ)
            (size : ℕ) (held : List ℕ) → RegisterReads I.told inbox (RegisterStands count (Inside name size held))
            → IsWellBegun (Inside name size held)
            → TakesUp I.told I.Disk.told c count name size held (I.told.part inbox)) }

        // A register that is none yet is made; another's or a damaged one is not opened.
        ensures new { IfOk result (λ c. I.told.tells → I.Disk.told.tells
            → RegisterReads I.told inbox IsUnmade → IsNew I.told I.Disk.told c) }
        ensures own { OnOk result (I.told.tells → I.Disk.told.tells → RegisterReads I.told inbox IsOwn) }

        // What is shown is as before, and a crash at any moment leaves the names as one before it would.
        ensures shown { I.told.shown (inbox_of result) ≡ I.told.shown inbox }
        ensures turns { Turns I.told (λ names. ⊥) inbox (inbox_of result) }

        // Whatever a crash inside leaves of the register's disk, from the moment on that the inbox gave it, fits
        // the messages that the folder fitted, with its names and any part that has the counted bytes; and a
        // part that it gave has these. After an error the disks are gone: of one whose call failed `cause` says
        // the same, until that call; of the register's disk nothing is said where another call failed.
        ensures during { IfOk result (λ c. IsLeftOf I.told I.Disk.told inbox
            (register_disk c.register) c.gatherer.part) }

        // It fails only for the cause that it tells; and what fits messages is opened unless a call fails.
        ensures cause { IfErr result (λ refused. IsWhyClosed I.told I.Disk.told inbox refused.0 refused.1) }
        ensures called { IfErr result (λ refused. I.told.tells → I.Disk.told.tells → (messages : List (List ℕ))
            → (on : OpensOn I.told inbox messages) → on.fits.count < 2 ^ 48
            → CallFailed I.told I.Disk.told inbox refused.0 refused.1) }
        ensures counts { I.told.count inbox ≤ I.told.count (inbox_of result) }
    {
        match find(&mut inbox) {
            Ok(found) => Ok(Collector {
                gatherer: Gatherer::over(inbox, found.part, found.assembly),
                register: found.register,
                is_placed: false,
                is_open: true,
                lost: found.lost,
            }),
            Err(fault) => Err((inbox, fault)),
        }
    }

    /// The folder, the register's disk and the part that is held, with no further call.
    pub fn into_parts(self) -> (I, I::Disk, Option<I::Disk>)
        ensures inbox { result.0 ≡ self.gatherer.inbox }
        ensures register { result.1 ≡ register_disk self.register }
        ensures part { result.2 ≡ self.gatherer.part }
    {
        let Collector {
            gatherer,
            register,
            is_placed: _,
            is_open: _,
            lost: _,
        } = self;
        let (inbox, part) = gatherer.into_parts();
        (inbox, register.into_disk(), part)
    }

    /// The file whose part was lost when the collector opened: nothing of it is shown.
    pub fn lost(&self) -> Option<&FileName>
        ensures { option_copied result ≡ self.now.lost }
    {
        self.lost.as_ref()
    }

    /// No call has failed. Once one has, nothing may be placed or counted.
    pub fn is_open(&self) -> bool
        ensures { result ≡ self.now.is_open }
    {
        self.is_open
    }

    /// How many messages are counted.
    pub fn taken(&self) -> u64
        ensures { result ≡ taken_count self.now }
    {
        self.register.value().0
    }

    /// Places the next message. It makes no call of the register. After an `Err` the collector must be
    /// opened again.
    pub fn place(&mut self, message: &Payload) -> Result<Placed, PlaceFault>
        requires ready { IsCollecting I.told I.Disk.told self.old }
        requires below { taken_count self.old < 2 ^ 48 }

        ensures ready { OnOk result (IsCounting I.told I.Disk.told self.new) }
        ensures placed { OnOk result ((messages : List (List ℕ)) → HasTaken I.told I.Disk.told self.old messages
            → HasPlaced I.told I.Disk.told self.new messages message.now) }
        ensures does { (messages : List (List ℕ)) → HasTaken I.told I.Disk.told self.old messages
            → Places I.told I.Disk.told (length messages) message.now (state_after Between messages)
            self.old.gatherer self.new.gatherer result }
        ensures register { self.new.register ≡ self.old.register }

        // Whatever a crash at any moment leaves fits the messages with this one.
        ensures fits { (messages : List (List ℕ)) → HasTaken I.told I.Disk.told self.old messages
            → AlwaysFits I.told I.Disk.told (messages ++ message.now ∷ []) self.old self.new }
        ensures closed { OnErr result (self.new.is_open ≡ false) }
    {
        let number = self.taken();
        match self.gatherer.place(number, message) {
            Ok(placed) => {
                self.is_placed = true;
                Ok(placed)
            }
            Err(fault) => {
                self.is_open = false;
                Err(fault)
            }
        }
    }

    /// Counts the message that was placed. It makes no call of the folder or of the part. `Device` comes
    /// only where a call of the register's disk failed; after it the collector must be opened again.
    pub fn count(&mut self) -> Result<(), Device>
        requires ready { IsCounting I.told I.Disk.told self.old }
        requires below { taken_count self.old < 2 ^ 48 }

        ensures ready { OnOk result (IsCollecting I.told I.Disk.told self.new) }
        ensures counted { OnOk result ((messages : List (List ℕ)) (message : List ℕ)
            → HasPlaced I.told I.Disk.told self.old messages message
            → HasTaken I.told I.Disk.told self.new (messages ++ message ∷ [])) }
        ensures taken { OnOk result (taken_count self.new ≡ taken_count self.old + 1) }
        ensures inbox { self.new.gatherer.inbox ≡ self.old.gatherer.inbox }

        // Whatever a crash at any moment leaves fits the messages with this one.
        ensures fits { (messages : List (List ℕ)) (message : List ℕ)
            → HasPlaced I.told I.Disk.told self.old messages message
            → AlwaysFits I.told I.Disk.told (messages ++ message ∷ []) self.old self.new }
        ensures closed { OnErr result (self.new.is_open ≡ false) }
        ensures counts { I.Disk.told.count (register_disk self.old.register)
            ≤ I.Disk.told.count (register_disk self.new.register) }
        ensures rose { IsErr result → Rose (I.Disk.told.count (register_disk self.old.register))
            (I.Disk.told.count (register_disk self.new.register)) }
        ensures device { IfErr result (λ e.
            e.faults ≡ I.Disk.told.count (register_disk self.new.register)) }
    {
        let progress = self.gatherer.progress();
        match turn(&mut self.register, &progress) {
            Ok(()) => {
                self.gatherer.let_go();
                self.gatherer.note_progress(&progress);
                self.is_placed = false;
                Ok(())
            }
            Err(device) => {
                self.is_open = false;
                Err(device)
            }
        }
    }
}

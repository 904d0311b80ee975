// The folder that files come into, and the part of the file that has begun.
ghost use Rattle.std.specs.Prelude.{◌≡◌, ℕ, List, ◌^◌, ◌<◌, ◌≤◌, true, is_some, length, drop, Some, IfSome, OnOk, Ok};
ghost use Rattle.file_messages.specs.Files.{State, after};
ghost use Rattle.file_messages.specs.Messages.{message_of};
ghost use Rattle.file_messages.specs.Assemblies.{StandsFor, answer, progress_of};
ghost use Rattle.file_messages.specs.declared.assembly.Step.TheVariants.{Started, Grown, Whole, Dropped};

use crate::growing::grow;
use crate::naming::show;
use crate::values::{Lost, PlaceFault, Placed, Shown};
use file_messages::{Assembly, Cause, Progress, Step};
use folders::{Inbox, InboxFault};
use pump_frame::Payload;

// What stands behind the first byte of a message.
fn behind_kind(message: &[u8]) -> &[u8]
    ensures { result.now ≡ drop 1 message.now }
{
    match message {
        [] => message,
        [_, rest @ ..] => rest,
    }
}

/// The folder, the part of the file that has begun, and what is known of that file.
pub struct Gatherer<I: Inbox> {
    inbox: I,
    part: Option<I::Disk>,
    assembly: Assembly,
}

impl<I: Inbox> Gatherer<I>
where
    I::Disk: Drop,
{
    ghost use Rattle.file_collector.specs.Gathering.{HasCome, IsGathering, Places, part_in};
    ghost use Rattle.file_collector.specs.Parts.{PartHas};

    /// A gatherer over a folder, a part of it, and what is known of the file of that part.
    pub fn over(inbox: I, part: Option<I::Disk>, assembly: Assembly) -> Gatherer<I>
        ensures { result ≡ record { inbox = inbox; part = part; assembly = assembly } }
    {
        Gatherer {
            inbox,
            part,
            assembly,
        }
    }

    /// The folder, and the part that is held.
    pub fn into_parts(self) -> (I, Option<I::Disk>)
        ensures { result ≡ (self.inbox, self.part) }
    {
        let Gatherer {
            inbox,
            part,
            assembly: _,
        } = self;
        (inbox, part)
    }

    /// How far the file is that has begun.
    pub fn progress(&self) -> Option<Progress>
        ensures { (state : State) → StandsFor self.now.assembly state → result ≡ progress_of state }
    {
        self.assembly.progress()
    }

    /// Tells whoever watches the folder how far the file is that has begun.
    pub fn note_progress(&self, progress: &Option<Progress>) {
        self.inbox.note_progress(progress);
    }

    /// Lets the part of a file go that was dropped. It is left lying.
    pub fn let_go(&mut self)
        ensures inbox { self.new.inbox ≡ self.old.inbox }
        ensures assembly { self.new.assembly ≡ self.old.assembly }
        ensures part { (state : State) → StandsFor self.old.assembly state
            → self.new.part ≡ part_in state self.old.part }
    {
        if self.assembly.progress().is_none() {
            self.part = None;
        }
    }

    // Begins a part.
    fn begin(&mut self) -> Result<Placed, PlaceFault>
        ensures assembly { self.new.assembly ≡ self.old.assembly }
        ensures places { (state : State) (message : List ℕ) (number : ℕ) → HasCome I.told I.Disk.told self.old state
            → answer state (message_of message) ≡ Started
            → Places I.told I.Disk.told number message state self.old self.new result }
    {
        match self.inbox.begin() {
            Ok(part) => {
                self.part = Some(part);
                Ok(Placed::Begun)
            }
            Err(InboxFault) => Err(PlaceFault::Device {
                faults: self.inbox.faults(),
            }),
        }
    }

    // Adds bytes to the part.
    fn add(&mut self, progress: &Progress, bytes: &[u8]) -> Result<Placed, PlaceFault>
        requires part { is_some self.old.part ≡ true }
        requires place { PartHas I.Disk.told self.old.part progress.now.bytes }
        ensures assembly { self.new.assembly ≡ self.old.assembly }
        ensures places { (state : State) (message : List ℕ) (number : ℕ) → HasCome I.told I.Disk.told self.old state
            → answer state (message_of message) ≡ Grown → bytes.now ≡ drop 1 message
            → Places I.told I.Disk.told number message state self.old self.new result }
    {
        let Some(part) = &mut self.part else {
            unreachable!("a file that grows has a part");
        };
        match grow(part, progress.bytes, bytes) {
            Ok(()) => Ok(Placed::Grown),
            Err(device) => Err(PlaceFault::Device {
                faults: device.faults,
            }),
        }
    }

    // Shows the part as the file that it is.
    fn publish(
        &mut self,
        progress: &Progress,
        number: u64,
        digest: &[u8],
    ) -> Result<Placed, PlaceFault>
        requires part { is_some self.old.part ≡ true }
        requires ready { (state : State) × HasCome I.told I.Disk.told self.old state
            × (progress_of state ≡ Some progress.now) }
        requires number { number < 2 ^ 48 }
        requires digest { length digest.now ≡ 32 }
        ensures assembly { self.new.assembly ≡ self.old.assembly }
        ensures places { (state : State) (message : List ℕ) → HasCome I.told I.Disk.told self.old state
            → progress_of state ≡ Some progress.now
            → answer state (message_of message) ≡ Whole → digest.now ≡ drop 1 message
            → Places I.told I.Disk.told number message state self.old self.new result }
    {
        let Some(part) = self.part.take() else {
            unreachable!("a file that is whole has a part");
        };
        let name = show(&mut self.inbox, part, &progress.name, number)?;
        let mut sum = [0; 32];
        sum.copy_from_slice(digest);
        Ok(Placed::Shown(Shown {
            name,
            size: progress.size,
            digest: sum,
        }))
    }

    // Lets the file go that has begun. Its part is left lying, and held until the message is counted.
    fn drop_file(&self, progress: &Progress, cause: Cause) -> Placed
        ensures places { (state : State) (message : List ℕ) (number : ℕ) → HasCome I.told I.Disk.told self.now state
            → progress_of state ≡ Some progress.now
            → answer state (message_of message) ≡ Dropped cause
            → Places I.told I.Disk.told number message state self.now self.now (Ok result) }
    {
        Placed::Dropped(Lost {
            cause,
            name: progress.name,
        })
    }

    /// Places the message of a number: the folder and the part are made to stand for the messages up to
    /// it. A crash inside leaves the files and the part from before, or the file shown that it gives.
    pub fn place(&mut self, number: u64, message: &Payload) -> Result<Placed, PlaceFault>
        requires ready { (state : State) × IsGathering I.told I.Disk.told self.old state }
        requires number { number < 2 ^ 48 }
        ensures assembly { (state : State) → IsGathering I.told I.Disk.told self.old state
            → StandsFor self.new.assembly (after state (message_of message.now)) }
        ensures places { (state : State) → IsGathering I.told I.Disk.told self.old state
            → Places I.told I.Disk.told number message.now state self.old self.new result }
    {
        let before = self.assembly.progress();
        let bytes = message.as_slice();
        match (self.assembly.step(bytes), &before) {
            (Step::Started, _) => self.begin(),
            (Step::Odd, _) => Ok(Placed::Odd),
            (_, None) => unreachable!("no file has begun"),
            (Step::Grown, Some(progress)) => self.add(progress, behind_kind(bytes)),
            (Step::Whole, Some(progress)) => { self.publish(progress, number, behind_kind(bytes)) }
            (Step::Dropped(cause), Some(progress)) => Ok(self.drop_file(progress, cause)),
        }
    }
}

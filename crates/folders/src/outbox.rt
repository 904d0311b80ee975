// The calls of a folder that files go out of, and what they promise.
ghost use Rattle.std.specs.Prelude.{◌≡◌, ℕ, List, Option, Some, Ok, true, false, IfOk, OnErr};
ghost use Rattle.pump_link.specs.Causes.{HasCause};
ghost use Rattle.folders.specs.Marks.{HasNumbers};
ghost use Rattle.folders.specs.Outboxes.{Dropping, Moves, Makes, Same, Is, MayBe, IsFree, IsTaken, HasName};
ghost use Rattle.folders.specs.Outboxes.{IsLawfulFound, found_in, taken, with_mark, opened, without_marked};
ghost use Rattle.folders.specs.declared.outbox.Found.TheVariants.{Several};

use crate::mark::Mark;
use file_messages::{FileName, Progress};
use pump_link::Source;

/// A call of an outbox failed; its count rose, or stands at its greatest value.
#[derive(Clone, Copy, PartialEq, Eq, Debug)]
pub struct OutboxFault;

/// The marked files of an outbox.
#[derive(Clone, Copy)]
pub enum Found {
    /// No file is marked.
    Nothing,
    /// This is the mark of the one that is.
    One(Mark),
    /// More than one is, which no calls lead to.
    Several,
}

/// A folder that files go out of. Files wait in it; one at a time is taken, and is marked from then
/// on until it is removed. A mark and a removal are durable when their call returns; a call that
/// fails may have been done or not, and so may one that a crash cuts off. Others may put files into
/// the folder, and may take away or change those that wait: no call promises which files wait, nor
/// that an opening gives what the one before it gave.
pub trait Outbox {
    /// The marked file, opened for reading.
    type File: Source + Drop;

    /// What the outbox tells of itself.
    ghost told: { Dropping Self };

    /// The mark of the marked file.
    fn marked(&mut self) -> Result<Found, OutboxFault>
        ensures found { IfOk result (λ found. told.tells → found ≡ found_in (told.stands self.old).marked) }
        ensures lawful { IfOk result IsLawfulFound }
        ensures several { result ≡ Ok Several → told.several self.old }
        ensures moves { Moves told Same self.old self.new }
        ensures cause { HasCause (told.count self.old) (told.count self.new) result };

    /// The name of a file that waits; `None` where none does.
    fn next(&mut self) -> Result<Option<FileName>, OutboxFault>
        ensures moves { Moves told Same self.old self.new }
        ensures cause { HasCause (told.count self.old) (told.count self.new) result };

    /// Takes the file of this name, whose mark is fresh then; `false` where it is gone.
    fn take(&mut self, name: &FileName) -> Result<bool, OutboxFault>
        requires { told.tells → IsFree (told.stands self.old).marked }
        ensures taken { result ≡ Ok true → Makes told (taken name.now) self.old self.new }
        ensures gone { result ≡ Ok false → Moves told Same self.old self.new }
        ensures moves { Moves told (MayBe (taken name.now)) self.old self.new }
        ensures cause { HasCause (told.count self.old) (told.count self.new) result };

    /// Marks the marked file anew. The numbers of the mark have to be in their ranges, and its name
    /// has to be the file's.
    fn mark(&mut self, mark: &Mark) -> Result<(), OutboxFault>
        requires numbers { HasNumbers mark.now.stage }
        requires named { told.tells → HasName mark.now.name (told.stands self.old).marked }
        ensures marked { result ≡ Ok tt → Makes told (with_mark mark.now) self.old self.new }
        ensures moves { Moves told (MayBe (with_mark mark.now)) self.old self.new }
        ensures cause { HasCause (told.count self.old) (told.count self.new) result };

    /// Opens the marked file, to be read from its first byte on.
    fn open(&mut self) -> Result<Self::File, OutboxFault>
        requires { told.tells → IsTaken (told.stands self.old).marked }
        ensures bytes { IfOk result (λ file. (bytes : List ℕ) × (told.tells → Self.File.left file ≡ Some bytes)
            × Moves told (Is (opened bytes)) self.old self.new) }
        ensures unread { IfOk result (λ file. Self.File.faults file ≡ 0) }
        ensures stays { OnErr result (Moves told Same self.old self.new) }
        ensures cause { HasCause (told.count self.old) (told.count self.new) result };

    /// Removes the marked file.
    fn remove(&mut self) -> Result<(), OutboxFault>
        requires { told.tells → IsTaken (told.stands self.old).marked }
        ensures removed { result ≡ Ok tt → Makes told without_marked self.old self.new }
        ensures moves { Moves told (MayBe without_marked) self.old self.new }
        ensures cause { HasCause (told.count self.old) (told.count self.new) result };

    /// Whoever watches the folder is told how far the marked file is sent, or `None` where it is not being
    /// sent. It changes nothing in the folder.
    fn note_progress(&self, progress: &Option<Progress>);

    /// How often a call failed, up to the greatest u64.
    fn faults(&self) -> u64
        ensures { result ≡ told.count self.now };
}

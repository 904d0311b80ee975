// Folders by their names: their calls, and what they promise.
ghost use Rattle.std.specs.Prelude.{◌≡◌, ℕ, List, [], ◌∷◌};
ghost use Rattle.pump_link.specs.Causes.{HasCause};
ghost use Rattle.pump_link.specs.Tells.{Grows};
ghost use Rattle.folders.specs.ByName.{FoldersStep, inbox_given, outbox_given, InboxBack, OutboxBack};

use crate::inbox::Inbox;
use crate::outbox::Outbox;

/// A folder was not given: it is not there, or not the caller's, or another program has it.
#[derive(Clone, Copy, PartialEq, Eq, Debug)]
pub struct FoldersFault;

/// Gives folders by their names, to one owner at a time, and takes them back.
pub trait Folders {
    type Inbox: Inbox;

    type Outbox: Outbox;

    /// It gave and took back these folders, in this order, where it tells that.
    ghost did: { Self → List (FoldersStep Self.Inbox Self.Outbox) → Type 0 };

    ghost faults: { Self → ℕ };

    /// The folder of this name, into which the files of a session come. It answers `Err` only where its
    /// count of faults rose.
    fn inbox(&mut self, name: &str, session: u32) -> Result<Self::Inbox, FoldersFault>
        ensures did { Grows (did self.old) (did self.new) (inbox_given name.now session result ∷ []) }
        ensures cause { HasCause (faults self.old) (faults self.new) result };

    /// The folder of this name, out of which the files of a session go. It answers `Err` only where its
    /// count of faults rose.
    fn outbox(&mut self, name: &str, session: u32) -> Result<Self::Outbox, FoldersFault>
        ensures did { Grows (did self.old) (did self.new) (outbox_given name.now session result ∷ []) }
        ensures cause { HasCause (faults self.old) (faults self.new) result };

    /// Takes back a folder that `inbox` gave.
    fn inbox_back(&mut self, inbox: Self::Inbox)
        ensures did { Grows (did self.old) (did self.new) (InboxBack inbox ∷ []) }
        ensures same { faults self.new ≡ faults self.old };

    /// Takes back a folder that `outbox` gave.
    fn outbox_back(&mut self, outbox: Self::Outbox)
        ensures did { Grows (did self.old) (did self.new) (OutboxBack outbox ∷ []) }
        ensures same { faults self.new ≡ faults self.old };

    /// How many calls of `inbox` and `outbox` have failed. The count never falls, and stays at its
    /// greatest value.
    fn faults(&self) -> u64
        ensures { result ≡ faults self.now };
}

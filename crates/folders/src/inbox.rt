// The folder that files come into: its calls, and what they promise.
ghost use Rattle.std.specs.Prelude.{◌≡◌, ◌++◌, ◌∷◌, [], true, false, ⊤, Some, None, option_map, IfOk, OnOk, OnErr};
ghost use Rattle.std.specs.Prelude.{IfSome};
ghost use Rattle.std.specs.Prelude.{length, take, ℕ, List};
ghost use Rattle.disk_model.specs.Disk.{Settled};
ghost use Rattle.folders.specs.Placing.{Placing, Names, Missing, Given, Turns, IsDurable, Stays, Counted, first_of};
ghost use Rattle.folders.specs.Placing.{FreesNoOther};
ghost use Rattle.folders.specs.ShownNames.{IsShownName};

use disk_model::Disk;
use file_messages::Progress;

/// A call of a folder failed; its count rose, or stands at its greatest value.
#[derive(Clone, Copy, Debug, PartialEq, Eq)]
pub struct InboxFault;

/// The folder that files come into: the files that are shown in it; the part, which is the file that
/// has not come whole yet; and the disk of a register beside them. Each call is durable once it
/// answers `Ok`. A part that was given may not be used any more once `begin` or `resume` is called
/// again.
pub trait Inbox {
    type Disk: Disk;

    /// What the folder tells of itself.
    ghost told: { Placing Self };

    /// The disk of the register; a new one is empty. None is given twice. What is shown is durable then,
    /// and what the disk holds.
    fn register(&mut self) -> Result<Self::Disk, InboxFault>
        ensures reads { IfOk result (λ disk. told.tells
            → told.register self.old ≡ Some (Self.Disk.told.reading disk)) }
        ensures settled { IfOk result (λ disk. Settled Self.Disk.told disk) }
        ensures stays { Stays told self.old self.new }
        ensures durable { OnOk result (IsDurable told self.new) }
        ensures counted { Counted told self.old self.new result };

    /// Begins a part, which is empty. One that was there is gone.
    fn begin(&mut self) -> Result<Self::Disk, InboxFault>
        ensures empty { IfOk result (λ disk. Self.Disk.told.tells → Self.Disk.told.reading disk ≡ []) }
        ensures settled { IfOk result (λ disk. Settled Self.Disk.told disk) }
        ensures given { OnOk result (told.tells → told.part self.new ≡ Given) }
        ensures shown { told.shown self.new ≡ told.shown self.old }
        ensures free { told.free self.new ≡ told.free self.old }
        // A crash at any moment leaves a part or none.
        ensures turns { Turns told (λ names. names.shown ≡ told.shown self.old) self.old self.new }
        ensures durable { OnOk result (IsDurable told self.new) }
        ensures counted { Counted told self.old self.new result };

    /// The part that lies in the folder, cut to its first `count` bytes; `None` exactly where it has
    /// fewer, or there is none. A crash inside leaves it at least these bytes.
    fn resume(&mut self, count: u64) -> Result<Option<Self::Disk>, InboxFault>
        ensures found { IfOk result (λ part. told.tells
            → option_map Self.Disk.told.reading part ≡ first_of count (told.part self.old)) }
        ensures length { IfOk result (λ part. IfSome part (λ disk. Self.Disk.told.tells
            → length (Self.Disk.told.reading disk) ≡ count)) }
        ensures settled { IfOk result (λ part. IfSome part (λ disk. Settled Self.Disk.told disk)) }
        ensures given { IfOk result (λ part. IfSome part (λ disk. told.tells
            → told.part self.new ≡ Given)) }
        ensures left { result ≡ Ok None → told.tells → told.part self.new ≡ told.part self.old }
        ensures kept_err { OnErr result (told.tells → first_of count (told.part self.new)
            ≡ first_of count (told.part self.old)) }
        ensures shown { told.shown self.new ≡ told.shown self.old }
        ensures free { told.free self.new ≡ told.free self.old }
        ensures turns { Turns told (λ names. ⊥) self.old self.new }
        ensures counted { Counted told self.old self.new result };

    /// Whether no file in the folder has this name.
    fn is_free(&mut self, name: &str) -> Result<bool, InboxFault>
        ensures free { IfOk result (λ free. told.tells → free ≡ told.free self.new name.now) }
        ensures stays { Stays told self.old self.new }
        ensures counted { Counted told self.old self.new result };

    /// Shows the part under this name. A crash inside leaves all as it was before, or the file shown and
    /// no part.
    fn publish(&mut self, part: Self::Disk, name: &str) -> Result<(), InboxFault>
        requires settled { Settled Self.Disk.told part }
        requires lawful { IsShownName name.now }
        requires given { told.tells → told.part self.old ≡ Given }
        requires free { told.tells → told.free self.old name.now ≡ true }
        ensures shown { OnOk result (told.tells → told.shown self.new ≡ told.shown self.old
            ++ record { name = name.now; bytes = Self.Disk.told.reading part } ∷ []) }
        ensures gone { OnOk result (told.tells → told.part self.new ≡ Missing) }
        ensures taken { OnOk result (told.tells → told.free self.new name.now ≡ false) }
        ensures others { told.tells → FreesNoOther told name.now self.old self.new }
        ensures turns { Turns told (λ names. names ≡ record {
          shown = told.shown self.old
              ++ record { name = name.now; bytes = Self.Disk.told.reading part } ∷ [];
          has_part = false;
        }) self.old self.new }
        ensures durable { OnOk result (IsDurable told self.new) }
        ensures counted { Counted told self.old self.new result };

    /// Whoever watches the folder is told how far the file is that comes, or `None` between two files. It
    /// changes nothing in the folder.
    fn note_progress(&self, progress: &Option<Progress>);

    /// How often a call failed, up to the greatest u64.
    fn faults(&self) -> u64
        ensures { result ≡ told.count self.now };
}

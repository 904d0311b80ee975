// How a file that is whole is shown in its folder.
ghost use Rattle.std.specs.Prelude.{◌≡◌, ◌++◌, ◌∷◌, [], ◌^◌, ◌<◌, ◌≤◌, true, false, IfOk, OnOk, IfErr};
ghost use Rattle.disk_model.specs.Disk.{Settled};
ghost use Rattle.folders.specs.Placing.{Names, Missing, Given, Turns, IsDurable, Stays};
ghost use Rattle.folders.specs.ShownNames.{IsShownName};
ghost use Rattle.file_collector.specs.Names.{IsChosen, IsFault, IsCause, IsShowing};

use crate::values::PlaceFault;
use arrayvec::ArrayString;
use file_messages::FileName;
use folders::{Inbox, InboxFault, numbered_name};

// Whether the name is free, as the folder answers.
fn is_free<I: Inbox>(inbox: &mut I, name: &str) -> Result<bool, PlaceFault>
    ensures free { IfOk result (λ free. I.told.tells → free ≡ I.told.free inbox.old name.now) }
    ensures stays { Stays I.told inbox.old inbox.new }
    ensures later { I.told.count inbox.old ≤ I.told.count inbox.new }
    ensures cause { IfErr result (λ fault. IsFault I.told inbox.old inbox.new fault) }
{
    match inbox.is_free(name) {
        Ok(free) => Ok(free),
        Err(InboxFault) => Err(PlaceFault::Device {
            faults: inbox.faults(),
        }),
    }
}

fn own_name(name: &FileName) -> ArrayString<144>
    ensures value { result.bytes ≡ name.now }
    ensures lawful { IsShownName result.bytes }
{
    let mut own = ArrayString::new();
    own.push_str(name.as_str());
    own
}

// The name under which a file is to be shown, whose own name and whose last message's number these are.
pub fn choose<I: Inbox>(
    inbox: &mut I,
    name: &FileName,
    number: u64,
) -> Result<ArrayString<144>, PlaceFault>
    requires { number < 2 ^ 48 }
    ensures chosen { IfOk result (λ chosen. I.told.tells
        → IsChosen (I.told.free inbox.old) name.now number chosen.bytes) }
    ensures lawful { IfOk result (λ chosen. IsShownName chosen.bytes) }
    ensures free { IfOk result (λ chosen. I.told.tells → I.told.free inbox.new chosen.bytes ≡ true) }
    ensures stays { Stays I.told inbox.old inbox.new }
    ensures later { I.told.count inbox.old ≤ I.told.count inbox.new }
    ensures cause { IfErr result (λ fault. IsCause I.told name.now number inbox.old inbox.new fault) }
{
    if is_free(inbox, name.as_str())? {
        return Ok(own_name(name));
    }
    let numbered = numbered_name(name, number);
    if is_free(inbox, numbered.as_str())? {
        Ok(numbered)
    } else {
        Err(PlaceFault::NameTaken)
    }
}

// Shows the part as a file of this name, of whose last message this is the number.
pub fn show<I: Inbox>(
    inbox: &mut I,
    part: I::Disk,
    name: &FileName,
    number: u64,
) -> Result<ArrayString<144>, PlaceFault>
where
    I::Disk: Drop,
    requires number { number < 2 ^ 48 }
    requires settled { Settled I.Disk.told part }
    requires given { I.told.tells → I.told.part inbox.old ≡ Given }
    ensures chosen { IfOk result (λ chosen. I.told.tells
        → IsChosen (I.told.free inbox.old) name.now number chosen.bytes) }
    ensures shown { IfOk result (λ chosen. I.told.tells → I.told.shown inbox.new ≡ I.told.shown inbox.old
        ++ record { name = chosen.bytes; bytes = I.Disk.told.reading part } ∷ []) }
    ensures gone { OnOk result (I.told.tells → I.told.part inbox.new ≡ Missing) }
    ensures durable { OnOk result (IsDurable I.told inbox.new) }
    // A crash at any moment leaves all as it was, or the file shown and no part.
    ensures turns { Turns I.told (IsShowing I.told inbox.old name.now number (I.Disk.told.reading part))
        inbox.old inbox.new }
    ensures later { I.told.count inbox.old ≤ I.told.count inbox.new }
    ensures cause { IfErr result (λ fault. IsCause I.told name.now number inbox.old inbox.new fault) }
{
    let chosen = choose(inbox, name, number)?;
    match inbox.publish(part, chosen.as_str()) {
        Ok(()) => Ok(chosen),
        Err(InboxFault) => Err(PlaceFault::Device {
            faults: inbox.faults(),
        }),
    }
}

// A folder in memory that files come into.
ghost use Rattle.std.specs.Prelude.{◌≡◌, ◌≤◌, ◌++◌, ◌∷◌, [], ℕ, true, false, not, length, take, option_map, slice_get};
ghost use Rattle.std.specs.Prelude.{Some, IfSome, IfOk, OnOk, OnErr, IsTrue};
ghost use Rattle.pump_frame.specs.Counts.{raised};
ghost use Rattle.disk_model.specs.Disk.{Settled};
ghost use Rattle.folders.specs.MemInbox.{mem_placing, is_shown_in, is_other_in};
ghost use Rattle.folders.specs.Placing.{Missing, Lying, first_of};

use crate::inbox::{Inbox, InboxFault};
use arrayvec::ArrayString;
use disk_model::{Disk, DiskFault};
use file_messages::Progress;
use pump_frame::raised;

// A file that is shown, under its name.
#[derive(Drop)]
struct Entry<D> {
    name: ArrayString<144>,
    disk: D,
}

/// A folder in memory: the files shown in it, its part, and the register, each on a disk.
#[derive(Drop)]
pub struct MemInbox<D> {
    register: Option<D>,
    part: Option<D>,
    is_given: bool,
    stock: Vec<D>,
    shown: Vec<Entry<D>>,
    others: Vec<ArrayString<144>>,
    fails: Vec<u64>,
    calls: u64,
    faults: u64,
    // The file that was shown last may be gone after a crash.
    is_undecided: bool,
}

// Syncs a disk, and says whether it is empty.
fn is_empty<D: Disk>(disk: &mut D) -> Result<bool, DiskFault>
    ensures settled { OnOk result (Settled D.told disk.new) }
    ensures empty { IfOk result (λ empty. IsTrue empty → D.told.tells → D.told.reading disk.new ≡ []) }
{
    disk.sync()?;
    let size = disk.size()?;
    Ok(size == 0)
}

fn text_of(name: &str) -> ArrayString<144>
    requires { length name.now ≤ 144 }
    ensures { result.bytes ≡ name.now }
{
    let mut text = ArrayString::new();
    text.push_str(name);
    text
}

// Copies the first bytes of a disk to an empty one, and syncs it.
fn copy<D: Disk>(from: &mut D, to: &mut D, count: u64) -> Result<(), DiskFault>
    requires reaches { D.told.tells → count ≤ length (D.told.reading from.old) }
    requires empty { D.told.tells → D.told.reading to.old ≡ [] }
    ensures copied { OnOk result (D.told.tells
        → D.told.reading to.new ≡ take count (D.told.reading from.old)) }
    ensures size { OnOk result (D.told.tells → length (D.told.reading to.new) ≡ count) }
    ensures settled { OnOk result (Settled D.told to.new) }
    ensures same { D.told.tells → D.told.reading from.new ≡ D.told.reading from.old }
{
    let mut block = [0; 512];
    let mut at = 0;
    while at < count {
        let piece = (count - at).min(512);
        from.read(at, &mut block[..piece as usize])?;
        to.write_at(at, &block[..piece as usize])?;
        at += piece;
    }
    to.sync()
}

impl<D: Disk + Drop> MemInbox<D> {
    /// An inbox without files and without a part. Its register is on the first disk, and its parts take
    /// those of the stock, from the last one on; these have to be empty. No file may be shown under the
    /// names of other ones. The calls with the numbers `fails`, from 0, fail.
    pub fn new(
        register: D,
        stock: Vec<D>,
        others: Vec<ArrayString<144>>,
        fails: Vec<u64>,
    ) -> MemInbox<D>
        ensures register { (mem_placing D.told).register result ≡ Some (D.told.reading register) }
        ensures part { (mem_placing D.told).part result ≡ Missing }
        ensures shown { (mem_placing D.told).shown result ≡ [] }
        ensures count { (mem_placing D.told).count result ≡ 0 }
    {
        let shown = Vec::new(*stock.allocator());
        MemInbox {
            register: Some(register),
            part: None,
            is_given: false,
            stock,
            shown,
            others,
            fails,
            calls: 0,
            faults: 0,
            is_undecided: false,
        }
    }

    /// How many files are shown.
    pub fn shown_count(&self) -> usize
        ensures { result ≡ length ((mem_placing D.told).shown self.now) }
    {
        self.shown.len()
    }

    /// The name under which a file is shown, by its place, from 0.
    pub fn shown_name(&self, place: usize) -> Option<&str>
        ensures { option_map (λ name. name.now) result
            ≡ option_map (λ entry. entry.name.bytes) (slice_get self.now.shown.items place) }
    {
        let entry = self.shown.get(place)?;
        Some(entry.name.as_str())
    }

    /// The disk of a file that is shown, by its place, from 0.
    pub fn shown_disk(&mut self, place: usize) -> Option<&mut D> {
        let entry = self.shown.get_mut(place)?;
        Some(&mut entry.disk)
    }

    /// Crashes: a file that was to be shown by a call that failed is shown, where it is kept, and else
    /// is the part again. Hand back the disks that were given, by `put_back`.
    pub fn crash(&mut self, kept: bool)
        ensures kept { IsTrue kept → (mem_placing D.told).shown self.new ≡ (mem_placing D.told).shown self.old }
    {
        if self.is_undecided && !kept {
            if let Some(entry) = self.shown.pop() {
                self.part = Some(entry.disk);
            }
        }
        self.is_undecided = false;
    }

    /// Hands the disk of the register back, and that of the part, after a crash.
    pub fn put_back(&mut self, register: D, part: Option<D>)
        ensures register { (mem_placing D.told).register self.new ≡ Some (D.told.reading register) }
        ensures shown { (mem_placing D.told).shown self.new ≡ (mem_placing D.told).shown self.old }
    {
        self.register = Some(register);
        if let Some(part) = part {
            self.part = Some(part);
        }
        self.is_given = false;
    }

    // Counts a call, and says whether it is one that fails.
    fn is_failing(&mut self) -> bool
        ensures { self.new ≡ record self.old { calls = raised self.old.calls } }
    {
        let number = self.calls;
        self.calls = raised(number);
        self.fails.contains(&number)
    }

    fn fault(&mut self) -> InboxFault
        ensures value { self.new ≡ record self.old { faults = raised self.old.faults } }
        ensures later { self.old.faults ≤ self.new.faults }
    {
        self.faults = raised(self.faults);
        InboxFault
    }

    // An empty disk of the stock.
    fn next_disk(&mut self) -> Option<D>
        ensures empty { IfSome result (λ disk. D.told.tells → D.told.reading disk ≡ []) }
        ensures settled { IfSome result (λ disk. Settled D.told disk) }
        ensures same { self.new ≡ record self.old { stock = self.new.stock } }
    {
        let mut disk = self.stock.pop()?;
        if is_empty(&mut disk) == Ok(true) {
            Some(disk)
        } else {
            None
        }
    }

    // The first bytes of a disk, on one of the stock; `None` where it has fewer.
    fn cut(&mut self, part: &mut D, count: u64) -> Result<Option<D>, DiskFault>
        ensures cut { IfOk result (λ cut. D.told.tells
            → option_map D.told.reading cut ≡ first_of count (Lying (D.told.reading part.old))) }
        ensures size { IfOk result (λ cut. IfSome cut (λ disk. D.told.tells
            → length (D.told.reading disk) ≡ count)) }
        ensures settled { IfOk result (λ cut. IfSome cut (λ disk. Settled D.told disk)) }
        ensures same { self.new ≡ record self.old { stock = self.new.stock } }
        ensures stays { D.told.tells → D.told.reading part.new ≡ D.told.reading part.old }
    {
        if part.size()? < count {
            return Ok(None);
        }
        let Some(mut disk) = self.next_disk() else {
            return Err(DiskFault);
        };
        copy(part, &mut disk, count)?;
        Ok(Some(disk))
    }

    // Puts a file behind those that are shown. It fails only for want of memory.
    fn put(&mut self, entry: Entry<D>) -> Result<(), InboxFault>
        ensures put { OnOk result (self.new.shown.items ≡ self.old.shown.items ++ entry ∷ []) }
        ensures same { OnOk result (self.new ≡ record self.old { shown = self.new.shown }) }
        ensures not_put { OnErr result (self.new.shown.items ≡ self.old.shown.items) }
        ensures err { OnErr result (self.new ≡ record self.old
            { shown = self.new.shown; faults = raised self.old.faults }) }
        ensures later { self.old.faults ≤ self.new.faults }
    {
        match self.shown.push(entry) {
            Ok(()) => Ok(()),
            Err(_) => Err(self.fault()),
        }
    }

    // Whether a file that is shown has this name.
    fn is_shown(&self, name: &str) -> bool
        ensures { result ≡ is_shown_in self.now name.now }
    {
        self.shown.iter().any(|entry| entry.name.as_str() == name)
    }

    // Whether another file has it.
    fn is_other(&self, name: &str) -> bool
        ensures { result ≡ is_other_in self.now name.now }
    {
        self.others.iter().any(|other| other.as_str() == name)
    }
}

impl<D: Disk + Drop> Inbox for MemInbox<D> {
    type Disk = D;

    ghost told = { mem_placing D.told };

    fn register(&mut self) -> Result<D, InboxFault> {
        if self.is_failing() {
            return Err(self.fault());
        }
        let Some(mut disk) = self.register.take() else {
            return Err(self.fault());
        };
        match disk.sync() {
            Ok(()) => {
                self.is_undecided = false;
                Ok(disk)
            }
            Err(DiskFault) => {
                self.register = Some(disk);
                Err(self.fault())
            }
        }
    }

    fn begin(&mut self) -> Result<D, InboxFault> {
        if self.is_failing() {
            return Err(self.fault());
        }
        match self.next_disk() {
            Some(disk) => {
                self.is_given = true;
                self.part = None;
                self.is_undecided = false;
                Ok(disk)
            }
            None => Err(self.fault()),
        }
    }

    fn resume(&mut self, count: u64) -> Result<Option<D>, InboxFault> {
        if self.is_failing() {
            return Err(self.fault());
        }
        if self.is_given {
            return Ok(None);
        }
        let Some(mut part) = self.part.take() else {
            return Ok(None);
        };
        match self.cut(&mut part, count) {
            Ok(Some(disk)) => {
                self.is_given = true;
                Ok(Some(disk))
            }
            Ok(None) => {
                self.part = Some(part);
                Ok(None)
            }
            Err(DiskFault) => {
                self.part = Some(part);
                Err(self.fault())
            }
        }
    }

    fn is_free(&mut self, name: &str) -> Result<bool, InboxFault> {
        if self.is_failing() {
            return Err(self.fault());
        }
        Ok(!(self.is_shown(name) || self.is_other(name)))
    }

    // One that fails has shown the file, but a crash may undo that.
    fn publish(&mut self, part: D, name: &str) -> Result<(), InboxFault> {
        let fails = self.is_failing();
        let name = text_of(name);
        self.is_given = false;
        self.part = None;
        self.put(Entry { name, disk: part })?;
        self.is_undecided = fails;
        if fails {
            return Err(self.fault());
        }
        Ok(())
    }

    // Nobody watches.
    fn note_progress(&self, _progress: &Option<Progress>) {}

    fn faults(&self) -> u64 {
        self.faults
    }
}

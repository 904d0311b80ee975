// An outbox in memory that keeps a record of what happened to it.
ghost use Rattle.std.specs.Prelude.{◌≡◌, ◌⊎◌, ◌<◌, ◌≤◌, ◌↔◌, ◌∷◌, [], ℕ, List, Option, None, Some, Ok, true, false};
ghost use Rattle.std.specs.Prelude.{Contains, IsTrue, IfOk, IsErr, OnOk, OnErr, Vec};
ghost use Rattle.std.specs.declared.alloc.Global.{Global};
ghost use Rattle.pump_frame.specs.Counts.{raised};
ghost use Rattle.pump_link.specs.Causes.{HasCause};
ghost use Rattle.folders.specs.Marks.{HasNumbers};
ghost use Rattle.folders.specs.Outboxes.{Moves, Makes, Settled, Same, Is, MayBe, IsFree, IsTaken, HasName};
ghost use Rattle.folders.specs.Outboxes.{IsLawfulFound, found_in, taken, with_mark, opened, without_marked};
ghost use Rattle.folders.specs.OutboxLog.{standing, changed};
ghost use Rattle.folders.specs.MemOutboxes.{MemoryOutbox, mem_dropping, mark_after, HasGoodMark, with_call, with_entry};
ghost use Rattle.folders.specs.MemOutboxes.{Changes};
ghost use Rattle.folders.specs.declared.outbox.Found.TheVariants.{Several};
ghost use Rattle.folders.specs.declared.outbox_log.Change.TheVariants.{Take, Remove};
ghost use Rattle.folders.specs.declared.outbox_log.Entry.TheVariants.{Done, Missed, Opened, Crashed};

use crate::mark::{Mark, Stage};
use crate::outbox::{Found, Outbox, OutboxFault};
use crate::outbox_log::{Change, Entry};
use file_messages::{FileName, Progress};
use pump_frame::{OutOfMemory, raised};
use pump_link::MemSource;
use std::alloc::Global;
use std::collections::VecDeque;
use std::marker::Model;

/// A file of a `MemOutbox`: its name, and the bytes that its openings give, one after another. The
/// last of them come again, and where there are none it is empty.
#[derive(Drop)]
pub struct MemFile {
    name: FileName,
    contents: Vec<Vec<u8>>,
    opened: usize,
}

// The mark, if a file is marked, and how many files were removed.
#[derive(Clone, Copy)]
struct Place {
    mark: Option<Mark>,
    removed: usize,
}

/// An outbox in memory. Its files wait in order. It keeps a record of what happened to it. Contracts
/// see it as the `MemoryOutbox` of `specs/MemOutboxes.antt`.
#[derive(Drop)]
pub struct MemOutbox {
    files: Vec<MemFile>,
    piece: usize,
    log: VecDeque<Entry>,
    // What stands, and what a crash leaves that makes the changes of failed calls.
    stands: Place,
    kept: Place,
    number: u64,
    fails: Vec<u64>,
    faults: u64,
}

impl Model for MemOutbox {
    ghost use Rattle.std.specs.Prelude.{◌≡◌, ◌<◌};
    ghost use Rattle.folders.specs.OutboxLog.{outcomes};
    ghost use Rattle.folders.specs.MemOutboxes.{MemoryOutbox, mark_in, HasGoodNumbers};

    ghost Value = { MemoryOutbox };

    ghost view = { λ s. record { log = s.log.items; number = s.number; fails = s.fails.items; faults = s.faults } };

    ghost invariant = { λ s. (s.stands.mark ≡ mark_in (outcomes s.log.items).stands.marked)
        × (s.kept.mark ≡ mark_in (outcomes s.log.items).kept.marked)
        × HasGoodNumbers s.stands.mark × HasGoodNumbers s.kept.mark × (0 < s.piece) };
}

// What a change makes of a place.
fn changed(change: &Change, place: &Place) -> Place
    ensures { result.mark ≡ mark_after change.now }
{
    match change {
        Change::Take(name) => Place {
            mark: Some(Mark {
                stage: Stage::Fresh,
                name: *name,
            }),
            removed: place.removed,
        },
        Change::Mark(mark) => Place {
            mark: Some(*mark),
            removed: place.removed,
        },
        Change::Remove => Place {
            mark: None,
            removed: place.removed.saturating_add(1),
        },
    }
}

fn put_first(log: &mut VecDeque<Entry>, entry: Entry) -> bool
    ensures put { IsTrue result → log.new.items ≡ entry ∷ log.old.items }
    ensures not { result ≡ false → log.new.items ≡ log.old.items }
{
    log.push_front(entry).is_ok()
}

// What the next opening of a file gives.
fn content(file: &MemFile) -> &[u8] {
    let last = file.contents.len().saturating_sub(1);
    match file.contents.get(file.opened.min(last)) {
        Some(bytes) => bytes,
        None => &[],
    }
}

// The same, of one of the files.
fn content_of(files: &[MemFile], at: usize) -> &[u8] {
    match files.get(at) {
        Some(file) => content(file),
        None => &[],
    }
}

// Counts an opening of one of the files.
fn count_opening(files: &mut Vec<MemFile>, at: usize) {
    match files.get_mut(at) {
        Some(file) => file.opened = file.opened.saturating_add(1),
        None => {}
    }
}

impl MemFile {
    /// A file of this name; `contents` are what its openings give.
    pub fn new(name: FileName, contents: Vec<Vec<u8>>) -> MemFile {
        MemFile {
            name,
            contents,
            opened: 0,
        }
    }
}

impl MemOutbox {
    /// An outbox in which these files wait. A read of a file gives at most `piece` bytes. The calls
    /// with the numbers `fails`, from 0, fail.
    pub fn new(files: Vec<MemFile>, piece: usize, fails: Vec<u64>) -> MemOutbox
        requires { 0 < piece }
        ensures { result ≡ record { log = []; number = 0; fails = fails.items; faults = 0 } }
    {
        let log = VecDeque::new(*fails.allocator());
        MemOutbox {
            files,
            piece,
            log,
            stands: Place {
                mark: None,
                removed: 0,
            },
            kept: Place {
                mark: None,
                removed: 0,
            },
            number: 0,
            fails,
            faults: 0,
        }
    }

    /// Crashes, and comes up again with the changes of failed calls, where they are `kept`, or without
    /// them.
    pub fn crash(&mut self, kept: bool) -> Result<(), OutOfMemory>
        ensures ok { OnOk result (self.new ≡ with_entry (Crashed kept) self.old) }
        ensures err { OnErr result (self.new ≡ self.old) }
        ensures image { mem_dropping.images self.old (standing self.new.log) }
        ensures settled { OnOk result (Settled mem_dropping self.new) }
    {
        if !put_first(&mut self.log, Entry::Crashed(kept)) {
            return Err(OutOfMemory);
        }
        if kept {
            self.stands = self.kept;
        } else {
            self.kept = self.stands;
        }
        Ok(())
    }

    // Counts the call, and says whether it is one of those that fail.
    fn is_next_failing(&mut self) -> bool
        ensures value { self.new ≡ with_call self.old }
        ensures fails { IsTrue result ↔ Contains self.old.fails self.old.number }
    {
        let number = self.number;
        self.number = raised(number);
        self.fails.contains(&number)
    }

    fn fault(&mut self) -> OutboxFault
        ensures value { self.new ≡ record self.old { faults = raised self.old.faults } }
        ensures later { self.old.faults ≤ self.new.faults }
    {
        self.faults = raised(self.faults);
        OutboxFault
    }

    // Keeps that the call of a change failed.
    fn miss(&mut self, change: Change)
        requires { HasGoodMark change }
        ensures { (self.new ≡ with_entry (Missed change) self.old) ⊎ (self.new ≡ self.old) }
    {
        if put_first(&mut self.log, Entry::Missed(change)) {
            self.kept = changed(&change, &self.kept);
        }
    }

    // Makes a change, and keeps it.
    fn keep(&mut self, change: Change) -> bool
        requires { HasGoodMark change }
        ensures kept { IsTrue result → self.new ≡ with_entry (Done change) self.old }
        ensures not { result ≡ false → self.new ≡ self.old }
    {
        if !put_first(&mut self.log, Entry::Done(change)) {
            return false;
        }
        self.kept = changed(&change, &self.stands);
        self.stands = changed(&change, &self.stands);
        true
    }

    // Opens the marked file, where there is memory for it.
    fn give(&mut self) -> Result<MemSource, OutOfMemory>
        ensures ok { IfOk result (λ file. (file.faults ≡ 0)
            × ((bytes : Vec ℕ Global) × (file.left ≡ bytes.items) × (self.new ≡ with_entry (Opened bytes) self.old))) }
        ensures err { OnErr result (self.new ≡ self.old) }
    {
        let alloc = *self.fails.allocator();
        let bytes = content_of(&self.files, self.stands.removed);
        let given = Vec::from_slice(alloc, bytes)?;
        let noted = Vec::from_slice(alloc, bytes)?;
        if !put_first(&mut self.log, Entry::Opened(noted)) {
            return Err(OutOfMemory);
        }
        count_opening(&mut self.files, self.stands.removed);
        Ok(MemSource::new(given, self.piece, Vec::new(alloc)))
    }

    // Is this the name of the file that waits?
    fn waits(&self, name: &FileName) -> bool {
        match self.files.get(self.stands.removed) {
            Some(file) => file.name.as_slice() == name.as_slice(),
            None => false,
        }
    }

    // The call of a change that is not made, since the file is gone.
    fn pass(&mut self) -> Result<bool, OutboxFault>
        ensures log { self.new.log ≡ self.old.log }
        ensures gone { IfOk result (λ made. made ≡ false) }
        ensures cause { HasCause self.old.faults self.new.faults result }
        ensures fails { Contains self.old.fails self.old.number → IsErr result }
    {
        if self.is_next_failing() {
            return Err(self.fault());
        }
        Ok(false)
    }

    // The work of `take`, `mark` and `remove`.
    fn change(&mut self, change: Change) -> Result<(), OutboxFault>
        requires { HasGoodMark change }
        ensures { Changes change self.old self.new result }
    {
        if self.is_next_failing() {
            self.miss(change);
            return Err(self.fault());
        }
        if !self.keep(change) {
            return Err(self.fault());
        }
        Ok(())
    }
}

impl Outbox for MemOutbox {
    type File = MemSource;

    ghost told = { mem_dropping };

    fn marked(&mut self) -> Result<Found, OutboxFault>
        ensures found { IfOk result (λ found. found ≡ found_in (standing self.old.log).marked) }
        ensures lawful { IfOk result IsLawfulFound }
        ensures several { result ≡ Ok Several → ⊥ }
        ensures moves { Moves mem_dropping Same self.old self.new }
        ensures cause { HasCause self.old.faults self.new.faults result }
        ensures fails { IsErr result ↔ Contains self.old.fails self.old.number }
    {
        if self.is_next_failing() {
            return Err(self.fault());
        }
        match self.stands.mark {
            Some(mark) => Ok(Found::One(mark)),
            None => Ok(Found::Nothing),
        }
    }

    fn next(&mut self) -> Result<Option<FileName>, OutboxFault>
        ensures moves { Moves mem_dropping Same self.old self.new }
        ensures cause { HasCause self.old.faults self.new.faults result }
        ensures fails { IsErr result ↔ Contains self.old.fails self.old.number }
    {
        if self.is_next_failing() {
            return Err(self.fault());
        }
        match self.files.get(self.stands.removed) {
            Some(file) => Ok(Some(file.name)),
            None => Ok(None),
        }
    }

    fn take(&mut self, name: &FileName) -> Result<bool, OutboxFault>
        requires { IsFree (standing self.old.log).marked }
        ensures taken { result ≡ Ok true → Makes mem_dropping (taken name.now) self.old self.new }
        ensures gone { result ≡ Ok false → Moves mem_dropping Same self.old self.new }
        ensures moves { Moves mem_dropping (MayBe (taken name.now)) self.old self.new }
        ensures cause { HasCause self.old.faults self.new.faults result }
        ensures fails { Contains self.old.fails self.old.number → IsErr result }
    {
        if !self.waits(name) {
            return self.pass();
        }
        match self.change(Change::Take(*name)) {
            Ok(()) => Ok(true),
            Err(fault) => Err(fault),
        }
    }

    fn mark(&mut self, mark: &Mark) -> Result<(), OutboxFault>
        requires numbers { HasNumbers mark.now.stage }
        requires named { HasName mark.now.name (standing self.old.log).marked }
        ensures marked { result ≡ Ok tt → Makes mem_dropping (with_mark mark.now) self.old self.new }
        ensures moves { Moves mem_dropping (MayBe (with_mark mark.now)) self.old self.new }
        ensures cause { HasCause self.old.faults self.new.faults result }
        ensures fails { Contains self.old.fails self.old.number → IsErr result }
    {
        self.change(Change::Mark(*mark))
    }

    fn open(&mut self) -> Result<MemSource, OutboxFault>
        requires { IsTaken (standing self.old.log).marked }
        ensures bytes { IfOk result (λ file. (bytes : List ℕ) × (Unit {0} → Some file.left ≡ Some bytes)
            × Moves mem_dropping (Is (opened bytes)) self.old self.new) }
        ensures unread { IfOk result (λ file. file.faults ≡ 0) }
        ensures stays { OnErr result (Moves mem_dropping Same self.old self.new) }
        ensures cause { HasCause self.old.faults self.new.faults result }
        ensures fails { Contains self.old.fails self.old.number → IsErr result }
    {
        if self.is_next_failing() {
            return Err(self.fault());
        }
        match self.give() {
            Ok(file) => Ok(file),
            Err(_) => Err(self.fault()),
        }
    }

    fn remove(&mut self) -> Result<(), OutboxFault>
        requires { IsTaken (standing self.old.log).marked }
        ensures removed { result ≡ Ok tt → Makes mem_dropping without_marked self.old self.new }
        ensures moves { Moves mem_dropping (MayBe without_marked) self.old self.new }
        ensures cause { HasCause self.old.faults self.new.faults result }
        ensures fails { Contains self.old.fails self.old.number → IsErr result }
    {
        self.change(Change::Remove)
    }

    // Nobody watches.
    fn note_progress(&self, _progress: &Option<Progress>) {}

    fn faults(&self) -> u64 {
        self.faults
    }
}

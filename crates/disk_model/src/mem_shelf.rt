// A shelf in memory.
ghost use Rattle.std.specs.Prelude.{◌≡◌, ◌+◌, ◌≤◌, ◌↔◌, ◌⊎◌, ◌++◌, [], take, drop, length, Contains, None, Some, Err};
ghost use Rattle.std.specs.Prelude.{IfOk, OnOk, OnErr, IfSome, IsTrue, find, position, option_copied, vec_capacity};
ghost use Rattle.std.specs.Prelude.{vec_len};
ghost use Rattle.pump_frame.specs.Counts.{raised};
ghost use Rattle.disk_model.specs.Shelf.{Out, OnShelf, IsOut, FailsBy, LeavesOthers, ReadsFile, reading_given};
ghost use Rattle.disk_model.specs.Shelf.{count_when_back};
ghost use Rattle.disk_model.specs.ShelfCalls.{ReadsWhole, TakesDisk};
ghost use Rattle.disk_model.specs.declared.shelf.ShelfFault.TheVariants.{Failed, Memory};
ghost use Rattle.disk_model.specs.MemShelf.{MemoryShelf, mem_holdings, has_name, under, without, without_first};
ghost use Rattle.disk_model.specs.MemShelf.{file_of, home_of, with_call_made, with_disk_out, with_disk_home};

use crate::disk::Disk;
use crate::name::DiskName;
use crate::shelf::{Shelf, ShelfFault};
use pump_frame::raised;
use std::marker::Model;

/// Disks and files in memory. The very disk that was put back under a name is given again. Contracts
/// see it as the `MemoryShelf` of `specs/MemShelf.antt`.
#[derive(Drop)]
pub struct MemShelf<D> {
    disks: Vec<(DiskName, D)>,
    // The disks that are out, with the counts that they had when they were given.
    outs: Vec<(DiskName, u64)>,
    files: Vec<(String, Vec<u8>)>,
    fails: Vec<u64>,
    calls: u64,
    faults: u64,
    disk_faults: u64,
}

impl<D> Model for MemShelf<D> {
    ghost use Rattle.std.specs.Prelude.{◌+◌, ◌≤◌, length, vec_len, vec_capacity};
    ghost use Rattle.disk_model.specs.declared.shelf.ShelfFault.TheVariants.{Failed, Memory};
    ghost use Rattle.disk_model.specs.MemShelf.{MemoryShelf};

    ghost Value = { MemoryShelf D };

    ghost view = { λ s. record {
      disks = s.disks.items;
      outs = s.outs.items;
      files = s.files.items;
      calls = s.calls;
      fails = s.fails.items;
      faults = s.faults;
      disk_faults = s.disk_faults;
    } };

    // The list keeps a place for each disk that is out.
    ghost invariant = { λ s. vec_len s.disks + length s.outs.items ≤ vec_capacity s.disks };
}

// The first entry of a name.
fn with_name<T>(entries: &[(DiskName, T)], name: DiskName) -> Option<&(DiskName, T)>
    ensures { option_copied result ≡ find (has_name name) entries.now }
{
    entries.iter().find(|entry| entry.0 == name)
}

fn place_of<T>(entries: &[(DiskName, T)], name: DiskName) -> Option<usize>
    ensures { result ≡ position (has_name name) entries.now }
{
    entries.iter().position(|entry| entry.0 == name)
}

// Takes the first disk of a name out.
fn take_first<D>(disks: &mut Vec<(DiskName, D)>, name: DiskName) -> Option<D>
    ensures disk { result ≡ under name disks.old.items }
    ensures rest { disks.new.items ≡ without_first name disks.old.items }
    ensures len { IfSome result (λ disk. vec_len disks.new + 1 ≡ vec_len disks.old) }
    ensures same { result ≡ None → vec_len disks.new ≡ vec_len disks.old }
    ensures capacity { vec_capacity disks.new ≡ vec_capacity disks.old }
{
    let place = place_of(disks, name)?;
    Some(disks.remove(place).1)
}

// Takes a name off the list of those that are out.
fn forget(outs: &mut Vec<(DiskName, u64)>, name: DiskName)
    ensures { outs.new.items ≡ without name outs.old.items }
{
    outs.retain(|out| out.0 != name);
}

// The shelf's count once a disk is back: it had failed `given` times when it was given, and `now`
// times now.
fn count_when_back(given: u64, now: u64, count: u64) -> u64
    ensures value { result ≡ count_when_back (Out given) now count }
    ensures later { count ≤ result }
{
    if raised(given) <= now {
        raised(count)
    } else {
        count
    }
}

// Puts as many bytes as fit at the start.
fn put_prefix(into: &mut [u8], bytes: &[u8])
    ensures { into.new ≡ take (length into.old) bytes.now ++ drop (length bytes.now) into.old }
{
    let count = bytes.len().min(into.len());
    into[..count].copy_from_slice(&bytes[..count]);
}

impl<D: Disk> MemShelf<D> {
    /// A shelf with these disks and files; of those under one name the first counts. The calls of
    /// `whole` and `disk` with the numbers `fails`, counted together from 0, fail. So does a call of
    /// `whole` for a file that isn't there, and one of `disk` for a disk that isn't there or is out.
    pub fn new(
        disks: Vec<(DiskName, D)>,
        files: Vec<(String, Vec<u8>)>,
        fails: Vec<u64>,
    ) -> MemShelf<D>
        ensures { result ≡ record {
          disks = disks.items;
          outs = [];
          files = files.items;
          calls = 0;
          fails = fails.items;
          faults = 0;
          disk_faults = 0;
        } }
    {
        let outs = Vec::new(*disks.allocator());
        MemShelf {
            disks,
            outs,
            files,
            fails,
            calls: 0,
            faults: 0,
            disk_faults: 0,
        }
    }

    /// The disk of a name, where it is on the shelf.
    pub fn home(&self, name: DiskName) -> Option<&D>
        ensures { option_copied result ≡ home_of self.now name }
    {
        match with_name(&self.outs, name) {
            Some(_) => None,
            None => with_name(&self.disks, name).map(|entry| &entry.1),
        }
    }

    // Counts a call, and says whether it is one that fails.
    fn is_failing(&mut self) -> bool
        ensures failing { IsTrue result ↔ Contains self.old.fails self.old.calls }
        ensures after { self.new ≡ with_call_made self.old }
    {
        let number = self.calls;
        self.calls = raised(number);
        self.fails.contains(&number)
    }

    fn disk_fault(&mut self) -> ShelfFault
        ensures fault { result ≡ Failed }
        ensures value { self.new ≡ record self.old { disk_faults = raised self.old.disk_faults } }
        ensures later { self.old.disk_faults ≤ self.new.disk_faults }
    {
        self.disk_faults = raised(self.disk_faults);
        ShelfFault::Failed
    }

    // The bytes of a file.
    fn file(&self, name: &str) -> Option<&[u8]>
        ensures { option_copied result ≡ file_of name.now self.now.files }
    {
        let (_, bytes) = self.files.iter().find(|file| file.0.as_str() == name)?;
        Some(bytes)
    }

    // The work of `whole`, whose clauses all follow from how this call ends.
    fn read(&mut self, name: &str, into: &mut [u8]) -> Result<u64, ShelfFault>
        ensures { ReadsWhole name.now self.old self.new into.old into.new result }
    {
        if self.is_failing() {
            self.faults = raised(self.faults);
            return Err(ShelfFault::Failed);
        }
        match self.file(name) {
            Some(bytes) => {
                put_prefix(into, bytes);
                Ok(bytes.len() as u64)
            }
            None => {
                self.faults = raised(self.faults);
                Err(ShelfFault::Failed)
            }
        }
    }

    // The work of `disk`, whose clauses all follow from how this call ends.
    fn take(&mut self, name: DiskName) -> Result<D, ShelfFault>
        ensures { TakesDisk D.told name self.old self.new result }
    {
        if self.is_failing() {
            return Err(self.disk_fault());
        }
        let Some(disk) = self.home(name) else {
            return Err(self.disk_fault());
        };
        let given = disk.faults();
        if self.outs.push((name, given)).is_err() {
            return Err(ShelfFault::Memory);
        }
        match take_first(&mut self.disks, name) {
            Some(disk) => Ok(disk),
            None => unreachable!(),
        }
    }
}

impl<D: Disk> Shelf for MemShelf<D> {
    type Disk = D;

    ghost told = { mem_holdings D.told };

    fn whole(&mut self, name: &str, into: &mut [u8]) -> Result<u64, ShelfFault>
        ensures reads { IfOk result (λ n.
            ReadsFile (file_of name.now self.old.files) into.old into.new n) }
        ensures disks { (mem_holdings D.told).disk self.new ≡ (mem_holdings D.told).disk self.old }
        ensures files { (mem_holdings D.told).file self.new ≡ (mem_holdings D.told).file self.old }
        ensures cause { FailsBy self.old.faults self.new.faults result }
        ensures disk_faults { self.new.disk_faults ≡ self.old.disk_faults }
        ensures fails { result ≡ Err Failed ↔ (Contains self.old.fails self.old.calls
            ⊎ (file_of name.now self.old.files ≡ None)) }
        ensures no_memory { result ≡ Err Memory → ⊥ }
        ensures ok { OnOk result (self.new ≡ with_call_made self.old) }
        ensures err { OnErr result (self.new ≡ record (with_call_made self.old)
            { faults = raised self.old.faults }) }
        ensures stays { OnErr result (into.new ≡ into.old) }
    {
        self.read(name, into)
    }

    fn disk(&mut self, name: DiskName) -> Result<D, ShelfFault>
        ensures reads { IfOk result (λ disk.
            reading_given ((mem_holdings D.told).disk self.old name) ≡ Some (D.told.reading disk)) }
        ensures out { IfOk result (λ disk.
            (mem_holdings D.told).disk self.new name ≡ Out (D.told.count disk)) }
        ensures none { OnErr result ((mem_holdings D.told).disk self.new
            ≡ (mem_holdings D.told).disk self.old) }
        ensures others { LeavesOthers (mem_holdings D.told) name self.old self.new }
        ensures files { (mem_holdings D.told).file self.new ≡ (mem_holdings D.told).file self.old }
        ensures cause { FailsBy self.old.disk_faults self.new.disk_faults result }
        ensures faults { self.new.faults ≡ self.old.faults }
        ensures fails { result ≡ Err Failed ↔ (Contains self.old.fails self.old.calls
            ⊎ (home_of self.old name ≡ None)) }
        ensures given { IfOk result (λ disk. home_of self.old name ≡ Some disk) }
        ensures ok { IfOk result (λ disk.
            self.new ≡ with_disk_out (with_call_made self.old) name (D.told.count disk)) }
        ensures failed { result ≡ Err Failed → self.new ≡ record (with_call_made self.old)
            { disk_faults = raised self.old.disk_faults } }
        ensures memory { result ≡ Err Memory → self.new ≡ with_call_made self.old }
    {
        self.take(name)
    }

    fn keep(&mut self, name: DiskName, disk: D)
        requires { IsOut ((mem_holdings D.told).disk self.old name) }
        ensures back { (mem_holdings D.told).disk self.new name ≡ OnShelf (D.told.reading disk) }
        ensures others { LeavesOthers (mem_holdings D.told) name self.old self.new }
        ensures files { (mem_holdings D.told).file self.new ≡ (mem_holdings D.told).file self.old }
        ensures counted { self.new.disk_faults
            ≡ count_when_back ((mem_holdings D.told).disk self.old name) (D.told.count disk)
            self.old.disk_faults }
        ensures later { self.old.disk_faults ≤ self.new.disk_faults }
        ensures faults { self.new.faults ≡ self.old.faults }
        ensures home { home_of self.new name ≡ Some disk }
        ensures after { self.new ≡ record (with_disk_home self.old name disk)
            { disk_faults = self.new.disk_faults } }
    {
        let given = match with_name(&self.outs, name) {
            Some(out) => out.1,
            None => unreachable!(),
        };
        self.disk_faults = count_when_back(given, disk.faults(), self.disk_faults);
        forget(&mut self.outs, name);
        // In prefix of any other disk that was handed in under the name.
        self.disks.insert(0, (name, disk)).unwrap();
    }

    fn faults(&self) -> u64 {
        self.faults
    }

    fn disk_faults(&self) -> u64 {
        self.disk_faults
    }
}

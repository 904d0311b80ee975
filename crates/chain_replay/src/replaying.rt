//! A whole script.

ghost use Rattle.std.specs.Prelude.{◌≡◌, ◌≤◌, ℕ, []};
ghost use Rattle.std.specs.Io.KnownBytes.{Appends};
ghost use Rattle.chain_replay.specs.Ends.{EndsChain};
ghost use Rattle.chain_replay.specs.Opened.{LeavesOthers, shelved};
ghost use Rattle.chain_replay.specs.Private.{AreBackAt, AreOut, AllRiseAt, AreHome, AreLeftAt};
ghost use Rattle.disk_model.specs.declared.name.Role.{Role};
ghost use Rattle.pump_chain.specs.Chained.{Chained};
ghost use Rattle.pump_chain.specs.Opening.{trio_of};
ghost use Rattle.pump_chain.specs.Standing.{ChainStandsOrFails};
ghost use Rattle.pump_frame.specs.Counts.{Rose};
ghost use Rattle.script_replay.specs.Failing.{FailsAt};
ghost use Rattle.script_replay.specs.Shelves.{AllAreBack};

use crate::disks::{put_six_back, take_six};
use crate::printing::stop;
use crate::rows::read_rows;
use crate::running::run;
use crate::unbegun::{chain_fault, end_unbegun};
use disk_model::Shelf;
use pump_chain::Chain;
use pump_link::{Sink, Source};
use script_reader::{Body, Fault, Lines};
use script_replay::Ended;
use std::alloc::Global;

// Puts the disks of a chain back on the shelf.
fn leave<S: Shelf>(chain: Chain<S::Disk>, one: u32, two: u32, shelf: &mut S)
    requires apart { one ≡ two → ⊥ }
    requires first { AreOut (S.told.disk shelf.old) one }
    requires second { AreOut (S.told.disk shelf.old) two }
    ensures left { S.told.tells → S.Disk.told.tells → (c : Chained) → ChainStandsOrFails S.Disk.told chain c
        → AreLeftAt (S.told.disk shelf.new) one c.first × AreLeftAt (S.told.disk shelf.new) two c.second }
    ensures first_back { S.told.tells → AreBackAt S.Disk.told (S.told.disk shelf.new) one (trio_of chain.first) }
    ensures second_back { S.told.tells → AreBackAt S.Disk.told (S.told.disk shelf.new) two (trio_of chain.second) }
    ensures first_rises { AllRiseAt S.Disk.told (S.told.disk shelf.old) one (trio_of chain.first)
        (S.told.disk_faults shelf.old) (S.told.disk_faults shelf.new) }
    ensures second_rises { AllRiseAt S.Disk.told (S.told.disk shelf.old) two (trio_of chain.second)
        (S.told.disk_faults shelf.old) (S.told.disk_faults shelf.new) }
    ensures home { S.told.tells → AreHome (S.told.disk shelf.new) one × AreHome (S.told.disk shelf.new) two }
    ensures others { LeavesOthers (S.told.disk shelf.old) (S.told.disk shelf.new) one two }
    ensures later { S.told.disk_faults shelf.old ≤ S.told.disk_faults shelf.new }
{
    put_six_back(shelf, one, two, chain.close());
}

/// Applies the lines of a script of two pumps in a row one after another, and writes what they print. The
/// second `session` line takes the disks of both sessions off the shelf. They are back on it at the
/// return, however it ends:
///
/// - `Done`: the script was read to its end, and its transcript was written.
/// - `Memory`: there was not enough memory; nothing was written, and a disk that was empty may be a new one.
/// - `Write`: the output could not be written; a prefix of what is to be written was.
/// - `Stopped`: what the lines before printed was written, what this line printed, and the fault: the
///   script could not be read; a line is outside the grammar or can't be applied, the end of the script
///   among them where two pumps have not begun; the two make no chain; a call of a disk failed; or a
///   message does not fit on a receiver's disk.
///
/// `EndsChain` says of each end what the output is, how much of the script was taken, and what is read of
/// the disks then. `docs/formats.md` has the statuses and the faults.
pub fn replay_chain<S: Shelf, I: Source, O: Sink>(
    alloc: Global,
    shelf: &mut S,
    script: &mut I,
    out: &mut O,
) -> Ended
    ensures ends { S.told.tells → S.Disk.told.tells
        → EndsChain (shelved (S.told.disk shelf.old) (S.told.disk shelf.new) (FailsAt S.told S.Disk.told shelf.old
        shelf.new)) (I.left script.old) (I.left script.new)
        (O.written out.old) (O.written out.new) (I.faults script.old) (I.faults script.new) result }
    ensures memory { result ≡ Ended.Memory → Appends (O.written out.old) (O.written out.new) [] }
    ensures words { result ≡ Ended.Stopped Fault.Words → ⊥ }
    ensures back { S.told.tells → AllAreBack (S.told.disk shelf.old) (S.told.disk shelf.new) }
    // A disk, a read and a write fail only where the count of the shelf, the source or the sink rose.
    ensures device { (session : ℕ) (role : Role) → result ≡ Ended.Stopped (Fault.Device session role)
        → Rose (S.told.disk_faults shelf.old) (S.told.disk_faults shelf.new) }
    ensures read { result ≡ Ended.Stopped Fault.Read → Rose (I.faults script.old) (I.faults script.new) }
    ensures write { result ≡ Ended.Write → Rose (O.faults out.old) (O.faults out.new) }
{
    let mut lines = Lines::new();
    let mut body = Body::new();
    let (one, two) = match read_rows(&mut lines, &mut body, script) {
        Ok(rows) => rows,
        Err(fault) => return stop(fault, out),
    };
    let disks = match take_six(shelf, one.id, two.id) {
        Ok(disks) => disks,
        Err(fault) => return end_unbegun(fault, out),
    };
    // The chain is matched where it is made: it has some KB.
    match Chain::open(alloc, &one, &two, disks) {
        Ok(mut chain) => {
            let ended = run(&mut chain, one.id, &mut lines, &mut body, script, out);
            leave(chain, one.id, two.id, shelf);
            ended
        }
        Err(refused) => {
            put_six_back(shelf, one.id, two.id, refused.disks);
            end_unbegun(chain_fault(two.id, &refused.why), out)
        }
    }
}

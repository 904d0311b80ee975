//! The six disks of two sessions, off the shelf and back on it.

ghost use Rattle.std.specs.Prelude.{◌≡◌, ◌≤◌, IfOk, IfErr, Some};
ghost use Rattle.chain_replay.specs.Opened.{LeavesOthers};
ghost use Rattle.chain_replay.specs.Private.{AreReadAt, AreOutAt, AreBackAt, AreOut, AllRiseAt, IsUntaken, IsUntakenAt};
ghost use Rattle.pump_frame.specs.Counts.{Rose};
ghost use Rattle.script_replay.specs.Failing.{IsNotGiven};
ghost use Rattle.script_replay.specs.Shelves.{AllAreBack, LeavesOtherSessions, ReadsAlike};

use disk_model::Shelf;
use pump_chain::Six;
use recovery::Trio;
use script_reader::Fault;
use script_replay::{put_disks_back, take_disks, untaken_fault};

fn take_trio<S: Shelf>(shelf: &mut S, session: u32) -> Result<Trio<S::Disk>, Option<Fault>>
    ensures read { IfOk result (λ t. S.told.tells → AreReadAt S.Disk.told (S.told.disk shelf.old) session t) }
    ensures out { IfOk result (λ t. AreOutAt S.Disk.told (S.told.disk shelf.new) session t) }
    ensures others { LeavesOtherSessions (S.told.disk shelf.old) (S.told.disk shelf.new) session }
    ensures alike { IfErr result (λ e. S.told.tells → ReadsAlike (S.told.disk shelf.old) (S.told.disk shelf.new)
        × AllAreBack (S.told.disk shelf.old) (S.told.disk shelf.new)) }
    ensures of { IfErr result (λ e. IsUntakenAt (IsNotGiven S.told (S.told.disk shelf.old)) session e) }
    ensures later { S.told.disk_faults shelf.old ≤ S.told.disk_faults shelf.new }
    ensures cause { IfErr result (λ e. (fault : _) → e ≡ Some fault
        → Rose (S.told.disk_faults shelf.old) (S.told.disk_faults shelf.new)) }
{
    match take_disks(shelf, session) {
        Ok(disks) => Ok(disks),
        Err(not_taken) => Err(untaken_fault(session, not_taken)),
    }
}

fn put_trio_back<S: Shelf>(shelf: &mut S, session: u32, disks: Trio<S::Disk>)
    requires { AreOut (S.told.disk shelf.old) session }
    ensures back { S.told.tells → AreBackAt S.Disk.told (S.told.disk shelf.new) session disks }
    ensures rises { AllRiseAt S.Disk.told (S.told.disk shelf.old) session disks (S.told.disk_faults shelf.old)
        (S.told.disk_faults shelf.new) }
    ensures others { LeavesOtherSessions (S.told.disk shelf.old) (S.told.disk shelf.new) session }
    ensures later { S.told.disk_faults shelf.old ≤ S.told.disk_faults shelf.new }
{
    put_disks_back(shelf, session, disks.low, disks.high, disks.recv);
}

/// Takes the disks of two sessions off the shelf, the first one's first. Where one can't be taken, those
/// before it are put back.
pub fn take_six<S: Shelf>(shelf: &mut S, one: u32, two: u32) -> Result<Six<S::Disk>, Option<Fault>>
    requires { one ≡ two → ⊥ }
    ensures first_read { IfOk result (λ six. S.told.tells
        → AreReadAt S.Disk.told (S.told.disk shelf.old) one six.first) }
    ensures second_read { IfOk result (λ six. S.told.tells
        → AreReadAt S.Disk.told (S.told.disk shelf.old) two six.second) }
    ensures first_out { IfOk result (λ six. AreOutAt S.Disk.told (S.told.disk shelf.new) one six.first) }
    ensures second_out { IfOk result (λ six. AreOutAt S.Disk.told (S.told.disk shelf.new) two six.second) }
    ensures others { LeavesOthers (S.told.disk shelf.old) (S.told.disk shelf.new) one two }
    ensures alike { IfErr result (λ e. S.told.tells → ReadsAlike (S.told.disk shelf.old) (S.told.disk shelf.new)
        × AllAreBack (S.told.disk shelf.old) (S.told.disk shelf.new)) }
    ensures of { IfErr result (λ e. IsUntaken (IsNotGiven S.told (S.told.disk shelf.old)) one two e) }
    ensures later { S.told.disk_faults shelf.old ≤ S.told.disk_faults shelf.new }
    ensures cause { IfErr result (λ e. (fault : _) → e ≡ Some fault
        → Rose (S.told.disk_faults shelf.old) (S.told.disk_faults shelf.new)) }
{
    let first = match take_trio(shelf, one) {
        Ok(first) => first,
        Err(fault) => return Err(fault),
    };
    match take_trio(shelf, two) {
        Ok(second) => Ok(Six { first, second }),
        Err(fault) => {
            put_trio_back(shelf, one, first);
            Err(fault)
        }
    }
}

/// Puts the disks of two sessions back under their names.
pub fn put_six_back<S: Shelf>(shelf: &mut S, one: u32, two: u32, disks: Six<S::Disk>)
    requires apart { one ≡ two → ⊥ }
    requires first { AreOut (S.told.disk shelf.old) one }
    requires second { AreOut (S.told.disk shelf.old) two }
    ensures first { S.told.tells → AreBackAt S.Disk.told (S.told.disk shelf.new) one disks.first }
    ensures second { S.told.tells → AreBackAt S.Disk.told (S.told.disk shelf.new) two disks.second }
    ensures first_rises { AllRiseAt S.Disk.told (S.told.disk shelf.old) one disks.first (S.told.disk_faults shelf.old)
        (S.told.disk_faults shelf.new) }
    ensures second_rises { AllRiseAt S.Disk.told (S.told.disk shelf.old) two disks.second (S.told.disk_faults shelf.old)
        (S.told.disk_faults shelf.new) }
    ensures others { LeavesOthers (S.told.disk shelf.old) (S.told.disk shelf.new) one two }
    ensures later { S.told.disk_faults shelf.old ≤ S.told.disk_faults shelf.new }
{
    put_trio_back(shelf, one, disks.first);
    put_trio_back(shelf, two, disks.second);
}

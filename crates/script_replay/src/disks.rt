//! The three disks of a session, off the shelf and back on it.

ghost use Rattle.std.specs.Prelude.{◌≡◌, ◌≤◌, IfOk, IfErr};
ghost use Rattle.disk_model.specs.Shelf.{IsOut, OnShelf};
ghost use Rattle.disk_model.specs.declared.name.Role.TheVariants as roles;
ghost use Rattle.disk_model.specs.declared.shelf.ShelfFault.TheVariants.{Failed};
ghost use Rattle.pump_frame.specs.Counts.{Rose};
ghost use Rattle.script_replay.specs.Shelves.{disk_name, LeavesOtherSessions, AllAreBack, ReadsAlike, Spares};
ghost use Rattle.script_replay.specs.Lending.{IsOutAt, ReadAt, RisesAt, AreOnShelf};
ghost use Rattle.script_replay.specs.Failing.{IsNotGiven};

use disk_model::{Disk, DiskName, Role, Shelf, ShelfFault};
use recovery::Trio;

/// Which disk could not be taken off the shelf, and why.
#[derive(Clone, Copy)]
pub struct NotTaken {
    pub role: Role,
    pub fault: ShelfFault,
}

/// Takes one disk of a session off the shelf.
pub fn take_disk<S: Shelf>(shelf: &mut S, session: u32, role: Role) -> Result<S::Disk, NotTaken>
    ensures read { IfOk result (λ disk. S.told.tells
        → ReadAt (S.told.disk shelf.old) session role (S.Disk.told.reading disk)) }
    ensures out { IfOk result (λ disk. IsOutAt (S.told.disk shelf.new) session role (S.Disk.told.count disk)) }
    ensures none { IfErr result (λ e. S.told.disk shelf.new ≡ S.told.disk shelf.old) }
    ensures role { IfErr result (λ e. e.role ≡ role) }
    ensures others { (name : DiskName) → (name ≡ disk_name session role → ⊥) → S.told.disk shelf.new name
        ≡ S.told.disk shelf.old name }
    ensures later { S.told.disk_faults shelf.old ≤ S.told.disk_faults shelf.new }
    ensures cause { IfErr result (λ e. e.fault ≡ Failed
        → Rose (S.told.disk_faults shelf.old) (S.told.disk_faults shelf.new)) }
{
    match shelf.disk(DiskName { session, role }) {
        Ok(disk) => Ok(disk),
        Err(fault) => Err(NotTaken { role, fault }),
    }
}

/// Takes the three disks of a session off the shelf, low's first. Where one can't be taken, those
/// before it are put back.
pub fn take_disks<S: Shelf>(shelf: &mut S, session: u32) -> Result<Trio<S::Disk>, NotTaken>
    ensures low { IfOk result (λ disks. S.told.tells
        → ReadAt (S.told.disk shelf.old) session roles.Low (S.Disk.told.reading disks.low)) }
    ensures high { IfOk result (λ disks. S.told.tells
        → ReadAt (S.told.disk shelf.old) session roles.High (S.Disk.told.reading disks.high)) }
    ensures recv { IfOk result (λ disks. S.told.tells
        → ReadAt (S.told.disk shelf.old) session roles.Recv (S.Disk.told.reading disks.recv)) }
    ensures low_out { IfOk result (λ disks. IsOutAt (S.told.disk shelf.new) session roles.Low
        (S.Disk.told.count disks.low)) }
    ensures high_out { IfOk result (λ disks. IsOutAt (S.told.disk shelf.new) session roles.High
        (S.Disk.told.count disks.high)) }
    ensures recv_out { IfOk result (λ disks. IsOutAt (S.told.disk shelf.new) session roles.Recv
        (S.Disk.told.count disks.recv)) }
    ensures others { LeavesOtherSessions (S.told.disk shelf.old) (S.told.disk shelf.new) session }
    ensures spared { IfErr result (λ e. S.told.tells → Spares (S.told.disk shelf.old) (S.told.disk shelf.new)
        × AllAreBack (S.told.disk shelf.old) (S.told.disk shelf.new)) }
    ensures alike { IfErr result (λ e. S.told.tells → ReadsAlike (S.told.disk shelf.old) (S.told.disk shelf.new)) }
    ensures later { S.told.disk_faults shelf.old ≤ S.told.disk_faults shelf.new }
    ensures cause { IfErr result (λ e. e.fault ≡ Failed
        → Rose (S.told.disk_faults shelf.old) (S.told.disk_faults shelf.new)) }
    ensures asked { IfErr result (λ e. e.fault ≡ Failed → IsNotGiven S.told (S.told.disk shelf.old) session e.role) }
{
    let low = take_disk(shelf, session, Role::Low)?;
    let high = match take_disk(shelf, session, Role::High) {
        Ok(high) => high,
        Err(not_taken) => {
            put_disk_back(shelf, session, Role::Low, low);
            return Err(not_taken);
        }
    };
    match take_disk(shelf, session, Role::Recv) {
        Ok(recv) => Ok(Trio { low, high, recv }),
        Err(not_taken) => {
            put_disk_back(shelf, session, Role::Low, low);
            put_disk_back(shelf, session, Role::High, high);
            Err(not_taken)
        }
    }
}

/// Puts a disk that was taken back under its name.
pub fn put_disk_back<S: Shelf>(shelf: &mut S, session: u32, role: Role, disk: S::Disk)
    requires { IsOut (S.told.disk shelf.old (disk_name session role)) }
    ensures back { S.told.tells → S.told.disk shelf.new (disk_name session role) ≡ OnShelf (S.Disk.told.reading disk) }
    ensures others { (name : DiskName) → (name ≡ disk_name session role → ⊥) → S.told.disk shelf.new name
        ≡ S.told.disk shelf.old name }
    ensures rises { RisesAt (S.told.disk shelf.old) session role (S.Disk.told.count disk) (S.told.disk_faults shelf.old)
        (S.told.disk_faults shelf.new) }
    ensures later { S.told.disk_faults shelf.old ≤ S.told.disk_faults shelf.new }
{
    shelf.keep(DiskName { session, role }, disk);
}

/// Puts the three disks of a session back under their names.
pub fn put_disks_back<S: Shelf>(
    shelf: &mut S,
    session: u32,
    low: S::Disk,
    high: S::Disk,
    recv: S::Disk,
)
    requires low { IsOut (S.told.disk shelf.old (disk_name session roles.Low)) }
    requires high { IsOut (S.told.disk shelf.old (disk_name session roles.High)) }
    requires recv { IsOut (S.told.disk shelf.old (disk_name session roles.Recv)) }
    ensures back { S.told.tells → AreOnShelf (S.told.disk shelf.new) session (S.Disk.told.reading low)
        (S.Disk.told.reading high) (S.Disk.told.reading recv) }
    ensures others { LeavesOtherSessions (S.told.disk shelf.old) (S.told.disk shelf.new) session }
    ensures low_rises { RisesAt (S.told.disk shelf.old) session roles.Low (S.Disk.told.count low)
        (S.told.disk_faults shelf.old) (S.told.disk_faults shelf.new) }
    ensures high_rises { RisesAt (S.told.disk shelf.old) session roles.High (S.Disk.told.count high)
        (S.told.disk_faults shelf.old) (S.told.disk_faults shelf.new) }
    ensures recv_rises { RisesAt (S.told.disk shelf.old) session roles.Recv (S.Disk.told.count recv)
        (S.told.disk_faults shelf.old) (S.told.disk_faults shelf.new) }
    ensures later { S.told.disk_faults shelf.old ≤ S.told.disk_faults shelf.new }
{
    put_disk_back(shelf, session, Role::Low, low);
    put_disk_back(shelf, session, Role::High, high);
    put_disk_back(shelf, session, Role::Recv, recv);
}

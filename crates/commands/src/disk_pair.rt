//! The low and the high disk of a session, off the shelf and back on it.

ghost use Rattle.std.specs.Prelude.{◌≡◌, ◌⊎◌, ◌≤◌, IfOk, IfErr};
ghost use Rattle.disk_model.specs.Shelf.{IsOut, OnShelf};
ghost use Rattle.disk_model.specs.declared.name.Role.TheVariants as roles;
ghost use Rattle.disk_model.specs.declared.shelf.ShelfFault.TheVariants.{Failed};
ghost use Rattle.pump_frame.specs.Counts.{Rose};
ghost use Rattle.script_replay.specs.Failing.{IsNotGiven};
ghost use Rattle.script_replay.specs.Lending.{IsOutAt, ReadAt, RisesAt};
ghost use Rattle.script_replay.specs.Shelves.{disk_name, AllAreBack, ReadsAlike};
ghost use Rattle.commands.specs.LentDisks.{LeavesBut};

use disk_model::{Role, Shelf};
use script_replay::{NotTaken, put_disk_back, take_disk};

/// The low and the high disk of a session, off the shelf.
#[derive(Drop)]
pub struct DiskPair<D> {
    pub low: D,
    pub high: D,
}

/// Takes the low and the high disk of a session off the shelf, the low one first. Where the second can't
/// be taken, the first is put back.
pub fn take_pair<S: Shelf>(shelf: &mut S, session: u32) -> Result<DiskPair<S::Disk>, NotTaken>
    ensures low { IfOk result (λ disks. S.told.tells
        → ReadAt (S.told.disk shelf.old) session roles.Low (S.Disk.told.reading disks.low)) }
    ensures high { IfOk result (λ disks. S.told.tells
        → ReadAt (S.told.disk shelf.old) session roles.High (S.Disk.told.reading disks.high)) }
    ensures low_out { IfOk result (λ disks. IsOutAt (S.told.disk shelf.new) session roles.Low
        (S.Disk.told.count disks.low)) }
    ensures high_out { IfOk result (λ disks. IsOutAt (S.told.disk shelf.new) session roles.High
        (S.Disk.told.count disks.high)) }
    ensures others { LeavesBut (S.told.disk shelf.old) (S.told.disk shelf.new) session }
    ensures alike { IfErr result (λ e. S.told.tells → ReadsAlike (S.told.disk shelf.old) (S.told.disk shelf.new)) }
    ensures back { IfErr result (λ e. S.told.tells → AllAreBack (S.told.disk shelf.old) (S.told.disk shelf.new)) }
    ensures role { IfErr result (λ e. (e.role ≡ roles.Low) ⊎ (e.role ≡ roles.High)) }
    ensures later { S.told.disk_faults shelf.old ≤ S.told.disk_faults shelf.new }
    ensures cause { IfErr result (λ e. e.fault ≡ Failed
        → Rose (S.told.disk_faults shelf.old) (S.told.disk_faults shelf.new)) }
    ensures asked { IfErr result (λ e. e.fault ≡ Failed → IsNotGiven S.told (S.told.disk shelf.old) session e.role) }
{
    let low = take_disk(shelf, session, Role::Low)?;
    match take_disk(shelf, session, Role::High) {
        Ok(high) => Ok(DiskPair { low, high }),
        Err(not_taken) => {
            put_disk_back(shelf, session, Role::Low, low);
            Err(not_taken)
        }
    }
}

/// Puts the two disks of a session back under their names.
pub fn put_pair_back<S: Shelf>(shelf: &mut S, session: u32, low: S::Disk, high: S::Disk)
    requires low { IsOut (S.told.disk shelf.old (disk_name session roles.Low)) }
    requires high { IsOut (S.told.disk shelf.old (disk_name session roles.High)) }
    ensures low_back { S.told.tells → S.told.disk shelf.new (disk_name session roles.Low)
        ≡ OnShelf (S.Disk.told.reading low) }
    ensures high_back { S.told.tells → S.told.disk shelf.new (disk_name session roles.High)
        ≡ OnShelf (S.Disk.told.reading high) }
    ensures others { LeavesBut (S.told.disk shelf.old) (S.told.disk shelf.new) session }
    ensures low_rises { RisesAt (S.told.disk shelf.old) session roles.Low (S.Disk.told.count low)
        (S.told.disk_faults shelf.old) (S.told.disk_faults shelf.new) }
    ensures high_rises { RisesAt (S.told.disk shelf.old) session roles.High (S.Disk.told.count high)
        (S.told.disk_faults shelf.old) (S.told.disk_faults shelf.new) }
    ensures later { S.told.disk_faults shelf.old ≤ S.told.disk_faults shelf.new }
{
    put_disk_back(shelf, session, Role::Low, low);
    put_disk_back(shelf, session, Role::High, high);
}

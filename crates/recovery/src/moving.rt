// Moving the disks of a session to new ones.
ghost use Rattle.std.specs.Prelude.{◌≡◌, ◌+◌, ◌^◌, ◌<◌, ◌≤◌, ℕ, List, [], length, true, false, None, Some, IfOk, OnOk};
ghost use Rattle.std.specs.Prelude.{IfErr};
ghost use Rattle.pump_frame.specs.Rows.{IsLawfulRow};
ghost use Rattle.disk_model.specs.Disk.{Moves, Same, Settled};
ghost use Rattle.stable_buffer.specs.Register.{value_of};
ghost use Rattle.stable_buffer.specs.Stands.{LowStands};
ghost use Rattle.stable_buffer.specs.Log.{RecvStands};
ghost use Rattle.recovery.specs.Calls.{is_device};
ghost use Rattle.recovery.specs.Refusals.{or_else};
ghost use Rattle.recovery.specs.Moves.{StandFor, AreFound, IsMoveRefused, disk_at, first_full, first_unfit, AreWritten};
ghost use Rattle.recovery.specs.Writings.{AreKept, AreCounted, StandMoved, AreFilled, AreMade};
ghost use Rattle.recovery.specs.declared.trio.MoveFault.{MoveFault};
ghost use Rattle.recovery.specs.declared.why.Why.TheVariants.{Device};

use crate::filling::{write_high, write_low, write_recv};
use crate::fitting::{check_empty, check_fit};
use crate::survey::{Counts, survey};
use crate::{Migrated, MoveFault, Trio};
use disk_model::Disk;
use pump_frame::SessionRow;

// Whether the new disks are empty, and all that the old ones hold fits the new row.
fn check_all<D: Disk>(
    old: &mut Trio<D>,
    new: &mut Trio<D>,
    from: &SessionRow,
    to: &SessionRow,
    counts: &Counts,
) -> Result<(), MoveFault>
    requires from { IsLawfulRow from.now }
    requires order { (counts.now.removed ≤ counts.now.received) × (counts.now.received ≤ counts.now.accepted) }
    requires count { counts.now.accepted ≤ 2 ^ 48 }
    requires end { 80 ≤ counts.now.end }

    ensures room { OnOk result (counts.now.accepted ≤ counts.now.removed + to.now.capacity) }
    ensures empty { OnOk result (D.told.tells → (D.told.reading new.new.low ≡ []) × (D.told.reading new.new.high ≡ [])
        × (D.told.reading new.new.recv ≡ [])) }
    ensures fine { OnOk result (D.told.tells → (live received : List (List ℕ)) → length received ≡ counts.now.received
        → (value_of (D.told.reading old.old.recv)).1 ≡ counts.now.end
        → LowStands from.now counts.now.accepted counts.now.removed live (D.told.reading old.old.low)
        → RecvStands from.now received (D.told.reading old.old.recv)
        → or_else (first_full (D.told.reading new.old.low) (D.told.reading new.old.high) (D.told.reading new.old.recv))
        (first_unfit to.now counts.now.removed live received) ≡ None) }
    ensures unfit { OnOk result (D.told.tells → (live received : List (List ℕ)) → length received ≡ counts.now.received
        → (value_of (D.told.reading old.old.recv)).1 ≡ counts.now.end
        → LowStands from.now counts.now.accepted counts.now.removed live (D.told.reading old.old.low)
        → RecvStands from.now received (D.told.reading old.old.recv)
        → first_unfit to.now counts.now.removed live received ≡ None) }
    ensures exact { IfErr result (λ f. is_device f.why ≡ false → D.told.tells → (live received : List (List ℕ))
        → length received ≡ counts.now.received → (value_of (D.told.reading old.old.recv)).1 ≡ counts.now.end
        → LowStands from.now counts.now.accepted counts.now.removed live (D.told.reading old.old.low)
        → RecvStands from.now received (D.told.reading old.old.recv)
        → or_else (first_full (D.told.reading new.old.low) (D.told.reading new.old.high) (D.told.reading new.old.recv))
        (first_unfit to.now counts.now.removed live received) ≡ Some f) }
    ensures device { IfErr result (λ f. is_device f.why ≡ true
        → f.why ≡ Device (D.told.count (disk_at old.new new.new f.new f.role))) }
    ensures old_disks { AreKept D.told false old.old old.new result }
    ensures new_disks { AreKept D.told true new.old new.new result }
{
    check_empty(new)?;
    check_fit(old, from, to, counts)?;
    Ok(())
}

// Writes the three new disks.
fn write_all<D: Disk>(
    old: &mut Trio<D>,
    new: &mut Trio<D>,
    from: &SessionRow,
    to: &SessionRow,
    counts: &Counts,
) -> Result<(), MoveFault>
    requires from { IsLawfulRow from.now }
    requires to { IsLawfulRow to.now }
    requires empty { D.told.tells → (D.told.reading new.old.low ≡ []) × (D.told.reading new.old.high ≡ [])
        × (D.told.reading new.old.recv ≡ []) }
    requires count { counts.now.accepted ≤ 2 ^ 48 }
    requires held { (counts.now.removed ≤ counts.now.accepted)
        × (counts.now.accepted ≤ counts.now.removed + to.now.capacity) }
    requires received { counts.now.received ≤ counts.now.accepted }
    requires end { (80 ≤ counts.now.end) × (counts.now.end < 2 ^ 64) }

    ensures moved { OnOk result (StandMoved D.told from.now to.now counts.now old.old new.new) }
    ensures made { AreFilled D.told from.now to.now counts.now old.old new.old new.new result }
    ensures device { IfErr result (λ f. (is_device f.why ≡ true)
        × (f.why ≡ Device (D.told.count (disk_at old.new new.new f.new f.role)))) }
    ensures old_disks { AreKept D.told false old.old old.new result }
    ensures new_disks { AreCounted D.told new.old new.new result }
{
    write_low(&mut old.low, &mut new.low, from, to, counts)?;
    write_high(&mut new.high, to, counts)?;
    write_recv(&mut old.recv, &mut new.recv, to, counts)?;
    Ok(())
}

/// Moves a session to three new disks: after an `Ok`, which holds how many messages were accepted,
/// removed and received, they stand with the row `to` for what the old ones stand for with the row
/// `from`. The old disks are never written, and a new disk only where all three are empty and
/// nothing is refused. They are written in turn, low's, high's and the receiver's, and each is no
/// buffer until it is whole, whenever a crash comes. Low's has zeros wherever no message stands, and
/// the receiver's ends with its records. No memory is taken.
///
/// The first refusal comes in this order: of the old disks, in the order of `docs/formats.md`,
/// "Disks", where the receiver's may be filled to `size` bytes; `NotEmpty` of a new disk, low's,
/// high's, then the receiver's; `Small`; `TooLong` of the least message. `Device` comes where a call
/// of that disk failed; after it the new disks are to be emptied.
pub fn migrate<D: Disk>(
    from: &SessionRow,
    to: &SessionRow,
    old: Trio<D>,
    mut new: Trio<D>,
    size: u64,
) -> Migrated<D>
    requires from { IsLawfulRow from.now }
    requires to { IsLawfulRow to.now }

    ensures moved { IfOk result.end (λ n. D.told.tells → (live received : List (List ℕ))
        × AreFound from.now size n.0 n.1 live received (D.told.reading old.low) (D.told.reading old.high)
        (D.told.reading old.recv)
        × (length received ≡ n.2)
        × (first_full (D.told.reading new.low) (D.told.reading new.high) (D.told.reading new.recv) ≡ None)
        × StandFor to.now n.0 n.1 live received (D.told.reading result.new.low) (D.told.reading result.new.high)
        (D.told.reading result.new.recv)
        × AreWritten to.now n.0 n.1 n.2 live (D.told.reading old.recv) (D.told.reading result.new.low)
        (D.told.reading result.new.high) (D.told.reading result.new.recv)) }
    ensures settled { OnOk result.end (Settled D.told result.new.low × Settled D.told result.new.high
        × Settled D.told result.new.recv) }

    // The first refusal in the order, exactly where it holds, and nothing else but a device.
    ensures fine { OnOk result.end (D.told.tells → (f : MoveFault)
        → IsMoveRefused from.now to.now size (D.told.reading old.low) (D.told.reading old.high)
        (D.told.reading old.recv)
        (D.told.reading new.low) (D.told.reading new.high) (D.told.reading new.recv) f → ⊥) }
    ensures exact { IfErr result.end (λ f. is_device f.why ≡ false → D.told.tells
        → IsMoveRefused from.now to.now size (D.told.reading old.low) (D.told.reading old.high)
        (D.told.reading old.recv)
        (D.told.reading new.low) (D.told.reading new.high) (D.told.reading new.recv) f) }
    ensures device { IfErr result.end (λ f. is_device f.why ≡ true
        → f.why ≡ Device (D.told.count (disk_at result.old result.new f.new f.role))) }

    // No old disk is written, and a new one only where nothing is refused.
    ensures old_disks { AreKept D.told false old result.old result.end }
    ensures new_disks { AreCounted D.told new result.new result.end }
    ensures unwritten { D.told.tells → (f : MoveFault)
        → IsMoveRefused from.now to.now size (D.told.reading old.low) (D.told.reading old.high)
        (D.told.reading old.recv)
        (D.told.reading new.low) (D.told.reading new.high) (D.told.reading new.recv) f
        → Moves D.told Same new.low result.new.low × Moves D.told Same new.high result.new.high
        × Moves D.told Same new.recv result.new.recv }

    // Where a new disk is not empty no new disk is written, whatever comes.
    ensures full { D.told.tells → (first_full (D.told.reading new.low) (D.told.reading new.high)
        (D.told.reading new.recv) ≡ None → ⊥)
        → Moves D.told Same new.low result.new.low × Moves D.told Same new.high result.new.high
        × Moves D.told Same new.recv result.new.recv }

    // The new disks are written in turn. A crash at any moment leaves of each no buffer, or one that
    // stands for just this.
    ensures made { (E B : ℕ) (live received : List (List ℕ))
        → StandFor from.now E B live received (D.told.reading old.low) (D.told.reading old.high)
        (D.told.reading old.recv)
        → AreMade D.told to.now E B live received new result.new result.end }
{
    let surveyed = survey(from, old, size);
    let mut old = surveyed.disks;
    let counts = match surveyed.end {
        Ok(counts) => counts,
        Err(fault) => {
            return Migrated {
                old,
                new,
                end: Err(fault),
            };
        }
    };
    if let Err(fault) = check_all(&mut old, &mut new, from, to, &counts) {
        return Migrated {
            old,
            new,
            end: Err(fault),
        };
    }
    if let Err(fault) = write_all(&mut old, &mut new, from, to, &counts) {
        return Migrated {
            old,
            new,
            end: Err(fault),
        };
    }
    Migrated {
        old,
        new,
        end: Ok((counts.accepted, counts.removed, counts.received)),
    }
}

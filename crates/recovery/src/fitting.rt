// Whether the new disks are empty, and what doesn't fit the new row.
ghost use Rattle.std.specs.Prelude.{◌≡◌, ◌+◌, ◌-◌, ◌^◌, ◌<◌, ◌≤◌, ℕ, List, [], length, drop, true, false, None, Some};
ghost use Rattle.std.specs.Prelude.{Err, IfOk, OnOk, IfErr};
ghost use Rattle.pump_frame.specs.Rows.{IsLawfulRow};
ghost use Rattle.disk_model.specs.declared.name.Role.TheVariants.{Low as LowRole, High as HighRole, Recv as RecvRole};
ghost use Rattle.stable_buffer.specs.Numbers.{length_at};
ghost use Rattle.stable_buffer.specs.Stands.{LowStands, slot_of};
ghost use Rattle.stable_buffer.specs.Log.{Records, RecvStands, log_of};
ghost use Rattle.stable_buffer.specs.Register.{value_of};
ghost use Rattle.recovery.specs.Refusals.{told_of};
ghost use Rattle.recovery.specs.Calls.{is_device};
ghost use Rattle.recovery.specs.Moves.{full, small, too_long, fault_of, first_full, first_unfit, IsKept, is_blamed};
ghost use Rattle.recovery.specs.Moves.{disk_of};
ghost use Rattle.recovery.specs.declared.why.Why.TheVariants.{Device};

use crate::survey::{Counts, old_fault};
use crate::{MoveFault, Trio, Why};
use disk_model::{Disk, DiskFault, Role};
use pump_frame::SessionRow;
use stable_buffer::slot_place;

/// A fault of a new disk.
pub fn new_fault(role: Role, why: Why) -> MoveFault
    ensures { result ≡ record { new = true; role = role; why = why } }
{
    MoveFault {
        new: true,
        role,
        why,
    }
}

// Whether a new disk is empty.
fn check_size<D: Disk>(disk: &mut D, role: Role) -> Result<(), MoveFault>
    ensures fine { OnOk result (D.told.tells → D.told.reading disk.old ≡ []) }
    ensures exact { IfErr result (λ f. is_device f.why ≡ false → D.told.tells
        → fault_of true (full role (D.told.reading disk.old)) ≡ Some f) }
    ensures device { IfErr result (λ f. is_device f.why ≡ true
        → (f.new ≡ true) × (f.role ≡ role) × (f.why ≡ Device (D.told.count disk.new))) }
    ensures kept { IsKept D.told disk.old disk.new (is_blamed true role result) }
{
    match disk.size() {
        Ok(0) => Ok(()),
        Ok(size) => Err(new_fault(role, Why::NotEmpty { size })),
        Err(DiskFault) => {
            let faults = disk.faults();
            Err(new_fault(role, Why::Device { faults }))
        }
    }
}

/// Whether the three new disks are empty.
pub fn check_empty<D: Disk>(new: &mut Trio<D>) -> Result<(), MoveFault>
    ensures fine { OnOk result (D.told.tells → (D.told.reading new.old.low ≡ []) × (D.told.reading new.old.high ≡ [])
        × (D.told.reading new.old.recv ≡ [])) }
    ensures exact { IfErr result (λ f. is_device f.why ≡ false → D.told.tells
        → first_full (D.told.reading new.old.low) (D.told.reading new.old.high) (D.told.reading new.old.recv)
        ≡ Some f) }
    ensures device { IfErr result (λ f. is_device f.why ≡ true
        → (f.new ≡ true) × (f.why ≡ Device (D.told.count (disk_of new.new f.role)))) }
    ensures low { IsKept D.told new.old.low new.new.low (is_blamed true LowRole result) }
    ensures high { IsKept D.told new.old.high new.new.high (is_blamed true HighRole result) }
    ensures recv { IsKept D.told new.old.recv new.new.recv (is_blamed true RecvRole result) }
{
    check_size(&mut new.low, Role::Low)?;
    check_size(&mut new.high, Role::High)?;
    check_size(&mut new.recv, Role::Recv)?;
    Ok(())
}

/// The length that stands at an offset of an old disk.
pub fn read_length<D: Disk>(disk: &mut D, at: u64, role: Role) -> Result<u32, MoveFault>
    ensures length { IfOk result (λ l. D.told.tells → l ≡ length_at (D.told.reading disk.old) at) }
    ensures small { IfOk result (λ l. l < 2 ^ 16) }
    ensures device { IfErr result (λ f. (f.new ≡ false) × (f.role ≡ role) × (f.why ≡ Device (D.told.count disk.new))) }
    ensures kept { IsKept D.told disk.old disk.new (is_blamed false role result) }
{
    let mut head = [0; 2];
    if let Err(DiskFault) = disk.read(at, &mut head) {
        let faults = disk.faults();
        return Err(old_fault(role, Why::Device { faults }));
    }
    Ok(stable_buffer::read_length(&head))
}

// Whether a record of the receiver's is longer than the new row lets it be.
fn check_records<D: Disk>(recv: &mut D, to: &SessionRow, counts: &Counts) -> Result<(), MoveFault>
    requires from { 80 ≤ counts.now.end }

    ensures fine { OnOk result (D.told.tells → (most : ℕ) (received : List (List ℕ))
        → length received ≡ counts.now.received
        → counts.now.end ≤ length (D.told.reading recv.old)
        → Records most received (log_of counts.now.end (D.told.reading recv.old)) → too_long to.now 0 received ≡ None) }
    ensures exact { IfErr result (λ f. is_device f.why ≡ false → D.told.tells → (most : ℕ) (received : List (List ℕ))
        → length received ≡ counts.now.received → counts.now.end ≤ length (D.told.reading recv.old)
        → Records most received (log_of counts.now.end (D.told.reading recv.old))
        → fault_of false (told_of RecvRole (too_long to.now 0 received)) ≡ Some f) }
    ensures device { IfErr result (λ f. is_device f.why ≡ true
        → (f.new ≡ false) × (f.role ≡ RecvRole) × (f.why ≡ Device (D.told.count recv.new))) }
    ensures kept { IsKept D.told recv.old recv.new (is_blamed false RecvRole result) }
{
    let mut at = 80;
    for number in 0..counts.received {
        let length = read_length(recv, at, Role::Recv)?;
        if length > to.message {
            return Err(old_fault(Role::Recv, Why::TooLong { number, length }));
        }
        // The records of a disk that tells nothing may go past their end.
        if counts.end - at < 2 + length as u64 {
            return Ok(());
        }
        at += 2 + length as u64;
    }
    Ok(())
}

/// Where message n stands on low's disk.
pub fn place(row: &SessionRow, n: u64) -> u64
    requires lawful { IsLawfulRow row.now }
    ensures place { result ≡ slot_of row.now n }
    ensures low { result ≤ 262736 }
{
    slot_place(row, n)
}

// Whether one of low's messages that the receiver hasn't is longer than the new row lets it be.
fn check_slots<D: Disk>(
    low: &mut D,
    from: &SessionRow,
    to: &SessionRow,
    counts: &Counts,
) -> Result<(), MoveFault>
    requires lawful { IsLawfulRow from.now }
    requires order { (counts.now.removed ≤ counts.now.received) × (counts.now.received ≤ counts.now.accepted) }
    requires count { counts.now.accepted ≤ 2 ^ 48 }

    ensures fine { OnOk result (D.told.tells → (live : List (List ℕ))
        → LowStands from.now counts.now.accepted counts.now.removed live (D.told.reading low.old)
        → too_long to.now counts.now.received (drop (counts.now.received - counts.now.removed) live) ≡ None) }
    ensures exact { IfErr result (λ f. is_device f.why ≡ false → D.told.tells → (live : List (List ℕ))
        → LowStands from.now counts.now.accepted counts.now.removed live (D.told.reading low.old)
        → fault_of false (told_of LowRole (too_long to.now counts.now.received
        (drop (counts.now.received - counts.now.removed) live))) ≡ Some f) }
    ensures device { IfErr result (λ f. is_device f.why ≡ true
        → (f.new ≡ false) × (f.role ≡ LowRole) × (f.why ≡ Device (D.told.count low.new))) }
    ensures kept { IsKept D.told low.old low.new (is_blamed false LowRole result) }
{
    for number in counts.received..counts.accepted {
        let length = read_length(low, place(from, number), Role::Low)?;
        if length > to.message {
            return Err(old_fault(Role::Low, Why::TooLong { number, length }));
        }
    }
    Ok(())
}

/// Whether all that the old disks hold fits the new row.
pub fn check_fit<D: Disk>(
    old: &mut Trio<D>,
    from: &SessionRow,
    to: &SessionRow,
    counts: &Counts,
) -> Result<(), MoveFault>
    requires from { IsLawfulRow from.now }
    requires order { (counts.now.removed ≤ counts.now.received) × (counts.now.received ≤ counts.now.accepted) }
    requires count { counts.now.accepted ≤ 2 ^ 48 }
    requires end { 80 ≤ counts.now.end }

    ensures room { OnOk result (counts.now.accepted ≤ counts.now.removed + to.now.capacity) }
    ensures fine { OnOk result (D.told.tells → (live received : List (List ℕ)) → length received ≡ counts.now.received
        → (value_of (D.told.reading old.old.recv)).1 ≡ counts.now.end
        → LowStands from.now counts.now.accepted counts.now.removed live (D.told.reading old.old.low)
        → RecvStands from.now received (D.told.reading old.old.recv)
        → first_unfit to.now counts.now.removed live received ≡ None) }
    ensures exact { IfErr result (λ f. is_device f.why ≡ false → D.told.tells → (live received : List (List ℕ))
        → length received ≡ counts.now.received → (value_of (D.told.reading old.old.recv)).1 ≡ counts.now.end
        → LowStands from.now counts.now.accepted counts.now.removed live (D.told.reading old.old.low)
        → RecvStands from.now received (D.told.reading old.old.recv)
        → first_unfit to.now counts.now.removed live received ≡ Some f) }
    ensures device { IfErr result (λ f. is_device f.why ≡ true
        → (f.new ≡ false) × (f.why ≡ Device (D.told.count (disk_of old.new f.role)))) }
    ensures low { IsKept D.told old.old.low old.new.low (is_blamed false LowRole result) }
    ensures high { IsKept D.told old.old.high old.new.high (is_blamed false HighRole result) }
    ensures recv { IsKept D.told old.old.recv old.new.recv (is_blamed false RecvRole result) }
{
    let held = counts.accepted - counts.removed;
    if held > to.capacity as u64 {
        let why = Why::Small {
            held,
            capacity: to.capacity,
        };
        return Err(old_fault(Role::Low, why));
    }
    check_records(&mut old.recv, to, counts)?;
    check_slots(&mut old.low, from, to, counts)?;
    Ok(())
}

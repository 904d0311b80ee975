// Writing the new disks.
ghost use Rattle.std.specs.Prelude.{◌≡◌, ◌+◌, ◌-◌, ◌^◌, ◌<◌, ◌≤◌, ℕ, List, [], length, take, drop, true, false, OnOk};
ghost use Rattle.std.specs.Prelude.{IfErr};
ghost use Rattle.pump_frame.specs.Rows.{IsLawfulRow};
ghost use Rattle.disk_model.specs.Disk.{Moves, Torn, IsWritten, Each, Settled};
ghost use Rattle.disk_model.specs.declared.name.Role.{Role};
ghost use Rattle.disk_model.specs.declared.name.Role.TheVariants.{Low as LowRole, High as HighRole, Recv as RecvRole};
ghost use Rattle.stable_buffer.specs.Making.{KeepsFirst, LeavesFrom, HasZeros, IsNone, IsNoneOr, marked};
ghost use Rattle.stable_buffer.specs.Format.{bare_bytes};
ghost use Rattle.pump_frame.specs.declared.row.SessionRow.{SessionRow};
ghost use Rattle.stable_buffer.specs.Register.{value_of};
ghost use Rattle.stable_buffer.specs.Stands.{InSlot, LowStands, HighStands, low_size};
ghost use Rattle.stable_buffer.specs.Log.{RecvStands};
ghost use Rattle.std.specs.List.{All};
ghost use Rattle.recovery.specs.Deals.{InSlots};
ghost use Rattle.recovery.specs.Moves.{IsKept, Counted, is_blamed, with_message, with_messages, low_bytes, high_bytes};
ghost use Rattle.recovery.specs.Moves.{recv_bytes};
ghost use Rattle.recovery.specs.declared.why.Why.TheVariants.{Device};
ghost use Rattle.recovery.specs.Fillings.{IsBlamedOne, IsMadeFrom};

use crate::fitting::{new_fault, place, read_length};
use crate::survey::{Counts, old_fault};
use crate::{MoveFault, Why};
use disk_model::{Disk, DiskFault, Role};
use pump_frame::SessionRow;
use stable_buffer::{begin, finish};

// The most bytes that are copied at once.
const PIECE: u64 = 4096;

// Copies a piece of an old disk to a place on the new one, by way of a room of its length.
fn copy_piece<D: Disk>(
    source: &mut D,
    at: u64,
    target: &mut D,
    to: u64,
    piece: &mut [u8],
    role: Role,
) -> Result<(), MoveFault>
    requires starts { D.told.tells → to ≤ length (D.told.reading target.old) }

    ensures within { OnOk result (D.told.tells → at + length piece.old ≤ length (D.told.reading source.old)) }
    ensures written { OnOk result (D.told.tells
        → IsWritten (D.told.reading target.old) to (take (length piece.old) (drop at (D.told.reading source.old)))
        (D.told.reading target.new)) }
    ensures moves { Moves D.told (Torn to (length piece.old)) target.old target.new }
    ensures kept { IsKept D.told source.old source.new (is_blamed false role result) }
    ensures counted { Counted D.told target.old target.new (is_blamed true role result) }
    ensures one { IfErr result (λ f. IsBlamedOne D.told role source.new target.new f) }
{
    if let Err(DiskFault) = source.read(at, piece) {
        let faults = source.faults();
        return Err(old_fault(role, Why::Device { faults }));
    }
    if let Err(DiskFault) = target.write_at(to, piece) {
        let faults = target.faults();
        return Err(new_fault(role, Why::Device { faults }));
    }
    Ok(())
}

// Copies bytes of an old disk to a place on the new one.
fn copy_bytes<D: Disk>(
    source: &mut D,
    at: u64,
    target: &mut D,
    to: u64,
    count: u64,
    role: Role,
) -> Result<(), MoveFault>
    requires ends { (at + count < 2 ^ 64) × (to + count < 2 ^ 64) }
    requires starts { D.told.tells → to ≤ length (D.told.reading target.old) }

    ensures written { OnOk result (D.told.tells
        → IsWritten (D.told.reading target.old) to (take count (drop at (D.told.reading source.old)))
        (D.told.reading target.new)) }
    ensures moves { Moves D.told (KeepsFirst to) target.old target.new }
    ensures kept { IsKept D.told source.old source.new (is_blamed false role result) }
    ensures counted { Counted D.told target.old target.new (is_blamed true role result) }
    ensures one { IfErr result (λ f. IsBlamedOne D.told role source.new target.new f) }
{
    let mut room = [0; PIECE as usize];
    let mut done = 0;
    while done < count {
        let size = (count - done).min(PIECE);
        let piece = &mut room[..size as usize];
        copy_piece(source, at + done, target, to + done, piece, role)?;
        done += size;
    }
    Ok(())
}

// Copies message n from low's old disk to its slot on the new one.
fn copy_message<D: Disk>(
    source: &mut D,
    target: &mut D,
    from: &SessionRow,
    to: &SessionRow,
    n: u64,
) -> Result<(), MoveFault>
    requires from { IsLawfulRow from.now }
    requires to { IsLawfulRow to.now }
    requires size { D.told.tells → length (D.told.reading target.old) ≡ low_size to.now }

    ensures copied { OnOk result (D.told.tells → (message : List ℕ)
        → InSlot from.now n message (D.told.reading source.old)
        → length message ≤ to.now.message
        → InSlot to.now n message (D.told.reading target.new)) }
    ensures put { OnOk result (D.told.tells → (message : List ℕ) → InSlot from.now n message (D.told.reading source.old)
        → length message ≤ to.now.message
        → D.told.reading target.new ≡ with_message to.now n message (D.told.reading target.old)) }
    ensures others { OnOk result (D.told.tells → (k : ℕ) (message : List ℕ) → k < n → n < k + to.now.capacity
        → InSlot to.now k message (D.told.reading target.old) → InSlot to.now k message (D.told.reading target.new)) }
    ensures size { OnOk result (D.told.tells → length (D.told.reading target.new) ≡ low_size to.now) }
    ensures moves { Moves D.told (KeepsFirst 80) target.old target.new }
    ensures kept { IsKept D.told source.old source.new (is_blamed false LowRole result) }
    ensures counted { Counted D.told target.old target.new (is_blamed true LowRole result) }
    ensures one { IfErr result (λ f. IsBlamedOne D.told LowRole source.new target.new f) }
{
    let at = place(from, n);
    let length = read_length(source, at, Role::Low)?;
    // On a disk that tells nothing it may be too long for its slot.
    if length > to.message || length > from.message {
        return Ok(());
    }
    copy_bytes(
        source,
        at,
        target,
        place(to, n),
        2 + length as u64,
        Role::Low,
    )
}

// Copies the messages that are not removed.
fn copy_messages<D: Disk>(
    source: &mut D,
    target: &mut D,
    from: &SessionRow,
    to: &SessionRow,
    counts: &Counts,
) -> Result<(), MoveFault>
    requires from { IsLawfulRow from.now }
    requires to { IsLawfulRow to.now }
    requires held { (counts.now.removed ≤ counts.now.accepted)
        × (counts.now.accepted ≤ counts.now.removed + to.now.capacity) }
    requires size { D.told.tells → length (D.told.reading target.old) ≡ low_size to.now }

    ensures copied { OnOk result (D.told.tells → (live : List (List ℕ))
        → LowStands from.now counts.now.accepted counts.now.removed live (D.told.reading source.old)
        → All (λ message. length message ≤ to.now.message) live
        → InSlots to.now counts.now.removed live (D.told.reading target.new)) }
    ensures put { OnOk result (D.told.tells → (live : List (List ℕ))
        → LowStands from.now counts.now.accepted counts.now.removed live (D.told.reading source.old)
        → All (λ message. length message ≤ to.now.message) live
        → D.told.reading target.new ≡ with_messages to.now counts.now.removed live (D.told.reading target.old)) }
    ensures size { OnOk result (D.told.tells → length (D.told.reading target.new) ≡ low_size to.now) }
    ensures moves { Moves D.told (KeepsFirst 80) target.old target.new }
    ensures kept { IsKept D.told source.old source.new (is_blamed false LowRole result) }
    ensures counted { Counted D.told target.old target.new (is_blamed true LowRole result) }
    ensures one { IfErr result (λ f. IsBlamedOne D.told LowRole source.new target.new f) }
{
    for n in counts.removed..counts.accepted {
        copy_message(source, target, from, to, n)?;
    }
    Ok(())
}

// A disk is begun, with its two numbers.
fn begin_as<D: Disk>(
    target: &mut D,
    to: &SessionRow,
    role: Role,
    first: u64,
    second: u64,
) -> Result<(), MoveFault>
    requires empty { D.told.tells → D.told.reading target.old ≡ [] }
    requires lawful { IsLawfulRow to.now }

    ensures bytes { OnOk result (D.told.tells
        → marked (D.told.reading target.new) ≡ bare_bytes to.now role first second) }
    ensures zeros { OnOk result (Each D.told HasZeros target.new) }
    ensures during { ((c : List ℕ) → D.told.images target.old c → length c < 80)
        → (moment : ℕ) → moment ≤ D.told.moment target.old
        → LeavesFrom D.told moment IsNone target.old → LeavesFrom D.told moment IsNone target.new }
    ensures later { D.told.moment target.old ≤ D.told.moment target.new }
    ensures counted { Counted D.told target.old target.new (is_blamed true role result) }
    ensures device { IfErr result (λ f. f
        ≡ record { new = true; role = role; why = Device (D.told.count target.new) }) }
{
    match begin(target, to, role, first, second) {
        Ok(()) => Ok(()),
        Err(device) => {
            let faults = device.faults;
            Err(new_fault(role, Why::Device { faults }))
        }
    }
}

fn finish_as<D: Disk>(target: &mut D, role: Role) -> Result<(), MoveFault>
    requires zeros { Each D.told HasZeros target.old }

    ensures bytes { OnOk result (D.told.tells
        → D.told.reading target.new ≡ marked (D.told.reading target.old)) }
    ensures settled { OnOk result (Settled D.told target.new) }
    ensures during { (moment : ℕ) → moment ≤ D.told.moment target.old
        → LeavesFrom D.told moment (IsNoneOr (λ c. c ≡ marked (D.told.reading target.old))) target.old
        → LeavesFrom D.told moment (IsNoneOr (λ c. c ≡ marked (D.told.reading target.old))) target.new }
    ensures counted { Counted D.told target.old target.new (is_blamed true role result) }
    ensures device { IfErr result (λ f. f
        ≡ record { new = true; role = role; why = Device (D.told.count target.new) }) }
{
    match finish(target) {
        Ok(()) => Ok(()),
        Err(device) => {
            let faults = device.faults;
            Err(new_fault(role, Why::Device { faults }))
        }
    }
}

/// Writes low's new disk: the messages that are not removed, in the slots of the new row.
pub fn write_low<D: Disk>(
    source: &mut D,
    target: &mut D,
    from: &SessionRow,
    to: &SessionRow,
    counts: &Counts,
) -> Result<(), MoveFault>
    requires from { IsLawfulRow from.now }
    requires to { IsLawfulRow to.now }
    requires empty { D.told.tells → D.told.reading target.old ≡ [] }
    requires count { counts.now.accepted ≤ 2 ^ 48 }
    requires held { (counts.now.removed ≤ counts.now.accepted)
        × (counts.now.accepted ≤ counts.now.removed + to.now.capacity) }

    ensures stands { OnOk result (D.told.tells → (live : List (List ℕ))
        → LowStands from.now counts.now.accepted counts.now.removed live (D.told.reading source.old)
        → All (λ message. length message ≤ to.now.message) live
        → LowStands to.now counts.now.accepted counts.now.removed live (D.told.reading target.new)) }
    ensures bytes { OnOk result (D.told.tells → (live : List (List ℕ))
        → LowStands from.now counts.now.accepted counts.now.removed live (D.told.reading source.old)
        → All (λ message. length message ≤ to.now.message) live
        → D.told.reading target.new ≡ low_bytes to.now counts.now.accepted counts.now.removed live) }
    ensures settled { OnOk result (Settled D.told target.new) }
    ensures made { (live : List (List ℕ)) → (D.told.tells
        → LowStands from.now counts.now.accepted counts.now.removed live (D.told.reading source.old))
        → (D.told.tells → All (λ message. length message ≤ to.now.message) live)
        → IsMadeFrom D.told (LowStands to.now counts.now.accepted counts.now.removed live) target.old target.new }
    ensures kept { IsKept D.told source.old source.new (is_blamed false LowRole result) }
    ensures counted { Counted D.told target.old target.new (is_blamed true LowRole result) }
    ensures one { IfErr result (λ f. IsBlamedOne D.told LowRole source.new target.new f) }
{
    begin_as(target, to, Role::Low, counts.accepted, 0)?;
    copy_messages(source, target, from, to, counts)?;
    finish_as(target, Role::Low)?;
    Ok(())
}

/// Writes high's new disk.
pub fn write_high<D: Disk>(
    target: &mut D,
    to: &SessionRow,
    counts: &Counts,
) -> Result<(), MoveFault>
    requires to { IsLawfulRow to.now }
    requires empty { D.told.tells → D.told.reading target.old ≡ [] }
    requires count { counts.now.removed ≤ 2 ^ 48 }

    ensures stands { OnOk result (D.told.tells → HighStands to.now counts.now.removed (D.told.reading target.new)) }
    ensures bytes { OnOk result (D.told.tells → D.told.reading target.new ≡ high_bytes to.now counts.now.removed) }
    ensures settled { OnOk result (Settled D.told target.new) }
    ensures made { IsMadeFrom D.told (HighStands to.now counts.now.removed) target.old target.new }
    ensures counted { Counted D.told target.old target.new (is_blamed true HighRole result) }
    ensures device { IfErr result (λ f. f
        ≡ record { new = true; role = HighRole; why = Device (D.told.count target.new) }) }
{
    begin_as(target, to, Role::High, counts.removed, 0)?;
    finish_as(target, Role::High)?;
    Ok(())
}

/// Writes the receiver's new disk: its records as they stand.
pub fn write_recv<D: Disk>(
    source: &mut D,
    target: &mut D,
    to: &SessionRow,
    counts: &Counts,
) -> Result<(), MoveFault>
    requires to { IsLawfulRow to.now }
    requires empty { D.told.tells → D.told.reading target.old ≡ [] }
    requires count { counts.now.received ≤ 2 ^ 48 }
    requires from { 80 ≤ counts.now.end }
    requires fits { counts.now.end < 2 ^ 64 }

    ensures stands { OnOk result (D.told.tells → (row : SessionRow) (received : List (List ℕ))
        → RecvStands row received (D.told.reading source.old)
        → value_of (D.told.reading source.old) ≡ (counts.now.received, counts.now.end)
        → All (λ message. length message ≤ to.now.message) received
        → RecvStands to.now received (D.told.reading target.new)) }
    ensures bytes { OnOk result (D.told.tells
        → value_of (D.told.reading source.old) ≡ (counts.now.received, counts.now.end)
        → D.told.reading target.new ≡ recv_bytes to.now counts.now.received (D.told.reading source.old)) }
    ensures settled { OnOk result (Settled D.told target.new) }
    ensures made { (row : SessionRow) (received : List (List ℕ))
        → (D.told.tells → RecvStands row received (D.told.reading source.old))
        → (D.told.tells → value_of (D.told.reading source.old) ≡ (counts.now.received, counts.now.end))
        → (D.told.tells → All (λ message. length message ≤ to.now.message) received)
        → IsMadeFrom D.told (RecvStands to.now received) target.old target.new }
    ensures kept { IsKept D.told source.old source.new (is_blamed false RecvRole result) }
    ensures counted { Counted D.told target.old target.new (is_blamed true RecvRole result) }
    ensures one { IfErr result (λ f. IsBlamedOne D.told RecvRole source.new target.new f) }
{
    begin_as(target, to, Role::Recv, counts.received, counts.end)?;
    copy_bytes(source, 80, target, 80, counts.end - 80, Role::Recv)?;
    finish_as(target, Role::Recv)?;
    Ok(())
}

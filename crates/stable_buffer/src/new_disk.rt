// A new disk.
ghost use Rattle.std.specs.Prelude.{◌≡◌, ℕ, List, ◌<◌, ◌-◌, ◌^◌, ◌≤◌, false, [], ◌++◌, length, replicate, OnOk, IfErr};
ghost use Rattle.disk_model.specs.Disk.{Moves, Settled, Each, Answers};
ghost use Rattle.disk_model.specs.declared.name.Role.TheVariants.{Recv};
ghost use Rattle.byteorder.specs.Endian.{big_bytes};
ghost use Rattle.pump_frame.specs.Rows.{IsLawfulRow};
ghost use Rattle.stable_buffer.specs.Stands.{is_version};
ghost use Rattle.stable_buffer.specs.Format.{header_of, role_byte, second_of, size_of, bare_bytes, new_bytes};
ghost use Rattle.stable_buffer.specs.Format.{FormatStands};
ghost use Rattle.stable_buffer.specs.Making.{marked, HasZeros, IsNone, IsNoneOr, KeepsFirst, LeavesFrom};

use crate::Device;
use crate::bytes::cell_of;
use crate::device::{sync, write, write_and_sync};
use byteorder::{BigEndian, ByteOrder};
use disk_model::{Disk, Role};
use pump_frame::SessionRow;

/// The version that a new disk has.
pub const VERSION: u8 = 2;

// The greatest capacity of a disk of version 1.
const FIRST_VERSION_CAPACITY: u32 = 64;

/// How many bytes a receiver's disk may fill.
pub const RECEIVER_SIZE: u64 = 16_777_216;

/// The letter by which a disk's header tells its role.
pub fn letter(role: Role) -> u8
    ensures { result ≡ role_byte role }
{
    match role {
        Role::Low => b'L',
        Role::High => b'H',
        Role::Recv => b'R',
    }
}

fn second(role: Role) -> u64
    ensures { result ≡ second_of role }
{
    match role {
        Role::Low | Role::High => 0,
        Role::Recv => 80,
    }
}

/// How many bytes the new disk of a row has. Low's keeps that size and high's too; a receiver's
/// grows with each message, to `RECEIVER_SIZE` at most.
pub fn disk_size(row: &SessionRow, role: Role) -> u64
    requires { IsLawfulRow row.now }
    ensures size { result ≡ size_of row.now role }
    ensures whole { 80 ≤ result }
{
    match role {
        Role::Low => 80 + row.capacity as u64 * (2 + row.message as u64),
        Role::High | Role::Recv => 80,
    }
}

/// Whether a disk of the row may have this version: that of a new disk, or 1 where the row's
/// capacity is at most 64.
pub fn allows_version(row: &SessionRow, version: u8) -> bool
    ensures { result ≡ is_version row.now version }
{
    version == VERSION || (version == 1 && row.capacity <= FIRST_VERSION_CAPACITY)
}

// The row's three numbers.
fn numbers(row: &SessionRow) -> [u8; 12]
    ensures { result ≡ big_bytes 4 row.now.id ++ big_bytes 4 row.now.capacity ++ big_bytes 4 row.now.message }
{
    let mut numbers = [0; 12];
    BigEndian::write_u32(&mut numbers, row.id);
    BigEndian::write_u32(&mut numbers[4..], row.capacity);
    BigEndian::write_u32(&mut numbers[8..], row.message);
    numbers
}

fn header(row: &SessionRow, role: Role, first: u64, second: u64) -> [u8; 80]
    ensures { result ≡ header_of row.now (role_byte role) first second }
{
    let mut prefix = [0; 80];
    prefix[..6].copy_from_slice(&[b'N', b'P', b'D', b'1', letter(role), VERSION]);
    prefix[8..20].copy_from_slice(&numbers(row));
    prefix[48..64].copy_from_slice(&cell_of(first, second));
    prefix
}

// Writes zeros from the end of the disk on, to another end.
fn fill_zeros<D: Disk>(disk: &mut D, from: u64, to: u64) -> Result<(), Device>
    requires ordered { from ≤ to }
    requires starts { D.told.tells → length (D.told.reading disk.old) ≡ from }
    requires calm { D.told.tells_plan → D.told.armed disk.old ≡ false }
    ensures zeros { OnOk result (D.told.tells
        → D.told.reading disk.new ≡ D.told.reading disk.old ++ replicate (to - from) 0) }
    ensures moves { Moves D.told (KeepsFirst from) disk.old disk.new }
    ensures answers { Answers D.told (to ≤ D.told.room disk.old) disk.old disk.new result }
    ensures device { IfErr result (λ e. e.faults ≡ D.told.count disk.new) }
{
    let zeros = [0; 1024];
    let mut at = from;
    while at < to {
        let count = (to - at).min(1024);
        write(disk, at, &zeros[..count as usize])?;
        at += count;
    }
    Ok(())
}

/// Makes an empty disk one that stands for a count and, for `Role::Low`, no message. After an `Ok`
/// its bytes are the header, zeros, the cell with the count, and zeros to its end, whatever crash
/// comes. What a crash inside the call leaves is not said: format again on an emptied disk.
pub fn format<D: Disk>(disk: &mut D, row: &SessionRow, role: Role, count: u64) -> Result<(), Device>
    requires empty { D.told.tells → D.told.reading disk.old ≡ [] }
    requires lawful { IsLawfulRow row.now }
    requires count { count ≤ 2 ^ 48 }
    requires receiver { role ≡ Recv → count ≡ 0 }

    ensures stands { OnOk result (D.told.tells
        → FormatStands row.now role count (D.told.reading disk.new)) }
    ensures bytes { OnOk result (D.told.tells
        → D.told.reading disk.new ≡ new_bytes row.now role count) }
    ensures settled { OnOk result (Settled D.told disk.new) }
    ensures answers { Answers D.told (size_of row.now role ≤ D.told.room disk.old)
        disk.old disk.new result }
    ensures device { IfErr result (λ e. e.faults ≡ D.told.count disk.new) }
{
    let prefix = header(row, role, count, second(role));
    write(disk, 0, &prefix)?;
    fill_zeros(disk, 80, disk_size(row, role))?;
    sync(disk)?;
    Ok(())
}

/// Begins an empty disk that is to be whole or no buffer, whenever a crash comes: it gets four
/// zeros, and once these are synced all that a disk of the row with these two numbers has behind its
/// mark. Write the messages, and then `finish`.
pub fn begin<D: Disk>(
    disk: &mut D,
    row: &SessionRow,
    role: Role,
    first: u64,
    second: u64,
) -> Result<(), Device>
    requires empty { D.told.tells → D.told.reading disk.old ≡ [] }
    requires lawful { IsLawfulRow row.now }

    ensures bytes { OnOk result (D.told.tells
        → marked (D.told.reading disk.new) ≡ bare_bytes row.now role first second) }
    ensures zeros { OnOk result (Each D.told HasZeros disk.new) }

    // Where a crash before the call leaves fewer than 80 bytes, one since leaves no buffer, as one
    // before that did.
    ensures during { ((c : List ℕ) → D.told.images disk.old c → length c < 80)
        → (moment : ℕ) → moment ≤ D.told.moment disk.old
        → LeavesFrom D.told moment IsNone disk.old → LeavesFrom D.told moment IsNone disk.new }
    ensures later { D.told.moment disk.old ≤ D.told.moment disk.new }
    ensures answers { Answers D.told (size_of row.now role ≤ D.told.room disk.old)
        disk.old disk.new result }
    ensures device { IfErr result (λ e. e.faults ≡ D.told.count disk.new) }
{
    let prefix = header(row, role, first, second);
    write_and_sync(disk, 0, &[0; 4])?;
    write(disk, 4, &prefix[4..])?;
    fill_zeros(disk, 80, disk_size(row, role))?;
    Ok(())
}

/// Finishes a disk that was begun: it is synced, gets its mark, and is synced again.
pub fn finish<D: Disk>(disk: &mut D) -> Result<(), Device>
    requires zeros { Each D.told HasZeros disk.old }

    ensures bytes { OnOk result (D.told.tells
        → D.told.reading disk.new ≡ marked (D.told.reading disk.old)) }
    ensures settled { OnOk result (Settled D.told disk.new) }

    // A crash since any moment leaves what it left before the call, no buffer, or the whole disk.
    ensures during { (moment : ℕ) → moment ≤ D.told.moment disk.old
        → LeavesFrom D.told moment (IsNoneOr (λ c. c ≡ marked (D.told.reading disk.old))) disk.old
        → LeavesFrom D.told moment (IsNoneOr (λ c. c ≡ marked (D.told.reading disk.old))) disk.new }
    ensures later { D.told.moment disk.old ≤ D.told.moment disk.new }
    ensures answers { Answers D.told (4 ≤ D.told.room disk.old) disk.old disk.new result }
    ensures device { IfErr result (λ e. e.faults ≡ D.told.count disk.new) }
{
    sync(disk)?;
    write_and_sync(disk, 0, b"NPD1")?;
    Ok(())
}

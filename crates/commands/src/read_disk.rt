//! A disk of a session as its file stands, in memory.

ghost use Rattle.std.specs.Prelude.{◌≡◌, ◌≤◌, length, false, IfOk, IfErr, IfSome};
ghost use Rattle.commands.specs.ReadDisks.{file_name, disk_file, Holds, IsReadOf, IsUnread};

use arrayvec::ArrayString;
use command_ends::{CommandEnd, zeros};
use disk_model::{Disk, PlainDisk, Role, Shelf, ShelfFault};
use stable_buffer::RECEIVER_SIZE;
use std::alloc::Global;

// Ten digits, a dot and four letters at most.
fn file_name(session: u32, role: Role) -> ArrayString<64>
    ensures { result.bytes ≡ file_name session role }
{
    let mut digits = itoa::Buffer::new();
    let mut name = ArrayString::new();
    name.push_str(digits.format(session));
    name.push_str(match role {
        Role::Low => ".low",
        Role::High => ".high",
        Role::Recv => ".recv",
    });
    name
}

/// A room for the file of a disk.
pub fn file_room(alloc: Global) -> Option<Vec<u8>>
    ensures { IfSome result (λ room. length room.items ≡ 16777216) }
{
    zeros(alloc, RECEIVER_SIZE as usize)
}

// The disk in memory that has these bytes.
fn disk_of(alloc: Global, bytes: &[u8]) -> Option<PlainDisk>
    ensures { IfSome result (λ disk. Holds bytes.now disk) }
{
    let mut disk = PlainDisk::new(alloc, bytes.len() as u64).ok()?;
    match disk.write_at(0, bytes) {
        Ok(()) => Some(disk),
        Err(_) => unreachable!("the bytes fit"),
    }
}

/// The disk of a session as its file stands, up to the greatest size of a receiver's disk. It takes no
/// lock, makes no file and changes nothing, so that it may read beside a relay. The room is for the bytes.
pub fn read_disk<S: Shelf>(
    alloc: Global,
    shelf: &mut S,
    session: u32,
    role: Role,
    room: &mut [u8],
) -> Result<PlainDisk, CommandEnd>
    requires { length room.old ≡ 16777216 }
    ensures read { IfOk result (λ disk. S.told.tells
        → IsReadOf (disk_file (S.told.file shelf.old) session role) disk.bytes) }
    ensures calm { IfOk result (λ disk. disk.armed ≡ false) }
    ensures unread { IfErr result (IsUnread role (S.told.faults shelf.old) (S.told.faults shelf.new)) }
    ensures room { length room.new ≡ length room.old }
    ensures disks { S.told.disk shelf.new ≡ S.told.disk shelf.old }
    ensures disk_faults { S.told.disk_faults shelf.new ≡ S.told.disk_faults shelf.old }
    ensures files { S.told.file shelf.new ≡ S.told.file shelf.old }
    ensures later { S.told.faults shelf.old ≤ S.told.faults shelf.new }
{
    let name = file_name(session, role);
    match shelf.whole(name.as_str(), room) {
        Ok(length) => {
            let count = length.min(RECEIVER_SIZE) as usize;
            disk_of(alloc, &room[..count]).ok_or(CommandEnd::Memory)
        }
        Err(ShelfFault::Failed) => Err(CommandEnd::Failed { role }),
        Err(ShelfFault::Memory) => Err(CommandEnd::Memory),
    }
}

// The first bytes of a disk.
ghost use Rattle.std.specs.Prelude.{◌≡◌, ◌+◌, ◌≤◌, true, false, Some, None, length, take, drop, IfSome, OnOk, IfOk};
ghost use Rattle.std.specs.Prelude.{IfErr};
ghost use Rattle.byteorder.specs.Endian.{big_bytes};
ghost use Rattle.pump_frame.specs.Rows.{IsLawfulRow};
ghost use Rattle.disk_model.specs.Disk.{Moves, Same};
ghost use Rattle.stable_buffer.specs.Stands.{HasHeader};
ghost use Rattle.stable_buffer.specs.Format.{role_byte};
ghost use Rattle.recovery.specs.Refusals.{word_at, fields, wanted, other_field, other_size, refused_prefix};
ghost use Rattle.recovery.specs.Refusals.{refused_shape, HasFields};
ghost use Rattle.recovery.specs.Calls.{Calls, failed, is_device};
ghost use Rattle.recovery.specs.declared.why.Why.TheVariants.{Device, WrongShape};

use crate::Why;
use byteorder::{BigEndian, ByteOrder};
use disk_model::{Disk, DiskFault, Role};
use pump_frame::SessionRow;
use stable_buffer::{VERSION, allows_version, disk_size, letter};

// The bytes `NPD1`.
const MARK: u32 = 0x4E50_4431;

#[tactic(auto, unfolding(crate::specs::Refusals::word_at))]
fn word(bytes: &[u8], at: usize) -> u32
    requires { at + 4 ≤ length bytes.now }
    ensures value { result ≡ word_at bytes.now at }
    ensures spells { big_bytes 4 result ≡ take 4 (drop at bytes.now) }
{
    BigEndian::read_u32(&bytes[at..])
}

fn differs(field: u32, found: u64, wanted: u64) -> Why
    ensures { result ≡ WrongShape field found wanted }
{
    Why::WrongShape {
        field,
        found,
        wanted,
    }
}

fn find_other_field(prefix: &[u8], row: &SessionRow, role: Role) -> Option<Why>
    requires { length prefix.now ≡ 80 }
    ensures first { result ≡ other_field 1 (fields row.now prefix.now) (wanted row.now role) }
    ensures none { result ≡ None → HasFields row.now (role_byte role) prefix.now }
    ensures no_device { IfSome result (λ why. is_device why ≡ false) }
{
    let letter = letter(role);
    if prefix[4] != letter {
        return Some(differs(1, prefix[4] as u64, letter as u64));
    }
    if !allows_version(row, prefix[5]) {
        return Some(differs(2, prefix[5] as u64, VERSION as u64));
    }
    let session = word(prefix, 8);
    if session != row.id {
        return Some(differs(3, session as u64, row.id as u64));
    }
    let capacity = word(prefix, 12);
    if capacity != row.capacity {
        return Some(differs(4, capacity as u64, row.capacity as u64));
    }
    let message = word(prefix, 16);
    if message != row.message {
        return Some(differs(5, message as u64, row.message as u64));
    }
    None
}

fn find_other_size(row: &SessionRow, role: Role, size: u64) -> Option<Why>
    requires { IsLawfulRow row.now }
    ensures size { result ≡ other_size row.now role size }
    ensures no_device { IfSome result (λ why. is_device why ≡ false) }
{
    if role == Role::Recv {
        return None;
    }
    let wanted = disk_size(row, role);
    if size == wanted {
        None
    } else {
        Some(differs(6, size, wanted))
    }
}

fn find_refusal(prefix: &[u8], row: &SessionRow, role: Role, size: u64) -> Option<Why>
    requires lawful { IsLawfulRow row.now }
    requires prefix { length prefix.now ≡ 80 }
    requires size { 80 ≤ size }
    ensures first { result ≡ refused_prefix row.now role size prefix.now }
    ensures none { result ≡ None → HasHeader row.now (role_byte role) (take 32 prefix.now) }
    ensures no_device { IfSome result (λ why. is_device why ≡ false) }
{
    let bytes = word(prefix, 0);
    if bytes != MARK {
        return Some(Why::NotABuffer { size, bytes });
    }
    match find_other_field(prefix, row, role) {
        Some(why) => Some(why),
        None => find_other_size(row, role, size),
    }
}

/// Checks the size and the first bytes, and gives the size.
pub fn check_shape<D: Disk>(disk: &mut D, row: &SessionRow, role: Role) -> Result<u64, Why>
    requires lawful { IsLawfulRow row.now }
    ensures size { IfOk result (λ n. D.told.tells → n ≡ length (D.told.reading disk.old)) }
    ensures whole { IfOk result (λ n. 80 ≤ n) }
    ensures fine { OnOk result (D.told.tells
        → refused_shape row.now role (D.told.reading disk.old) ≡ None) }
    ensures header { OnOk result (D.told.tells
        → HasHeader row.now (role_byte role) (take 32 (D.told.reading disk.old))) }
    ensures exact { IfErr result (λ why. is_device why ≡ false → D.told.tells
        → refused_shape row.now role (D.told.reading disk.old) ≡ Some why) }
    ensures device { IfErr result (λ why. is_device why ≡ true
        → why ≡ Device (D.told.count disk.new)) }
    ensures calls { Calls D.told disk.old disk.new (failed result) }
    ensures moves { Moves D.told Same disk.old disk.new }
{
    let Ok(size) = disk.size() else {
        return Err(Why::Device {
            faults: disk.faults(),
        });
    };
    if size < 4 {
        return Err(Why::NotABuffer { size, bytes: 0 });
    }
    if size < 80 {
        let mut first = [0; 4];
        if let Err(DiskFault) = disk.read(0, &mut first) {
            return Err(Why::Device {
                faults: disk.faults(),
            });
        }
        return Err(Why::NotABuffer {
            size,
            bytes: word(&first, 0),
        });
    }
    let mut prefix = [0; 80];
    if let Err(DiskFault) = disk.read(0, &mut prefix) {
        return Err(Why::Device {
            faults: disk.faults(),
        });
    }
    match find_refusal(&prefix, row, role, size) {
        Some(why) => Err(why),
        None => Ok(size),
    }
}

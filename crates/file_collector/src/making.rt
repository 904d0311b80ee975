// The disk of a collector's register: whether it is made, and making it.
ghost use Rattle.std.specs.Prelude.{◌≡◌, ◌≤◌, ◌↔◌, ◌∷◌, [], Some, None, true, false, length, take, drop, OnOk};
ghost use Rattle.std.specs.Prelude.{IfOk, IfErr, IsErr, IsTrue};
ghost use Rattle.pump_frame.specs.Counts.{Rose};
ghost use Rattle.disk_model.specs.Disk.{Moves, Same, Settled};
ghost use Rattle.file_messages.specs.Files.{Between};
ghost use Rattle.file_collector.specs.Registers.{RegisterStands, header, register_size};
ghost use Rattle.file_collector.specs.Making.{new_register, IsRegister, IsUnmade, IsUnmarked, IsMadeOf};
ghost use Rattle.file_collector.specs.Making.{MayBeMade, MayClear};
ghost use Rattle.file_collector.specs.declared.values.CollectFault.TheVariants.{Register};
ghost use Rattle.file_collector.specs.Closed.{IsMakeFault};

use crate::values::CollectFault;
use disk_model::{Disk, DiskFault};

// How many bytes the disk has.
const SIZE: u64 = 220;

fn header() -> [u8; 32]
    ensures { result ≡ header }
{
    let mut header = [0; 32];
    header[..6].copy_from_slice(b"NPD1C\x01");
    header
}

// What stands behind the mark of a new register.
fn behind_mark() -> [u8; 216]
    ensures { result ≡ drop 4 new_register }
{
    let mut bytes = [0; 216];
    bytes[..2].copy_from_slice(b"C\x01");
    bytes
}

fn device<D: Disk>(disk: &D) -> CollectFault
    ensures { result ≡ Register (D.told.count disk.now) }
{
    CollectFault::Register {
        faults: disk.faults(),
    }
}

// The size of a disk, after a sync.
fn synced_size<D: Disk>(disk: &mut D) -> Result<u64, DiskFault>
    ensures size { IfOk result (λ n. D.told.tells → n ≡ length (D.told.reading disk.new)) }
    ensures settled { OnOk result (Settled D.told disk.new) }
    ensures moves { Moves D.told Same disk.old disk.new }
    ensures later { D.told.count disk.old ≤ D.told.count disk.new }
    ensures rose { IsErr result → Rose (D.told.count disk.old) (D.told.count disk.new) }
{
    disk.sync()?;
    disk.size()
}

// Whether the disk begins with four zeros.
fn is_cleared<D: Disk>(disk: &mut D) -> Result<bool, DiskFault>
    ensures cleared { IfOk result (λ cleared. IsTrue cleared → D.told.tells
        → take 4 (D.told.reading disk.new) ≡ 0 ∷ 0 ∷ 0 ∷ 0 ∷ []) }
    ensures within { IfOk result (λ cleared. IsTrue cleared → D.told.tells
        → 4 ≤ length (D.told.reading disk.new)) }
    ensures marked { IfOk result (λ cleared. cleared ≡ false → D.told.tells
        → take 4 (D.told.reading disk.old) ≡ 0 ∷ 0 ∷ 0 ∷ 0 ∷ [] → ⊥) }
    ensures moves { Moves D.told Same disk.old disk.new }
    ensures later { D.told.count disk.old ≤ D.told.count disk.new }
    ensures rose { IsErr result → Rose (D.told.count disk.old) (D.told.count disk.new) }
{
    if disk.size()? < 4 {
        return Ok(false);
    }
    let mut mark = [0; 4];
    disk.read(0, &mut mark)?;
    Ok(mark == [0; 4])
}

// Clears the mark. A mark that is clear is not written again: a crash could then leave another one, before
// bytes that no longer tell whose disk it is.
fn clear<D: Disk>(disk: &mut D) -> Result<(), DiskFault>
    requires { D.told.tells → length (D.told.reading disk.old) ≤ register_size }
    ensures cleared { OnOk result (D.told.tells
        → take 4 (D.told.reading disk.new) ≡ 0 ∷ 0 ∷ 0 ∷ 0 ∷ []) }
    ensures within { OnOk result (D.told.tells → 4 ≤ length (D.told.reading disk.new)) }
    ensures few { OnOk result (D.told.tells → length (D.told.reading disk.new) ≤ register_size) }
    ensures settled { OnOk result (Settled D.told disk.old → Settled D.told disk.new) }
    ensures moves { Settled D.told disk.old → Moves D.told MayClear disk.old disk.new }
    ensures later { D.told.count disk.old ≤ D.told.count disk.new }
    ensures rose { IsErr result → Rose (D.told.count disk.old) (D.told.count disk.new) }
{
    if is_cleared(disk)? {
        return Ok(());
    }
    disk.write_at(0, &[0; 4])?;
    disk.sync()
}

// Makes the disk of a new register. Its mark comes last.
fn write_new<D: Disk>(disk: &mut D) -> Result<(), DiskFault>
    requires { D.told.tells → length (D.told.reading disk.old) ≤ register_size }
    ensures made { OnOk result (D.told.tells → D.told.reading disk.new ≡ new_register) }
    ensures settled { OnOk result (Settled D.told disk.new) }
    // A crash at any moment leaves a disk that was not made to its end, or a new register.
    ensures moves { Settled D.told disk.old → (D.told.tells → IsUnmade (D.told.reading disk.old))
        → Moves D.told MayBeMade disk.old disk.new }
    ensures later { D.told.count disk.old ≤ D.told.count disk.new }
    ensures rose { IsErr result → Rose (D.told.count disk.old) (D.told.count disk.new) }
{
    let behind = behind_mark();
    clear(disk)?;
    disk.write_at(4, &behind)?;
    disk.sync()?;
    disk.write_at(0, b"NPD1")?;
    disk.sync()
}

// The bytes of a disk.
fn read_whole<D: Disk>(disk: &mut D) -> Result<[u8; 220], DiskFault>
    ensures whole { IfOk result (λ bytes. D.told.tells → length (D.told.reading disk.old) ≡ register_size
        → bytes ≡ D.told.reading disk.old) }
    ensures moves { Moves D.told Same disk.old disk.new }
    ensures later { D.told.count disk.old ≤ D.told.count disk.new }
    ensures rose { IsErr result → Rose (D.told.count disk.old) (D.told.count disk.new) }
{
    let mut bytes = [0; 220];
    disk.read(0, &mut bytes)?;
    Ok(bytes)
}

// Whether these are the bytes of a register's disk, or of one that was not made to its end.
fn told_by(bytes: &[u8; 220]) -> Option<bool>
    ensures made { result ≡ Some true ↔ (take 32 bytes.now ≡ header) }
    ensures unmade { result ≡ Some false → IsUnmarked bytes.now }
    ensures none { result ≡ None → IsUnmarked bytes.now → ⊥ }
{
    let behind = behind_mark();
    if bytes[..32] == header()[..] {
        Some(true)
    } else if bytes[..4] == [0; 4] || bytes[4..] == behind[..] {
        Some(false)
    } else {
        None
    }
}

// Whether the disk is that of a register. A disk that was not made to its end is none yet.
fn is_made<D: Disk>(disk: &mut D) -> Result<bool, CollectFault>
    ensures made { IfOk result (λ made. IsTrue made → D.told.tells → IsRegister (D.told.reading disk.old)) }
    ensures whole { IfOk result (λ made. D.told.tells → IsRegister (D.told.reading disk.old)
        → made ≡ true) }
    ensures unmade { IfOk result (λ made. made ≡ false → D.told.tells
        → IsUnmade (D.told.reading disk.old)) }
    ensures few { IfOk result (λ made. made ≡ false → D.told.tells
        → length (D.told.reading disk.new) ≤ register_size) }
    ensures settled { OnOk result (Settled D.told disk.new) }
    ensures moves { Moves D.told Same disk.old disk.new }
    ensures cause { IfErr result (λ fault. IsMakeFault D.told disk.old disk.new fault) }
    ensures later { D.told.count disk.old ≤ D.told.count disk.new }
{
    let size = match synced_size(disk) {
        Ok(size) => size,
        Err(DiskFault) => return Err(device(disk)),
    };
    if size < SIZE {
        return Ok(false);
    }
    if size > SIZE {
        return Err(CollectFault::Other);
    }
    match read_whole(disk) {
        Ok(bytes) => match told_by(&bytes) {
            Some(made) => Ok(made),
            None => Err(CollectFault::Other),
        },
        Err(DiskFault) => Err(device(disk)),
    }
}

/// Makes the disk of a register where it is none yet.
pub fn make<D: Disk>(disk: &mut D) -> Result<(), CollectFault>
    ensures made { OnOk result (D.told.tells → IsRegister (D.told.reading disk.new)) }
    ensures kept { OnOk result (D.told.tells → IsRegister (D.told.reading disk.old)
        → D.told.reading disk.new ≡ D.told.reading disk.old) }
    ensures new { OnOk result (D.told.tells → (IsRegister (D.told.reading disk.old) → ⊥)
        → D.told.reading disk.new ≡ new_register) }
    ensures made_of { OnOk result (D.told.tells
        → IsMadeOf (D.told.reading disk.old) (D.told.reading disk.new)) }
    // A crash at any moment keeps a register that counts, and what is another's.
    ensures moves { Moves D.told MayBeMade disk.old disk.new }
    ensures cause { IfErr result (λ fault. IsMakeFault D.told disk.old disk.new fault) }
    ensures later { D.told.count disk.old ≤ D.told.count disk.new }
{
    if is_made(disk)? {
        return Ok(());
    }
    match write_new(disk) {
        Ok(()) => Ok(()),
        Err(DiskFault) => Err(device(disk)),
    }
}

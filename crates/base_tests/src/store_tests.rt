//! Tests of the stores of the two processes: the bytes on their disks, and where a store stops at a
//! disk that fails. A helper takes the disk over, and gives back bytes or a count.

ghost use Rattle.std.specs.Prelude.{◌≡◌, []};
ghost use Rattle.pump_frame.specs.Rows.{IsLawfulRow};
ghost use Rattle.stable_buffer.specs.Low.{IsLowReady, low_count, low_row};
ghost use Rattle.stable_buffer.specs.High.{IsHighReady, high_count};

use crate::rows::{new_register, row};
use disk_model::{Disk, MemDisk, Outcome, PlainDisk, Role};
use pump_frame::{Payload, SessionRow};
use stable_buffer::{HighStore, LowStore, Register};
use std::alloc::Global;
use std::process::Abort;
use std::test::Fail;

fn fresh_low<D: Disk>(rt: &impl Abort, disk: D, row: &SessionRow) -> LowStore<D>
    requires empty { D.told.tells → D.told.reading disk ≡ [] }
    requires lawful { IsLawfulRow row.now }
    ensures ready { IsLowReady D.told result }
    ensures count { low_count result ≡ 0 }
    ensures row { low_row result ≡ row.now }
{
    LowStore::over(new_register(rt, disk, row, Role::Low), row)
}

fn fresh_high<D: Disk>(rt: &impl Abort, disk: D, row: &SessionRow) -> HighStore<D>
    requires empty { D.told.tells → D.told.reading disk ≡ [] }
    requires lawful { IsLawfulRow row.now }
    ensures ready { IsHighReady D.told result }
    ensures count { high_count result ≡ 0 }
{
    HighStore::over(new_register(rt, disk, row, Role::High))
}

// All bytes of a disk that has so many.
fn bytes_of<D: Disk + Drop, const N: usize>(rt: &impl Abort, mut disk: D) -> [u8; N] {
    let mut bytes = [0; N];
    assert_eq!(rt; disk.size(), Ok(N as u64));
    assert!(rt; disk.read(0, &mut bytes).is_ok());
    bytes
}

// The bytes of a high disk, new or after a removal.
fn high_bytes<D: Disk + Drop>(rt: &impl Abort, disk: D, removes: bool) -> [u8; 80]
    requires empty { D.told.tells → D.told.reading disk ≡ [] }
{
    let mut store = fresh_high(rt, disk, &row(rt, 8));
    if removes {
        assert_eq!(rt; store.remove(), Ok(1));
    }
    assert_eq!(rt;
        (store.removed(), store.is_open()),
        (u64::from(removes), true)
    );
    bytes_of(rt, store.into_disk())
}

// A high disk of the row begins with these bytes; all others are zero.
const PREFIX: [u8; 20] = [
    0x4E, 0x50, 0x44, 0x31, 0x48, 2, 0, 0, 0, 0, 0, 1, 0, 0, 0, 3, 0, 0, 0, 8,
];

#[test]
fn the_bytes_of_a_high_disk(rt: HostRuntime) -> Result<(), Fail> {
    let mut bytes = [0; 80];
    bytes[..20].copy_from_slice(&PREFIX);
    assert_eq!(rt;
        high_bytes(&rt, PlainDisk::new(rt.alloc(), 80)?, false),
        bytes
    );
    bytes[32] = 1;
    bytes[71] = 1;
    assert_eq!(rt;
        high_bytes(&rt, PlainDisk::new(rt.alloc(), 80)?, true),
        bytes
    );
    Ok(())
}

// The bytes of a low disk that has accepted `a`.
fn low_bytes<D: Disk + Drop>(rt: &impl Abort, disk: D) -> [u8; 110]
    requires empty { D.told.tells → D.told.reading disk ≡ [] }
{
    let mut store = fresh_low(rt, disk, &row(rt, 8));
    let payload = Payload::from_slice(b"a").expect(rt, "a payload");
    assert_eq!(rt; store.store(&payload), Ok(0));
    let mut found = Payload::default();
    let length = store.slot(0, &mut found);
    assert_eq!(rt;
        (length, found.as_slice(), store.accepted()),
        (Ok(1), b"a".as_slice(), 1)
    );
    bytes_of(rt, store.into_disk())
}

#[test]
fn the_bytes_of_a_low_disk(rt: HostRuntime) -> Result<(), Fail> {
    let bytes = low_bytes(&rt, PlainDisk::new(rt.alloc(), 110)?);
    assert_eq!(rt;
        [bytes[32], bytes[71], bytes[80], bytes[81], bytes[82]],
        [1, 1, 0, 1, b'a']
    );
    Ok(())
}

// A disk of which a call failed during the store of a message.
fn stopped<D: Disk>(rt: &impl Abort, disk: D) -> D
    requires empty { D.told.tells → D.told.reading disk ≡ [] }
{
    let mut store = fresh_low(rt, disk, &row(rt, 8));
    let payload = Payload::from_slice(b"a").expect(rt, "a payload");
    assert!(rt; store.store(&payload).is_err() && !store.is_open());
    store.into_disk()
}

// The count that a disk opens with.
fn count_of<D: Disk + Drop>(rt: &impl Abort, disk: D) -> u64 {
    match Register::open(disk) {
        Ok(register) => register.value().0,
        Err(_) => panic!(rt; "the disk does not open"),
    }
}

// The count after a crash that follows a call which failed.
fn count_after(rt: &impl Abort, alloc: Global, call: u64, outcome: Outcome) -> Result<u64, Fail> {
    let mut disk = stopped(rt, MemDisk::new(alloc, 110, 40, vec![in alloc; call]?)?);
    disk.crash(outcome);
    Ok(count_of(rt, disk))
}

// A new disk takes three calls and its opening two, so the calls of the store begin with number 5.
#[test]
fn a_store_stops_at_a_call(rt: HostRuntime) -> Result<(), Fail> {
    for (call, outcome, count) in [
        (6, Outcome::Old, 0),
        (6, Outcome::New, 0),
        (6, Outcome::Fill(165), 0),
        (9, Outcome::Old, 0),
        (9, Outcome::New, 1),
    ] {
        assert_eq!(rt; count_after(&rt, rt.alloc(), call, outcome)?, count);
    }
    Ok(())
}

//! The opening of disks of which one fails. What else is refused is in `tests/disks-refused.t`.

use crate::held::Held;
use disk_model::{Disk, PlainDisk, Role};
use fixtures::row;
use passage::PlainEnds;
use recovery::{Why, open_pump};
use std::alloc::Global;
use std::test::Fail;

// The first 80 bytes of a disk of that row.
fn prefix(letter: u8, first: u8, second: u8) -> [u8; 80] {
    let mut bytes = [0; 80];
    bytes[..6].copy_from_slice(&[b'N', b'P', b'D', b'1', letter, 2]);
    bytes[11] = 1;
    bytes[15] = 3;
    bytes[19] = 8;
    bytes[55] = first;
    bytes[63] = second;
    bytes
}

// A disk of low's, with the messages a, b and c in its slots.
pub fn low(accepted: u8) -> [u8; 110] {
    let mut bytes = [0; 110];
    bytes[..80].copy_from_slice(&prefix(b'L', accepted, 0));
    bytes[81] = 1;
    bytes[82] = b'a';
    bytes[91] = 1;
    bytes[92] = b'b';
    bytes[101] = 1;
    bytes[102] = b'c';
    bytes
}

pub fn high(removed: u8) -> [u8; 80] {
    prefix(b'H', removed, 0)
}

// A disk of the receiver's, with the messages a and b.
pub fn receiver() -> [u8; 86] {
    let mut bytes = [0; 86];
    bytes[..80].copy_from_slice(&prefix(b'R', 2, 86));
    bytes[80..86].copy_from_slice(&[0, 1, b'a', 0, 1, b'b']);
    bytes
}

fn disk(alloc: Global, bytes: &[u8]) -> Result<Held<PlainDisk>, Fail> {
    let mut disk = Held(PlainDisk::new(alloc, 128)?);
    match disk.0.write_at(0, bytes) {
        Ok(()) => Ok(disk),
        Err(_) => Err(Fail::new("no room")),
    }
}

// Why two disks are refused, and whose fault it is.
fn refused_for(
    alloc: Global,
    low: Held<PlainDisk>,
    high: Held<PlainDisk>,
) -> Result<Option<(Role, Why)>, Fail> {
    let Some(row) = row(8) else {
        return Err(Fail::new("no row"));
    };
    let mut ends = PlainEnds::new(alloc, &row)?;
    match open_pump(low.taken(), high.taken(), &row, &mut ends) {
        Ok(opened) => {
            drop(opened);
            Ok(None)
        }
        Err(refused) => {
            let cause = (refused.role, refused.why);
            drop(refused);
            Ok(Some(cause))
        }
    }
}

#[test]
fn a_disk_that_fails_says_so_and_nothing_else(rt: HostRuntime) -> Result<(), Fail> {
    let low = disk(rt.alloc(), &low(3))?;
    let mut high = disk(rt.alloc(), &high(9))?;
    high.0.fail_next();
    let found = refused_for(rt.alloc(), low, high)?;
    assert_eq!(rt; found, Some((Role::High, Why::Device { faults: 1 })));
    Ok(())
}

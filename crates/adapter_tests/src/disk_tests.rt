//! A file of the machine as a disk.

use crate::entering::enter;
use adapters::{Access, FileDisk, FileShelf};
use disk_model::{Disk, DiskFault, DiskName, Role, Shelf};
use std::fs;
use std::process::Abort;
use std::test::Fail;

/// A disk that has no file yet.
fn new_disk(rt: &HostRuntime) -> Result<FileDisk<'_, HostRuntime>, Fail> {
    let low = DiskName {
        session: 7,
        role: Role::Low,
    };
    match FileShelf::new(rt.alloc(), rt, Access::Write).disk(low) {
        Ok(disk) => Ok(disk),
        Err(_) => Err(Fail::new("no new disk")),
    }
}

fn byte_at(at: usize) -> u8 {
    (at % 251) as u8
}

/// Whether the file has its bytes there, as many as the room.
fn has_bytes(disk: &mut FileDisk<'_, HostRuntime>, at: usize, into: &mut [u8]) -> bool {
    if disk.read(at as u64, into).is_err() {
        return false;
    }
    for (i, &byte) in into.iter().enumerate() {
        if byte != byte_at(at.wrapping_add(i)) {
            return false;
        }
    }
    true
}

// A walk over the lengths of records, then over the records, each behind its length, and elsewhere.
fn reads_ahead(rt: &impl Abort, disk: &mut FileDisk<'_, HostRuntime>) {
    let (mut length, mut record) = ([0; 2], [0; 1026]);
    for at in [80, 1106, 2132, 65_900, 67_000] {
        assert!(rt; has_bytes(disk, at, &mut length));
    }
    for at in [80, 1106, 65_100, 66_126, 67_152, 98_974, 7] {
        assert!(rt; has_bytes(disk, at, &mut length));
        assert!(rt; has_bytes(disk, at, &mut record));
    }
    assert!(rt; has_bytes(disk, 99_998, &mut length));
    assert!(rt; disk.read(99_999, &mut length) == Err(DiskFault));
}

#[test]
fn what_is_read_ahead_is_what_the_file_has(rt: HostRuntime) -> Result<(), Fail> {
    let mut bytes = [0; 100_000];
    for (at, byte) in bytes.iter_mut().enumerate() {
        *byte = byte_at(at);
    }
    let folder = enter(&rt, "ahead")?;
    let mut disk = match new_disk(&rt) {
        Ok(disk) => disk,
        Err(fail) => return Err(fail),
    };
    assert!(rt; disk.write_at(0, &bytes).is_ok());
    reads_ahead(&rt, &mut disk);
    fs::remove_dir_all(&rt, folder.as_str())?;
    Ok(())
}

/// Whether the disk has these bytes there, eight at most.
fn has(disk: &mut FileDisk<'_, HostRuntime>, at: u64, bytes: &[u8]) -> bool {
    let mut room = [0; 8];
    match room.get_mut(..bytes.len()) {
        Some(into) => disk.read(at, into).is_ok() && &*into == bytes,
        None => false,
    }
}

fn is_written(rt: &impl Abort, disk: &mut FileDisk<'_, HostRuntime>) {
    for (at, bytes, size) in [(0, b"relay", 5), (3, b"pumps", 8), (1, b"elpum", 8)] {
        assert!(rt; disk.write_at(at, bytes).is_ok());
        assert!(rt; disk.sync().is_ok());
        assert!(rt; disk.size() == Ok(size));
    }
    assert!(rt; has(disk, 2, b"lpumps"));
    assert!(rt; disk.read(3, &mut [0; 6]) == Err(DiskFault));
    for (at, bytes) in [(0, b"re"), (2, b"lp"), (4, b"um")] {
        assert!(rt; has(disk, at, bytes));
    }
}

#[test]
fn a_file_is_a_disk(rt: HostRuntime) -> Result<(), Fail> {
    let folder = enter(&rt, "disk")?;
    let mut disk = match new_disk(&rt) {
        Ok(disk) => disk,
        Err(fail) => return Err(fail),
    };
    is_written(&rt, &mut disk);
    assert!(rt; disk.write_at(6, b"PS").is_ok());
    assert!(rt; has(&mut disk, 6, b"PS"));
    assert!(rt; disk.write_at(u64::MAX, b"relay") == Err(DiskFault));
    assert!(rt; disk.size() == Ok(8));
    assert!(rt; disk.faults() == 2);
    fs::remove_dir_all(&rt, folder.as_str())?;
    Ok(())
}

//! Tests of disks in memory and of the shelf that holds them: reads, failures, and what a crash leaves.

use disk_model::{
    Disk, DiskFault, DiskName, MemDisk, MemShelf, Outcome, PlainDisk, Role, Shelf, ShelfFault,
};
use std::alloc::Global;
use std::process::Abort;
use std::test::Fail;

/// A call of a disk.
#[derive(Clone, Copy)]
enum Call {
    Write(&'static [u8]),
    Append(&'static [u8]),
    Sync,
    Read(u64),
}

// Makes a call, and gives what it read.
fn made<D: Disk>(disk: &mut D, call: Call) -> Result<[u8; 3], DiskFault> {
    let mut into = [0; 3];
    match call {
        Call::Write(bytes) => disk.write_at(0, bytes)?,
        Call::Append(bytes) => {
            let end = disk.size()?;
            disk.write_at(end, bytes)?;
        }
        Call::Sync => disk.sync()?,
        Call::Read(at) => disk.read(at, &mut into)?,
    }
    Ok(into)
}

// A disk of eight bytes fails where it is armed, and where a call reaches past what there is.
#[test]
fn a_plain_disk_reads_what_was_written(rt: HostRuntime) -> Result<(), Fail> {
    let mut disk = PlainDisk::new(rt.alloc(), 8)?;
    for (is_armed, call, answer) in [
        (false, Call::Write(b"relay"), Ok([0; 3])),
        (false, Call::Sync, Ok([0; 3])),
        (false, Call::Read(1), Ok(*b"ela")),
        (true, Call::Write(b"pumps"), Err(DiskFault)),
        (false, Call::Read(3), Err(DiskFault)),
        (false, Call::Append(b"disk"), Err(DiskFault)),
        (false, Call::Read(0), Ok(*b"rel")),
    ] {
        if is_armed {
            disk.fail_next();
        }
        assert_eq!(rt; made(&mut disk, call), answer);
    }
    assert_eq!(rt; (disk.size(), disk.faults()), (Ok(5), 3));
    Ok(())
}

// A disk that held `ab` at its last sync; then `cd` was written at 1, and a write at 0 failed.
fn torn(alloc: Global) -> Result<MemDisk, Fail> {
    let mut disk = MemDisk::new(alloc, 4, 4, vec![in alloc; 3u64]?)?;
    let _ = disk.write_at(0, b"ab");
    let _ = disk.sync();
    let _ = disk.write_at(1, b"cd");
    let _ = disk.write_at(0, b"e");
    Ok(disk)
}

// The size of the torn disk after a crash, and its first two bytes.
fn left(rt: &impl Abort, alloc: Global, outcome: Outcome) -> Result<(u64, [u8; 2]), Fail> {
    let mut disk = torn(alloc)?;
    assert_eq!(rt; disk.faults(), 1);
    disk.crash(outcome);
    let mut into = [0; 2];
    assert_eq!(rt; disk.read(0, &mut into), Ok(()));
    let size = disk.size();
    drop(disk);
    Ok((size.expect(rt, "a size"), into))
}

#[test]
fn a_crash_leaves_one_of_three(rt: HostRuntime) -> Result<(), Fail> {
    for (outcome, size, bytes) in [
        (Outcome::Old, 2, *b"ab"),
        (Outcome::New, 3, *b"ec"),
        (Outcome::Fill(42), 3, *b"**"),
    ] {
        assert_eq!(rt; left(&rt, rt.alloc(), outcome)?, (size, bytes));
    }
    Ok(())
}

const LOW: DiskName = DiskName {
    session: 7,
    role: Role::Low,
};

const HIGH: DiskName = DiskName {
    session: 7,
    role: Role::High,
};

const RECV: DiskName = DiskName {
    session: 7,
    role: Role::Recv,
};

// Takes a disk off the shelf, makes so many calls of it that fail, and puts it back.
fn visit<S: Shelf>(shelf: &mut S, name: DiskName, failing: u64) -> Result<u64, ShelfFault> {
    let mut disk = shelf.disk(name)?;
    for _ in 0..failing {
        let _ = disk.read(u64::MAX, &mut [0]);
    }
    let size = disk.size();
    shelf.keep(name, disk);
    size.map_err(|_| ShelfFault::Failed)
}

// A file is read as far as it fits, and its length told; one that isn't there fails.
fn files_are_read<S: Shelf>(rt: &impl Abort, shelf: &mut S) {
    for (name, result, prefix) in [
        ("table", Ok(4), *b"row"),
        ("chair", Err(ShelfFault::Failed), *b"___"),
    ] {
        let mut into = *b"___";
        let read = shelf.whole(name, &mut into);
        assert_eq!(rt; (read, into), (result, prefix));
    }
    assert_eq!(rt; shelf.faults(), 1);
}

// The call with the number 5 fails.
fn disks_are_taken<S: Shelf>(rt: &impl Abort, shelf: &mut S) {
    for (name, failing, result, faults) in [
        (LOW, 0, Ok(5), 0),
        (LOW, 2, Ok(5), 1),
        (HIGH, 0, Ok(0), 1),
        (HIGH, 0, Err(ShelfFault::Failed), 2),
        (RECV, 0, Err(ShelfFault::Failed), 3),
        (LOW, 0, Ok(5), 3),
    ] {
        let size = visit(shelf, name, failing);
        assert_eq!(rt; (size, shelf.disk_faults()), (result, faults));
    }
}

fn is_given(shelf: &mut MemShelf<PlainDisk>, name: DiskName) -> bool {
    shelf.disk(name).is_ok()
}

fn is_home(shelf: &MemShelf<PlainDisk>, name: DiskName) -> bool {
    shelf.home(name).is_some()
}

// A disk that is out is not at home, and can't be taken again.
fn a_disk_is_out(rt: &impl Abort, shelf: &mut MemShelf<PlainDisk>) {
    assert!(rt; is_given(shelf, LOW));
    assert_eq!(rt; (is_home(shelf, LOW), is_home(shelf, HIGH)), (false, true));
    assert!(rt; !is_given(shelf, LOW));
}

fn disk_of(alloc: Global, bytes: &[u8]) -> Result<PlainDisk, Fail> {
    let mut disk = PlainDisk::new(alloc, 8)?;
    let _ = disk.write_at(0, bytes);
    Ok(disk)
}

fn files(alloc: Global) -> Result<Vec<(String, Vec<u8>)>, Fail> {
    let name = String::from_str(alloc, "table")?;
    let rows = Vec::from_slice(alloc, b"rows")?;
    Ok(vec![in alloc; (name, rows)]?)
}

fn disks(alloc: Global) -> Result<Vec<(DiskName, PlainDisk)>, Fail> {
    let mut disks = Vec::new(alloc);
    for (name, bytes) in [(HIGH, b"".as_slice()), (LOW, b"relay")] {
        disks.push((name, disk_of(alloc, bytes)?))?;
    }
    Ok(disks)
}

fn shelf(alloc: Global) -> Result<MemShelf<PlainDisk>, Fail> {
    let fails = vec![in alloc; 5]?;
    let files = files(alloc)?;
    Ok(MemShelf::new(disks(alloc)?, files, fails))
}

#[test]
fn a_shelf_gives_what_it_holds(rt: HostRuntime) -> Result<(), Fail> {
    let mut shelf = shelf(rt.alloc())?;
    files_are_read(&rt, &mut shelf);
    disks_are_taken(&rt, &mut shelf);
    a_disk_is_out(&rt, &mut shelf);
    assert_eq!(rt; shelf.faults(), 1);
    Ok(())
}

//! The current folder as a shelf.

use crate::entering::enter;
use adapters::{Access, FileDisk, FileShelf};
use disk_model::{Disk, DiskFault, DiskName, Role, Shelf, ShelfFault};
use std::fs;
use std::fs::{File, Files};
use std::io::ErrorKind;
use std::os::unix::fs::PermissionsExt;
use std::process::Abort;
use std::test::Fail;

const LOW: DiskName = DiskName {
    session: 7,
    role: Role::Low,
};

const HIGH: DiskName = DiskName {
    session: 7,
    role: Role::High,
};

const RECV: DiskName = DiskName {
    session: 7,
    role: Role::Recv,
};

/// Writes and syncs five bytes, and reads past them.
fn fill<R: Files<File = File>>(disk: &mut FileDisk<'_, R>) -> bool {
    disk.write_at(0, b"relay").is_ok() && disk.sync().is_ok() && disk.read(3, &mut [0; 3]).is_err()
}

fn size_of<R: Files<File = File>>(shelf: &mut FileShelf<'_, R>, name: DiskName) -> Option<u64> {
    match shelf.disk(name) {
        Ok(mut disk) => disk.size().ok(),
        Err(_) => None,
    }
}

/// Takes a disk and fills it, and puts it back. From the first write on the second shelf can't take it: the
/// lock is that of one opening, so it stands for a second process.
fn is_taken_by_one<R: Files<File = File>>(
    rt: &impl Abort,
    shelf: &mut FileShelf<'_, R>,
    second: &mut FileShelf<'_, R>,
) {
    match shelf.disk(LOW) {
        Ok(mut disk) => {
            assert!(rt; fill(&mut disk));
            assert!(rt; size_of(second, LOW).is_none());
            assert!(rt; second.why() == Some(ErrorKind::WouldBlock));
            shelf.keep(LOW, disk);
        }
        Err(_) => assert!(rt; false),
    }
    assert_eq!(rt; (shelf.disk_faults(), second.disk_faults()), (1, 1));
    assert_eq!(rt; size_of(second, LOW), Some(5));
}

/// Both shelves give a disk that isn't there. The first write makes its file, and that of the other fails.
fn is_made_by_one<R: Files<File = File>>(
    rt: &impl Abort,
    shelf: &mut FileShelf<'_, R>,
    second: &mut FileShelf<'_, R>,
) {
    match (shelf.disk(RECV), second.disk(RECV)) {
        (Ok(mut disk), Ok(mut other)) => {
            assert!(rt; disk.write_at(0, b"relay").is_ok());
            assert!(rt; other.write_at(0, b"pumps") == Err(DiskFault));
            assert!(rt; other.size() == Ok(0));
            shelf.keep(RECV, disk);
            second.keep(RECV, other);
        }
        _ => assert!(rt; false),
    }
    assert_eq!(rt; (shelf.disk_faults(), second.disk_faults()), (1, 2));
    assert!(rt; second.why() == Some(ErrorKind::AlreadyExists));
    assert_eq!(rt; size_of(second, RECV), Some(5));
}

fn reads_whole_files<R: Files<File = File>>(rt: &impl Abort, shelf: &mut FileShelf<'_, R>) {
    for (name, length, prefix) in [
        ("7.low", Ok(5), *b"rel"),
        ("table", Err(ShelfFault::Failed), *b"___"),
    ] {
        let mut into = *b"___";
        assert!(rt; shelf.whole(name, &mut into) == length);
        assert_eq!(rt; into, prefix);
    }
    assert_eq!(rt; shelf.faults(), 1);
}

/// A disk that isn't there is empty, and leaves no file where nothing is written to it.
fn leaves_no_file<R: Files<File = File>>(rt: &impl Abort, shelf: &mut FileShelf<'_, R>, files: &R) {
    match shelf.disk(HIGH) {
        Ok(mut disk) => {
            assert!(rt; disk.size() == Ok(0));
            assert!(rt; disk.sync().is_ok());
            shelf.keep(HIGH, disk);
        }
        Err(_) => assert!(rt; false),
    }
    assert!(rt; fs::symlink_metadata(files, "7.high").is_err());
}

#[test]
fn the_current_folder_is_a_shelf(rt: HostRuntime) -> Result<(), Fail> {
    let folder = enter(&rt, "shelf")?;
    let mut shelf = FileShelf::new(rt.alloc(), &rt, Access::Write);
    let mut second = FileShelf::new(rt.alloc(), &rt, Access::Write);
    is_taken_by_one(&rt, &mut shelf, &mut second);
    let mode = fs::metadata(&rt, "7.low")?.permissions().mode();
    assert_eq!(rt; mode & 0o777, 0o600);
    is_made_by_one(&rt, &mut shelf, &mut second);
    leaves_no_file(&rt, &mut second, &rt);
    leaves_no_file(&rt, &mut FileShelf::new(rt.alloc(), &rt, Access::Read), &rt);
    fs::create_dir(&rt, "7.high")?;
    assert!(rt; size_of(&mut second, HIGH).is_none());
    assert!(rt; second.why() == Some(ErrorKind::InvalidInput));
    reads_whole_files(&rt, &mut shelf);
    fs::remove_dir_all(&rt, folder.as_str())?;
    Ok(())
}

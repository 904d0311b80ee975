//! What is said of a file that failed, and the table's file read again for a sentence.

use session_table::Table;
use std::fs::{self, File};
use std::io::{self, ErrorKind, Read};

/// The most bytes that a table has.
const MOST: u64 = 65_536;

/// Why a file could not be used, in the words of a sentence.
fn cause(why: ErrorKind) -> &'static str {
    match why {
        ErrorKind::NotFound => "there is no such file",
        ErrorKind::PermissionDenied => "this user may not use it so",
        ErrorKind::StorageFull | ErrorKind::QuotaExceeded => "its disk has no room left",
        ErrorKind::ReadOnlyFilesystem => "its file system is read-only",
        ErrorKind::OutOfMemory => "the system has not enough memory",
        _ => "a call of the system failed",
    }
}

/// Says why the table's file could not be read.
pub fn explain_table_file(rt: &HostRuntime, table: &str, why: ErrorKind) -> io::Result<()> {
    match why {
        ErrorKind::InvalidInput => eprintln!(rt;
            "netpump: what is called {table} in this folder is no regular file but a folder, a link, a device or a \
            pipe; name the file of the table itself"
        ),
        _ => {
            let cause = cause(why);
            eprintln!(rt;
                "netpump: the file {table} in this folder could not be read: {cause}; see that it is there and that \
                it is yours to read, and try again"
            )
        }
    }
}

/// Says why a disk's file could not be used, and what to do: `else_do` where only the system knows.
pub fn explain_disk_file(
    rt: &HostRuntime,
    session: &str,
    role: &str,
    why: ErrorKind,
    else_do: &str,
) -> io::Result<()> {
    match why {
        ErrorKind::WouldBlock => eprintln!(rt;
            "netpump: the file {session}.{role} is in use by another netpump; wait until that one has ended, and try \
            again"
        ),
        ErrorKind::AlreadyExists => eprintln!(rt;
            "netpump: the file {session}.{role} was made by another program meanwhile, and is left as it is; wait \
            until that one has ended, and try again"
        ),
        ErrorKind::InvalidInput => eprintln!(rt;
            "netpump: what is called {session}.{role} in this folder is no regular file but a folder, a link, a \
            device or a pipe; move it away, and put the disk of this name there"
        ),
        _ => {
            let cause = cause(why);
            eprintln!(rt;
                "netpump: the file {session}.{role} in this folder could not be made, read, written or synced: \
                {cause}; {else_do}"
            )
        }
    }
}

/// Says why a disk's file could not be read beside a relay.
pub fn explain_unread_disk(
    rt: &HostRuntime,
    session: &str,
    role: &str,
    why: ErrorKind,
) -> io::Result<()> {
    match why {
        ErrorKind::InvalidInput => eprintln!(rt;
            "netpump: what is called {session}.{role} in this folder is no regular file but a folder, a link, a \
            device or a pipe; run this in the folder of the disks"
        ),
        _ => {
            let cause = cause(why);
            eprintln!(rt;
                "netpump: the file {session}.{role} in this folder could not be read: {cause}; run this in the \
                folder of the disks, as a user that may read them"
            )
        }
    }
}

/// The bytes of a file that may be a table. What is no regular file, or has more bytes, is not read to its end.
pub fn table_bytes(rt: &HostRuntime, name: &str) -> io::Result<Vec<u8>> {
    if !fs::symlink_metadata(rt, name)?.is_file() {
        return Err(io::Error::from(ErrorKind::InvalidInput));
    }
    let mut bytes: Vec<u8> = Vec::new(rt.alloc());
    File::open(rt, name)?
        .take(MOST + 1)
        .read_to_end(&mut bytes)?;
    if bytes.len() as u64 > MOST {
        return Err(io::Error::from(ErrorKind::FileTooLarge));
    }
    Ok(bytes)
}

/// The table of this name, which is read again for a sentence.
pub fn table(rt: &HostRuntime, name: &str) -> Option<Table> {
    let bytes = table_bytes(rt, name).ok()?;
    Table::read(rt.alloc(), bytes.as_slice()).ok()
}

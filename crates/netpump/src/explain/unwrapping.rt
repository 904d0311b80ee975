//! The sentences of `unwrap`, which writes no fault line.

use super::files::explain_disk_file;
use super::{Trouble, fault_of_table, word};
use std::io;

/// Why a session has no row that serves.
fn explain_row(rt: &HostRuntime, table: &str, session: &str) -> io::Result<()> {
    match fault_of_table(rt, table) {
        Some(fault) => eprintln!(rt; "netpump: in the file {table}: {fault}"),
        None => eprintln!(rt;
            "netpump: no row of the table {table} has id = {session} and messages of at least 9 bytes, which files \
            need; name a session that has one"
        ),
    }
}

/// Why the receiver's disk could not be read.
fn explain_file(rt: &HostRuntime, session: &str, trouble: Trouble) -> io::Result<()> {
    match trouble {
        Trouble::Failed(why) | Trouble::Unread(why) => explain_disk_file(
            rt,
            session,
            "recv",
            why,
            "see that it is yours to read, and try again",
        ),
        _ => eprintln!(rt;
            "netpump: the file {session}.recv in this folder could not be made, read or synced; see that it is yours \
            to read, and try again"
        ),
    }
}

/// Why `unwrap` ended with this status, one of 6, 7, 8, 13 and 14.
pub fn explain_unwrap(
    rt: &HostRuntime,
    words: &[String],
    status: u8,
    trouble: Trouble,
) -> io::Result<()> {
    let table = word(words, 1).unwrap_or("TABLE");
    let session = word(words, 2).unwrap_or("S");
    match status {
        6 => explain_row(rt, table, session),
        7 => explain_file(rt, session, trouble),
        8 => eprintln!(rt;
            "netpump: the file {session}.recv is no disk of session {session}, as its row in {table} has it; netpump \
            show {table} {session} says what is wrong with it"
        ),
        13 => eprintln!(rt;
            "netpump: the messages with the receiver of session {session} are not those of a file, in pieces of the \
            message size that its row in {table} has; what was written is the pieces before the first that is none"
        ),
        _ => eprintln!(rt;
            "netpump: the receiver of session {session} has not all messages of its file yet; what it has of it was \
            written. Unwrap it again, once the file is sent to its end"
        ),
    }
}

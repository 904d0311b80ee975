//! The sentences of `migrate`, which has two tables and two sessions.

use super::files::table;
use super::{field, word};
use std::io;

/// Whether the file is a table with a row for the session, which is read again for it.
fn has_row(rt: &HostRuntime, name: &str, session: &str) -> bool {
    match (table(rt, name), session.parse::<u32>()) {
        (Some(table), Ok(session)) => table.row(session).is_some(),
        _ => false,
    }
}

/// The table that gave no row: where there are two of them the first one, unless it has a row for the
/// session to move.
pub fn table_name<'a>(rt: &HostRuntime, words: &'a [String]) -> &'a str {
    let table = word(words, 1).unwrap_or("TABLE");
    let session = word(words, 2).unwrap_or("S");
    match (word(words, 0), word(words, 3)) {
        (Some("migrate"), Some(new_table)) if has_row(rt, table, session) => new_table,
        _ => table,
    }
}

/// One session is to be moved to itself.
pub fn explain_same(rt: &HostRuntime, words: &[String], session: &str) -> io::Result<()> {
    let new_table = word(words, 3).unwrap_or("NEWTABLE");
    eprintln!(rt;
        "netpump: a session is moved to another one, and both are session {session}; give the new row in {new_table} \
        an id of its own, and name that"
    )
}

/// A disk that is not empty.
pub fn explain_filled(rt: &HostRuntime, words: &[String], line: &str) -> io::Result<()> {
    let (session, role, size) = (field(line, 2), field(line, 3), field(line, 5));
    let (only, again) = match word(words, 0) {
        Some("migrate") => ("a session is moved to empty disks only", "migrate"),
        _ => ("only empty disks are formatted", "format"),
    };
    eprintln!(rt;
        "netpump: the file {session}.{role} has {size} bytes already, and {only}; if nothing in them is wanted, \
        remove the files {session}.low, {session}.high and {session}.recv, and {again} again"
    )
}

/// More messages than the new row has places for.
pub fn explain_small(rt: &HostRuntime, line: &str) -> io::Result<()> {
    let (session, held, capacity) = (field(line, 2), field(line, 5), field(line, 6));
    eprintln!(rt;
        "netpump: {held} messages of session {session} are not removed, and the new row has capacity = {capacity}; \
        give it a larger one, or let the relay of session {session} hand some on to the receiver first"
    )
}

/// A message that is longer than the new row's.
pub fn explain_long(rt: &HostRuntime, line: &str) -> io::Result<()> {
    let (session, role) = (field(line, 2), field(line, 3));
    let (number, length) = (field(line, 5), field(line, 6));
    eprintln!(rt;
        "netpump: message {number} in the file {session}.{role} has {length} bytes, which is more than the new row's \
        message; make that at least as long as the longest message"
    )
}

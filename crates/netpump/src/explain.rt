//! The sentences that say why the program ended, and what to do.

mod appending;
mod auditing;
mod carrying;
mod disks;
mod files;
mod link;
mod moving;
mod quiet;
mod unwrapping;
mod words;
mod wrapping;

use appending::explain_append;
use auditing::{explain_audit, explain_difference, explain_unpaired};
use carrying::explain_transfer;
use disks::explain_refusal;
use files::{explain_disk_file, explain_table_file, explain_unread_disk, table_bytes};
pub use link::row;
use link::{
    explain_ahead, explain_full, explain_port, explain_refused, explain_unfinished,
    explain_unwritten,
};
use moving::{explain_same, table_name};
pub use quiet::Passed;
use quiet::tell_left_out;
use session_table::{Table, TableFault};
use std::io::{self, ErrorKind};
use std::str;
use unwrapping::explain_unwrap;
use words::explain_words;
use wrapping::explain_wrap;

/// What is known of a file that stopped a command with status 3 or 7, or of a port that did with status 9.
#[derive(Clone, Copy)]
pub enum Trouble {
    /// The table's file could not be read, by this cause.
    Unread(ErrorKind),
    /// A call of the disk's file failed, by this cause.
    Failed(ErrorKind),
    /// The ports of the low side failed.
    LowPort,
    /// Those of the high side did.
    HighPort,
    /// A call on the folder failed, by this cause.
    Folder(ErrorKind),
    /// No file failed: a line of the script told so, or something else was read.
    Told,
}

/// The fault's line, without its line end.
fn fault_line(last: &[u8]) -> Option<&str> {
    let line = last.strip_suffix(b"\n")?;
    str::from_utf8(line).ok()?.rsplit('\n').next()
}

/// The field with this place in the fault's line.
fn field<'a>(line: &'a str, place: usize) -> &'a str {
    line.split(' ').nth(place).unwrap_or("?")
}

/// The word with this place.
fn word(words: &[String], place: usize) -> Option<&str> {
    words.get(place).map(String::as_str)
}

fn explain_message(rt: &HostRuntime, last: &[u8]) -> io::Result<()> {
    let line = fault_line(last).unwrap_or("");
    let number = field(line, 2);
    eprintln!(rt;
        "netpump: line {number} of standard input is no message; write a message as two hexadecimal digits for each \
        of its 1024 bytes at most, or - for no bytes, in a line of its own that ends with a newline and has no \
        carriage return. Mend it and send all lines again: those that are stored are passed over"
    )
}

fn explain_script(rt: &HostRuntime, last: &[u8]) -> io::Result<()> {
    match fault_line(last) {
        Some(line) => {
            let number = field(line, 2);
            eprintln!(rt;
                "netpump: line {number} of the script is written wrong or can't be applied there; mend it and replay \
                the script again. Each line, the last one too, ends with a newline that no carriage return stands \
                before (docs/formats.md, \"Scripts\", tells how lines are written and when they can be applied)"
            )
        }
        None => eprintln!(rt;
            "netpump: a line of the script is written wrong or can't be applied there; the last line of the output \
            has its number"
        ),
    }
}

fn explain_device(rt: &HostRuntime, last: &[u8], trouble: Trouble) -> io::Result<()> {
    let line = fault_line(last).unwrap_or("");
    let session = field(line, 2);
    let role = field(line, 3);
    match trouble {
        Trouble::Failed(why) | Trouble::Unread(why) => explain_disk_file(
            rt,
            session,
            role,
            why,
            "see that its disk has room and that the file is yours to write, and go on with what was not \
            acknowledged. What was acknowledged is kept",
        ),
        _ => eprintln!(rt;
            "netpump: the device of the low disk fails in a store, as a line with the word fault tells; write fine \
            in its place to go on. What was said until then is answered above"
        ),
    }
}

/// The file of a disk that was not read beside a relay.
fn explain_beside(rt: &HostRuntime, last: &[u8], trouble: Trouble) -> io::Result<()> {
    let line = fault_line(last).unwrap_or("");
    let session = field(line, 2);
    let role = field(line, 3);
    match trouble {
        Trouble::Failed(why) | Trouble::Unread(why) => explain_unread_disk(rt, session, role, why),
        _ => eprintln!(rt;
            "netpump: the file {session}.{role} in this folder could not be read; see that it is there and that it \
            is yours to read, and try again"
        ),
    }
}

fn explain_unread(rt: &HostRuntime, words: &[String], trouble: Trouble) -> io::Result<()> {
    let table = table_name(rt, words);
    match (trouble, word(words, 0)) {
        (Trouble::Unread(why), _) => explain_table_file(rt, table, why),
        (_, Some("serve")) => eprintln!(rt;
            "netpump: the 32 bytes of the relay's key could not be read from /dev/urandom; see that this machine has \
            it and that it is yours to read, and try again"
        ),
        (_, Some("wrap")) => eprintln!(rt;
            "netpump: the file on standard input could not be read to its end; see that it is a file or a pipe, and \
            not a folder, and wrap it again: what was sent of it is passed over"
        ),
        _ => eprintln!(rt;
            "netpump: standard input could not be read to its end; see that it is a file or a pipe, and not a \
            folder. What it said until then is answered above"
        ),
    }
}

/// What is wrong with a table, which is read again for it.
fn fault_of_table(rt: &HostRuntime, name: &str) -> Option<TableFault> {
    let bytes = table_bytes(rt, name).ok()?;
    Table::read(rt.alloc(), bytes.as_slice()).err()
}

fn explain_table(rt: &HostRuntime, words: &[String], last: &[u8]) -> io::Result<()> {
    let line = fault_line(last).unwrap_or("");
    let table = table_name(rt, words);
    let session = field(line, 3);
    match field(line, 2) {
        "10" => eprintln!(rt;
            "netpump: the file {table} has more than 65,536 bytes, which no table has; name the right file, or take \
            out what is no row"
        ),
        "11" => eprintln!(rt;
            "netpump: no row of the table {table} has id = {session}; name a session that has one, or add it"
        ),
        "12" => eprintln!(rt;
            "netpump: the messages of session {session} have fewer than 9 bytes in the table {table}, and a file \
            needs as many; name a session that has longer ones"
        ),
        "13" => explain_same(rt, words, session),
        _ => match fault_of_table(rt, table) {
            Some(fault) => eprintln!(rt; "netpump: in the file {table}: {fault}"),
            None => eprintln!(rt;
                "netpump: the file {table} was no table when it was read; it has changed since then, so try again"
            ),
        },
    }
}

fn explain_receiver(rt: &HostRuntime, words: &[String], last: &[u8]) -> io::Result<()> {
    let line = fault_line(last).unwrap_or("");
    match field(line, 1) {
        "ahead" => explain_ahead(rt, line),
        _ => explain_full(rt, words, line),
    }
}

/// How the program ends, and what is known of it.
#[derive(Clone, Copy)]
pub struct Ending<'a> {
    pub status: u8,
    /// The end of what was written.
    pub last: &'a [u8],
    pub trouble: Trouble,
    pub passed: Passed,
}

/// Says on standard error, in a sentence or two, why the program ends so and what to do; or what it left out.
pub fn explain(rt: &HostRuntime, words: &[String], ending: &Ending<'_>) -> io::Result<()> {
    let (status, last, trouble) = (ending.status, ending.last, ending.trouble);
    match status {
        0 => tell_left_out(rt, words, ending.passed),
        1 => eprintln!(rt; "netpump: there is not enough memory; end other programs and try again"),
        2 => explain_words(rt, words),
        3 => explain_unread(rt, words, trouble),
        4 => explain_unwritten(rt, words),
        6..=8 | 10..=14 if matches!(word(words, 0), Some("drop" | "collect")) => {
            explain_transfer(rt, words, ending)
        }
        5 | 10 | 11 | 12 if word(words, 0) == Some("append") => {
            explain_append(rt, words, status, last)
        }
        5 if word(words, 0) == Some("send") => explain_message(rt, last),
        5 if word(words, 0) == Some("compare") => explain_unpaired(rt, last),
        10 | 13 | 14 if word(words, 0) == Some("wrap") => explain_wrap(rt, words, status, last),
        6 | 7 | 8 | 13 | 14 if word(words, 0) == Some("unwrap") => {
            explain_unwrap(rt, words, status, trouble)
        }
        6 => explain_table(rt, words, last),
        7 if matches!(word(words, 0), Some("messages" | "status")) => {
            explain_beside(rt, last, trouble)
        }
        7 => explain_device(rt, last, trouble),
        8 => explain_refusal(rt, words, last),
        9 => explain_port(rt, words, trouble),
        10 => explain_receiver(rt, words, last),
        11 => explain_refused(rt, words, fault_line(last).unwrap_or("")),
        12 => explain_unfinished(rt, words, fault_line(last).unwrap_or(""), ending.passed),
        15 => explain_audit(rt, last),
        16 => explain_difference(rt, last),
        _ => explain_script(rt, last),
    }
}

//! The sentences of a disk that is refused.

use super::moving::{explain_filled, explain_long, explain_small};
use super::{fault_line, field, word};
use std::fs::File;
use std::io::{self, Read};

/// The bytes of a disk's header that tell its fields.
type Header = [u8; 20];

/// A field of a disk's header.
#[derive(Clone, Copy)]
enum Field {
    Role,
    Version,
    Session,
    Capacity,
    Message,
    Size,
}

/// The header of a disk's file, which is read again for a sentence.
fn header(rt: &HostRuntime, session: &str, role: &str) -> Option<Header> {
    let name = format!(in rt.alloc(); "{session}.{role}").ok()?;
    let mut header = [0; 20];
    File::open(rt, name.as_str())
        .ok()?
        .read_exact(&mut header)
        .ok()?;
    Some(header)
}

/// The number at an offset of the header.
fn number_at(header: &Header, at: usize) -> u32 {
    match header.get(at..at.saturating_add(4)) {
        Some([a, b, c, d]) => u32::from_be_bytes([*a, *b, *c, *d]),
        _ => 0,
    }
}

/// The name of the role that a header tells.
fn role_of(header: &Header) -> &'static str {
    match header[4] {
        b'L' => "low",
        b'H' => "high",
        b'R' => "recv",
        _ => "unknown",
    }
}

/// The first field that is not as it should be, where `found` stands in it.
fn other_field(header: &Header, session: &str, role: &str, found: &str, wanted: &str) -> Field {
    let found = found.parse::<u32>().ok();
    if role_of(header) != role {
        Field::Role
    } else if wanted == "2" && found == Some(u32::from(header[5])) && header[5] != 2 {
        Field::Version
    } else if session.parse::<u32>().ok() != Some(number_at(header, 8)) {
        Field::Session
    } else if found == Some(number_at(header, 12)) {
        Field::Capacity
    } else if found == Some(number_at(header, 16)) {
        Field::Message
    } else {
        Field::Size
    }
}

/// A disk whose header does not fit the session's row.
fn explain_field(
    rt: &HostRuntime,
    session: &str,
    role: &str,
    found: &str,
    wanted: &str,
) -> io::Result<()> {
    let Some(header) = header(rt, session, role) else {
        return eprintln!(rt;
            "netpump: the file {session}.{role} was made with other numbers than those of the session, or is another \
            disk: {found} stands where {wanted} is wanted"
        );
    };
    match other_field(&header, session, role, found, wanted) {
        Field::Role => {
            let other = role_of(&header);
            eprintln!(rt;
                "netpump: the file {session}.{role} is a disk of the role {other}, and one of the role {role} is \
                wanted, so the files of the session stand under each other's names"
            )
        }
        Field::Version => eprintln!(rt;
            "netpump: the file {session}.{role} is of version {found}, and {wanted} is wanted"
        ),
        Field::Session => eprintln!(rt;
            "netpump: the file {session}.{role} is a disk of session {found}, and the session is {wanted}"
        ),
        Field::Capacity => eprintln!(rt;
            "netpump: the file {session}.{role} was made with the capacity {found}, and the session's is {wanted}"
        ),
        Field::Message => eprintln!(rt;
            "netpump: the file {session}.{role} was made with the message size {found}, and the session's is {wanted}"
        ),
        Field::Size => eprintln!(rt;
            "netpump: the file {session}.{role} has {found} bytes, and a disk of its session has {wanted}"
        ),
    }
}

/// What was found on a disk that is refused.
fn explain_disk(rt: &HostRuntime, words: &[String], line: &str) -> io::Result<()> {
    let session = field(line, 2);
    let role = field(line, 3);
    let first = field(line, 5);
    let second = field(line, 6);
    match field(line, 4) {
        "2" => eprintln!(rt;
            "netpump: the file {session}.{role} is no disk of netpump's: it has {first} bytes, and does not begin as \
            one"
        ),
        "3" => explain_field(rt, session, role, first, second),
        "4" => eprintln!(rt;
            "netpump: the register of the file {session}.{role} has {first} and {second}, which no such disk has"
        ),
        "5" => eprintln!(rt;
            "netpump: the files {session}.low and {session}.high are not of one time: {first} messages are removed, \
            and {second} accepted"
        ),
        "6" => eprintln!(rt;
            "netpump: message {first} in the file {session}.{role} has {second} bytes, which is more than the \
            session line allows"
        ),
        "7" => eprintln!(rt;
            "netpump: the files of session {session} are not of one time: the receiver has {first} messages, and the \
            bound is {second}"
        ),
        "9" => explain_filled(rt, words, line),
        "10" => explain_small(rt, line),
        "11" => explain_long(rt, line),
        "12" => eprintln!(rt;
            "netpump: the second pump has accepted {first} messages in {session}.low, and the receiver of the first \
            one has {second} alone, so the six files are not of one time; put back those that belong together, or \
            replay the chain in an empty folder"
        ),
        "13" => eprintln!(rt;
            "netpump: message {first} in {session}.low is another one than the receiver of the first pump has, so \
            the six files are not of one chain; put back those that belong together, or replay the chain in an empty \
            folder"
        ),
        _ => eprintln!(rt;
            "netpump: the files of session {session} are not of one time: message {first} is another one in \
            {session}.low than in {session}.recv"
        ),
    }
}

/// A disk that is empty, and what to do.
fn explain_empty(rt: &HostRuntime, words: &[String], last: &[u8]) -> io::Result<()> {
    let line = fault_line(last).unwrap_or("");
    let table = word(words, 1).unwrap_or("TABLE");
    let session = field(line, 2);
    let role = field(line, 3);
    eprintln!(rt;
        "netpump: the file {session}.{role} is empty, so it is no disk yet; where all three files of the session are \
        empty, netpump format {table} {session} makes new disks, and else put back the three files that belong \
        together"
    )
}

/// What was found on a disk that is refused, and what to do.
pub fn explain_refusal(rt: &HostRuntime, words: &[String], last: &[u8]) -> io::Result<()> {
    let line = fault_line(last).unwrap_or("");
    let number = field(line, 4);
    if number == "2" && field(line, 5) == "0" {
        return explain_empty(rt, words, last);
    }
    explain_disk(rt, words, line)?;
    // Those sentences say what to do.
    if matches!(number, "9" | "10" | "11" | "12" | "13") {
        return Ok(());
    }
    eprintln!(rt;
        "netpump: put back the three files that belong together, use the numbers of the session line that made them, \
        or replay in an empty folder to begin anew (docs/formats.md, \"When disks are refused\")"
    )
}

//! The sentences of commands over a socket.

use super::files::table;
use super::{Passed, Trouble, field, word};
use pump_frame::SessionRow;
use std::io;

/// The row of the session that the words name, from the table that they name, which is read again for it.
pub fn row(rt: &HostRuntime, words: &[String]) -> Option<SessionRow> {
    let session = word(words, 2)?.parse::<u32>().ok()?;
    table(rt, word(words, 1)?)?.row(session)
}

/// A port that can't be listened at, or at which nobody answers.
pub fn explain_port(rt: &HostRuntime, words: &[String], trouble: Trouble) -> io::Result<()> {
    let table = word(words, 1).unwrap_or("TABLE");
    let session = word(words, 2).unwrap_or("S");
    let (low, high) = match row(rt, words) {
        Some(row) => (row.low_port, row.high_port),
        None => (0, 0),
    };
    let (side, port) = match trouble {
        Trouble::LowPort => ("low", low),
        _ => ("high", high),
    };
    match word(words, 0) {
        Some("serve") => eprintln!(rt;
            "netpump: port {port} of 127.0.0.1, which is the {side} port of session {session}, could not be listened \
            at; see that no other program has it, such as another netpump that serves this session, and that it is \
            yours to take (those below 1024 are root's), or give the session another {side}_port in {table}"
        ),
        _ => eprintln!(rt;
            "netpump: nobody answers at port {port} of 127.0.0.1, which is the {side} port of session {session}; \
            start its relay in the folder of its disks by netpump serve {table} {session} LOOKS, and try again while \
            it runs"
        ),
    }
}

/// An output that can't be written any more.
pub fn explain_unwritten(rt: &HostRuntime, words: &[String]) -> io::Result<()> {
    let then = match word(words, 0) {
        Some("serve") => {
            "start the relay again, with a new file for the record, since nothing was taken from Low any more. What \
            was acknowledged is kept"
        }
        Some("append") => {
            "append with no input, to be told which message is next, and then the lines from that one on"
        }
        Some("send") => "send all lines again: those that are stored are passed over",
        Some("drop") => "drop again, which goes on where this ended",
        Some("collect") => {
            "collect again, which goes on where this ended. What is shown is kept, and its line is not printed again"
        }
        Some("receive") => {
            "receive again. The message whose line could not be written is kept, and its line is not printed again"
        }
        _ => "try again",
    };
    eprintln!(rt;
        "netpump: standard output could not be written; see that its reader is there, or that its disk has room, and \
        {then}"
    )
}

/// A message that is out of step with the receiver's disk.
pub fn explain_ahead(rt: &HostRuntime, line: &str) -> io::Result<()> {
    let session = field(line, 2);
    let number = field(line, 3);
    let count = field(line, 4);
    eprintln!(rt;
        "netpump: the relay brings message {number}, and the file {session}.recv has the first {count} alone, so the \
        files of session {session} are not of one time; put back the {session}.recv that belongs to the relay's \
        {session}.high"
    )
}

/// A message that does not fit on the receiver's disk.
pub fn explain_full(rt: &HostRuntime, words: &[String], line: &str) -> io::Result<()> {
    let session = field(line, 2);
    let end = field(line, 3);
    let length = field(line, 4);
    let size = field(line, 5);
    match word(words, 0) {
        Some("receive") => eprintln!(rt;
            "netpump: the next message has {length} bytes, and the file {session}.recv has no room for it: its \
            records end at byte {end} of {size}. All that it has is kept; to go on, keep the three files of session \
            {session} elsewhere and format new ones"
        ),
        _ => eprintln!(rt;
            "netpump: a message of {length} bytes does not fit on the receiver's disk of session {session}, whose \
            records end at byte {end} of {size}; replay fewer messages, or shorter ones"
        ),
    }
}

/// A frame that the relay refused.
pub fn explain_refused(rt: &HostRuntime, words: &[String], line: &str) -> io::Result<()> {
    let table = word(words, 1).unwrap_or("TABLE");
    let session = word(words, 2).unwrap_or("S");
    let number = field(line, 3);
    match field(line, 2) {
        "1" => eprintln!(rt;
            "netpump: the relay knows session {session} by other names than {table} has; use the relay's table"
        ),
        "2" => eprintln!(rt;
            "netpump: the relay did not expect what was sent, which is so where its session {session} is another \
            than that of {table}; use the relay's table, and send all lines again"
        ),
        "3" => eprintln!(rt;
            "netpump: the message after the last one acknowledged above is longer than the relay takes in session \
            {session}; send a shorter one in its place, or give the session a greater message in the table of both \
            and new disks"
        ),
        "4" => eprintln!(rt;
            "netpump: the message after the last one acknowledged above is out of step: the relay wants message \
            {number} next; see that nobody else sends to session {session}, and send all lines again from the first \
            on"
        ),
        _ => eprintln!(rt;
            "netpump: a disk of the relay failed, so the message after the last one acknowledged above is not \
            stored; the relay says which disk. Mend it, start the relay anew, and send all lines again: those that \
            are stored are passed over"
        ),
    }
}

/// Messages that are not acknowledged.
pub fn explain_unfinished(
    rt: &HostRuntime,
    words: &[String],
    line: &str,
    passed: Passed,
) -> io::Result<()> {
    let number = field(line, 2);
    let looks = word(words, 3).unwrap_or("LOOKS");
    if passed.has_ended {
        eprintln!(rt;
            "netpump: message {number} and those after it are not acknowledged: the connection to the relay ended, \
            or took no bytes for a second; see that the relay runs, has rounds left and can write its record, and \
            send all lines again: those that are stored are passed over"
        )
    } else {
        eprintln!(rt;
            "netpump: message {number} and those after it are not acknowledged: the {looks} looks are used up, of \
            which each byte that comes takes one, and each wait for a byte; send all lines again with 4294967295 \
            looks: those that are stored are passed over"
        )
    }
}

//! The sentences of the commands that carry files from folder to folder.

use super::{Ending, Trouble, explain_table, fault_line, field, word};
use std::io::{self, ErrorKind};

/// The folder that the words name.
fn folder(words: &[String]) -> &str {
    word(words, 4).unwrap_or("FOLDER")
}

/// A call on the folder that failed.
fn explain_call(rt: &HostRuntime, words: &[String], why: Option<ErrorKind>) -> io::Result<()> {
    let folder = folder(words);
    match why {
        Some(ErrorKind::WouldBlock) => eprintln!(rt;
            "netpump: another netpump is at work in the folder {folder}; end it, or wait until it has ended, and try \
            again"
        ),
        Some(ErrorKind::StorageFull) => eprintln!(rt;
            "netpump: the disk of the folder {folder} is full. Nothing is lost: make room, and start again, which \
            goes on where this ended"
        ),
        Some(ErrorKind::NotFound) => eprintln!(rt;
            "netpump: the folder {folder} is not there, or a file of netpump in it is gone; make the folder in this \
            one, or see who takes such files away, and start again"
        ),
        Some(ErrorKind::NotADirectory) => eprintln!(rt;
            "netpump: {folder} is no folder; name one that is in this folder"
        ),
        Some(ErrorKind::PermissionDenied) if word(words, 0) == Some("drop") => eprintln!(rt;
            "netpump: the folder {folder}, or the file in it that is to be sent, is not yours to read and to write; \
            change that, and start again, which goes on where this ended. The name of such a file begins with \
            .np-{}- then, and its own name stands at the end of that",
            word(words, 2).unwrap_or("S")
        ),
        Some(ErrorKind::PermissionDenied) => eprintln!(rt;
            "netpump: the folder {folder}, or a file in it, is not yours to read and to write; change that, and \
            start again, which goes on where this ended"
        ),
        Some(ErrorKind::InvalidInput) => eprintln!(rt;
            "netpump: what has the name of a file of netpump in the folder {folder} is no regular file; take it \
            away, and start again"
        ),
        Some(ErrorKind::OutOfMemory) => eprintln!(rt;
            "netpump: there is not enough memory for a list of the folder {folder}; end other programs, or move \
            some of its files away, and start again"
        ),
        _ => eprintln!(rt;
            "netpump: a call on the folder {folder} failed; see that its disk works, and start again, which goes on \
            where this ended"
        ),
    }
}

/// Why the folder, or what lies in it, stopped the command.
fn explain_folder(
    rt: &HostRuntime,
    words: &[String],
    line: &str,
    trouble: Trouble,
) -> io::Result<()> {
    let folder = folder(words);
    let session = field(line, 2);
    let number = field(line, 3);
    match field(line, 1) {
        "name" => eprintln!(rt;
            "netpump: the file that came whole with message {number} of session {session} is not shown, since other \
            files in the folder {folder} have its name, and its name with ~{number} behind it. Nothing is \
            overwritten: move them away, and collect again"
        ),
        "marks" => eprintln!(rt;
            "netpump: more than one file in the folder {folder} is marked as being sent: their names begin with \
            .np-{session}-. Keep the one that the last drop had, give the others their own names again, which stand \
            at the end of the marked ones, and drop again"
        ),
        "register" => eprintln!(rt;
            "netpump: the file .{session}.files in the folder {folder} is none that collect made, or is damaged; put \
            back the one that belongs there"
        ),
        "step" => eprintln!(rt;
            "netpump: the file that is being sent out of the folder {folder} began with message {number}, and the \
            relay has accepted {} messages, so the folder and the disks of session {session} are not of one time, \
            or somebody else sends to this session. Give the file, whose name begins with .np-{session}-, its own \
            name again, which stands at the end of that one, and drop again: it is sent from its beginning",
            field(line, 4)
        ),
        "long" => eprintln!(rt;
            "netpump: a file in the folder {folder} has 2^48 bytes or more, which no message can tell; take away \
            the file whose name begins with .np-, and drop again"
        ),
        _ => match trouble {
            Trouble::Folder(why) => explain_call(rt, words, Some(why)),
            _ => explain_call(rt, words, None),
        },
    }
}

/// What came over the link, or did not, that stopped the command.
fn explain_party(rt: &HostRuntime, words: &[String], line: &str) -> io::Result<()> {
    let session = word(words, 2).unwrap_or("S");
    let table = word(words, 1).unwrap_or("TABLE");
    match (field(line, 1), field(line, 2)) {
        ("ahead", _) => eprintln!(rt;
            "netpump: the relay brings message {}, and the folder {} has those before {} alone, so the folder and \
            the disks of session {session} are not of one time; put back the folder's .{session}.files and \
            .{session}.part that belong to the relay's {session}.high",
            field(line, 3),
            folder(words),
            field(line, 4)
        ),
        ("refused", "1") => eprintln!(rt;
            "netpump: the relay knows session {session} by other names than {table} has; use the relay's table"
        ),
        ("refused", "5") => eprintln!(rt;
            "netpump: a disk of the relay failed, and the relay says which. Mend it, start the relay anew, and drop \
            again, which goes on where this ended"
        ),
        ("refused", _) => eprintln!(rt;
            "netpump: the relay did not expect what was sent in session {session}; use the relay's table, see that \
            nobody else sends to this session, and drop again, which goes on where this ended"
        ),
        _ => eprintln!(rt;
            "netpump: the connection to the relay ended, or all looks were made, before message {} was \
            acknowledged. Nothing is lost: start the relay if it has ended, and drop again, which goes on where \
            this ended",
            field(line, 2)
        ),
    }
}

/// A command over folders that is not done.
pub fn explain_transfer(rt: &HostRuntime, words: &[String], ending: &Ending<'_>) -> io::Result<()> {
    let line = fault_line(ending.last).unwrap_or("");
    match ending.status {
        6 if field(line, 2) == "12" => eprintln!(rt;
            "netpump: the messages of session {} have fewer than 138 bytes in the table {}, and the name of a file \
            needs as many; name a session that has longer ones",
            field(line, 3),
            word(words, 1).unwrap_or("TABLE")
        ),
        6 => explain_table(rt, words, ending.last),
        7 | 8 | 13 | 14 => explain_folder(rt, words, line, ending.trouble),
        _ => explain_party(rt, words, line),
    }
}

/// Files that a drop left lying.
pub fn tell_lying(rt: &HostRuntime, words: &[String], count: u64) -> io::Result<()> {
    if count == 0 {
        return Ok(());
    }
    eprintln!(rt;
        "netpump: {count} in number are not sent out of the folder {}, since their names can't go or they are no \
        regular files (docs/running.md, \"Folders\", says which names can)",
        folder(words)
    )
}

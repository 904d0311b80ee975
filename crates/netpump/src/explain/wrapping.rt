//! The sentences of `wrap`.

use super::{fault_line, field, word};
use std::io;

/// Why `wrap` ended with this status, one of 10, 13 and 14.
pub fn explain_wrap(rt: &HostRuntime, words: &[String], status: u8, last: &[u8]) -> io::Result<()> {
    let table = word(words, 1).unwrap_or("TABLE");
    let session = word(words, 2).unwrap_or("S");
    let line = fault_line(last).unwrap_or("");
    match status {
        10 => {
            let (end, length, size) = (field(line, 3), field(line, 4), field(line, 5));
            eprintln!(rt;
                "netpump: the next message of the file has {length} bytes, and the file {session}.recv has no room \
                for it: its records end at byte {end} of {size}. What was sent before is kept there, and no file is \
                lost; cut the file into smaller ones, and send each over a session with new disks"
            )
        }
        13 => {
            let number = field(line, 3);
            eprintln!(rt;
                "netpump: the receiver of session {session} has another message {number} than this file, in pieces \
                of the message size that its row in {table} has, so it was begun with another file; send that one to \
                its end, or this one over a session with new disks. Nothing of this file was sent"
            )
        }
        _ => eprintln!(rt;
            "netpump: the file has 2^48 bytes or more, which is more than a file over a session may have; what was \
            sent of it is kept"
        ),
    }
}

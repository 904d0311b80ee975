//! The sentences of a sender of a stream.

use super::{fault_line, field, word};
use std::io;

fn explain_elsewhere(rt: &HostRuntime, session: &str, line: &str) -> io::Result<()> {
    let number = field(line, 3);
    let count = field(line, 4);
    eprintln!(rt;
        "netpump: message {number} was under way when the connection broke, and now the relay of session {session} \
        takes message {count} next; see that nobody else sends to this session, and that the relay has its newest \
        disks. netpump messages shows which lines its receiver has; append those that it lacks"
    )
}

fn explain_refusal(rt: &HostRuntime, words: &[String], line: &str) -> io::Result<()> {
    let table = word(words, 1).unwrap_or("TABLE");
    let session = word(words, 2).unwrap_or("S");
    match field(line, 2) {
        "1" => eprintln!(rt;
            "netpump: the relay knows session {session} by other names than {table} has; use the relay's table"
        ),
        "3" => eprintln!(rt;
            "netpump: the message after the last one acknowledged above is longer than the relay takes in session \
            {session}; append a shorter one in its place and then the lines behind it, or give the session a greater \
            message in the table of both and new disks"
        ),
        "5" => eprintln!(rt;
            "netpump: a disk of the relay failed, so the message after the last one acknowledged above may not be \
            stored; the relay says which disk. Mend it and start the relay anew. Then append with no input, to be \
            told which message is next, and then the lines from that one on"
        ),
        _ => eprintln!(rt;
            "netpump: the relay did not expect what was sent, which is so where its session {session} is another \
            than that of {table}, or where somebody else sends to it; see to that, and append the lines that are not \
            acknowledged"
        ),
    }
}

/// Why a sender of a stream ended before its lines did.
pub fn explain_append(
    rt: &HostRuntime,
    words: &[String],
    status: u8,
    last: &[u8],
) -> io::Result<()> {
    let line = fault_line(last).unwrap_or("");
    let session = word(words, 2).unwrap_or("S");
    let looks = word(words, 3).unwrap_or("LOOKS");
    let number = field(line, 2);
    match status {
        5 => eprintln!(rt;
            "netpump: line {number} of standard input is no message; write a message as two hexadecimal digits for \
            each of its 1024 bytes at most, or - for no bytes, in a line of its own that ends with a newline and has \
            no carriage return. Mend it, and append it and the lines behind it: those before it are stored"
        ),
        10 => explain_elsewhere(rt, session, line),
        11 => explain_refusal(rt, words, line),
        _ => eprintln!(rt;
            "netpump: message {number} and those after it are not acknowledged: the {looks} looks are used up, of \
            which each attempt to connect takes one, each byte that comes, and each wait for a byte; see that the \
            relay of session {session} runs. It may have message {number}: append with no input tells which message \
            is next. Append the lines from that one on, with 4294967295 looks"
        ),
    }
}

//! The sentences of the commands over records.

use super::{fault_line, field};
use std::io;

/// What is wrong with a line, by the number of the cause.
fn cause_text(cause: &str) -> &'static str {
    match cause {
        "1" => {
            "is no line of a record, or not in this place: it is spelled wrong, has no line end, has a number out of \
            its range or another session, or the record ends too early"
        }
        "2" => {
            "tells a look that can't follow the ones before it: its moment falls, it takes what it could not take, \
            or what it was told does not fit"
        }
        "3" => {
            "is the comment of a reply that no look gave, or stands where the comment of a reply is missing"
        }
        "4" => {
            "tells fewer of High's times than a line before it, or an average that is not that of so many times"
        }
        _ => {
            "has numbers that do not fit: more removed than taken, more taken than accepted, more accepted than \
            there is room for, or not as many accepted as the looks stored"
        }
    }
}

/// The first line of a record that is wrong.
pub fn explain_audit(rt: &HostRuntime, last: &[u8]) -> io::Result<()> {
    let line = fault_line(last).unwrap_or("");
    let number = field(line, 2);
    let text = cause_text(field(line, 3));
    eprintln!(rt;
        "netpump: line {number} of the record {text} (docs/formats.md, \"Audits\"). The lines before it are a record \
        that is clean so far"
    )
}

/// Where two records differ.
pub fn explain_difference(rt: &HostRuntime, last: &[u8]) -> io::Result<()> {
    let line = fault_line(last).unwrap_or("");
    let item = field(line, 1);
    let part = field(line, 2);
    eprintln!(rt;
        "netpump: the two records differ first in item {item}, in its {part}; item 0 is the row with what was found \
        at the opening, and the looks are the items from 1 on (docs/formats.md, \"Audits\")"
    )
}

/// A line that is none of a record, where two are compared.
pub fn explain_unpaired(rt: &HostRuntime, last: &[u8]) -> io::Result<()> {
    let line = fault_line(last).unwrap_or("");
    let number = field(line, 2);
    eprintln!(rt;
        "netpump: line {number} of standard input is no line of a record in its place; give a record, a line '# \
        compare', and another record (docs/formats.md, \"Audits\")"
    )
}

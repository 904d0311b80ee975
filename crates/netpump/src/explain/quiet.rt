//! What is told where a command did what it is for and left something out.

use super::carrying::tell_lying;
use super::word;
use std::io;

/// How many lines a command over a socket read and wrote, whether its connection came to an end, and how many
/// files it left lying.
#[derive(Clone, Copy, Default)]
pub struct Passed {
    pub read: u64,
    pub written: u64,
    pub has_ended: bool,
    pub lying: u64,
}

/// Lines that were passed over: their messages were accepted before.
fn tell_passed_over(rt: &HostRuntime, passed: Passed) -> io::Result<()> {
    let over = passed.read.saturating_sub(passed.written);
    if passed.read == 0 || over == 0 {
        Ok(())
    } else if passed.written == 0 {
        eprintln!(rt;
            "netpump: nothing was sent: all lines were passed over, {over} in number, since the relay has accepted \
            as many messages before. Lines go by their numbers, whatever they say, so send one list from its first \
            line on, and put what is new behind it"
        )
    } else {
        eprintln!(rt;
            "netpump: passed over the lines that the relay had accepted before, {over} in number, and sent those \
            behind them"
        )
    }
}

/// A connection that ended before a message came.
fn tell_nothing_came(rt: &HostRuntime, words: &[String], passed: Passed) -> io::Result<()> {
    let session = word(words, 2).unwrap_or("S");
    if passed.written > 0 || !passed.has_ended {
        return Ok(());
    }
    eprintln!(rt;
        "netpump: the relay ended the connection before a message came. If it still runs, it has removed more \
        messages than the file {session}.recv has, or has accepted fewer: put back the newest {session}.recv, and \
        see that no other receiver has this session"
    )
}

/// Says on standard error what a command over a socket that did what it is for left out, if it did.
pub fn tell_left_out(rt: &HostRuntime, words: &[String], passed: Passed) -> io::Result<()> {
    match word(words, 0) {
        Some("send") => tell_passed_over(rt, passed),
        Some("receive") => tell_nothing_came(rt, words, passed),
        Some("drop") => tell_lying(rt, words, passed.lying),
        _ => Ok(()),
    }
}

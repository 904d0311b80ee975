// Which lines of a relay's log are written, and when.

use jiff::Timestamp;
use std::fmt::{Display, Error, Formatter, Write};
use std::sync::atomic::{AtomicBool, AtomicU64, Ordering};
use std::time::Clock;

/// A second, in milliseconds.
const SECOND: u64 = 1000;

/// How many lines about the peers of one door are written in a second: a peer that comes again and again must not
/// fill the log.
const MOST: u64 = 10;

/// Which lines about the peers of one door are written. One thread alone asks.
#[derive(Drop)]
pub struct Sparing {
    // Where the second began whose lines are counted, in milliseconds.
    begin: AtomicU64,
    // How many lines were written in it.
    written: AtomicU64,
    // How many were left out since the last one that was written.
    left_out: AtomicU64,
}

impl Sparing {
    pub fn new() -> Sparing {
        Sparing {
            begin: AtomicU64::new(0),
            written: AtomicU64::new(0),
            left_out: AtomicU64::new(0),
        }
    }

    /// How many lines were left out before this one, if this one is to be written.
    pub fn turn(&self, moment: u64) -> Option<u64> {
        if moment.saturating_sub(self.begin.load(Ordering::SeqCst)) >= SECOND {
            self.begin.store(moment, Ordering::SeqCst);
            self.written.store(0, Ordering::SeqCst);
        }
        if self.written.fetch_add(1, Ordering::SeqCst) >= MOST {
            self.left_out.fetch_add(1, Ordering::SeqCst);
            return None;
        }
        Some(self.left_out.swap(0, Ordering::SeqCst))
    }
}

/// For how long the buffer is full. One thread alone tells and asks.
#[derive(Drop)]
pub struct Fullness {
    // One above the moment of the first look that found it full, in milliseconds; 0 where it has room.
    since: AtomicU64,
    // Whether the log says that it is full.
    is_said: AtomicBool,
}

impl Fullness {
    pub fn new() -> Fullness {
        Fullness {
            since: AtomicU64::new(0),
            is_said: AtomicBool::new(false),
        }
    }

    /// A look finds the buffer full. True where it has been so for more than a second, and the log is yet to say it.
    pub fn is_news(&self, moment: u64) -> bool {
        let since = self.since.load(Ordering::SeqCst);
        if since == 0 {
            self.since.store(moment.saturating_add(1), Ordering::SeqCst);
            return false;
        }
        moment.saturating_sub(since) >= SECOND && !self.is_said.swap(true, Ordering::SeqCst)
    }

    /// The buffer has room. The moment at which it was found full, if the log says that it is.
    pub fn end(&self) -> Option<u64> {
        let since = self.since.swap(0, Ordering::SeqCst);
        if self.is_said.swap(false, Ordering::SeqCst) {
            Some(since)
        } else {
            None
        }
    }
}

/// The moment of a line by the machine's clock, in seconds of UTC, with a space behind it. Nothing where the
/// clock fails.
#[derive(Clone, Copy)]
pub struct Stamp(Option<Timestamp>);

impl Stamp {
    pub fn now(rt: &HostRuntime) -> Stamp {
        let seconds = rt
            .since_1970()
            .ok()
            .and_then(|since| i64::try_from(since.as_secs()).ok());
        Stamp(seconds.and_then(|seconds| Timestamp::from_second(seconds).ok()))
    }
}

impl Display for Stamp {
    fn fmt<W: Write>(&self, f: &mut Formatter<W>) -> Result<(), Error> {
        match &self.0 {
            Some(moment) => write!(f, "{moment} "),
            None => Ok(()),
        }
    }
}

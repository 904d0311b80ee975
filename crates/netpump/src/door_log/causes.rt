// Why a relay dropped a peer, and why one of its sides ended.

use relay_threads::{HighWhy, LowWhy, RoundsEnd};
use std::fmt::{Display, Error, Formatter, Write};

/// Why the low worker dropped a peer.
#[derive(Clone, Copy)]
pub struct LowCause(pub LowWhy);

impl Display for LowCause {
    fn fmt<W: Write>(&self, f: &mut Formatter<W>) -> Result<(), Error> {
        f.write_str(match self.0 {
            LowWhy::Bad =>
                "it sent bytes that are no frame; see that Low's sender keeps to the protocol",
            _ =>
                "its connection failed, or it did not take a reply in time; see that Low's sender runs and reads its \
                replies",
        })
    }
}

/// Why the high worker dropped a peer.
#[derive(Clone, Copy)]
pub struct HighCause(pub HighWhy);

impl Display for HighCause {
    fn fmt<W: Write>(&self, f: &mut Formatter<W>) -> Result<(), Error> {
        match self.0 {
            HighWhy::Bad => f.write_str(
                "it sent bytes that are no frame; see that the receiver keeps to the protocol",
            ),
            HighWhy::NotAttach => f.write_str(
                "its first frame was no ATTACH; see that it is a receiver",
            ),
            HighWhy::Ahead { number, expected } => write!(
                f,
                "it says that it has message {number}, and message {expected} is the next to be sent; see that its \
                file is of this session"
            ),
            HighWhy::Behind { count, removed } => write!(
                f,
                "it has {count} messages, and {removed} are removed from the relay; put back the newest file of the \
                receiver"
            ),
            _ => f.write_str(
                "its connection failed, or it did not take a message in time; see that the receiver runs and reads \
                its messages",
            ),
        }
    }
}

/// Why a worker ended before its last round.
#[derive(Clone, Copy)]
pub struct EndCause<'a> {
    pub end: RoundsEnd,
    pub session: u32,
    pub role: &'a str,
}

impl Display for EndCause<'_> {
    fn fmt<W: Write>(&self, f: &mut Formatter<W>) -> Result<(), Error> {
        match self.end {
            RoundsEnd::Device { .. } => write!(
                f,
                "a call of its file {}.{} failed; see that the file's disk has room and works",
                self.session, self.role
            ),
            _ => f.write_str(
                "the record could not be written; see that its disk has room, or that its reader is there",
            ),
        }
    }
}

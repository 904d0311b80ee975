// What the calls of a dropper answer.

use crate::work::Sent;
use file_messages::FileName;

/// What a dropper came to at the beginning of a connection.
#[derive(Clone, Copy)]
pub enum Settled {
    /// Messages may be asked for.
    Ready,
    /// All of this file was accepted before, and it is removed now. Messages may be asked for.
    Sent(Sent),
    /// The marked file is another one than when its first message, of this number, was sent. It is
    /// given up, and sent again from its beginning. Messages may be asked for.
    Again { start: u64, name: FileName },
}

/// What a dropper gives next.
#[derive(Clone, Copy)]
pub enum Next {
    /// No file waits.
    Idle,
    /// The message of this number.
    Message {
        number: u64,
    },
    /// The message of this number, which gives a file up: it changed while it was sent, and is sent
    /// again. `start` is the number of its first message.
    Again {
        number: u64,
        start: u64,
        name: FileName,
    },
}

/// Why a dropper ends.
#[derive(Clone, Copy, PartialEq, Eq, Debug)]
pub enum DropFault {
    /// A call on the folder failed, or a read of a file in it.
    Folder,
    /// More than one file is marked.
    Marks,
    /// The sending of the marked file, whose first message has the number `start`, can't have come to
    /// so many messages accepted.
    Step { start: u64, accepted: u64 },
    /// The marked file has 2^48 bytes or more.
    TooLong,
    /// No number is left for a message.
    Full,
}

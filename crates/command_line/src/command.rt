// The commands with their values, and why words give none.
use crate::TableName;
use arrayvec::ArrayVec;

/// What the words ask for.
#[derive(Drop)]
pub enum Command {
    /// Replays the script.
    Replay,
    /// Formats the three empty disks of a session of the table.
    Format {
        /// The file with the table.
        table: TableName,
        /// The id of its row.
        session: u32,
    },
    /// Shows what the disks of a session of the table stand for.
    Show {
        /// The file with the table.
        table: TableName,
        /// The id of its row.
        session: u32,
    },
    /// Runs lines that are made from a number.
    Exercise {
        /// The number that they are made from.
        seed: u32,
        /// How many messages they have, 1 to 100000.
        count: u32,
    },
    /// Runs both sides of a relay in two threads.
    Race {
        /// The number that the messages and the delays are made from.
        seed: u32,
        /// How many messages there are, 1 to 100000.
        count: u32,
        /// How long the receiver takes for each of them, in turn: 1 to 16 times in microseconds, each
        /// at most 10^9.
        times: ArrayVec<u32, 16>,
    },
    /// Serves a session of the table over TCP: both sides of its relay, each in a thread of its own.
    Serve {
        /// The file with the table.
        table: TableName,
        /// The id of its row.
        session: u32,
        /// How many rounds each side makes, at least 1.
        looks: u32,
    },
    /// Receives the messages of a session of the table over TCP, as the party High.
    Receive {
        /// The file with the table.
        table: TableName,
        /// The id of its row.
        session: u32,
        /// How many looks at the link there are at most, at least 1.
        looks: u32,
    },
    /// Sends messages to a session of the table over TCP, as the party Low.
    Send {
        /// The file with the table.
        table: TableName,
        /// The id of its row.
        session: u32,
        /// How many looks at the link an answer is waited for at most, at least 1.
        looks: u32,
    },
    /// Sends the messages of a stream to a session of the table over TCP, and connects again where a
    /// connection breaks.
    Append {
        /// The file with the table.
        table: TableName,
        /// The id of its row.
        session: u32,
        /// How many looks at links and attempts to connect are made at most, at least 1.
        looks: u32,
    },
    /// Sends the files of a folder to a session of the table over TCP, as the party Low.
    DropFiles {
        /// The file with the table.
        table: TableName,
        /// The id of its row.
        session: u32,
        /// How many looks at the link there are at most, at least 1.
        looks: u32,
        /// The folder.
        folder: TableName,
    },
    /// Puts the files that come over a session of the table into a folder, as the party High.
    CollectFiles {
        /// The file with the table.
        table: TableName,
        /// The id of its row.
        session: u32,
        /// How many looks at the link there are at most, at least 1.
        looks: u32,
        /// The folder.
        folder: TableName,
    },
    /// Writes a session of the table on the empty disks of another one, which may be of another table.
    Migrate {
        /// The file with the table.
        table: TableName,
        /// The id of its row.
        session: u32,
        /// The file with the table of the new session.
        new_table: TableName,
        /// The id of its row there.
        new_session: u32,
    },
    /// Sends a file over the pump of a session of the table.
    Wrap {
        /// The file with the table.
        table: TableName,
        /// The id of its row.
        session: u32,
    },
    /// Writes the file that the messages with the receiver of a session of the table are.
    Unwrap {
        /// The file with the table.
        table: TableName,
        /// The id of its row.
        session: u32,
    },
    /// Prints the messages with the receiver of a session of the table, from a number on.
    Messages {
        /// The file with the table.
        table: TableName,
        /// The id of its row.
        session: u32,
        /// The number of the first message that is printed.
        from: u32,
    },
    /// Tells how many messages a session of the table has accepted, removed and received, and how full its
    /// relay is.
    Status {
        /// The file with the table.
        table: TableName,
        /// The id of its row.
        session: u32,
    },
    /// Checks a record.
    Audit,
    /// Compares Low's side of two records.
    Compare,
    /// Replays the script of two pumps in a row.
    Chain,
}

/// Why the words give no command.
#[derive(Clone, Copy, PartialEq, Eq, Debug)]
pub enum WordsFault {
    /// No command is spelled so.
    NoCommand,
    /// Memory ran out while they were read.
    Memory,
}

//! Why a session has no row, and the numbers that a fault line has of that.

ghost use Rattle.std.specs.Prelude.{◌≡◌};
ghost use Rattle.command_ends.specs.NoRows.{no_row_number, no_row_row};

use session_table::TableFault;

/// Why a session has no row in a table's file, or none that will do; see `docs/formats.md`, "Statuses and
/// fault lines".
#[derive(Clone, Copy)]
pub enum NoRow {
    /// The table is refused, and not for want of memory: that is `CommandEnd::Memory`.
    Refused(TableFault),
    /// The file has more than 65,536 bytes.
    TooLong,
    /// No row has this session.
    Absent { session: u32 },
    /// The session's messages are too short for what the command sends or reads.
    Short { session: u32 },
    /// Both sessions of a move have this number.
    Same { session: u32 },
}

impl NoRow {
    /// Its number in a fault line.
    pub fn number(&self) -> u32
        ensures { result ≡ no_row_number self.now }
    {
        match self {
            NoRow::Refused(fault) => fault.number(),
            NoRow::TooLong => 10,
            NoRow::Absent { .. } => 11,
            NoRow::Short { .. } => 12,
            NoRow::Same { .. } => 13,
        }
    }

    /// The row of the table that it is about, or else the session; 0 where it is about neither.
    pub fn row(&self) -> u32
        ensures { result ≡ no_row_row self.now }
    {
        match self {
            NoRow::Refused(fault) => fault.row(),
            NoRow::TooLong => 0,
            NoRow::Absent { session } => *session,
            NoRow::Short { session } => *session,
            NoRow::Same { session } => *session,
        }
    }
}

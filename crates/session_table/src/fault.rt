// Why a document is no table of sessions.
ghost use Rattle.std.specs.Prelude.{◌≡◌};
ghost use Rattle.session_table.specs.Faults.{fault_number, fault_row};

use pump_frame::RowKey;

/// Why a document is no table of sessions: the first thing that is wrong with it. Rows are counted
/// from 1, and the number 0 stands for the top level. `Display` says in a sentence what to mend.
#[derive(Clone, Copy, PartialEq, Eq, Debug)]
pub enum TableFault {
    /// The bytes are no TOML document.
    NotToml,
    /// A key that has to be there is not.
    MissingKey {
        row: u32,
        key: RowKey,
    },
    /// A key is there that has no meaning.
    UnknownKey {
        row: u32,
    },
    /// The value is no whole number, or this one, which is outside the range of its key. At the
    /// top level: `session` is no array of tables.
    OutOfRange {
        row: u32,
        key: RowKey,
        value: Option<i64>,
    },
    /// The value is no name.
    Name {
        row: u32,
        key: RowKey,
    },
    /// An earlier row has this id.
    TwiceId {
        row: u32,
        id: u32,
    },
    /// An earlier row has this port, or the row itself has it for both parties.
    TwicePort {
        row: u32,
        port: u16,
    },
    /// There are more than 16 rows.
    TooMany {
        rows: u32,
    },
    /// Memory was wanting. This alone says nothing of the document.
    Memory,
}

impl TableFault {
    /// Its number in a fault line.
    pub fn number(&self) -> u32
        ensures { result ≡ fault_number self.now }
    {
        match self {
            TableFault::NotToml => 1,
            TableFault::MissingKey { .. } => 2,
            TableFault::UnknownKey { .. } => 3,
            TableFault::OutOfRange { .. } => 4,
            TableFault::Name { .. } => 5,
            TableFault::TwiceId { .. } => 6,
            TableFault::TwicePort { .. } => 7,
            TableFault::TooMany { .. } => 8,
            TableFault::Memory => 9,
        }
    }

    /// The row that it is about, counted from 1; 0 where it is about none.
    pub fn row(&self) -> u32
        ensures { result ≡ fault_row self.now }
    {
        match self {
            TableFault::NotToml | TableFault::TooMany { .. } | TableFault::Memory => 0,
            TableFault::MissingKey { row, .. } => *row,
            TableFault::UnknownKey { row } => *row,
            TableFault::OutOfRange { row, .. } => *row,
            TableFault::Name { row, .. } => *row,
            TableFault::TwiceId { row, .. } => *row,
            TableFault::TwicePort { row, .. } => *row,
        }
    }
}

// The sentences that say what is wrong with a table.
ghost use Rattle.std.specs.Prelude.{◌≡◌};
ghost use Rattle.session_table.specs.Faults.{range_of};

use crate::TableFault;
use crate::key::key_name;
use pump_frame::{GREATEST_CAPACITY, LEAST_CAPACITY, RowKey};
use std::error::Error;
use std::fmt;

// The least and the greatest number at a key, for the sentence that refuses another. What is refused
// is decided by a row's own ranges; `proofs/Ranges.antt` shows that these are the same.
fn range(key: RowKey) -> Option<(u32, u32)>
    ensures { result ≡ range_of key }
{
    match key {
        RowKey::Id => Some((0, u32::MAX)),
        RowKey::Capacity => Some((LEAST_CAPACITY, GREATEST_CAPACITY)),
        RowKey::Message => Some((1, 1024)),
        RowKey::Window => Some((1, 256)),
        RowKey::Start => Some((0, 1_000_000_000)),
        RowKey::Longest => Some((0, 1_000_000_000)),
        RowKey::Resend => Some((1, 1_000_000_000)),
        RowKey::LowPort => Some((1, 65535)),
        RowKey::HighPort => Some((1, 65535)),
        RowKey::Session | RowKey::Low | RowKey::High | RowKey::Coarse => None,
    }
}

/// What a value has to be, in a word or two, at a key that is no name.
fn kind(key: RowKey) -> &'static str {
    match key {
        RowKey::Coarse => "truth value",
        _ => "whole number",
    }
}

/// What a key of a row wants.
#[derive(Clone, Copy)]
struct Wanted(RowKey);

impl fmt::Display for Wanted {
    fn fmt<W: fmt::Write>(&self, f: &mut fmt::Formatter<W>) -> fmt::Result {
        match range(self.0) {
            Some((least, greatest)) => write!(f, "a whole number from {least} to {greatest}"),
            None if self.0 == RowKey::Coarse => write!(f, "true or false, without quotes"),
            None => write!(f, "a name in quotes, 1 to 32 of a to z, 0 to 9 and -"),
        }
    }
}

impl TableFault {
    /// The sentence, where it names no row and no number.
    fn plain_sentence(&self) -> Option<&'static str> {
        match self {
            TableFault::NotToml => Some(
                "the table is no TOML document; mend how it is written, and give no key twice",
            ),
            TableFault::MissingKey { row: 0, .. } => {
                Some("the table has no session; begin each with a line [[session]]")
            }
            TableFault::UnknownKey { row: 0 } => Some(
                "the table has a key at its top level that is not session; take it out or mend its name",
            ),
            TableFault::OutOfRange { row: 0, .. } => Some(
                "session is no array of tables; begin each session of the table with a line [[session]]",
            ),
            TableFault::Memory => Some(
                "there is not enough memory for the table; end other programs and try again",
            ),
            _ => None,
        }
    }
}

/// What is wrong with a value, and what its key wants.
fn write_value<W: fmt::Write>(
    f: &mut fmt::Formatter<W>,
    key: RowKey,
    value: Option<i64>,
) -> fmt::Result {
    let name = key_name(key);
    match value {
        Some(value) => write!(f, "{name} = {value}"),
        None => write!(f, "no {} as its {name}", kind(key)),
    }
}

/// What a row has that it is not to have, or has not.
fn write_of_row<W: fmt::Write>(f: &mut fmt::Formatter<W>, fault: &TableFault) -> fmt::Result {
    match fault {
        TableFault::MissingKey { key, .. } => write!(f, "no {}", key_name(*key)),
        TableFault::OutOfRange { key, value, .. } => write_value(f, *key, *value),
        TableFault::Name { key, .. } => write!(f, "no name as its {}", key_name(*key)),
        TableFault::TwiceId { id, .. } => write!(
            f,
            "id = {id}, as an earlier row has; give it an id of its own"
        ),
        TableFault::TwicePort { port, .. } => write!(
            f,
            "the port {port}, which it or an earlier row has already; give it ports of its own"
        ),
        TableFault::UnknownKey { .. } => f.write_str(
            "a key that is none of id, low, high, capacity, message, window, start, longest, resend, low_port, \
            high_port and coarse; take it out or mend its name",
        ),
        _ => Ok(()),
    }
}

impl fmt::Display for TableFault {
    fn fmt<W: fmt::Write>(&self, f: &mut fmt::Formatter<W>) -> fmt::Result {
        if let Some(sentence) = self.plain_sentence() {
            return f.write_str(sentence);
        }
        if let TableFault::TooMany { rows } = self {
            return write!(
                f,
                "the table has {rows} rows, and 16 are the most; take the others out"
            );
        }
        write!(f, "row {} of the table has ", self.row())?;
        write_of_row(f, self)?;
        match self {
            TableFault::MissingKey { key, .. }
            | TableFault::OutOfRange { key, .. }
            | TableFault::Name { key, .. } => write!(f, "; give it {}", Wanted(*key)),
            _ => Ok(()),
        }
    }
}

impl Error for TableFault {}

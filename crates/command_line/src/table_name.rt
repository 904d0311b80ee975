// The name of a table's file.
ghost use Rattle.std.specs.Prelude.{◌≡◌, ◌↔◌, IsSome, IsTrue, IfSome};
ghost use Rattle.std.specs.List.{list_all};
ghost use Rattle.command_line.specs.TableNames.{is_table_byte, begins_plainly, is_table_name};

use std::marker::Model;
use std::str;

/// The name of a table's file: 1 to 64 of `A` to `Z`, `a` to `z`, `0` to `9`, `.`, `_` and `-`, of which
/// the first is a letter or a digit. Contracts see it as the list of its bytes.
#[derive(Clone, Copy)]
pub struct TableName {
    cells: [u8; 64],
    len: usize,
}

impl Model for TableName {
    ghost use Rattle.std.specs.Prelude.{◌≡◌, ℕ, ◌-◌, ◌≤◌, ◌++◌, List, length, take, drop, replicate, true};
    ghost use Rattle.pump_frame.specs.Padded.{padded_back, padded_length};
    ghost use Rattle.command_line.specs.TableNames.{is_table_name};

    ghost Value = { List ℕ };

    ghost view = { λ s. take s.len s.cells };

    // What lies past the bytes is zero, so that equal names have equal cells.
    ghost invariant = { λ s. (s.len ≤ 64) × (length s.cells ≡ 64) × (drop s.len s.cells ≡ replicate (64 - s.len) 0)
        × (is_table_name (take s.len s.cells) ≡ true) };

    ghost inverse = { λ bytes. record { cells = bytes ++ replicate (64 - length bytes) 0; len = length bytes } };

    ghost inverse_ok = { λ s h i. record {
      cells = padded_back 64 s.cells s.len h.1 h.0 h.2 i;
      len = padded_length 64 s.cells s.len h.1 h.0 i;
    } };
}

fn is_table_byte(byte: u8) -> bool
    ensures { result ≡ is_table_byte byte }
{
    byte.is_ascii_alphanumeric() || byte == b'.' || byte == b'_' || byte == b'-'
}

fn are_table_bytes(bytes: &[u8]) -> bool
    ensures { result ≡ list_all is_table_byte bytes.now }
{
    bytes.iter().all(|byte| is_table_byte(*byte))
}

fn begins_plainly(bytes: &[u8]) -> bool
    ensures { result ≡ begins_plainly bytes.now }
{
    match bytes {
        [] => false,
        [first, ..] => first.is_ascii_alphanumeric(),
    }
}

fn is_table_name(bytes: &[u8]) -> bool
    ensures { result ≡ is_table_name bytes.now }
{
    bytes.len() <= 64 && begins_plainly(bytes) && are_table_bytes(bytes)
}

impl TableName {
    /// The name that is written so; `None` exactly where the text is no name of a table.
    pub fn from_text(text: &str) -> Option<TableName>
        ensures some { IsSome result ↔ IsTrue (is_table_name text.now) }
        ensures value { IfSome result (λ name. name ≡ text.now) }
    {
        let bytes = text.as_bytes();
        if !is_table_name(bytes) {
            return None;
        }
        let mut cells = [0; 64];
        cells[..bytes.len()].copy_from_slice(bytes);
        Some(TableName {
            cells,
            len: bytes.len(),
        })
    }

    /// Its text.
    pub fn as_str(&self) -> &str
        ensures value { result.now ≡ self.now }
        ensures name { IsTrue (is_table_name result.now) }
    {
        match str::from_utf8(&self.cells[..self.len]) {
            Ok(text) => text,
            Err(_) => unreachable!("a name of a table is ASCII"),
        }
    }
}

// The name of a file that goes from folder to folder.
ghost use Rattle.std.specs.Prelude.{◌≡◌, ◌≤◌, ◌↔◌, length, IsSome, IsTrue, IfSome};
ghost use Rattle.std.specs.List.{list_all};
ghost use Rattle.file_messages.specs.FileNames.{is_name_byte, is_middle_mark, is_other_mark, begins_plainly};
ghost use Rattle.file_messages.specs.FileNames.{ends_plainly, is_file_name, IsFileName};

use std::marker::Model;
use std::str;

/// The name of a file: 1 to 128 of the letters `A` to `Z` and `a` to `z`, the digits, the space and
/// `._-+,=@%()`, of which the first is a letter or a digit, and the last neither a space nor a dot.
/// Contracts see it as the list of its bytes.
#[derive(Clone, Copy)]
pub struct FileName {
    cells: [u8; 128],
    len: usize,
}

impl Model for FileName {
    ghost use Rattle.std.specs.Prelude.{◌≡◌, ℕ, ◌-◌, ◌≤◌, ◌++◌, List, length, take, drop, replicate};
    ghost use Rattle.pump_frame.specs.Padded.{padded_back, padded_length};
    ghost use Rattle.file_messages.specs.FileNames.{IsFileName};

    ghost Value = { List ℕ };

    ghost view = { λ s. take s.len s.cells };

    // What lies past the bytes is zero, so that equal names have equal cells.
    ghost invariant = { λ s. (s.len ≤ 128) × (length s.cells ≡ 128) × (drop s.len s.cells ≡ replicate (128 - s.len) 0)
        × IsFileName (take s.len s.cells) };

    ghost inverse = { λ bytes. record { cells = bytes ++ replicate (128 - length bytes) 0; len = length bytes } };

    ghost inverse_ok = { λ s h i. record {
      cells = padded_back 128 s.cells s.len h.1 h.0 h.2 i;
      len = padded_length 128 s.cells s.len h.1 h.0 i;
    } };
}

fn is_middle_mark(byte: u8) -> bool
    ensures { result ≡ is_middle_mark byte }
{
    byte >= b'+' && byte <= b'.'
}

fn is_other_mark(byte: u8) -> bool
    ensures { result ≡ is_other_mark byte }
{
    byte == b' '
        || byte == b'%'
        || byte == b'('
        || byte == b')'
        || byte == b'='
        || byte == b'@'
        || byte == b'_'
}

fn is_name_byte(byte: u8) -> bool
    ensures { result ≡ is_name_byte byte }
{
    byte.is_ascii_alphanumeric() || is_middle_mark(byte) || is_other_mark(byte)
}

fn are_name_bytes(bytes: &[u8]) -> bool
    ensures { result ≡ list_all is_name_byte bytes.now }
{
    bytes.iter().all(|byte| is_name_byte(*byte))
}

fn begins_plainly(bytes: &[u8]) -> bool
    ensures { result ≡ begins_plainly bytes.now }
{
    match bytes {
        [] => false,
        [first, ..] => first.is_ascii_alphanumeric(),
    }
}

fn ends_plainly(bytes: &[u8]) -> bool
    ensures { result ≡ ends_plainly bytes.now }
{
    if bytes.is_empty() {
        return true;
    }
    let last = bytes[bytes.len() - 1];
    !(last == b' ' || last == b'.')
}

#[tactic(auto, unfolding(crate::specs::FileNames::is_file_name))]
fn is_file_name(bytes: &[u8]) -> bool
    ensures value { result ≡ is_file_name bytes.now }
    ensures short { IsTrue result → length bytes.now ≤ 128 }
{
    bytes.len() <= 128 && begins_plainly(bytes) && ends_plainly(bytes) && are_name_bytes(bytes)
}

impl FileName {
    /// The name of these bytes; `None` exactly where they are no name of a file.
    pub fn parse(bytes: &[u8]) -> Option<FileName>
        ensures some { IsSome result ↔ IsFileName bytes.now }
        ensures value { IfSome result (λ name. name ≡ bytes.now) }
    {
        if !is_file_name(bytes) {
            return None;
        }
        let mut cells = [0; 128];
        cells[..bytes.len()].copy_from_slice(bytes);
        Some(FileName {
            cells,
            len: bytes.len(),
        })
    }

    /// Its bytes.
    pub fn as_slice(&self) -> &[u8]
        ensures value { result.now ≡ self.now }
        ensures name { IsFileName result.now }
        ensures short { length result.now ≤ 128 }
    {
        &self.cells[..self.len]
    }

    /// Its text.
    pub fn as_str(&self) -> &str
        ensures value { result.now ≡ self.now }
        ensures name { IsFileName result.now }
    {
        match str::from_utf8(&self.cells[..self.len]) {
            Ok(text) => text,
            Err(_) => unreachable!("the name of a file is ASCII"),
        }
    }
}

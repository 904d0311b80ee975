// The name of a party.
ghost use Rattle.std.specs.Prelude.{◌≡◌, ◌↔◌, IsSome, IsTrue, IfSome};
ghost use Rattle.std.specs.List.{list_all};
ghost use Rattle.pump_frame.specs.Names.{IsName, is_name_byte};

use std::marker::Model;

/// The name of a low or a high party: 1 to 32 of the bytes `a` to `z`, `0` to `9` and `-`.
/// Contracts see it as the list of its bytes.
#[derive(Clone, Copy)]
pub struct Name {
    cells: [u8; 32],
    len: usize,
}

impl Model for Name {
    ghost use Rattle.std.specs.Prelude.{◌≡◌, ℕ, ◌-◌, ◌≤◌, ◌++◌, List, length, take, drop, replicate};
    ghost use Rattle.pump_frame.specs.Padded.{padded_back, padded_length};
    ghost use Rattle.pump_frame.specs.Names.{IsName};

    ghost Value = { List ℕ };

    ghost view = { λ s. take s.len s.cells };

    // What lies past the bytes is zero, so that equal names have equal cells.
    ghost invariant = { λ s. (s.len ≤ 32) × (length s.cells ≡ 32) × (drop s.len s.cells ≡ replicate (32 - s.len) 0)
        × IsName (take s.len s.cells) };

    ghost inverse = { λ bytes. record { cells = bytes ++ replicate (32 - length bytes) 0; len = length bytes } };

    ghost inverse_ok = { λ s h i. record {
      cells = padded_back 32 s.cells s.len h.1 h.0 h.2 i;
      len = padded_length 32 s.cells s.len h.1 h.0 i;
    } };
}

pub(crate) fn is_plain(byte: u8) -> bool
    ensures { result ≡ is_name_byte byte }
{
    (byte >= b'a' && byte <= b'z') || (byte >= b'0' && byte <= b'9') || byte == b'-'
}

fn are_plain(bytes: &[u8]) -> bool
    ensures { result ≡ list_all is_name_byte bytes.now }
{
    bytes.iter().all(|b| is_plain(*b))
}

fn is_name(bytes: &[u8]) -> bool
    ensures { IsTrue result ↔ IsName bytes.now }
{
    !bytes.is_empty() && bytes.len() <= 32 && are_plain(bytes)
}

impl Name {
    /// The name of these bytes; `None` exactly where they are no name.
    pub fn from_slice(bytes: &[u8]) -> Option<Name>
        ensures some { IsSome result ↔ IsName bytes.now }
        ensures value { IfSome result (λ name. name ≡ bytes.now) }
    {
        if !is_name(bytes) {
            return None;
        }
        let mut cells = [0; 32];
        cells[..bytes.len()].copy_from_slice(bytes);
        Some(Name {
            cells,
            len: bytes.len(),
        })
    }

    /// Its bytes.
    pub fn as_slice(&self) -> &[u8]
        ensures value { result.now ≡ self.now }
        ensures name { IsName result.now }
    {
        &self.cells[..self.len]
    }
}

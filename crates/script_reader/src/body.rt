// The bytes that come with a line.
ghost use Rattle.std.specs.Prelude.{◌≡◌, ◌≤◌, [], length, Some, None, if◌then◌else◌};
ghost use Rattle.script_reader.specs.Parsing.{bytes_from};
ghost use Rattle.hex.specs.Hex.{decode_sized};

use crate::digits::decode;
use std::marker::Model;

/// The bytes that come with a line, at most 1042. One room serves a whole script. Contracts see it as
/// their list.
#[derive(Drop)]
pub struct Body {
    cells: [u8; 1042],
    len: usize,
}

impl Model for Body {
    ghost use Rattle.std.specs.Prelude.{◌≡◌, ℕ, ◌≤◌, List, length, take};

    ghost Value = { List ℕ };

    ghost view = { λ s. take s.len s.cells };

    ghost invariant = { λ s. (s.len ≤ 1042) × (length s.cells ≡ 1042) };
}

impl Body {
    /// A room without bytes.
    pub fn new() -> Body
        ensures { result ≡ [] }
    {
        Body {
            cells: [0; 1042],
            len: 0,
        }
    }

    /// The bytes.
    pub fn as_slice(&self) -> &[u8]
        ensures value { result.now ≡ self.now }
        ensures short { length result.now ≤ 1042 }
    {
        &self.cells[..self.len]
    }

    pub(crate) fn clear(&mut self)
        ensures { self.new ≡ [] }
    {
        self.len = 0;
    }

    /// Holds these bytes.
    pub(crate) fn set(&mut self, bytes: &[u8])
        requires { length bytes.now ≤ 1042 }
        ensures { self.new ≡ bytes.now }
    {
        self.cells[..bytes.len()].copy_from_slice(bytes);
        self.len = bytes.len();
    }

    /// Holds so many bytes, each of two digits; false where they are not so many digits.
    pub(crate) fn decode(&mut self, digits: &[u8], count: usize) -> bool
        requires { count ≤ 1042 }
        ensures read { (if result then Some self.new else None) ≡ bytes_from (decode_sized digits.now count) }
        ensures few { length self.new ≤ count }
    {
        self.len = count;
        decode(digits, &mut self.cells[..count])
    }
}

// What a message carries.
ghost use Rattle.std.specs.Prelude.{◌≡◌, ◌≤◌, ◌↔◌, length, IsSome, IfSome};

use std::marker::Model;

/// What a message carries: at most 1024 bytes. Contracts see it as the list of its bytes.
#[derive(Clone, Copy)]
pub struct Payload {
    cells: [u8; 1024],
    len: usize,
}

impl Model for Payload {
    ghost use Rattle.std.specs.Prelude.{◌≡◌, ℕ, ◌-◌, ◌≤◌, ◌++◌, List, length, take, drop, replicate};
    ghost use Rattle.pump_frame.specs.Padded.{padded_back, padded_length};

    ghost Value = { List ℕ };

    ghost view = { λ s. take s.len s.cells };

    // What lies past the bytes is zero, so that equal lists have equal cells.
    ghost invariant = { λ s. (s.len ≤ 1024) × (length s.cells ≡ 1024)
        × (drop s.len s.cells ≡ replicate (1024 - s.len) 0) };

    ghost inverse = { λ bytes. record { cells = bytes ++ replicate (1024 - length bytes) 0; len = length bytes } };

    ghost inverse_ok = { λ s h i. record {
      cells = padded_back 1024 s.cells s.len h.1 h.0 h.2 i;
      len = padded_length 1024 s.cells s.len h.1 h.0 i;
    } };
}

impl Payload {
    /// The payload of these bytes; `None` exactly where there are more than 1024.
    pub fn from_slice(bytes: &[u8]) -> Option<Payload>
        ensures some { IsSome result ↔ (length bytes.now ≤ 1024) }
        ensures value { IfSome result (λ payload. payload ≡ bytes.now) }
    {
        if bytes.len() > 1024 {
            return None;
        }
        let mut cells = [0; 1024];
        cells[..bytes.len()].copy_from_slice(bytes);
        Some(Payload {
            cells,
            len: bytes.len(),
        })
    }

    /// From now on it is these bytes, at most 1024. Only they are written, and zeros over what the
    /// old ones reached past them.
    pub fn set(&mut self, bytes: &[u8])
        requires short { length bytes.now ≤ 1024 }
        ensures value { self.new ≡ bytes.now }
    {
        let end = self.len.max(bytes.len());
        self.cells[..bytes.len()].copy_from_slice(bytes);
        self.cells[bytes.len()..end].fill(0);
        self.len = bytes.len();
    }

    /// Its bytes.
    pub fn as_slice(&self) -> &[u8]
        ensures value { result.now ≡ self.now }
        ensures short { length result.now ≤ 1024 }
    {
        &self.cells[..self.len]
    }

    /// The number of its bytes, at most 1024.
    pub fn len(&self) -> u32
        ensures value { result ≡ length self.now }
        ensures short { result ≤ 1024 }
    {
        self.len as u32
    }
}

/// The payload without bytes.
impl Default for Payload {
    ghost use Rattle.std.specs.Prelude.{◌≡◌, []};

    ghost is_default = { λ payload. payload ≡ [] };

    fn default() -> Payload
        ensures { result ≡ [] }
    {
        Payload {
            cells: [0; 1024],
            len: 0,
        }
    }
}

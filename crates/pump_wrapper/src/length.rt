//! The last message of a file, which tells how long it is.

ghost use Rattle.std.specs.Prelude.{◌≡◌};
ghost use Rattle.pump_wrapper.specs.Wrapped.{length_message};

use byteorder::{BigEndian, ByteOrder};

// The last message of a file of so many bytes.
#[tactic(auto, unfolding(crate::specs::Wrapped::length_message))]
pub fn spell_length(bytes: u64) -> [u8; 9]
    ensures { result ≡ length_message bytes }
{
    let mut message = [1; 9];
    BigEndian::write_u64(&mut message[1..], bytes);
    message
}

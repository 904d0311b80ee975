// Numbers as bytes, the greatest byte first.
ghost use Rattle.std.specs.Prelude.{◌≡◌, ◌≤◌, ◌+◌, ◌++◌, ◌^◌, ◌<◌, length, take};
ghost use Rattle.byteorder.specs.Endian.{big_bytes};
ghost use Rattle.stable_buffer.specs.Numbers.{number_at, length_at};
ghost use Rattle.stable_buffer.specs.Stands.{spelled};

use byteorder::{BigEndian, ByteOrder};
use pump_frame::Payload;

#[tactic(auto, unfolding(crate::specs::Numbers::number_at))]
pub fn read_number(bytes: &[u8], at: usize) -> u64
    requires { at + 8 ≤ length bytes.now }
    ensures { result ≡ number_at bytes.now at }
{
    BigEndian::read_u64(&bytes[at..])
}

pub fn cell_of(first: u64, second: u64) -> [u8; 16]
    ensures { result ≡ big_bytes 8 first ++ big_bytes 8 second }
{
    let mut cell = [0; 16];
    BigEndian::write_u64(&mut cell, first);
    BigEndian::write_u64(&mut cell[8..], second);
    cell
}

/// The length of a message, as it stands before its bytes on a disk.
#[tactic(auto, unfolding(crate::specs::Numbers::length_at))]
pub fn read_length(bytes: &[u8]) -> u32
    requires { 2 ≤ length bytes.now }
    ensures value { result ≡ length_at bytes.now 0 }
    ensures small { result < 2 ^ 16 }
    ensures spells { big_bytes 2 result ≡ take 2 bytes.now }
{
    BigEndian::read_u16(bytes) as u32
}

// Puts a message as it stands on a disk at the start of a slot.
pub fn spell(payload: &Payload, slot: &mut [u8])
    requires { 2 + length payload.now ≤ length slot.old }
    ensures spelled { take (2 + length payload.now) slot.new ≡ spelled payload.now }
    ensures size { length slot.new ≡ length slot.old }
{
    let bytes = payload.as_slice();
    BigEndian::write_u16(slot, bytes.len() as u16);
    slot[2..2 + bytes.len()].copy_from_slice(bytes);
}

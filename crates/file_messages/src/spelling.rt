// The messages of a file that tell of it as a whole: where it begins, ends, or is given up.
ghost use Rattle.std.specs.Prelude.{◌≡◌, ◌^◌, ◌<◌, ◌≤◌, ◌∷◌, length};
ghost use Rattle.byteorder.specs.Endian.{big_bytes};
ghost use Rattle.file_messages.specs.Messages.{start_message, end_message, abandon_message};

use crate::file_name::FileName;
use arrayvec::ArrayVec;
use byteorder::{BigEndian, ByteOrder};
use pump_frame::Payload;

/// The kind of a message of bytes of a file.
pub(crate) const PIECE: u8 = 0;

/// The kind of the message with which a file begins.
pub(crate) const START: u8 = 2;

/// The kind of the message with which a file ends.
pub(crate) const END: u8 = 3;

/// The kind of the message that gives a file up.
pub(crate) const ABANDON: u8 = 4;

/// The version of these messages.
pub(crate) const VERSION: u8 = 1;

/// Every file has fewer bytes.
pub(crate) const LIMIT: u64 = 1 << 48;

/// How many bytes stand before the name in the message with which a file begins.
pub(crate) const HEAD: usize = 10;

// What stands before the name in the message with which a file begins.
fn head(size: u64) -> [u8; HEAD]
    ensures { result ≡ 2 ∷ 1 ∷ big_bytes 8 size }
{
    let mut bytes = [0; HEAD];
    bytes[0] = START;
    bytes[1] = VERSION;
    BigEndian::write_u64(&mut bytes[2..], size);
    bytes
}

/// The message with which a file of this name and size begins; at most 138 bytes.
pub fn put_start(name: &FileName, size: u64, into: &mut Payload)
    requires { size < 2 ^ 48 }
    ensures message { into.new ≡ start_message name.now size }
    ensures fits { length into.new ≤ 138 }
{
    let mut room: ArrayVec<u8, 138> = ArrayVec::new();
    room.try_extend_from_slice(&head(size)).unwrap();
    room.try_extend_from_slice(name.as_slice()).unwrap();
    into.set(room.as_slice());
}

/// The message with which a file ends whose SHA-256 this is; 33 bytes.
pub fn put_end(digest: &[u8; 32], into: &mut Payload)
    ensures message { into.new ≡ end_message digest.now }
    ensures fits { length into.new ≡ 33 }
{
    let mut room = [END; 33];
    room[1..].copy_from_slice(digest);
    into.set(&room);
}

/// The message that gives up a file which was not sent to its end; one byte.
pub fn put_abandon(into: &mut Payload)
    ensures { into.new ≡ abandon_message }
{
    into.set(&[ABANDON]);
}

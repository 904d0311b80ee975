//! Calls of the system that a signal interrupted. They have done nothing, and are made again.

ghost use Rattle.std.specs.Io.{ReadsAtMost};
ghost use Rattle.std.specs.Io.KnownBytes.{ReadConsumes};

use pump_link::ReadFault;
use std::io::{self, ErrorKind, Read};

/// How often a call is made that is interrupted each time.
pub const TRIES: u32 = 1000;

/// Did a signal interrupt the call that failed so?
pub fn is_interrupted(error: &io::Error) -> bool {
    error.kind() == ErrorKind::Interrupted
}

/// Reads, and again each time that a signal interrupted it.
pub(crate) fn read_again<R: Read>(reader: &mut R, into: &mut [u8]) -> Result<usize, ReadFault>
    ensures bound { ReadsAtMost result into.new }
    ensures bytes { ReadConsumes (R.remaining reader.old) (R.remaining reader.new) result into.new }
{
    for _ in 0..TRIES {
        match reader.read(into) {
            Ok(count) => return Ok(count),
            Err(error) if is_interrupted(&error) => {}
            Err(_) => break,
        }
    }
    Err(ReadFault)
}

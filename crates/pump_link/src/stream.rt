// Sources and sinks of bytes: their calls, and what they promise.
ghost use Rattle.std.specs.Prelude.{◌≡◌, ℕ, ◌<◌, ◌≤◌, List, Option, length, IfOk, OnOk, OnErr};
ghost use Rattle.std.specs.Io.{ReadsAtMost};
ghost use Rattle.std.specs.Io.KnownBytes.{Appends, ReadConsumes, WriteAppends};
ghost use Rattle.pump_link.specs.Causes.{HasCause, AppendsPrefix};
ghost use Rattle.pump_link.specs.Tells.{Draws};
ghost use Rattle.pump_link.specs.Pieces.{piece_in};

/// A read that failed.
#[derive(Clone, Copy, PartialEq, Eq, Debug)]
pub struct ReadFault;

/// A write that failed.
#[derive(Clone, Copy, PartialEq, Eq, Debug)]
pub struct WriteFault;

/// Gives bytes, and counts its failed reads.
pub trait Source {
    /// The bytes that are left, where they are told.
    ghost left: { Self → Option (List ℕ) };

    /// Its next reads give these pieces, where it tells them.
    ghost gives: { Self → List (List ℕ) → Type 0 };

    ghost faults: { Self → ℕ };

    /// Gives the next bytes and answers how many; `Ok(0)` is the end, which stays. It answers
    /// `Err` only where its count of faults rose, and has then given nothing.
    fn read(&mut self, into: &mut [u8]) -> Result<usize, ReadFault>
        requires { 0 < length into.old }
        ensures bound { ReadsAtMost result into.new }
        ensures bytes { ReadConsumes (left self.old) (left self.new) result into.new }
        ensures gives { Draws (gives self.old) (gives self.new) (piece_in result into.new) }
        ensures cause { HasCause (faults self.old) (faults self.new) result };

    /// How many reads have failed. The count never falls, and stays at its greatest value.
    fn faults(&self) -> u64
        ensures { result ≡ faults self.now };
}

/// Takes bytes, and counts its failed writes.
pub trait Sink {
    /// The bytes written so far, where they are told.
    ghost written: { Self → Option (List ℕ) };

    ghost faults: { Self → ℕ };

    /// Appends at least the first of the bytes, and answers how many. It answers `Err` only where
    /// its count of faults rose, and has then appended nothing.
    fn write(&mut self, bytes: &[u8]) -> Result<usize, WriteFault>
        requires { 0 < length bytes.now }
        ensures some { IfOk result (λ n. (0 < n) × (n ≤ length bytes.now)) }
        ensures bytes { WriteAppends (written self.old) (written self.new) result bytes.now }
        ensures cause { HasCause (faults self.old) (faults self.new) result };

    /// How many writes have failed. The count never falls, and stays at its greatest value.
    fn faults(&self) -> u64
        ensures { result ≡ faults self.now };
}

/// Writes all of the bytes, in order. After an `Err`, which comes only where the sink's count
/// rose, a prefix of them was written.
pub fn write_all<O: Sink>(out: &mut O, bytes: &[u8]) -> Result<(), WriteFault>
    ensures ok { OnOk result (Appends (O.written out.old) (O.written out.new) bytes.now) }
    ensures err { OnErr result (AppendsPrefix (O.written out.old) (O.written out.new) bytes.now) }
    ensures cause { HasCause (O.faults out.old) (O.faults out.new) result }
{
    let mut at = 0;
    while at < bytes.len() {
        at += out.write(&bytes[at..])?;
    }
    Ok(())
}

// Sending a frame, and printing a line or a number of one.
ghost use Rattle.std.specs.Prelude.{◌≡◌, ◌+◌, ◌≤◌, false, [], ◌∷◌, ◌++◌, decimal};
ghost use Rattle.arrayvec.specs.ArrayVec.{array_vec_len};
ghost use Rattle.pump_frame.specs.Counts.{Rose};
ghost use Rattle.pump_frame.specs.Frames.{IsLawful};
ghost use Rattle.pump_frame.specs.Spellings.{spelling};
ghost use Rattle.pump_link.specs.Tells.{Draws};
ghost use Rattle.peers.specs.Outputs.{SendsPart, PrintsPart, plain_frame};

use arrayvec::ArrayVec;
use itoa::Buffer;
use pump_frame::{Frame, Kind, Payload, encode};
use pump_link::{Link, Sink, write_all};

/// A frame without a payload.
pub fn plain_frame(kind: Kind, session: u32, number: u64) -> Frame
    ensures { result ≡ plain_frame kind session number }
{
    Frame {
        kind,
        session,
        number,
        payload: Payload::default(),
    }
}

/// Sends a frame, and says whether it was sent whole; a prefix of it was sent where not, which comes only
/// where the link's count of faults rose.
pub fn send_frame<C: Link>(link: &mut C, frame: &Frame) -> bool
    requires lawful { IsLawful frame.now }
    ensures sent { SendsPart (C.sent link.old) (C.sent link.new) result (spelling frame.now) }
    ensures gives { Draws (C.gives link.old) (C.gives link.new) [] }
    ensures later { C.faults link.old ≤ C.faults link.new }
    ensures failed { result ≡ false → Rose (C.faults link.old) (C.faults link.new) }
{
    let mut bytes = ArrayVec::new();
    encode(frame, &mut bytes);
    link.send(bytes.as_slice()).is_ok()
}

/// Puts a space and a number behind what is there.
pub fn put_number<const N: usize>(into: &mut ArrayVec<u8, N>, number: u64)
    requires { array_vec_len into.old + 21 ≤ N }
    ensures items { into.new.items ≡ into.old.items ++ 32 ∷ decimal number }
    ensures len { array_vec_len into.new ≤ array_vec_len into.old + 21 }
{
    let mut digits = Buffer::new();
    into.try_extend_from_slice(b" ").unwrap();
    into.try_extend_from_slice(digits.format(number).as_bytes())
        .unwrap();
}

/// Prints a line, and says whether it was written whole; a prefix of it was written where not, which comes
/// only where the sink's count of faults rose.
pub fn print<O: Sink>(out: &mut O, line: &[u8]) -> bool
    ensures printed { PrintsPart (O.written out.old) (O.written out.new) result line.now }
    ensures later { O.faults out.old ≤ O.faults out.new }
    ensures failed { result ≡ false → Rose (O.faults out.old) (O.faults out.new) }
{
    write_all(out, line).is_ok()
}

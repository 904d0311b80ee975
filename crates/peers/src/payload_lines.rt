// A reader of the lines of a sender's script.
ghost use Rattle.std.specs.Prelude.{◌≡◌, ℕ, ◌+◌, ◌-◌, ◌≤◌, [], length, Some, None, if◌then◌else◌};
ghost use Rattle.std.specs.Io.KnownBytes.{prepend_known};
ghost use Rattle.pump_frame.specs.Counts.{Rose};
ghost use Rattle.script_reader.specs.Parsing.{hex};
ghost use Rattle.peers.specs.Payloads.{IsNextByte, IsNextPayload, TakesAtMost};

use arrayvec::ArrayVec;
use pump_frame::Payload;
use pump_link::Source;
use std::marker::Model;

/// The next line of a sender's script.
#[derive(Clone, Copy)]
pub(crate) enum Lined {
    /// The payload's digits.
    Payload,
    /// No such line: no digits, more than 1024 bytes, or no line end.
    Bad,
    /// No byte is left.
    End,
    /// The source could not be read.
    Failed,
}

#[derive(Clone, Copy)]
pub(crate) enum NextByte {
    Byte(u8),
    End,
    Failed,
}

/// Reads the lines of a sender's script, each of which is one payload in hexadecimal digits. It takes
/// no memory: its room is in the value. Contracts see the bytes that it has read ahead.
#[derive(Drop)]
pub(crate) struct PayloadLines {
    cells: [u8; 4096],
    start: usize,
    end: usize,
}

impl Model for PayloadLines {
    ghost use Rattle.std.specs.Prelude.{◌≡◌, ℕ, ◌-◌, ◌≤◌, List, length, take, drop};

    ghost Value = { List ℕ };

    ghost view = { λ s. take (s.end - s.start) (drop s.start s.cells) };

    ghost invariant = { λ s. (s.start ≤ s.end) × (s.end ≤ 4096) × (length s.cells ≡ 4096) };
}

/// Whether the line is a payload in hexadecimal digits, which it then is.
#[tactic(auto, unfolding(script_reader::specs::Parsing::hex))]
fn set_payload(payload: &mut Payload, line: &[u8]) -> bool
    requires { length line.now ≤ 2048 }
    ensures { (if result then Some payload.new else None) ≡ hex line.now }
{
    if line == b"-".as_slice() {
        payload.set(&[]);
        return true;
    }
    let half = line.len() / 2;
    if half == 0 {
        return false;
    }
    let mut room = [0; 1024];
    let bytes = &mut room[..half];
    if hex::decode_to_slice(line, bytes).is_err() {
        return false;
    }
    payload.set(bytes);
    true
}

impl PayloadLines {
    /// A reader that has read nothing ahead.
    pub fn new() -> PayloadLines
        ensures { result ≡ [] }
    {
        PayloadLines {
            cells: [0; 4096],
            start: 0,
            end: 0,
        }
    }

    fn next_byte<I: Source>(&mut self, script: &mut I) -> NextByte
        ensures byte { IsNextByte (prepend_known self.old (I.left script.old))
            (prepend_known self.new (I.left script.new)) result }
        ensures ahead { length self.new ≤ 4096 }
        ensures later { I.faults script.old ≤ I.faults script.new }
        ensures failed { result ≡ NextByte.Failed → Rose (I.faults script.old) (I.faults script.new) }
    {
        if self.start == self.end {
            self.start = 0;
            self.end = 0;
            match script.read(&mut self.cells) {
                Ok(0) => return NextByte::End,
                Ok(count) => self.end = count,
                Err(_) => return NextByte::Failed,
            }
        }
        let byte = self.cells[self.start];
        self.start += 1;
        NextByte::Byte(byte)
    }

    /// Sets the payload to that of the next line. After any answer but `Payload` nothing is said of it.
    pub fn next<I: Source>(&mut self, script: &mut I, payload: &mut Payload) -> Lined
        ensures next { IsNextPayload (prepend_known self.old (I.left script.old))
            (prepend_known self.new (I.left script.new)) payload.new result }
        ensures taken { TakesAtMost 2049 (prepend_known self.old (I.left script.old))
            (prepend_known self.new (I.left script.new)) }
        ensures ahead { length self.new ≤ 4096 }
        ensures later { I.faults script.old ≤ I.faults script.new }
        ensures failed { result ≡ Lined.Failed → Rose (I.faults script.old) (I.faults script.new) }
    {
        let mut line: ArrayVec<u8, 2048> = ArrayVec::new();
        'bytes: loop {
            match self.next_byte(script) {
                NextByte::Byte(b'\n') => {
                    return if set_payload(payload, line.as_slice()) {
                        Lined::Payload
                    } else {
                        Lined::Bad
                    };
                }
                NextByte::Byte(byte) => {
                    if line.is_full() {
                        return Lined::Bad;
                    }
                    line.push(byte);
                }
                NextByte::End => {
                    return if line.is_empty() {
                        Lined::End
                    } else {
                        Lined::Bad
                    };
                }
                NextByte::Failed => return Lined::Failed,
            }
        }
    }
}

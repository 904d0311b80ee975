//! A file is cut into messages.

ghost use Rattle.std.specs.Prelude.{◌≡◌, ℕ, ◌≤◌, true, List, length};
ghost use Rattle.std.specs.Io.KnownBytes.{Consumes};
ghost use Rattle.pump_frame.specs.Counts.{Rose};
ghost use Rattle.file_cutter.specs.declared.pieces.Cut.TheVariants.{Message, Failed};
ghost use Rattle.pump_wrapper.specs.Wrapped.{wrapped, length_message};
ghost use Rattle.pump_wrapper.specs.Cutting.{MayCut, GivesNext, Takes, Counts, to_come, bytes_in_all};
ghost use Rattle.pump_wrapper.specs.Cutting.{cut_bytes, cut_message};

use crate::length::spell_length;
use file_cutter::{Cut, Pieces};
use pump_frame::Payload;
use pump_link::Source;

/// Cuts a file into messages: its pieces, all but the last one full, each behind a byte 0, and then a
/// byte 1 and the number of its bytes.
#[derive(Drop)]
pub struct Cutter {
    pieces: Pieces,
    // The length was given.
    is_ended: bool,
}

impl Cutter {
    /// A cutter of a whole file into messages of at most `message` bytes, 9 to 1024.
    pub fn new(message: u32) -> Cutter
        requires least { 9 ≤ message }
        requires greatest { message ≤ 1024 }
        ensures may { MayCut result }
        ensures message { cut_message result ≡ message }
        ensures bytes { cut_bytes result ≡ 0 }
        ensures all { (file : List ℕ) → to_come result file ≡ wrapped message file }
        ensures total { (file : List ℕ) → bytes_in_all result file ≡ length file }
    {
        Cutter {
            pieces: Pieces::new(message),
            is_ended: false,
        }
    }

    /// How many bytes the source gave so far.
    pub fn bytes(&self) -> u64
        ensures { result ≡ cut_bytes self.now }
    {
        self.pieces.bytes()
    }

    // The last message.
    fn give_length(&mut self, into: &mut Payload) -> Cut
        ensures message { into.new ≡ length_message (cut_bytes self.old) }
        ensures nine { length into.new ≡ 9 }
        ensures result { result ≡ Message }
        ensures is { self.new ≡ record self.old { is_ended = true } }
    {
        into.set(&spell_length(self.pieces.bytes()));
        self.is_ended = true;
        Cut::Message
    }

    /// The next message of the file that the source has; no call comes after one that answered
    /// anything but `Message`. `Failed` comes only where the source's count of faults rose in this
    /// call, and `TooLong` exactly where it gave 2^48 bytes in all.
    pub fn next<I: Source>(&mut self, file: &mut I, into: &mut Payload) -> Cut
        requires { MayCut self.old }
        ensures gives { GivesNext self.old self.new (I.left file.old) (I.left file.new) into.new
            result }
        ensures counts { Counts result self.old self.new (I.left file.old) (I.left file.new) }
        ensures takes { (bytes : List ℕ) × Consumes (I.left file.old) (I.left file.new) bytes
            × Takes result self.old self.new bytes }
        ensures fits { result ≡ Message → length into.new ≤ cut_message self.old }
        ensures may { result ≡ Message → MayCut self.new }
        ensures same { cut_message self.new ≡ cut_message self.old }
        ensures failed { result ≡ Failed → Rose (I.faults file.old) (I.faults file.new) }
        ensures later { I.faults file.old ≤ I.faults file.new }
    {
        if self.is_ended {
            return Cut::Done;
        }
        match self.pieces.next(file, into) {
            Cut::Done => self.give_length(into),
            cut => cut,
        }
    }
}

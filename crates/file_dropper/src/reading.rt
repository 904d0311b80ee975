// A marked file is read, piece by piece.
ghost use Rattle.std.specs.Prelude.{◌≡◌, ℕ, ◌-◌, ◌^◌, ◌<◌, ◌≤◌, List, [], Some, length, map};
ghost use Rattle.pump_frame.specs.Counts.{Rose};
ghost use Rattle.file_messages.specs.Messages.{piece_message};
ghost use Rattle.file_messages.specs.Cuts.{pieces};
ghost use Rattle.file_cutter.specs.Cutting.{MayCut, cut_bytes, cut_message};
ghost use Rattle.file_dropper.specs.Readings.{HasRead, Reads, IsMeasure, still};
ghost use Rattle.file_cutter.specs.declared.pieces.Cut.TheVariants.{Message, Done, Failed, TooLong};

use file_cutter::{Cut, Pieces};
use pump_frame::Payload;
use pump_link::Source;
use sha2::{Digest, Sha256};

/// How many bytes a file has, and their SHA-256.
#[derive(Clone, Copy)]
pub struct Measure {
    pub size: u64,
    pub digest: [u8; 32],
}

/// A file that is read in pieces, which are counted and hashed.
#[derive(Drop)]
pub struct Reading<F> {
    file: F,
    pieces: Pieces,
    hasher: Sha256,
}

impl<F: Source + Drop> Reading<F> {
    /// Reads a file from its first byte on, in messages of at most `message` bytes, 2 to 1024.
    pub fn new(file: F, message: u32) -> Reading<F>
        requires least { 2 ≤ message }
        requires greatest { message ≤ 1024 }
        ensures read { (bytes : List ℕ) → F.left file ≡ Some bytes → HasRead F.left result bytes [] }
        ensures still { (bytes : List ℕ) → F.left file ≡ Some bytes
            → still F.left result ≡ map piece_message (pieces (message - 1) bytes) }
        ensures may { MayCut result.pieces }
        ensures message { cut_message result.pieces ≡ message }
        ensures file { result.file ≡ file }
    {
        Reading {
            file,
            pieces: Pieces::new(message),
            hasher: Sha256::new(),
        }
    }

    /// The next piece, as a message; no call comes after one that answered anything but `Message`.
    pub fn next(&mut self, into: &mut Payload) -> Cut
        requires { MayCut self.old.pieces }
        ensures reads { Reads F.left self.old self.new into.new result }
        ensures may { result ≡ Message → MayCut self.new.pieces }
        ensures message { cut_message self.new.pieces ≡ cut_message self.old.pieces }
        ensures more { result ≡ Message → cut_bytes self.old.pieces < cut_bytes self.new.pieces }
        ensures few { result ≡ Done → cut_bytes self.new.pieces < 2 ^ 48 }
        ensures long { result ≡ TooLong → cut_bytes self.new.pieces ≡ 2 ^ 48 }
        ensures fits { result ≡ Message → length into.new ≤ cut_message self.old.pieces }
        ensures failed { result ≡ Failed → Rose (F.faults self.old.file) (F.faults self.new.file) }
        ensures later { F.faults self.old.file ≤ F.faults self.new.file }
    {
        let cut = self.pieces.next(&mut self.file, into);
        if cut == Cut::Message {
            self.hasher.update(&into.as_slice()[1..]);
        }
        cut
    }

    /// How many bytes were read so far.
    pub fn bytes(&self) -> u64 {
        self.pieces.bytes()
    }

    /// How many bytes were read, and their SHA-256.
    pub fn finish(self) -> Measure
        ensures measure { (bytes given : List ℕ) → HasRead F.left self bytes given → IsMeasure result given }
        ensures size { result.size ≡ cut_bytes self.pieces }
    {
        let Reading {
            file: _,
            pieces,
            hasher,
        } = self;
        Measure {
            size: pieces.bytes(),
            digest: hasher.finalize(),
        }
    }

    /// Reads to the end of the file.
    pub fn finish_reading(&mut self) -> Cut
        requires { MayCut self.old.pieces }
        ensures reads { result ≡ Done → (bytes given : List ℕ) → HasRead F.left self.old bytes given
            → HasRead F.left self.new bytes bytes }
        ensures few { result ≡ Done → cut_bytes self.new.pieces < 2 ^ 48 }
        ensures long { result ≡ TooLong → cut_bytes self.new.pieces ≡ 2 ^ 48 }
        ensures ends { result ≡ Message → ⊥ }
        ensures failed { result ≡ Failed → Rose (F.faults self.old.file) (F.faults self.new.file) }
        ensures later { F.faults self.old.file ≤ F.faults self.new.file }
    {
        let mut message = Payload::default();
        'pieces: loop {
            let cut = self.next(&mut message);
            match cut {
                Cut::Message => {}
                Cut::Done | Cut::Failed | Cut::TooLong => return cut,
            }
        }
    }
}

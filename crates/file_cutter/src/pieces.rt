// A file is cut into pieces.
ghost use Rattle.std.specs.Prelude.{◌≡◌, ℕ, ◌-◌, ◌≤◌, List, length, map};
ghost use Rattle.std.specs.Io.KnownBytes.{Consumes};
ghost use Rattle.pump_frame.specs.Counts.{Rose};
ghost use Rattle.file_messages.specs.Messages.{piece_message};
ghost use Rattle.file_messages.specs.Cuts.{pieces};
ghost use Rattle.file_cutter.specs.Cutting.{MayCut, IsReading, GivesNext, Takes, Counts, to_come, bytes_in_all};
ghost use Rattle.file_cutter.specs.Cutting.{cut_bytes, cut_message};
ghost use Rattle.file_cutter.specs.declared.pieces.Cut.TheVariants.{Message, Failed};

use crate::fill::fill;
use pump_frame::Payload;
use pump_link::Source;

/// What a call came to that cuts the next message off a file.
#[derive(Clone, Copy, PartialEq, Eq, Debug)]
pub enum Cut {
    /// The next message is given.
    Message,
    /// All messages were given.
    Done,
    /// A read of the source failed.
    Failed,
    /// The source gave 2^48 bytes, which is too many.
    TooLong,
}

// What comes next.
#[derive(Clone, Copy)]
enum Stage {
    // A piece, unless the source is at its end.
    Reading,
    // Nothing: the source is at its end.
    Ended,
    // Nothing, and no call either.
    Stopped,
}

/// A source has fewer bytes.
const LIMIT: u64 = 1 << 48;

/// Cuts a file into its pieces, all but the last one full, each in a message behind a byte 0.
#[derive(Drop)]
pub struct Pieces {
    // The bytes of a full piece.
    size: u32,
    // The bytes read so far.
    bytes: u64,
    stage: Stage,
}

impl Pieces {
    /// The pieces of a whole file, in messages of at most `message` bytes, 2 to 1024.
    pub fn new(message: u32) -> Pieces
        requires least { 2 ≤ message }
        requires greatest { message ≤ 1024 }
        ensures may { MayCut result }
        ensures message { cut_message result ≡ message }
        ensures bytes { cut_bytes result ≡ 0 }
        ensures all { (file : List ℕ) → to_come result file ≡ map piece_message (pieces (message - 1) file) }
        ensures total { (file : List ℕ) → bytes_in_all result file ≡ length file }
    {
        Pieces {
            size: message - 1,
            bytes: 0,
            stage: Stage::Reading,
        }
    }

    /// How many bytes the source gave so far.
    pub fn bytes(&self) -> u64
        ensures { result ≡ cut_bytes self.now }
    {
        self.bytes
    }

    // The next piece, unless the source is at its end.
    fn read<I: Source>(&mut self, file: &mut I, into: &mut Payload) -> Cut
        requires may { MayCut self.old }
        requires reading { IsReading self.old }
        ensures gives { GivesNext self.old self.new (I.left file.old) (I.left file.new) into.new
            result }
        ensures counts { Counts result self.old self.new (I.left file.old) (I.left file.new) }
        ensures takes { (bytes : List ℕ) × Consumes (I.left file.old) (I.left file.new) bytes
            × Takes result self.old self.new into.new bytes }
        ensures fits { result ≡ Message → length into.new ≤ cut_message self.old }
        ensures may { result ≡ Message → MayCut self.new }
        ensures same { cut_message self.new ≡ cut_message self.old }
        ensures failed { result ≡ Failed → Rose (I.faults file.old) (I.faults file.new) }
        ensures later { I.faults file.old ≤ I.faults file.new }
    {
        let most = (self.size as u64).min(LIMIT - self.bytes) as usize;
        let mut room = [0; 1024];
        let Ok(count) = fill(file, &mut room[1..=most]) else {
            self.stage = Stage::Stopped;
            return Cut::Failed;
        };
        self.bytes += count as u64;
        if self.bytes == LIMIT {
            self.stage = Stage::Stopped;
            return Cut::TooLong;
        }
        if count == 0 {
            self.stage = Stage::Stopped;
            return Cut::Done;
        }
        if count < most {
            self.stage = Stage::Ended;
        }
        into.set(&room[..=count]);
        Cut::Message
    }

    /// The next piece of the file that the source has, as a message; no call comes after one that
    /// answered anything but `Message`. `Failed` comes only where the source's count of faults rose in
    /// this call, and `TooLong` exactly where it gave 2^48 bytes in all.
    pub fn next<I: Source>(&mut self, file: &mut I, into: &mut Payload) -> Cut
        requires { MayCut self.old }
        ensures gives { GivesNext self.old self.new (I.left file.old) (I.left file.new) into.new
            result }
        ensures counts { Counts result self.old self.new (I.left file.old) (I.left file.new) }
        ensures takes { (bytes : List ℕ) × Consumes (I.left file.old) (I.left file.new) bytes
            × Takes result self.old self.new into.new bytes }
        ensures fits { result ≡ Message → length into.new ≤ cut_message self.old }
        ensures may { result ≡ Message → MayCut self.new }
        ensures same { cut_message self.new ≡ cut_message self.old }
        ensures failed { result ≡ Failed → Rose (I.faults file.old) (I.faults file.new) }
        ensures later { I.faults file.old ≤ I.faults file.new }
    {
        match self.stage {
            Stage::Reading => self.read(file, into),
            Stage::Ended | Stage::Stopped => {
                self.stage = Stage::Stopped;
                Cut::Done
            }
        }
    }
}

//! Which messages may follow those that were gathered.

ghost use Rattle.std.specs.Prelude.{◌≡◌, ◌+◌, ◌-◌, ◌<◌, ◌≤◌, ◌^◌, false, [], length, IsTrue, IfSome, MatchOption, ◌↔◌};
ghost use Rattle.file_messages.specs.Messages.{piece_message};
ghost use Rattle.pump_wrapper.specs.Wrapped.{IsPiece, piece_of};
ghost use Rattle.pump_wrapper.specs.Gathering.{Follows, HasTaken, Refuses, Steps, gathering_bytes, gathering_size};

use crate::length::spell_length;

// What may stand before the next message.
#[derive(Clone, Copy)]
enum Before {
    // Full pieces.
    Pieces,
    // Pieces of which the last one is shorter.
    Short,
    // A whole file.
    Whole,
}

// The messages that were gathered, as far as they tell what may follow.
#[derive(Drop)]
pub struct Gathering {
    // The bytes of a full piece.
    size: usize,
    // The bytes of the pieces so far.
    bytes: u64,
    before: Before,
}

impl Gathering {
    // No message yet.
    pub fn new(message: u32) -> Gathering
        requires least { 9 ≤ message }
        requires greatest { message ≤ 1024 }
        ensures taken { HasTaken message [] result }
        ensures size { gathering_size result ≡ message - 1 }
        ensures bytes { gathering_bytes result ≡ 0 }
    {
        Gathering {
            size: message as usize - 1,
            bytes: 0,
            before: Before::Pieces,
        }
    }

    // The bytes of the pieces so far.
    pub fn bytes(&self) -> u64
        ensures { result ≡ gathering_bytes self.now }
    {
        self.bytes
    }

    // The messages so far are a whole file.
    pub fn is_whole(&self) -> bool
        ensures { IsTrue result ↔ Follows self.now [] }
    {
        matches!(self.before, Before::Whole)
    }

    // Takes a piece where it may stand next.
    fn take_piece(&mut self, piece: &[u8]) -> bool
        requires size { 0 < gathering_size self.old }
        requires room { gathering_bytes self.old + length piece.now < 2 ^ 64 }
        ensures taken { IsTrue result → Steps self.old self.new (piece_message piece.now) }
        ensures refused { result ≡ false → Refuses self.old (piece_message piece.now) }
        ensures size { gathering_size self.new ≡ gathering_size self.old }
        ensures bytes { IsTrue result → gathering_bytes self.new
            ≡ gathering_bytes self.old + length piece.now }
    {
        let Before::Pieces = self.before else {
            return false;
        };
        if piece.is_empty() || piece.len() > self.size {
            return false;
        }
        self.bytes += piece.len() as u64;
        if piece.len() < self.size {
            self.before = Before::Short;
        }
        true
    }

    // Takes the length, which is no piece, where it may stand next.
    fn take_length(&mut self, message: &[u8]) -> bool
        requires size { 0 < gathering_size self.old }
        requires other { ¬ IsPiece message.now }
        ensures taken { IsTrue result → Steps self.old self.new message.now }
        ensures refused { result ≡ false → Refuses self.old message.now }
        ensures size { gathering_size self.new ≡ gathering_size self.old }
        ensures bytes { gathering_bytes self.new ≡ gathering_bytes self.old }
    {
        if let Before::Whole = self.before {
            return false;
        }
        let expected = spell_length(self.bytes);
        if message != expected.as_slice() {
            return false;
        }
        self.before = Before::Whole;
        true
    }

    // Takes the next message, and answers with the bytes of its piece; a length has none. `None` where
    // it may not stand there.
    pub fn take<'a>(&mut self, message: &'a [u8]) -> Option<&'a [u8]>
        requires size { 0 < gathering_size self.old }
        requires room { gathering_bytes self.old + length message.now < 2 ^ 64 }
        ensures taken { MatchOption result (Refuses self.old message.now)
            (λ piece. Steps self.old self.new message.now × (piece_of message.now ≡ piece.now)) }
        ensures size { gathering_size self.new ≡ gathering_size self.old }
        ensures bytes { IfSome result (λ piece. gathering_bytes self.new
            ≡ gathering_bytes self.old + length piece.now) }
    {
        if message.is_empty() || message[0] != 0 {
            if !self.take_length(message) {
                return None;
            }
            return Some(&message[..0]);
        }
        let piece = &message[1..];
        if !self.take_piece(piece) {
            return None;
        }
        Some(piece)
    }
}

// A reader of frames, byte by byte.
ghost use Rattle.std.specs.Prelude.{◌≡◌, ◌↔◌, [], IsTrue};
ghost use Rattle.pump_frame.specs.Frames.{IsLawful};
ghost use Rattle.pump_frame.specs.Spellings.{spelling};
ghost use Rattle.pump_frame.specs.Places.{IsWhole};
ghost use Rattle.pump_frame.specs.Readings.{Reading, Within, HasBegun, is_stopped};
ghost use Rattle.pump_frame.specs.Streams.{Feeds, Leaves, fed_of};

use crate::frame::Frame;
use crate::payload::Payload;
use crate::place::{Place, kind_of};
use arrayvec::ArrayVec;
use byteorder::{BigEndian, ByteOrder};
use std::marker::Model;

/// What one more byte made of a reader.
#[derive(Clone, Copy)]
pub enum Fed {
    /// The bytes since the last whole frame are a prefix of a lawful frame.
    More,
    /// They are a lawful frame, and the next byte begins a new one.
    Whole(Frame),
    /// No lawful frame begins so: the byte at this offset of its frame is the first such.
    Bad { at: u32 },
}

/// What one more byte made of a reader, where a whole frame lies in a room.
#[derive(Clone, Copy)]
pub enum Step {
    /// As `Fed::More`.
    More,
    /// As `Fed::Whole`: the frame is in the room.
    Whole,
    /// As `Fed::Bad`.
    Bad { at: u32 },
}

/// Reads frames byte by byte. Contracts see the bytes since the last whole frame, or the bad place.
#[derive(Drop)]
pub struct Reader {
    held: ArrayVec<u8, 1042>,
    place: Place,
    bad: Option<u32>,
}

impl Model for Reader {
    ghost use Rattle.pump_frame.specs.Readings.{Reading};
    ghost use Rattle.pump_frame.specs.Places.{reading_of, StandsAt};

    ghost Value = { Reading };

    ghost view = { λ r. reading_of r.bad r.held.items };

    ghost invariant = { λ r. StandsAt r.bad r.held.items r.place };
}

/// The frame of whole bytes, into the room.
fn decode(bytes: &[u8], into: &mut Frame)
    requires { IsWhole bytes.now }
    ensures lawful { IsLawful into.new }
    ensures bytes { spelling into.new ≡ bytes.now }
{
    into.kind = kind_of(bytes[3]).unwrap();
    into.session = BigEndian::read_u32(&bytes[4..]);
    into.number = BigEndian::read_u64(&bytes[8..]);
    into.payload.set(&bytes[18..]);
}

impl Reader {
    /// A reader before the first byte of a stream.
    pub fn new() -> Reader
        ensures value { result ≡ Within [] }
        ensures begun { HasBegun result }
    {
        Reader {
            held: ArrayVec::new(),
            place: Place::FirstMark,
            bad: None,
        }
    }

    /// Reads one more byte of the stream (`docs/formats.md`, "Frames"). After `Bad` every call
    /// answers the same `Bad`, and changes nothing.
    pub fn feed(&mut self, byte: u8) -> Fed
        ensures answer { Feeds self.old byte result self.new }
        ensures begun { HasBegun self.new }
    {
        let mut frame = Frame::room();
        match self.feed_into(byte, &mut frame) {
            Step::More => Fed::More,
            Step::Whole => Fed::Whole(frame),
            Step::Bad { at } => Fed::Bad { at },
        }
    }

    /// Reads one more byte as `feed` does, and moves no frame: a whole one is written into the room.
    /// `More` and `Bad` leave the room as it was.
    #[inline(always)]
    pub fn feed_into(&mut self, byte: u8, into: &mut Frame) -> Step
        ensures answer { Feeds self.old byte (fed_of result into.new) self.new }
        ensures room { Leaves result into.old into.new }
        ensures begun { HasBegun self.new }
    {
        match self.place {
            // Most bytes are those of a payload that goes on behind them.
            Place::PayloadBytes { left } if left > 1 && self.bad.is_none() => {
                self.held.push(byte);
                self.place = Place::PayloadBytes { left: left - 1 };
                Step::More
            }
            _ => self.feed_any(byte, into),
        }
    }

    // As `feed_into`.
    fn feed_any(&mut self, byte: u8, into: &mut Frame) -> Step
        ensures answer { Feeds self.old byte (fed_of result into.new) self.new }
        ensures room { Leaves result into.old into.new }
        ensures begun { HasBegun self.new }
    {
        if let Some(at) = self.bad {
            return Step::Bad { at };
        }
        let Some(place) = self.place.after(byte) else {
            let at = self.held.len() as u32;
            self.bad = Some(at);
            return Step::Bad { at };
        };
        self.held.push(byte);
        if !place.is_end() {
            self.place = place;
            return Step::More;
        }
        decode(self.held.as_slice(), into);
        self.held.clear();
        self.place = Place::FirstMark;
        Step::Whole
    }

    /// Whether it met bad bytes, and reads no further.
    pub fn is_stopped(&self) -> bool
        ensures value { result ≡ is_stopped self.now }
        ensures begun { HasBegun self.now }
    {
        self.bad.is_some()
    }

    /// A second reader that has read the same bytes.
    pub fn duplicate(&self) -> Reader
        ensures value { result ≡ self.now }
    {
        let mut held = ArrayVec::new();
        held.try_extend_from_slice(self.held.as_slice()).unwrap();
        Reader {
            held,
            place: self.place,
            bad: self.bad,
        }
    }

    /// Whether no byte of an unfinished frame is held; false after `Bad`.
    pub fn is_between(&self) -> bool
        ensures { IsTrue result ↔ (self.now ≡ Within []) }
    {
        self.bad.is_none() && self.held.is_empty()
    }
}

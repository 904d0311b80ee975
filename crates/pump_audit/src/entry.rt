// The lines of a record.
ghost use Rattle.std.specs.Prelude.{◌≡◌};
ghost use Rattle.pump_core.specs.Comings.{is_nothing as nothing_in};
ghost use Rattle.pump_core.specs.Exchanges.{is_gone as gone_in};
ghost use Rattle.pump_audit.specs.Entries.{arrival_of};
ghost use Rattle.pump_audit.specs.Offers.{coming_of};

use pump_core::Reply;
use pump_frame::{Frame, SessionRow};
use script_reader::ToldFeedback;
use std::marker::Model;

/// What a look was offered, as contracts see it.
#[derive(Clone, Copy)]
pub(crate) enum Coming {
    Nothing,
    Frame(Frame),
    /// Bytes that are no frame.
    Bad,
    /// The connection is gone.
    Gone,
}

/// As `Coming`, but the frame stays in the room into which it was read: it has more than 1 KB, and a line
/// is moved several times.
#[derive(Clone, Copy)]
pub(crate) enum Offer<'a> {
    Nothing,
    Frame(&'a Frame),
    Bad,
    Gone,
}

/// What a look was offered. Contracts see it as a `Coming`.
#[derive(Drop)]
pub(crate) struct Offered<'a> {
    offer: Offer<'a>,
}

impl<'a> Model for Offered<'a> {
    ghost use Rattle.pump_audit.specs.Offers.{coming_of};
    ghost use Rattle.pump_audit.specs.declared.entry.Coming.{Coming};

    ghost Value = { Coming };

    ghost view = { λ s. coming_of s.offer };
}

impl<'a> Offered<'a> {
    pub fn new(offer: Offer<'a>) -> Offered<'a>
        ensures { result ≡ coming_of offer.entry }
    {
        Offered { offer }
    }

    pub fn offer(&self) -> Offer<'a>
        ensures { self.now ≡ coming_of result }
    {
        self.offer
    }

    pub fn is_nothing(&self) -> bool
        ensures { result ≡ nothing_in (arrival_of self.now) }
    {
        matches!(self.offer, Offer::Nothing)
    }

    pub fn is_gone(&self) -> bool
        ensures { result ≡ gone_in (arrival_of self.now) }
    {
        matches!(self.offer, Offer::Gone)
    }
}

/// The line of a look. Its moment is in microseconds.
#[derive(Drop)]
pub(crate) struct LookLine<'a> {
    pub session: u32,
    pub moment: u64,
    /// The random word from which a delay is made.
    pub word: u32,
    pub is_fault: bool,
    pub told: ToldFeedback,
    pub coming: Offered<'a>,
}

/// A comment of a record.
#[derive(Clone, Copy)]
pub(crate) enum Note {
    /// The reply of the look before it.
    Low {
        session: u32,
        moment: u64,
        reply: Reply,
    },
    /// A time that High's side published, in microseconds.
    Time {
        micros: u32,
    },
    /// How many messages the receiver took.
    Took {
        count: u64,
    },
    /// How many messages were accepted and removed in the end.
    End {
        accepted: u64,
        removed: u64,
    },
}

/// A line of a record.
#[derive(Drop)]
pub(crate) enum Entry<'a> {
    /// The row, how many messages were found stored, and whether the last one is in the low hand.
    Opening {
        row: SessionRow,
        next: u64,
        is_held: bool,
    },
    /// The session is coarse.
    Coarse {
        session: u32,
    },
    Look(LookLine<'a>),
    Comment(Note),
}

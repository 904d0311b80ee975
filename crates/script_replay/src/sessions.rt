//! The sessions that a script has begun.

ghost use Rattle.std.specs.Prelude.{◌≡◌, ◌<◌, ◌≤◌, ◌+◌, ℕ, ◌||◌, true, false, not, nat_le, nat_lt, max, List, []};
ghost use Rattle.std.specs.Prelude.{length, Some, IfOk, slice_get, vec_len, vec_capacity, position};
ghost use Rattle.std.specs.List.{insert as inserted};
ghost use Rattle.script_reader.specs.Heads.{line_with};
ghost use Rattle.script_reader.specs.Scripts.{Begun};
ghost use Rattle.script_reader.specs.Sessions.{Sessions as Script, no_sessions, begins_session as begins};
ghost use Rattle.script_reader.specs.Sessions.{stands_first as is_first, moment_of as moment_so_far};
ghost use Rattle.script_reader.specs.Sessions.{is_in_turn as may_come, AllEnd};
ghost use Rattle.two_worlds.specs.Printing.{lines_in};
ghost use Rattle.script_replay.specs.Sessions.{id_of, place_in, is_of_number, AreInOrder, EachStandsFor, AllStandFor};
ghost use Rattle.script_replay.specs.Sessions.{StandsFor};

use crate::session::Session;
use arrayvec::ArrayVec;
use disk_model::Disk;
use script_reader::{EventHead, LineHead, begins_session, moment_of, stands_first};
use std::alloc::{AllocError, Global};

/// The most sessions that a script may have.
pub const MOST_SESSIONS: usize = 16;

/// The sessions that a script has begun, and what its lines so far say of the next one.
pub struct Sessions<D: Disk> {
    /// By rising number.
    pub begun: Vec<Session<D>>,
    /// The moment of the last line that had one, in microseconds, whichever session's it was.
    pub moment: u64,
    /// A line came that needs not stand first.
    pub is_under_way: bool,
}

impl<D: Disk> Sessions<D> {
    /// None yet, with room for as many as a script may have.
    pub fn new(alloc: Global) -> Result<Sessions<D>, AllocError>
        ensures none { IfOk result (λ s. s.begun.items ≡ []) }
        ensures stands { IfOk result (λ s. AllStandFor D.told s no_sessions) }
        ensures order { IfOk result (λ s. AreInOrder s) }
    {
        Ok(Sessions {
            begun: Vec::with_capacity(alloc, MOST_SESSIONS)?,
            moment: 0,
            is_under_way: false,
        })
    }

    /// The place of the first that has at least this number.
    fn first_from(&self, number: u32) -> Option<usize>
        ensures { result ≡ position (λ s. nat_le number (id_of s)) self.now.begun.items }
    {
        self.begun.iter().position(|session| number <= session.id())
    }

    /// How many have a smaller number.
    pub fn place_of(&self, number: u32) -> usize
        ensures { result ≡ place_in number self.now.begun.items }
    {
        match self.first_from(number) {
            Some(place) => place,
            None => self.begun.len(),
        }
    }

    /// Whether the session at this place has this number.
    pub fn is_at(&self, place: usize, number: u32) -> bool
        ensures { result ≡ is_of_number number (slice_get self.now.begun.items place) }
    {
        let begun = self.begun.as_slice();
        place < begun.len() && begun[place].id() == number
    }

    /// Whether there are fewer sessions than a script may have, where the line is to begin one.
    fn has_room_for(&self, line: &LineHead) -> bool
        ensures { (bytes : List ℕ) → result
            ≡ (not (begins (line_with bytes line.now)) || nat_lt (length self.now.begun.items) 16) }
    {
        !begins_session(line) || self.begun.len() < MOST_SESSIONS
    }

    /// Whether a line may come now: one that begins a session or makes one coarse before all others, and
    /// one that begins a session as long as there are fewer than 16; another no earlier than those before
    /// it.
    pub fn is_in_turn(&self, line: &LineHead) -> bool
        ensures may { (bytes : List ℕ) (t : Script) → AllStandFor D.told self.now t
            → may_come t (line_with bytes line.now) ≡ result }
        ensures first { (bytes : List ℕ) → result ≡ true → begins (line_with bytes line.now) ≡ true
            → (self.now.is_under_way ≡ false) × (length self.now.begun.items < 16) }
        ensures way { (bytes : List ℕ) → result ≡ true → is_first (line_with bytes line.now) ≡ true
            → self.now.is_under_way ≡ false }
    {
        if stands_first(line) {
            return !self.is_under_way && self.has_room_for(line);
        }
        match moment_of(line) {
            None => true,
            Some(moment) => self.moment <= moment,
        }
    }

    /// Puts a session that has begun at its place, where there is room.
    pub fn insert(&mut self, place: usize, session: Session<D>)
        requires place { place ≤ vec_len self.old.begun }
        requires room { vec_len self.old.begun < vec_capacity self.old.begun }
        ensures items { self.new.begun.items ≡ inserted self.old.begun.items place session }
        ensures len { vec_len self.new.begun ≡ vec_len self.old.begun + 1 }
        ensures room { vec_capacity self.old.begun ≤ vec_capacity self.new.begun }
        ensures moment { self.new.moment ≡ self.old.moment }
        ensures under_way { self.new.is_under_way ≡ self.old.is_under_way }
    {
        match self.begun.insert(place, session) {
            Ok(()) => {}
            Err(_) => unreachable!(),
        }
    }

    /// The line led the session at this place to where it is.
    pub fn note_applied(&mut self, line: &LineHead, place: usize)
        requires { place < vec_len self.old.begun }
        ensures begun { self.new.begun ≡ self.old.begun }
        ensures moment { (session : _) (running : Begun) → slice_get self.old.begun.items place ≡ Some session
            → StandsFor D.told session running
            → self.new.moment ≡ max self.old.moment (moment_so_far running) }
        ensures under_way { (bytes : List ℕ) → self.new.is_under_way
            ≡ (self.old.is_under_way || not (is_first (line_with bytes line.now))) }
    {
        self.moment = self.moment.max(self.begun[place].moment());
        self.is_under_way = self.is_under_way || !stands_first(line);
    }

    /// What the end of the script prints.
    pub fn ends(&self) -> ArrayVec<EventHead, 16>
        requires { length self.now.begun.items ≤ 16 }
        ensures { (running : List Begun) → EachStandsFor D.told self.now.begun.items running
            → AllEnd running (lines_in result.items) }
    {
        let mut ends = ArrayVec::new();
        'ends: for session in self.begun.as_slice() {
            ends.push(session.end());
        }
        ends
    }
}

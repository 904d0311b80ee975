//! What waits on a session's low connection.

ghost use Rattle.std.specs.Prelude.{◌≡◌, ◌+◌, ◌^◌, ◌<◌, ◌≤◌, ◌++◌, [], ◌∷◌, List, take, length};
ghost use Rattle.std.specs.Prelude.{IfOk};
ghost use Rattle.pump_core.specs.History.{Arrival as Offered};
ghost use Rattle.script_reader.specs.Steps.{coming, data_frame};
ghost use Rattle.two_worlds.specs.Private.Arrivals.{IsFed, Gathers};
ghost use Rattle.two_worlds.specs.declared.connection.Waiting.{Waiting as Waits};

use crate::waiting_list::WaitingList;
use low_process::Arrival;
use pump_frame::{Frame, Name, OutOfMemory, Reader, Step};
use script_reader::ArrivingHead;
use std::alloc::Global;
use std::marker::Model;

/// An arrival that waits.
#[derive(Clone, Copy)]
pub(crate) enum Waiting {
    Frame(Frame),
    /// Bytes that are no frame.
    Bad,
}

impl Default for Waiting {
    fn default() -> Waiting {
        Waiting::Bad
    }
}

/// What came on a session's low connection, at most 64 arrivals, and the reader of its raw bytes.
/// Each frame that waits is one that a low process can be given.
#[derive(Drop)]
pub struct Connection {
    /// What was not taken, the oldest first.
    waits: WaitingList,
    /// Bad bytes were taken; what waits behind them is never offered.
    is_broken: bool,
    // On the heap, as the room below: each has more than 1 KB, and a connection is moved as it is opened.
    reader: Box<Reader>,
    // The last frame that raw bytes brought.
    room: Box<Frame>,
}

impl Model for Connection {
    ghost use Rattle.two_worlds.specs.Connections.{Connected, AreLawful};

    ghost Value = { Connected };

    ghost use Rattle.two_worlds.specs.Private.Arrivals.{arrivals_of};

    ghost view = { λ c. record {
      waits = arrivals_of c.waits;
      is_broken = c.is_broken;
      reading = c.reader.value;
    } };

    ghost invariant = { λ c. AreLawful (arrivals_of c.waits) };
}

/// One more raw byte: what it brings waits where there is room, and is counted.
fn read_byte(
    reader: &mut Reader,
    byte: u8,
    room: &mut Frame,
    waits: &mut WaitingList,
    count: usize,
) -> usize
    requires count { count < 2 ^ 32 }
    ensures gathers { (before : List Waits) (added : List Offered) → Gathers before added waits.old count
        → (more : List Offered) × IsFed reader.old (byte ∷ []) (coming more reader.new)
        × Gathers before (added ++ more) waits.new result }
    ensures count { result ≤ count + 1 }
{
    let was_stopped = reader.is_stopped();
    match reader.feed_into(byte, room) {
        Step::More => count,
        Step::Whole => {
            waits.hold(Waiting::Frame(*room));
            count + 1
        }
        Step::Bad { .. } => {
            if was_stopped {
                return count;
            }
            waits.hold(Waiting::Bad);
            count + 1
        }
    }
}

/// What raw bytes bring waits as far as there is room; answers how many would wait with all of it.
fn read_raw(reader: &mut Reader, bytes: &[u8], room: &mut Frame, waits: &mut WaitingList) -> usize
    requires bytes { length bytes.now ≤ 1042 }
    ensures { (added : List Offered) × IsFed reader.old bytes.now (coming added reader.new)
        × Gathers waits.old added waits.new result }
{
    let mut count = waits.len();
    for byte in bytes {
        count = read_byte(reader, *byte, room, waits, count);
    }
    count
}

impl Connection {
    ghost use Rattle.std.specs.Prelude.{Bool};
    ghost use Rattle.script_reader.specs.Lawful.{IsLawfulArriving};
    ghost use Rattle.script_reader.specs.Heads.{arriving_with, CanHold};
    ghost use Rattle.script_reader.specs.declared.line.Arriving.TheVariants as kinds;
    ghost use Rattle.low_process.specs.Hands.{HasNumber};
    ghost use Rattle.low_process.specs.Looks.{IsLawful, arrival_of};
    ghost use Rattle.two_worlds.specs.Connections.{unused, offered_by, settled, Joins, JoinsFrame, JoinsRaw};

    /// A connection before anything comes.
    pub fn new(alloc: Global) -> Result<Connection, OutOfMemory>
        ensures { IfOk result (λ connection. connection ≡ unused) }
    {
        Ok(Connection {
            waits: WaitingList::new(alloc)?,
            is_broken: false,
            reader: Box::new(alloc, Reader::new())?,
            room: Box::new(alloc, Frame::room())?,
        })
    }

    /// A frame joins what waits, where there is room for it.
    #[inline(always)]
    fn join_frame(&mut self, frame: Frame) -> bool
        requires { HasNumber frame }
        ensures { JoinsFrame self.old self.new frame result }
    {
        if self.waits.len() >= 64 {
            return false;
        }
        self.waits.push(Waiting::Frame(frame));
        true
    }

    /// What raw bytes bring joins what waits, where there is room for it.
    #[inline(never)]
    fn join_raw(&mut self, bytes: &[u8]) -> bool
        requires { length bytes.now ≤ 1042 }
        ensures { JoinsRaw self.old self.new bytes.now result }
    {
        // What the reader holds is the prefix of a frame.
        let _stopped = self.reader.is_stopped();
        let before = self.waits.len();
        let mut reader = self.reader.duplicate();
        if read_raw(&mut reader, bytes, &mut *self.room, &mut self.waits) > 64 {
            self.waits.truncate(before);
            return false;
        }
        *self.reader = reader;
        true
    }

    /// A HELLO joins what waits, where there is room for it. Apart, for the size of a frame.
    #[inline(never)]
    fn join_hello(&mut self, session: u32, low: &Name, high: &Name) -> bool
        ensures { Joins self.old self.new session (kinds.Hello low.now high.now) result }
    {
        self.join_frame(Frame::hello(session, low, high))
    }

    /// A DATA joins what waits, where there is room for it.
    fn join_data(&mut self, session: u32, number: u64, bytes: &[u8]) -> bool
        requires number { number < 2 ^ 48 }
        requires few { length bytes.now ≤ 1024 }
        ensures { JoinsFrame self.old self.new (data_frame session number bytes.now) result }
    {
        if self.waits.len() >= 64 {
            return false;
        }
        self.waits.push_data(session, number, bytes);
        true
    }

    /// What comes with a `look` line of the session joins what waits; false where more than 64
    /// would wait, and then nothing has changed.
    pub fn join(&mut self, session: u32, arriving: &ArrivingHead, bytes: &[u8]) -> bool
        requires lawful { IsLawfulArriving (arriving_with bytes.now arriving.now) }
        requires room { CanHold arriving.now bytes.now }
        ensures { Joins self.old self.new session (arriving_with bytes.now arriving.now) result }
    {
        // No more than 64 wait.
        let _waiting = self.waits.len();
        match arriving {
            ArrivingHead::Nothing => true,
            ArrivingHead::Hello { low, high } => self.join_hello(session, low, high),
            ArrivingHead::Data { number } => self.join_data(session, *number, bytes),
            ArrivingHead::Raw => self.join_raw(bytes),
        }
    }

    /// What a look is offered: the earliest arrival that waits; nothing where none does or where it
    /// is behind bad bytes.
    pub fn first(&self) -> Arrival<'_>
        ensures offered { arrival_of result ≡ offered_by self.now }
        ensures lawful { IsLawful (arrival_of result) }
    {
        if self.is_broken {
            return Arrival::Nothing;
        }
        match self.waits.first() {
            Some(Waiting::Frame(frame)) => Arrival::Frame(frame),
            Some(Waiting::Bad) => Arrival::Bad,
            None => Arrival::Nothing,
        }
    }

    /// After a look that was offered `first`: where it was taken, it no longer waits, and bad bytes
    /// break the connection.
    pub fn settle(&mut self, taken: bool)
        ensures { self.new ≡ settled self.old taken }
    {
        if !taken {
            return;
        }
        if matches!(self.first(), Arrival::Bad) {
            self.is_broken = true;
        }
        self.waits.take_first();
    }

    /// The connection is lost, and what waits on it; a new one begins.
    pub fn lose(&mut self)
        ensures { self.new ≡ unused }
    {
        self.waits.clear();
        self.is_broken = false;
        *self.reader = Reader::new();
    }
}

//! Arrivals that wait on a connection, the oldest first.

ghost use Rattle.std.specs.Prelude.{◌≡◌, ◌<◌, ◌≤◌, ◌++◌, [], ◌∷◌, length, take, drop, IfOk, IfSome, IfNone, vec_len};
ghost use Rattle.std.specs.Prelude.{vec_capacity, ◌+◌};
ghost use Rattle.script_reader.specs.Steps.{data_frame};
ghost use Rattle.two_worlds.specs.declared.connection.Waiting.TheVariants as waiting;

use crate::connection::Waiting;
use pump_frame::{Frame, Kind, OutOfMemory};
use std::alloc::Global;
use std::marker::Model;

/// At most 64 arrivals that wait. The first is taken without moving the others, which move only where the
/// room's end is reached. Contracts see their list.
#[derive(Drop)]
pub(crate) struct WaitingList {
    cells: Vec<Waiting>,
    // How many of the cells were taken.
    taken: usize,
    // The cells from here on wait no more. A frame that comes is written over what they hold.
    end: usize,
}

impl Model for WaitingList {
    ghost use Rattle.std.specs.Prelude.{◌≤◌, List, length, drop, take, vec_len, vec_capacity};
    ghost use Rattle.two_worlds.specs.declared.connection.Waiting.{Waiting};

    ghost Value = { List Waiting };

    ghost view = { λ w. drop w.taken (take w.end w.cells.items) };

    ghost invariant = { λ w. (w.taken ≤ w.end) × (w.end ≤ vec_len w.cells) × (vec_len w.cells ≤ 64)
        × (64 ≤ vec_capacity w.cells) };
}

/// The cells behind those that were taken come to the room's begin.
#[inline(never)]
fn move_up(cells: &mut Vec<Waiting>, taken: usize)
    requires { taken ≤ vec_len cells.old }
    ensures items { cells.new.items ≡ drop taken cells.old.items }
    ensures len { vec_len cells.new + taken ≡ vec_len cells.old }
    ensures capacity { vec_capacity cells.new ≡ vec_capacity cells.old }
{
    let left = cells.len() - taken;
    cells.as_mut_slice().rotate_left(taken);
    cells.truncate(left);
}

/// The DATA with these bytes. Of a payload only they are written.
fn write_data(frame: &mut Frame, session: u32, number: u64, bytes: &[u8])
    requires { length bytes.now ≤ 1024 }
    ensures { frame.new ≡ data_frame session number bytes.now }
{
    frame.kind = Kind::Data;
    frame.session = session;
    frame.number = number;
    frame.payload.set(bytes);
}

/// The cell is this DATA from now on, in the frame that it has, if any.
fn overwrite(cell: &mut Waiting, session: u32, number: u64, bytes: &[u8])
    requires { length bytes.now ≤ 1024 }
    ensures { cell.new ≡ waiting.Frame (data_frame session number bytes.now) }
{
    match cell {
        Waiting::Frame(frame) => write_data(frame, session, number, bytes),
        Waiting::Bad => {
            let mut frame = Frame::room();
            write_data(&mut frame, session, number, bytes);
            *cell = Waiting::Frame(frame);
        }
    }
}

impl WaitingList {
    /// Nothing waits.
    pub(crate) fn new(alloc: Global) -> Result<WaitingList, OutOfMemory>
        ensures { IfOk result (λ list. list ≡ []) }
    {
        Ok(WaitingList {
            cells: Vec::with_capacity(alloc, 64)?,
            taken: 0,
            end: 0,
        })
    }

    /// How many wait.
    pub(crate) fn len(&self) -> usize
        ensures value { result ≡ length self.now }
        ensures fits { result ≤ 64 }
    {
        self.end - self.taken
    }

    /// One more waits; there is room for it.
    #[inline(always)]
    pub(crate) fn push(&mut self, next: Waiting)
        requires { length self.old < 64 }
        ensures { self.new ≡ self.old ++ next ∷ [] }
    {
        if self.end >= 64 {
            move_up(&mut self.cells, self.taken);
            self.end -= self.taken;
            self.taken = 0;
        }
        self.cells.truncate(self.end);
        self.cells.push_reserved(next);
        self.end += 1;
    }

    /// A DATA more waits; there is room for it. It is written where it is to lie.
    pub(crate) fn push_data(&mut self, session: u32, number: u64, bytes: &[u8])
        requires room { length self.old < 64 }
        requires few { length bytes.now ≤ 1024 }
        ensures { self.new ≡ self.old ++ waiting.Frame (data_frame session number bytes.now) ∷ [] }
    {
        if self.end < self.cells.len() {
            overwrite(&mut self.cells[self.end], session, number, bytes);
            self.end += 1;
            return;
        }
        let mut frame = Frame::room();
        write_data(&mut frame, session, number, bytes);
        self.push(Waiting::Frame(frame));
    }

    /// One more waits, where there is room for it.
    pub(crate) fn hold(&mut self, next: Waiting)
        ensures { self.new ≡ take 64 (self.old ++ next ∷ []) }
    {
        if self.len() < 64 {
            self.push(next);
        }
    }

    /// The first that waits.
    pub(crate) fn first(&self) -> Option<&Waiting>
        ensures none { IfNone result (self.now ≡ []) }
        ensures some { IfSome result (λ first. self.now ≡ first.now ∷ drop 1 self.now) }
    {
        self.cells[..self.end].get(self.taken)
    }

    /// The first no longer waits, where one does.
    pub(crate) fn take_first(&mut self)
        ensures { self.new ≡ drop 1 self.old }
    {
        if self.len() <= 1 {
            self.clear();
        } else {
            self.taken += 1;
        }
    }

    /// Only so many of them wait still.
    pub(crate) fn truncate(&mut self, count: usize)
        requires { count ≤ 64 }
        ensures { self.new ≡ take count self.old }
    {
        if count < self.len() {
            self.end = self.taken + count;
        }
    }

    /// None waits any more.
    pub(crate) fn clear(&mut self)
        ensures { self.new ≡ [] }
    {
        self.taken = 0;
        self.end = 0;
    }
}

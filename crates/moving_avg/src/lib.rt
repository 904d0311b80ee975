//! The moving average of High's acknowledgement times. A `Window` holds the last times of a session, in
//! microseconds, with their sum, so a push costs the same for every window size. Its `average` is what comes
//! down to Low: the mean of the last times, or in a coarse session the mean's level (`down`, `level`,
//! `is_level`), one of a few numbers to which a mean is rounded up. It knows neither where a time comes from
//! nor who is told the average.
#![tactic(auto)]

ghost use Rattle.std.specs.Prelude.{◌≡◌, ℕ, ◌+◌, ◌-◌, ◌^◌, ◌<◌, ◌≤◌, List, [], ◌∷◌, ◌++◌, length, min, IfOk};
ghost use Rattle.std.specs.List.{All};

mod levels;

use circular_buffer::HeapCircularBuffer;
pub use levels::{down, is_level, level};
use pump_frame::{Averaging, OutOfMemory, SessionRow};
use std::alloc::Global;

/// All times that were pushed since it was made or cleared, in microseconds. Contracts see them as
/// a whole list, by `HoldsTimes`; it keeps the last ones and their sum, so that a push costs the
/// same for every window size.
#[derive(Drop)]
pub struct Window {
    ring: HeapCircularBuffer<u32>,
    sum: u64,
    count: u32,
    start: u32,
    coarse: bool,
    ghost total: { sum ≡ Rattle.std.specs.Prelude.sum ring.items },
    ghost bounded: { All (λ time. time ≤ 10 ^ 9) ring.items },
    ghost filled: { length ring.items ≡ min ring.capacity count },
    ghost room: { (0 < ring.capacity) × (ring.capacity ≤ 256) },
    ghost low_start: { start ≤ 10 ^ 9 },
}

impl Window {
    ghost use Rattle.std.specs.Prelude.{true, false};
    ghost use Rattle.pump_frame.specs.Rows.{IsLawfulRow};
    ghost use Rattle.pump_frame.specs.Averages.{averaging_of, mean_of, average_of};
    ghost use Rattle.moving_avg.specs.Windows.{HoldsTimes, averaging_in, count_of};

    /// A window over the last `m` times, 1 to 256, with no time yet. Its mean is `start`, at most
    /// 10^9, until the first push. It is not coarse.
    pub fn new(alloc: Global, m: u32, start: u32) -> Result<Window, OutOfMemory>
        requires size { (1 ≤ m) × (m ≤ 256) }
        requires start { start ≤ 10 ^ 9 }
        ensures empty { IfOk result (λ window. HoldsTimes window []) }
        ensures count { IfOk result (λ window. count_of window ≡ 0) }
        ensures averaging { IfOk result (λ window. averaging_in window
            ≡ record { window = m; start = start; coarse = false }) }
    {
        let ring = HeapCircularBuffer::with_capacity(alloc, m as usize)?;
        Ok(Window {
            ring,
            sum: 0,
            count: 0,
            start,
            coarse: false,
        })
    }

    /// The window of a lawful row, with no time yet.
    pub fn of_row(alloc: Global, row: &SessionRow) -> Result<Window, OutOfMemory>
        requires { IsLawfulRow row.now }
        ensures empty { IfOk result (λ window. HoldsTimes window []) }
        ensures count { IfOk result (λ window. count_of window ≡ 0) }
        ensures averaging { IfOk result (λ window. averaging_in window ≡ averaging_of row.now) }
    {
        let mut window = Window::new(alloc, row.window, row.start)?;
        if row.coarse {
            window.make_coarse();
        }
        Ok(window)
    }

    /// From now on its average is a level.
    pub fn make_coarse(&mut self)
        ensures times { (times : List ℕ) → HoldsTimes self.old times → HoldsTimes self.new times }
        ensures count { count_of self.new ≡ count_of self.old }
        ensures averaging { averaging_in self.new ≡ record (averaging_in self.old) { coarse = true } }
    {
        self.coarse = true;
    }

    /// Adds a time, at most 10^9, at the end.
    pub fn push(&mut self, micros: u32)
        requires micros { micros ≤ 10 ^ 9 }
        requires room { count_of self.old < 2 ^ 32 - 1 }
        ensures times { (times : List ℕ) → HoldsTimes self.old times → HoldsTimes self.new (times ++ micros ∷ []) }
        ensures count { count_of self.new ≡ count_of self.old + 1 }
        ensures averaging { averaging_in self.new ≡ averaging_in self.old }
    {
        let fallen_out = self.ring.push_back(micros).unwrap_or(0);
        self.sum = self.sum + micros as u64 - fallen_out as u64;
        self.count += 1;
    }

    // The mean of the last times, rounded down: of the window's size, or of all where there are
    // fewer; the start where there is none.
    fn mean(&self) -> u32
        ensures mean { (times : List ℕ) → HoldsTimes self.now times → result ≡ mean_of (averaging_in self.now) times }
        ensures bound { result ≤ 10 ^ 9 }
    {
        if self.count == 0 {
            return self.start;
        }
        let _start = self.start;
        let length = self.ring.len();
        (self.sum / length as u64) as u32
    }

    // How it averages.
    fn averaging(&self) -> Averaging
        ensures { result ≡ averaging_in self.now }
    {
        Averaging {
            window: self.ring.capacity() as u32,
            start: self.start,
            coarse: self.coarse,
        }
    }

    /// The mean of the last times, rounded down: of the window's size, or of all where there are
    /// fewer; the start where there is none. Of a coarse window it is the mean's level.
    pub fn average(&self) -> u32
        ensures average { (times : List ℕ) → HoldsTimes self.now times
            → result ≡ average_of (averaging_in self.now) times }
        ensures bound { result ≤ 10 ^ 9 }
    {
        down(&self.averaging(), self.mean())
    }

    /// How many times there are.
    pub fn count(&self) -> u32
        ensures times { (times : List ℕ) → HoldsTimes self.now times → result ≡ length times }
        ensures count { result ≡ count_of self.now }
    {
        self.count
    }

    /// Forgets all times. It is then as it was made, and coarse where it was coarse before.
    pub fn clear(&mut self)
        ensures empty { HoldsTimes self.new [] }
        ensures count { count_of self.new ≡ 0 }
        ensures averaging { averaging_in self.new ≡ averaging_in self.old }
    {
        self.ring.clear();
        self.sum = 0;
        self.count = 0;
    }
}

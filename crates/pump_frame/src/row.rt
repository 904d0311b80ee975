// A row of the session table, and the ranges of its numbers.
ghost use Rattle.std.specs.Prelude.{◌≡◌, nat_le, ◌&&◌};
ghost use Rattle.pump_frame.specs.Rows.{first_bad};

use crate::name::Name;

/// The least number of messages that a row lets the relay hold.
pub const LEAST_CAPACITY: u32 = 3;

/// The greatest number of messages that a row lets the relay hold.
pub const GREATEST_CAPACITY: u32 = 256;

/// One session of the table: who may use it, and its numbers. All times are in microseconds.
#[derive(Clone, Copy)]
pub struct SessionRow {
    pub id: u32,
    /// The low party's name.
    pub low: Name,
    /// The high party's name.
    pub high: Name,
    /// How many messages the relay holds at most, `LEAST_CAPACITY` to `GREATEST_CAPACITY`.
    pub capacity: u32,
    /// The longest payload in bytes, 1 to 1024.
    pub message: u32,
    /// How many of High's times are averaged, 1 to 256.
    pub window: u32,
    /// The average before the first time, at most 10^9.
    pub start: u32,
    /// The longest delay, at most 10^9.
    pub longest: u32,
    /// How long the high process waits before it sends a message again, 1 to 10^9.
    pub resend: u32,
    pub low_port: u16,
    pub high_port: u16,
    /// Whether only the level of an average comes down to Low.
    pub coarse: bool,
}

/// A key of the session table.
#[derive(Clone, Copy, PartialEq, Eq, Debug)]
pub enum RowKey {
    Session,
    Id,
    Low,
    High,
    Capacity,
    Message,
    Window,
    Start,
    Longest,
    Resend,
    LowPort,
    HighPort,
    Coarse,
}

fn is_within(value: u32, least: u32, greatest: u32) -> bool
    ensures { result ≡ (nat_le least value && nat_le value greatest) }
{
    least <= value && value <= greatest
}

impl SessionRow {
    /// The first of capacity, message, window, start, longest and resend whose number is outside
    /// its range; `None` where the row is lawful.
    pub fn first_bad(&self) -> Option<RowKey>
        ensures { result ≡ first_bad self.now }
    {
        if !is_within(self.capacity, LEAST_CAPACITY, GREATEST_CAPACITY) {
            return Some(RowKey::Capacity);
        }
        if !is_within(self.message, 1, 1024) {
            return Some(RowKey::Message);
        }
        if !is_within(self.window, 1, 256) {
            return Some(RowKey::Window);
        }
        if !is_within(self.start, 0, 1_000_000_000) {
            return Some(RowKey::Start);
        }
        if !is_within(self.longest, 0, 1_000_000_000) {
            return Some(RowKey::Longest);
        }
        if !is_within(self.resend, 1, 1_000_000_000) {
            return Some(RowKey::Resend);
        }
        None
    }
}

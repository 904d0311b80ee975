//! The log of a relay: what it says on standard error while it serves, each line with its moment.

mod causes;
mod timing;

use adapters::{is_writable, now};
use causes::{EndCause, HighCause, LowCause};
use pump_frame::SessionRow;
use relay_threads::{HighWhy, LowWhy, RoundsEnd, Watch};
use std::fmt::Display;
use timing::{Fullness, Sparing, Stamp};

/// The log of a relay on standard error: when its sides begin and end, who comes and goes at its ports, whom it
/// drops and why, and when its buffer is full for more than a second. Nothing of a message stands in it. A line
/// that standard error does not take at once is left out, since the relay waits for no reader of its log.
#[derive(Drop)]
pub struct DoorLog<'a> {
    rt: &'a HostRuntime,
    // The row of the session that is served, if one is.
    row: Option<SessionRow>,
    low: Sparing,
    high: Sparing,
    fullness: Fullness,
}

impl<'a> DoorLog<'a> {
    /// For the session of this row. Without one nothing is said.
    pub fn new(rt: &'a HostRuntime, row: Option<SessionRow>) -> DoorLog<'a> {
        DoorLog {
            rt,
            row,
            low: Sparing::new(),
            high: Sparing::new(),
            fullness: Fullness::new(),
        }
    }

    /// The moment by the clock that never goes back, in milliseconds.
    fn millis(&self) -> u64 {
        u64::try_from(now(self.rt).as_millis()).unwrap_or(u64::MAX)
    }

    fn say<W: Display>(&self, line: &W) {
        if is_writable(&self.rt.stderr(), 0) {
            let _ = eprintln!(self.rt; "{}netpump: {line}", Stamp::now(self.rt));
        }
    }

    fn say_of_peer<W: Display>(&self, door: &Door, line: &W) {
        let Some(left_out) = door.sparing.turn(self.millis()) else {
            return;
        };
        let Door { side, port, .. } = door;
        if left_out > 0 {
            self.say(&format_args!("{left_out} lines about the {side} port {port} were left out"));
        }
        self.say(&format_args!("the peer at the {side} port {port} {line}"));
    }

    fn say_began(&self, door: &Door) {
        let Door {
            side,
            port,
            session,
            ..
        } = door;
        self.say(&format_args!("the {side} side of session {session} is ready at port {port}"));
    }

    fn say_ended(&self, door: &Door, other: &str, end: RoundsEnd) {
        let Door {
            side,
            port,
            session,
            ..
        } = door;
        if end == RoundsEnd::Rounds {
            self.say(&format_args!(
                "the {side} side of session {session} has made its last look, and its port {port} is closed"
            ));
            return;
        }
        let why = EndCause {
            end,
            session: *session,
            role: side,
        };
        self.say(&format_args!(
            "the {side} side of session {session} has ended: {why}. Its port {port} is closed, and the {other} side \
            goes on to its own end; stop this relay and start it again"
        ));
    }

    fn low_door(&self) -> Option<Door> {
        self.row.as_ref().map(|row| Door {
            side: "low",
            port: row.low_port,
            session: row.id,
            sparing: &self.low,
        })
    }

    fn high_door(&self) -> Option<Door> {
        self.row.as_ref().map(|row| Door {
            side: "high",
            port: row.high_port,
            session: row.id,
            sparing: &self.high,
        })
    }
}

/// A door of the relay, and which lines about its peers are written.
#[derive(Drop)]
struct Door<'a> {
    side: &'a str,
    port: u16,
    session: u32,
    sparing: &'a Sparing,
}

impl Watch for DoorLog<'_> {
    fn low_began(&self) {
        if let Some(door) = self.low_door() {
            self.say_began(&door);
        }
    }

    fn low_full(&self) {
        if let Some(row) = &self.row {
            if self.fullness.is_news(self.millis()) {
                self.say(&format_args!(
                    "the buffer of session {} has been full for a second, and Low waits; see that the receiver runs \
                    and keeps up",
                    row.id
                ));
            }
        }
    }

    fn low_passed(&self) {
        if let Some(row) = &self.row {
            if let Some(since) = self.fullness.end() {
                self.say(&format_args!(
                    "the buffer of session {} has room again; it was full for {} seconds",
                    row.id,
                    self.millis().saturating_sub(since) / 1000
                ));
            }
        }
    }

    fn low_came(&self) {
        if let Some(door) = self.low_door() {
            self.say_of_peer(&door, &"came");
        }
    }

    fn low_left(&self, why: LowWhy) {
        if let Some(door) = self.low_door() {
            match why {
                LowWhy::Gone => self.say_of_peer(&door, &"left"),
                LowWhy::Bad | LowWhy::LinkFailed => {
                    self.say_of_peer(&door, &format_args!("was dropped: {}", LowCause(why)));
                }
                _ => {}
            }
        }
    }

    fn low_ended(&self, end: RoundsEnd) {
        if let Some(door) = self.low_door() {
            self.say_ended(&door, "high", end);
        }
    }

    fn high_began(&self) {
        if let Some(door) = self.high_door() {
            self.say_began(&door);
        }
    }

    fn high_came(&self) {
        if let Some(door) = self.high_door() {
            self.say_of_peer(&door, &"came");
        }
    }

    fn high_left(&self, why: HighWhy) {
        if let Some(door) = self.high_door() {
            match why {
                HighWhy::Gone => self.say_of_peer(&door, &"left"),
                HighWhy::Looks | HighWhy::Stopped | HighWhy::Device { .. } => {}
                _ => self.say_of_peer(&door, &format_args!("was dropped: {}", HighCause(why))),
            }
        }
    }

    fn high_ended(&self, end: RoundsEnd) {
        if let Some(door) = self.high_door() {
            self.say_ended(&door, "low", end);
        }
    }
}

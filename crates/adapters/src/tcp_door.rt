//! A TCP listener as a door.

ghost use Rattle.std.specs.Prelude.{◌≡◌, IfOk};

use crate::readiness::{is_readable, pause};
use crate::tcp_link::TcpLink;
use crate::traffic::Traffic;
use pump_frame::raised;
use pump_link::{Accepted, Door};
use std::alloc::Global;
use std::io::{self, ErrorKind};
use std::net::TcpListener;

/// How many milliseconds a call waits at most.
const WAIT: i32 = 2;

/// A TCP listener as a door. It tells how often a call failed, and nothing of who came.
///
/// A call waits two milliseconds at most for a connection, and about as long where it fails, so that a
/// caller that asks again and again leaves the processor to others.
#[derive(Drop)]
pub struct TcpDoor<'a> {
    alloc: Global,
    listener: TcpListener,
    // The traffic of the door's side.
    traffic: &'a Traffic,
    faults: u64,
}

impl<'a> TcpDoor<'a> {
    /// A door at which the listener's connections come.
    pub(crate) fn over(
        alloc: Global,
        listener: TcpListener,
        traffic: &'a Traffic,
    ) -> io::Result<TcpDoor<'a>>
        ensures { IfOk result (λ door. door.faults ≡ 0) }
    {
        // A connection that is gone before it is taken in must not keep the call.
        listener.set_nonblocking(true)?;
        Ok(TcpDoor {
            alloc,
            listener,
            traffic,
            faults: 0,
        })
    }

    fn next(&self) -> io::Result<TcpLink<'a>> {
        let (stream, _) = self.listener.accept()?;
        TcpLink::over(self.alloc, stream, self.traffic)
    }
}

impl<'a> Door for TcpDoor<'a> {
    type Link = TcpLink<'a>;

    // It tells no port and no answers, and anything may have been done.
    ghost port = { λ s number. Unit {0} };

    ghost gives = { λ s steps. ⊥ };

    ghost did = { λ s steps. Unit {0} };

    ghost faults = { λ s. s.faults };

    fn accept(&mut self) -> Accepted<TcpLink<'a>> {
        if !is_readable(&self.listener, WAIT) {
            return Accepted::NotYet;
        }
        match self.next() {
            Ok(link) => Accepted::Came(link),
            Err(error) if error.kind() == ErrorKind::WouldBlock => Accepted::NotYet,
            Err(_) => {
                pause(WAIT);
                self.faults = raised(self.faults);
                Accepted::Failed
            }
        }
    }

    // The connection is closed.
    fn back(&mut self, _link: TcpLink<'a>) {}

    fn faults(&self) -> u64 {
        self.faults
    }
}

//! The TCP ports of 127.0.0.1.

ghost use Rattle.std.specs.Prelude.{◌≡◌, ◌≤◌};
ghost use Rattle.pump_frame.specs.Counts.{raised};

use crate::readiness::pause;
use crate::tcp_door::TcpDoor;
use crate::tcp_link::TcpLink;
use crate::traffic::Traffic;
use pump_frame::raised;
use pump_link::{Ports, PortsFault};
use std::alloc::Global;
use std::io::{self, ErrorKind};
use std::net::{Ipv4Addr, Net, TcpListener, TcpStream};

/// How many milliseconds a `connect` waits first, where one was made before, so that who connects again and again
/// keeps no processor busy. A signal may end the wait.
const PAUSE: i32 = 10;

/// The TCP ports of 127.0.0.1 for one side of a relay. They tell how often a call failed, and nothing else.
///
/// What comes and goes at their doors and over their links is the traffic of that side.
#[derive(Drop)]
pub struct TcpPorts<'a, R> {
    alloc: Global,
    net: &'a R,
    traffic: &'a Traffic,
    // Whether `connect` was called before.
    has_connected: bool,
    faults: u64,
}

impl<'a, R> TcpPorts<'a, R> {
    /// Ports of which none is listened at yet.
    pub(crate) fn new(alloc: Global, net: &'a R, traffic: &'a Traffic) -> TcpPorts<'a, R> {
        TcpPorts {
            alloc,
            net,
            traffic,
            has_connected: false,
            faults: 0,
        }
    }

    /// What came and went on this side.
    pub fn traffic(&self) -> &Traffic {
        self.traffic
    }

    fn fault(&mut self) -> PortsFault
        ensures raised { self.new.faults ≡ raised self.old.faults }
        ensures later { self.old.faults ≤ self.new.faults }
    {
        self.faults = raised(self.faults);
        PortsFault
    }
}

impl<'a, R: Net<Listener = TcpListener, Stream = TcpStream>> TcpPorts<'a, R> {
    // The port may have been listened at a moment ago, by a process that was killed: std sets
    // SO_REUSEADDR.
    fn open(&self, port: u16) -> io::Result<TcpDoor<'a>> {
        let listener = TcpListener::bind(self.net, (Ipv4Addr::LOCALHOST, port))?;
        TcpDoor::over(self.alloc, listener, self.traffic)
    }

    // A connection to a port at which nobody listens may meet itself, where the system gives it that very
    // port as its own.
    fn call(&self, port: u16) -> io::Result<TcpLink<'a>> {
        let stream = TcpStream::connect(self.net, (Ipv4Addr::LOCALHOST, port))?;
        if stream.local_addr()?.port() == port {
            return Err(io::Error::from(ErrorKind::ConnectionRefused));
        }
        TcpLink::over(self.alloc, stream, self.traffic)
    }
}

impl<'a, R: Net<Listener = TcpListener, Stream = TcpStream>> Ports for TcpPorts<'a, R> {
    type Link = TcpLink<'a>;

    type Door = TcpDoor<'a>;

    // They tell no answers, and anything may have been done.
    ghost gives = { λ s steps. ⊥ };

    ghost did = { λ s steps. Unit {0} };

    ghost faults = { λ s. s.faults };

    fn listen(&mut self, port: u16) -> Result<TcpDoor<'a>, PortsFault> {
        match self.open(port) {
            Ok(door) => Ok(door),
            Err(_) => Err(self.fault()),
        }
    }

    fn connect(&mut self, port: u16) -> Result<TcpLink<'a>, PortsFault> {
        if self.has_connected {
            pause(PAUSE);
        }
        self.has_connected = true;
        match self.call(port) {
            Ok(link) => Ok(link),
            Err(_) => Err(self.fault()),
        }
    }

    // The connection is closed.
    fn back(&mut self, _link: TcpLink<'a>) {}

    // The port is free again.
    fn shut(&mut self, _door: TcpDoor<'a>) {}

    fn faults(&self) -> u64 {
        self.faults
    }
}

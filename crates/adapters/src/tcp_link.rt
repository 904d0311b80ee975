//! A TCP connection as a link.

ghost use Rattle.std.specs.Prelude.{◌≡◌, ◌≤◌, IfOk};
ghost use Rattle.pump_frame.specs.Counts.{raised, Rose};
ghost use Rattle.pump_link.specs.declared.link.Looked.{Looked as Look};

use crate::read_ahead::ReadAhead;
use crate::readiness::{is_readable, is_writable};
use crate::traffic::Traffic;
use pump_frame::raised;
use pump_link::{Link, Looked, SendFault};
use std::alloc::Global;
use std::io::{self, ErrorKind, Write};
use std::net::TcpStream;

/// How many milliseconds a look waits at most.
const LOOK: i32 = 1;

/// How many milliseconds a send waits at most while the peer takes nothing.
const SEND: i32 = 1000;

/// How often the first look after a send asks for the answer before it waits.
const AT_ONCE: u32 = 40;

/// A TCP connection as a link. It tells how often a call failed, and nothing of what is sent and
/// received.
///
/// A look at a byte that an earlier one read ahead asks nothing of the system. Any other look waits a
/// millisecond at most for bytes to come; where bytes came just now and nothing was sent since, no answer
/// is to come, and it waits only if its side is quiet. What was just sent is often answered at once: the
/// look that follows asks a few times before it waits, since to be woken takes longer. A send fails where
/// the peer takes no byte for a second.
#[derive(Drop)]
pub struct TcpLink<'a> {
    stream: TcpStream,
    ahead: ReadAhead,
    // The traffic of the link's side.
    traffic: &'a Traffic,
    // Whether the peer is to speak next.
    awaits: bool,
    // How often the next look asks before it waits.
    asks: u32,
    faults: u64,
}

/// A connection whose writes wait for room.
#[derive(Drop)]
struct Patient<'a> {
    stream: &'a TcpStream,
}

impl Write for Patient<'_> {
    fn write(&mut self, bytes: &[u8]) -> io::Result<usize> {
        let mut stream = self.stream;
        match stream.write(bytes) {
            Err(full) if full.kind() == ErrorKind::WouldBlock && is_writable(stream, SEND) => {
                stream.write(bytes)
            }
            written => written,
        }
    }

    fn flush(&mut self) -> io::Result<()> {
        Ok(())
    }
}

impl<'a> TcpLink<'a> {
    /// A link over this connection, whose bytes are sent at once and not gathered first. It takes
    /// memory for what is read ahead.
    pub(crate) fn over(
        alloc: Global,
        stream: TcpStream,
        traffic: &'a Traffic,
    ) -> io::Result<TcpLink<'a>>
        ensures { IfOk result (λ link. link.faults ≡ 0) }
    {
        let Ok(ahead) = ReadAhead::new(alloc) else {
            return Err(io::Error::from(ErrorKind::OutOfMemory));
        };
        stream.set_nodelay(true)?;
        stream.set_nonblocking(true)?;
        traffic.note();
        Ok(TcpLink {
            stream,
            ahead,
            traffic,
            awaits: true,
            asks: 0,
            faults: 0,
        })
    }

    /// A look where no byte is left of those that were read ahead.
    #[inline(never)]
    fn look_further(&mut self) -> Looked
        ensures later { self.old.faults ≤ self.new.faults }
        ensures failed { result ≡ Look.Failed → Rose self.old.faults self.new.faults }
    {
        let waits = self.awaits || self.traffic.is_quiet();
        let asks = if waits { self.asks } else { 1 };
        self.asks = 0;
        for _ in 0..asks {
            match self.look_at_once() {
                Looked::NotYet => {}
                look => return look,
            }
        }
        if waits && is_readable(&self.stream, LOOK) {
            self.look_at_once()
        } else {
            Looked::NotYet
        }
    }

    /// A look that waits for nothing.
    fn look_at_once(&mut self) -> Looked
        ensures later { self.old.faults ≤ self.new.faults }
        ensures failed { result ≡ Look.Failed → self.new.faults ≡ raised self.old.faults }
    {
        if let Some(byte) = self.ahead.next() {
            return Looked::Byte(byte);
        }
        if let Err(error) = self.ahead.fill(&mut self.stream) {
            return self.unread(&error);
        }
        self.awaits = false;
        self.asks = 0;
        self.traffic.note();
        match self.ahead.next() {
            Some(byte) => Looked::Byte(byte),
            None => {
                self.traffic.note_end();
                Looked::Ended
            }
        }
    }

    /// What a look gives where the read failed. The socket does not block, so a time-out says that the
    /// peer's host is gone, and not that nothing came yet.
    fn unread(&mut self, error: &io::Error) -> Looked
        ensures later { self.old.faults ≤ self.new.faults }
        ensures failed { result ≡ Look.Failed → self.new.faults ≡ raised self.old.faults }
    {
        match error.kind() {
            ErrorKind::WouldBlock | ErrorKind::Interrupted => Looked::NotYet,
            _ => {
                self.traffic.note_end();
                self.faults = raised(self.faults);
                Looked::Failed
            }
        }
    }
}

impl Link for TcpLink<'_> {
    // It tells no looks, and any bytes may have been sent.
    ghost gives = { λ s looks. ⊥ };

    ghost sent = { λ s bytes. Unit {0} };

    ghost faults = { λ s. s.faults };

    #[inline(always)]
    fn look(&mut self) -> Looked {
        match self.ahead.next() {
            Some(byte) => Looked::Byte(byte),
            None => self.look_further(),
        }
    }

    fn send(&mut self, bytes: &[u8]) -> Result<(), SendFault> {
        let mut patient = Patient {
            stream: &self.stream,
        };
        match patient.write_all(bytes) {
            Ok(()) => {
                self.awaits = true;
                self.asks = AT_ONCE;
                self.traffic.note();
                Ok(())
            }
            Err(_) => {
                self.traffic.note_end();
                self.faults = raised(self.faults);
                Err(SendFault)
            }
        }
    }

    fn faults(&self) -> u64 {
        self.faults
    }
}

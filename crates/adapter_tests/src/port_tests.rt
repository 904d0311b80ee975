//! TCP ports of 127.0.0.1, their doors, and connections as links.

use adapters::{TcpDoor, TcpLink, TcpPorts, Traffic, stepping_side};
use pump_link::{Accepted, Door, Link, Looked, Ports};
use std::net::{Net, TcpListener, TcpStream};
use std::process::{self, Abort};

/// A door, and its port: the first of a hundred that is free.
fn open<'a, R: Net<Listener = TcpListener, Stream = TcpStream>>(
    ports: &mut TcpPorts<'a, R>,
    process: u32,
) -> Option<(TcpDoor<'a>, u16)> {
    let first = 20_000 + (process % 100) as u16 * 100;
    for port in first..first + 100 {
        if let Ok(door) = ports.listen(port) {
            return Some((door, port));
        }
    }
    None
}

/// The next link that comes.
fn come<'a>(door: &mut TcpDoor<'a>) -> Option<TcpLink<'a>> {
    for _ in 0..1000 {
        if let Accepted::Came(link) = door.accept() {
            return Some(link);
        }
    }
    None
}

/// Whether somebody comes, whose link goes back then.
fn is_met(door: &mut TcpDoor<'_>) -> bool {
    match come(door) {
        Some(link) => {
            door.back(link);
            true
        }
        None => false,
    }
}

/// Whether the port can be listened at, which ends at once.
fn is_free<R: Net<Listener = TcpListener, Stream = TcpStream>>(
    ports: &mut TcpPorts<'_, R>,
    port: u16,
) -> bool {
    match ports.listen(port) {
        Ok(door) => {
            ports.shut(door);
            true
        }
        Err(_) => false,
    }
}

/// Whether somebody answers at the port, whose link goes back then.
fn answers<R: Net<Listener = TcpListener, Stream = TcpStream>>(
    ports: &mut TcpPorts<'_, R>,
    port: u16,
) -> bool {
    match ports.connect(port) {
        Ok(link) => {
            ports.back(link);
            true
        }
        Err(_) => false,
    }
}

/// What the next look gives that gives anything.
fn see(link: &mut TcpLink<'_>) -> Looked {
    for _ in 0..1000 {
        match link.look() {
            Looked::NotYet => {}
            look => return look,
        }
    }
    Looked::NotYet
}

#[test]
fn ports_of_this_machine(rt: HostRuntime) {
    let mut traffic = Traffic::new();
    let mut ports = stepping_side(rt.alloc(), &rt, &mut traffic).ports;
    let Some((mut door, port)) = open(&mut ports, process::id(rt.process())) else {
        panic!(rt; "no port is free");
    };
    let before = ports.faults();
    assert!(rt; !is_free(&mut ports, port));
    assert!(rt; answers(&mut ports, port));
    assert!(rt; is_met(&mut door));
    ports.shut(door);
    assert!(rt; !answers(&mut ports, port));
    // The connection that was there a moment ago does not keep the port.
    assert!(rt; is_free(&mut ports, port));
    assert!(rt; ports.faults() == before.saturating_add(2));
}

#[test]
fn a_listener_is_a_door(rt: HostRuntime) {
    let mut traffic = Traffic::new();
    let mut ports = stepping_side(rt.alloc(), &rt, &mut traffic).ports;
    let Some((mut door, port)) = open(&mut ports, process::id(rt.process())) else {
        panic!(rt; "no port is free");
    };
    assert!(rt; matches!(door.accept(), Accepted::NotYet));
    assert!(rt; answers(&mut ports, port));
    assert!(rt; is_met(&mut door));
    assert!(rt; matches!(door.accept(), Accepted::NotYet));
    assert!(rt; door.faults() == 0);
}

/// Each end says something to the other.
fn talk(rt: &impl Abort, near: &mut TcpLink<'_>, far: &mut TcpLink<'_>) {
    assert!(rt; far.look() == Looked::NotYet);
    assert!(rt; near.send(b"ab").is_ok());
    assert!(rt; far.send(b"c").is_ok());
    assert!(rt; see(far) == Looked::Byte(b'a'));
    assert!(rt; see(far) == Looked::Byte(b'b'));
    assert!(rt; see(near) == Looked::Byte(b'c'));
}

/// How many calls failed once a send did, to a peer that has gone.
fn fails_at_last(link: &mut TcpLink<'_>) -> u64 {
    for _ in 0..1000 {
        if link.send(b"d").is_err() {
            break;
        }
    }
    link.faults()
}

#[test]
fn a_connection_is_a_link(rt: HostRuntime) {
    let (mut at_low, mut at_high) = (Traffic::new(), Traffic::new());
    let mut low = stepping_side(rt.alloc(), &rt, &mut at_low).ports;
    let mut high = stepping_side(rt.alloc(), &rt, &mut at_high).ports;
    let Some((mut door, port)) = open(&mut low, process::id(rt.process())) else {
        panic!(rt; "no port is free");
    };
    let Ok(mut near) = high.connect(port) else {
        panic!(rt; "nobody listens");
    };
    // What one side does is no traffic of the other.
    assert!(rt; (low.traffic().count(), high.traffic().count()) == (0, 1));
    let Some(mut far) = come(&mut door) else {
        panic!(rt; "nobody came");
    };
    talk(&rt, &mut near, &mut far);
    high.back(near);
    assert!(rt; see(&mut far) == Looked::Ended);
    assert!(rt; far.faults() == 0);
    assert!(rt; fails_at_last(&mut far) == 1);
}

//! Tests of the outside in memory: sources, sinks, links, ports, clocks and words. Each trait's calls
//! are made through a bound, as the relay makes them.

use pump_link::{
    Accepted, Clock, Door, Link, ListWords, Looked, MemLink, MemPorts, MemSink, MemSource, Ports,
    ReadFault, SendFault, Sink, Source, StepClock, Words, WriteFault, write_all,
};
use std::alloc::{AllocError, Global};
use std::process::Abort;

fn take<S: Source>(source: &mut S) -> (Result<usize, ReadFault>, [u8; 4]) {
    let mut into = [0; 4];
    (source.read(&mut into), into)
}

#[test]
fn a_source_gives_pieces_and_faults(rt: HostRuntime) -> Result<(), AllocError> {
    let fails = Vec::from_slice(rt.alloc(), &[1])?;
    let bytes = Vec::from_slice(rt.alloc(), &[7, 8, 9])?;
    let mut source = MemSource::new(bytes, 2, fails);
    for taken in [
        (Ok(2), [7, 8, 0, 0]),
        (Err(ReadFault), [0; 4]),
        (Ok(1), [9, 0, 0, 0]),
    ] {
        assert_eq!(rt; take(&mut source), taken);
    }
    Ok(())
}

fn put<S: Sink>(sink: &mut S) -> Result<(), WriteFault> {
    write_all(sink, b"pump")
}

#[test]
fn a_sink_takes_pieces_until_it_fails(rt: HostRuntime) -> Result<(), AllocError> {
    let fails = Vec::from_slice(rt.alloc(), &[3])?;
    let room = Vec::from_slice(rt.alloc(), &[0; 8])?;
    let mut sink = MemSink::new(room, 3, fails);
    for result in [Ok(()), Err(WriteFault)] {
        assert_eq!(rt; put(&mut sink), result);
    }
    assert_eq!(rt; (sink.written(), sink.faults()), (b"pumppum".as_slice(), 1));
    Ok(())
}

fn looks_and_sends<L: Link>(rt: &impl Abort, link: &mut L) {
    for look in [
        Looked::NotYet,
        Looked::Byte(65),
        Looked::Failed,
        Looked::Ended,
    ] {
        assert_eq!(rt; link.look(), look);
    }
    for (bytes, result) in [
        (b"ab".as_slice(), Ok(())),
        (b"c", Err(SendFault)),
        (b"cd", Err(SendFault)),
    ] {
        assert_eq!(rt; link.send(bytes), result);
    }
}

// The second send fails, and the third one has no room.
#[test]
fn a_link_looks_and_sends(rt: HostRuntime) -> Result<(), AllocError> {
    let fails = Vec::from_slice(rt.alloc(), &[1])?;
    let room = Vec::from_slice(rt.alloc(), &[0; 3])?;
    let looks = [Looked::NotYet, Looked::Byte(65), Looked::Failed];
    let mut link = MemLink::new(Vec::from_slice(rt.alloc(), &looks)?, room, fails);
    looks_and_sends(&rt, &mut link);
    assert_eq!(rt; (link.sent(), link.faults()), (b"abc".as_slice(), 3));
    Ok(())
}

fn link_of(alloc: Global, byte: u8) -> Result<MemLink, AllocError> {
    let arrivals = vec![in alloc; Looked::Byte(byte)]?;
    Ok(MemLink::new(arrivals, Vec::new(alloc), Vec::new(alloc)))
}

// Takes the door's link, looks at it, and gives it back.
fn greet<D: Door>(door: &mut D) -> Looked {
    match door.accept() {
        Accepted::Came(mut link) => {
            let look = link.look();
            door.back(link);
            look
        }
        Accepted::NotYet => Looked::NotYet,
        Accepted::Failed => Looked::Failed,
    }
}

fn serve<P: Ports>(ports: &mut P, port: u16) -> Option<[Looked; 2]> {
    let mut door = ports.listen(port).ok()?;
    let looks = [greet(&mut door), greet(&mut door)];
    ports.shut(door);
    Some(looks)
}

fn call<P: Ports>(ports: &mut P, port: u16) -> Option<Looked> {
    let mut link = ports.connect(port).ok()?;
    let look = link.look();
    ports.back(link);
    Some(look)
}

fn links(alloc: Global) -> Result<Vec<MemLink>, AllocError> {
    let mut links = Vec::new(alloc);
    for byte in [1, 2] {
        links.push(link_of(alloc, byte)?)?;
    }
    Ok(links)
}

// The second call of the ports fails, and the fourth one finds no link.
#[test]
fn links_come_and_go(rt: HostRuntime) -> Result<(), AllocError> {
    let fails = Vec::from_slice(rt.alloc(), &[1])?;
    let mut ports = MemPorts::new(links(rt.alloc())?, fails);
    for looks in [Some([Looked::Byte(1), Looked::NotYet]), None] {
        assert_eq!(rt; serve(&mut ports, 9), looks);
    }
    for look in [Some(Looked::Byte(2)), None] {
        assert_eq!(rt; call(&mut ports, 9), look);
    }
    assert_eq!(rt; (ports.given_back().len(), ports.faults()), (2, 2));
    Ok(())
}

fn moments<C: Clock>(clock: &mut C) -> [u64; 3] {
    [clock.moment(), clock.moment(), clock.moment()]
}

#[test]
fn readings_rise_in_steps(rt: HostRuntime) {
    for (first, step, readings) in [
        (5, 1000, [5, 1005, 2005]),
        ((1 << 62) - 1, 3, [(1 << 62) - 1, 1 << 62, 1 << 62]),
    ] {
        let mut clock = StepClock::new(first, step);
        assert_eq!(rt; (moments(&mut clock), clock.readings()), (readings, 3));
    }
}

fn three<W: Words>(words: &mut W) -> [u32; 3] {
    [words.word(), words.word(), words.word()]
}

#[test]
fn words_in_order_then_zero(rt: HostRuntime) -> Result<(), AllocError> {
    let mut words = ListWords::new(vec![in rt.alloc(); 7, 9]?);
    assert_eq!(rt; three(&mut words), [7, 9, 0]);
    Ok(())
}

//! Readers and the machine's random bytes as sources, and a writer as a sink.

use adapters::{KeySource, ShownSource, StdSink, StdSource};
use pump_link::{Sink, Source};
use std::test::Fail;

#[test]
fn a_reader_is_a_source(rt: HostRuntime) -> Result<(), Fail> {
    let mut source = StdSource::new(b"abc".as_slice());
    let mut into = [0; 2];
    assert_eq!(rt; source.read(&mut into).ok(), Some(2));
    assert_eq!(rt; into.as_slice(), b"ab".as_slice());
    assert_eq!(rt; source.read(&mut into).ok(), Some(1));
    assert_eq!(rt; source.read(&mut into).ok(), Some(0));
    assert_eq!(rt; source.faults(), 0);
    Ok(())
}

#[test]
fn a_writer_is_a_sink(rt: HostRuntime) -> Result<(), Fail> {
    let mut sink = StdSink::new(Vec::new(rt.alloc()));
    assert_eq!(rt; sink.write(b"abc").ok(), Some(3));
    assert_eq!(rt; sink.write(b"de").ok(), Some(2));
    assert_eq!(rt; sink.last().ends_with(b"\0abcde"), true);
    assert_eq!(rt; sink.faults(), 0);
    Ok(())
}

#[test]
fn a_source_is_shown(rt: HostRuntime) -> Result<(), Fail> {
    for (is_shown, line) in [
        (
            true,
            b"\r4 bytes, 1 messages\r6 bytes, 2 messages\n".as_slice(),
        ),
        (false, b""),
    ] {
        let mut terminal = Vec::new(rt.alloc());
        let inner = StdSource::new(b"abcdef".as_slice());
        let mut source = ShownSource::new(inner, &mut terminal, is_shown);
        let mut into = [0; 4];
        assert_eq!(rt; source.read(&mut into).ok(), Some(4));
        assert_eq!(rt; source.read(&mut into).ok(), Some(2));
        source.end();
        assert_eq!(rt; terminal.as_slice(), line);
    }
    Ok(())
}

#[test]
fn keys_are_random_bytes(rt: HostRuntime) {
    let mut keys = KeySource::new(&rt);
    let mut key = [[0; 32]; 2];
    for part in &mut key {
        assert_eq!(rt; keys.read(part), Ok(32));
    }
    assert!(rt; key[0] != key[1]);
    assert_eq!(rt; keys.faults(), 0);
}

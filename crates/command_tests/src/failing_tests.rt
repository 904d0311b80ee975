//! Each read of a script, and each write of what it prints, fails in turn.

use crate::replay_tests::{CARRIED, H, P, STORE, STORED, TAKEN, WELCOME, run};
use crate::stage::joined;
use std::alloc::{AllocError, Global};
use std::test::Fail;

/// A TAKEN that comes again, and one that removes its message.
const RETURNED: &str = "return 1 160 1\nreturn 1 170 0\nlook 1 178 00000000\n";

const REMOVED: &str = "removed 1 160 0 50\nlow 1 178 ack 0\nend 1 1 1 1\n";

fn script(alloc: Global) -> Result<Vec<u8>, AllocError> {
    joined(alloc, &[P, H, STORE, CARRIED, RETURNED])
}

fn transcript(alloc: Global) -> Result<Vec<u8>, AllocError> {
    joined(alloc, &[WELCOME, STORED, TAKEN, REMOVED])
}

/// Whether a prefix of the whole was written, with a line that tells a failed read behind it.
fn tells_read(written: &[u8], whole: &[u8]) -> bool {
    match written.strip_suffix(b"fault read\n".as_slice()) {
        Some(prefix) => whole.starts_with(prefix),
        None => false,
    }
}

/// Whether the replay ends so while this read fails; `None` where there is no such read.
fn ends_at_read(alloc: Global, call: u64) -> Result<Option<bool>, Fail> {
    let (status, written) = run(alloc, script(alloc)?, 7, &[call], &[])?;
    let whole = transcript(alloc)?;
    match status {
        0 => Ok(None),
        3 => Ok(Some(tells_read(written.as_slice(), whole.as_slice()))),
        _ => Ok(Some(false)),
    }
}

/// Whether the replay ends so while this write fails; `None` where there is no such write.
fn ends_at_write(alloc: Global, call: u64) -> Result<Option<bool>, Fail> {
    let (status, written) = run(alloc, script(alloc)?, 7, &[], &[call])?;
    let whole = transcript(alloc)?;
    match status {
        0 => Ok(None),
        4 => Ok(Some(whole.starts_with(written.as_slice()))),
        _ => Ok(Some(false)),
    }
}

fn count_reads(alloc: Global) -> Result<u64, Fail> {
    for call in 0..1000 {
        match ends_at_read(alloc, call)? {
            None => return Ok(call),
            Some(true) => {}
            Some(false) => return Err(Fail::new("another end at a read")),
        }
    }
    Err(Fail::new("no run without a failed read"))
}

fn count_writes(alloc: Global) -> Result<u64, Fail> {
    for call in 0..1000 {
        match ends_at_write(alloc, call)? {
            None => return Ok(call),
            Some(true) => {}
            Some(false) => return Err(Fail::new("another end at a write")),
        }
    }
    Err(Fail::new("no run without a failed write"))
}

#[test]
fn each_read_and_write_fails_in_turn(rt: HostRuntime) -> Result<(), Fail> {
    let alloc = rt.alloc();
    let (status, written) = run(alloc, script(alloc)?, 7, &[], &[])?;
    assert_eq!(rt; status, 0);
    assert_eq!(rt; written.as_slice(), transcript(alloc)?.as_slice());
    // The script comes seven bytes at a time, and a read more finds its end.
    let pieces = script(alloc)?.len().div_ceil(7) as u64;
    assert_eq!(rt; count_reads(alloc)?, pieces + 1);
    // What a line prints is written before the next piece is read.
    assert!(rt; count_writes(alloc)? >= 7);
    Ok(())
}

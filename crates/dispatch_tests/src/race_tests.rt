//! Races, whose records are scripts and can be audited.

use crate::runs::{ROOM, lines_after, run_batch, run_live, words};
use disk_model::{MemShelf, PlainDisk};
use pump_link::{MemPorts, MemSink, MemSource};
use std::alloc::{AllocError, Global};
use std::sync::Wait;
use std::test::Fail;
use std::thread::Threads;

/// A shelf without disks and files.
fn bare_shelf(alloc: Global) -> MemShelf<PlainDisk> {
    MemShelf::new(Vec::new(alloc), Vec::new(alloc), Vec::new(alloc))
}

/// Ports without links.
fn bare_ports(alloc: Global) -> MemPorts {
    MemPorts::new(Vec::new(alloc), Vec::new(alloc))
}

/// The status and the output of a race. The writes with these numbers fail.
fn run_race<R: Threads + Wait + Sync>(
    rt: &R,
    alloc: Global,
    line: &str,
    fails: &[u64],
) -> Result<(u8, Vec<u8>), AllocError> {
    let words = words(alloc, line)?;
    let fails = Vec::from_slice(alloc, fails)?;
    let room = vec![in alloc; 0; ROOM]?;
    let ran = run_live(
        rt,
        alloc,
        &words,
        bare_shelf(alloc),
        (bare_ports(alloc), bare_ports(alloc)),
        MemSource::new(Vec::new(alloc), 1, Vec::new(alloc)),
        MemSource::new(Vec::new(alloc), 1, Vec::new(alloc)),
        MemSink::new(room, 4096, fails),
    )?;
    Ok((ran.status, ran.output))
}

/// The status and the output of a command that reads the script.
fn read_by(alloc: Global, line: &str, script: Vec<u8>) -> Result<(u8, Vec<u8>), AllocError> {
    let mut shelf = bare_shelf(alloc);
    let ended = run_batch(alloc, &mut shelf, line, script, 4096);
    drop(shelf);
    ended
}

#[test]
fn a_record_replays_to_its_comments(rt: HostRuntime) -> Result<(), Fail> {
    let alloc = rt.alloc();
    let (status, record) = run_race(&rt, alloc, "race 0 1000 50,700,20", &[])?;
    assert_eq!(rt; status, 0);
    assert!(rt;
        record
            .as_slice()
            .ends_with(b"\n# took 1000\n# end 1000 1000\n")
    );
    let comments = lines_after(alloc, record.as_slice(), b"# low ")?;
    assert!(rt; comments.as_slice().ends_with(b" ack 999\n"));
    let (status, transcript) = read_by(alloc, "replay", record)?;
    assert_eq!(rt; status, 0);
    let lines = lines_after(alloc, transcript.as_slice(), b"low ")?;
    assert!(rt; lines.as_slice() == comments.as_slice());
    Ok(())
}

#[test]
fn the_record_of_a_race_is_clean(rt: HostRuntime) -> Result<(), Fail> {
    let alloc = rt.alloc();
    let (status, record) = run_race(&rt, alloc, "race 3 500 50,700,20", &[])?;
    assert_eq!(rt; status, 0);
    let (status, said) = read_by(alloc, "audit", record)?;
    assert_eq!(rt; status, 0);
    assert!(rt; said.as_slice().starts_with(b"audit yes "));
    assert!(rt; said.as_slice().ends_with(b" 500 500\n"));
    Ok(())
}

#[test]
fn refuses_what_is_no_race(rt: HostRuntime) -> Result<(), Fail> {
    for line in ["replay", "race", "race 0 0 50", "race 0 1 50,"] {
        let (status, output) = run_race(&rt, rt.alloc(), line, &[])?;
        assert_eq!(rt; status, 2);
        assert_eq!(rt; output.as_slice(), b"fault words\n".as_slice());
    }
    let (status, output) = run_race(&rt, rt.alloc(), "race 0 3 50", &[0])?;
    assert_eq!(rt; (status, output.len()), (4, 0));
    Ok(())
}

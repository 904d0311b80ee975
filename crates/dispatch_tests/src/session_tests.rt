//! The commands over links and doors: what comes of a session, with its frames on both sides.

use crate::runs::{ROOM, Ran, joined, lines_after, push_disks, run_batch, run_live, words};
use disk_model::{MemShelf, PlainDisk};
use pump_link::{Looked, MemLink, MemPorts, MemSink, MemSource};
use std::alloc::{AllocError, Global};
use std::sync::Wait;
use std::test::Fail;
use std::thread::Threads;

const TABLE: &str =
    "[[session]]\nid = 1\nlow = \"weather\"\nhigh = \"watch\"\ncapacity = 3\nmessage = 8\nwindow = 2\n\
    start = 20000\nlongest = 100000\nresend = 500000\nlow_port = 7001\nhigh_port = 7002\n";

const HELLO: &[u8] = b"NP\x01\x01\0\0\0\x01\0\0\0\0\0\0\0\0\0\x0dweather:watch";

const WELCOME_0: &[u8] = b"NP\x01\x02\0\0\0\x01\0\0\0\0\0\0\0\0\0\0";

const DATA_0: &[u8] = b"NP\x01\x03\0\0\0\x01\0\0\0\0\0\0\0\0\0\x01a";

const DATA_1: &[u8] = b"NP\x01\x03\0\0\0\x01\0\0\0\0\0\0\0\x01\0\x01a";

const ACK_0: &[u8] = b"NP\x01\x04\0\0\0\x01\0\0\0\0\0\0\0\0\0\0";

const REFUSE_4: &[u8] = b"NP\x01\x05\0\0\0\x01\0\0\0\0\0\0\0\x01\0\x01\x04";

const ATTACH_0: &[u8] = b"NP\x01\x06\0\0\0\x01\0\0\0\0\0\0\0\0\0\0";

const TAKEN_0: &[u8] = b"NP\x01\x07\0\0\0\x01\0\0\0\0\0\0\0\0\0\0";

const OPENING: &str = "low-session 1 3 8 2 20000 100000 500000 weather watch 0 0\n";

/// A command over a socket of session 1, whose disks are formatted, and what must come of it.
#[derive(Clone, Copy)]
struct Case<'a> {
    line: &'a str,
    /// What the only link of each side brings before it ends; without frames there is no link.
    low: &'a [&'a [u8]],
    high: &'a [&'a [u8]],
    /// The calls of each side's ports that fail.
    low_fails: &'a [u64],
    high_fails: &'a [u64],
    script: &'a [u8],
    status: u8,
    output: &'a str,
    /// What is sent over the link.
    sent: &'a [&'a [u8]],
}

/// The links that bring these frames.
fn links(alloc: Global, frames: &[&[u8]]) -> Result<Vec<MemLink>, AllocError> {
    let mut links = Vec::new(alloc);
    if frames.is_empty() {
        return Ok(links);
    }
    let mut looks = Vec::new(alloc);
    for byte in joined(alloc, frames)?.iter() {
        looks.push(Looked::Byte(*byte))?;
    }
    links.push(MemLink::new(looks, vec![in alloc; 0; 256]?, Vec::new(alloc)))?;
    Ok(links)
}

/// The ports of one side.
fn ports(alloc: Global, frames: &[&[u8]], fails: &[u64]) -> Result<MemPorts, AllocError> {
    let fails = Vec::from_slice(alloc, fails)?;
    Ok(MemPorts::new(links(alloc, frames)?, fails))
}

/// A shelf with empty disks for session 1 and its table.
fn new_shelf(alloc: Global) -> Result<MemShelf<PlainDisk>, Fail> {
    let mut files = Vec::new(alloc);
    files.push((
        String::from_str(alloc, "t.toml")?,
        Vec::from_slice(alloc, TABLE.as_bytes())?,
    ))?;
    let mut disks = Vec::new(alloc);
    push_disks(alloc, 1, &mut disks)?;
    Ok(MemShelf::new(disks, files, Vec::new(alloc)))
}

/// A shelf on which the disks of session 1 are formatted.
fn formatted_shelf(alloc: Global) -> Result<MemShelf<PlainDisk>, Fail> {
    let mut shelf = match new_shelf(alloc) {
        Ok(shelf) => shelf,
        Err(fault) => return Err(fault),
    };
    match run_batch(alloc, &mut shelf, "format t.toml 1", Vec::new(alloc), 4096) {
        Ok(_) => Ok(shelf),
        Err(memory) => {
            drop(shelf);
            Err(memory.into())
        }
    }
}

/// Runs the case with so many bytes of keys.
fn run<R: Threads + Wait + Sync>(
    rt: &R,
    alloc: Global,
    case: &Case,
    keys: usize,
) -> Result<Ran, Fail> {
    let words = words(alloc, case.line)?;
    let keys = vec![in alloc; 7; keys]?;
    let script = Vec::from_slice(alloc, case.script)?;
    let room = vec![in alloc; 0; ROOM]?;
    let sides = (
        ports(alloc, case.low, case.low_fails)?,
        ports(alloc, case.high, case.high_fails)?,
    );
    let shelf = match formatted_shelf(alloc) {
        Ok(shelf) => shelf,
        Err(fault) => return Err(fault),
    };
    let ran = run_live(
        rt,
        alloc,
        &words,
        shelf,
        sides,
        MemSource::new(keys, 5, Vec::new(alloc)),
        MemSource::new(script, 2, Vec::new(alloc)),
        MemSink::new(room, 4096, Vec::new(alloc)),
    );
    Ok(ran?)
}

/// Whether the case comes to its end.
fn ends<R: Threads + Wait + Sync>(rt: &R, alloc: Global, case: &Case) -> Result<bool, Fail> {
    let ran = run(rt, alloc, case, 32)?;
    let sent = joined(alloc, case.sent)?;
    Ok(
        ran.status == case.status
            && ran.output.as_slice() == case.output.as_bytes()
            && ran.sent.as_slice() == sent.as_slice(),
    )
}

const SEND: Case<'static> = Case {
    line: "send t.toml 1 100",
    low: &[WELCOME_0, ACK_0],
    high: &[],
    low_fails: &[],
    high_fails: &[],
    script: b"61\n",
    status: 0,
    output: "ack 0\n",
    sent: &[HELLO, DATA_0],
};

const RECEIVE: Case<'static> = Case {
    line: "receive t.toml 1 100",
    low: &[],
    high: &[DATA_0],
    low_fails: &[],
    high_fails: &[],
    script: b"",
    status: 0,
    output: "took 1 0\n",
    sent: &[ATTACH_0, TAKEN_0],
};

const SERVE: Case<'static> = Case {
    line: "serve t.toml 1 5",
    low: &[],
    high: &[],
    low_fails: &[],
    high_fails: &[],
    script: b"",
    status: 0,
    output: OPENING,
    sent: &[],
};

#[test]
fn a_sender_ends_as_its_relay_lets_it(rt: HostRuntime) -> Result<(), Fail> {
    for case in [
        SEND,
        Case {
            low: &[WELCOME_0],
            status: 12,
            output: "fault unfinished 0\n",
            ..SEND
        },
        Case {
            low: &[WELCOME_0, REFUSE_4],
            status: 11,
            output: "fault refused 4 1\n",
            ..SEND
        },
        Case {
            low: &[],
            low_fails: &[0],
            status: 9,
            output: "fault link\n",
            sent: &[],
            ..SEND
        },
        Case {
            script: b"6\n",
            status: 5,
            output: "fault script 1\n",
            sent: &[HELLO],
            ..SEND
        },
        Case {
            line: "send t.toml 9 100",
            status: 6,
            output: "fault table 11 9\n",
            sent: &[],
            ..SEND
        },
    ] {
        assert!(rt; ends(&rt, rt.alloc(), &case)?);
    }
    Ok(())
}

#[test]
fn a_receiver_takes_what_is_next(rt: HostRuntime) -> Result<(), Fail> {
    for case in [
        RECEIVE,
        Case {
            high: &[DATA_1],
            status: 10,
            output: "fault ahead 1 1 0\n",
            sent: &[ATTACH_0],
            ..RECEIVE
        },
        Case {
            high: &[],
            high_fails: &[0],
            status: 9,
            output: "fault link\n",
            sent: &[],
            ..RECEIVE
        },
        Case {
            line: "receive none.toml 1 100",
            status: 3,
            output: "fault read\n",
            sent: &[],
            ..RECEIVE
        },
    ] {
        assert!(rt; ends(&rt, rt.alloc(), &case)?);
    }
    Ok(())
}

/// The status and the output of a replay of the script over new disks.
fn replayed(alloc: Global, script: Vec<u8>) -> Result<(u8, Vec<u8>), Fail> {
    let mut shelf = match new_shelf(alloc) {
        Ok(shelf) => shelf,
        Err(fault) => return Err(fault),
    };
    let ended = run_batch(alloc, &mut shelf, "replay", script, 4096);
    drop(shelf);
    Ok(ended?)
}

// The record of a served session is a script of Low's side alone.
#[test]
fn a_served_record_replays_to_its_comments(rt: HostRuntime) -> Result<(), Fail> {
    let alloc = rt.alloc();
    let case = Case {
        line: "serve t.toml 1 200",
        low: &[HELLO, DATA_0],
        ..SERVE
    };
    let ran = run(&rt, alloc, &case, 32)?;
    assert_eq!(rt; ran.status, 0);
    assert!(rt; ran.output.as_slice().starts_with(OPENING.as_bytes()));
    let sent = joined(alloc, &[WELCOME_0, ACK_0])?;
    assert!(rt; ran.sent.as_slice() == sent.as_slice());
    let comments = lines_after(alloc, ran.output.as_slice(), b"# low ")?;
    assert!(rt; comments.as_slice().ends_with(b" ack 0\n"));
    let (status, transcript) = replayed(alloc, ran.output)?;
    assert_eq!(rt; status, 0);
    let lines = lines_after(alloc, transcript.as_slice(), b"low ")?;
    assert!(rt; lines.as_slice() == comments.as_slice());
    Ok(())
}

#[test]
fn serving_makes_its_rounds(rt: HostRuntime) -> Result<(), Fail> {
    let alloc = rt.alloc();
    let ran = run(&rt, alloc, &SERVE, 32)?;
    assert_eq!(rt; (ran.status, ran.readings), (0, (5, 5)));
    assert_eq!(rt; ran.output.as_slice(), OPENING.as_bytes());
    let ran = run(&rt, alloc, &SERVE, 31)?;
    assert_eq!(rt; (ran.status, ran.readings), (3, (0, 0)));
    assert_eq!(rt; ran.output.as_slice(), b"fault read\n".as_slice());
    for case in [
        Case {
            low_fails: &[0],
            ..SERVE
        },
        Case {
            high_fails: &[0],
            ..SERVE
        },
    ] {
        let ran = run(&rt, alloc, &case, 32)?;
        assert_eq!(rt; ran.status, 9);
        assert_eq!(rt; ran.output.as_slice(), b"fault link\n".as_slice());
    }
    Ok(())
}

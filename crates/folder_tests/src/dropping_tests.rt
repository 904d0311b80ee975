//! Tests of droppers over folders in memory: what comes of their messages, also where a connection ends.

ghost use Rattle.std.specs.Prelude.{◌≡◌, ◌≤◌, OnOk};
ghost use Rattle.file_dropper.specs.Works.{MayAsk};

use file_dropper::{Dropper, Next, Settled};
use file_messages::{Assembly, FileName, Step};
use folders::{MemFile, MemOutbox, Outbox};
use pump_frame::{Name, Payload, SessionRow};
use pump_link::MemSource;
use std::alloc::{AllocError, Global};
use std::process::Abort;

fn row(rt: &impl Abort) -> SessionRow
    ensures { result.message ≡ 138 }
{
    SessionRow {
        id: 1,
        low: Name::from_slice(b"weather").expect(rt, "a name"),
        high: Name::from_slice(b"watch").expect(rt, "a name"),
        capacity: 3,
        message: 138,
        window: 2,
        start: 20000,
        longest: 100_000,
        resend: 500_000,
        low_port: 4001,
        high_port: 4002,
        coarse: false,
    }
}

// What came of messages: how many files were whole, how many were dropped, and how many messages there were.
#[derive(Clone, Copy, PartialEq, Eq, Debug)]
struct Tally {
    whole: u32,
    dropped: u32,
    messages: u32,
}

fn count(tally: &mut Tally, step: Step) {
    tally.messages = tally.messages.saturating_add(1);
    match step {
        Step::Whole => tally.whole = tally.whole.saturating_add(1),
        Step::Dropped(_) => tally.dropped = tally.dropped.saturating_add(1),
        Step::Started | Step::Grown | Step::Odd => {}
    }
}

// Gives so many messages at most to an assembly, and acknowledges each. Answers how often a file was given up.
fn pass<O: Outbox>(
    dropper: &mut Dropper<O, O::File>,
    most: u32,
    assembly: &mut Assembly,
    tally: &mut Tally,
) -> Option<u32>
    requires { MayAsk O.told dropper.old }
{
    let mut message = Payload::default();
    let mut again: u32 = 0;
    for _ in 0..most {
        let number = match dropper.next(&mut message) {
            Ok(Next::Message { number }) => number,
            Ok(
                Next::Again {
                    number,
                    start: _,
                    name: _,
                },
            ) => {
                again = again.saturating_add(1);
                number
            }
            Ok(Next::Idle) => return Some(again),
            Err(_) => return None,
        };
        count(tally, assembly.step(message.as_slice()));
        match dropper.acknowledged(number) {
            Ok(_) => {}
            Err(_) => return None,
        }
    }
    Some(again)
}

fn file(
    rt: &impl Abort,
    alloc: Global,
    name: &[u8],
    contents: &[&[u8]],
) -> Result<MemFile, AllocError> {
    let mut all = Vec::new(alloc);
    for bytes in contents {
        all.push(Vec::from_slice(alloc, bytes)?)?;
    }
    Ok(MemFile::new(FileName::parse(name).expect(rt, "a name"), all))
}

const LONG: &[u8] = &[7; 500];

const OTHER: &[u8] = &[8; 500];

// Three files, of which the first is empty, and the last one changes while it is sent first.
fn outbox(rt: &impl Abort, alloc: Global, fails: &[u64]) -> Result<MemOutbox, AllocError> {
    let mut files = Vec::new(alloc);
    files.push(file(rt, alloc, b"empty", &[])?)?;
    files.push(file(rt, alloc, b"a.txt", &[b"hello, world"])?)?;
    files.push(file(rt, alloc, b"long", &[LONG, OTHER, LONG])?)?;
    Ok(MemOutbox::new(files, 100, Vec::from_slice(alloc, fails)?))
}

#[test]
fn files_come_whole(rt: HostRuntime) -> Result<(), AllocError> {
    let mut dropper = Dropper::open(outbox(&rt, rt.alloc(), &[])?, &row(&rt));
    let mut assembly = Assembly::new();
    let mut tally = Tally {
        whole: 0,
        dropped: 0,
        messages: 0,
    };
    assert!(rt; matches!(&dropper.settle(0), Ok(Settled::Ready)));
    assert_eq!(rt; pass(&mut dropper, 100, &mut assembly, &mut tally), Some(1));
    // The first message gives up what may have begun. The last file is begun, cut in four, given up, and sent again.
    assert_eq!(rt;
        tally,
        Tally {
            whole: 3,
            dropped: 1,
            messages: 1 + 2 + 3 + 6 + 6
        }
    );
    Ok(())
}

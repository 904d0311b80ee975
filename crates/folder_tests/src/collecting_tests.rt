//! Tests of collectors over folders in memory: what is shown in the end, where a call failed and a crash came
//! behind it.

ghost use Rattle.std.specs.Prelude.{◌≤◌, length, IfSome};
ghost use Rattle.disk_model.specs.Mem.{mem_meaning};
ghost use Rattle.folders.specs.MemInbox.{mem_placing};
ghost use Rattle.file_collector.specs.Collecting.{IsCollecting};

use crate::message_tests::{EMPTY_END, EMPTY_START, END, PIECE, START};
use disk_model::{Disk, MemDisk, Outcome};
use file_collector::Collector;
use folders::{Inbox, MemInbox};
use pump_frame::Payload;
use std::alloc::Global;
use std::test::Fail;

// Three files, of which two have one name.
const MESSAGES: [&[u8]; 8] = [START, PIECE, END, EMPTY_START, EMPTY_END, START, PIECE, END];

// How they are shown: the third one's name has the number of its last message.
const FILES: [(&str, &[u8]); 3] = [
    ("a.txt", b"hello, world"),
    ("e", b""),
    ("a.txt~7", b"hello, world"),
];

// The calls of the folder that ask whether a name is free. Where such a call fails the part is let go, and
// this folder has none then, where a folder of the machine has the file still.
const ASKING: [u64; 4] = [2, 5, 8, 9];

// Whose call fails.
#[derive(Clone, Copy, PartialEq, Eq)]
enum Part {
    Folder,
    Register,
    FirstPart,
}

// What a run came to.
#[derive(Clone, Copy, PartialEq, Eq, Debug)]
enum End {
    // A call failed while the folder was opened first.
    Closed,
    // The files are shown, each once and in order.
    Right,
    Wrong,
}

fn disk(alloc: Global, fails: Option<u64>) -> Result<MemDisk, Fail> {
    Ok(MemDisk::new(alloc, 256, 100, Vec::from_slice(alloc, fails.as_slice())?)?)
}

// A folder, in which the part's call of this number fails.
fn inbox(alloc: Global, failing: Part, number: u64) -> Result<MemInbox<MemDisk>, Fail> {
    let fails = |part: Part| if part == failing { Some(number) } else { None };
    let mut stock = Vec::new(alloc);
    for _ in 0..9 {
        stock.push(disk(alloc, None)?)?;
    }
    stock.push(disk(alloc, fails(Part::FirstPart))?)?;
    let register = disk(alloc, fails(Part::Register))?;
    let of_folder = Vec::from_slice(alloc, fails(Part::Folder).as_slice())?;
    Ok(MemInbox::new(register, stock, Vec::new(alloc), of_folder))
}

// Takes the messages that are not counted yet, and says whether no call failed.
fn take<I: Inbox>(collector: &mut Collector<I>) -> bool
where
    I::Disk: Drop,
    requires { IsCollecting I.told I.Disk.told collector.old }
{
    for _ in 0..MESSAGES.len() {
        let Some(message) = MESSAGES.get(collector.taken() as usize) else {
            return true;
        };
        let Some(message) = Payload::from_slice(message) else {
            return false;
        };
        if collector.place(&message).is_err() || collector.count().is_err() {
            return false;
        }
    }
    true
}

// A crash, after which the folder is opened again.
fn reopened(
    collector: Collector<MemInbox<MemDisk>>,
    kept: bool,
    outcome: Outcome,
) -> Option<Collector<MemInbox<MemDisk>>>
    ensures { IfSome result (IsCollecting (mem_placing mem_meaning) mem_meaning) }
{
    let (mut inbox, mut register, mut part) = collector.into_parts();
    register.crash(outcome);
    if let Some(part) = &mut part {
        part.crash(outcome);
    }
    inbox.crash(kept);
    inbox.put_back(register, part);
    Collector::open(inbox).ok()
}

// Whether the file at this place is shown under this name with these bytes.
fn is_shown<D: Disk + Drop>(inbox: &mut MemInbox<D>, place: usize, name: &str, bytes: &[u8]) -> bool
    requires { length bytes.now ≤ 12 }
{
    if inbox.shown_name(place) != Some(name) {
        return false;
    }
    let Some(disk) = inbox.shown_disk(place) else {
        return false;
    };
    let mut room = [0; 12];
    let room = &mut room[..bytes.len()];
    disk.size() == Ok(bytes.len() as u64) && disk.read(0, room) == Ok(()) && &*room == bytes
}

// Whether these are the files that are shown.
fn are_shown<D: Disk + Drop>(inbox: &mut MemInbox<D>) -> bool {
    for (place, (name, bytes)) in FILES.iter().enumerate() {
        if !is_shown(inbox, place, name, bytes) {
            return false;
        }
    }
    inbox.shown_count() == FILES.len()
}

// Takes the messages, and says whether the files are shown then; or gives the collector back where a call
// failed.
fn shows_all(
    mut collector: Collector<MemInbox<MemDisk>>,
) -> Result<bool, Collector<MemInbox<MemDisk>>>
    requires { IsCollecting (mem_placing mem_meaning) mem_meaning collector }
{
    if !take(&mut collector) {
        return Err(collector);
    }
    let (mut inbox, _, _) = collector.into_parts();
    Ok(are_shown(&mut inbox))
}

fn end_of(inbox: MemInbox<MemDisk>, kept: bool, outcome: Outcome) -> End {
    let collector = match Collector::open(inbox) {
        Ok(collector) => collector,
        Err(_) => return End::Closed,
    };
    let shows = match shows_all(collector) {
        Ok(shows) => shows,
        Err(collector) => shows_again(collector, kept, outcome),
    };
    if shows { End::Right } else { End::Wrong }
}

// Takes the messages after a crash, and says whether the files are shown then.
fn shows_again(collector: Collector<MemInbox<MemDisk>>, kept: bool, outcome: Outcome) -> bool {
    let Some(again) = reopened(collector, kept, outcome) else {
        return false;
    };
    match shows_all(again) {
        Ok(shows) => shows,
        Err(collector) => {
            let (_, _, _) = collector.into_parts();
            false
        }
    }
}

// How many of the calls failed while the folder was opened; or the first run that comes to a wrong end.
fn closed(
    alloc: Global,
    failing: Part,
    calls: u64,
) -> Result<Result<u32, (u64, bool, Outcome)>, Fail> {
    let mut closed: u32 = 0;
    for number in 0..calls {
        if failing == Part::Folder && ASKING.contains(&number) {
            continue;
        }
        for (kept, outcome) in [
            (false, Outcome::Old),
            (false, Outcome::New),
            (true, Outcome::New),
            (true, Outcome::Fill(42)),
        ] {
            match end_of(inbox(alloc, failing, number)?, kept, outcome) {
                End::Closed => closed = closed.saturating_add(1),
                End::Right => {}
                End::Wrong => return Ok(Err((number, kept, outcome))),
            }
        }
    }
    Ok(Ok(closed))
}

#[test]
fn a_call_that_fails_costs_no_file(rt: HostRuntime) -> Result<(), Fail> {
    for (failing, calls, found) in [
        (Part::Folder, 20, 4),
        (Part::Register, 70, 48),
        (Part::FirstPart, 4, 0),
    ] {
        assert_eq!(rt; closed(rt.alloc(), failing, calls)?, Ok(found));
    }
    Ok(())
}

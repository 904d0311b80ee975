// The low worker: what it makes of a connection, and of the links of a door, and its record.
ghost use Rattle.std.specs.Prelude.{◌≡◌, false};
ghost use Rattle.passage.specs.Plain.{StandsFor as EndsStandFor};
ghost use Rattle.low_process.specs.Ready.{Ready};
ghost use Rattle.low_process.specs.Looks.{last_of, is_down};

use crate::low_bench::{LowBench, low_bench};
use crate::pieces::{Few, bytes, link};
use disk_model::{Disk, MemDisk, PlainDisk};
use fixtures::row;
use pump_link::{Clock, ListWords, MemLink, MemPorts, MemSink, Ports, Sink, StepClock};
use relay_threads::{
    LowServed, LowWhy, RoundsEnd, Unwatched, low_rounds, serve_low, write_opening,
};
use std::alloc::Global;
use std::sync::Wait;
use std::test::Fail;

const HELLO: &str = "4e500101000000010000000000000000000d776561746865723a7761746368";

/// HELLO, then DATA 0, `a`.
const SENDS: &str =
    "4e500101000000010000000000000000000d776561746865723a77617463684e500103000000010000000000000000000161";

const WELCOME: &str = "4e5001020000000100000000000000000000";

/// WELCOME 0, then ACK 0.
const SERVED: &str = "4e50010200000001000000000000000000004e5001040000000100000000000000000000";

/// REFUSE with the code 2.
const REFUSE: &str = "4e500105000000010000000000000000000102";

/// A clock that reads 10, 110 and so on, words that are 1, 2 and so on, and a tape.
struct Desk {
    clock: StepClock,
    words: ListWords,
    tape: MemSink,
}

// By hand, so that the end of a desk is one call wherever it stands.
impl Drop for Desk {
    fn drop(self) {
        let Desk { clock, words, tape } = self;
        drop(clock);
        drop(words);
        drop(tape);
    }
}

impl Desk {
    // With this room on the tape.
    fn new(alloc: Global, room: usize) -> Result<Desk, Fail> {
        let words = vec![in alloc; 1, 2, 3, 4, 5, 6, 7, 8]?;
        let tape = vec![in alloc; 0; room]?;
        Ok(Desk {
            clock: StepClock::new(10, 100),
            words: ListWords::new(words),
            tape: MemSink::new(tape, 7, Vec::new(alloc)),
        })
    }
}

// Serves a connection with a process of its own. Answers with what is stored, too.
fn serve<D: Disk + Drop, R: Wait>(
    rt: &R,
    mut bench: LowBench<D>,
    desk: &mut Desk,
    link: &mut MemLink,
    gate: &mut Few,
    looks: u64,
) -> (LowServed, u64)
    requires ready { Ready D.told bench.process bench.store (EndsStandFor bench.ends.0) }
    requires up { is_down bench.process ≡ false }
    requires last { last_of bench.process ≡ 0 }
{
    let served = serve_low(
        rt,
        link,
        &mut desk.clock,
        &mut desk.words,
        &mut bench.process,
        &mut bench.store,
        &mut bench.ends,
        &mut desk.tape,
        gate,
        looks,
    );
    (served, bench.store.accepted())
}

/// What comes on a link, and what becomes of it.
#[derive(Clone, Copy)]
struct Case {
    coming: &'static str,
    is_failing: bool,
    looks: u64,
    // How many rounds the gate lets pass.
    passes: u64,
    why: LowWhy,
    rounds: u64,
    sent: &'static str,
    stored: u64,
    record: &'static str,
}

// A message is stored, passed on and acknowledged.
const CASE: Case = Case {
    coming: SENDS,
    is_failing: false,
    looks: 10,
    passes: 10,
    why: LowWhy::Gone,
    rounds: 5,
    sent: SERVED,
    stored: 1,
    record: "told 1 10 00000001 fine - raw 4e500101000000010000000000000000000d776561746865723a7761746368\n\
             # low 1 10 welcome 0\n\
             told 1 110 00000002 fine - raw 4e500103000000010000000000000000000161\n\
             told 1 210 00000003 fine 0/20000\n\
             told 1 310 00000004 fine -\n\
             # low 1 310 ack 0\n\
             gone 1 410\n",
};

// Whether a connection goes as the case says.
fn is_served_so<R: Wait>(rt: &R, alloc: Global, case: Case) -> Result<bool, Fail> {
    let sent = bytes(alloc, case.sent)?;
    let coming = bytes(alloc, case.coming)?;
    let mut link = link(alloc, 0, coming.as_slice(), case.is_failing)?;
    let mut desk = Desk::new(alloc, 1000)?;
    let bench = low_bench(alloc, PlainDisk::new(alloc, 110)?)?;
    let mut gate = Few {
        looks: case.passes,
        stops: 0,
    };
    let (served, stored) = serve(rt, bench, &mut desk, &mut link, &mut gate, case.looks);
    let wanted = LowServed {
        why: case.why,
        looks: case.rounds,
    };
    Ok(
        (served, stored, desk.clock.readings()) == (wanted, case.stored, case.rounds)
            && link.sent() == sent.as_slice()
            && desk.tape.written() == case.record.as_bytes(),
    )
}

#[test]
fn connections_are_served(rt: HostRuntime) -> Result<(), Fail> {
    let alloc = rt.alloc();
    for (number, case) in [
        CASE,
        Case {
            // the first send fails
            is_failing: true,
            why: LowWhy::LinkFailed,
            rounds: 1,
            sent: "",
            stored: 0,
            record: "told 1 10 00000001 fine - raw 4e500101000000010000000000000000000d776561746865723a7761746368\n\
                     # low 1 10 welcome 0\n",
            ..CASE
        },
        Case {
            // half a header, then the end
            coming: "4e500101000000",
            rounds: 1,
            sent: "",
            stored: 0,
            record: "gone 1 10\n",
            ..CASE
        },
        Case {
            // an ACK before the HELLO
            coming: "4e50010400000001000000000000000000004e500101000000010000000000000000000d776561746865723a7761746\
            368",
            rounds: 3,
            sent: "4e5001050000000100000000000000000001024e5001020000000100000000000000000000",
            stored: 0,
            record: "told 1 10 00000001 fine - raw 4e5001040000000100000000000000000000\n\
                     # low 1 10 refuse 2 0\n\
                     told 1 110 00000002 fine - raw 4e500101000000010000000000000000000d776561746865723a7761746368\n\
                     # low 1 110 welcome 0\n\
                     gone 1 210\n",
            ..CASE
        },
        Case {
            // a DATA of session 2
            coming: "4e500101000000010000000000000000000d776561746865723a77617463684e5001030000000200000000000000000\
            00161",
            rounds: 3,
            sent: "4e50010200000001000000000000000000004e500105000000010000000000000000000102",
            stored: 0,
            record: "told 1 10 00000001 fine - raw 4e500101000000010000000000000000000d776561746865723a7761746368\n\
                     # low 1 10 welcome 0\n\
                     told 1 110 00000002 fine - raw 4e500103000000020000000000000000000161\n\
                     # low 1 110 refuse 2 0\n\
                     gone 1 210\n",
            ..CASE
        },
        Case {
            // bad bytes
            coming: "4e51",
            why: LowWhy::Bad,
            rounds: 1,
            sent: REFUSE,
            stored: 0,
            record: "told 1 10 00000001 fine - raw 00\n# low 1 10 refuse 2 0\n",
            ..CASE
        },
        Case {
            // as many rounds as were given
            looks: 1,
            why: LowWhy::Looks,
            rounds: 1,
            sent: WELCOME,
            stored: 0,
            record: "told 1 10 00000001 fine - raw 4e500101000000010000000000000000000d776561746865723a7761746368\n\
                     # low 1 10 welcome 0\n",
            ..CASE
        },
        Case {
            // as many rounds as the gate lets pass
            passes: 1,
            why: LowWhy::Stopped,
            rounds: 1,
            sent: WELCOME,
            stored: 0,
            record: "told 1 10 00000001 fine - raw 4e500101000000010000000000000000000d776561746865723a7761746368\n\
                     # low 1 10 welcome 0\n",
            ..CASE
        },
    ]
    .into_iter()
    .enumerate()
    {
        assert!(rt; is_served_so(&rt, alloc, case)?, "case {number}");
    }
    Ok(())
}

// A link with the HELLO, and then so many times DATA 0.
fn repeats(alloc: Global, count: u32) -> Result<MemLink, Fail> {
    let mut coming = bytes(alloc, HELLO)?;
    let data = bytes(alloc, "4e500103000000010000000000000000000161")?;
    for _ in 0..count {
        coming.extend_from_slice(data.as_slice())?;
    }
    link(alloc, 0, coming.as_slice(), false)
}

#[test]
fn a_message_that_comes_often_is_stored_once(rt: HostRuntime) -> Result<(), Fail> {
    let alloc = rt.alloc();
    let mut link = repeats(alloc, 1000)?;
    let mut desk = Desk::new(alloc, 400_000)?;
    let bench = low_bench(alloc, PlainDisk::new(alloc, 110)?)?;
    let mut gate = Few {
        looks: 5000,
        stops: 0,
    };
    let (served, stored) = serve(&rt, bench, &mut desk, &mut link, &mut gate, 5000);
    // The HELLO, the message in three rounds, each repeat in two, and the end.
    let wanted = LowServed {
        why: LowWhy::Gone,
        looks: 2003,
    };
    assert_eq!(rt; (served, stored), (wanted, 1));
    // A WELCOME, and an ACK for each.
    assert_eq!(rt; link.sent().len(), 18 * 1001);
    Ok(())
}

/// What comes on the link of a door, and what becomes of the worker.
#[derive(Clone, Copy)]
struct DoorCase {
    coming: &'static str,
    // The call of the low disk that fails, and the room on the tape.
    failing: u64,
    room: usize,
    end: RoundsEnd,
    readings: u64,
    sent: &'static str,
    record: &'static str,
}

const DOOR_CASE: DoorCase = DoorCase {
    coming: SENDS,
    failing: 1000,
    room: 1000,
    end: RoundsEnd::Rounds,
    readings: 7,
    sent: SERVED,
    record: "told 1 110 00000001 fine - raw 4e500101000000010000000000000000000d776561746865723a7761746368\n\
             # low 1 110 welcome 0\n\
             told 1 210 00000002 fine - raw 4e500103000000010000000000000000000161\n\
             told 1 310 00000003 fine 0/20000\n\
             told 1 410 00000004 fine -\n\
             # low 1 410 ack 0\n\
             gone 1 510\n",
};

// Serves the links of the low port, for seven rounds. None where it can't be listened at.
fn keep<D: Disk + Drop, P: Ports, R: Wait>(
    rt: &R,
    mut bench: LowBench<D>,
    desk: &mut Desk,
    ports: &mut P,
) -> Option<RoundsEnd>
    requires ready { Ready D.told bench.process bench.store (EndsStandFor bench.ends.0) }
    requires up { is_down bench.process ≡ false }
    requires last { last_of bench.process ≡ 0 }
{
    let Ok(mut door) = ports.listen(7001) else {
        return None;
    };
    let end = low_rounds(
        rt,
        &mut door,
        &mut desk.clock,
        &mut desk.words,
        &mut bench.process,
        &mut bench.store,
        &mut bench.ends,
        &mut desk.tape,
        &Unwatched,
        7,
    );
    ports.shut(door);
    Some(end)
}

// Whether a worker goes as the case says.
fn is_kept_so<R: Wait>(rt: &R, alloc: Global, case: DoorCase) -> Result<bool, Fail> {
    let sent = bytes(alloc, case.sent)?;
    let coming = bytes(alloc, case.coming)?;
    let links = vec![in alloc; link(alloc, 0, coming.as_slice(), false)?]?;
    let mut desk = Desk::new(alloc, case.room)?;
    let disk = MemDisk::new(alloc, 110, 40, vec![in alloc; case.failing]?)?;
    let bench = low_bench(alloc, disk)?;
    let mut ports = MemPorts::new(links, Vec::new(alloc));
    let end = keep(rt, bench, &mut desk, &mut ports);
    let has_sent = match ports.given_back().first() {
        Some(back) => back.sent() == sent.as_slice(),
        None => false,
    };
    Ok(
        (end, desk.clock.readings()) == (Some(case.end), case.readings)
            && has_sent
            && desk.tape.written() == case.record.as_bytes(),
    )
}

// The look with Gone after bad bytes reads the clock once more. A new disk takes three calls and its
// opening two, so the second call of a store has number 6.
#[test]
fn links_of_a_door_are_served(rt: HostRuntime) -> Result<(), Fail> {
    let alloc = rt.alloc();
    for (number, case) in [
        DOOR_CASE,
        DoorCase {
            coming: "4e51",
            readings: 8,
            sent: REFUSE,
            record: "told 1 110 00000001 fine - raw 00\n# low 1 110 refuse 2 0\ngone 1 210\n",
            ..DOOR_CASE
        },
        DoorCase {
            room: 3,
            end: RoundsEnd::RecordFailed,
            readings: 2,
            sent: WELCOME,
            record: "tol",
            ..DOOR_CASE
        },
        DoorCase {
            failing: 6,
            end: RoundsEnd::Device { faults: 1 },
            readings: 3,
            sent: "4e50010200000001000000000000000000004e500105000000010000000000000000000105",
            record: "told 1 110 00000001 fine - raw 4e500101000000010000000000000000000d776561746865723a7761746368\n\
                     # low 1 110 welcome 0\n\
                     told 1 210 00000002 fault - raw 4e500103000000010000000000000000000161\n\
                     # low 1 210 refuse 5 0\n",
            ..DOOR_CASE
        },
    ]
    .into_iter()
    .enumerate()
    {
        assert!(rt; is_kept_so(&rt, alloc, case)?, "case {number}");
    }
    Ok(())
}

#[test]
fn a_record_is_opened(rt: HostRuntime) -> Result<(), Fail> {
    let alloc = rt.alloc();
    let Some(row) = row(8) else {
        return Err(Fail::new("no row"));
    };
    let text = b"low-session 1 3 8 2 20000 100000 500000 weather watch 3 1\n";
    let mut tape = MemSink::new(vec![in alloc; 0; 100]?, 7, Vec::new(alloc));
    assert!(rt; write_opening(&mut tape, &row, 3, true).is_ok());
    assert_eq!(rt; tape.written(), text.as_slice());
    let mut full = MemSink::new(vec![in alloc; 0; 5]?, 7, Vec::new(alloc));
    assert!(rt; write_opening(&mut full, &row, 3, true).is_err());
    assert_eq!(rt; (full.written(), full.faults()), (b"low-s".as_slice(), 1));
    Ok(())
}

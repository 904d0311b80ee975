//! Lines of a transcript with numbers that no session of the program comes to, and a script of which a
//! read fails. The other lines are in `tests/lines-*.t`.

use arrayvec::ArrayVec;
use disk_model::Role;
use pump_frame::Payload;
use pump_link::MemSource;
use script_reader::{
    Act, Body, Event, EventHead, Fault, LineHead, LinedHead, Lines, append_head, print_event,
    print_fault, print_head,
};
use std::alloc::AllocError;

fn prints(fault: Fault, line: &[u8]) -> bool {
    let mut room = ArrayVec::new();
    print_fault(&fault, &mut room);
    room.as_slice() == line
}

#[test]
fn a_fault_with_the_greatest_numbers_has_its_line(rt: HostRuntime) {
    let greatest = Fault::Disk {
        session: 4294967295,
        role: Role::Recv,
        number: 4294967295,
        first: 18446744073709551615,
        second: 18446744073709551615,
    };
    assert!(rt;
        prints(
            greatest,
            b"fault disk 4294967295 recv 4294967295 18446744073709551615 18446744073709551615\n"
        )
    );
}

// Whether the event is printed so.
fn tells_event(event: &Event, line: &[u8]) -> bool {
    let mut whole = ArrayVec::new();
    print_event(event, &mut whole);
    whole.as_slice() == line
}

// Whether the event is printed so by its head, by the event itself, and behind what a small room holds.
fn tells(event: &EventHead, line: &[u8]) -> bool {
    let mut head = ArrayVec::new();
    print_head(event, &mut head);
    let mut small: ArrayVec<u8, 256> = ArrayVec::new();
    append_head(event, &mut small);
    head.as_slice() == line && small.as_slice() == line && tells_event(&event.event(), line)
}

#[test]
fn disks_with_the_greatest_numbers_have_their_lines(rt: HostRuntime) {
    let (session, number) = (4294967295, 281474976710655);
    let mut payload = Payload::default();
    payload.set(b"a\xff");
    for (event, line) in [
        (
            Event::Show {
                session,
                accepted: 281474976710656,
                removed: 1,
                received: 2,
            },
            b"show 4294967295 281474976710656 1 2\n".as_slice(),
        ),
        (
            Event::Live {
                session,
                number,
                payload,
            },
            b"live 4294967295 281474976710655 61ff\n",
        ),
    ] {
        assert!(rt; tells_event(&event, line));
    }
}

#[test]
fn openings_with_the_greatest_numbers_have_their_lines(rt: HostRuntime) {
    let (session, moment) = (4294967295, 20);
    let attach = EventHead::Attach {
        session,
        moment,
        count: 281474976710656,
    };
    let restart = EventHead::Restart {
        session,
        moment,
        accepted: 281474976710656,
        removed: 281474976710655,
        held: true,
    };
    assert!(rt; tells(&attach, b"attach 4294967295 20 281474976710656\n"));
    assert!(rt;
        tells(
            &restart,
            b"restart 4294967295 20 281474976710656 281474976710655 1\n"
        )
    );
}

// The next line that is a `high` line's moment, 0 for a skipped line, 1 for a failed read, and 2 else.
fn next_of(lines: &mut Lines, source: &mut MemSource, body: &mut Body) -> u64 {
    match lines.next_head(source, body) {
        LinedHead::Line(
            LineHead::At {
                moment,
                act: Act::High,
                ..
            },
        ) => moment,
        LinedHead::Line(LineHead::Skip) => 0,
        LinedHead::Failed => 1,
        _ => 2,
    }
}

// The second read fails, and no read is made before it is needed.
#[test]
fn reading_goes_on_after_a_failure(rt: HostRuntime) -> Result<(), AllocError> {
    let alloc = rt.alloc();
    let mut script = Vec::new(alloc);
    script.extend_from_slice(b"#\nhigh 1 50\nhigh 1 60\n")?;
    let mut source = MemSource::new(script, 4, vec![in alloc; 1]?);
    let mut lines = Lines::new();
    let mut body = Body::new();
    let mut given = [9; 5];
    for i in 0..5 {
        given[i] = next_of(&mut lines, &mut source, &mut body);
    }
    assert_eq!(rt; given, [0, 1, 50, 60, 2]);
    assert_eq!(rt; lines.number(), 3);
    Ok(())
}

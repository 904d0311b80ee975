// The two parties at the ports: what a sender and a receiver make of the frames that come. Their other ends
// are in `dispatch_tests`.
ghost use Rattle.std.specs.Prelude.{◌≡◌, ◌≤◌, [], IfSome};
ghost use Rattle.pump_frame.specs.Rows.{IsLawfulRow};
ghost use Rattle.high_receiver.specs.Receiving.{IsRecvReady, recv_row};

use crate::pieces::link;
use disk_model::{Disk, PlainDisk, Role};
use fixtures::row;
use high_receiver::Receiver;
use peers::{AppendEnd, Appended, ReceiveEnd, SendEnd, append_with, receive_with, send_with};
use pump_frame::SessionRow;
use pump_link::{MemLink, MemPorts, MemSink, MemSource};
use stable_buffer::{Register, format};
use std::alloc::Global;
use std::test::Fail;

const HELLO: &[u8] = b"NP\x01\x01\0\0\0\x01\0\0\0\0\0\0\0\0\0\x0dweather:watch";

const WELCOME_0: &[u8] = b"NP\x01\x02\0\0\0\x01\0\0\0\0\0\0\0\0\0\0";

const WELCOME_1: &[u8] = b"NP\x01\x02\0\0\0\x01\0\0\0\0\0\0\0\x01\0\0";

const DATA_0: &[u8] = b"NP\x01\x03\0\0\0\x01\0\0\0\0\0\0\0\0\0\x01a";

const DATA_1: &[u8] = b"NP\x01\x03\0\0\0\x01\0\0\0\0\0\0\0\x01\0\x01a";

const EMPTY_1: &[u8] = b"NP\x01\x03\0\0\0\x01\0\0\0\0\0\0\0\x01\0\0";

const LONG_0: &[u8] = b"NP\x01\x03\0\0\0\x01\0\0\0\0\0\0\0\0\0\x09123456789";

const OTHER_DATA_0: &[u8] = b"NP\x01\x03\0\0\0\x02\0\0\0\0\0\0\0\0\0\x01a";

const ACK_0: &[u8] = b"NP\x01\x04\0\0\0\x01\0\0\0\0\0\0\0\0\0\0";

const ACK_1: &[u8] = b"NP\x01\x04\0\0\0\x01\0\0\0\0\0\0\0\x01\0\0";

const OTHER_ACK_0: &[u8] = b"NP\x01\x04\0\0\0\x02\0\0\0\0\0\0\0\0\0\0";

const ATTACH_0: &[u8] = b"NP\x01\x06\0\0\0\x01\0\0\0\0\0\0\0\0\0\0";

const TAKEN_0: &[u8] = b"NP\x01\x07\0\0\0\x01\0\0\0\0\0\0\0\0\0\0";

fn joined(alloc: Global, parts: &[&[u8]]) -> Result<Vec<u8>, Fail> {
    let mut bytes = Vec::new(alloc);
    for part in parts {
        bytes.extend_from_slice(part)?;
    }
    Ok(bytes)
}

// What a sender is given, and what must come of it.
#[derive(Clone, Copy)]
struct SendRow<'a> {
    script: &'a [u8],
    frames: &'a [&'a [u8]],
    looks: u32,
    end: SendEnd,
    printed: &'a [u8],
    sent: &'a [&'a [u8]],
}

fn sends(alloc: Global, row: &SessionRow, case: &SendRow) -> Result<bool, Fail> {
    let sent = joined(alloc, case.sent)?;
    let coming = joined(alloc, case.frames)?;
    let script = joined(alloc, &[case.script])?;
    let room = vec![in alloc; 0; 64]?;
    let mut link = link(alloc, 0, coming.as_slice(), false)?;
    let mut script = MemSource::new(script, 3, Vec::new(alloc));
    let mut out = MemSink::new(room, 3, Vec::new(alloc));
    let end = send_with(row, case.looks, &mut link, &mut script, &mut out);
    Ok(end == case.end && out.written() == case.printed && link.sent() == sent.as_slice())
}

#[test]
fn a_sender_sends_what_is_not_stored(rt: HostRuntime) -> Result<(), Fail> {
    let Some(row) = row(8) else {
        return Err(Fail::new("no row"));
    };
    let rows = [
        SendRow {
            script: b"61\n-\n62",
            frames: &[WELCOME_1, OTHER_ACK_0, ACK_0, ACK_1],
            looks: 100,
            end: SendEnd::Script { line: 3 },
            printed: b"ack 1\n",
            sent: &[HELLO, EMPTY_1],
        },
        SendRow {
            script: b"61\n",
            frames: &[WELCOME_0],
            looks: 17,
            end: SendEnd::Unfinished { number: 0 },
            printed: b"",
            sent: &[HELLO],
        },
    ];
    for (number, case) in rows.iter().enumerate() {
        assert!(rt; sends(rt.alloc(), &row, case)?, "case {number}");
    }
    Ok(())
}

// What a sender of a stream is given on its links, one after the other, and what must come of it.
#[derive(Clone, Copy)]
struct AppendRow<'a> {
    script: &'a [u8],
    links: &'a [&'a [&'a [u8]]],
    looks: u32,
    end: AppendEnd,
    lines: u32,
    next: u64,
    printed: &'a [u8],
    sent: &'a [&'a [&'a [u8]]],
}

// Whether the links that came back were sent these frames.
fn were_sent(alloc: Global, ports: &MemPorts, sent: &[&[&[u8]]]) -> Result<bool, Fail> {
    let backs = ports.given_back();
    if backs.len() != sent.len() {
        return Ok(false);
    }
    for (back, frames) in backs.iter().zip(sent) {
        let bytes = joined(alloc, frames)?;
        if back.sent() != bytes.as_slice() {
            return Ok(false);
        }
    }
    Ok(true)
}

fn appends(alloc: Global, row: &SessionRow, case: &AppendRow) -> Result<bool, Fail> {
    let mut links = Vec::new(alloc);
    for frames in case.links {
        let coming = joined(alloc, frames)?;
        links.push(link(alloc, 0, coming.as_slice(), false)?)?;
    }
    let script = joined(alloc, &[case.script])?;
    let room = vec![in alloc; 0; 64]?;
    let mut ports = MemPorts::new(links, Vec::new(alloc));
    let mut script = MemSource::new(script, 3, Vec::new(alloc));
    let mut out = MemSink::new(room, 3, Vec::new(alloc));
    let appended = append_with(row, case.looks, &mut ports, &mut script, &mut out);
    let wanted = Appended {
        end: case.end,
        lines: case.lines,
        next: case.next,
    };
    Ok(appended == wanted && out.written() == case.printed && were_sent(alloc, &ports, case.sent)?)
}

// A connection breaks before a message is accepted, and after it. Once another sender has appended, and once no
// look is left.
#[test]
fn a_stream_goes_on_behind_what_is_accepted(rt: HostRuntime) -> Result<(), Fail> {
    let Some(row) = row(8) else {
        return Err(Fail::new("no row"));
    };
    let rows = [
        AppendRow {
            script: b"61\n61\n",
            links: &[&[WELCOME_0], &[WELCOME_0, ACK_0, ACK_1]],
            looks: 100,
            end: AppendEnd::Done,
            lines: 2,
            next: 2,
            printed: b"ack 0\nack 1\n",
            sent: &[&[HELLO, DATA_0], &[HELLO, DATA_0, DATA_1]],
        },
        AppendRow {
            script: b"61\n61\n",
            links: &[&[WELCOME_0], &[WELCOME_1, ACK_1]],
            looks: 100,
            end: AppendEnd::Done,
            lines: 2,
            next: 2,
            printed: b"ack 0\nack 1\n",
            sent: &[&[HELLO, DATA_0], &[HELLO, DATA_1]],
        },
        AppendRow {
            script: b"61\n",
            links: &[&[WELCOME_1], &[WELCOME_0]],
            looks: 100,
            end: AppendEnd::Elsewhere { number: 0 },
            lines: 0,
            next: 1,
            printed: b"",
            sent: &[&[HELLO, DATA_1], &[HELLO]],
        },
        AppendRow {
            script: b"61\n61\n",
            links: &[&[WELCOME_0, ACK_0]],
            looks: 100,
            end: AppendEnd::Unfinished,
            lines: 1,
            next: 1,
            printed: b"ack 0\n",
            sent: &[&[HELLO, DATA_0, DATA_1]],
        },
    ];
    for (number, case) in rows.iter().enumerate() {
        assert!(rt; appends(rt.alloc(), &row, case)?, "case {number}");
    }
    Ok(())
}

// A receiver without messages.
fn fresh<D: Disk + Drop>(mut disk: D, row: &SessionRow, size: u64) -> Option<Receiver<D>>
    requires empty { D.told.tells → D.told.reading disk ≡ [] }
    requires lawful { IsLawfulRow row.now }
    requires size { 80 ≤ size }
    ensures ready { IfSome result (λ receiver. IsRecvReady D.told receiver) }
    ensures row { IfSome result (λ receiver. recv_row receiver ≡ row.now) }
{
    if format(&mut disk, row, Role::Recv, 0).is_err() {
        return None;
    }
    let Ok(register) = Register::open(disk) else {
        return None;
    };
    if register.value() != (0, 80) {
        return None;
    }
    Some(Receiver::over(register, row, size))
}

// What a receiver is given, and what must come of it.
#[derive(Clone, Copy)]
struct ReceiveRow<'a> {
    frames: &'a [&'a [u8]],
    looks: u32,
    size: u64,
    end: ReceiveEnd,
    printed: &'a [u8],
    sent: &'a [&'a [u8]],
}

// What the receiver prints, and how it ends.
fn receive<D: Disk + Drop>(
    row: &SessionRow,
    disk: D,
    case: &ReceiveRow,
    link: &mut MemLink,
    out: &mut MemSink,
) -> Option<ReceiveEnd>
    requires empty { D.told.tells → D.told.reading disk ≡ [] }
    requires lawful { IsLawfulRow row.now }
    requires size { 80 ≤ case.now.size }
{
    match fresh(disk, row, case.size) {
        Some(mut receiver) => Some(receive_with(row, case.looks, link, &mut receiver, out)),
        None => None,
    }
}

fn receives(alloc: Global, row: &SessionRow, case: &ReceiveRow) -> Result<bool, Fail>
    requires lawful { IsLawfulRow row.now }
    requires size { 80 ≤ case.now.size }
{
    let sent = joined(alloc, case.sent)?;
    let coming = joined(alloc, case.frames)?;
    let room = vec![in alloc; 0; 64]?;
    let disk = PlainDisk::new(alloc, 128)?;
    let mut link = link(alloc, 0, coming.as_slice(), false)?;
    let mut out = MemSink::new(room, 3, Vec::new(alloc));
    let end = receive(row, disk, case, &mut link, &mut out);
    Ok(end == Some(case.end) && out.written() == case.printed && link.sent() == sent.as_slice())
}

#[test]
fn a_receiver_takes_what_is_next(rt: HostRuntime) -> Result<(), Fail> {
    let Some(row) = row(8) else {
        return Err(Fail::new("no row"));
    };
    let rows = [
        ReceiveRow {
            frames: &[OTHER_DATA_0, LONG_0, DATA_1],
            looks: 100,
            size: 128,
            end: ReceiveEnd::Ahead {
                number: 1,
                count: 0,
            },
            printed: b"",
            sent: &[ATTACH_0],
        },
        ReceiveRow {
            frames: &[DATA_0, DATA_0],
            looks: 38,
            size: 128,
            end: ReceiveEnd::Looks,
            printed: b"took 1 0\nagain 1 0\n",
            sent: &[ATTACH_0, TAKEN_0, TAKEN_0],
        },
        ReceiveRow {
            frames: &[DATA_0],
            looks: 100,
            size: 82,
            end: ReceiveEnd::LogFull {
                end: 80,
                length: 1,
                size: 82,
            },
            printed: b"",
            sent: &[ATTACH_0],
        },
    ];
    for (number, case) in rows.iter().enumerate() {
        assert!(rt;
            case.size >= 80 && receives(rt.alloc(), &row, case)?,
            "case {number}"
        );
    }
    Ok(())
}

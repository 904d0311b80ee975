//! Files that are cut into messages, and messages that are gathered to a file again.

ghost use Rattle.std.specs.Prelude.{◌≡◌, ◌≤◌, [], IsTrue, IfSome, IfOk};
ghost use Rattle.pump_frame.specs.Rows.{IsLawfulRow};
ghost use Rattle.high_receiver.specs.Receiving.{IsRecvReady, recv_row};

use disk_model::{Disk, PlainDisk, Role};
use fixtures::row;
use high_receiver::Receiver;
use pump_frame::{Payload, SessionRow};
use pump_link::{MemSink, MemSource, Sink, Source};
use pump_wrapper::{CompareFault, Cut, Cutter, GatherFault, Gathered, gather, skip_received};
use stable_buffer::{Register, format};
use std::alloc::{AllocError, Global};
use std::test::Fail;

// The length of a file of no byte, and of one of 12 bytes.
const NONE: &[u8] = b"\x01\0\0\0\0\0\0\0\0";

const TWELVE: &[u8] = b"\x01\0\0\0\0\0\0\0\x0c";

// A file that is cut into messages of at most 12 bytes, with the most that a read gives and the reads
// that fail, and what must come of it.
#[derive(Clone, Copy)]
struct CutRow<'a> {
    file: &'a [u8],
    piece: usize,
    fails: &'a [u64],
    messages: &'a [&'a [u8]],
    end: Cut,
}

fn copied<T: Copy>(alloc: Global, items: &[T]) -> Result<Vec<T>, AllocError> {
    items.iter().copied().collect(alloc)
}

fn cuts<S: Source>(source: &mut S, case: &CutRow) -> bool {
    let mut cutter = Cutter::new(12);
    let mut payload = Payload::default();
    for message in case.messages {
        if cutter.next(source, &mut payload) != Cut::Message || payload.as_slice() != *message {
            return false;
        }
    }
    cutter.next(source, &mut payload) == case.end
}

fn is_cut(alloc: Global, case: &CutRow) -> Result<bool, AllocError>
    requires { 1 ≤ case.now.piece }
{
    let file = copied(alloc, case.file)?;
    let fails = copied(alloc, case.fails)?;
    let mut source = MemSource::new(file, case.piece, fails);
    Ok(cuts(&mut source, case))
}

#[test]
fn a_file_is_cut_into_messages(rt: HostRuntime) -> Result<(), Fail> {
    let rows = [
        CutRow {
            file: b"",
            piece: 1,
            fails: &[],
            messages: &[NONE],
            end: Cut::Done,
        },
        CutRow {
            file: b"hello, world",
            piece: 5,
            fails: &[],
            messages: &[b"\0hello, worl", b"\0d", TWELVE],
            end: Cut::Done,
        },
        CutRow {
            file: b"hello, worl",
            piece: 100,
            fails: &[],
            messages: &[b"\0hello, worl", b"\x01\0\0\0\0\0\0\0\x0b"],
            end: Cut::Done,
        },
        CutRow {
            file: b"hello, world",
            piece: 5,
            fails: &[3],
            messages: &[b"\0hello, worl"],
            end: Cut::Failed,
        },
    ];
    for case in &rows {
        assert!(rt; case.piece >= 1 && is_cut(rt.alloc(), case)?);
    }
    Ok(())
}

// A receiver without messages.
fn fresh<D: Disk>(mut disk: D, row: &SessionRow) -> Result<Receiver<D>, D>
    requires empty { D.told.tells → D.told.reading disk ≡ [] }
    requires lawful { IsLawfulRow row.now }
    ensures ready { IfOk result (λ receiver. IsRecvReady D.told receiver) }
    ensures row { IfOk result (λ receiver. recv_row receiver ≡ row.now) }
{
    if format(&mut disk, row, Role::Recv, 0).is_err() {
        return Err(disk);
    }
    match Register::open(disk) {
        Ok(register) => {
            if register.value() != (0, 80) {
                return Err(register.into_disk());
            }
            Ok(Receiver::over(register, row, 160))
        }
        Err((disk, _)) => Err(disk),
    }
}

// Messages that are gathered, of at most 12 bytes, with the writes that fail, and what must come of it.
#[derive(Clone, Copy)]
struct GatherRow<'a> {
    messages: &'a [&'a [u8]],
    fails: &'a [u64],
    result: Result<Gathered, GatherFault>,
    written: &'a [u8],
}

fn takes<D: Disk>(receiver: &mut Receiver<D>, messages: &[&[u8]]) -> bool
    requires ready { IsRecvReady D.told receiver.old }
    requires short { (recv_row receiver.old).message ≡ 16 }
    ensures { IsTrue result → IsRecvReady D.told receiver.new }
{
    let mut number = 0;
    for message in messages {
        let Some(payload) = Payload::from_slice(message) else {
            return false;
        };
        if payload.len() > 16 || number > 8 || receiver.take(number, &payload).is_err() {
            return false;
        }
        number += 1;
    }
    true
}

// What is gathered of the messages, where a receiver over this disk takes them.
fn gathered<D: Disk + Drop, O: Sink>(
    disk: D,
    row: &SessionRow,
    messages: &[&[u8]],
    out: &mut O,
) -> Option<Result<Gathered, GatherFault>>
    requires empty { D.told.tells → D.told.reading disk ≡ [] }
    requires lawful { IsLawfulRow row.now }
    requires short { row.now.message ≡ 16 }
{
    let Ok(mut receiver) = fresh(disk, row) else {
        return None;
    };
    if !takes(&mut receiver, messages) {
        return None;
    }
    Some(gather(&mut receiver, out, 12))
}

fn is_gathered(alloc: Global, row: &SessionRow, case: &GatherRow) -> Result<bool, AllocError>
    requires lawful { IsLawfulRow row.now }
    requires short { row.now.message ≡ 16 }
{
    let fails = copied(alloc, case.fails)?;
    let mut out = MemSink::new(vec![in alloc; 0; 64]?, 5, fails);
    let Ok(disk) = PlainDisk::new(alloc, 160) else {
        return Err(AllocError);
    };
    let result = gathered(disk, row, case.messages, &mut out);
    Ok(result == Some(case.result) && out.written() == case.written)
}

#[test]
fn messages_are_gathered(rt: HostRuntime) -> Result<(), Fail> {
    let Some(row) = row(16) else {
        return Err(Fail::new("no row"));
    };
    let rows = [
        GatherRow {
            messages: &[],
            fails: &[],
            result: Ok(Gathered {
                bytes: 0,
                whole: false,
            }),
            written: b"",
        },
        GatherRow {
            messages: &[NONE],
            fails: &[],
            result: Ok(Gathered {
                bytes: 0,
                whole: true,
            }),
            written: b"",
        },
        GatherRow {
            messages: &[b"\0hello, worl", b"\0d", TWELVE],
            fails: &[],
            result: Ok(Gathered {
                bytes: 12,
                whole: true,
            }),
            written: b"hello, world",
        },
        GatherRow {
            messages: &[b"\0hello, worl"],
            fails: &[],
            result: Ok(Gathered {
                bytes: 11,
                whole: false,
            }),
            written: b"hello, worl",
        },
        GatherRow {
            messages: &[b"\0hello", b"\0d"],
            fails: &[],
            result: Err(GatherFault::NotWrapped { number: 1 }),
            written: b"hello",
        },
        GatherRow {
            messages: &[b"\0"],
            fails: &[],
            result: Err(GatherFault::NotWrapped { number: 0 }),
            written: b"",
        },
        GatherRow {
            messages: &[b"\0hello, world"],
            fails: &[],
            result: Err(GatherFault::NotWrapped { number: 0 }),
            written: b"",
        },
        GatherRow {
            messages: &[b"\0hello, worl", TWELVE],
            fails: &[],
            result: Err(GatherFault::NotWrapped { number: 1 }),
            written: b"hello, worl",
        },
        GatherRow {
            messages: &[NONE, NONE],
            fails: &[],
            result: Err(GatherFault::NotWrapped { number: 1 }),
            written: b"",
        },
        GatherRow {
            messages: &[b"\x02", b""],
            fails: &[],
            result: Err(GatherFault::NotWrapped { number: 0 }),
            written: b"",
        },
        GatherRow {
            messages: &[b"\0hello, worl"],
            fails: &[1],
            result: Err(GatherFault::Write),
            written: b"hello",
        },
    ];
    for case in &rows {
        assert!(rt; is_gathered(rt.alloc(), &row, case)?);
    }
    Ok(())
}

// Compares a file with a receiver over this disk that has the first piece of a file of 12 bytes; after
// it the cutter goes on with the other piece.
fn compared<D: Disk + Drop, S: Source>(
    disk: D,
    row: &SessionRow,
    source: &mut S,
) -> Option<Result<(), CompareFault>>
    requires empty { D.told.tells → D.told.reading disk ≡ [] }
    requires lawful { IsLawfulRow row.now }
    requires short { row.now.message ≡ 16 }
{
    let Ok(mut receiver) = fresh(disk, row) else {
        return None;
    };
    if !takes(&mut receiver, &[b"\0hello, worl"]) {
        return None;
    }
    let mut cutter = Cutter::new(12);
    let compared = skip_received(&mut receiver, &mut cutter, source);
    if compared.is_err() {
        return Some(compared);
    }
    let mut payload = Payload::default();
    let next = cutter.next(source, &mut payload);
    if next == Cut::Message && payload.as_slice() == b"\0d".as_slice() {
        Some(compared)
    } else {
        None
    }
}

// Whether a file is compared so.
fn is_compared(
    alloc: Global,
    row: &SessionRow,
    file: &[u8],
    wanted: Result<(), CompareFault>,
) -> Result<bool, AllocError>
    requires lawful { IsLawfulRow row.now }
    requires short { row.now.message ≡ 16 }
{
    let mut source = MemSource::new(copied(alloc, file)?, 5, Vec::new(alloc));
    let Ok(disk) = PlainDisk::new(alloc, 160) else {
        return Err(AllocError);
    };
    Ok(compared(disk, row, &mut source) == Some(wanted))
}

#[test]
fn a_cutter_goes_on_behind_a_receiver(rt: HostRuntime) -> Result<(), Fail> {
    let Some(row) = row(16) else {
        return Err(Fail::new("no row"));
    };
    let differs = Err(CompareFault::Differs { number: 0 });
    assert!(rt; is_compared(rt.alloc(), &row, b"hello, world", Ok(()))?);
    assert!(rt; is_compared(rt.alloc(), &row, b"hello, there", differs)?);
    Ok(())
}

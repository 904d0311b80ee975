//! A file that is sent over disks in memory while one of them fails, and sent on, and what is gathered of it.

ghost use Rattle.std.specs.Prelude.{◌≡◌, IfSome};
ghost use Rattle.pump_frame.specs.Rows.{IsLawfulRow};
ghost use Rattle.high_receiver.specs.Receiving.{IsRecvReady};

use disk_model::{Disk, MemDisk, Role};
use fixtures::row;
use high_receiver::Receiver;
use pump_frame::SessionRow;
use pump_link::{MemSink, MemSource};
use pump_wrapper::{Gathered, WrapEnd, Wrapped, gather, wrap};
use recovery::{Trio, open_receiver};
use std::alloc::{AllocError, Global};
use std::test::Fail;
use two_worlds::Stop;

// A file that is sent; what must come of it, the receiver's count and end after it, and what is gathered
// of its messages then.
#[derive(Clone, Copy)]
struct WrapRow<'a> {
    file: &'a [u8],
    end: WrapEnd,
    count: u64,
    log_end: u64,
    gathered: Gathered,
    written: &'a [u8],
}

fn new_disk(alloc: Global, fails: &[u64]) -> Result<MemDisk, AllocError> {
    let fails = fails.iter().copied().collect(alloc)?;
    match MemDisk::new(alloc, 256, 200, fails) {
        Ok(disk) => Ok(disk),
        Err(_) => Err(AllocError),
    }
}

// The three disks, where there was memory for each.
fn trio<D: Drop>(
    low: Result<D, AllocError>,
    high: Result<D, AllocError>,
    recv: Result<D, AllocError>,
) -> Result<Trio<D>, AllocError> {
    let (low, high, recv) = (low?, high?, recv?);
    Ok(Trio { low, high, recv })
}

// Whether the receiver is as the row says, and what is gathered of its messages.
fn is_received<D: Disk>(receiver: &mut Receiver<D>, case: &WrapRow, out: &mut MemSink) -> bool
    requires { IsRecvReady D.told receiver.old }
{
    receiver.count() == case.count
        && receiver.end() == case.log_end
        && gather(receiver, out, 12) == Ok(case.gathered)
        && out.written() == case.written
}

// The disks after the row; none where something else came of it.
fn sent<D: Disk + Drop>(
    alloc: Global,
    row: &SessionRow,
    disks: Trio<D>,
    case: &WrapRow,
) -> Result<Option<Trio<D>>, AllocError>
    requires lawful { IsLawfulRow row.now }
    requires size { row.now.message ≡ 12 }
{
    let bytes = case.file.iter().copied().collect(alloc)?;
    let room = vec![in alloc; 0; 64]?;
    let mut file = MemSource::new(bytes, 5, Vec::new(alloc));
    let mut out = MemSink::new(room, 5, Vec::new(alloc));
    let Wrapped { end, disks } = wrap(alloc, row, disks, &mut file);
    let Trio { low, high, recv } = disks;
    let Ok(mut receiver) = open_receiver(recv, row, 256) else {
        return Ok(None);
    };
    if end != case.end || !is_received(&mut receiver, case, &mut out) {
        return Ok(None);
    }
    Ok(Some(Trio {
        low,
        high,
        recv: receiver.into_disk(),
    }))
}

// Whether the rows come so over the disks, each over those that the one before left.
fn are_sent<D: Disk + Drop>(
    alloc: Global,
    row: &SessionRow,
    mut disks: Trio<D>,
    cases: &[WrapRow],
) -> Result<bool, AllocError>
    requires lawful { IsLawfulRow row.now }
    requires size { row.now.message ≡ 12 }
{
    for case in cases {
        match sent(alloc, row, disks, case)? {
            Some(left) => disks = left,
            None => return Ok(false),
        }
    }
    Ok(true)
}

// Whether they come so over new disks, where these calls of the receiver's fail.
fn are_sent_anew(
    alloc: Global,
    row: &SessionRow,
    fails: &[u64],
    cases: &[WrapRow],
) -> Result<bool, AllocError>
    requires lawful { IsLawfulRow row.now }
    requires size { row.now.message ≡ 12 }
{
    let low = new_disk(alloc, &[]);
    let high = new_disk(alloc, &[]);
    let recv = new_disk(alloc, fails);
    match trio(low, high, recv) {
        Ok(disks) => are_sent(alloc, row, disks, cases),
        Err(fail) => Err(fail),
    }
}

#[test]
fn a_file_that_was_stopped_is_sent_on(rt: HostRuntime) -> Result<(), Fail> {
    let alloc = rt.alloc();
    let Some(row) = row(12) else {
        return Err(Fail::new("no row"));
    };
    let whole = WrapRow {
        file: b"hello, world",
        end: WrapEnd::Done {
            bytes: 12,
            messages: 3,
        },
        count: 3,
        log_end: 109,
        gathered: Gathered {
            bytes: 12,
            whole: true,
        },
        written: b"hello, world",
    };
    // The receiver's disk fails in the second taking.
    let stopped = WrapRow {
        end: WrapEnd::Stopped(Stop::Device {
            role: Role::Recv,
            faults: 1,
        }),
        count: 1,
        log_end: 94,
        gathered: Gathered {
            bytes: 11,
            whole: false,
        },
        written: b"hello, worl",
        ..whole
    };
    assert!(rt; are_sent_anew(alloc, &row, &[20], &[stopped, whole])?);
    Ok(())
}

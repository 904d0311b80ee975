//! Tests of High's receiver: what it answers to a message, and the messages that it gives back.

ghost use Rattle.std.specs.Prelude.{◌≡◌, ◌≤◌, []};
ghost use Rattle.pump_frame.specs.Rows.{IsLawfulRow};
ghost use Rattle.high_receiver.specs.Receiving.{IsRecvReady, recv_row};

use crate::rows::{new_register, row};
use disk_model::{Disk, PlainDisk, Role};
use high_receiver::{Receiver, TakeFault, Taken};
use pump_frame::{Payload, SessionRow};
use std::process::Abort;
use std::test::Fail;

// A receiver without messages.
fn fresh<D: Disk>(rt: &impl Abort, disk: D, row: &SessionRow, size: u64) -> Receiver<D>
    requires empty { D.told.tells → D.told.reading disk ≡ [] }
    requires lawful { IsLawfulRow row.now }
    requires size { 80 ≤ size }
    ensures ready { IsRecvReady D.told result }
    ensures row { recv_row result ≡ row.now }
{
    Receiver::over(new_register(rt, disk, row, Role::Recv), row, size)
}

// The record on the disk of a receiver that takes the eight bytes and nothing else.
fn record_of<D: Disk + Drop>(rt: &impl Abort, disk: D) -> [u8; 10]
    requires empty { D.told.tells → D.told.reading disk ≡ [] }
{
    let mut receiver = fresh(rt, disk, &row(rt, 16), 90);
    let nine = Payload::from_slice(b"123456789").expect(rt, "a payload");
    let eight = Payload::from_slice(b"12345678").expect(rt, "a payload");
    let full = TakeFault::LogFull {
        end: 80,
        length: 9,
        size: 90,
    };
    let ahead = TakeFault::Ahead {
        number: 2,
        count: 1,
    };
    assert_eq!(rt; receiver.take(0, &nine), Err(full));
    assert_eq!(rt; receiver.take(0, &eight), Ok(Taken::Took));
    assert_eq!(rt; receiver.take(0, &eight), Ok(Taken::Repeat));
    assert_eq!(rt; receiver.take(2, &eight), Err(ahead));
    assert_eq!(rt; (receiver.count(), receiver.is_open()), (1, true));
    let mut record = [0; 10];
    assert!(rt; receiver.into_disk().read(80, &mut record).is_ok());
    record
}

#[test]
fn a_message_that_fits_is_taken_once(rt: HostRuntime) -> Result<(), Fail> {
    assert_eq!(rt;
        record_of(&rt, PlainDisk::new(rt.alloc(), 90)?),
        *b"\x00\x0812345678"
    );
    Ok(())
}

fn by_number<D: Disk>(rt: &impl Abort, receiver: &mut Receiver<D>) -> Payload
    requires { IsRecvReady D.told receiver.old }
    ensures { IsRecvReady D.told receiver.new }
{
    assert!(rt; receiver.count() > 0);
    let mut found = Payload::default();
    assert!(rt; receiver.message(0, &mut found).is_ok());
    found
}

// By the place of its record. The next one would stand at 90.
fn by_place<D: Disk>(rt: &impl Abort, receiver: &mut Receiver<D>) -> Payload
    requires { IsRecvReady D.told receiver.old }
    ensures { IsRecvReady D.told receiver.new }
{
    assert!(rt; receiver.count() > 0);
    let mut found = Payload::default();
    assert_eq!(rt; receiver.at(0, 80, &mut found), Ok(90));
    found
}

// By a reader of the log.
fn by_reader<D: Disk>(rt: &impl Abort, receiver: &mut Receiver<D>) -> Payload
    requires { IsRecvReady D.told receiver.old }
{
    assert!(rt; receiver.count() > 0);
    let mut log = receiver.reader();
    assert!(rt; log.advance(receiver).is_ok());
    Payload::from_slice(log.message()).expect(rt, "a payload")
}

// The message that a receiver took is given in each of three ways.
fn gives_back<D: Disk + Drop>(rt: &impl Abort, disk: D)
    requires empty { D.told.tells → D.told.reading disk ≡ [] }
{
    let mut receiver = fresh(rt, disk, &row(rt, 16), 90);
    let eight = Payload::from_slice(b"12345678").expect(rt, "a payload");
    assert_eq!(rt; receiver.take(0, &eight), Ok(Taken::Took));
    for found in [
        by_number(rt, &mut receiver),
        by_place(rt, &mut receiver),
        by_reader(rt, &mut receiver),
    ] {
        assert_eq!(rt; found.as_slice(), eight.as_slice());
    }
}

#[test]
fn a_taken_message_is_given_back(rt: HostRuntime) -> Result<(), Fail> {
    gives_back(&rt, PlainDisk::new(rt.alloc(), 90)?);
    Ok(())
}

//! The moving of a session to new disks that fail and crash. What is refused, and what is moved, is in
//! `tests/disks-moved.t`.

ghost use Rattle.std.specs.Prelude.{IfOk};
ghost use Rattle.pump_frame.specs.Rows.{IsLawfulRow};

use crate::held::Held;
use crate::opening_tests::{high, low, receiver};
use disk_model::{Disk, MemDisk, Outcome, Role};
use fixtures::row;
use pump_frame::SessionRow;
use recovery::{Migrated, MoveFault, Trio, migrate};
use stable_buffer::Register;
use std::alloc::Global;
use std::test::Fail;

// The row of the tests with another capacity and message size.
fn row_of(capacity: u32, message: u32) -> Result<SessionRow, Fail>
    ensures { IfOk result IsLawfulRow }
{
    let Some(row) = row(8) else {
        return Err(Fail::new("no row"));
    };
    let row = SessionRow {
        capacity,
        message,
        ..row
    };
    if row.first_bad().is_some() {
        return Err(Fail::new("no lawful row"));
    }
    Ok(row)
}

// An empty disk that fails at a call, where that is told of it.
fn failing(alloc: Global, call: Option<u64>) -> Result<Held<MemDisk>, Fail> {
    let mut fails = Vec::new(alloc);
    if let Some(call) = call {
        fails.push(call)?;
    }
    Ok(Held(MemDisk::new(alloc, 128, 40, fails)?))
}

fn memory(alloc: Global, bytes: &[u8]) -> Result<Held<MemDisk>, Fail> {
    let mut disk = failing(alloc, None)?;
    match disk.0.write_at(0, bytes) {
        Ok(()) => Ok(disk),
        Err(_) => Err(Fail::new("no room")),
    }
}

// Whether the disk has the size and the mark of a buffer; `None` where its size can't be read.
fn is_buffer(disk: &mut MemDisk) -> Option<bool> {
    let mut mark = [0; 4];
    let size = disk.size().ok()?;
    Some(size >= 80 && disk.read(0, &mut mark).is_ok() && mark == *b"NPD1")
}

// Whether a disk, after a crash, is no buffer or opens with these two numbers.
fn is_none_or(mut disk: Held<MemDisk>, outcome: Outcome, value: (u64, u64)) -> bool {
    disk.0.crash(outcome);
    match is_buffer(&mut disk.0) {
        None => false,
        Some(false) => true,
        Some(true) => numbers(disk) == Some(value),
    }
}

// The two numbers of a disk that is a buffer.
pub fn numbers(disk: Held<MemDisk>) -> Option<(u64, u64)> {
    match Register::open(disk.taken()) {
        Ok(register) => {
            let value = register.value();
            drop(register);
            Some(value)
        }
        Err(refused) => {
            drop(refused);
            None
        }
    }
}

fn memory_disks(alloc: Global) -> Result<Held<Trio<MemDisk>>, Fail> {
    let low = memory(alloc, &low(3))?;
    let high = memory(alloc, &high(1))?;
    let recv = memory(alloc, &receiver())?;
    Ok(trio(low, high, recv))
}

fn trio(low: Held<MemDisk>, high: Held<MemDisk>, recv: Held<MemDisk>) -> Held<Trio<MemDisk>> {
    Held(Trio {
        low: low.taken(),
        high: high.taken(),
        recv: recv.taken(),
    })
}

// The call at which a disk fails, where it is that of the role.
fn call_of(role: Role, other: Role, call: u64) -> Option<u64> {
    if role == other { Some(call) } else { None }
}

// Empty disks of which that of a role fails at a call.
fn failing_disks(alloc: Global, role: Role, call: u64) -> Result<Held<Trio<MemDisk>>, Fail> {
    let low = failing(alloc, call_of(role, Role::Low, call))?;
    let high = failing(alloc, call_of(role, Role::High, call))?;
    let recv = failing(alloc, call_of(role, Role::Recv, call))?;
    Ok(trio(low, high, recv))
}

// Whether each disk, after a crash, is no buffer or opens with the numbers of the old one.
fn are_none_or(new: Trio<MemDisk>, outcome: Outcome) -> bool {
    let Trio { low, high, recv } = new;
    let lows = is_none_or(Held(low), outcome, (3, 0));
    let highs = is_none_or(Held(high), outcome, (1, 0));
    let received = is_none_or(Held(recv), outcome, (2, 86));
    lows && highs && received
}

// Whether a move ended since a call of this new disk failed.
fn has_failed(end: &Result<(u64, u64, u64), MoveFault>, role: Role) -> bool {
    match end {
        Ok(_) => false,
        Err(fault) => fault.new && fault.role == role && fault.why.number() == 1,
    }
}

// Moves to new disks of which that of a role fails at a call, and then crashes.
fn survives(alloc: Global, role: Role, call: u64, outcome: Outcome) -> Result<bool, Fail> {
    let (from, to) = (row_of(3, 8)?, row_of(4, 3)?);
    let old = memory_disks(alloc)?;
    let new = failing_disks(alloc, role, call)?;
    let Migrated { old, new, end } = migrate(&from, &to, old.taken(), new.taken(), 128);
    drop(old);
    Ok(are_none_or(new, outcome) && has_failed(&end, role))
}

#[test]
fn each_call_of_a_new_disk_fails(rt: HostRuntime) -> Result<(), Fail> {
    for (role, calls) in [(Role::Low, 10), (Role::High, 7), (Role::Recv, 8)] {
        for call in 0..calls {
            for outcome in [Outcome::Old, Outcome::New, Outcome::Fill(78)] {
                assert!(rt; survives(rt.alloc(), role, call, outcome)?);
            }
        }
    }
    Ok(())
}

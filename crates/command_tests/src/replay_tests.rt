//! Replays of one session where a call fails: a read of the script, a write of what it prints, a call of a
//! disk. What a replay prints of lines, and which disks it refuses, is tried in `tests/`.

ghost use Rattle.std.specs.Prelude.{◌<◌};

use crate::stage::{Play, Stage, joined};
use disk_model::{DiskName, MemDisk, PlainDisk, Role};
use std::alloc::Global;
use std::test::Fail;

pub const P: &str = "session 1 3 8 2 20000 100000 500000 weather watch\n";

pub const H: &str = "look 1 10 00000000 hello weather watch\n";

pub const WELCOME: &str = "low 1 10 welcome 0\n";

pub const STORE: &str = "look 1 100 00000000 data 0 61\nlook 1 100 00000000\n";

pub const STORED: &str = "stored 1 100 0\npassed 1 100 0 20000\n";

/// A message is sent, and the receiver is given it twice.
pub const CARRIED: &str = "high 1 110\ncarry 1 0\ncarry 1 0\n";

pub const TAKEN: &str = "sent 1 110 0\ntook 1 0\nagain 1 0\n";

/// A stage with new disks for session 1.
fn new_stage(alloc: Global) -> Result<Stage<PlainDisk>, Fail> {
    let mut disks = Vec::new(alloc);
    for (role, room) in [
        (Role::Low, 65_744),
        (Role::High, 80),
        (Role::Recv, 16_777_216),
    ] {
        disks.push((DiskName { session: 1, role }, PlainDisk::new(alloc, room)?))?;
    }
    Ok(Stage::new(disks))
}

/// The status and the output of a replay of a script that comes in pieces, over new disks.
pub fn run(
    alloc: Global,
    script: Vec<u8>,
    piece: usize,
    read_fails: &[u64],
    write_fails: &[u64],
) -> Result<(u8, Vec<u8>), Fail>
    requires { 0 < piece }
{
    let read_fails = Vec::from_slice(alloc, read_fails)?;
    let write_fails = Vec::from_slice(alloc, write_fails)?;
    let mut stage = new_stage(alloc)?;
    Ok(stage.run(Play::Sessions, script, piece, read_fails, write_fails)?)
}

/// The stage with a low disk that fails in this call, counted from the first.
fn failing_stage(alloc: Global, call: u64) -> Result<Stage<MemDisk>, Fail> {
    let mut disks = Vec::new(alloc);
    for (role, room) in [(Role::Low, 110), (Role::High, 80), (Role::Recv, 4096)] {
        let fails = match role {
            Role::Low => vec![in alloc; call]?,
            _ => Vec::new(alloc),
        };
        let disk = MemDisk::new(alloc, room, 64, fails)?;
        disks.push((DiskName { session: 1, role }, disk))?;
    }
    Ok(Stage::new(disks))
}

#[test]
fn stops_where_a_call_of_a_disk_fails(rt: HostRuntime) -> Result<(), Fail> {
    let alloc = rt.alloc();
    // In the opening, or in one of the five calls of the store of message 0.
    let opening = b"fault device 1 low\n".as_slice();
    let store = b"low 1 10 welcome 0\nlow 1 100 refuse 5 0\nfault device 1 low\n".as_slice();
    let mut stores = 0u32;
    for call in 0..40 {
        let mut stage = failing_stage(alloc, call)?;
        let (status, written) = stage.play(alloc, Play::Sessions, &[P, H, STORE])?;
        let is_store = written.as_slice() == store;
        let is_fault = is_store || written.as_slice() == opening;
        assert_eq!(rt; status, if is_fault { 7 } else { 0 });
        assert!(rt; stage.are_back());
        if is_store {
            stores = stores.saturating_add(1);
            // What the disks hold opens again.
            let (status, _) = stage.play(alloc, Play::Sessions, &[P])?;
            assert_eq!(rt; status, 0);
        }
    }
    assert_eq!(rt; stores, 5);
    Ok(())
}

/// Whether the replay of a script that comes in pieces ends with this status and writes this.
fn ends(
    alloc: Global,
    parts: &[&str],
    piece: usize,
    read_fails: &[u64],
    write_fails: &[u64],
    wanted: (u8, &str),
) -> Result<bool, Fail>
    requires { 0 < piece }
{
    let script = joined(alloc, parts)?;
    let (status, written) = run(alloc, script, piece, read_fails, write_fails)?;
    Ok(status == wanted.0 && written.as_slice() == wanted.1.as_bytes())
}

#[test]
fn tells_failed_reads_and_writes(rt: HostRuntime) -> Result<(), Fail> {
    let alloc = rt.alloc();
    // The third read fails after the two lines and half of another one; the second one after a piece
    // with both lines, which are answered.
    let unread = (3, "low 1 10 welcome 0\nfault read\n");
    let script = [P, H, "look 1 20 00000000\n"];
    assert!(rt; ends(alloc, &script, 50, &[2], &[], unread)?);
    assert!(rt; ends(alloc, &script, 100, &[1], &[], unread)?);
    assert!(rt; ends(alloc, &[P, H], 64, &[], &[0], (4, ""))?);
    // Of a script that comes byte by byte each answer is written before the next byte is read, and
    // by itself; else many are written at once.
    let first = (4, "low 1 10 welcome 0\n");
    assert!(rt; ends(alloc, &[P, H, STORE], 1, &[], &[1], first)?);
    let all = (
        4,
        "low 1 10 welcome 0\nstored 1 100 0\npassed 1 100 0 20000\n",
    );
    assert!(rt; ends(alloc, &[P, H, STORE], 4096, &[], &[1], all)?);
    Ok(())
}

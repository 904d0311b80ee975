//! A command line over what stands in memory, and what came of it.

ghost use Rattle.std.specs.Prelude.{◌<◌};

use disk_model::{DiskName, MemShelf, PlainDisk, Role};
use dispatch::{batch, live};
use pump_link::{Clock, MemPorts, MemSink, MemSource, StepClock};
use relay_side::RelaySide;
use relay_threads::Unwatched;
use std::alloc::{AllocError, Global};
use std::sync::Wait;
use std::test::Fail;
use std::thread::Threads;

/// The room of an output, in bytes: that of the record of a race.
pub const ROOM: usize = 1_000_000;

/// What came of a command with threads or over links and doors.
#[derive(Drop)]
pub struct Ran {
    pub status: u8,
    pub output: Vec<u8>,
    /// What was sent over the links that came back, those of the low side first.
    pub sent: Vec<u8>,
    /// How often the low clock was read, and the high one.
    pub readings: (u64, u64),
}

pub fn joined(alloc: Global, parts: &[&[u8]]) -> Result<Vec<u8>, AllocError> {
    let mut bytes = Vec::new(alloc);
    for part in parts {
        bytes.extend_from_slice(*part)?;
    }
    Ok(bytes)
}

pub fn words(alloc: Global, line: &str) -> Result<Vec<String>, AllocError> {
    let mut words = Vec::new(alloc);
    for word in line.split(' ') {
        words.push(String::from_str(alloc, word)?)?;
    }
    Ok(words)
}

/// Empty disks for a session.
pub fn push_disks(
    alloc: Global,
    session: u32,
    disks: &mut Vec<(DiskName, PlainDisk)>,
) -> Result<(), Fail> {
    for (role, room) in [
        (Role::Low, 65_744),
        (Role::High, 80),
        (Role::Recv, 16_777_216),
    ] {
        let disk = match PlainDisk::new(alloc, room) {
            Ok(disk) => disk,
            Err(memory) => return Err(memory.into()),
        };
        disks.push((DiskName { session, role }, disk))?;
    }
    Ok(())
}

// What is owned here is let go before anything can fail.
fn batch_over(
    alloc: Global,
    words: &Vec<String>,
    shelf: &mut MemShelf<PlainDisk>,
    mut script: MemSource,
    mut out: MemSink,
) -> Result<(u8, Vec<u8>), AllocError> {
    let status = batch(alloc, words, shelf, &mut script, &mut out);
    drop(script);
    let output = Vec::from_slice(alloc, out.written());
    drop(out);
    Ok((status, output?))
}

/// The status and the output of a command that `batch` runs, over a script. It is read, and the output
/// written, in pieces of so many bytes at most.
pub fn run_batch(
    alloc: Global,
    shelf: &mut MemShelf<PlainDisk>,
    line: &str,
    script: Vec<u8>,
    piece: usize,
) -> Result<(u8, Vec<u8>), AllocError>
    requires { 0 < piece }
{
    let words = words(alloc, line)?;
    let room = vec![in alloc; 0; ROOM]?;
    let script = MemSource::new(script, piece, Vec::new(alloc));
    let out = MemSink::new(room, piece, Vec::new(alloc));
    batch_over(alloc, &words, shelf, script, out)
}

fn sent_over(alloc: Global, low: &MemPorts, high: &MemPorts) -> Result<Vec<u8>, AllocError> {
    let mut sent = Vec::new(alloc);
    for ports in [low, high] {
        for link in ports.given_back() {
            sent.extend_from_slice(link.sent())?;
        }
    }
    Ok(sent)
}

/// A side with these ports, whose clock goes on by a millisecond at each reading.
fn side(ports: MemPorts) -> RelaySide<MemPorts, StepClock> {
    RelaySide {
        ports,
        clock: StepClock::new(0, 1000),
    }
}

/// What comes of a command that `live` runs over these, with the ports of each side. They are let go before
/// anything can fail.
pub fn run_live<R: Threads + Wait + Sync>(
    rt: &R,
    alloc: Global,
    words: &Vec<String>,
    mut shelf: MemShelf<PlainDisk>,
    (low, high): (MemPorts, MemPorts),
    mut keys: MemSource,
    mut script: MemSource,
    mut out: MemSink,
) -> Result<Ran, AllocError> {
    let (mut low, mut high) = (side(low), side(high));
    let status = live(
        rt,
        alloc,
        words,
        &mut shelf,
        &mut low,
        &mut high,
        &mut keys,
        &mut script,
        &mut out,
        &Unwatched,
    );
    drop(shelf);
    drop(keys);
    drop(script);
    let sent = sent_over(alloc, &low.ports, &high.ports);
    let readings = (low.clock.readings(), high.clock.readings());
    drop(low);
    drop(high);
    let output = Vec::from_slice(alloc, out.written());
    drop(out);
    Ok(Ran {
        status,
        output: output?,
        sent: sent?,
        readings,
    })
}

/// The lines that begin so, without that.
pub fn lines_after(alloc: Global, text: &[u8], begin: &[u8]) -> Result<Vec<u8>, AllocError> {
    let mut lines = Vec::new(alloc);
    for line in text.split(|byte| *byte == b'\n') {
        if let Some(rest) = line.strip_prefix(begin) {
            lines.extend_from_slice(rest)?;
            lines.push(b'\n')?;
        }
    }
    Ok(lines)
}

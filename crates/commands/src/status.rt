//! The state of a session is told, from what the files of its disks hold.

ghost use Rattle.std.specs.Prelude.{◌≡◌, ◌≤◌, ◌==◌, length, false, [], None, IfOk, IfErr, Err};
ghost use Rattle.disk_model.specs.declared.name.Role.{Role as DiskRole};
ghost use Rattle.disk_model.specs.declared.name.Role.TheVariants as roles;
ghost use Rattle.pump_frame.specs.Counts.{Rose};
ghost use Rattle.pump_frame.specs.Rows.{IsLawfulRow};
ghost use Rattle.stable_buffer.specs.Register.{value_of};
ghost use Rattle.command_ends.specs.Causes.{HasEndCause};
ghost use Rattle.command_ends.specs.CommandEnds.{EndsSo, end_line, IsSessionEnd};
ghost use Rattle.commands.specs.Formatting.{IsDiskEnd};
ghost use Rattle.commands.specs.ReadDisks.{disk_file, AreRead, Holds, IsReadOrNot, refused_recv};
ghost use Rattle.recovery.specs.Refusals.{refused_disk};
ghost use Rattle.commands.specs.Telling.{status_line, count_in, TellsStatus, kind, HasPumpCounts, RefusesPump};
ghost use Rattle.commands.specs.Telling.{RefusesRecv, HasCounts, RefusesEach, bytes_in, IsCalm, StopsReading};
ghost use Rattle.commands.specs.Telling.{StopsTelling, AreTold, ReadTo, IsToldLine};
ghost use Rattle.command_ends.specs.declared.command_end.CommandEnd.TheVariants as ends;

use crate::read_disk::{file_room, read_disk};
use crate::show::end_at;
use arrayvec::ArrayVec;
use command_ends::{CommandEnd, close, put, put_number, row_in_file, write_end};
use command_line::TableName;
use disk_model::{PlainDisk, Role, Shelf};
use passage::PlainEnds;
use pump_frame::SessionRow;
use pump_link::Sink;
use recovery::{Why, open_pump, open_receiver};
use stable_buffer::{RECEIVER_SIZE, Register};
use std::alloc::Global;

/// The disks of a session as their files stand: the receiver's where it could be read.
#[derive(Drop)]
struct ReadDisks {
    low: PlainDisk,
    high: PlainDisk,
    recv: Option<PlainDisk>,
}

/// How many messages are accepted, removed and received.
#[derive(Clone, Copy)]
struct Told {
    accepted: u64,
    removed: u64,
    received: Option<u64>,
}

/// What low's disk and high's say.
#[derive(Clone, Copy)]
struct PumpTold {
    accepted: u64,
    removed: u64,
}

// The line of these counts, in an empty room.
fn put_status(into: &mut ArrayVec<u8, 256>, session: u32, told: &Told, capacity: u32)
    requires { into.old.items ≡ [] }
    ensures { into.new.items ≡ status_line session told.now.accepted told.now.removed told.now.received capacity }
{
    put(into, b"status");
    put_number(into, u64::from(session));
    put_number(into, told.accepted);
    put_number(into, told.removed);
    match told.received {
        Some(received) => put_number(into, received),
        None => put(into, b" -"),
    }
    put_number(into, told.accepted.saturating_sub(told.removed));
    put_number(into, u64::from(capacity));
    put(into, b"\n");
}

// The first number of a disk's register.
fn first_number(disk: PlainDisk) -> u64
    requires calm { disk.armed ≡ false }
    requires whole { 80 ≤ length disk.bytes }
    ensures { result ≡ (value_of disk.bytes).0 }
{
    match Register::open(disk) {
        Ok(register) => register.value().0,
        Err(_) => unreachable!("no call of this disk fails"),
    }
}

// Is the cause one of low's disk and high's together?
fn is_of_two(why: &Why) -> bool
    ensures { result ≡ (kind why.now == 1) }
{
    match why {
        Why::Mismatch { .. } | Why::BadSlot { .. } => true,
        Why::NotABuffer { .. } | Why::WrongShape { .. } | Why::BadRegister { .. } => false,
        Why::Device { .. }
        | Why::Apart { .. }
        | Why::Differs { .. }
        | Why::NotEmpty { .. }
        | Why::Small { .. }
        | Why::TooLong { .. } => false,
    }
}

// The two disks, once they are opened as a pump. That they don't fit one another is no refusal, since each
// was read at a moment of its own.
fn check_pump(
    alloc: Global,
    row: &SessionRow,
    low: PlainDisk,
    high: PlainDisk,
) -> Result<(PlainDisk, PlainDisk), CommandEnd>
    requires lawful { IsLawfulRow row.now }
    requires low { low.armed ≡ false }
    requires high { high.armed ≡ false }
    ensures fine { IfOk result (λ disks. (refused_disk row.now roles.Low low.bytes ≡ None)
        × (refused_disk row.now roles.High high.bytes ≡ None)) }
    ensures same { IfOk result (λ disks. Holds low.bytes disks.0 × Holds high.bytes disks.1) }
    ensures whole { IfOk result (λ disks. (80 ≤ length disks.0.bytes) × (80 ≤ length disks.1.bytes)) }
    ensures refused { IfErr result (RefusesPump row.now low.bytes high.bytes) }
{
    let Ok(mut ends) = PlainEnds::new(alloc, row) else {
        return Err(CommandEnd::Memory);
    };
    match open_pump(low, high, row, &mut ends) {
        Ok(opened) => Ok((opened.low.into_disk(), opened.high.into_disk())),
        Err(refused) => {
            if is_of_two(&refused.why) {
                return Ok((refused.low, refused.high));
            }
            Err(end_at(refused.role, &Some(refused.why)))
        }
    }
}

// What low's disk and high's say.
fn pump_told(
    alloc: Global,
    row: &SessionRow,
    low: PlainDisk,
    high: PlainDisk,
) -> Result<PumpTold, CommandEnd>
    requires lawful { IsLawfulRow row.now }
    requires low { low.armed ≡ false }
    requires high { high.armed ≡ false }
    ensures told { IfOk result (λ told. HasPumpCounts row.now low.bytes high.bytes told.accepted told.removed) }
    ensures refused { IfErr result (RefusesPump row.now low.bytes high.bytes) }
{
    match check_pump(alloc, row, low, high) {
        Ok((low, high)) => Ok(PumpTold {
            accepted: first_number(low),
            removed: first_number(high),
        }),
        Err(end) => Err(end),
    }
}

// What the receiver's disk says, where it was read.
fn receiver_told(row: &SessionRow, disk: Option<PlainDisk>) -> Result<Option<u64>, CommandEnd>
    requires lawful { IsLawfulRow row.now }
    requires calm { IsCalm disk }
    ensures fine { IfOk result (λ received. refused_recv row.now (bytes_in disk) ≡ None) }
    ensures told { IfOk result (λ received. received ≡ count_in (bytes_in disk)) }
    ensures refused { IfErr result (RefusesRecv row.now (bytes_in disk)) }
{
    let Some(disk) = disk else {
        return Ok(None);
    };
    match open_receiver(disk, row, RECEIVER_SIZE) {
        Ok(receiver) => Ok(Some(receiver.count())),
        Err((_, why)) => Err(end_at(Role::Recv, &Some(why))),
    }
}

// What the disks say, each by itself.
fn disks_told(alloc: Global, row: &SessionRow, disks: ReadDisks) -> Result<Told, CommandEnd>
    requires lawful { IsLawfulRow row.now }
    requires low { disks.low.armed ≡ false }
    requires high { disks.high.armed ≡ false }
    requires recv { IsCalm disks.recv }
    ensures told { IfOk result (λ told. HasCounts row.now disks.low.bytes disks.high.bytes (bytes_in disks.recv)
        told.accepted told.removed told.received) }
    ensures refused { IfErr result (RefusesEach row.now disks.low.bytes disks.high.bytes (bytes_in disks.recv)) }
{
    let ReadDisks { low, high, recv } = disks;
    let pump = match pump_told(alloc, row, low, high) {
        Ok(pump) => pump,
        Err(end) => return Err(end),
    };
    match receiver_told(row, recv) {
        Ok(received) => Ok(Told {
            accepted: pump.accepted,
            removed: pump.removed,
            received,
        }),
        Err(end) => Err(end),
    }
}

// The receiver's disk, where its file can be read.
fn read_receiver<S: Shelf>(
    alloc: Global,
    shelf: &mut S,
    session: u32,
    room: &mut [u8],
) -> Result<Option<PlainDisk>, CommandEnd>
    requires { length room.old ≡ 16777216 }
    ensures read { IfOk result (λ disk. S.told.tells
        → IsReadOrNot (Rose (S.told.faults shelf.old) (S.told.faults shelf.new)) (disk_file (S.told.file shelf.old)
        session roles.Recv) (bytes_in disk)) }
    ensures calm { IfOk result IsCalm }
    ensures memory { IfErr result (λ end. end ≡ ends.Memory) }
    ensures room { length room.new ≡ length room.old }
    ensures disks { S.told.disk shelf.new ≡ S.told.disk shelf.old }
    ensures files { S.told.file shelf.new ≡ S.told.file shelf.old }
    ensures later { S.told.faults shelf.old ≤ S.told.faults shelf.new }
{
    match read_disk(alloc, shelf, session, Role::Recv, room) {
        Ok(disk) => Ok(Some(disk)),
        Err(CommandEnd::Failed { .. }) => Ok(None),
        Err(end) => Err(end),
    }
}

// What was removed was received before, and what was received was accepted: read in this order, no count
// is above the next one, whatever the relay does meanwhile.
fn read_over<S: Shelf>(
    alloc: Global,
    shelf: &mut S,
    session: u32,
    room: &mut [u8],
) -> Result<ReadDisks, CommandEnd>
    requires { length room.old ≡ 16777216 }
    ensures read { IfOk result (λ disks. S.told.tells
        → AreRead (disk_file (S.told.file shelf.old) session) (Rose (S.told.faults shelf.old) (S.told.faults shelf.new))
        disks.low.bytes disks.high.bytes (bytes_in disks.recv)) }
    ensures low { IfOk result (λ disks. disks.low.armed ≡ false) }
    ensures high { IfOk result (λ disks. disks.high.armed ≡ false) }
    ensures recv { IfOk result (λ disks. IsCalm disks.recv) }
    ensures stops { IfErr result (λ end. S.told.tells → StopsReading (disk_file (S.told.file shelf.old) session) end) }
    ensures only { IfErr result IsDiskEnd }
    ensures device { (role : DiskRole) → result ≡ Err (ends.Failed role)
        → Rose (S.told.faults shelf.old) (S.told.faults shelf.new) }
    ensures disks { S.told.disk shelf.new ≡ S.told.disk shelf.old }
{
    let high = read_disk(alloc, shelf, session, Role::High, room)?;
    let recv = read_receiver(alloc, shelf, session, room)?;
    let low = read_disk(alloc, shelf, session, Role::Low, room)?;
    Ok(ReadDisks { low, high, recv })
}

// The disks of a session as their files stand.
fn read_disks<S: Shelf>(alloc: Global, shelf: &mut S, session: u32) -> Result<ReadDisks, CommandEnd>
    ensures read { IfOk result (λ disks. S.told.tells
        → AreRead (disk_file (S.told.file shelf.old) session) (Rose (S.told.faults shelf.old) (S.told.faults shelf.new))
        disks.low.bytes disks.high.bytes (bytes_in disks.recv)) }
    ensures low { IfOk result (λ disks. disks.low.armed ≡ false) }
    ensures high { IfOk result (λ disks. disks.high.armed ≡ false) }
    ensures recv { IfOk result (λ disks. IsCalm disks.recv) }
    ensures stops { IfErr result (λ end. S.told.tells → StopsReading (disk_file (S.told.file shelf.old) session) end) }
    ensures only { IfErr result IsDiskEnd }
    ensures device { (role : DiskRole) → result ≡ Err (ends.Failed role)
        → Rose (S.told.faults shelf.old) (S.told.faults shelf.new) }
    ensures disks { S.told.disk shelf.new ≡ S.told.disk shelf.old }
{
    let Some(mut room) = file_room(alloc) else {
        return Err(CommandEnd::Memory);
    };
    read_over(alloc, shelf, session, room.as_mut_slice())
}

// What the disks of a session say, over its row.
fn row_told<S: Shelf>(
    alloc: Global,
    row: &SessionRow,
    session: u32,
    shelf: &mut S,
) -> Result<Told, CommandEnd>
    requires lawful { IsLawfulRow row.now }
    ensures told { IfOk result (λ told. S.told.tells
        → AreTold (disk_file (S.told.file shelf.old) session) (Rose (S.told.faults shelf.old) (S.told.faults shelf.new))
        row.now told.accepted told.removed told.received) }
    ensures stops { IfErr result (λ end. S.told.tells
        → StopsTelling (disk_file (S.told.file shelf.old) session) (Rose (S.told.faults shelf.old)
        (S.told.faults shelf.new)) row.now end) }
    ensures only { IfErr result IsDiskEnd }
    ensures device { (role : DiskRole) → result ≡ Err (ends.Failed role)
        → Rose (S.told.faults shelf.old) (S.told.faults shelf.new) }
    ensures disks { S.told.disk shelf.new ≡ S.told.disk shelf.old }
{
    match read_disks(alloc, shelf, session) {
        Ok(disks) => disks_told(alloc, row, disks),
        Err(end) => Err(end),
    }
}

// The line of a session of a row, before it is written.
fn row_text<S: Shelf>(
    alloc: Global,
    row: &SessionRow,
    session: u32,
    shelf: &mut S,
) -> Result<ArrayVec<u8, 256>, CommandEnd>
    requires lawful { IsLawfulRow row.now }
    ensures text { IfOk result (λ line. S.told.tells
        → ReadTo (disk_file (S.told.file shelf.old) session) (Rose (S.told.faults shelf.old) (S.told.faults shelf.new))
        (IsToldLine row.now session line.items)) }
    ensures stops { IfErr result (λ end. S.told.tells
        → StopsTelling (disk_file (S.told.file shelf.old) session) (Rose (S.told.faults shelf.old)
        (S.told.faults shelf.new)) row.now end) }
    ensures only { IfErr result IsDiskEnd }
    ensures device { (role : DiskRole) → result ≡ Err (ends.Failed role)
        → Rose (S.told.faults shelf.old) (S.told.faults shelf.new) }
    ensures disks { S.told.disk shelf.new ≡ S.told.disk shelf.old }
{
    match row_told(alloc, row, session, shelf) {
        Ok(told) => {
            let mut line = ArrayVec::new();
            put_status(&mut line, session, &told, row.capacity);
            Ok(line)
        }
        Err(end) => Err(end),
    }
}

// The line of a session, before it is written.
fn status_text<S: Shelf>(
    alloc: Global,
    table: &TableName,
    session: u32,
    shelf: &mut S,
) -> Result<ArrayVec<u8, 256>, CommandEnd>
    ensures text { IfOk result (λ line. S.told.tells
        → TellsStatus (S.told.file shelf.old table.now) (disk_file (S.told.file shelf.old) session)
        (Rose (S.told.faults shelf.old) (S.told.faults shelf.new)) session ends.Done line.items) }
    ensures stops { IfErr result (λ end. S.told.tells
        → TellsStatus (S.told.file shelf.old table.now) (disk_file (S.told.file shelf.old) session)
        (Rose (S.told.faults shelf.old) (S.told.faults shelf.new)) session end (end_line session end)) }
    ensures cause { IfErr result (HasEndCause IsSessionEnd
        (λ role. Rose (S.told.faults shelf.old) (S.told.faults shelf.new))
        (Rose (S.told.faults shelf.old) (S.told.faults shelf.new)) ⊥) }
    ensures disks { S.told.disk shelf.new ≡ S.told.disk shelf.old }
{
    match row_in_file(alloc, shelf, table.as_str(), session) {
        Ok(row) => row_text(alloc, &row, session, shelf),
        Err(end) => Err(end),
    }
}

/// Tells how many messages of a session of the table were accepted, removed and received, how many lie in
/// its relay, and how many may, as the files of its disks stand. No disk is taken off the shelf, and none
/// is changed.
pub fn tell_status<S: Shelf, O: Sink>(
    alloc: Global,
    table: &TableName,
    session: u32,
    shelf: &mut S,
    out: &mut O,
) -> CommandEnd
    ensures ends { S.told.tells → EndsSo (TellsStatus (S.told.file shelf.old table.now)
        (disk_file (S.told.file shelf.old) session) (Rose (S.told.faults shelf.old) (S.told.faults shelf.new)) session)
        (O.written out.old) (O.written out.new) result }
    ensures disks { S.told.disk shelf.new ≡ S.told.disk shelf.old }
    ensures cause { HasEndCause IsSessionEnd (λ role. Rose (S.told.faults shelf.old) (S.told.faults shelf.new))
        (Rose (S.told.faults shelf.old) (S.told.faults shelf.new)) (Rose (O.faults out.old) (O.faults out.new)) result }
{
    match status_text(alloc, table, session, shelf) {
        Ok(line) => close(line.as_slice(), CommandEnd::Done, out),
        Err(end) => write_end(session, end, out),
    }
}

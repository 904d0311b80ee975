//! What a session's disks stand for is written on the disks of another session.

ghost use Rattle.std.specs.Prelude.{◌≡◌, ◌≤◌, [], Bool, IfOk, IfErr, Err};
ghost use Rattle.disk_model.specs.Shelf.{IsOut};
ghost use Rattle.disk_model.specs.declared.name.Role.{Role as DiskRole};
ghost use Rattle.pump_frame.specs.Counts.{Rose};
ghost use Rattle.pump_frame.specs.Rows.{IsLawfulRow};
ghost use Rattle.script_replay.specs.Failing.{FailsAt};
ghost use Rattle.script_replay.specs.Lending.{AreOnShelf};
ghost use Rattle.script_replay.specs.Shelves.{disk_name, AllAreBack, ReadsAlike};
ghost use Rattle.command_ends.specs.Causes.{HasEndCause};
ghost use Rattle.command_ends.specs.CommandEnds.{EndsSo, IsSessionEnd};
ghost use Rattle.commands.specs.Formatting.{IsDiskEnd};
ghost use Rattle.command_ends.specs.Tables.{IsTableEnd};
ghost use Rattle.commands.specs.LentDisks.{LeavesOtherPair, StopsAtShelf};
ghost use Rattle.commands.specs.Migrating.{HasNoRows, AreRows, Migrates, MigratesTo, MovesTo, StopsMove, MigratesSo};
ghost use Rattle.commands.specs.Migrating.{HaltsSo, counted, counted_line, halted, session_at};
ghost use Rattle.commands.specs.TakenDisks.{AreReadAt, AreOutAt, RiseAt, CountOn, ReadOn, SpareOn};
ghost use Rattle.command_ends.specs.declared.command_end.CommandEnd.TheVariants as ends;
ghost use Rattle.command_ends.specs.declared.no_row.NoRow.{NoRow as NoRowCause};

use crate::format::untaken;
use crate::show::end_at;
use arrayvec::ArrayVec;
use command_ends::{CommandEnd, NoRow, close, put, put_number, row_in_file, write_end};
use command_line::TableName;
use disk_model::{Disk, Shelf};
use pump_frame::SessionRow;
use pump_link::Sink;
use recovery::{MoveFault, Trio, migrate};
use script_replay::{put_disks_back, take_disks};
use stable_buffer::RECEIVER_SIZE;
use std::alloc::Global;

/// The rows of the session and of the one that it is moved to.
#[derive(Drop)]
struct RowPair {
    row: SessionRow,
    new_row: SessionRow,
}

/// How many messages are accepted, removed, and taken by the receiver.
#[derive(Clone, Copy)]
pub struct Counts {
    accepted: u64,
    removed: u64,
    received: u64,
}

/// Why a session is not moved, and which of the two the fault line names.
#[derive(Clone, Copy)]
pub struct Halt {
    session: u32,
    end: CommandEnd,
}

/// The disks of the session, and those that it is moved to, off the shelf.
#[derive(Drop)]
struct BothDisks<D> {
    old: Trio<D>,
    new: Trio<D>,
}

/// The disks after a move, and how it ended.
#[derive(Drop)]
struct Moved<D> {
    old: Trio<D>,
    new: Trio<D>,
    end: Result<Counts, MoveFault>,
}

// The first table is read before the second one, and only rows that both are there are compared.
fn rows_in_files<S: Shelf>(
    alloc: Global,
    table: &TableName,
    session: u32,
    new_table: &TableName,
    new_session: u32,
    shelf: &mut S,
) -> Result<RowPair, CommandEnd>
    ensures rows { IfOk result (λ rows. S.told.tells
        → AreRows (S.told.file shelf.old table.now) (S.told.file shelf.old new_table.now) session new_session rows.row
        rows.new_row) }
    ensures none { (why : NoRowCause) → result ≡ Err (ends.NoRow why) → S.told.tells
        → HasNoRows (S.told.file shelf.old table.now) (S.told.file shelf.old new_table.now) session new_session why }
    ensures lawful { IfOk result (λ rows. IsLawfulRow rows.row × IsLawfulRow rows.new_row) }
    ensures ids { IfOk result (λ rows. (rows.row.id ≡ session) × (rows.new_row.id ≡ new_session)
        × (session ≡ new_session → ⊥)) }
    ensures read { result ≡ Err ends.Unread → Rose (S.told.faults shelf.old) (S.told.faults shelf.new) }
    ensures disks { S.told.disk shelf.new ≡ S.told.disk shelf.old }
    ensures disk_faults { S.told.disk_faults shelf.new ≡ S.told.disk_faults shelf.old }
    ensures only { IfErr result IsTableEnd }
{
    let row = row_in_file(alloc, shelf, table.as_str(), session)?;
    let new_row = row_in_file(alloc, shelf, new_table.as_str(), new_session)?;
    if session == new_session {
        return Err(CommandEnd::NoRow(NoRow::Same {
            session: new_session,
        }));
    }
    Ok(RowPair { row, new_row })
}

/// Takes the disks of both sessions off the shelf. Where those of the second can't be taken, those of the
/// first are put back.
fn take_both<S: Shelf>(
    shelf: &mut S,
    session: u32,
    new_session: u32,
) -> Result<BothDisks<S::Disk>, Halt>
    requires two { session ≡ new_session → ⊥ }
    ensures old { IfOk result (λ both. S.told.tells → AreReadAt S.Disk.told (S.told.disk shelf.old) session both.old) }
    ensures new { IfOk result (λ both. S.told.tells
        → AreReadAt S.Disk.told (S.told.disk shelf.old) new_session both.new) }
    ensures old_out { IfOk result (λ both. AreOutAt S.Disk.told (S.told.disk shelf.new) session both.old) }
    ensures new_out { IfOk result (λ both. AreOutAt S.Disk.told (S.told.disk shelf.new) new_session both.new) }
    ensures others { LeavesOtherPair (S.told.disk shelf.old) (S.told.disk shelf.new) session new_session }
    ensures alike { IfErr result (λ halt. S.told.tells → ReadsAlike (S.told.disk shelf.old) (S.told.disk shelf.new)) }
    ensures back { IfErr result (λ halt. S.told.tells → AllAreBack (S.told.disk shelf.old) (S.told.disk shelf.new)) }
    ensures untaken { IfErr result (λ halt. StopsAtShelf halt.end
        × ((is_new : Bool) × (halt.session ≡ session_at session new_session is_new))) }
    ensures later { S.told.disk_faults shelf.old ≤ S.told.disk_faults shelf.new }
    ensures device { IfErr result (λ halt. (role : DiskRole) → halt.end ≡ ends.Failed role
        → FailsAt S.told S.Disk.told shelf.old shelf.new halt.session role) }
{
    let old = match take_disks(shelf, session) {
        Ok(old) => old,
        Err(not_taken) => {
            return Err(Halt {
                session,
                end: untaken(not_taken),
            });
        }
    };
    match take_disks(shelf, new_session) {
        Ok(new) => Ok(BothDisks { old, new }),
        Err(not_taken) => {
            put_disks_back(shelf, session, old.low, old.high, old.recv);
            Err(Halt {
                session: new_session,
                end: untaken(not_taken),
            })
        }
    }
}

/// Puts the disks of both sessions back under their names.
fn put_both_back<S: Shelf>(
    shelf: &mut S,
    session: u32,
    new_session: u32,
    old: Trio<S::Disk>,
    new: Trio<S::Disk>,
)
    requires two { session ≡ new_session → ⊥ }
    requires old { (role : DiskRole) → IsOut (S.told.disk shelf.old (disk_name session role)) }
    requires new { (role : DiskRole) → IsOut (S.told.disk shelf.old (disk_name new_session role)) }
    ensures old_back { S.told.tells → AreOnShelf (S.told.disk shelf.new) session (S.Disk.told.reading old.low)
        (S.Disk.told.reading old.high) (S.Disk.told.reading old.recv) }
    ensures new_back { S.told.tells → AreOnShelf (S.told.disk shelf.new) new_session (S.Disk.told.reading new.low)
        (S.Disk.told.reading new.high) (S.Disk.told.reading new.recv) }
    ensures others { LeavesOtherPair (S.told.disk shelf.old) (S.told.disk shelf.new) session new_session }
    ensures old_rise { RiseAt S.Disk.told (S.told.disk shelf.old) session (S.told.disk_faults shelf.old)
        (S.told.disk_faults shelf.new) old }
    ensures new_rise { RiseAt S.Disk.told (S.told.disk shelf.old) new_session (S.told.disk_faults shelf.old)
        (S.told.disk_faults shelf.new) new }
    ensures later { S.told.disk_faults shelf.old ≤ S.told.disk_faults shelf.new }
{
    put_disks_back(shelf, session, old.low, old.high, old.recv);
    put_disks_back(shelf, new_session, new.low, new.high, new.recv);
}

fn counted(end: Result<(u64, u64, u64), MoveFault>) -> Result<Counts, MoveFault>
    ensures { result ≡ counted end }
{
    let (accepted, removed, received) = end?;
    Ok(Counts {
        accepted,
        removed,
        received,
    })
}

/// Moves what the first three disks stand for to the others.
fn move_disks<D: Disk>(
    row: &SessionRow,
    new_row: &SessionRow,
    old: Trio<D>,
    new: Trio<D>,
) -> Moved<D>
    requires lawful { IsLawfulRow row.now }
    requires new_lawful { IsLawfulRow new_row.now }
    ensures moved { IfOk result.end (λ counts. D.told.tells
        → MovesTo D.told row.now new_row.now old new result.new counts) }
    ensures stops { IfErr result.end (λ fault. StopsMove D.told row.now new_row.now old result.old new result.new
        fault) }
    ensures read { ReadOn D.told old result.old }
    ensures spared { SpareOn D.told new result.new }
    ensures counts { CountOn D.told old result.old }
    ensures new_counts { CountOn D.told new result.new }
{
    let moved = migrate(row, new_row, old, new, RECEIVER_SIZE);
    Moved {
        old: moved.old,
        new: moved.new,
        end: counted(moved.end),
    }
}

/// The end of a move, with the session that a fault line names.
fn halted(end: Result<Counts, MoveFault>, session: u32, new_session: u32) -> Result<Counts, Halt>
    ensures { result ≡ halted session new_session end }
{
    match end {
        Ok(counts) => Ok(counts),
        Err(fault) => Err(Halt {
            session: if fault.new { new_session } else { session },
            end: end_at(fault.role, &Some(fault.why)),
        }),
    }
}

fn migrate_disks<S: Shelf>(
    shelf: &mut S,
    row: &SessionRow,
    new_row: &SessionRow,
) -> Result<Counts, Halt>
    requires lawful { IsLawfulRow row.now }
    requires new_lawful { IsLawfulRow new_row.now }
    requires two { row.now.id ≡ new_row.now.id → ⊥ }
    ensures moved { IfOk result (λ counts. S.told.tells → S.Disk.told.tells
        → MigratesTo (S.told.disk shelf.old) (S.told.disk shelf.new) row.now new_row.now counts) }
    ensures stops { IfErr result (λ halt. S.told.tells → S.Disk.told.tells
        → HaltsSo (S.told.disk shelf.old) (S.told.disk shelf.new) row.now new_row.now halt) }
    ensures back { S.told.tells → AllAreBack (S.told.disk shelf.old) (S.told.disk shelf.new) }
    ensures device { IfErr result (λ halt. (role : DiskRole) → halt.end ≡ ends.Failed role
        → FailsAt S.told S.Disk.told shelf.old shelf.new halt.session role) }
    ensures only { IfErr result (λ halt. IsDiskEnd halt.end) }
{
    let both = take_both(shelf, row.id, new_row.id)?;
    let moved = move_disks(row, new_row, both.old, both.new);
    put_both_back(shelf, row.id, new_row.id, moved.old, moved.new);
    halted(moved.end, row.id, new_row.id)
}

fn migrate_rows<S: Shelf>(
    alloc: Global,
    table: &TableName,
    session: u32,
    new_table: &TableName,
    new_session: u32,
    shelf: &mut S,
) -> Result<Counts, Halt>
    ensures migrates { S.told.tells → S.Disk.told.tells
        → MigratesSo (S.told.file shelf.old table.now) (S.told.file shelf.old new_table.now)
        (S.told.disk shelf.old) (S.told.disk shelf.new) (FailsAt S.told S.Disk.told shelf.old shelf.new) session
        new_session result }
    ensures back { S.told.tells → AllAreBack (S.told.disk shelf.old) (S.told.disk shelf.new) }
    ensures cause { IfErr result (λ halt.
        HasEndCause IsSessionEnd (FailsAt S.told S.Disk.told shelf.old shelf.new halt.session)
        (Rose (S.told.faults shelf.old) (S.told.faults shelf.new)) ⊥ halt.end) }
{
    match rows_in_files(alloc, table, session, new_table, new_session, shelf) {
        Ok(rows) => migrate_disks(shelf, &rows.row, &rows.new_row),
        // The fault line of a table names no session of its own.
        Err(end) => Err(Halt { session, end }),
    }
}

fn put_migrated(session: u32, new_session: u32, counts: Counts, into: &mut ArrayVec<u8, 256>)
    requires { into.old.items ≡ [] }
    ensures { into.new.items ≡ counted_line session new_session counts }
{
    put(into, b"migrated");
    put_number(into, u64::from(session));
    put_number(into, u64::from(new_session));
    put_number(into, counts.accepted);
    put_number(into, counts.removed);
    put_number(into, counts.received);
    put(into, b"\n");
}

/// Writes what the disks of a session of the table stand for on the empty disks of a session of the new
/// table, and says so. No byte of the first three is changed, nothing is written before it is known that
/// all fits, and all six are back on the shelf at the return.
pub fn migrate_session<S: Shelf, O: Sink>(
    alloc: Global,
    table: &TableName,
    session: u32,
    new_table: &TableName,
    new_session: u32,
    shelf: &mut S,
    out: &mut O,
) -> CommandEnd
    ensures ends { S.told.tells → S.Disk.told.tells
        → EndsSo (Migrates (S.told.file shelf.old table.now) (S.told.file shelf.old new_table.now)
        (S.told.disk shelf.old) (S.told.disk shelf.new) (FailsAt S.told S.Disk.told shelf.old shelf.new) session
        new_session) (O.written out.old) (O.written out.new) result }
    ensures back { S.told.tells → AllAreBack (S.told.disk shelf.old) (S.told.disk shelf.new) }
    ensures cause { HasEndCause IsSessionEnd
        (λ role. Rose (S.told.disk_faults shelf.old) (S.told.disk_faults shelf.new))
        (Rose (S.told.faults shelf.old) (S.told.faults shelf.new)) (Rose (O.faults out.old) (O.faults out.new)) result }
{
    match migrate_rows(alloc, table, session, new_table, new_session, shelf) {
        Ok(counts) => {
            let mut line = ArrayVec::new();
            put_migrated(session, new_session, counts, &mut line);
            close(line.as_slice(), CommandEnd::Done, out)
        }
        Err(halt) => write_end(halt.session, halt.end, out),
    }
}

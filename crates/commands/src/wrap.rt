//! A file is sent over a session of the table.

ghost use Rattle.std.specs.Prelude.{◌≡◌, ◌⊎◌, ◌≤◌};
ghost use Rattle.pump_frame.specs.Counts.{Rose};
ghost use Rattle.pump_frame.specs.Rows.{IsLawfulRow};
ghost use Rattle.pump_wrapper.specs.Cutting.{Gave};
ghost use Rattle.script_replay.specs.Failing.{FailsAt};
ghost use Rattle.script_replay.specs.Shelves.{AllAreBack};
ghost use Rattle.commands.specs.Wrapping.{Wraps, WrapsAll, WrapsFrom, WrapsOn, end_of_stop, end_of_wrap, is_long};
ghost use Rattle.command_ends.specs.Causes.{HasEndCause};
ghost use Rattle.command_ends.specs.CommandEnds.{EndsSo, IsWrapEnd};
ghost use Rattle.command_ends.specs.declared.command_end.CommandEnd.TheVariants as ends;

use crate::format::untaken;
use crate::show::end_at;
use command_ends::{CommandEnd, NoRow, row_in_file, write_end};
use command_line::TableName;
use disk_model::Shelf;
use pump_frame::SessionRow;
use pump_link::{Sink, Source};
use pump_wrapper::{WrapEnd, wrap};
use recovery::Trio;
use script_replay::{put_disks_back, take_disks};
use std::alloc::Global;
use two_worlds::Stop;

// No line is refused where the disks tell what they hold.
fn end_of_stop(stop: Stop) -> CommandEnd
    ensures { result ≡ end_of_stop stop }
{
    match stop {
        Stop::Line => CommandEnd::BadLine { line: 0 },
        Stop::Device { role, .. } => CommandEnd::Failed { role },
        Stop::Full { end, length, size } => CommandEnd::Full { end, length, size },
        Stop::Disk { role, why } => CommandEnd::Refused { role, why },
    }
}

fn end_of_wrap(end: WrapEnd) -> CommandEnd
    ensures { result ≡ end_of_wrap end }
{
    match end {
        WrapEnd::Done { bytes, messages } => CommandEnd::Wrapped { bytes, messages },
        WrapEnd::Memory => CommandEnd::Memory,
        WrapEnd::Read => CommandEnd::Unread,
        WrapEnd::TooLong => CommandEnd::TooLong,
        WrapEnd::Differs { number } => CommandEnd::FileDiffers { number },
        WrapEnd::Refused { role, why } => end_at(role, &Some(why)),
        WrapEnd::Stopped(stop) => end_of_stop(stop),
    }
}

fn wrap_disks<S: Shelf, I: Source>(
    alloc: Global,
    row: &SessionRow,
    shelf: &mut S,
    file: &mut I,
) -> CommandEnd
    requires lawful { IsLawfulRow row.now }
    requires long { 9 ≤ row.now.message }
    ensures wraps { S.told.tells → S.Disk.told.tells
        → WrapsOn (S.told.disk shelf.old) (S.told.disk shelf.new) row.now (I.left file.old) (I.left file.new) result }
    ensures back { S.told.tells → AllAreBack (S.told.disk shelf.old) (S.told.disk shelf.new) }
    ensures gave { Gave 0 (I.left file.old) (I.left file.new) (is_long result) }
    ensures cause { HasEndCause IsWrapEnd (FailsAt S.told S.Disk.told shelf.old shelf.new row.now.id)
        (Rose (I.faults file.old) (I.faults file.new)) ⊥ result }
{
    let disks = match take_disks(shelf, row.id) {
        Ok(disks) => disks,
        Err(not_taken) => return untaken(not_taken),
    };
    let wrapped = wrap(alloc, row, disks, file);
    let Trio { low, high, recv } = wrapped.disks;
    put_disks_back(shelf, row.id, low, high, recv);
    end_of_wrap(wrapped.end)
}

fn wrap_row<S: Shelf, I: Source>(
    alloc: Global,
    row: &SessionRow,
    shelf: &mut S,
    file: &mut I,
) -> CommandEnd
    requires lawful { IsLawfulRow row.now }
    ensures wraps { S.told.tells → S.Disk.told.tells → WrapsFrom (S.told.disk shelf.old) (S.told.disk shelf.new) row.now
        (I.left file.old) (I.left file.new) result }
    ensures back { S.told.tells → AllAreBack (S.told.disk shelf.old) (S.told.disk shelf.new) }
    ensures gave { Gave 0 (I.left file.old) (I.left file.new) (is_long result) }
    ensures cause { HasEndCause IsWrapEnd (FailsAt S.told S.Disk.told shelf.old shelf.new row.now.id)
        (Rose (I.faults file.old) (I.faults file.new)) ⊥ result }
{
    if row.message < 9 {
        return CommandEnd::NoRow(NoRow::Short { session: row.id });
    }
    wrap_disks(alloc, row, shelf, file)
}

// Before its line is written.
fn wrap_in_table<S: Shelf, I: Source>(
    alloc: Global,
    table: &TableName,
    session: u32,
    shelf: &mut S,
    file: &mut I,
) -> CommandEnd
    ensures wraps { S.told.tells → S.Disk.told.tells
        → Wraps (S.told.faults shelf.old) (S.told.faults shelf.new) (S.told.file shelf.old table.now)
        (S.told.disk shelf.old) (S.told.disk shelf.new) session (I.left file.old) (I.left file.new) result }
    ensures back { S.told.tells → AllAreBack (S.told.disk shelf.old) (S.told.disk shelf.new) }
    ensures gave { Gave 0 (I.left file.old) (I.left file.new) (is_long result) }
    ensures cause { HasEndCause IsWrapEnd (FailsAt S.told S.Disk.told shelf.old shelf.new session)
        (Rose (S.told.faults shelf.old) (S.told.faults shelf.new) ⊎ Rose (I.faults file.old) (I.faults file.new))
        ⊥ result }
{
    match row_in_file(alloc, shelf, table.as_str(), session) {
        Ok(row) => wrap_row(alloc, &row, shelf, file),
        Err(end) => end,
    }
}

/// Sends a file over the pump of a session of the table, whose disks are back on the shelf at the return,
/// and says how many bytes and messages it has; or writes the fault. A file that was sent in part goes on
/// where it was, and the disks then still hold what they held, and only messages of the file behind it.
pub fn wrap_session<S: Shelf, I: Source, O: Sink>(
    alloc: Global,
    table: &TableName,
    session: u32,
    shelf: &mut S,
    file: &mut I,
    out: &mut O,
) -> CommandEnd
    ensures ends { S.told.tells → S.Disk.told.tells
        → EndsSo (WrapsAll (S.told.faults shelf.old) (S.told.faults shelf.new) (S.told.file shelf.old table.now)
        (S.told.disk shelf.old) (S.told.disk shelf.new) (FailsAt S.told S.Disk.told shelf.old shelf.new) session
        (I.left file.old) (I.left file.new)) (O.written out.old) (O.written out.new) result }
    ensures back { S.told.tells → AllAreBack (S.told.disk shelf.old) (S.told.disk shelf.new) }
    ensures gave { (result ≡ ends.Unwritten → ⊥) → Gave 0 (I.left file.old) (I.left file.new) (is_long result) }
    ensures cause { HasEndCause IsWrapEnd (FailsAt S.told S.Disk.told shelf.old shelf.new session)
        (Rose (S.told.faults shelf.old) (S.told.faults shelf.new) ⊎ Rose (I.faults file.old) (I.faults file.new))
        (Rose (O.faults out.old) (O.faults out.new)) result }
{
    let end = wrap_in_table(alloc, table, session, shelf, file);
    write_end(session, end, out)
}

//! The messages of a session are written as the file that they make up.

ghost use Rattle.std.specs.Prelude.{◌≡◌, ◌≤◌};
ghost use Rattle.disk_model.specs.declared.name.Role.{Role as DiskRole};
ghost use Rattle.disk_model.specs.declared.name.Role.TheVariants as roles;
ghost use Rattle.pump_frame.specs.Counts.{Rose};
ghost use Rattle.pump_frame.specs.Rows.{IsLawfulRow};
ghost use Rattle.script_replay.specs.Shelves.{AllAreBack, ReadsAlike, reading_at};
ghost use Rattle.commands.specs.LentDisks.{RecvFailsAt};
ghost use Rattle.commands.specs.Unwrapping.{Unwraps, UnwrapsFrom, UnwrapsOn, end_of_gather};
ghost use Rattle.command_ends.specs.Causes.{HasEndCause};
ghost use Rattle.command_ends.specs.CommandEnds.{IsUnwrapEnd};
ghost use Rattle.command_ends.specs.declared.command_end.CommandEnd.TheVariants as ends;

use crate::format::untaken;
use crate::show::end_at;
use command_ends::{CommandEnd, NoRow, row_in_file};
use command_line::TableName;
use disk_model::{Disk, Role, Shelf};
use pump_frame::SessionRow;
use pump_link::Sink;
use pump_wrapper::{GatherFault, Gathered, gather};
use recovery::open_receiver;
use script_replay::{put_disk_back, take_disk};
use stable_buffer::RECEIVER_SIZE;
use std::alloc::Global;

/// How writing a file ended, and the receiver's disk.
#[derive(Drop)]
struct Unwrapped<D> {
    end: CommandEnd,
    disk: D,
}

fn end_of_gather(gathered: Result<Gathered, GatherFault>) -> CommandEnd
    ensures { result ≡ end_of_gather gathered }
{
    match gathered {
        Ok(gathered) => {
            if gathered.whole {
                CommandEnd::Done
            } else {
                CommandEnd::PartOfFile
            }
        }
        Err(GatherFault::NotWrapped { number }) => CommandEnd::NotWrapped { number },
        Err(GatherFault::Device { .. }) => CommandEnd::Failed { role: Role::Recv },
        Err(GatherFault::Write) => CommandEnd::Unwritten,
    }
}

// Over the receiver's disk.
fn unwrap_on<D: Disk, O: Sink>(row: &SessionRow, disk: D, out: &mut O) -> Unwrapped<D>
    requires lawful { IsLawfulRow row.now }
    requires long { 9 ≤ row.now.message }
    ensures unwraps { D.told.tells → UnwrapsOn row.now (D.told.reading disk) (O.written out.old) (O.written out.new)
        result.end }
    ensures same { D.told.tells → D.told.reading result.disk ≡ D.told.reading disk }
    ensures device { (role : DiskRole) → result.end ≡ ends.Failed role
        → Rose (D.told.count disk) (D.told.count result.disk) }
    ensures role { (role : DiskRole) → result.end ≡ ends.Failed role → role ≡ roles.Recv }
    ensures only { IsUnwrapEnd result.end }
    ensures unread { result.end ≡ ends.Unread → ⊥ }
    ensures unwritten { result.end ≡ ends.Unwritten → Rose (O.faults out.old) (O.faults out.new) }
{
    match open_receiver(disk, row, RECEIVER_SIZE) {
        Ok(mut receiver) => {
            let gathered = gather(&mut receiver, out, row.message);
            Unwrapped {
                end: end_of_gather(gathered),
                disk: receiver.into_disk(),
            }
        }
        Err((disk, why)) => Unwrapped {
            end: end_at(Role::Recv, &Some(why)),
            disk,
        },
    }
}

// Over the row of the session.
fn unwrap_row<S: Shelf, O: Sink>(row: &SessionRow, shelf: &mut S, out: &mut O) -> CommandEnd
    requires lawful { IsLawfulRow row.now }
    ensures unwraps { S.told.tells → S.Disk.told.tells
        → UnwrapsFrom row.now (reading_at (S.told.disk shelf.old) row.now.id roles.Recv) (O.written out.old)
        (O.written out.new) result }
    ensures alike { S.told.tells → S.Disk.told.tells → ReadsAlike (S.told.disk shelf.old) (S.told.disk shelf.new) }
    ensures back { S.told.tells → AllAreBack (S.told.disk shelf.old) (S.told.disk shelf.new) }
    ensures cause { HasEndCause IsUnwrapEnd (RecvFailsAt S.told S.Disk.told shelf.old shelf.new row.now.id) ⊥
        (Rose (O.faults out.old) (O.faults out.new)) result }
{
    if row.message < 9 {
        return CommandEnd::NoRow(NoRow::Short { session: row.id });
    }
    let disk = match take_disk(shelf, row.id, Role::Recv) {
        Ok(disk) => disk,
        Err(not_taken) => return untaken(not_taken),
    };
    let unwrapped = unwrap_on(row, disk, out);
    put_disk_back(shelf, row.id, Role::Recv, unwrapped.disk);
    unwrapped.end
}

/// Writes the file that the messages with the receiver of a session of the table are, and nothing else.
/// The disk is not formatted, no byte of it is changed, and it is back on the shelf at the return.
pub fn unwrap_session<S: Shelf, O: Sink>(
    alloc: Global,
    table: &TableName,
    session: u32,
    shelf: &mut S,
    out: &mut O,
) -> CommandEnd
    ensures unwraps { S.told.tells → S.Disk.told.tells
        → Unwraps (S.told.file shelf.old table.now) (S.told.disk shelf.old) (S.told.disk shelf.new)
        (RecvFailsAt S.told S.Disk.told shelf.old shelf.new) session (O.written out.old) (O.written out.new) result }
    ensures back { S.told.tells → AllAreBack (S.told.disk shelf.old) (S.told.disk shelf.new) }
    ensures cause { HasEndCause IsUnwrapEnd (RecvFailsAt S.told S.Disk.told shelf.old shelf.new session)
        (Rose (S.told.faults shelf.old) (S.told.faults shelf.new)) (Rose (O.faults out.old) (O.faults out.new)) result }
{
    match row_in_file(alloc, shelf, table.as_str(), session) {
        Ok(row) => unwrap_row(&row, shelf, out),
        Err(end) => end,
    }
}

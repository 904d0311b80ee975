//! The three empty disks of a session are formatted.

ghost use Rattle.std.specs.Prelude.{◌≡◌, ◌≤◌, [], OnOk, IfErr, Err};
ghost use Rattle.disk_model.specs.Disk.{Moves, Same};
ghost use Rattle.disk_model.specs.declared.name.Role.{Role as DiskRole};
ghost use Rattle.pump_frame.specs.Counts.{Rose};
ghost use Rattle.pump_frame.specs.Rows.{IsLawfulRow};
ghost use Rattle.stable_buffer.specs.Format.{new_bytes};
ghost use Rattle.command_ends.specs.Causes.{HasEndCause};
ghost use Rattle.command_ends.specs.CommandEnds.{EndsSo, IsSessionEnd};
ghost use Rattle.commands.specs.Formatting.{IsFormatted, FormatStops, Formats, FormatsSo, IsDiskEnd, formatted_line};
ghost use Rattle.script_replay.specs.Failing.{FailsAt};
ghost use Rattle.script_replay.specs.Shelves.{AllAreBack};
ghost use Rattle.commands.specs.TakenDisks.{HasBytes, CountOn, ReadOn, IsNotEmpty, AreNotEmpty, FailsAmong};
ghost use Rattle.commands.specs.TakenDisks.{StopsFormat};
ghost use Rattle.command_ends.specs.declared.command_end.CommandEnd.TheVariants as ends;

use arrayvec::ArrayVec;
use command_ends::{CommandEnd, close, row_in_file, write_end};
use command_line::TableName;
use disk_model::{Disk, DiskFault, Role, Shelf, ShelfFault};
use pump_frame::SessionRow;
use pump_link::Sink;
use recovery::{Trio, Why};
use script_replay::{NotTaken, put_disks_back, take_disks};
use stable_buffer::format;
use std::alloc::Global;

// A disk that is not empty is refused.
fn check_empty<D: Disk>(disk: &mut D, role: Role) -> Result<(), CommandEnd>
    ensures empty { OnOk result (D.told.tells → D.told.reading disk.old ≡ []) }
    ensures moves { Moves D.told Same disk.old disk.new }
    ensures counts { D.told.count disk.old ≤ D.told.count disk.new }
    ensures stops { IfErr result (λ end. IsNotEmpty D.told role disk.old disk.new end) }
{
    match disk.size() {
        Ok(0) => Ok(()),
        Ok(size) => Err(CommandEnd::Refused {
            role,
            why: Why::NotEmpty { size },
        }),
        Err(DiskFault) => Err(CommandEnd::Failed { role }),
    }
}

// The sizes of all three are known before one of them is written.
fn check_all<D: Disk>(disks: &mut Trio<D>) -> Result<(), CommandEnd>
    ensures empty { OnOk result (HasBytes D.told (λ role. []) disks.old) }
    ensures read { ReadOn D.told disks.old disks.new }
    ensures counts { CountOn D.told disks.old disks.new }
    ensures stops { IfErr result (λ end. AreNotEmpty D.told disks.old disks.new end) }
{
    check_empty(&mut disks.low, Role::Low)?;
    check_empty(&mut disks.high, Role::High)?;
    check_empty(&mut disks.recv, Role::Recv)
}

fn format_disk<D: Disk>(disk: &mut D, row: &SessionRow, role: Role) -> Result<(), CommandEnd>
    requires empty { D.told.tells → D.told.reading disk.old ≡ [] }
    requires lawful { IsLawfulRow row.now }
    ensures new { OnOk result (D.told.tells → D.told.reading disk.new ≡ new_bytes row.now role 0) }
    ensures counts { D.told.count disk.old ≤ D.told.count disk.new }
    ensures stops { IfErr result (λ end. (end ≡ ends.Failed role)
        × Rose (D.told.count disk.old) (D.told.count disk.new)) }
{
    match format(disk, row, role, 0) {
        Ok(()) => Ok(()),
        Err(_) => Err(CommandEnd::Failed { role }),
    }
}

fn format_all<D: Disk>(disks: &mut Trio<D>, row: &SessionRow) -> Result<(), CommandEnd>
    requires empty { HasBytes D.told (λ role. []) disks.old }
    requires lawful { IsLawfulRow row.now }
    ensures new { OnOk result (HasBytes D.told (λ role. new_bytes row.now role 0) disks.new) }
    ensures counts { CountOn D.told disks.old disks.new }
    ensures stops { IfErr result (λ end. FailsAmong D.told disks.old disks.new end) }
{
    format_disk(&mut disks.low, row, Role::Low)?;
    format_disk(&mut disks.high, row, Role::High)?;
    format_disk(&mut disks.recv, row, Role::Recv)
}

fn format_taken<D: Disk>(disks: &mut Trio<D>, row: &SessionRow) -> Result<(), CommandEnd>
    requires lawful { IsLawfulRow row.now }
    ensures empty { OnOk result (HasBytes D.told (λ role. []) disks.old) }
    ensures new { OnOk result (HasBytes D.told (λ role. new_bytes row.now role 0) disks.new) }
    ensures counts { CountOn D.told disks.old disks.new }
    ensures stops { IfErr result (λ end. StopsFormat D.told disks.old disks.new end) }
{
    check_all(disks)?;
    format_all(disks, row)
}

/// The end of a command whose disks can't be taken off the shelf.
pub fn untaken(not_taken: NotTaken) -> CommandEnd
    ensures memory { not_taken.fault ≡ ShelfFault.Memory → result ≡ ends.Memory }
    ensures failed { not_taken.fault ≡ ShelfFault.Failed → result ≡ ends.Failed not_taken.role }
{
    match not_taken.fault {
        ShelfFault::Memory => CommandEnd::Memory,
        ShelfFault::Failed => CommandEnd::Failed {
            role: not_taken.role,
        },
    }
}

fn format_disks<S: Shelf>(shelf: &mut S, row: &SessionRow) -> Result<(), CommandEnd>
    requires lawful { IsLawfulRow row.now }
    ensures formatted { OnOk result (S.told.tells → S.Disk.told.tells
        → IsFormatted (S.told.disk shelf.old) (S.told.disk shelf.new) row.now) }
    ensures stops { IfErr result (λ end. S.told.tells → S.Disk.told.tells
        → FormatStops (S.told.disk shelf.old) (S.told.disk shelf.new) row.now end) }
    ensures back { S.told.tells → AllAreBack (S.told.disk shelf.old) (S.told.disk shelf.new) }
    ensures device { (role : DiskRole) → result ≡ Err (ends.Failed role)
        → FailsAt S.told S.Disk.told shelf.old shelf.new row.now.id role }
    ensures only { IfErr result IsDiskEnd }
{
    let mut disks = match take_disks(shelf, row.id) {
        Ok(disks) => disks,
        Err(not_taken) => return Err(untaken(not_taken)),
    };
    let formatted = format_taken(&mut disks, row);
    put_disks_back(shelf, row.id, disks.low, disks.high, disks.recv);
    formatted
}

fn format_row<S: Shelf>(
    alloc: Global,
    table: &TableName,
    session: u32,
    shelf: &mut S,
) -> Result<(), CommandEnd>
    ensures formats { S.told.tells → S.Disk.told.tells
        → FormatsSo (S.told.file shelf.old table.now) (S.told.disk shelf.old) (S.told.disk shelf.new)
        (FailsAt S.told S.Disk.told shelf.old shelf.new) session result }
    ensures back { S.told.tells → AllAreBack (S.told.disk shelf.old) (S.told.disk shelf.new) }
    ensures cause { IfErr result (HasEndCause IsSessionEnd (FailsAt S.told S.Disk.told shelf.old shelf.new session)
        (Rose (S.told.faults shelf.old) (S.told.faults shelf.new)) ⊥) }
{
    let row = match row_in_file(alloc, shelf, table.as_str(), session) {
        Ok(row) => row,
        Err(end) => return Err(end),
    };
    format_disks(shelf, &row)
}

fn put_formatted(session: u32, into: &mut ArrayVec<u8, 64>)
    requires { into.old.items ≡ [] }
    ensures { into.new.items ≡ formatted_line session }
{
    let mut number = itoa::Buffer::new();
    into.try_extend_from_slice(b"formatted ").unwrap();
    into.try_extend_from_slice(number.format(session).as_bytes())
        .unwrap();
    into.try_extend_from_slice(b"\n").unwrap();
}

/// Formats the three empty disks of a session of the table, and says so. All three sizes are known
/// before one is written, and the disks are back on the shelf at the return.
pub fn format_session<S: Shelf, O: Sink>(
    alloc: Global,
    table: &TableName,
    session: u32,
    shelf: &mut S,
    out: &mut O,
) -> CommandEnd
    ensures ends { S.told.tells → S.Disk.told.tells
        → EndsSo (Formats (S.told.file shelf.old table.now) (S.told.disk shelf.old) (S.told.disk shelf.new)
        (FailsAt S.told S.Disk.told shelf.old shelf.new) session) (O.written out.old) (O.written out.new) result }
    ensures back { S.told.tells → AllAreBack (S.told.disk shelf.old) (S.told.disk shelf.new) }
    ensures cause { HasEndCause IsSessionEnd
        (λ role. Rose (S.told.disk_faults shelf.old) (S.told.disk_faults shelf.new))
        (Rose (S.told.faults shelf.old) (S.told.faults shelf.new)) (Rose (O.faults out.old) (O.faults out.new)) result }
{
    match format_row(alloc, table, session, shelf) {
        Ok(()) => {
            let mut line = ArrayVec::new();
            put_formatted(session, &mut line);
            close(line.as_slice(), CommandEnd::Done, out)
        }
        Err(end) => write_end(session, end, out),
    }
}

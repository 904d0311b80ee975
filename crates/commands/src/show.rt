//! What the disks of a session stand for is shown.

ghost use Rattle.std.specs.Prelude.{◌≡◌, ◌≤◌, ◌+◌, ◌^◌, ◌++◌, length, OnOk, IfOk, IfErr, Err};
ghost use Rattle.disk_model.specs.declared.name.Role.{Role as DiskRole};
ghost use Rattle.pump_frame.specs.Counts.{Rose};
ghost use Rattle.pump_frame.specs.Rows.{IsLawfulRow};
ghost use Rattle.script_reader.specs.Transcript.{text, event_line};
ghost use Rattle.command_ends.specs.Causes.{HasEndCause};
ghost use Rattle.command_ends.specs.CommandEnds.{EndsSo, IsSessionEnd};
ghost use Rattle.commands.specs.Formatting.{IsDiskEnd};
ghost use Rattle.script_replay.specs.Failing.{FailsAt};
ghost use Rattle.script_replay.specs.Shelves.{AllAreBack};
ghost use Rattle.commands.specs.Showing.{live_messages, shown_counts, IsShown, ShowStops, Shows, ShowsSo, end_at};
ghost use Rattle.command_ends.specs.declared.command_end.CommandEnd.TheVariants as ends;

use crate::format::untaken;
use arrayvec::ArrayVec;
use command_ends::{CommandEnd, close, row_in_file, write_end};
use command_line::TableName;
use disk_model::{Role, Shelf};
use pump_frame::{Payload, SessionRow};
use pump_link::Sink;
use recovery::Why;
use script_reader::{Event, print_event};
use script_replay::{put_disks_back, take_disks};
use std::alloc::{AllocError, Global};
use two_worlds::survey_disks;

fn put_line(into: &mut Vec<u8>, event: &Event) -> Result<(), AllocError>
    ensures { OnOk result (into.new.items ≡ into.old.items ++ event_line event.now) }
{
    let mut line = ArrayVec::new();
    print_event(event, &mut line);
    into.extend_from_slice(line.as_slice())
}

fn put_all_live(
    into: &mut Vec<u8>,
    session: u32,
    first: u64,
    live: &[Payload],
) -> Result<(), AllocError>
    requires { first + length live.now ≤ 2 ^ 48 }
    ensures { OnOk result (into.new.items ≡ into.old.items ++ text (live_messages session first live.now)) }
{
    for (index, message) in live.iter().enumerate() {
        let event = Event::Live {
            session,
            number: first + index as u64,
            payload: *message,
        };
        put_line(into, &event)?;
    }
    Ok(())
}

// All that is shown, before any of it is written.
fn text_of(
    alloc: Global,
    session: u32,
    accepted: u64,
    removed: u64,
    received: u64,
    live: &[Payload],
) -> Result<Vec<u8>, CommandEnd>
    requires { removed + length live.now ≤ 2 ^ 48 }
    ensures text { IfOk result (λ shown. shown.items ≡ shown_counts session accepted removed received live.now) }
    ensures memory { IfErr result (λ end. end ≡ ends.Memory) }
{
    let mut shown = Vec::new(alloc);
    let counts = Event::Show {
        session,
        accepted,
        removed,
        received,
    };
    if put_line(&mut shown, &counts).is_err() {
        return Err(CommandEnd::Memory);
    }
    match put_all_live(&mut shown, session, removed, live) {
        Ok(()) => Ok(shown),
        Err(_) => Err(CommandEnd::Memory),
    }
}

/// The end of a command whose disk is refused, or want of memory.
pub fn end_at(role: Role, why: &Option<Why>) -> CommandEnd
    ensures { result ≡ end_at role why.now }
{
    match why {
        None => CommandEnd::Memory,
        Some(Why::Device { .. }) => CommandEnd::Failed { role },
        Some(why) => CommandEnd::Refused { role, why: *why },
    }
}

fn show_disks<S: Shelf>(
    alloc: Global,
    shelf: &mut S,
    row: &SessionRow,
) -> Result<Vec<u8>, CommandEnd>
    requires lawful { IsLawfulRow row.now }
    ensures shown { IfOk result (λ text. S.told.tells → S.Disk.told.tells
        → IsShown (S.told.disk shelf.old) (S.told.disk shelf.new) row.now text.items) }
    ensures stops { IfErr result (λ end. S.told.tells → S.Disk.told.tells
        → ShowStops (S.told.disk shelf.old) (S.told.disk shelf.new) row.now end) }
    ensures back { S.told.tells → AllAreBack (S.told.disk shelf.old) (S.told.disk shelf.new) }
    ensures device { (role : DiskRole) → result ≡ Err (ends.Failed role)
        → FailsAt S.told S.Disk.told shelf.old shelf.new row.now.id role }
    ensures only { IfErr result IsDiskEnd }
{
    let disks = match take_disks(shelf, row.id) {
        Ok(disks) => disks,
        Err(not_taken) => return Err(untaken(not_taken)),
    };
    match survey_disks(alloc, row, disks.low, disks.high, disks.recv) {
        Ok(found) => {
            let (accepted, removed, received) = (found.accepted, found.removed, found.received);
            let text = text_of(
                alloc,
                row.id,
                accepted,
                removed,
                received,
                found.live.as_slice(),
            );
            put_disks_back(shelf, row.id, found.low, found.high, found.recv);
            text
        }
        Err(refused) => {
            let end = end_at(refused.role, &refused.why);
            put_disks_back(shelf, row.id, refused.low, refused.high, refused.recv);
            Err(end)
        }
    }
}

fn show_row<S: Shelf>(
    alloc: Global,
    table: &TableName,
    session: u32,
    shelf: &mut S,
) -> Result<Vec<u8>, CommandEnd>
    ensures shows { S.told.tells → S.Disk.told.tells
        → ShowsSo (λ text. text.items) (S.told.file shelf.old table.now) (S.told.disk shelf.old) (S.told.disk shelf.new)
        (FailsAt S.told S.Disk.told shelf.old shelf.new) session result }
    ensures back { S.told.tells → AllAreBack (S.told.disk shelf.old) (S.told.disk shelf.new) }
    ensures cause { IfErr result (HasEndCause IsSessionEnd (FailsAt S.told S.Disk.told shelf.old shelf.new session)
        (Rose (S.told.faults shelf.old) (S.told.faults shelf.new)) ⊥) }
{
    let row = match row_in_file(alloc, shelf, table.as_str(), session) {
        Ok(row) => row,
        Err(end) => return Err(end),
    };
    show_disks(alloc, shelf, &row)
}

/// Shows what the disks of a session of the table stand for: the counts, and the messages that are
/// accepted and not removed. No disk is formatted and no byte of one is changed, and all of them are back
/// on the shelf at the return.
pub fn show_session<S: Shelf, O: Sink>(
    alloc: Global,
    table: &TableName,
    session: u32,
    shelf: &mut S,
    out: &mut O,
) -> CommandEnd
    ensures ends { S.told.tells → S.Disk.told.tells
        → EndsSo (Shows (S.told.file shelf.old table.now) (S.told.disk shelf.old) (S.told.disk shelf.new)
        (FailsAt S.told S.Disk.told shelf.old shelf.new) session) (O.written out.old) (O.written out.new) result }
    ensures back { S.told.tells → AllAreBack (S.told.disk shelf.old) (S.told.disk shelf.new) }
    ensures cause { HasEndCause IsSessionEnd
        (λ role. Rose (S.told.disk_faults shelf.old) (S.told.disk_faults shelf.new))
        (Rose (S.told.faults shelf.old) (S.told.faults shelf.new)) (Rose (O.faults out.old) (O.faults out.new)) result }
{
    match show_row(alloc, table, session, shelf) {
        Ok(text) => close(text.as_slice(), CommandEnd::Done, out),
        Err(end) => write_end(session, end, out),
    }
}

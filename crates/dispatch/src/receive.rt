//! High's receiver, over a link to the high port of a session of the table.

ghost use Rattle.std.specs.Prelude.{◌≡◌, ◌≤◌, []};
ghost use Rattle.std.specs.Io.KnownBytes.{Appends};
ghost use Rattle.disk_model.specs.declared.name.Role.TheVariants as roles;
ghost use Rattle.pump_frame.specs.Counts.{Rose};
ghost use Rattle.pump_frame.specs.Rows.{IsLawfulRow};
ghost use Rattle.script_replay.specs.Shelves.{AllAreBack, disk_name, reading_at};
ghost use Rattle.serving.specs.Doors.{links};
ghost use Rattle.commands.specs.LentDisks.{LeavesOtherDisks, RecvFailsAt};
ghost use Rattle.command_ends.specs.Causes.{IsCaused, HasStatusCause};
ghost use Rattle.command_ends.specs.CommandEnds.{EndsLive};
ghost use Rattle.dispatch.specs.Receptions.{end_of_receiver, ReceivesFor, ReceiveComes};

use command_ends::{CommandEnd, finish, row_in_file};
use command_line::TableName;
use commands::{end_at, untaken};
use disk_model::{Disk, Role, Shelf};
use peers::{ReceiveEnd, receive_with};
use pump_frame::SessionRow;
use pump_link::{Ports, Sink};
use recovery::open_receiver;
use script_replay::{put_disk_back, take_disk};
use stable_buffer::RECEIVER_SIZE;
use std::alloc::Global;

/// How receiving ended, and the receiver's disk.
#[derive(Drop)]
struct Received<D> {
    end: CommandEnd,
    disk: D,
}

fn end_of_receiver(end: ReceiveEnd) -> CommandEnd
    ensures { result ≡ end_of_receiver end }
{
    match end {
        ReceiveEnd::Ended | ReceiveEnd::Looks => CommandEnd::Done,
        ReceiveEnd::Write => CommandEnd::Unwritten,
        ReceiveEnd::Device { .. } => CommandEnd::Failed { role: Role::Recv },
        ReceiveEnd::Ahead { number, count } => CommandEnd::Ahead { number, count },
        ReceiveEnd::LogFull { end, length, size } => CommandEnd::Full { end, length, size },
    }
}

// Over the receiver's disk.
fn receive_on<P: Ports, D: Disk, O: Sink>(
    row: &SessionRow,
    looks: u32,
    ports: &mut P,
    disk: D,
    out: &mut O,
) -> Received<D>
    requires lawful { IsLawfulRow row.now }
    ensures receives { D.told.tells → ReceivesFor (links P.Link.gives P.Link.sent P.Link.faults) looks (P.did ports.old)
        (P.did ports.new) (O.written out.old) (O.faults out.old)
        (D.told.reading disk) (D.told.reading result.disk) row.now result.end (O.written out.new) (O.faults out.new) }
    ensures cause { IsCaused (record {
      memory = ⊥;
      read = ⊥;
      unwritten = Rose (O.faults out.old) (O.faults out.new);
      device = λ role. (role ≡ roles.Recv) × Rose (D.told.count disk) (D.told.count result.disk);
      link = Rose (P.faults ports.old) (P.faults ports.new);
    }) result.end }
    ensures later { O.faults out.old ≤ O.faults out.new }
{
    let mut receiver = match open_receiver(disk, row, RECEIVER_SIZE) {
        Ok(receiver) => receiver,
        Err((disk, why)) => {
            return Received {
                end: end_at(Role::Recv, &Some(why)),
                disk,
            };
        }
    };
    let mut link = match ports.connect(row.high_port) {
        Ok(link) => link,
        Err(_) => {
            return Received {
                end: CommandEnd::Unconnected,
                disk: receiver.into_disk(),
            };
        }
    };
    let end = receive_with(row, looks, &mut link, &mut receiver, out);
    ports.back(link);
    Received {
        end: end_of_receiver(end),
        disk: receiver.into_disk(),
    }
}

// Over the row of the session.
fn receive_row<S: Shelf, P: Ports, O: Sink>(
    row: &SessionRow,
    looks: u32,
    shelf: &mut S,
    ports: &mut P,
    out: &mut O,
) -> CommandEnd
    requires lawful { IsLawfulRow row.now }
    ensures receives { S.told.tells → S.Disk.told.tells
        → ReceivesFor (links P.Link.gives P.Link.sent P.Link.faults) looks (P.did ports.old) (P.did ports.new)
        (O.written out.old) (O.faults out.old)
        (reading_at (S.told.disk shelf.old) row.now.id roles.Recv) (reading_at (S.told.disk shelf.new) row.now.id
        roles.Recv) row.now result (O.written out.new) (O.faults out.new) }
    ensures others { LeavesOtherDisks (S.told.disk shelf.old) (S.told.disk shelf.new)
        (disk_name row.now.id roles.Recv) }
    ensures back { S.told.tells → AllAreBack (S.told.disk shelf.old) (S.told.disk shelf.new) }
    ensures cause { IsCaused (record {
      memory = Appends (O.written out.old) (O.written out.new) [];
      read = ⊥;
      unwritten = Rose (O.faults out.old) (O.faults out.new);
      device = RecvFailsAt S.told S.Disk.told shelf.old shelf.new row.now.id;
      link = Rose (P.faults ports.old) (P.faults ports.new);
    }) result }
    ensures later { O.faults out.old ≤ O.faults out.new }
{
    let disk = match take_disk(shelf, row.id, Role::Recv) {
        Ok(disk) => disk,
        Err(not_taken) => return untaken(not_taken),
    };
    let received = receive_on(row, looks, ports, disk, out);
    put_disk_back(shelf, row.id, Role::Recv, received.disk);
    received.end
}

/// Receives the messages of a session of the table, over a link to the high port of its row that the ports give, on
/// the receiver's disk, and prints them. The answer is the status of the program. The link goes back to the ports
/// and the disk to the shelf, and the disk is not formatted.
pub fn receive_session<S: Shelf, P: Ports, O: Sink>(
    alloc: Global,
    table: &TableName,
    session: u32,
    looks: u32,
    shelf: &mut S,
    ports: &mut P,
    out: &mut O,
) -> u8
    ensures ends { S.told.tells → S.Disk.told.tells
        → EndsLive (ReceiveComes (links P.Link.gives P.Link.sent P.Link.faults) looks (P.did ports.old)
        (P.did ports.new)
        (O.written out.old) (O.faults out.old) (S.told.file shelf.old table.now) (S.told.disk shelf.old)
        (S.told.disk shelf.new) (RecvFailsAt S.told S.Disk.told shelf.old shelf.new) session) (O.written out.new)
        (O.faults out.new) session result }
    ensures back { S.told.tells → AllAreBack (S.told.disk shelf.old) (S.told.disk shelf.new) }
    ensures cause { HasStatusCause (record {
      memory = Appends (O.written out.old) (O.written out.new) [];
      read = Rose (S.told.faults shelf.old) (S.told.faults shelf.new);
      unwritten = Rose (O.faults out.old) (O.faults out.new);
      device = λ role. Rose (S.told.disk_faults shelf.old) (S.told.disk_faults shelf.new);
      link = Rose (P.faults ports.old) (P.faults ports.new);
    }) ⊥ result }
{
    match row_in_file(alloc, shelf, table.as_str(), session) {
        Ok(row) => {
            let end = receive_row(&row, looks, shelf, ports, out);
            finish(session, end, out)
        }
        Err(end) => finish(session, end, out),
    }
}

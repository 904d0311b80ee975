//! Low's sender, over a link to the low port of a session of the table.

ghost use Rattle.std.specs.Prelude.{◌≡◌, ◌⊎◌, ◌≤◌, [], Err};
ghost use Rattle.std.specs.Io.KnownBytes.{Appends};
ghost use Rattle.pump_frame.specs.Counts.{Rose};
ghost use Rattle.serving.specs.Doors.{links};
ghost use Rattle.command_ends.specs.Causes.{IsCaused, HasStatusCause};
ghost use Rattle.command_ends.specs.CommandEnds.{EndsLive};
ghost use Rattle.dispatch.specs.Sendings.{end_of_sender, SendsFor, SendComes};

use command_ends::{CommandEnd, finish, row_in_file};
use command_line::TableName;
use disk_model::Shelf;
use peers::{SendEnd, send_with};
use pump_frame::SessionRow;
use pump_link::{Ports, Sink, Source};
use std::alloc::Global;

fn end_of_sender(end: SendEnd) -> CommandEnd
    ensures { result ≡ end_of_sender end }
{
    match end {
        SendEnd::Done => CommandEnd::Done,
        SendEnd::Read => CommandEnd::Unread,
        SendEnd::Write => CommandEnd::Unwritten,
        SendEnd::Script { line } => CommandEnd::BadLine { line },
        SendEnd::Refused { code, number } => CommandEnd::Denied { code, number },
        SendEnd::Unfinished { number } => CommandEnd::Unfinished { number },
    }
}

// Over the row of the session.
fn send_over<P: Ports, I: Source, O: Sink>(
    row: &SessionRow,
    looks: u32,
    ports: &mut P,
    script: &mut I,
    out: &mut O,
) -> CommandEnd
    ensures sends { SendsFor (links P.Link.gives P.Link.sent P.Link.faults) looks (P.did ports.old) (P.did ports.new)
        (I.left script.old) (I.left script.new) (I.faults script.old) (I.faults script.new)
        (O.written out.old) (O.faults out.old) row.now result (O.written out.new) (O.faults out.new) }
    ensures cause { IsCaused (record {
      memory = ⊥;
      read = Rose (I.faults script.old) (I.faults script.new);
      unwritten = Rose (O.faults out.old) (O.faults out.new);
      device = λ role. ⊥;
      link = Rose (P.faults ports.old) (P.faults ports.new);
    }) result }
    ensures later { O.faults out.old ≤ O.faults out.new }
{
    let mut link = match ports.connect(row.low_port) {
        Ok(link) => link,
        Err(_) => return CommandEnd::Unconnected,
    };
    let end = send_with(row, looks, &mut link, script, out);
    ports.back(link);
    end_of_sender(end)
}

/// Sends the messages of the script to a session of the table, over a link to the low port of its row that the
/// ports give, and prints each acknowledgement. The answer is the status of the program. The link goes back to the
/// ports, and no disk is touched.
pub fn send_session<S: Shelf, P: Ports, I: Source, O: Sink>(
    alloc: Global,
    table: &TableName,
    session: u32,
    looks: u32,
    shelf: &mut S,
    ports: &mut P,
    script: &mut I,
    out: &mut O,
) -> u8
    ensures ends { S.told.tells → EndsLive (SendComes (links P.Link.gives P.Link.sent P.Link.faults) looks
        (P.did ports.old) (P.did ports.new)
        (I.left script.old) (I.left script.new) (I.faults script.old) (I.faults script.new) (O.written out.old)
        (O.faults out.old) (S.told.file shelf.old table.now) (S.told.faults shelf.old) (S.told.faults shelf.new)
        session) (O.written out.new) (O.faults out.new) session result }
    ensures cause { HasStatusCause (record {
      memory = Appends (O.written out.old) (O.written out.new) [];
      read = Rose (S.told.faults shelf.old) (S.told.faults shelf.new)
          ⊎ Rose (I.faults script.old) (I.faults script.new);
      unwritten = Rose (O.faults out.old) (O.faults out.new);
      device = λ role. ⊥;
      link = Rose (P.faults ports.old) (P.faults ports.new);
    }) ⊥ result }
    ensures disks { S.told.disk shelf.new ≡ S.told.disk shelf.old }
{
    match row_in_file(alloc, shelf, table.as_str(), session) {
        Ok(row) => {
            let end = send_over(&row, looks, ports, script, out);
            finish(session, end, out)
        }
        Err(end) => finish(session, end, out),
    }
}

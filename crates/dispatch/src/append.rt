//! Low's sender of a stream, over links to the low port of a session of the table.

ghost use Rattle.std.specs.Prelude.{◌≡◌, ◌⊎◌, ◌≤◌, []};
ghost use Rattle.std.specs.Io.KnownBytes.{Appends};
ghost use Rattle.pump_frame.specs.Counts.{Rose};
ghost use Rattle.peers.specs.Appending.{link_tells};
ghost use Rattle.command_ends.specs.Causes.{HasStatusCause};
ghost use Rattle.dispatch.specs.Appendings.{end_of_appender, AppendsFor, AppendComes};
ghost use Rattle.command_ends.specs.CommandEnds.{EndsLive};

use command_ends::{CommandEnd, finish, row_in_file};
use command_line::TableName;
use disk_model::Shelf;
use peers::{AppendEnd, Appended, append_with, print_appended};
use pump_frame::SessionRow;
use pump_link::{Ports, Sink, Source};
use std::alloc::Global;

fn end_of_appender(appended: &Appended) -> CommandEnd
    ensures { result ≡ end_of_appender appended.now.end appended.now.lines appended.now.next }
{
    match appended.end {
        AppendEnd::Done => CommandEnd::Done,
        AppendEnd::Read => CommandEnd::Unread,
        AppendEnd::Write => CommandEnd::Unwritten,
        AppendEnd::Script => CommandEnd::BadLine {
            line: appended.lines.saturating_add(1),
        },
        AppendEnd::Refused { code, number } => CommandEnd::Denied { code, number },
        AppendEnd::Unfinished => CommandEnd::Unfinished {
            number: appended.next,
        },
        AppendEnd::Elsewhere { number } => CommandEnd::Ahead {
            number: appended.next,
            count: number,
        },
    }
}

// Over the row of the session. Behind the acknowledgements it prints how far the sender came, unless one of them
// could not be printed.
fn append_over<P: Ports, I: Source, O: Sink>(
    row: &SessionRow,
    looks: u32,
    ports: &mut P,
    script: &mut I,
    out: &mut O,
) -> CommandEnd
    ensures appends { AppendsFor (link_tells P.Link.gives P.Link.sent P.Link.faults) looks (P.did ports.old)
        (P.did ports.new) (I.left script.old) (I.left script.new) (I.faults script.old) (I.faults script.new)
        (O.written out.old) (O.faults out.old) row.now result (O.written out.new) (O.faults out.new) }
    ensures later { O.faults out.old ≤ O.faults out.new }
{
    let appended = append_with(row, looks, ports, script, out);
    match appended.end {
        AppendEnd::Write => CommandEnd::Unwritten,
        _ => {
            if print_appended(out, row.id, &appended) {
                end_of_appender(&appended)
            } else {
                CommandEnd::Unwritten
            }
        }
    }
}

/// Sends the lines of the script as new messages to a session of the table, over links to the low port of its row
/// that the ports give one after the other. It prints each acknowledgement, and at the end how many lines were
/// acknowledged and the number of the next message. The answer is the status of the program. Each link goes back
/// to the ports, and no disk is touched.
pub fn append_session<S: Shelf, P: Ports, I: Source, O: Sink>(
    alloc: Global,
    table: &TableName,
    session: u32,
    looks: u32,
    shelf: &mut S,
    ports: &mut P,
    script: &mut I,
    out: &mut O,
) -> u8
    ensures ends { S.told.tells → EndsLive (AppendComes (link_tells P.Link.gives P.Link.sent P.Link.faults) looks
        (P.did ports.old) (P.did ports.new)
        (I.left script.old) (I.left script.new) (I.faults script.old) (I.faults script.new) (O.written out.old)
        (O.faults out.old) (S.told.file shelf.old table.now) (S.told.faults shelf.old) (S.told.faults shelf.new)
        session) (O.written out.new) (O.faults out.new) session result }
    ensures cause { HasStatusCause (record {
      memory = Appends (O.written out.old) (O.written out.new) [];
      read = Rose (S.told.faults shelf.old) (S.told.faults shelf.new)
          ⊎ Rose (I.faults script.old) (I.faults script.new);
      unwritten = Rose (O.faults out.old) (O.faults out.new);
      device = λ role. ⊥;
      link = ⊥;
    }) ⊥ result }
    ensures disks { S.told.disk shelf.new ≡ S.told.disk shelf.old }
{
    match row_in_file(alloc, shelf, table.as_str(), session) {
        Ok(row) => {
            let end = append_over(&row, looks, ports, script, out);
            finish(session, end, out)
        }
        Err(end) => finish(session, end, out),
    }
}

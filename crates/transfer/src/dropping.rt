//! `drop`: Low's party, over a link to the low port of a session of the table, and a folder.

ghost use Rattle.std.specs.Prelude.{◌≡◌, ◌≤◌};
ghost use Rattle.pump_frame.specs.Counts.{Rose};
ghost use Rattle.pump_frame.specs.Rows.{IsLawfulRow};
ghost use Rattle.command_ends.specs.Causes.{HasStatusCause, IsTransferCaused};
ghost use Rattle.command_ends.specs.CommandEnds.{EndsLive};
ghost use Rattle.peers.specs.Appending.{link_tells};
ghost use Rattle.transfer.specs.Dropping.{DropComes, DropsFor, DropsIn, end_of_dropper, end_of_fault};
ghost use Rattle.transfer.specs.Ends.{causes};

use crate::errand::{Errand, LEAST_MESSAGE};
use command_ends::{CommandEnd, NoRow, finish, row_in_file};
use disk_model::Shelf;
use file_dropper::{DropFault, Dropper};
use file_peers::{DropEnd, drop_with};
use folders::{Folders, FoldersFault, Outbox};
use pump_frame::SessionRow;
use pump_link::{Ports, Sink};
use std::alloc::Global;

// The first number past those of messages.
const LIMIT: u64 = 1 << 48;

/// How dropping ended, and the folder.
#[derive(Drop)]
struct Dropped<O> {
    end: CommandEnd,
    outbox: O,
}

fn end_of_fault(fault: DropFault) -> CommandEnd
    ensures { result ≡ end_of_fault fault }
{
    match fault {
        DropFault::Folder => CommandEnd::Folder,
        DropFault::Marks => CommandEnd::Marks,
        DropFault::Step { start, accepted } => CommandEnd::Step { start, accepted },
        DropFault::TooLong => CommandEnd::TooLong,
        DropFault::Full => CommandEnd::Unfinished { number: LIMIT },
    }
}

fn end_of_dropper(end: DropEnd) -> CommandEnd
    ensures { result ≡ end_of_dropper end }
{
    match end {
        DropEnd::Ended | DropEnd::Looks => CommandEnd::Done,
        DropEnd::Write => CommandEnd::Unwritten,
        DropEnd::Refused { code, number } => { CommandEnd::Denied { code, number } }
        DropEnd::Unfinished { number } => CommandEnd::Unfinished { number },
        DropEnd::Failed(fault) => end_of_fault(fault),
    }
}

// Out of the folder.
fn drop_in<P: Ports, F: Outbox, O: Sink>(
    row: &SessionRow,
    looks: u32,
    ports: &mut P,
    outbox: F,
    out: &mut O,
) -> Dropped<F>
    requires least { 138 ≤ row.now.message }
    requires greatest { row.now.message ≤ 1024 }
    ensures drops { DropsIn (link_tells P.Link.gives P.Link.sent P.Link.faults) F.told F.File.left F.File.faults looks
        (P.did ports.old) (P.did ports.new) (O.written out.old) (O.faults out.old) row.now outbox result.outbox
        result.end (O.written out.new) (O.faults out.new) }
    ensures cause { IsTransferCaused (causes ⊥ (O.written out.old) (O.written out.new) (O.faults out.old)
        (O.faults out.new) (P.faults ports.old) (P.faults ports.new)) result.end }
    ensures later { O.faults out.old ≤ O.faults out.new }
{
    let mut link = match ports.connect(row.low_port) {
        Ok(link) => link,
        Err(_) => {
            return Dropped {
                end: CommandEnd::Unconnected,
                outbox,
            };
        }
    };
    let mut dropper = Dropper::open(outbox, row);
    let end = drop_with(row, looks, &mut link, &mut dropper, out);
    ports.back(link);
    Dropped {
        end: end_of_dropper(end),
        outbox: dropper.close(),
    }
}

// With the row of the session.
fn drop_for<F: Folders, P: Ports, O: Sink>(
    row: &SessionRow,
    errand: &Errand<'_>,
    folders: &mut F,
    ports: &mut P,
    out: &mut O,
) -> CommandEnd
    requires { IsLawfulRow row.now }
    ensures drops { DropsFor (link_tells P.Link.gives P.Link.sent P.Link.faults) F.Outbox.told F.Outbox.File.left
        F.Outbox.File.faults errand.now.looks (P.did ports.old) (P.did ports.new) (O.written out.old)
        (O.faults out.old) (F.did folders.old) (F.did folders.new) errand.now.folder.now row.now result
        (O.written out.new) (O.faults out.new) }
    ensures cause { IsTransferCaused (causes ⊥ (O.written out.old) (O.written out.new) (O.faults out.old)
        (O.faults out.new) (P.faults ports.old) (P.faults ports.new)) result }
    ensures later { O.faults out.old ≤ O.faults out.new }
{
    if row.message < LEAST_MESSAGE {
        return CommandEnd::NoRow(NoRow::Short { session: row.id });
    }
    let outbox = match folders.outbox(errand.folder.as_str(), row.id) {
        Ok(outbox) => outbox,
        Err(FoldersFault) => return CommandEnd::Folder,
    };
    let dropped = drop_in(row, errand.looks, ports, outbox, out);
    folders.outbox_back(dropped.outbox);
    dropped.end
}

// Comes to its end, before the last line is written.
fn run_drop<S: Shelf, F: Folders, P: Ports, O: Sink>(
    alloc: Global,
    errand: &Errand<'_>,
    shelf: &mut S,
    folders: &mut F,
    ports: &mut P,
    out: &mut O,
) -> CommandEnd
    ensures comes { S.told.tells → DropComes (link_tells P.Link.gives P.Link.sent P.Link.faults) F.Outbox.told
        F.Outbox.File.left F.Outbox.File.faults errand.now.looks (P.did ports.old) (P.did ports.new)
        (O.written out.old) (O.faults out.old) (F.did folders.old) (F.did folders.new) errand.now.folder.now
        (S.told.file shelf.old errand.now.table.now) (S.told.faults shelf.old) (S.told.faults shelf.new)
        errand.now.session result (O.written out.new) (O.faults out.new) }
    ensures cause { IsTransferCaused (causes (Rose (S.told.faults shelf.old) (S.told.faults shelf.new))
        (O.written out.old) (O.written out.new) (O.faults out.old) (O.faults out.new) (P.faults ports.old)
        (P.faults ports.new)) result }
    ensures disks { S.told.disk shelf.new ≡ S.told.disk shelf.old }
    ensures later { O.faults out.old ≤ O.faults out.new }
{
    match row_in_file(alloc, shelf, errand.table.as_str(), errand.session) {
        Ok(row) => drop_for(&row, errand, folders, ports, out),
        Err(end) => end,
    }
}

/// Sends the files of a folder over a session of the table, as the party Low: over a link to the low port of
/// its row that the ports give, until all looks are made or the link ends. It prints a line for each file
/// that was sent whole, which is removed then, and for each that changed meanwhile. The answer is the status
/// of the program. The link goes back to the ports, and the folder to the folders.
pub fn drop_files<S: Shelf, F: Folders, P: Ports, O: Sink>(
    alloc: Global,
    errand: &Errand<'_>,
    shelf: &mut S,
    folders: &mut F,
    ports: &mut P,
    out: &mut O,
) -> u8
    ensures ends { S.told.tells → EndsLive (DropComes (link_tells P.Link.gives P.Link.sent P.Link.faults)
        F.Outbox.told F.Outbox.File.left F.Outbox.File.faults errand.now.looks (P.did ports.old) (P.did ports.new)
        (O.written out.old) (O.faults out.old) (F.did folders.old) (F.did folders.new) errand.now.folder.now
        (S.told.file shelf.old errand.now.table.now) (S.told.faults shelf.old) (S.told.faults shelf.new)
        errand.now.session) (O.written out.new) (O.faults out.new) errand.now.session result }
    ensures cause { HasStatusCause (causes (Rose (S.told.faults shelf.old) (S.told.faults shelf.new))
        (O.written out.old) (O.written out.new) (O.faults out.old) (O.faults out.new) (P.faults ports.old)
        (P.faults ports.new)) ⊥ result }
    ensures disks { S.told.disk shelf.new ≡ S.told.disk shelf.old }
{
    let end = run_drop(alloc, errand, shelf, folders, ports, out);
    finish(errand.session, end, out)
}

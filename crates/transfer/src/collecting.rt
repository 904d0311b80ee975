//! `collect`: High's party, over a link to the high port of a session of the table, and a folder.

ghost use Rattle.std.specs.Prelude.{◌≡◌, ◌≤◌, ◌∷◌, ◌++◌, [], false, codes, decimal, option_copied};
ghost use Rattle.pump_frame.specs.Counts.{Rose};
ghost use Rattle.pump_frame.specs.Rows.{IsLawfulRow};
ghost use Rattle.command_ends.specs.Causes.{HasStatusCause, IsTransferCaused};
ghost use Rattle.command_ends.specs.CommandEnds.{EndsLive};
ghost use Rattle.peers.specs.Appending.{link_tells};
ghost use Rattle.peers.specs.Outputs.{PrintsPart};
ghost use Rattle.file_collector.specs.Collecting.{IsCollecting, taken_count};
ghost use Rattle.file_collector.specs.declared.collector.Collector.{Collector as Collecting};
ghost use Rattle.transfer.specs.Collecting.{CollectComes, CollectsFor, CollectsIn, CollectsOver, end_of_collector};
ghost use Rattle.transfer.specs.Collecting.{end_of_opening, lost_line};
ghost use Rattle.transfer.specs.Ends.{causes};

use crate::errand::{Errand, LEAST_MESSAGE};
use arrayvec::ArrayVec;
use command_ends::{CommandEnd, NoRow, finish, put, put_number, row_in_file};
use command_line::TableName;
use disk_model::Shelf;
use file_collector::{CollectFault, Collector};
use file_messages::FileName;
use file_peers::{CollectEnd, collect_with};
use folders::{Folders, FoldersFault, Inbox};
use peers::print;
use pump_frame::SessionRow;
use pump_link::{Ports, Sink};
use std::alloc::Global;

/// How collecting ended, and the folder.
#[derive(Drop)]
struct Collected<I> {
    end: CommandEnd,
    inbox: I,
}

fn end_of_collector(end: CollectEnd) -> CommandEnd
    ensures { result ≡ end_of_collector end }
{
    match end {
        CollectEnd::Ended | CollectEnd::Looks => CommandEnd::Done,
        CollectEnd::Write => CommandEnd::Unwritten,
        CollectEnd::Folder { .. } | CollectEnd::Device { .. } => CommandEnd::Folder,
        CollectEnd::NameTaken { number } => CommandEnd::NameTaken { number },
        CollectEnd::Ahead { number, count } => { CommandEnd::Ahead { number, count } }
    }
}

fn end_of_opening(fault: CollectFault) -> CommandEnd
    ensures { result ≡ end_of_opening fault }
{
    match fault {
        CollectFault::Folder { .. } | CollectFault::Register { .. } => CommandEnd::Folder,
        CollectFault::Other | CollectFault::Damaged => CommandEnd::Register,
    }
}

// The line that tells of a file whose part was lost.
fn put_lost(session: u32, count: u64, name: &FileName, into: &mut ArrayVec<u8, 256>)
    requires { into.old.items ≡ [] }
    ensures { into.new.items ≡ codes "dropped" ++ 32 ∷ decimal session ++ 32 ∷ decimal count ++ codes " lost "
        ++ name.now ++ 10 ∷ [] }
{
    put(into, b"dropped");
    put_number(into, u64::from(session));
    put_number(into, count);
    put(into, b" lost ");
    put(into, name.as_slice());
    put(into, b"\n");
}

// Tells of a file whose part was lost, if there is one, and says whether the line was written whole.
fn tell_lost<O: Sink>(session: u32, count: u64, lost: Option<&FileName>, out: &mut O) -> bool
    ensures printed { PrintsPart (O.written out.old) (O.written out.new) result
        (lost_line session count (option_copied lost.entry)) }
    ensures later { O.faults out.old ≤ O.faults out.new }
    ensures failed { result ≡ false → Rose (O.faults out.old) (O.faults out.new) }
{
    let mut line = ArrayVec::new();
    if let Some(name) = lost {
        put_lost(session, count, name, &mut line);
    }
    print(out, line.as_slice())
}

// The folder of a collector that has come to this end.
fn closed<I: Inbox>(end: CommandEnd, collector: Collector<I>) -> Collected<I>
where
    I::Disk: Drop,
    ensures end { result.end ≡ end }
    ensures inbox { result.inbox ≡ collector.gatherer.inbox }
{
    let (inbox, _, _) = collector.into_parts();
    Collected { end, inbox }
}

// Over a collector that is open.
fn collect_over<P: Ports, I: Inbox, O: Sink>(
    row: &SessionRow,
    looks: u32,
    ports: &mut P,
    mut collector: Collector<I>,
    out: &mut O,
) -> Collected<I>
where
    I::Disk: Drop,
    requires { IsCollecting I.told I.Disk.told collector }
    ensures collects { (now : Collecting I I.Disk)
        × (result.inbox ≡ now.gatherer.inbox)
        × CollectsOver (link_tells P.Link.gives P.Link.sent P.Link.faults) I.told I.Disk.told looks
        (P.did ports.old) (P.did ports.new) (O.written out.old) (O.faults out.old) row.now collector now result.end
        (O.written out.new) (O.faults out.new) }
    ensures cause { IsTransferCaused (causes ⊥ (O.written out.old) (O.written out.new) (O.faults out.old)
        (O.faults out.new) (P.faults ports.old) (P.faults ports.new)) result.end }
    ensures later { O.faults out.old ≤ O.faults out.new }
{
    if !tell_lost(row.id, collector.taken(), collector.lost(), out) {
        return closed(CommandEnd::Unwritten, collector);
    }
    let mut link = match ports.connect(row.high_port) {
        Ok(link) => link,
        Err(_) => return closed(CommandEnd::Unconnected, collector),
    };
    let end = collect_with(row, looks, &mut link, &mut collector, out);
    ports.back(link);
    closed(end_of_collector(end), collector)
}

// In the folder.
fn collect_in<P: Ports, I: Inbox, O: Sink>(
    row: &SessionRow,
    looks: u32,
    ports: &mut P,
    inbox: I,
    out: &mut O,
) -> Collected<I>
where
    I::Disk: Drop,
    ensures collects { CollectsIn (link_tells P.Link.gives P.Link.sent P.Link.faults) I.told I.Disk.told looks
        (P.did ports.old) (P.did ports.new) (O.written out.old) (O.faults out.old) row.now inbox result.inbox
        result.end (O.written out.new) (O.faults out.new) }
    ensures cause { IsTransferCaused (causes ⊥ (O.written out.old) (O.written out.new) (O.faults out.old)
        (O.faults out.new) (P.faults ports.old) (P.faults ports.new)) result.end }
    ensures later { O.faults out.old ≤ O.faults out.new }
{
    match Collector::open(inbox) {
        Ok(collector) => collect_over(row, looks, ports, collector, out),
        Err((inbox, fault)) => Collected {
            end: end_of_opening(fault),
            inbox,
        },
    }
}

// With the row of the session.
fn collect_for<F: Folders, P: Ports, O: Sink>(
    row: &SessionRow,
    errand: &Errand<'_>,
    folders: &mut F,
    ports: &mut P,
    out: &mut O,
) -> CommandEnd
where
    <F::Inbox as Inbox>::Disk: Drop,
    ensures collects { CollectsFor (link_tells P.Link.gives P.Link.sent P.Link.faults) F.Inbox.told
        F.Inbox.Disk.told errand.now.looks (P.did ports.old) (P.did ports.new) (O.written out.old) (O.faults out.old)
        (F.did folders.old) (F.did folders.new) errand.now.folder.now row.now result (O.written out.new)
        (O.faults out.new) }
    ensures cause { IsTransferCaused (causes ⊥ (O.written out.old) (O.written out.new) (O.faults out.old)
        (O.faults out.new) (P.faults ports.old) (P.faults ports.new)) result }
    ensures later { O.faults out.old ≤ O.faults out.new }
{
    if row.message < LEAST_MESSAGE {
        return CommandEnd::NoRow(NoRow::Short { session: row.id });
    }
    let inbox = match folders.inbox(errand.folder.as_str(), row.id) {
        Ok(inbox) => inbox,
        Err(FoldersFault) => return CommandEnd::Folder,
    };
    let collected = collect_in(row, errand.looks, ports, inbox, out);
    folders.inbox_back(collected.inbox);
    collected.end
}

// Comes to its end, before the last line is written.
fn run_collect<S: Shelf, F: Folders, P: Ports, O: Sink>(
    alloc: Global,
    errand: &Errand<'_>,
    shelf: &mut S,
    folders: &mut F,
    ports: &mut P,
    out: &mut O,
) -> CommandEnd
where
    <F::Inbox as Inbox>::Disk: Drop,
    ensures comes { S.told.tells → CollectComes (link_tells P.Link.gives P.Link.sent P.Link.faults) F.Inbox.told
        F.Inbox.Disk.told errand.now.looks (P.did ports.old) (P.did ports.new) (O.written out.old) (O.faults out.old)
        (F.did folders.old) (F.did folders.new) errand.now.folder.now
        (S.told.file shelf.old errand.now.table.now) (S.told.faults shelf.old) (S.told.faults shelf.new)
        errand.now.session result (O.written out.new) (O.faults out.new) }
    ensures cause { IsTransferCaused (causes (Rose (S.told.faults shelf.old) (S.told.faults shelf.new))
        (O.written out.old) (O.written out.new) (O.faults out.old) (O.faults out.new) (P.faults ports.old)
        (P.faults ports.new)) result }
    ensures disks { S.told.disk shelf.new ≡ S.told.disk shelf.old }
    ensures later { O.faults out.old ≤ O.faults out.new }
{
    match row_in_file(alloc, shelf, errand.table.as_str(), errand.session) {
        Ok(row) => collect_for(&row, errand, folders, ports, out),
        Err(end) => end,
    }
}

/// Puts the files that come over a session of the table into a folder, as the party High: over a link to the
/// high port of its row that the ports give, until all looks are made or the link ends. It prints a line for
/// each file. The answer is the status of the program. The link goes back to the ports, and the folder to the
/// folders.
pub fn collect_files<S: Shelf, F: Folders, P: Ports, O: Sink>(
    alloc: Global,
    errand: &Errand<'_>,
    shelf: &mut S,
    folders: &mut F,
    ports: &mut P,
    out: &mut O,
) -> u8
where
    <F::Inbox as Inbox>::Disk: Drop,
    ensures ends { S.told.tells → EndsLive (CollectComes (link_tells P.Link.gives P.Link.sent P.Link.faults)
        F.Inbox.told F.Inbox.Disk.told errand.now.looks (P.did ports.old) (P.did ports.new) (O.written out.old)
        (O.faults out.old) (F.did folders.old) (F.did folders.new) errand.now.folder.now
        (S.told.file shelf.old errand.now.table.now) (S.told.faults shelf.old) (S.told.faults shelf.new)
        errand.now.session) (O.written out.new) (O.faults out.new) errand.now.session result }
    ensures cause { HasStatusCause (causes (Rose (S.told.faults shelf.old) (S.told.faults shelf.new))
        (O.written out.old) (O.written out.new) (O.faults out.old) (O.faults out.new) (P.faults ports.old)
        (P.faults ports.new)) ⊥ result }
    ensures disks { S.told.disk shelf.new ≡ S.told.disk shelf.old }
{
    let end = run_collect(alloc, errand, shelf, folders, ports, out);
    finish(errand.session, end, out)
}

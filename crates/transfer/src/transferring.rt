//! The command that the words are.

ghost use Rattle.std.specs.Prelude.{◌≡◌, ℕ, List, map, string_bytes};
ghost use Rattle.pump_frame.specs.Counts.{Rose};
ghost use Rattle.command_line.specs.Commands.{AreWordsOf};
ghost use Rattle.command_line.specs.declared.command.Command.TheVariants as commands;
ghost use Rattle.command_ends.specs.Causes.{HasStatusCause};
ghost use Rattle.command_ends.specs.CommandEnds.{EndsLive, RefusesWords};
ghost use Rattle.peers.specs.Appending.{link_tells};
ghost use Rattle.transfer.specs.Commands.{IsNoTransfer};
ghost use Rattle.transfer.specs.Collecting.{CollectComes};
ghost use Rattle.transfer.specs.Dropping.{DropComes};
ghost use Rattle.transfer.specs.Ends.{causes};

use crate::collecting::collect_files;
use crate::dropping::drop_files;
use crate::errand::Errand;
use command_ends::refuse_words;
use command_line::{Command, WordsFault, command_of};
use disk_model::Shelf;
use folders::{Folders, Inbox};
use pump_link::{Ports, Sink};
use std::alloc::Global;

/// Runs the command that carries files from folder to folder that the words are. The answer is the status of
/// the program:
///
/// - 0: all looks were made, or the link ended while no answer was awaited.
/// - 1: there was not enough memory; nothing was written.
/// - 2: the words are no such command, which is what the output says.
/// - 3: the file of the table could not be read.
/// - 4: the output could not be written; a prefix of what is to be written was.
/// - 6: the file of the table gives no row for the session, or one with messages of fewer than 138 bytes.
/// - 7: the folder was not given, a call on it failed, or a file that is whole has no name left.
/// - 8: `drop`: more than one file is marked. `collect`: the register in the folder is none, or is damaged.
/// - 9: nobody listens at the port.
/// - 10: `collect`: the relay sent a message that is ahead of those taken.
/// - 11: `drop`: the relay refused a frame.
/// - 12: `drop`: a message was sent, and its acknowledgement did not come.
/// - 13: `drop`: the relay has so many messages as the sending of the marked file can't have come to.
/// - 14: `drop`: a file has 2^48 bytes or more.
///
/// `drop` calls at the low port of the row, and `collect` at the high one, over the same ports. Links go back
/// to the ports, and folders to the folders. `DropComes` and `CollectComes` say where the shelf tells what the
/// party did over the link that came, and what became of the folder. `docs/formats.md` has the lines.
pub fn transfer<S: Shelf, F: Folders, P: Ports, O: Sink>(
    alloc: Global,
    words: &Vec<String>,
    shelf: &mut S,
    folders: &mut F,
    ports: &mut P,
    out: &mut O,
) -> u8
where
    <F::Inbox as Inbox>::Disk: Drop,
    // Words that are no such command: nothing is touched.
    ensures untouched { IsNoTransfer (map string_bytes words.now.items) → (shelf.new ≡ shelf.old)
        × (folders.new ≡ folders.old) × (ports.new ≡ ports.old) }
    ensures words { IsNoTransfer (map string_bytes words.now.items)
        → RefusesWords (O.written out.old) (O.written out.new) result }
    // No disk leaves the shelf.
    ensures disks { S.told.disk shelf.new ≡ S.told.disk shelf.old }
    // The statuses that come only by a cause.
    ensures cause { HasStatusCause (causes (Rose (S.told.faults shelf.old) (S.told.faults shelf.new))
        (O.written out.old) (O.written out.new) (O.faults out.old) (O.faults out.new) (P.faults ports.old)
        (P.faults ports.new)) (IsNoTransfer (map string_bytes words.now.items)) result }
    ensures drop { (table folder : List ℕ) (session looks : ℕ)
        → AreWordsOf (map string_bytes words.now.items) (commands.DropFiles table session looks folder)
        → S.told.tells → EndsLive (DropComes (link_tells P.Link.gives P.Link.sent P.Link.faults)
        F.Outbox.told F.Outbox.File.left F.Outbox.File.faults looks (P.did ports.old) (P.did ports.new)
        (O.written out.old) (O.faults out.old) (F.did folders.old) (F.did folders.new) folder
        (S.told.file shelf.old table) (S.told.faults shelf.old) (S.told.faults shelf.new) session) (O.written out.new)
        (O.faults out.new) session result }
    ensures collect { (table folder : List ℕ) (session looks : ℕ)
        → AreWordsOf (map string_bytes words.now.items) (commands.CollectFiles table session looks folder)
        → S.told.tells → EndsLive (CollectComes (link_tells P.Link.gives P.Link.sent P.Link.faults)
        F.Inbox.told F.Inbox.Disk.told looks (P.did ports.old) (P.did ports.new) (O.written out.old)
        (O.faults out.old) (F.did folders.old) (F.did folders.new) folder (S.told.file shelf.old table)
        (S.told.faults shelf.old) (S.told.faults shelf.new) session) (O.written out.new) (O.faults out.new) session
        result }
{
    let asked = match command_of(alloc, words.as_slice()) {
        Ok(asked) => asked,
        Err(WordsFault::NoCommand) => return refuse_words(out),
        Err(WordsFault::Memory) => return 1,
    };
    match &asked {
        Command::DropFiles {
            table,
            session,
            looks,
            folder,
        } => {
            let errand = Errand::new(table, *session, *looks, folder);
            drop_files(alloc, &errand, shelf, folders, ports, out)
        }
        Command::CollectFiles {
            table,
            session,
            looks,
            folder,
        } => {
            let errand = Errand::new(table, *session, *looks, folder);
            collect_files(alloc, &errand, shelf, folders, ports, out)
        }
        _ => refuse_words(out),
    }
}

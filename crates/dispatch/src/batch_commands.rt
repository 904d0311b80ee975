//! The commands that run to their end over a shelf, a script and the output alone.

ghost use Rattle.std.specs.Prelude.{◌≡◌, ◌≤◌, ◌⊎◌, true, map, string_bytes};
ghost use Rattle.command_line.specs.Commands.{AreWordsOf};
ghost use Rattle.command_line.specs.declared.command.Command.{Command as Asked};
ghost use Rattle.pump_frame.specs.Counts.{Rose};
ghost use Rattle.script_replay.specs.Shelves.{AllAreBack};
ghost use Rattle.command_ends.specs.CommandEnds.{RefusesWords};
ghost use Rattle.exercises.specs.Exercises.{EndsExercise};
ghost use Rattle.dispatch.specs.Batch.{BatchCause, BatchEnds};
ghost use Rattle.dispatch.specs.Commands.{is_batch, IsNoCommand, IsNoneThat, reads_script};
ghost use Rattle.dispatch.specs.Servings.{source};

use chain_replay::replay_chain;
use command_ends::refuse_words;
use command_line::{Command, WordsFault, command_of};
use commands::{
    audit_script, compare_script, format_session, migrate_session, print_messages, show_session,
    tell_status, unwrap_session, wrap_session,
};
use disk_model::Shelf;
use exercises::exercise;
use pump_link::{Sink, Source};
use script_replay::{Ended, replay};
use std::alloc::Global;

/// The status of an exercise.
fn run_exercise<O: Sink>(alloc: Global, seed: u32, count: u32, out: &mut O) -> u8
    requires some { 1 ≤ count }
    requires few { count ≤ 100000 }
    ensures ends { EndsExercise seed count (O.written out.old) (O.written out.new) result }
    ensures cause { result ≡ 4 → Rose (O.faults out.old) (O.faults out.new) }
    ensures status { (result ≡ 0) ⊎ ((result ≡ 1) ⊎ (result ≡ 4)) }
{
    match exercise(alloc, seed, count, out) {
        Ended::Done => 0,
        Ended::Memory => 1,
        Ended::Write => 4,
        Ended::Stopped(_) => unreachable!(),
    }
}

/// Runs the command that the words are, over the shelf, the script and the output. A command with threads
/// or over a socket is for `live`, one that carries files from folder to folder for `transfer`, and none of
/// those run here. The answer is the status of the program:
///
/// - 0: the command was done, and what it prints was written; a replay read the script to its end.
/// - 1: there was not enough memory; nothing was written. After a replay each disk reads as it did, or it was
///   empty and is a new one of its session's row.
/// - 2: the words are no command, which is what the output says. The script was not read.
/// - 3: the script could not be read; the transcript of all whole lines that were read was written. Or
///   the file of a table could not be read.
/// - 4: the output could not be written; a prefix of what is to be written was.
/// - 5: a line is outside the grammar or can't be applied; the transcript of the lines before was
///   written.
/// - 6: the file of a table gives no row for its session, or a session is to be moved to itself.
/// - 7: the disk that the output names could not be taken off the shelf, a call of it failed, or its file
///   could not be read beside a relay; or a line told that the device of a low side alone fails, in a store.
///   The transcript of the lines before was written, and what this line printed.
/// - 8: the disks of a session are refused when they are opened, are not empty when they are to be
///   formatted or moved to, or can't take what is to be moved.
/// - 10: a line's message does not fit on the receiver's disk; the same was written.
/// - 13: the receiver's messages are no file from some message on; the file's bytes before it were written.
///   Or they are not the first ones of the file that is to be sent.
/// - 14: the receiver's messages begin a file, and are not all of it; what they have of it was written. Or
///   the file that is to be sent has 2^48 bytes or more.
/// - 15: a line of a record is wrong, which is what the output says.
/// - 16: two records differ, which is what the output says.
///
/// Of a replay's 0, 5, 7, 8 and 10 it is the one whose cause is the first in the script, where it is none
/// of the others. The disks that a command takes off the shelf are back on it at the return. `BatchCause`
/// says of each command what its status tells of memory, reads and disks. Where the shelf and its disks
/// tell what they hold, `BatchEnds` says how each ends. Of a replay that is what the script printed (`Replayed`,
/// `KeepLaws`) and what is read of the disks then (`Shelved`): those of each session stand for the world
/// that it came to, and outlive this call with every message whose acknowledgement was printed, at each
/// status but 1, at which a replay writes nothing (`EndedWith`). It says too what a format leaves
/// (`Formats`), what is shown (`Shows`), what a move leaves (`Migrates`), which messages are printed
/// (`PrintsMessages`), which state is told (`TellsStatus`), and what an exercise writes (`EndsExercise`).
/// `docs/formats.md` has the script, the table, the transcript, the disks and the last line at the statuses
/// 2, 3, 5, 6, 7, 8 and 10.
pub fn batch<S: Shelf, I: Source, O: Sink>(
    alloc: Global,
    words: &Vec<String>,
    shelf: &mut S,
    script: &mut I,
    out: &mut O,
) -> u8
    // Words that are no command: nothing of the shelf and the script is touched, and the fault is all that is written.
    ensures untouched { IsNoCommand (map string_bytes words.now.items) → (script.new ≡ script.old)
        × (shelf.new ≡ shelf.old) }
    ensures words { IsNoCommand (map string_bytes words.now.items)
        → RefusesWords (O.written out.old) (O.written out.new) result }
    // Only a replay, of one pump's script or of two, the commands over records and the sending of a
    // file read the script.
    ensures unasked { IsNoneThat reads_script (map string_bytes words.now.items) → script.new ≡ script.old }
    // Whatever the status is, every disk is back on the shelf.
    ensures back { S.told.tells → AllAreBack (S.told.disk shelf.old) (S.told.disk shelf.new) }
    // What the status tells of memory, words, reads and disks; and a write fails only where the sink's count rose.
    ensures cause { (c : Asked) → is_batch c ≡ true → AreWordsOf (map string_bytes words.now.items) c
        → BatchCause S.told S.Disk.told shelf.old shelf.new (source I.left I.faults script.old script.new)
        (O.written out.old) (O.written out.new) result c }
    ensures unwritten { result ≡ 4 → Rose (O.faults out.old) (O.faults out.new) }
    // How each command ends.
    ensures ends { (c : Asked) → is_batch c ≡ true → AreWordsOf (map string_bytes words.now.items) c
        → BatchEnds S.told S.Disk.told shelf.old shelf.new (source I.left I.faults script.old script.new)
        (O.written out.old) (O.written out.new) result c }
    ensures status { (result ≤ 8) ⊎ ((result ≡ 10) ⊎ ((13 ≤ result) × (result ≤ 16))) }
{
    let asked = match command_of(alloc, words.as_slice()) {
        Ok(asked) => asked,
        Err(WordsFault::NoCommand) => return refuse_words(out),
        Err(WordsFault::Memory) => return 1,
    };
    match &asked {
        Command::Replay => {}
        Command::Format { table, session } => {
            return format_session(alloc, table, *session, shelf, out).status();
        }
        Command::Show { table, session } => {
            return show_session(alloc, table, *session, shelf, out).status();
        }
        Command::Migrate {
            table,
            session,
            new_table,
            new_session,
        } => {
            return migrate_session(
                alloc,
                table,
                *session,
                new_table,
                *new_session,
                shelf,
                out,
            ).status();
        }
        Command::Unwrap { table, session } => {
            return unwrap_session(alloc, table, *session, shelf, out).status();
        }
        Command::Wrap { table, session } => {
            return wrap_session(alloc, table, *session, shelf, script, out).status();
        }
        Command::Messages {
            table,
            session,
            from,
        } => {
            return print_messages(alloc, table, *session, *from, shelf, out).status();
        }
        Command::Status { table, session } => {
            return tell_status(alloc, table, *session, shelf, out).status();
        }
        Command::Chain => return replay_chain(alloc, shelf, script, out).status(),
        Command::Exercise { seed, count } => return run_exercise(alloc, *seed, *count, out),
        Command::Audit => return audit_script(alloc, script, out),
        Command::Compare => return compare_script(alloc, script, out),
        Command::Race { .. }
        | Command::Serve { .. }
        | Command::Receive { .. }
        | Command::Send { .. }
        | Command::Append { .. }
        | Command::DropFiles { .. }
        | Command::CollectFiles { .. } => return refuse_words(out),
    }
    replay(alloc, shelf, script, out)
}

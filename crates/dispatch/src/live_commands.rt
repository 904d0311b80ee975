//! The commands with threads, and those over a socket.

ghost use Rattle.std.specs.Prelude.{◌≡◌, ◌⊎◌, ◌<◌, ◌≤◌, true, [], length, map, string_bytes, IfSome};
ghost use Rattle.std.specs.Io.KnownBytes.{Appends};
ghost use Rattle.command_line.specs.Commands.{AreWordsOf};
ghost use Rattle.command_line.specs.declared.command.Command.{Command as Asked};
ghost use Rattle.command_line.specs.TimeLists.{AreTimes};
ghost use Rattle.pump_frame.specs.Counts.{Rose};
ghost use Rattle.relay_side.specs.Sides.{side};
ghost use Rattle.command_ends.specs.Causes.{HasStatusCause};
ghost use Rattle.command_ends.specs.CommandEnds.{RefusesWords};
ghost use Rattle.script_replay.specs.Shelves.{AllAreBack};
ghost use Rattle.serving.specs.Doors.{doors, links};
ghost use Rattle.dispatch.specs.Commands.{is_live, IsNoLiveCommand};
ghost use Rattle.dispatch.specs.Live.{LeavesUnused, LiveEnds};
ghost use Rattle.dispatch.specs.Racing.{IsRecordOf, EndsRace};
ghost use Rattle.dispatch.specs.Servings.{source};

use crate::append::append_session;
use crate::receive::receive_session;
use crate::send::send_session;
use crate::serve::serve_table;
use command_ends::refuse_words;
use command_line::{Command, WordsFault, command_of};
use disk_model::Shelf;
use pump_link::{Clock, Ports, Sink, Source};
use race::race_with;
use relay_side::RelaySide;
use relay_threads::{Open, Watch};
use std::alloc::Global;
use std::sync::Wait;
use std::thread::Threads;

/// The status of a race, whose looks go by the low clock.
fn run_race<R: Threads + Wait + Sync, P, K: Clock + Send, O: Sink + Send>(
    rt: &R,
    alloc: Global,
    seed: u32,
    count: u32,
    times: &[u32],
    low: &mut RelaySide<P, K>,
    out: &mut O,
) -> u8
    requires some { 1 ≤ count }
    requires few { count ≤ 100000 }
    requires times { AreTimes times.now }
    ensures ends { EndsRace (IsRecordOf seed count times.now (K.reads low.old.clock) (K.reads low.new.clock))
        (O.written out.old) (O.written out.new) result }
    ensures ports { low.new.ports ≡ low.old.ports }
    ensures cause { result ≡ 4 → Rose (O.faults out.old) (O.faults out.new) }
    ensures status { (result ≡ 0) ⊎ ((result ≡ 1) ⊎ (result ≡ 4)) }
{
    let clock = &mut low.clock;
    match race_with(
        rt, alloc, seed, count, times, clock, out, &mut Open, &mut Open,
    ) {
        Ok(end) => { if end.write_failed { 4 } else { 0 } }
        Err(_) => 1,
    }
}

/// Runs the command with threads or over a socket that the words are. The answer is the status of the
/// program:
///
/// - 0: the command was done, and what it prints was written.
/// - 1: there was not enough memory; nothing was written.
/// - 2: the words are no such command, which is what the output says.
/// - 3: the file of the table could not be read; or the script of `send` or `append` could not, or the key of `serve`,
///   or its source ended before 32 bytes.
/// - 4: the output could not be written; a prefix of what is to be written was.
/// - 5: a line of the script of `send` or `append` is no payload.
/// - 6: the file of the table gives no row for the session.
/// - 7: a disk of the session could not be taken off the shelf, or a call of it failed.
/// - 8: a disk of the session is refused when it is opened.
/// - 9: a port gave no door, or no link: that of the side whose count of faults rose.
/// - 10: a message that `receive` is given does not fit on the receiver's disk, or is ahead of it; or the
///   relay of `append` wants neither the message under way nor the one behind it.
/// - 11: the relay refused what `send` or `append` sent.
/// - 12: `send` was not done when its link ended, or `send` or `append` was not when no look was left.
///
/// It is the first of these whose cause comes up: that of the words, then of the table, then of the key, then
/// those of the disks, the ports and the lines in turn. The disks that a command takes off the shelf are back
/// on it at the return, and so are links and doors at the ports.
///
/// Each side has ports and a clock of its own. `serve` is at both, `send` and `append` are at the
/// low side alone, and `receive` at the high one. A race asks the low clock for the moment of each
/// of its looks. It needs no shelf, port, key and script, and nothing of the high side. Where the
/// clock and the sink tell, `EndsRace` says that what is written is the record of the looks that
/// had these moments, and what a record has. `ServeComes` says over any shelf how serving comes to
/// its end: what each worker did, at which door, by which clock, with which words and at which end
/// of their passage (`BothServed`); and, where the shelf and its disks tell, by which row of the
/// file and over what the disks held. Where they tell, `SendComes` and `ReceiveComes` say what
/// Low's sender and High's receiver did over the link that came, and `AppendComes` what Low's
/// sender of a stream did over those that came. `docs/formats.md` has the lines.
pub fn live<
    R: Threads + Wait + Sync,
    S: Shelf,
    P: Ports + Send,
    K: Clock + Send,
    Q: Source,
    I: Source,
    O: Sink + Send,
    V: Watch + Sync,
>(
    rt: &R,
    alloc: Global,
    words: &Vec<String>,
    shelf: &mut S,
    low: &mut RelaySide<P, K>,
    high: &mut RelaySide<P, K>,
    keys: &mut Q,
    script: &mut I,
    out: &mut O,
    watch: &V,
) -> u8
where
    S::Disk: Send,
    P::Link: Send,
    P::Door: Send,
    // Words that are no such command.
    ensures words { IsNoLiveCommand (map string_bytes words.now.items)
        → RefusesWords (O.written out.old) (O.written out.new) result }
    // What a command does not use is untouched.
    ensures unused { LeavesUnused (map string_bytes words.now.items) shelf.old shelf.new low.old low.new high.old
        high.new keys.old keys.new script.old script.new }
    // Whatever the status is, every disk is back on the shelf.
    ensures back { S.told.tells → AllAreBack (S.told.disk shelf.old) (S.told.disk shelf.new) }
    // The statuses that come only where a count rose, or a source ended, or the words are no such command.
    ensures cause { HasStatusCause (record {
      memory = Appends (O.written out.old) (O.written out.new) [];
      read = Rose (S.told.faults shelf.old) (S.told.faults shelf.new)
          ⊎ (Rose (I.faults script.old) (I.faults script.new)
          ⊎ (Rose (Q.faults keys.old) (Q.faults keys.new) ⊎ IfSome (Q.left keys.old) (λ bytes. length bytes < 32)));
      unwritten = Rose (O.faults out.old) (O.faults out.new);
      device = λ role. Rose (S.told.disk_faults shelf.old) (S.told.disk_faults shelf.new);
      link = Rose (P.faults low.old.ports) (P.faults low.new.ports)
          ⊎ Rose (P.faults high.old.ports) (P.faults high.new.ports);
    }) (IsNoLiveCommand (map string_bytes words.now.items)) result }
    // How each command ends.
    ensures ends { (c : Asked) → is_live c ≡ true → AreWordsOf (map string_bytes words.now.items) c
        → LiveEnds (doors P.Door.port P.Door.did P.Door.gives (links P.Link.gives P.Link.sent P.Link.faults))
        (side P.did P.faults K.reads low.old low.new) (side P.did P.faults K.reads high.old high.new)
        S.told S.Disk.told shelf.old shelf.new (source Q.left Q.faults keys.old keys.new)
        (source I.left I.faults script.old script.new) (O.written out.old) (O.written out.new) (O.faults out.old)
        (O.faults out.new) result c }
{
    let asked = match command_of(alloc, words.as_slice()) {
        Ok(asked) => asked,
        Err(WordsFault::NoCommand) => return refuse_words(out),
        Err(WordsFault::Memory) => return 1,
    };
    match &asked {
        Command::Race { seed, count, times } => {
            run_race(rt, alloc, *seed, *count, times.as_slice(), low, out)
        }
        Command::Serve {
            table,
            session,
            looks,
        } => serve_table(
            rt, alloc, table, *session, *looks, shelf, low, high, keys, out, watch,
        ),
        Command::Receive {
            table,
            session,
            looks,
        } => receive_session(alloc, table, *session, *looks, shelf, &mut high.ports, out),
        Command::Send {
            table,
            session,
            looks,
        } => {
            let ports = &mut low.ports;
            send_session(alloc, table, *session, *looks, shelf, ports, script, out)
        }
        Command::Append {
            table,
            session,
            looks,
        } => {
            let ports = &mut low.ports;
            append_session(alloc, table, *session, *looks, shelf, ports, script, out)
        }
        _ => refuse_words(out),
    }
}

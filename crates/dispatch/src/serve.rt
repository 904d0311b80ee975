//! The two workers of a session of the table, over the ports of its row.

ghost use Rattle.std.specs.Prelude.{◌≡◌, ◌⊎◌, ◌<◌, ◌≤◌, [], length, IfSome};
ghost use Rattle.std.specs.Io.KnownBytes.{Appends};
ghost use Rattle.pump_frame.specs.Counts.{Rose};
ghost use Rattle.pump_frame.specs.Rows.{IsLawfulRow};
ghost use Rattle.relay_side.specs.Sides.{side};
ghost use Rattle.script_replay.specs.Failing.{FailsAt};
ghost use Rattle.script_replay.specs.Shelves.{AllAreBack};
ghost use Rattle.serving.specs.Doors.{doors, links};
ghost use Rattle.command_ends.specs.Causes.{IsCaused, HasStatusCause};
ghost use Rattle.command_ends.specs.CommandEnds.{EndsLive};
ghost use Rattle.commands.specs.LentDisks.{LeavesBut};
ghost use Rattle.dispatch.specs.Servings.{disks, file, source, end_of_workers, end_of_session, ServesFor};
ghost use Rattle.dispatch.specs.Servings.{ServeComes};

use command_ends::{CommandEnd, finish, row_in_file};
use command_line::TableName;
use commands::{end_at, put_pair_back, take_pair, untaken};
use disk_model::{Role, Shelf};
use pump_frame::SessionRow;
use pump_link::{Clock, Ports, Sink, Source};
use relay_side::RelaySide;
use relay_threads::{RoundsEnd, Watch};
use serving::{SessionEnd, read_key, serve_session};
use std::alloc::Global;
use std::sync::Wait;
use std::thread::Threads;

// The record comes first, then the low disk, then the high one.
fn end_of_workers(low: RoundsEnd, high: RoundsEnd) -> CommandEnd
    ensures { result ≡ end_of_workers low high }
{
    match low {
        RoundsEnd::RecordFailed => CommandEnd::Unwritten,
        RoundsEnd::Device { .. } => CommandEnd::Failed { role: Role::Low },
        RoundsEnd::Rounds => match high {
            RoundsEnd::Device { .. } => CommandEnd::Failed { role: Role::High },
            RoundsEnd::Rounds | RoundsEnd::RecordFailed => CommandEnd::Done,
        },
    }
}

fn end_of_session(end: SessionEnd) -> CommandEnd
    ensures { result ≡ end_of_session end }
{
    match end {
        SessionEnd::Memory | SessionEnd::NoThread => CommandEnd::Memory,
        SessionEnd::Refused { role, why } => end_at(role, &Some(why)),
        SessionEnd::NoDoor => CommandEnd::Unconnected,
        SessionEnd::Ended { low, high } => end_of_workers(low, high),
    }
}

// Over the row of the session, with the first 32 bytes of the keys.
fn serve_row<
    T: Threads + Wait + Sync,
    S: Shelf,
    P: Ports + Send,
    K: Clock + Send,
    Q: Source,
    O: Sink + Send,
    V: Watch + Sync,
>(
    rt: &T,
    alloc: Global,
    row: &SessionRow,
    rounds: u32,
    shelf: &mut S,
    low: &mut RelaySide<P, K>,
    high: &mut RelaySide<P, K>,
    keys: &mut Q,
    out: &mut O,
    watch: &V,
) -> CommandEnd
where
    S::Disk: Send,
    P::Link: Send,
    P::Door: Send,
    requires lawful { IsLawfulRow row.now }
    ensures serves { ServesFor (doors P.Door.port P.Door.did P.Door.gives (links P.Link.gives P.Link.sent
        P.Link.faults)) rounds
        (side P.did P.faults K.reads low.old low.new) (side P.did P.faults K.reads high.old high.new)
        (disks S.told S.Disk.told shelf.old shelf.new) (O.written out.old) (O.faults out.old)
        (source Q.left Q.faults keys.old keys.new) row.now result (O.written out.new) (O.faults out.new) }
    ensures others { LeavesBut (S.told.disk shelf.old) (S.told.disk shelf.new) row.now.id }
    ensures back { S.told.tells → AllAreBack (S.told.disk shelf.old) (S.told.disk shelf.new) }
    ensures cause { IsCaused (record {
      memory = Appends (O.written out.old) (O.written out.new) [];
      read = Rose (Q.faults keys.old) (Q.faults keys.new) ⊎ IfSome (Q.left keys.old) (λ bytes. length bytes < 32);
      unwritten = Rose (O.faults out.old) (O.faults out.new);
      device = FailsAt S.told S.Disk.told shelf.old shelf.new row.now.id;
      link = Rose (P.faults low.old.ports) (P.faults low.new.ports)
          ⊎ Rose (P.faults high.old.ports) (P.faults high.new.ports);
    }) result }
    ensures later { O.faults out.old ≤ O.faults out.new }
{
    let key = match read_key(keys) {
        Ok(key) => key,
        Err(_fault) => return CommandEnd::Unread,
    };
    let disks = match take_pair(shelf, row.id) {
        Ok(disks) => disks,
        Err(not_taken) => return untaken(not_taken),
    };
    let served = serve_session(
        rt, alloc, row, disks.low, disks.high, low, high, key, out, watch, rounds,
    );
    put_pair_back(shelf, row.id, served.low, served.high);
    end_of_session(served.end)
}

/// Serves a session of the table: both workers make so many rounds, each at the door of its own port of the
/// row and by the clock of its own side, over the low and the high disk, with the words of the first 32 bytes
/// of the keys. The record goes to the output. The answer is the status of the program. The doors go back to
/// the ports and the disks to the shelf, and no disk is formatted.
pub fn serve_table<
    T: Threads + Wait + Sync,
    S: Shelf,
    P: Ports + Send,
    K: Clock + Send,
    Q: Source,
    O: Sink + Send,
    V: Watch + Sync,
>(
    rt: &T,
    alloc: Global,
    table: &TableName,
    session: u32,
    rounds: u32,
    shelf: &mut S,
    low: &mut RelaySide<P, K>,
    high: &mut RelaySide<P, K>,
    keys: &mut Q,
    out: &mut O,
    watch: &V,
) -> u8
where
    S::Disk: Send,
    P::Link: Send,
    P::Door: Send,
    ensures ends { EndsLive (ServeComes (doors P.Door.port P.Door.did P.Door.gives (links P.Link.gives P.Link.sent
        P.Link.faults)) rounds
        (side P.did P.faults K.reads low.old low.new) (side P.did P.faults K.reads high.old high.new)
        (disks S.told S.Disk.told shelf.old shelf.new) (O.written out.old) (O.faults out.old)
        (source Q.left Q.faults keys.old keys.new) (file S.told shelf.old shelf.new table.now)
        (FailsAt S.told S.Disk.told shelf.old shelf.new) session) (O.written out.new) (O.faults out.new) session
        result }
    ensures back { S.told.tells → AllAreBack (S.told.disk shelf.old) (S.told.disk shelf.new) }
    ensures cause { HasStatusCause (record {
      memory = Appends (O.written out.old) (O.written out.new) [];
      read = Rose (S.told.faults shelf.old) (S.told.faults shelf.new)
          ⊎ (Rose (Q.faults keys.old) (Q.faults keys.new) ⊎ IfSome (Q.left keys.old) (λ bytes. length bytes < 32));
      unwritten = Rose (O.faults out.old) (O.faults out.new);
      device = λ role. Rose (S.told.disk_faults shelf.old) (S.told.disk_faults shelf.new);
      link = Rose (P.faults low.old.ports) (P.faults low.new.ports)
          ⊎ Rose (P.faults high.old.ports) (P.faults high.new.ports);
    }) ⊥ result }
{
    match row_in_file(alloc, shelf, table.as_str(), session) {
        Ok(row) => {
            let end = serve_row(rt, alloc, &row, rounds, shelf, low, high, keys, out, watch);
            finish(session, end, out)
        }
        Err(end) => finish(session, end, out),
    }
}

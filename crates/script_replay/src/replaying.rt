//! A whole script.

ghost use Rattle.std.specs.Prelude.{◌≡◌, ◌<◌, ◌≤◌, ◌⊎◌, ℕ, [], ◌++◌, List, Some, OnOk, OnErr};
ghost use Rattle.std.specs.Io.KnownBytes.{Appends};
ghost use Rattle.disk_model.specs.declared.name.Role.{Role as DiskRole};
ghost use Rattle.pump_frame.specs.Counts.{Rose};
ghost use Rattle.pump_link.specs.Causes.{HasCause, AppendsPrefix};
ghost use Rattle.script_reader.specs.Sessions.{Sessions as Script, AllEnd};
ghost use Rattle.script_reader.specs.declared.event.Event.{Event as Printed};
ghost use Rattle.script_reader.specs.Transcript.{text, fault_line};
ghost use Rattle.two_worlds.specs.Printing.{lines_in};
ghost use Rattle.script_replay.specs.Applied.{IsBeforeLines};
ghost use Rattle.script_replay.specs.Sessions.{id_of, HasFailed, found_at, Rise, AreInOrder, AllStandFor};
ghost use Rattle.script_replay.specs.Outputs.{held_of};
ghost use Rattle.script_replay.specs.Ends.{EndsReplay};
ghost use Rattle.script_replay.specs.Failing.{FailsAt};
ghost use Rattle.script_replay.specs.Replays.{IsFailed, Wrote};
ghost use Rattle.script_replay.specs.Shelves.{AllAreBack, LeavesOtherSessions, shelved};
ghost use Rattle.script_replay.specs.Told.{TellsFault, IfAlone};
ghost use Rattle.script_replay.specs.Runners.{AllHandOver, AreOut, AllAreOut, LeftAs, AllLeftAs, IsAloneOr, lent};
ghost use Rattle.script_replay.specs.Runners.{Closes, EndsAs, IsDeviceFaultOf, DeviceFails};

use crate::applying::{Replaying, apply};
use crate::disks::put_disks_back;
use crate::ended::Ended;
use crate::outcome::LineOutcome;
use crate::output::Output;
use crate::session::Session;
use crate::sessions::Sessions;
use arrayvec::ArrayVec;
use disk_model::{Disk, Shelf};
use pump_link::{Sink, Source, WriteFault};
use script_reader::{Body, EventHead, Fault, LinedHead, Lines};
use std::alloc::Global;

/// The script is at its end.
fn finish<D: Disk, O: Sink>(sessions: &Sessions<D>, output: &mut Output, out: &mut O) -> Ended
    requires { AreInOrder sessions.now }
    ensures ends { (t : Script) → AllStandFor D.told sessions.now t → (last : List Printed) × AllEnd t.begun last
        × Closes (O.written out.old) (O.written out.new) (O.faults out.old) (O.faults out.new)
        (held_of output.old ++ text last) Ended.Done result }
    ensures cause { result ≡ Ended.Write → Rose (O.faults out.old) (O.faults out.new) }
    ensures other { (number : ℕ) (role : DiskRole) → IsDeviceFaultOf number role result → ⊥ }
    ensures memory { result ≡ Ended.Memory → ⊥ }
    ensures words { result ≡ Ended.Stopped Fault.Words → ⊥ }
    ensures read { result ≡ Ended.Stopped Fault.Read → ⊥ }
{
    match write_last(&sessions.ends(), output, out) {
        Ok(()) => Ended::Done,
        Err(_) => Ended::Write,
    }
}

/// Hands on what is held, and what is printed last.
fn write_last<O: Sink>(
    last: &ArrayVec<EventHead, 16>,
    output: &mut Output,
    out: &mut O,
) -> Result<(), WriteFault>
    ensures ok { OnOk result (Appends (O.written out.old) (O.written out.new)
        (held_of output.old ++ text (lines_in last.now.items))) }
    ensures err { OnErr result (AppendsPrefix (O.written out.old) (O.written out.new)
        (held_of output.old ++ text (lines_in last.now.items))) }
    ensures cause { HasCause (O.faults out.old) (O.faults out.new) result }
{
    output.print_all(last.as_slice(), out)?;
    output.flush(out)
}

/// The script is not read further, because of this fault.
fn stop<O: Sink>(fault: Fault, output: &mut Output, out: &mut O) -> Ended
    ensures { Closes (O.written out.old) (O.written out.new) (O.faults out.old) (O.faults out.new)
        (held_of output.old ++ fault_line fault) (Ended.Stopped fault) result }
{
    match output.stop(&fault, out) {
        Ok(()) => Ended::Stopped(fault),
        Err(_) => Ended::Write,
    }
}

/// The line with this number is faulty.
fn refuse<O: Sink>(number: u32, output: &mut Output, out: &mut O) -> Ended
    ensures { Closes (O.written out.old) (O.written out.new) (O.faults out.old) (O.faults out.new)
        (held_of output.old ++ fault_line (Fault.Script number)) (Ended.Stopped (Fault.Script number)) result }
{
    stop(Fault::Script { line: number }, output, out)
}

/// Applies the lines of the script, and writes what they print. The sessions are left with their disks.
fn run<S: Shelf, I: Source, O: Sink>(
    shelf: &mut S,
    replaying: &mut Replaying<S::Disk>,
    script: &mut I,
    out: &mut O,
) -> Ended
    requires { IsBeforeLines S.Disk.told replaying.old }
    ensures ends { S.told.tells → S.Disk.told.tells
        → EndsAs (lent S.Disk.told (S.told.disk shelf.old) (S.told.disk shelf.new) replaying.new.sessions.begun.items)
        (I.left script.old) (I.left script.new) (O.written out.old) (O.written out.new) (I.faults script.old)
        (I.faults script.new) result }
    ensures hands { AllHandOver S.told.tells S.Disk.told (S.told.disk shelf.old) (S.told.disk shelf.new)
        replaying.new.sessions.begun.items }
    ensures rise { Rise replaying.new.sessions.begun.items }
    ensures device { (number : ℕ) (role : DiskRole) → IsDeviceFaultOf number role result
        → DeviceFails S.told S.Disk.told (S.told.disk shelf.old) shelf.old shelf.new
        replaying.new.sessions.begun.items number role }
    ensures told { (number : ℕ) (role : DiskRole) → IsDeviceFaultOf number role result
        → IfAlone (found_at number replaying.new.sessions.begun.items)
        (TellsFault (I.left script.old) (I.left script.new)) }
    ensures memory { result ≡ Ended.Memory → Appends (O.written out.old) (O.written out.new) [] }
    ensures later { S.told.disk_faults shelf.old ≤ S.told.disk_faults shelf.new }
    ensures write { result ≡ Ended.Write → Rose (O.faults out.old) (O.faults out.new) }
    ensures words { result ≡ Ended.Stopped Fault.Words → ⊥ }
    ensures read { result ≡ Ended.Stopped Fault.Read → Rose (I.faults script.old) (I.faults script.new) }
{
    let mut lines = Lines::new();
    let mut body = Body::new();
    'turns: loop {
        match replaying.output.show(&lines, out) {
            Ok(()) => {}
            Err(_) => return Ended::Write,
        }
        match lines.next_head(script, &mut body) {
            LinedHead::Line(line) => match apply(replaying, shelf, &line, &body, out) {
                LineOutcome::Applied => {}
                LineOutcome::Refused => return refuse(lines.number(), &mut replaying.output, out),
                LineOutcome::Stopped(fault) => return stop(fault, &mut replaying.output, out),
                LineOutcome::Memory => return Ended::Memory,
                LineOutcome::Unwritten => return Ended::Write,
            },
            LinedHead::Bad => return refuse(lines.number(), &mut replaying.output, out),
            LinedHead::Failed => return stop(Fault::Read, &mut replaying.output, out),
            LinedHead::End => return finish(&replaying.sessions, &mut replaying.output, out),
        }
    }
}

/// Puts the disks of a session back on the shelf, if it has any.
fn leave<S: Shelf>(session: Session<S::Disk>, shelf: &mut S)
    requires { AreOut (S.told.disk shelf.old) (Some session) }
    ensures others { LeavesOtherSessions (S.told.disk shelf.old) (S.told.disk shelf.new) (id_of session) }
    ensures left { LeftAs S.told.tells S.Disk.told (S.told.disk shelf.old) (S.told.disk shelf.new) (id_of session)
        (Some session) }
    ensures failed { (role : DiskRole) → HasFailed S.Disk.told (S.told.disk shelf.old) role (Some session)
        → IsAloneOr (Some session) (Rose (S.told.disk_faults shelf.old) (S.told.disk_faults shelf.new)) }
    ensures later { S.told.disk_faults shelf.old ≤ S.told.disk_faults shelf.new }
{
    if let Session::Whole { id, pump } = session {
        let (low, high, recv) = pump.close();
        put_disks_back(shelf, id, low, high, recv);
    }
}

/// Puts the disks of all sessions back on the shelf.
fn leave_all<S: Shelf>(sessions: Sessions<S::Disk>, shelf: &mut S)
    requires out { AllAreOut (S.told.disk shelf.old) sessions.begun.items }
    requires rise { Rise sessions.begun.items }
    ensures left { AllLeftAs S.told.tells S.Disk.told (S.told.disk shelf.old) (S.told.disk shelf.new)
        sessions.begun.items }
    ensures failed { (number : ℕ) (role : DiskRole)
        → HasFailed S.Disk.told (S.told.disk shelf.old) role (found_at number sessions.begun.items)
        → IsAloneOr (found_at number sessions.begun.items) (Rose (S.told.disk_faults shelf.old)
        (S.told.disk_faults shelf.new)) }
    ensures later { S.told.disk_faults shelf.old ≤ S.told.disk_faults shelf.new }
{
    let Sessions {
        mut begun,
        moment: _,
        is_under_way: _,
    } = sessions;
    'sessions: while let Some(session) = begun.pop() {
        leave(session, shelf);
    }
    begun.destroy_empty();
}

/// Applies the lines of the script one after another, and writes what they print. The disks that its
/// `session` lines take off the shelf are back on it at the return, however it ends. The answer is the
/// status of the program:
///
/// - 0: the script was read to its end, and its transcript was written.
/// - 1: there was not enough memory; nothing was written, and each disk reads as it did, or it was
///   empty and is a new one of its session's row.
/// - 4: the output could not be written; a prefix of what is to be written was.
/// - 3, 5, 7, 8 or 10: the transcript of the lines before was written, what this line printed, and the
///   fault. The script could not be read (3); a line is outside the grammar or can't be applied (5); a disk
///   of a session could not be taken off the shelf, or a call of it failed (7); the disks of a session are
///   refused when they are opened (8); or a message does not fit on the receiver's disk (10).
///
/// `EndsReplay` says of each status what the output is, how much of the script was taken, and what is
/// read of the disks then. `docs/formats.md` has the script, the transcript, the statuses and the faults.
pub fn replay<S: Shelf, I: Source, O: Sink>(
    alloc: Global,
    shelf: &mut S,
    script: &mut I,
    out: &mut O,
) -> u8
    ensures ends { S.told.tells → S.Disk.told.tells → EndsReplay result (S.told.disk shelf.old) (S.told.disk shelf.new)
        (FailsAt S.told S.Disk.told shelf.old shelf.new)
        (I.left script.old) (I.left script.new) (O.written out.old) (O.written out.new) (I.faults script.old)
        (I.faults script.new) }
    ensures memory { result ≡ 1 → Appends (O.written out.old) (O.written out.new) [] }
    ensures words { result ≡ 2 → ⊥ }
    ensures back { S.told.tells → AllAreBack (S.told.disk shelf.old) (S.told.disk shelf.new) }
    // A disk, a read and a write fail only where the count of the shelf, the source or the sink
    // rose; a disk also where a line of the script tells so of a low side alone, whatever the shelf
    // tells.
    ensures device { result ≡ 7 → Rose (S.told.disk_faults shelf.old) (S.told.disk_faults shelf.new)
        ⊎ (TellsFault (I.left script.old) (I.left script.new)
        × (S.told.tells → S.Disk.told.tells → Wrote (I.left script.old) (O.written out.old) (O.written out.new)
        (IsFailed (shelved (S.told.disk shelf.old) (S.told.disk shelf.new)) (I.left script.new)))) }
    ensures read { result ≡ 3 → Rose (I.faults script.old) (I.faults script.new) }
    ensures write { result ≡ 4 → Rose (O.faults out.old) (O.faults out.new) }
    ensures status { (result ≤ 8) ⊎ (result ≡ 10) }
{
    let mut replaying = match Replaying::new(alloc) {
        Ok(replaying) => replaying,
        Err(_) => return 1,
    };
    let ended = run(shelf, &mut replaying, script, out);
    let Replaying {
        alloc: _,
        sessions,
        events: _,
        output: _,
    } = replaying;
    leave_all(sessions, shelf);
    ended.status()
}

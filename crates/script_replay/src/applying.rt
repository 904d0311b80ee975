//! A line of a script: of the session that it names, or that it begins.

ghost use Rattle.std.specs.Prelude.{◌≡◌, ◌≢◌, ◌≤◌, ℕ, true, false, List, Option, [], ◌∷◌, Some, IfOk, IfErr};
ghost use Rattle.pump_frame.specs.Counts.{Rose};
ghost use Rattle.pump_frame.specs.Rows.{IsLawfulRow};
ghost use Rattle.script_reader.specs.Grammar.{IsCount};
ghost use Rattle.script_reader.specs.Lawful.{IsLawfulLine};
ghost use Rattle.script_reader.specs.Heads.{line_with, CanHoldLine};
ghost use Rattle.script_reader.specs.Sessions.{session_in, stands_first as is_first};
ghost use Rattle.script_replay.specs.Sessions.{AreInOrder};
ghost use Rattle.script_replay.specs.Shelves.{Places, LeavesOtherSessions};
ghost use Rattle.script_replay.specs.Applied.{BeginsNoSession, ComesFor, IsBeforeLines, IsBegunBy, LineGoes};
ghost use Rattle.script_replay.specs.Runners.{AllAreUp, outcome_of, outcome_at, Begins, StartsFresh};
ghost use Rattle.script_replay.specs.Told.{IsMadeBy};

use crate::disks::{put_disks_back, take_disks};
use crate::outcome::{LineOutcome, outcome_at, outcome_of, untaken};
use crate::output::Output;
use crate::session::Session;
use crate::sessions::Sessions;
use arrayvec::ArrayVec;
use disk_model::{Disk, Shelf};
use pump_frame::SessionRow;
use pump_link::Sink;
use script_reader::{Body, EventHead, Line, LineHead, begins_session, session_of, stands_first};
use std::alloc::{AllocError, Global};
use two_worlds::Pump;

/// What a replay keeps while its script runs.
pub struct Replaying<D: Disk> {
    pub alloc: Global,
    pub sessions: Sessions<D>,
    /// What the last line printed.
    pub events: ArrayVec<EventHead, 4>,
    pub output: Output,
}

impl<D: Disk> Replaying<D> {
    /// No line has come yet.
    pub fn new(alloc: Global) -> Result<Replaying<D>, AllocError>
        ensures { IfOk result (λ replaying. IsBeforeLines D.told replaying) }
    {
        Ok(Replaying {
            alloc,
            sessions: Sessions::new(alloc)?,
            events: ArrayVec::new(),
            output: Output::new(),
        })
    }
}

/// Opens the session of a row over its three disks. They come off the shelf, and are back on it where
/// it is not opened.
fn begin_whole<S: Shelf>(
    alloc: Global,
    row: &SessionRow,
    shelf: &mut S,
) -> Result<Session<S::Disk>, LineOutcome>
    requires lawful { IsLawfulRow row.now }
    ensures begins { S.told.tells → S.Disk.told.tells
        → Begins S.Disk.told (S.told.disk shelf.old) (S.told.disk shelf.new) (Line.Session row.now) result }
    ensures fresh { S.told.tells → S.Disk.told.tells
        → StartsFresh S.Disk.told (S.told.disk shelf.old) (S.told.disk shelf.new) row.now.id result }
    ensures begun { IfOk result (λ session. IsBegunBy S.Disk.told (S.told.disk shelf.old) (S.told.disk shelf.new)
        (Line.Session row.now) session) }
    ensures unbegun { IfErr result (λ outcome. BeginsNoSession S.told S.Disk.told shelf.old shelf.new
        (Line.Session row.now) outcome) }
    ensures refused { IfErr result (λ outcome. outcome ≡ LineOutcome.Refused → ⊥) }
    ensures others { LeavesOtherSessions (S.told.disk shelf.old) (S.told.disk shelf.new) row.now.id }
    ensures later { S.told.disk_faults shelf.old ≤ S.told.disk_faults shelf.new }
    ensures made { (lines : List Line) → IfOk result (λ session. IsMadeBy S.Disk.told false (Some session) lines) }
{
    let disks = match take_disks(shelf, row.id) {
        Ok(disks) => disks,
        Err(not_taken) => return Err(untaken(row.id, not_taken)),
    };
    match Pump::open(alloc, row, disks.low, disks.high, disks.recv) {
        Ok(pump) => Ok(Session::Whole { id: row.id, pump }),
        Err(failed) => {
            put_disks_back(shelf, row.id, failed.low, failed.high, failed.recv);
            Err(outcome_at(row.id, failed.role, &failed.why))
        }
    }
}

fn begin_alone<D: Disk>(
    alloc: Global,
    row: &SessionRow,
    next: u64,
    held: bool,
) -> Result<Session<D>, LineOutcome>
    requires lawful { IsLawfulRow row.now }
    requires count { IsCount next held }
    ensures begins { (before : Places) → Begins D.told before before (Line.LowSession row.now next held) result }
    ensures fresh { (before : Places) → StartsFresh D.told before before row.now.id result }
    ensures begun { (before : Places) → IfOk result (λ session. IsBegunBy D.told before before
        (Line.LowSession row.now next held) session) }
    ensures memory { IfErr result (λ outcome. outcome ≡ LineOutcome.Memory) }
    ensures made { IfOk result (λ session. IsMadeBy D.told false (Some session)
        (Line.LowSession row.now next held ∷ [])) }
{
    match Session::alone(alloc, row, next, held) {
        Ok(session) => Ok(session),
        Err(_) => Err(LineOutcome::Memory),
    }
}

/// The session that the line is to begin.
fn begin<S: Shelf>(
    alloc: Global,
    shelf: &mut S,
    line: &LineHead,
    body: &Body,
) -> Result<Session<S::Disk>, LineOutcome>
    requires lawful { IsLawfulLine (line_with body.now line.now) }
    requires some { line_with body.now line.now ≢ Line.Skip }
    ensures begins { S.told.tells → S.Disk.told.tells
        → Begins S.Disk.told (S.told.disk shelf.old) (S.told.disk shelf.new) (line_with body.now line.now) result }
    ensures fresh { S.told.tells → S.Disk.told.tells → (number : ℕ) → session_in (line_with body.now line.now)
        ≡ Some number
        → StartsFresh S.Disk.told (S.told.disk shelf.old) (S.told.disk shelf.new) number result }
    ensures begun { IfOk result (λ session. IsBegunBy S.Disk.told (S.told.disk shelf.old) (S.told.disk shelf.new)
        (line_with body.now line.now) session) }
    ensures unbegun { IfErr result (λ outcome. BeginsNoSession S.told S.Disk.told shelf.old shelf.new
        (line_with body.now line.now) outcome) }
    ensures others { (number : ℕ) → session_in (line_with body.now line.now) ≡ Some number
        → LeavesOtherSessions (S.told.disk shelf.old) (S.told.disk shelf.new) number }
    ensures later { S.told.disk_faults shelf.old ≤ S.told.disk_faults shelf.new }
    ensures made { IfOk result (λ session. IsMadeBy S.Disk.told false (Some session)
        (line_with body.now line.now ∷ [])) }
{
    // What begins a session has no body.
    let _bytes = body;
    match line {
        LineHead::Session(row) => match row.first_bad() {
            None => begin_whole(alloc, row, shelf),
            Some(_) => Err(LineOutcome::Refused),
        },
        LineHead::LowSession { row, next, held } => match row.first_bad() {
            None => begin_alone(alloc, row, *next, *held),
            Some(_) => Err(LineOutcome::Refused),
        },
        _ => Err(LineOutcome::Refused),
    }
}

/// A line that may come now, of the session that is to stand at this place but does not yet.
fn begin_session<S: Shelf>(
    replaying: &mut Replaying<S::Disk>,
    shelf: &mut S,
    place: usize,
    line: &LineHead,
    body: &Body,
) -> LineOutcome
    requires lawful { IsLawfulLine (line_with body.now line.now) }
    requires order { AreInOrder replaying.old.sessions }
    requires up { AllAreUp replaying.old.sessions.begun.items }
    requires comes { ComesFor S.Disk.told replaying.old.sessions place false (line_with body.now line.now) }
    ensures goes { (written : Option (List ℕ)) → LineGoes S.told S.Disk.told shelf.old shelf.new replaying.old
        replaying.new written written (line_with body.now line.now) result }
    ensures written { result ≡ LineOutcome.Unwritten → ⊥ }
    ensures disks_later { S.told.disk_faults shelf.old ≤ S.told.disk_faults shelf.new }
{
    match begin(replaying.alloc, shelf, line, body) {
        Ok(session) => {
            replaying.sessions.insert(place, session);
            replaying.sessions.note_applied(line, place);
            LineOutcome::Applied
        }
        Err(outcome) => outcome,
    }
}

/// A line that stands first and may come now, of the session at this place: it makes it coarse, unless
/// it is coarse already or the line is to begin it. It prints nothing.
fn coarsen_at<S: Shelf>(
    replaying: &mut Replaying<S::Disk>,
    place: usize,
    line: &LineHead,
    body: &Body,
) -> LineOutcome
    requires first { is_first (line_with body.now line.now) ≡ true }
    requires order { AreInOrder replaying.old.sessions }
    requires up { AllAreUp replaying.old.sessions.begun.items }
    requires comes { ComesFor S.Disk.told replaying.old.sessions place true (line_with body.now line.now) }
    ensures goes { (shelf : _) (written : Option (List ℕ)) → LineGoes S.told S.Disk.told shelf shelf replaying.old
        replaying.new written written (line_with body.now line.now) result }
    ensures written { result ≡ LineOutcome.Unwritten → ⊥ }
{
    // What makes a session coarse has no body.
    let _bytes = body;
    if begins_session(line) {
        return LineOutcome::Refused;
    }
    if replaying.sessions.begun[place].is_coarse() {
        return LineOutcome::Refused;
    }
    replaying.sessions.begun[place].make_coarse();
    replaying.sessions.note_applied(line, place);
    LineOutcome::Applied
}

/// Applies a line of the script to the session that it names, or begins that one. What it prints is added
/// to the output.
pub fn apply<S: Shelf, O: Sink>(
    replaying: &mut Replaying<S::Disk>,
    shelf: &mut S,
    line: &LineHead,
    body: &Body,
    out: &mut O,
) -> LineOutcome
    requires lawful { IsLawfulLine (line_with body.now line.now) }
    requires room { CanHoldLine line.now body.now }
    requires order { AreInOrder replaying.old.sessions }
    requires up { AllAreUp replaying.old.sessions.begun.items }
    ensures goes { LineGoes S.told S.Disk.told shelf.old shelf.new replaying.old replaying.new (O.written out.old)
        (O.written out.new) (line_with body.now line.now) result }
    ensures disks_later { S.told.disk_faults shelf.old ≤ S.told.disk_faults shelf.new }
    ensures later { O.faults out.old ≤ O.faults out.new }
    ensures cause { result ≡ LineOutcome.Unwritten → Rose (O.faults out.old) (O.faults out.new) }
{
    let number = match session_of(line) {
        None => return LineOutcome::Applied,
        Some(number) => number,
    };
    if !replaying.sessions.is_in_turn(line) {
        return LineOutcome::Refused;
    }
    let place = replaying.sessions.place_of(number);
    if !replaying.sessions.is_at(place, number) {
        return begin_session(replaying, shelf, place, line, body);
    }
    if stands_first(line) {
        return coarsen_at::<S>(replaying, place, line, body);
    }
    let session = &mut replaying.sessions.begun[place];
    let stop = session.apply(line, body, &mut replaying.events);
    let outcome = outcome_of(session.id(), &stop);
    match replaying.output.print_all(replaying.events.as_slice(), out) {
        Ok(()) => {}
        Err(_) => return LineOutcome::Unwritten,
    }
    match outcome {
        LineOutcome::Applied => {
            replaying.sessions.note_applied(line, place);
            LineOutcome::Applied
        }
        outcome => outcome,
    }
}

// Checking a record, line by line.
ghost use Rattle.std.specs.Prelude.{◌≡◌, ℕ, ◌+◌, ◌-◌, ◌^◌, ◌<◌, ◌≤◌, true, false, is_some, Option, None, Some, IfOk};
ghost use Rattle.std.specs.Prelude.{IfNone, MatchOption, MatchBool};
ghost use Rattle.pump_frame.specs.Rows.{IsLawfulRow};
ghost use Rattle.pump_core.specs.ReplyFrames.{frame_of};
ghost use Rattle.script_reader.specs.Lawful.{IsLawfulFeedback};
ghost use Rattle.pump_audit.specs.Auditing.{Audits, LookIs, NoteIs, EntryIs, TextIs, EndIs, IsGood, form_of_audit};
ghost use Rattle.pump_audit.specs.Claims.{has_end, AreRight, IsFirstWrong};
ghost use Rattle.pump_audit.specs.Entries.{IsPlain, IsInRange};
ghost use Rattle.pump_audit.specs.Places.{is_opening, is_taken, takes_looks, takes_times, behind_note, behind_line};
ghost use Rattle.pump_audit.specs.Verdicts.{is_ack, IsRightEnd};
ghost use Rattle.pump_audit.specs.Records.{Record, begun, made_coarse, with_note};

use crate::claims::Claims;
use crate::entry::{Entry, LookLine, Note};
use crate::form::{Form, RecordPlace};
use crate::life::Life;
use crate::reading::{Room, read_entry};
use crate::state::Audit;
use crate::verdict::Verdict;
use moving_avg::Window;
use pump_core::Reply;
use pump_frame::{OutOfMemory, SessionRow};
use std::alloc::Global;

fn is_ack(reply: &Reply) -> bool
    ensures { (session : ℕ) → result ≡ is_ack (frame_of session reply.now).kind }
{
    matches!(reply, Reply::Ack { .. })
}

impl Audit {
    /// A record whose opening line told this.
    pub fn begin(
        alloc: Global,
        row: &SessionRow,
        next: u64,
        is_held: bool,
    ) -> Result<Audit, OutOfMemory>
        requires { IsLawfulRow row.now }
        ensures { IfOk result (λ a. Audits a (begun row.now next is_held)) }
    {
        let window = Window::of_row(alloc, row)?;
        Ok(Audit {
            life: Life::open(row, next, is_held),
            place: RecordPlace::Opening,
            lines: 1,
            owed: None,
            looks: 0,
            acks: 0,
            claims: Claims::new(alloc),
            window,
            taken: 0,
            accepted: 0,
            removed: 0,
        })
    }

    /// The line that makes the session coarse.
    pub fn make_coarse(&mut self)
        requires opening { is_opening self.old.place ≡ true }
        requires lines { self.old.lines < 2 ^ 32 - 1 }
        ensures is { (r : Record) → Audits self.old r → Audits self.new (made_coarse r) }
        ensures more { self.new.lines ≡ self.old.lines + 1 }
    {
        self.life.row.coarse = true;
        self.window.make_coarse();
        self.place = RecordPlace::Looks;
        self.lines += 1;
    }

    /// The line of a look. It answers the cause on this line, if it has one.
    pub fn add_look(&mut self, line: &LookLine) -> Result<Option<u32>, OutOfMemory>
        requires place { takes_looks self.old.place ≡ true }
        requires lines { self.old.lines < 2 ^ 32 - 1 }
        requires moment { line.now.moment ≤ 2 ^ 62 }
        requires told { IsLawfulFeedback line.now.told }
        requires plain { IsPlain line.now }
        ensures is { IfOk result (λ cause. (r : Record) → Audits self.old r → LookIs r line.now self.new cause) }
        ensures more { IfOk result (λ cause. IfNone cause (self.new.lines ≡ self.old.lines + 1)) }
    {
        let Some(feedback) = self.life.feedback(line) else {
            return Ok(Some(2));
        };
        if self.owed.is_some() {
            return Ok(Some(3));
        }
        self.place = RecordPlace::Looks;
        self.lines += 1;
        self.claims.hear(&feedback, self.lines)?;
        self.owed = self.life.step(line, &feedback);
        self.looks += 1;
        Ok(None)
    }

    // Whether this is the comment of the reply that is owed.
    fn is_owed(&self, session: u32, moment: u64, reply: &Reply) -> bool
        ensures yes { result ≡ true → self.now.owed ≡ Some reply.now × session ≡ self.now.life.row.id
            × moment ≡ self.now.life.last }
        ensures no { result ≡ false → self.now.owed ≡ Some reply.now → session ≡ self.now.life.row.id
            → moment ≡ self.now.life.last → ⊥ }
    {
        match &self.owed {
            Some(owed) => owed == reply && session == self.life.row.id && moment == self.life.last,
            None => false,
        }
    }

    // The comment of a reply.
    fn add_low(&mut self, session: u32, moment: u64, reply: &Reply) -> Option<u32>
        requires place { takes_looks self.old.place ≡ true }
        requires lines { self.old.lines < 2 ^ 32 - 1 }
        ensures is { (r : Record) → Audits self.old r → NoteIs r (Note.Low session moment reply.now) self.new result }
        ensures more { IfNone result (self.new.lines ≡ self.old.lines + 1) }
    {
        if !self.is_owed(session, moment, reply) {
            return Some(3);
        }
        self.place = RecordPlace::Looks;
        self.lines += 1;
        self.owed = None;
        if is_ack(reply) {
            self.acks += 1;
        }
        None
    }

    // A time that High's side published.
    fn add_time(&mut self, micros: u32)
        requires owed { self.old.owed ≡ None }
        requires place { takes_times self.old.place ≡ true }
        requires lines { self.old.lines < 2 ^ 32 - 1 }
        requires micros { micros ≤ 10 ^ 9 }
        ensures is { (r : Record) → Audits self.old r → Audits self.new (with_note r (Note.Time micros)) }
        ensures more { self.new.lines ≡ self.old.lines + 1 }
    {
        self.claims.meet(self.window.count(), self.window.average());
        self.window.push(micros);
        self.place = RecordPlace::Times;
        self.lines += 1;
    }

    // How many messages were taken.
    fn add_taken(&mut self, count: u64)
        requires owed { self.old.owed ≡ None }
        requires place { takes_times self.old.place ≡ true }
        requires lines { self.old.lines < 2 ^ 32 - 1 }
        ensures is { (r : Record) → Audits self.old r → Audits self.new (with_note r (Note.Took count)) }
        ensures more { self.new.lines ≡ self.old.lines + 1 }
    {
        self.claims.meet(self.window.count(), self.window.average());
        self.taken = count;
        self.place = RecordPlace::Taken;
        self.lines += 1;
    }

    // How the record ended.
    fn add_end(&mut self, accepted: u64, removed: u64)
        requires owed { self.old.owed ≡ None }
        requires place { is_taken self.old.place ≡ true }
        requires lines { self.old.lines < 2 ^ 32 - 1 }
        ensures is { (r : Record) → Audits self.old r → Audits self.new (with_note r (Note.End accepted removed)) }
        ensures more { self.new.lines ≡ self.old.lines + 1 }
    {
        self.accepted = accepted;
        self.removed = removed;
        self.place = RecordPlace::End;
        self.lines += 1;
    }

    /// A comment. It answers the cause on this line, if it has one.
    pub fn add_note(&mut self, note: &Note) -> Option<u32>
        requires place { is_some (behind_note (form_of_audit self.old) note.now) ≡ true }
        requires lines { self.old.lines < 2 ^ 32 - 1 }
        requires range { IsInRange note.now }
        ensures is { (r : Record) → Audits self.old r → NoteIs r note.now self.new result }
        ensures more { IfNone result (self.new.lines ≡ self.old.lines + 1) }
    {
        if let Note::Low {
            session,
            moment,
            reply,
        } = note
        {
            return self.add_low(*session, *moment, reply);
        }
        if self.owed.is_some() {
            return Some(3);
        }
        match note {
            Note::Low { .. } => {}
            Note::Time { micros } => self.add_time(*micros),
            Note::Took { count } => self.add_taken(*count),
            Note::End { accepted, removed } => self.add_end(*accepted, *removed),
        }
        None
    }

    /// How many lines came.
    pub fn lines(&self) -> u32
        ensures { result ≡ self.now.lines }
    {
        self.lines
    }

    fn form(&self) -> Form
        ensures { result ≡ form_of_audit self.now }
    {
        Form {
            session: self.life.row.id,
            place: self.place,
        }
    }

    // A line that stands in its place.
    fn add_entry(&mut self, entry: &Entry) -> Result<Option<u32>, OutOfMemory>
        requires place { is_some (behind_line (form_of_audit self.old) entry.now) ≡ true }
        requires lines { self.old.lines < 2 ^ 32 - 1 }
        requires good { IsGood entry.now }
        ensures is { IfOk result (λ cause. (r : Record) → Audits self.old r → EntryIs r entry.now self.new cause) }
        ensures more { IfOk result (λ cause. IfNone cause (self.new.lines ≡ self.old.lines + 1)) }
    {
        match entry {
            // No opening stands behind another line.
            Entry::Opening { .. } => Ok(Some(1)),
            Entry::Coarse { .. } => {
                self.make_coarse();
                Ok(None)
            }
            Entry::Look(line) => self.add_look(line),
            Entry::Comment(note) => Ok(self.add_note(note)),
        }
    }

    /// One more line, without its end. It answers the cause on this line, if it has one.
    pub fn add(&mut self, text: &[u8], room: &mut Room) -> Result<Option<u32>, OutOfMemory>
        requires lines { self.old.lines < 2 ^ 32 - 1 }
        ensures is { IfOk result (λ cause. (r : Record) → Audits self.old r → TextIs r text.now self.new cause) }
        ensures more { IfOk result (λ cause. IfNone cause (self.new.lines ≡ self.old.lines + 1)) }
    {
        let Some(entry) = read_entry(text, room) else {
            return Ok(Some(1));
        };
        if self.form().behind_line(&entry).is_none() {
            return Ok(Some(1));
        }
        self.add_entry(&entry)
    }

    // Whether the numbers at the end are right.
    fn ends_right(&self) -> bool
        ensures yes { result ≡ true → (self.now.removed ≤ self.now.taken) × (self.now.taken ≤ self.now.accepted)
            × (self.now.accepted ≤ self.now.removed + self.now.life.row.capacity)
            × (self.now.accepted ≡ self.now.life.next) }
        ensures no { result ≡ false → self.now.removed ≤ self.now.taken → self.now.taken ≤ self.now.accepted
            → self.now.accepted ≤ self.now.removed + self.now.life.row.capacity → self.now.accepted ≡ self.now.life.next
            → ⊥ }
    {
        if self.taken < self.removed || self.accepted < self.taken {
            return false;
        }
        self.accepted - self.removed <= u64::from(self.life.row.capacity)
            && self.accepted == self.life.next
    }

    // Whether there are numbers at the end, and they are wrong.
    fn ends_wrong(&self) -> bool
        ensures { (r : Record) → Audits self.now r → MatchBool result ((has_end r ≡ true)
            × (IsRightEnd r → ⊥)) (has_end r ≡ true → IsRightEnd r) }
    {
        if !self.place.is_end() {
            return false;
        }
        !self.ends_right()
    }

    // The line of the first claim that is wrong.
    fn wrong_claim(&self) -> Option<u32>
        ensures { (r : Record) → Audits self.now r
            → MatchOption result (AreRight r r.claims) (λ line. IsFirstWrong r r.claims line) }
    {
        if self.place.is_end() {
            self.claims.unmet()
        } else {
            self.claims.fall
        }
    }

    /// What is said of the record where no further line comes.
    pub fn verdict(&self) -> Verdict
        ensures { (r : Record) → Audits self.now r → EndIs r result }
    {
        let behind = u64::from(self.lines) + 1;
        if !self.place.may_end() {
            return Verdict::No {
                line: behind,
                cause: 1,
            };
        }
        if self.owed.is_some() {
            return Verdict::No {
                line: behind,
                cause: 3,
            };
        }
        if let Some(line) = self.wrong_claim() {
            return Verdict::No {
                line: u64::from(line),
                cause: 4,
            };
        }
        if self.ends_wrong() {
            return Verdict::No {
                line: u64::from(self.lines),
                cause: 5,
            };
        }
        Verdict::Yes {
            looks: self.looks,
            acks: self.acks,
            times: u64::from(self.window.count()),
        }
    }
}

//! What a low pump is made of, and what a line does to it.

ghost use Rattle.std.specs.Prelude.{◌≡◌, ◌^◌, ◌≤◌, true, false, ◌&&◌, ◌==◌, nat_le, [], IfOk, None, Some, is_some};
ghost use Rattle.two_worlds.specs.Connections.{unused};
ghost use Rattle.disk_model.specs.Plain.{plain_meaning};
ghost use Rattle.stable_buffer.specs.Stands.{low_size};
ghost use Rattle.stable_buffer.specs.Low.{IsLowReady, low_disk, low_count, low_row};
ghost use Rattle.pump_frame.specs.Rows.{IsLawfulRow};
ghost use Rattle.low_process.specs.Looks.{IsHand};
ghost use Rattle.script_reader.specs.Alone.{told_of_read, tells_level};
ghost use Rattle.script_reader.specs.Lawful.{IsLawfulFeedback};
ghost use Rattle.two_worlds.specs.LowPumpParts.{armed_if, answer_of};

use crate::applied::Stop;
use crate::connection::Connection;
use crate::low_side::end_look;
use arrayvec::ArrayVec;
use disk_model::{PlainDisk, Role};
use low_process::{Answer, Arrival, AskHead, LookHead, LowProcess};
use moving_avg::{down, is_level};
use pump_core::Seen;
use pump_frame::{Item, OutOfMemory, Payload, SessionRow};
use script_reader::{Act, ArrivingHead, EventHead, LineHead, ToldFeedback};
use stable_buffer::{LowStore, Register, disk_size, format};
use std::alloc::Global;

/// The low process of a session with its connection and its store.
#[derive(Drop)]
pub struct LowPumpParts {
    pub row: SessionRow,
    pub connection: Connection,
    pub process: LowProcess,
    pub store: LowStore<PlainDisk>,
    /// The moment of the last line that had one.
    pub moment: u64,
}

/// A store with this count on an empty disk.
fn new_store(mut disk: PlainDisk, row: &SessionRow, count: u64) -> LowStore<PlainDisk>
    requires lawful { IsLawfulRow row.now }
    requires count { count ≤ 2 ^ 48 }
    requires empty { disk.bytes ≡ [] }
    requires room { disk.room ≡ low_size row.now }
    requires calm { disk.armed ≡ false }
    ensures ready { IsLowReady plain_meaning result }
    ensures count { low_count result ≡ count }
    ensures row { low_row result ≡ row.now }
    ensures room { (low_disk result).room ≡ low_size row.now }
    ensures calm { (low_disk result).armed ≡ false }
{
    // A disk in memory fails only where it is armed or has no room.
    if format(&mut disk, row, Role::Low, count).is_err() {
        unreachable!();
    }
    match Register::open(disk) {
        Ok(register) => LowStore::over(register, row),
        Err(_) => unreachable!(),
    }
}

/// The message in the hand of an opening: the last one stored, without bytes.
fn hand_of(next: u64, held: bool) -> Option<Item>
    requires { held ≡ true → 1 ≤ next }
    ensures hand { IsHand next result }
    ensures held { is_some result ≡ held }
{
    if !held {
        return None;
    }
    Some(Item {
        number: next - 1,
        payload: Payload::default(),
    })
}

/// With a fault, the next call of the store's disk fails.
fn arm(store: &mut LowStore<PlainDisk>, fault: bool)
    ensures { store.new ≡ armed_if fault store.old }
{
    if fault {
        store.disk().fail_next();
    }
}

/// What an offer is answered.
fn answer_to_offer(told: ToldFeedback) -> Answer
    ensures { result ≡ answer_of told }
{
    match told {
        ToldFeedback::Quiet | ToldFeedback::Full => Answer::Full,
        ToldFeedback::Pair { count, average } => Answer::Passed(Seen { count, average }),
    }
}

/// What a read of High's times gives.
fn times_read(row: &SessionRow, told: ToldFeedback) -> Seen
    requires row { IsLawfulRow row.now }
    requires told { IsLawfulFeedback told }
    ensures value { result ≡ told_of_read row.now told }
    ensures bound { result.average ≤ 10 ^ 9 }
{
    match told {
        ToldFeedback::Quiet | ToldFeedback::Full => Seen {
            count: 0,
            average: down(&row.averaging(), row.start),
        },
        ToldFeedback::Pair { count, average } => Seen { count, average },
    }
}

/// A coarse session is told no average but a level.
fn tells_level(row: &SessionRow, told: ToldFeedback) -> bool
    ensures { result ≡ tells_level row.now told }
{
    match told {
        ToldFeedback::Quiet | ToldFeedback::Full => true,
        ToldFeedback::Pair { average, .. } => !row.coarse || is_level(average),
    }
}

impl LowPumpParts {
    ghost use Rattle.pump_core.specs.History.{Gone};
    ghost use Rattle.low_process.specs.Looks.{row_of, is_down};
    ghost use Rattle.low_process.specs.Heads.{ask_with, look_with};
    ghost use Rattle.script_reader.specs.declared.event.Event.TheVariants.{End};
    ghost use Rattle.script_reader.specs.declared.line.ToldFeedback.TheVariants.{Quiet};
    ghost use Rattle.script_reader.specs.Lawful.{IsLawfulArriving, IsLawfulLine};
    ghost use Rattle.script_reader.specs.Heads.{arriving_with, act_with, line_with, CanHold, CanHoldAct, CanHoldLine};
    ghost use Rattle.script_reader.specs.Lows.{first_of};
    ghost use Rattle.script_reader.specs.Scripts.{IsEndAlone};
    ghost use Rattle.script_reader.specs.Alone.{PastAlone, fresh_alone, lost_alone, IsToldAt};
    ghost use Rattle.two_worlds.specs.LowPumpParts.{PartsStand, StandsForSome, HasAsked, AnsweredBy, Ends, EndsLine};
    ghost use Rattle.two_worlds.specs.LowPumpParts.{NeverBars, Crowds, IsJoinedTold};
    ghost use Rattle.two_worlds.specs.Printing.{lines_in};

    /// The parts before the first line, with `next` messages stored, of which the last is held or not.
    pub fn open(
        alloc: Global,
        row: &SessionRow,
        next: u64,
        held: bool,
    ) -> Result<LowPumpParts, OutOfMemory>
        requires lawful { IsLawfulRow row.now }
        requires next { next ≤ 2 ^ 48 }
        requires held { held ≡ true → 1 ≤ next }
        ensures stands { IfOk result (λ c. PartsStand c (fresh_alone next held)) }
        ensures row { IfOk result (λ c. c.row ≡ row.now) }
    {
        let disk = PlainDisk::new(alloc, disk_size(row, Role::Low))?;
        let store = new_store(disk, row, next);
        let hand = hand_of(next, held);
        let connection = Connection::new(alloc)?;
        Ok(LowPumpParts {
            row: *row,
            connection,
            process: LowProcess::open(row, next, hand),
            store,
            moment: 0,
        })
    }

    /// Makes the session's row coarse, and keeps all else.
    pub fn make_coarse(&mut self)
        ensures stands { (p : PastAlone) → PartsStand self.old p → PartsStand self.new p }
        ensures row { self.new.row ≡ record self.old.row { coarse = true } }
        ensures up { is_down self.new.process ≡ is_down self.old.process }
    {
        self.row.coarse = true;
        self.process.make_coarse();
        self.store.make_coarse();
    }

    /// How many messages are stored.
    pub fn next(&self) -> u64
        ensures { (p : PastAlone) → PartsStand self.now p
            → IsEndAlone self.now.row p (End self.now.row.id result None) }
    {
        self.process.next()
    }

    /// The line names this session, and no moment falls.
    fn is_timely(&self, session: u32, moment: u64) -> bool
        ensures { result ≡ (session == self.now.row.id && nat_le self.now.moment moment) }
    {
        session == self.row.id && self.moment <= moment
    }

    /// The rest of a look, which is answered by what was told.
    fn answer(&mut self, ask: AskHead, told: ToldFeedback, head: &mut LookHead)
        requires asked { HasAsked self.old.process (ask_with (row_of self.old.process) self.old.process head.old ask) }
        requires told { IsLawfulFeedback told }
        requires row { IsLawfulRow self.old.row }
        ensures answered { AnsweredBy self.old.row told self.old.process self.new.process
            (ask_with (row_of self.old.process) self.old.process head.old ask) (look_with (row_of self.old.process)
            head.new) }
        ensures rest { self.new ≡ record self.old { process = self.new.process } }
        ensures of_row { row_of self.new.process ≡ row_of self.old.process }
    {
        match ask {
            AskHead::Done => {}
            AskHead::Forward => self.process.finish_into(answer_to_offer(told), head),
            AskHead::Average => {
                let seen = times_read(&self.row, told);
                self.process.finish_into(Answer::Average(seen), head);
            }
        }
    }

    /// A look with what waits first.
    fn look_first(
        &mut self,
        moment: u64,
        word: u32,
        told: ToldFeedback,
        out: &mut ArrayVec<EventHead, 4>,
    ) -> Option<Stop>
        requires stands { ∥ StandsForSome self.old ∥₁ }
        requires order { self.old.moment ≤ moment }
        requires moment { moment ≤ 2 ^ 62 }
        requires told { IsLawfulFeedback told }
        requires out { out.old.items ≡ [] }
        ensures ends { Ends self.old self.new NeverBars (λ p is_fault q printed. IsToldAt self.old.row p
            moment word told (first_of p.is_broken p.waits) is_fault q printed) (lines_in out.new.items) result }
        ensures row { self.new.row ≡ self.old.row }
    {
        let arrival = self.connection.first();
        let mut head = LookHead::new();
        let ask = self
            .process
            .begin_into(moment, word, arrival, &mut self.store, &mut head);
        self.answer(ask, told, &mut head);
        self.connection.settle(head.taken);
        self.moment = moment;
        end_look(&self.row, &self.process, &self.store, moment, &head, out).err()
    }

    /// The look of a connection that is lost: nothing waits on the new one.
    fn look_gone(&mut self, moment: u64, out: &mut ArrayVec<EventHead, 4>) -> Option<Stop>
        requires stands { ∥ StandsForSome self.old ∥₁ }
        requires order { self.old.moment ≤ moment }
        requires moment { moment ≤ 2 ^ 62 }
        requires unused { self.old.connection ≡ unused }
        requires out { out.old.items ≡ [] }
        ensures ends { Ends self.old self.new NeverBars (λ p is_fault q printed. IsToldAt self.old.row p
            moment 0 Quiet Gone is_fault q printed) (lines_in out.new.items) result }
        ensures row { self.new.row ≡ self.old.row }
    {
        let mut head = LookHead::new();
        let ask = self
            .process
            .begin_into(moment, 0, Arrival::Gone, &mut self.store, &mut head);
        self.answer(ask, ToldFeedback::Quiet, &mut head);
        self.moment = moment;
        end_look(&self.row, &self.process, &self.store, moment, &head, out).err()
    }

    /// A `told` line: what comes joins what waits, a fault that is told arms the disk, and a look is
    /// made.
    fn told(
        &mut self,
        moment: u64,
        word: u32,
        fault: bool,
        told: ToldFeedback,
        arriving: &ArrivingHead,
        bytes: &[u8],
        out: &mut ArrayVec<EventHead, 4>,
    ) -> Option<Stop>
        requires stands { ∥ StandsForSome self.old ∥₁ }
        requires order { self.old.moment ≤ moment }
        requires moment { moment ≤ 2 ^ 62 }
        requires told { IsLawfulFeedback told }
        requires arriving { IsLawfulArriving (arriving_with bytes.now arriving.now) }
        requires room { CanHold arriving.now bytes.now }
        requires out { out.old.items ≡ [] }
        ensures ends { Ends self.old self.new (Crowds self.old.row fault (arriving_with bytes.now arriving.now))
            (IsJoinedTold self.old.row moment word fault told (arriving_with bytes.now arriving.now))
            (lines_in out.new.items) result }
        ensures row { self.new.row ≡ self.old.row }
    {
        if !self.connection.join(self.row.id, arriving, bytes) {
            return Some(Stop::Line);
        }
        arm(&mut self.store, fault);
        self.look_first(moment, word, told, out)
    }

    /// A `gone` line.
    fn gone(&mut self, moment: u64, out: &mut ArrayVec<EventHead, 4>) -> Option<Stop>
        requires stands { ∥ StandsForSome self.old ∥₁ }
        requires order { self.old.moment ≤ moment }
        requires moment { moment ≤ 2 ^ 62 }
        requires out { out.old.items ≡ [] }
        ensures ends { Ends self.old self.new NeverBars (λ p is_fault q printed. IsToldAt self.old.row
            (lost_alone p) moment 0 Quiet Gone is_fault q printed) (lines_in out.new.items) result }
        ensures row { self.new.row ≡ self.old.row }
    {
        self.connection.lose();
        self.look_gone(moment, out)
    }

    /// What is done at a moment of this session, which does not fall.
    fn act(
        &mut self,
        moment: u64,
        act: &Act,
        bytes: &[u8],
        out: &mut ArrayVec<EventHead, 4>,
    ) -> Option<Stop>
        requires lawful { IsLawfulLine (act_with bytes.now self.old.row.id moment act.now) }
        requires room { CanHoldAct act.now bytes.now }
        requires stands { ∥ StandsForSome self.old ∥₁ }
        requires order { self.old.moment ≤ moment }
        requires out { out.old.items ≡ [] }
        ensures ends { EndsLine self.old self.new (act_with bytes.now self.old.row.id moment act.now)
            (lines_in out.new.items) result }
        ensures row { self.new.row ≡ self.old.row }
    {
        match *act {
            Act::Told {
                word,
                fault,
                feedback,
                ref arrival,
            } if tells_level(&self.row, feedback) => {
                self.told(moment, word, fault, feedback, arrival, bytes, out)
            }
            Act::Gone => self.gone(moment, out),
            _ => Some(Stop::Line),
        }
    }

    /// A line of the script. What it prints is all that is in the list after it.
    pub fn apply(
        &mut self,
        line: &LineHead,
        bytes: &[u8],
        out: &mut ArrayVec<EventHead, 4>,
    ) -> Option<Stop>
        requires lawful { IsLawfulLine (line_with bytes.now line.now) }
        requires room { CanHoldLine line.now bytes.now }
        requires stands { ∥ StandsForSome self.old ∥₁ }
        ensures ends { EndsLine self.old self.new (line_with bytes.now line.now) (lines_in out.new.items) result }
        ensures row { self.new.row ≡ self.old.row }
    {
        out.clear();
        match *line {
            LineHead::At {
                session,
                moment,
                ref act,
            } if self.is_timely(session, moment) => self.act(moment, act, bytes, out),
            _ => Some(Stop::Line),
        }
    }
}

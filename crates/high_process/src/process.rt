// The high process of a session: its opening, what it holds, and the second half of a look.
ghost use Rattle.std.specs.Prelude.{◌≡◌, ℕ, ◌+◌, ◌-◌, ◌^◌, ◌<◌, ◌≤◌, true, false, length, Option, Some, None, IfSome};
ghost use Rattle.std.specs.Prelude.{IfOk, IfErr, OnOk, OnErr, option_map};

use crate::ask::fetch;
use crate::how::Asks;
use crate::task::task_for;
use crate::values::{Asking, HighAsk, HighFault, HighLook, Sent, Task};
use disk_model::Disk;
use passage::HighSide;
use pump_frame::{Frame, Item, Kind, SessionRow};
use stable_buffer::HighStore;

/// The high process of a session.
#[derive(Drop)]
pub struct HighProcess {
    row: SessionRow,
    // How many messages are removed.
    removed: u64,
    // The next message, where it was taken up: else what was in the hand before.
    hand: Item,
    is_full: bool,
    // Whether it was sent since the opening.
    sent: Option<Sent>,
    // How many times were published since the opening.
    published: u32,
    // The moment of the last look, and 0 before one.
    last: u64,
    asking: Option<Asking>,
    is_down: bool,
    ghost in_range: { removed ≤ 2 ^ 48 },
    ghost in_hand: { is_full ≡ true → (hand.number ≡ removed) × (removed < 2 ^ 48) },
    ghost in_asking: { IfSome asking (λ a. a.wants ≡ true → removed < 2 ^ 48) } by { Prim.hlevel props },
    ghost in_time: { last ≤ 2 ^ 62 },
    ghost sent_before: { IfSome sent (λ s. s.last ≤ 2 ^ 62) } by { Prim.hlevel props },
}

ghost use Rattle.std.proofs.Props.{props};

impl HighProcess {
    ghost use Rattle.stable_buffer.specs.High.{IsHighReady, high_count};
    ghost use Rattle.pump_core.specs.Passage.{Low, High};
    ghost use Rattle.high_process.specs.Tasks.{frame_of};
    ghost use Rattle.high_process.specs.Past.{ProcessPast, fresh};
    ghost use Rattle.high_process.specs.States.{state_of, row_of, made_coarse, removed_of, hand_of, published_of};
    ghost use Rattle.high_process.specs.States.{last_of, is_down, task_at, attaches_at, IsBetweenLooks};
    ghost use Rattle.high_process.specs.Looks.{IsHand, StandsFor, Finishes, AsksJust, TakesItem};
    ghost use Rattle.high_process.specs.Ends.{IsTime};
    ghost use Rattle.high_process.specs.Storing.{Fares, Removing, IsAfter};
    ghost use Rattle.high_process.specs.Steps.{time_of, without_hand, wants_of, asks, ask_of, with_item, sends_of};
    ghost use Rattle.high_process.specs.Steps.{MayBegin, StepBegins, StepFinishes, Fills};

    /// The process of an opening: with the count that was found, at most 2^48, and the message that
    /// was found to be the next one, if any.
    pub fn open(row: &SessionRow, removed: u64, hand: Option<Item>) -> HighProcess
        requires removed { removed ≤ 2 ^ 48 }
        requires hand { IsHand removed hand }
        ensures stands { StandsFor result (fresh removed hand) }
        ensures between { IsBetweenLooks result }
        ensures row { row_of result ≡ row.now }
        ensures removed { removed_of result ≡ removed }
        ensures hand { hand_of result ≡ hand }
        ensures published { published_of result ≡ 0 }
        ensures last { last_of result ≡ 0 }
        ensures up { is_down result ≡ false }
    {
        HighProcess {
            row: *row,
            removed,
            is_full: hand.is_some(),
            hand: hand.unwrap_or(Item::default()),
            sent: None,
            published: 0,
            last: 0,
            asking: None,
            is_down: false,
        }
    }

    /// Makes its row coarse. All else is as before: it stands for what it stood for.
    pub fn make_coarse(&mut self)
        ensures same { self.new ≡ made_coarse self.old }
        ensures stands { (t : ProcessPast) → StandsFor self.old t → StandsFor self.new t }
    {
        self.row.coarse = true;
    }

    /// The message that is sent until it is taken.
    pub fn hand(&self) -> Option<&Item>
        ensures hand { option_map (λ item. item.now) result ≡ hand_of self.now }
        ensures number { IfSome result (λ item. (item.now.number ≡ removed_of self.now)
            × (item.now.number < 2 ^ 48)) }
    {
        if self.is_full { Some(&self.hand) } else { None }
    }

    /// The number of its session.
    pub fn session(&self) -> u32
        ensures { result ≡ (row_of self.now).id }
    {
        self.row.id
    }

    /// How many messages are removed.
    pub fn removed(&self) -> u64
        ensures { result ≡ removed_of self.now }
    {
        self.removed
    }

    /// A removal has failed. No further look may be made.
    pub fn is_down(&self) -> bool
        ensures { result ≡ is_down self.now }
    {
        self.is_down
    }

    /// The moment of the last look, and 0 before one.
    pub fn last(&self) -> u64
        ensures { result ≡ last_of self.now }
    {
        self.last
    }

    // What a look with this frame is to do.
    pub(crate) fn task(&self, frame: Option<&Frame>) -> Task
        ensures { result ≡ task_at self.now (frame_of frame.entry) }
    {
        let expected = if self.is_full {
            self.removed + 1
        } else {
            self.removed
        };
        match frame {
            Some(frame) => {
                if frame.session == self.row.id {
                    task_for(frame, self.removed, expected)
                } else {
                    Task::Keep
                }
            }
            None => Task::Keep,
        }
    }

    // Whether a receiver attaches.
    pub(crate) fn attaches(&self, frame: Option<&Frame>) -> bool
        ensures { result ≡ attaches_at self.now (frame_of frame.entry) }
    {
        match frame {
            Some(frame) => frame.session == self.row.id && matches!(frame.kind, Kind::Attach),
            None => false,
        }
    }

    // The time that a removal now publishes.
    fn time(&self, moment: u64) -> Option<u32>
        ensures { result ≡ time_of self.now.published self.now.sent moment }
    {
        if self.published < u32::MAX {
            match self.sent {
                Some(sent) => Some(moment.saturating_sub(sent.first).min(1_000_000_000) as u32),
                None => None,
            }
        } else {
            None
        }
    }

    // The message in the hand is removed.
    fn drop_hand(&mut self, moment: u64) -> Option<u32>
        requires asking { self.old.asking ≡ None }
        requires below { self.old.removed < 2 ^ 48 }
        ensures time { result ≡ time_of self.old.published self.old.sent moment }
        ensures row { self.new.row ≡ self.old.row }
        ensures state { state_of self.new ≡ without_hand (state_of self.old) result }
    {
        let time = self.time(moment);
        self.removed += 1;
        self.is_full = false;
        self.sent = None;
        if time.is_some() {
            self.published += 1;
        }
        time
    }

    // Whether the next message is wanted.
    fn wants(&self) -> bool
        ensures { result ≡ wants_of self.now.removed (hand_of self.now) }
    {
        !self.is_full && self.removed < 1 << 48
    }

    // Removes the message in the hand, and answers with the time that this publishes.
    fn remove<D: Disk>(
        &mut self,
        moment: u64,
        store: &mut HighStore<D>,
    ) -> Result<Option<u32>, HighFault>
        requires may { MayBegin D.told self.old store.old moment }
        requires below { self.old.removed < 2 ^ 48 }
        ensures row { self.new.row ≡ self.old.row }
        ensures asking { self.new.asking ≡ None }
        ensures removing { Removing D.told store.old store.new result }
        ensures fault { IfErr result (λ fault. IsAfter fault self.old self.new moment) }
        ensures state { IfOk result (λ time. (time ≡ time_of self.old.published self.old.sent moment)
            × (state_of self.new ≡ without_hand (state_of self.old) time)) }
    {
        if let Err(device) = store.remove() {
            self.is_down = true;
            self.last = moment;
            return Err(HighFault::Device {
                faults: device.faults,
            });
        }
        Ok(self.drop_hand(moment))
    }

    // The look at this moment is begun.
    fn ask(
        &mut self,
        moment: u64,
        removed: Option<u64>,
        published: Option<u32>,
        attaches: bool,
    ) -> HighAsk
        requires moment { moment ≤ 2 ^ 62 }
        ensures row { self.new.row ≡ self.old.row }
        ensures state { state_of self.new ≡ asks (state_of self.old) moment removed published attaches }
        ensures ask { result ≡ ask_of (state_of self.old) published }
    {
        let wants = self.wants();
        self.last = moment;
        self.asking = Some(Asking {
            removed,
            published,
            attaches,
            wants,
        });
        HighAsk {
            publish: published,
            wants,
            removed: self.removed,
        }
    }

    // The first half of a look that is to do this.
    pub(crate) fn step<D: Disk>(
        &mut self,
        moment: u64,
        task: Task,
        attaches: bool,
        store: &mut HighStore<D>,
    ) -> Result<HighAsk, HighFault>
        requires may { MayBegin D.told self.old store.old moment }
        requires below { task ≡ Task.Remove → self.old.removed < 2 ^ 48 }
        requires refusal { (faults : ℕ) → task ≡ Task.Refuse (HighFault.Device faults) → ⊥ }
        ensures row { self.new.row ≡ self.old.row }
        ensures between { OnErr result (self.new.asking ≡ None) }
        ensures last { OnOk result (self.new.last ≡ moment) }
        ensures fault { IfErr result (λ fault. IsAfter fault self.old self.new moment) }
        ensures fares { Fares D.told task self.old self.new store.old store.new result }
        ensures store { OnOk result (IsHighReady D.told store.new) }
        ensures count { OnOk result (high_count store.new ≡ self.new.removed) }
        ensures up { OnOk result (self.new.is_down ≡ self.old.is_down) }
        ensures steps { IfOk result (λ ask. StepBegins (state_of self.old) (state_of self.new) moment task attaches
            ask) }
    {
        match task {
            Task::Refuse(fault) => Err(fault),
            Task::Keep => Ok(self.ask(moment, None, None, attaches)),
            Task::Remove => {
                let number = self.removed;
                let time = self.remove(moment, store)?;
                Ok(self.ask(moment, Some(number), time, attaches))
            }
        }
    }

    // Whether the message in the hand is sent in this look.
    fn sends(&self, attaches: bool) -> bool
        ensures { result ≡ sends_of self.now.row.resend (state_of self.now) attaches self.now.last }
    {
        let is_due = match self.sent {
            None => true,
            Some(sent) => self.last >= sent.last + u64::from(self.row.resend),
        };
        self.is_full && (attaches || is_due)
    }

    // Takes up what the end gives into the hand, if a message is wanted, once the time is published.
    pub(crate) fn take_up<H: HighSide, A: Asks<H>>(&mut self, how: &A, ask: &HighAsk, ends: &mut H)
        requires asking { AsksJust self.old ask.now }
        requires ends { (l : Low) × (h : High) × H.stands ends.old l h
            × IfSome ask.now.publish (IsTime (length h.times))
            × (ask.now.wants ≡ true → h.floor ≤ ask.now.removed) }
        ensures shape { H.shape ends.new ≡ H.shape ends.old }
        ensures place { H.place ends.new ≡ H.place ends.old }
        ensures row { self.new.row ≡ self.old.row }
        ensures fills { Fills (H.shape ends.old) H.on_one_thread (H.stands ends.old) (H.stands ends.new)
            (state_of self.old) (state_of self.new) ask.now }
    {
        if fetch(how, ask, ends, &mut self.hand) {
            self.hand.number = self.removed;
            self.is_full = true;
        }
    }

    // Puts the message that came into the hand.
    fn put(&mut self, item: Option<Item>)
        requires asking { TakesItem self.old item }
        ensures row { self.new.row ≡ self.old.row }
        ensures state { state_of self.new ≡ with_item (state_of self.old) item }
    {
        if let Some(item) = item {
            self.hand.number = self.removed;
            self.hand.payload = item.payload;
            self.is_full = true;
        }
    }

    // Sends the message in the hand, if it is to be sent, and ends the look.
    pub(crate) fn send(&mut self) -> HighLook
        requires asking { (a : Asking) × (self.old.asking ≡ Some a) }
        ensures row { self.new.row ≡ self.old.row }
        ensures up { self.new.is_down ≡ self.old.is_down }
        ensures between { self.new.asking ≡ None }
        ensures removed { self.new.removed ≡ self.old.removed }
        ensures last { self.new.last ≡ self.old.last }
        ensures sent { IfSome result.sent (λ n. n ≡ self.new.removed) }
        ensures steps { StepFinishes self.old.row.resend (state_of self.old) (state_of self.new) None result }
    {
        let Some(asking) = self.asking else {
            unreachable!();
        };
        self.asking = None;
        let mut number = None;
        if self.sends(asking.attaches) {
            let first = match self.sent {
                None => self.last,
                Some(sent) => sent.first,
            };
            self.sent = Some(Sent {
                first,
                last: self.last,
            });
            number = Some(self.removed);
        }
        HighLook {
            removed: asking.removed,
            published: asking.published,
            sent: number,
        }
    }

    /// The second half of a look, with the message that was taken up. It comes only where it is
    /// wanted, and is then in the hand.
    pub fn finish(&mut self, item: Option<Item>) -> HighLook
        requires { TakesItem self.old item }
        ensures finishes { Finishes self.old self.new item result }
        ensures between { IsBetweenLooks self.new }
        ensures removed { removed_of self.new ≡ removed_of self.old }
        ensures last { last_of self.new ≡ last_of self.old }
        ensures up { is_down self.new ≡ is_down self.old }
        ensures sent { IfSome result.sent (λ n. n ≡ removed_of self.new) }
        ensures row { row_of self.new ≡ row_of self.old }
    {
        self.put(item);
        self.send()
    }
}

// The low racer: the low half of a session, and the low party.
ghost use Rattle.std.specs.Prelude.{◌≡◌, ◌≤◌, ◌-◌, ◌^◌, List, ◌∷◌, true, false, IfSome};
ghost use Rattle.pump_frame.specs.declared.frame.Item.{Item};
ghost use Rattle.stable_buffer.specs.Low.{low_disk};
ghost use Rattle.pump_core.specs.Passage.{new_low, new_high, shape_of_row};
ghost use Rattle.low_process.specs.Looks.{last_of, next_of, is_idle, arrival_of};
ghost use Rattle.relay_threads.specs.Records.{Made};
ghost use Rattle.script_reader.specs.Generated.{generated_row};
ghost use Rattle.pump_frame.specs.Frames.{IsLawful};
ghost use Rattle.pump_core.specs.ReplyFrames.{IsLawfulReply};
ghost use Rattle.relay_threads.specs.RecordLines.{made_by};
ghost use Rattle.race.specs.LowRacers.{LowAt, LowRests, LowBegins, LowStays, IsOffer, offered, arrival_in};
ghost use Rattle.race.specs.Messages.{messages_in, race_items};
ghost use Rattle.race.specs.NewDisks.{IsNewLow};

use crate::messages::{next_message, next_word, put_hello};
use disk_model::PlainDisk;
use low_process::{Arrival, LookHead, LowHalf, LowProcess};
use passage::WaitLowEnd;
use pump_frame::{Frame, SessionRow};
use relay_threads::LookMade;
use script_reader::{Body, Generator};
use stable_buffer::LowStore;
use std::sync::Wait;

/// The low side of a race: the low half of the session, and the low party, which sends the messages of a
/// generated script.
#[derive(Drop)]
pub struct LowRacer<L> {
    pub half: LowHalf<PlainDisk, L>,
    pub row: SessionRow,
    pub seed: u32,
    /// How many messages there are in all.
    pub count: u32,
    /// What is left of the script, and a room for the bytes of a line.
    pub script: Generator,
    pub body: Body,
    /// The word of the last look, and the seed before one.
    pub word: u32,
    pub is_greeted: bool,
}

// What comes: this frame, or nothing.
fn arrival_of_frame(comes: bool, frame: &Frame) -> Arrival<'_>
    ensures { arrival_of result ≡ arrival_in (offered comes frame.now) }
{
    if comes {
        Arrival::Frame(frame)
    } else {
        Arrival::Nothing
    }
}

impl<L: WaitLowEnd> LowRacer<L> {
    /// The racer before its first look. The row and the script are those of the seed, and the script
    /// has all messages left.
    pub fn start(
        ends: L,
        store: LowStore<PlainDisk>,
        row: &SessionRow,
        script: Generator,
        seed: u32,
        count: u32,
    ) -> LowRacer<L>
        requires row { row.now ≡ generated_row }
        requires stands { L.stands ends new_low new_high }
        requires shape { L.shape ends ≡ shape_of_row generated_row }
        requires store { IsNewLow store }
        requires script { messages_in script ≡ race_items seed count }
        requires some { 1 ≤ count }
        requires few { count ≤ 100000 }
        ensures begins { LowBegins L.stands L.shape result }
        ensures ends { result.half.ends ≡ ends }
        ensures seed { result.seed ≡ seed }
        ensures count { result.count ≡ count }
    {
        let half = LowHalf {
            process: LowProcess::open(row, 0, None),
            store,
            ends,
        };
        LowRacer {
            half,
            row: *row,
            seed,
            count,
            script,
            body: Body::new(),
            word: seed,
            is_greeted: false,
        }
    }

    /// Puts the frame that comes to the next look into `into`, and says whether one comes: the low party
    /// sends where it is taken at once.
    pub fn next_frame(&mut self, into: &mut Frame) -> bool
        requires at { (made : List Made) × LowRests L.stands L.shape self.old made }
        ensures offer { (made : List Made) → LowRests L.stands L.shape self.old made
            → (left : List Item) × LowAt L.stands L.shape self.new left made
            × IsOffer self.new (offered result into.new) left }
        ensures lawful { IfSome (offered result into.new) IsLawful }
        ensures process { self.new.half.process ≡ self.old.half.process }
        ensures ends { self.new.half.ends ≡ self.old.half.ends }
        ensures seed { self.new.seed ≡ self.old.seed }
        ensures count { self.new.count ≡ self.old.count }
    {
        if !self.half.process.wants() {
            return false;
        }
        if !self.is_greeted {
            put_hello(&self.row, into);
            return true;
        }
        next_message(&mut self.script, &mut self.body, into)
    }

    /// A look at this moment, to which this frame comes, or nothing.
    pub fn look_with<'f, R: Wait>(
        &mut self,
        rt: &R,
        moment: u64,
        comes: bool,
        frame: &'f Frame,
    ) -> LookMade<'f>
        requires at { (made : List Made) × ((left : List Item)
            × LowAt L.stands L.shape self.old left made × IsOffer self.old (offered comes frame.now) left) }
        requires lawful { IfSome (offered comes frame.now) IsLawful }
        requires order { last_of self.old.half.process ≤ moment }
        requires moment { moment ≤ 2 ^ 62 }
        ensures at { (made : List Made) (left : List Item) → LowAt L.stands L.shape self.old left made
            → IsOffer self.old (offered comes frame.now) left
            → LowRests L.stands L.shape self.new (made_by generated_row result ∷ made) }
        ensures moment { result.moment ≡ moment }
        ensures arrival { arrival_of result.arrival ≡ arrival_in (offered comes frame.now) }
        ensures reply { IfSome result.look.reply IsLawfulReply }
        ensures last { last_of self.new.half.process ≡ moment }
        ensures stays { LowStays L.place L.shape self.old self.new }
    {
        let word = next_word(self.word);
        self.word = word;
        let arrival = arrival_of_frame(comes, frame);
        let mut look = LookHead::new();
        self.half.process.look_waiting_into(
            rt,
            moment,
            word,
            arrival,
            &mut self.half.store,
            &mut self.half.ends,
            &mut look,
        );
        self.is_greeted = self.is_greeted | comes;
        LookMade {
            moment,
            word,
            arrival,
            look,
        }
    }

    /// Its disk and its end, as it left them.
    pub fn into_disk(self) -> (PlainDisk, L)
        ensures disk { result.0 ≡ low_disk self.half.store }
        ensures end { result.1 ≡ self.half.ends }
    {
        self.half.into_disk()
    }

    /// All messages are stored, passed on and acknowledged.
    pub fn is_done(&self) -> bool
        ensures { result ≡ true → (is_idle self.now.half.process ≡ true)
            × (self.now.count ≤ next_of self.now.half.process) }
    {
        self.half.process.wants() && self.half.process.next() >= u64::from(self.count)
    }

    /// How many messages are acknowledged: all that are stored, but one that is passed on or waits.
    pub fn acknowledged(&self) -> u64
        ensures idle { is_idle self.now.half.process ≡ true → result ≡ next_of self.now.half.process }
        ensures busy { is_idle self.now.half.process ≡ false → result ≡ next_of self.now.half.process - 1 }
    {
        if self.half.process.wants() {
            self.half.process.next()
        } else {
            self.half.process.next().saturating_sub(1)
        }
    }
}

// The high racer: the high half of a session, and the receiver.
ghost use Rattle.std.specs.Prelude.{◌≡◌, ◌+◌, ◌<◌, ◌≤◌, [], true, false};
ghost use Rattle.stable_buffer.specs.High.{high_disk};
ghost use Rattle.pump_core.specs.Passage.{new_low, new_high};
ghost use Rattle.high_process.specs.States.{removed_of, hand_of};
ghost use Rattle.high_receiver.specs.Receiving.{recv_count, recv_disk};
ghost use Rattle.script_reader.specs.Generated.{generated_row};
ghost use Rattle.race.specs.Turns.{turn, CanTurn};
ghost use Rattle.race.specs.HighRacers.{HighAt, HighBegins, HighStays, HasReceived, IsAnswer, comes_to_receiver};
ghost use Rattle.race.specs.NewDisks.{IsNewHigh};

use arrayvec::ArrayVec;
use disk_model::PlainDisk;
use high_process::{HighHalf, HighProcess};
use high_receiver::Receiver;
use passage::WaitHighEnd;
use pump_frame::{Frame, Kind, Payload, SessionRow};
use stable_buffer::HighStore;
use std::sync::Wait;

/// The message size of the session of a race.
const LONGEST: u32 = 64;

/// The high side of a race: the high half of the session, and the receiver.
#[derive(Drop)]
pub struct HighRacer<H> {
    pub half: HighHalf<PlainDisk, H>,
    pub receiver: Receiver<PlainDisk>,
    /// The times that the receiver needs for its messages, in turn, in microseconds.
    pub times: ArrayVec<u32, 16>,
    /// How many messages there are in all.
    pub count: u32,
    /// The moment of the next look. It stays where no message comes.
    pub moment: u64,
    /// The receiver's answer that it has a message. Only its number changes from message to message.
    pub answer: Frame,
}

/// The receiver's answer that it has message 0.
fn first_answer() -> Frame
    ensures { IsAnswer result }
{
    Frame {
        kind: Kind::Taken,
        session: 1,
        number: 0,
        payload: Payload::default(),
    }
}

impl<H: WaitHighEnd> HighRacer<H> {
    /// The racer before its first look, at moment 0.
    pub fn start(
        ends: H,
        store: HighStore<PlainDisk>,
        receiver: Receiver<PlainDisk>,
        row: &SessionRow,
        times: &[u32],
        count: u32,
    ) -> HighRacer<H>
        requires row { row.now ≡ generated_row }
        requires stands { H.stands ends new_low new_high }
        requires store { IsNewHigh store }
        requires receiver { HasReceived receiver count [] }
        requires turn { CanTurn times.now count }
        ensures begins { HighBegins H.stands result }
        ensures ends { result.half.ends ≡ ends }
        ensures times { result.times.items ≡ times.now }
        ensures count { result.count ≡ count }
        ensures moment { result.moment ≡ 0 }
    {
        let mut own_times: ArrayVec<u32, 16> = ArrayVec::new();
        own_times.try_extend_from_slice(times).unwrap();
        let half = HighHalf {
            process: HighProcess::open(row, 0, None),
            store,
            ends,
        };
        HighRacer {
            half,
            receiver,
            times: own_times,
            count,
            moment: 0,
            answer: first_answer(),
        }
    }

    /// A look to which nothing comes.
    pub fn look<R: Wait>(&mut self, rt: &R)
        requires at { HighAt H.stands false self.old }
        ensures at { HighAt H.stands false self.new }
        ensures removed { removed_of self.new.half.process ≡ removed_of self.old.half.process }
        ensures moment { self.new.moment ≡ self.old.moment }
        ensures stays { HighStays H.place H.shape self.old self.new }
    {
        match self.half.process.look_waiting(
            rt,
            self.moment,
            None,
            &mut self.half.store,
            &mut self.half.ends,
        ) {
            Ok(_) => {}
            Err(_) => unreachable!(),
        }
    }

    /// The receiver takes the message in the hand, if there is one. One that is longer than the
    /// messages of the session counts as none.
    pub fn receive(&mut self) -> bool
        requires at { HighAt H.stands false self.old }
        requires below { removed_of self.old.half.process < self.old.count }
        ensures at { HighAt H.stands result self.new }
        ensures comes { result ≡ comes_to_receiver (hand_of self.old.half.process) }
        ensures process { self.new.half.process ≡ self.old.half.process }
        ensures moment { self.new.moment ≡ self.old.moment }
        ensures times { self.new.times ≡ self.old.times }
        ensures count { self.new.count ≡ self.old.count }
        ensures ends { self.new.half.ends ≡ self.old.half.ends }
    {
        let Some(item) = self.half.process.hand() else {
            return false;
        };
        if item.payload.len() > LONGEST {
            return false;
        }
        match self.receiver.take(item.number, &item.payload) {
            Ok(_) => true,
            Err(_) => unreachable!(),
        }
    }

    /// The moment grows by the next of the times, and a look gives back that the message was taken.
    pub fn give_back<R: Wait>(&mut self, rt: &R)
        requires at { HighAt H.stands true self.old }
        ensures at { HighAt H.stands false self.new }
        ensures removed { removed_of self.new.half.process ≡ removed_of self.old.half.process + 1 }
        ensures moment { self.new.moment ≡ self.old.moment
            + turn self.old.times.items (removed_of self.old.half.process) }
        ensures stays { HighStays H.place H.shape self.old self.new }
    {
        let number = self.half.process.removed();
        let turn = number % self.times.len() as u64;
        self.moment += u64::from(self.times[turn as usize]);
        self.answer.number = number;
        match self.half.process.look_waiting(
            rt,
            self.moment,
            Some(&self.answer),
            &mut self.half.store,
            &mut self.half.ends,
        ) {
            Ok(_) => {}
            Err(_) => unreachable!(),
        }
    }

    /// Its disk, its end and the receiver's disk, as it left them.
    pub fn into_disks(self) -> (PlainDisk, H, PlainDisk)
        ensures disk { result.0 ≡ high_disk self.half.store }
        ensures end { result.1 ≡ self.half.ends }
        ensures recv { result.2 ≡ recv_disk self.receiver }
    {
        let HighRacer { half, receiver, .. } = self;
        let (disk, ends) = half.into_disk();
        (disk, ends, receiver.into_disk())
    }

    /// How many messages the receiver has taken.
    pub fn taken(&self) -> u64
        ensures { result ≡ recv_count self.now.receiver }
    {
        self.receiver.count()
    }

    /// All messages are removed.
    pub fn is_done(&self) -> bool
        ensures yes { result ≡ true → self.now.count ≤ removed_of self.now.half.process }
        ensures no { result ≡ false → removed_of self.now.half.process < self.now.count }
    {
        self.half.process.removed() >= u64::from(self.count)
    }
}

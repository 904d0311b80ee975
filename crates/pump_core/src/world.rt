//! A world that steps.

ghost use Rattle.std.specs.Prelude.{◌≡◌, ◌≤◌, slice_get, IfOk, OnOk, OnErr, Some};
ghost use Rattle.pump_core.specs.Events.{holds};

use crate::event::Event;
use crate::refill::{
    Refill, both, counted, first_of, keep, keep_answer, last_of, length_kept, numbers_from, put,
};
use pump_frame::{Item, OutOfMemory, Payload};
use std::alloc::Global;
use std::collections::VecDeque;
use std::marker::Model;

/// All that a pump, a receiver and the network between them hold: `docs/model.md`, "World".
/// Contracts see it as a record of plain lists and numbers, and every `World` is lawful.
#[derive(Drop)]
pub struct World {
    capacity: u32,
    accepted: Vec<Payload>,
    storing: Option<Payload>,
    low_hand: Option<u64>,
    held: VecDeque<u64>,
    high_hand: Option<u64>,
    removed: u64,
    due: bool,
    removing: bool,
    received: Vec<Payload>,
    packet: Option<Payload>,
    taking: bool,
    sent: Vec<Item>,
    returned: Vec<u64>,
    acknowledged: Vec<u64>,
    alloc: Global,
}

impl Model for World {
    ghost use Rattle.pump_core.specs.World as worlds;

    ghost Value = { worlds.World };

    ghost use Rattle.pump_core.specs.View.{world_of, IsLawfulInside};

    ghost view = { world_of };

    ghost invariant = { IsLawfulInside };
}

/// Whether this number is in the hand.
fn is_held(hand: Option<u64>, number: u64) -> bool
    ensures { result ≡ holds hand number }
{
    match hand {
        Some(held) => held == number,
        None => false,
    }
}

/// What stands at a place.
fn at<T: Copy>(list: &[T], place: u64) -> Option<T>
    ensures { result ≡ slice_get list.now place }
{
    list.get(place as usize).copied()
}

impl World {
    ghost use Rattle.pump_frame.specs.Rows.{least_capacity, greatest_capacity};
    ghost use Rattle.pump_core.specs.World.{empty};
    ghost use Rattle.pump_core.specs.Events.{StepAnswers, pump_crashed, receiver_crashed};
    ghost use Rattle.pump_core.specs.View.{IsRefill};

    /// A world with nothing in it, for a pump with this many places, `LEAST_CAPACITY` to
    /// `GREATEST_CAPACITY`. The error comes only for want of memory.
    pub fn new(alloc: Global, capacity: u32) -> Result<World, OutOfMemory>
        requires at_least { least_capacity ≤ capacity }
        requires at_most { capacity ≤ greatest_capacity }
        ensures { IfOk result (λ w. w ≡ empty capacity) }
    {
        Ok(World {
            capacity,
            accepted: Vec::new(alloc),
            storing: None,
            low_hand: None,
            held: VecDeque::new(alloc),
            high_hand: None,
            removed: 0,
            due: false,
            removing: false,
            received: Vec::new(alloc),
            packet: None,
            taking: false,
            sent: Vec::new(alloc),
            returned: Vec::new(alloc),
            acknowledged: Vec::new(alloc),
            alloc,
        })
    }

    fn store_begin(&mut self, payload: Payload) -> bool
        ensures { StepAnswers self.old (Event.StoreBegin payload) result self.new }
    {
        if self.storing.is_some() || self.low_hand.is_some() {
            return false;
        }
        self.storing = Some(payload);
        true
    }

    fn store_end(&mut self) -> Result<bool, OutOfMemory>
        ensures did { IfOk result (λ did. StepAnswers self.old Event.StoreEnd did self.new) }
        ensures memory { OnErr result (self.new ≡ self.old) }
    {
        let Some(payload) = self.storing else {
            return Ok(false);
        };
        let number = self.accepted.len() as u64;
        self.accepted.push(payload)?;
        self.low_hand = Some(number);
        self.storing = None;
        Ok(true)
    }

    fn forward(&mut self) -> Result<bool, OutOfMemory>
        ensures did { IfOk result (λ did. StepAnswers self.old Event.Forward did self.new) }
        ensures memory { OnErr result (self.new ≡ self.old) }
    {
        let Some(number) = self.low_hand else {
            return Ok(false);
        };
        if self.held.len() >= (self.capacity - 2) as usize {
            return Ok(false);
        }
        self.held.push_back(number)?;
        self.low_hand = None;
        Ok(true)
    }

    fn take_up(&mut self) -> bool
        ensures { StepAnswers self.old Event.TakeUp result self.new }
    {
        if self.high_hand.is_some() {
            return false;
        }
        let Some(number) = self.held.pop_front() else {
            return false;
        };
        self.high_hand = Some(number);
        true
    }

    fn send(&mut self) -> Result<bool, OutOfMemory>
        ensures did { IfOk result (λ did. StepAnswers self.old Event.Send did self.new) }
        ensures memory { OnErr result (self.new ≡ self.old) }
    {
        let Some(number) = self.high_hand else {
            return Ok(false);
        };
        if self.removing {
            return Ok(false);
        }
        let Some(payload) = at(&self.accepted, number) else {
            return Ok(false);
        };
        self.sent.push(Item { number, payload })?;
        Ok(true)
    }

    fn carry(&mut self, which: u64) -> Result<bool, OutOfMemory>
        ensures did { IfOk result (λ did. StepAnswers self.old (Event.CarryData which) did self.new) }
        ensures memory { OnErr result (self.new ≡ self.old) }
    {
        let Some(packet) = at(&self.sent, which) else {
            return Ok(false);
        };
        let taken = self.received.len() as u64;
        if self.packet.is_some() || packet.number > taken {
            return Ok(false);
        }
        if packet.number < taken {
            self.returned.push(packet.number)?;
        } else {
            self.packet = Some(packet.payload);
        }
        Ok(true)
    }

    fn take_begin(&mut self) -> bool
        ensures { StepAnswers self.old Event.TakeBegin result self.new }
    {
        if self.packet.is_none() || self.taking {
            return false;
        }
        self.taking = true;
        true
    }

    fn take_end(&mut self) -> Result<bool, OutOfMemory>
        ensures did { IfOk result (λ did. StepAnswers self.old Event.TakeEnd did self.new) }
        ensures memory { OnErr result (self.new ≡ self.old) }
    {
        let Some(payload) = self.packet else {
            return Ok(false);
        };
        if !self.taking {
            return Ok(false);
        }
        let number = self.received.len() as u64;
        self.returned.reserve(1)?;
        self.received.push(payload)?;
        put(&mut self.returned, number);
        self.packet = None;
        self.taking = false;
        Ok(true)
    }

    fn return_taken(&mut self, which: u64) -> bool
        ensures { StepAnswers self.old (Event.ReturnTaken which) result self.new }
    {
        let Some(number) = at(&self.returned, which) else {
            return false;
        };
        if self.removing {
            return false;
        }
        if number == self.removed && is_held(self.high_hand, number) {
            self.due = true;
        }
        true
    }

    fn remove_begin(&mut self) -> bool
        ensures { StepAnswers self.old Event.RemoveBegin result self.new }
    {
        if !self.due || self.removing {
            return false;
        }
        self.removing = true;
        true
    }

    fn remove_end(&mut self) -> bool
        ensures { StepAnswers self.old Event.RemoveEnd result self.new }
    {
        if !self.removing {
            return false;
        }
        self.removed += 1;
        self.high_hand = None;
        self.due = false;
        self.removing = false;
        true
    }

    fn acknowledge(&mut self, number: u64) -> Result<bool, OutOfMemory>
        ensures did { IfOk result (λ did. StepAnswers self.old (Event.Acknowledge number) did self.new) }
        ensures memory { OnErr result (self.new ≡ self.old) }
    {
        if number >= self.accepted.len() as u64
            || self.low_hand.is_some()
            || self.storing.is_some()
        {
            return Ok(false);
        }
        self.acknowledged.push(number)?;
        Ok(true)
    }

    /// The pump as a crash leaves it. Nothing changes yet.
    fn refill(&self, kept: (bool, bool)) -> Result<Refill, OutOfMemory>
        ensures { IfOk result (λ r. IsRefill self.now kept r) }
    {
        let accepted = length_kept(&self.accepted, self.storing, kept.0);
        let removed = counted(self.removed, both(kept.1, self.removing));
        let live = (accepted - removed) as u32;
        let held = numbers_from(
            self.alloc,
            removed + 1,
            (self.capacity - 2).min(live.saturating_sub(1)),
        )?;
        Ok(Refill {
            removed,
            high_hand: first_of(removed, live),
            held,
            low_hand: last_of(accepted, live == self.capacity),
        })
    }

    fn crash_pump(&mut self, kept: (bool, bool)) -> Result<(), OutOfMemory>
        ensures did { OnOk result (self.new ≡ pump_crashed self.old (Some kept)) }
        ensures memory { OnErr result (self.new ≡ self.old) }
    {
        let refill = self.refill(kept)?;
        self.accepted.reserve(1)?;
        keep(&mut self.accepted, self.storing.take(), kept.0);
        self.low_hand = refill.low_hand;
        self.held = refill.held;
        self.high_hand = refill.high_hand;
        self.removed = refill.removed;
        self.due = false;
        self.removing = false;
        Ok(())
    }

    fn crash_receiver(&mut self, kept: bool) -> Result<(), OutOfMemory>
        ensures did { OnOk result (self.new ≡ receiver_crashed self.old (Some kept)) }
        ensures memory { OnErr result (self.new ≡ self.old) }
    {
        self.returned.reserve(1)?;
        self.received.reserve(1)?;
        let took = both(kept, self.taking);
        keep_answer(&mut self.returned, &self.received, self.packet, took);
        keep(&mut self.received, self.packet, took);
        self.packet = None;
        self.taking = false;
        Ok(())
    }

    fn crash_both(&mut self, pump: (bool, bool), receiver: bool) -> Result<(), OutOfMemory>
        ensures did { OnOk result (self.new ≡ receiver_crashed (pump_crashed self.old (Some pump)) (Some receiver)) }
        ensures memory { OnErr result (self.new ≡ self.old) }
    {
        let refill = self.refill(pump)?;
        self.accepted.reserve(1)?;
        self.returned.reserve(1)?;
        self.received.reserve(1)?;
        keep(&mut self.accepted, self.storing.take(), pump.0);
        self.low_hand = refill.low_hand;
        self.held = refill.held;
        self.high_hand = refill.high_hand;
        self.removed = refill.removed;
        self.due = false;
        self.removing = false;
        let took = both(receiver, self.taking);
        keep_answer(&mut self.returned, &self.received, self.packet, took);
        keep(&mut self.received, self.packet, took);
        self.packet = None;
        self.taking = false;
        Ok(())
    }

    /// Makes the event happen where it can. True exactly where it can happen, and then the world is
    /// the one after it; false exactly where it can't, and then nothing has changed. Nor has anything
    /// changed after the error, which comes only for want of memory.
    pub fn step(&mut self, event: &Event) -> Result<bool, OutOfMemory>
        ensures did { IfOk result (λ did. StepAnswers self.old event.now did self.new) }
        ensures memory { OnErr result (self.new ≡ self.old) }
    {
        match *event {
            Event::StoreBegin(payload) => Ok(self.store_begin(payload)),
            Event::StoreEnd => self.store_end(),
            Event::Forward => self.forward(),
            Event::TakeUp => Ok(self.take_up()),
            Event::Send => self.send(),
            Event::CarryData(which) => self.carry(which),
            Event::TakeBegin => Ok(self.take_begin()),
            Event::TakeEnd => self.take_end(),
            Event::ReturnTaken(which) => Ok(self.return_taken(which)),
            Event::RemoveBegin => Ok(self.remove_begin()),
            Event::RemoveEnd => Ok(self.remove_end()),
            Event::Acknowledge(number) => self.acknowledge(number),
            Event::Crash { pump, receiver } => match (pump, receiver) {
                (None, None) => Ok(false),
                (Some(kept), None) => {
                    self.crash_pump(kept)?;
                    Ok(true)
                }
                (None, Some(kept)) => {
                    self.crash_receiver(kept)?;
                    Ok(true)
                }
                (Some(kept), Some(took)) => {
                    self.crash_both(kept, took)?;
                    Ok(true)
                }
            },
        }
    }
}

//! One walk through all thirteen events, in which each of their conditions fails once. That a DATA is
//! none beyond the receiver's next one holds in every lawful world, so no walk can break it.

use pump_core::{Event, World};
use pump_frame::{OutOfMemory, Payload};
use std::process::Abort;

fn message(byte: u8) -> Event {
    Event::StoreBegin(Payload::from_slice(&[byte]).unwrap())
}

fn crash(pump: Option<(bool, bool)>, receiver: Option<bool>) -> Event {
    Event::Crash { pump, receiver }
}

/// An event, whether it can happen, and why.
type Step = (Event, bool, &'static str);

fn walk(rt: &impl Abort, world: &mut World, steps: &[Step]) {
    for (event, can, why) in steps {
        assert_eq!(rt; world.step(event), Ok(*can), "{why}");
    }
}

fn nothing_but_a_store_can_begin(rt: &impl Abort, world: &mut World) {
    walk(
        rt,
        world,
        &[
            (Event::StoreEnd, false, "no store is unfinished"),
            (Event::Forward, false, "the low hand is empty"),
            (Event::TakeUp, false, "nothing is held"),
            (Event::Send, false, "the high hand is empty"),
            (Event::CarryData(0), false, "nothing was sent"),
            (Event::TakeBegin, false, "nothing waits at the receiver"),
            (Event::TakeEnd, false, "no taking is unfinished"),
            (Event::ReturnTaken(0), false, "nothing was returned"),
            (Event::RemoveBegin, false, "no removal is due"),
            (Event::RemoveEnd, false, "no removal is unfinished"),
            (Event::Acknowledge(0), false, "nothing was accepted"),
            (crash(None, None), false, "nobody crashes"),
        ],
    );
}

fn two_are_stored(rt: &impl Abort, world: &mut World) {
    walk(
        rt,
        world,
        &[
            (message(1), true, "the low hand is empty"),
            (message(2), false, "a store is unfinished"),
            (Event::StoreEnd, true, "a store is unfinished"),
            (message(2), false, "the low hand is full"),
            (Event::Acknowledge(0), false, "the low hand is full"),
            (Event::Forward, true, "nothing is held"),
            (Event::Acknowledge(0), true, "message 0 was accepted"),
            (Event::Acknowledge(1), false, "message 1 was not"),
            (message(2), true, "the low hand is empty"),
            (Event::Acknowledge(0), false, "a store is unfinished"),
            (Event::StoreEnd, true, "a store is unfinished"),
            (
                Event::Forward,
                false,
                "one place of three is between the hands",
            ),
            (Event::TakeUp, true, "the high hand is empty"),
            (Event::Forward, true, "nothing is held"),
            (Event::TakeUp, false, "the high hand is full"),
        ],
    );
}

fn one_is_passed_and_removed(rt: &impl Abort, world: &mut World) {
    walk(
        rt,
        world,
        &[
            (Event::Send, true, "the high hand is full"),
            (
                Event::CarryData(0),
                true,
                "message 0 is the receiver's next one",
            ),
            (Event::CarryData(0), false, "one waits at the receiver"),
            (Event::TakeEnd, false, "no taking is unfinished"),
            (Event::TakeBegin, true, "one waits at the receiver"),
            (Event::TakeBegin, false, "its taking is unfinished"),
            (Event::TakeEnd, true, "its taking is unfinished"),
            (Event::RemoveBegin, false, "no TAKEN came back"),
            (Event::ReturnTaken(0), true, "TAKEN 0 was sent"),
            (Event::RemoveBegin, true, "the removal is due"),
            (Event::RemoveBegin, false, "the removal is unfinished"),
            (Event::Send, false, "the removal is unfinished"),
            (Event::ReturnTaken(0), false, "the removal is unfinished"),
            (Event::RemoveEnd, true, "the removal is unfinished"),
            (Event::CarryData(0), true, "message 0 comes again"),
            (Event::ReturnTaken(1), true, "TAKEN 0 was sent again"),
            (
                Event::RemoveBegin,
                false,
                "it was for a message that is removed",
            ),
        ],
    );
}

fn all_open_again(rt: &impl Abort, world: &mut World) {
    walk(
        rt,
        world,
        &[
            (crash(Some((false, false)), None), true, "the pump crashes"),
            (Event::TakeUp, false, "message 1 is in the high hand"),
            (Event::Send, true, "message 1 is in the high hand"),
            (Event::CarryData(1), true, "it is the receiver's next one"),
            (Event::TakeBegin, true, "it waits at the receiver"),
            (crash(None, Some(true)), true, "the receiver crashes"),
            (Event::TakeEnd, false, "the taking was kept"),
            (Event::ReturnTaken(2), true, "TAKEN 1 was sent"),
            (Event::RemoveBegin, true, "the removal is due"),
            (crash(Some((true, false)), Some(false)), true, "both crash"),
            (Event::RemoveBegin, false, "the removal was lost"),
        ],
    );
}

#[test]
fn each_event_happens_where_it_can(rt: HostRuntime) -> Result<(), OutOfMemory> {
    let mut world = World::new(rt.alloc(), 3)?;
    nothing_but_a_store_can_begin(&rt, &mut world);
    two_are_stored(&rt, &mut world);
    one_is_passed_and_removed(&rt, &mut world);
    all_open_again(&rt, &mut world);
    Ok(())
}

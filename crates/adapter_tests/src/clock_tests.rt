//! The machine's clock.

use adapters::{Traffic, machine_side, now};
use pump_link::Clock;
use std::thread;
use std::time::Duration;

#[test]
fn moments_are_microseconds_of_the_machine(rt: HostRuntime) {
    let start = now(&rt);
    let mut traffic = Traffic::new();
    let mut clock = machine_side(rt.alloc(), &rt, start, &mut traffic).clock;
    let first = clock.moment();
    thread::sleep(&rt, Duration::from_millis(2));
    let second = clock.moment();
    assert!(rt; second >= first.saturating_add(2000));
    assert_eq!(rt; clock.readings(), 2);
    let mut traffic = Traffic::new();
    let mut late = machine_side(rt.alloc(), &rt, Duration::MAX, &mut traffic).clock;
    assert_eq!(rt; late.moment(), 0);
}

#[test]
fn readings_come_apart_where_nothing_comes(rt: HostRuntime) {
    let mut traffic = Traffic::new();
    let mut side = machine_side(rt.alloc(), &rt, now(&rt), &mut traffic);
    side.clock.moment();
    assert!(rt; !side.ports.traffic().is_quiet());
    for _ in 0..100 {
        side.clock.moment();
    }
    assert!(rt; side.ports.traffic().is_quiet());
    let first = side.clock.moment();
    assert!(rt; side.clock.moment() >= first.saturating_add(900));
    side.ports.traffic().note();
    side.clock.moment();
    assert!(rt; !side.ports.traffic().is_quiet());
}

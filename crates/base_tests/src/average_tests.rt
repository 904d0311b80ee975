//! Tests of the average of High's times and of its levels.

use moving_avg::{Window, level};
use pump_frame::OutOfMemory;
use std::process::Abort;

/// What is done with a window.
#[derive(Clone, Copy)]
enum Step {
    Push(u16),
    Clear,
    MakeCoarse,
}

// The average after a step, and how many times there are then.
fn after(rt: &impl Abort, window: &mut Window, step: Step) -> (u32, u32) {
    match step {
        Step::Push(time) => {
            assert!(rt; window.count() < 9);
            window.push(u32::from(time));
        }
        Step::Clear => window.clear(),
        Step::MakeCoarse => window.make_coarse(),
    }
    (window.average(), window.count())
}

#[test]
fn averages_the_last_two_times(rt: HostRuntime) -> Result<(), OutOfMemory> {
    let mut window = Window::new(rt.alloc(), 2, 20000)?;
    assert_eq!(rt; window.average(), 20000);
    for (step, average, count) in [
        (Step::Push(100), 100, 1),
        (Step::Push(300), 200, 2),
        (Step::Push(500), 400, 3),
        (Step::Clear, 20000, 0),
        (Step::MakeCoarse, 32768, 0),
        (Step::Push(100), 128, 1),
        (Step::Clear, 32768, 0),
    ] {
        assert_eq!(rt; after(&rt, &mut window, step), (average, count));
    }
    Ok(())
}

#[test]
fn levels_are_powers_of_two_and_the_greatest_average(rt: HostRuntime) {
    for (average, found) in [
        (0, 1),
        (1, 1),
        (3, 4),
        (4, 4),
        (536_870_912, 536_870_912),
        (536_870_913, 1_000_000_000),
        (1_000_000_000, 1_000_000_000),
    ] {
        assert_eq!(rt; level(average), found);
    }
}

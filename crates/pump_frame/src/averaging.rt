// How High's times are averaged, and what of the mean comes down to Low.
ghost use Rattle.std.specs.Prelude.{◌≡◌};
ghost use Rattle.pump_frame.specs.Averages.{averaging_of};

use crate::row::SessionRow;

/// How High's times are averaged, and what of the mean comes down to Low. All times are in
/// microseconds.
#[derive(Clone, Copy)]
pub struct Averaging {
    /// How many of the last times, 1 to 256.
    pub window: u32,
    /// The mean while there is no time, at most 10^9.
    pub start: u32,
    /// Whether only the mean's level comes down (`docs/model.md`, "Averages and levels").
    pub coarse: bool,
}

impl SessionRow {
    /// How the times of this session are averaged.
    pub fn averaging(&self) -> Averaging
        ensures { result ≡ averaging_of self.now }
    {
        Averaging {
            window: self.window,
            start: self.start,
            coarse: self.coarse,
        }
    }
}

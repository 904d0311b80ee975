// What the looks of a record tell of High's times.
ghost use Rattle.std.specs.Prelude.{◌≤◌, length};
ghost use Rattle.pump_audit.specs.Pairs.{AreFew};

/// What a look's line tells of High's times: how many there were, their average in microseconds, and
/// the number of the line.
#[derive(Clone, Copy)]
pub(crate) struct Claim {
    pub count: u32,
    pub average: u32,
    pub line: u32,
}

/// The claims of a record's looks. It keeps the first of each count, up to the first claim that can't be
/// right beside the one before it: which of the two is wrong the times say, and none behind them is the
/// first that is.
#[derive(Drop)]
pub(crate) struct Claims {
    /// The oldest first. Their counts rise, but perhaps for the last.
    pub pairs: Vec<Claim>,
    /// How many of them the times have met.
    pub met: usize,
    pub greatest: u32,
    /// The line of the first claim whose count falls.
    pub fall: Option<u32>,
    ghost met_few: { met ≤ length pairs.items },
    ghost few: { AreFew pairs.items },
}

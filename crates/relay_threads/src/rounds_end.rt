/// Why a worker over a door ended.
#[derive(Clone, Copy, PartialEq, Eq, Debug)]
pub enum RoundsEnd {
    /// The rounds that it was given were made, and none of them ended it.
    Rounds,
    /// A call of its disk failed, so its process is down: the disk's count of faults after that
    /// call.
    Device { faults: u64 },
    /// A write of the record failed.
    RecordFailed,
}

/// What one stay of a worker at its door came to: a link that it served, or a round with nobody.
#[derive(Clone, Copy)]
pub struct Stayed {
    /// The worker's end, where this ended it.
    pub end: Option<RoundsEnd>,
    /// The rounds that were made.
    pub looks: u64,
}

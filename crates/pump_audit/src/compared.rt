/// What is said of two records.
#[derive(Clone, Copy, PartialEq, Eq, Debug)]
pub enum Compared {
    /// Low's sides are the same.
    Agree {
        /// How many items each has: the opening, and the looks.
        items: u64,
    },
    Differ {
        /// The first item that differs, or that one record lacks; item 0 is the opening.
        item: u64,
        what: What,
    },
    /// A line is none of a record in its place.
    NotRecord {
        /// Its number, counted from 1 over both records; where the first record is not followed by the
        /// line between them, or one may not end where it does, the line behind the last.
        line: u64,
    },
}

/// The first part in which two items differ.
#[derive(Clone, Copy, PartialEq, Eq, Debug)]
pub enum What {
    /// The row, or what was found at the opening.
    Opening,
    Moment,
    Word,
    Arrival,
    Outcome,
    /// What the look was told, but for its count.
    Feedback,
    /// One record has no such item.
    Length,
}

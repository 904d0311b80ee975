/// What is said of a record.
#[derive(Clone, Copy, PartialEq, Eq, Debug)]
pub enum Verdict {
    /// It is clean.
    Yes {
        /// How many looks it tells.
        looks: u64,
        /// How many of its comments tell an acknowledgement.
        acks: u64,
        /// How many of High's times it tells.
        times: u64,
    },
    /// A line is wrong.
    No {
        /// Its number, counted from 1; the end of a record stands in the line behind the last.
        line: u64,
        /// What is wrong with it, 1 to 5 (`docs/formats.md`, "Audits").
        cause: u32,
    },
}

/// Why a record could not be checked.
#[derive(Clone, Copy, PartialEq, Eq, Debug)]
pub enum AuditFault {
    /// The record could not be read.
    Read,
    /// There was no memory.
    Memory,
}

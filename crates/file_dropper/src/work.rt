// What a dropper is at.
ghost use Rattle.std.specs.Prelude.{◌≡◌, ◌+◌, ◌^◌, ◌<◌, ◌≤◌, ◌↔◌, IsTrue};
ghost use Rattle.file_messages.specs.FileNames.{IsFileName};
ghost use Rattle.file_dropper.specs.Leaving.{cut_length};
ghost use Rattle.file_dropper.specs.Works.{ended_in};

use crate::reading::{Measure, Reading};
use file_messages::{FileName, Progress};
use pump_link::Source;

/// A file that is being sent, or was: the number of its first message, and what its mark tells of it.
#[derive(Clone, Copy)]
pub struct Sent {
    /// The number of its first message.
    pub start: u64,
    /// How many bytes it has.
    pub size: u64,
    /// The SHA-256 of its bytes.
    pub digest: [u8; 32],
    /// Its name.
    pub name: FileName,
}

impl Sent {
    pub(crate) fn new(start: u64, measure: &Measure, name: &FileName) -> Sent
        ensures value { result ≡ record {
          start = start;
          size = measure.now.size;
          digest = measure.now.digest;
          name = name.now;
        } }
        ensures name { IsFileName result.name }
    {
        let _name = name.as_slice();
        Sent {
            start,
            size: measure.size,
            digest: measure.digest,
            name: *name,
        }
    }

    // Is this the measure of the file?
    pub(crate) fn is_of(&self, measure: &Measure) -> bool
        ensures { IsTrue result ↔ ((measure.now.size ≡ self.now.size) × (measure.now.digest ≡ self.now.digest)) }
    {
        self.size == measure.size && self.digest == measure.digest
    }
}

/// How many messages a file of this size is, of at most `message` bytes each.
pub(crate) fn cut_length(message: u32, size: u64) -> u64
    requires least { 2 ≤ message }
    requires few { size < 2 ^ 48 }
    ensures value { result ≡ cut_length message size }
    ensures few { result ≤ size + 2 }
{
    let message = u64::from(message);
    (size + (message - 2)) / (message - 1) + 2
}

/// The messages of a file are coming.
#[derive(Drop)]
pub struct Sender<F> {
    pub sent: Sent,
    pub reading: Reading<F>,
    /// Was its first message given?
    pub started: bool,
}

/// What a dropper is at. A name is that of the file that is marked.
#[derive(Drop)]
pub enum Work<F> {
    /// It does not know yet, or not any more.
    Unsettled,
    /// A file that may have begun is given up next.
    GivingUp(Option<FileName>),
    /// A file begins next.
    Free(Option<FileName>),
    /// The messages of a file come.
    Sending(Sender<F>),
    /// The end of a file was given.
    Ended(Sent),
    /// A read of a file failed, or the file is too long.
    Failed(Reading<F>),
}

impl<F: Source + Drop> Work<F> {
    /// How far the file is that is being sent.
    pub fn progress(&self) -> Option<Progress> {
        match self {
            Work::Sending(sender) => Some(Progress {
                name: sender.sent.name,
                size: sender.sent.size,
                bytes: sender.reading.bytes(),
            }),
            Work::Unsettled
            | Work::GivingUp(_)
            | Work::Free(_)
            | Work::Ended(_)
            | Work::Failed(_) => None,
        }
    }
}

impl<F> Work<F> {
    /// The file whose end was given.
    pub fn ended(&self) -> Option<Sent>
        ensures { result ≡ ended_in self.now }
    {
        match self {
            Work::Ended(sent) => Some(*sent),
            Work::Unsettled
            | Work::GivingUp(_)
            | Work::Free(_)
            | Work::Sending(_)
            | Work::Failed(_) => None,
        }
    }
}

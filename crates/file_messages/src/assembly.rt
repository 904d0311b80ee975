// What a receiver makes of messages of files.
ghost use Rattle.std.specs.Prelude.{◌≡◌, ◌^◌, ◌<◌, ◌≤◌, IsNone, IfSome};
ghost use Rattle.file_messages.specs.Messages.{Start, Other, start_of};

use crate::file_name::FileName;
use crate::spelling::{ABANDON, END, HEAD, LIMIT, PIECE, START, VERSION};
use byteorder::{BigEndian, ByteOrder};
use sha2::{Digest, Sha256};

/// Why a file that has begun is dropped.
#[derive(Clone, Copy, PartialEq, Eq, Debug)]
pub enum Cause {
    /// The sender gave it up.
    Abandoned,
    /// Another file begins.
    Begun,
    /// More bytes come than it is to have.
    TooLong,
    /// It ends with fewer bytes than it is to have.
    TooShort,
    /// It ends with another digest than that of its bytes.
    Digest,
    /// What comes is no message of a file.
    Unknown,
}

/// What a message came to.
#[derive(Clone, Copy, PartialEq, Eq, Debug)]
pub enum Step {
    /// A file begins.
    Started,
    /// It has more bytes.
    Grown,
    /// It is whole.
    Whole,
    /// It is dropped.
    Dropped(Cause),
    /// No file has begun, and none begins.
    Odd,
}

/// How far the file is that has begun.
#[derive(Clone, Copy)]
pub struct Progress {
    /// Its name.
    pub name: FileName,
    /// How many bytes it is to have.
    pub size: u64,
    /// How many it has.
    pub bytes: u64,
}

// The file that has begun.
#[derive(Drop)]
struct Part {
    name: FileName,
    size: u64,
    count: u64,
    hasher: Sha256,
    ghost within: { count ≤ size },
    ghost few: { size < 2 ^ 48 },
}

/// What a receiver keeps of the messages so far: of a file that has begun its name, its size, and the
/// number and the SHA-256 of its bytes, but not the bytes.
#[derive(Drop)]
pub struct Assembly {
    part: Option<Part>,
}

// The name and the size that stand behind the kind of a message with which a file begins.
fn read_start(rest: &[u8]) -> Option<(FileName, u64)>
    ensures some { IfSome result (λ start. start_of rest.now ≡ Start start.0 start.1) }
    ensures few { IfSome result (λ start. start.1 < 2 ^ 48) }
    ensures none { IsNone result → start_of rest.now ≡ Other }
{
    if rest.len() < HEAD - 1 {
        return None;
    }
    let size = BigEndian::read_u64(&rest[1..]);
    if rest[0] != VERSION || size >= LIMIT {
        return None;
    }
    let name = FileName::parse(&rest[HEAD - 1..])?;
    Some((name, size))
}

impl Assembly {
    ghost use Rattle.std.specs.Prelude.{◌↔◌, IsSome};
    ghost use Rattle.file_messages.specs.Messages.{Piece, End, message_of};
    ghost use Rattle.file_messages.specs.Files.{State, Between, after};
    ghost use Rattle.file_messages.specs.declared.assembly.Step.TheVariants.{Started};
    ghost use Rattle.file_messages.specs.Assemblies.{StandsFor, TakesMessage, answer, dropped, progress_of};

    /// No file has begun.
    pub fn new() -> Assembly
        ensures { StandsFor result Between }
    {
        Assembly { part: None }
    }

    /// The file of this message has begun, and has no bytes yet: `feed` gives it those that were kept.
    /// `None` exactly where no file begins with the message.
    pub fn resume(start: &[u8]) -> Option<Assembly>
        ensures some { IsSome result ↔ (answer Between (message_of start.now) ≡ Started) }
        ensures value { IfSome result (λ assembly. StandsFor assembly (after Between (message_of start.now))) }
    {
        let mut assembly = Assembly::new();
        if assembly.step(start) != Step::Started {
            return None;
        }
        Some(assembly)
    }

    /// How far the file is that has begun; `None` between two files.
    pub fn progress(&self) -> Option<Progress>
        ensures { (state : State) → StandsFor self.now state → result ≡ progress_of state }
    {
        let part = self.part.as_ref()?;
        Some(Progress {
            name: part.name,
            size: part.size,
            bytes: part.count,
        })
    }

    // Drops the file that has begun.
    fn leave(&mut self, cause: Cause) -> Step
        ensures { (state : State) → StandsFor self.old state
            → StandsFor self.new Between × (result ≡ dropped state cause) }
    {
        match self.part.take() {
            Some(_) => Step::Dropped(cause),
            None => Step::Odd,
        }
    }

    // Begins a file, of what stands behind the kind of its message.
    fn begin(&mut self, rest: &[u8]) -> Step
        ensures { TakesMessage self.old self.new (start_of rest.now) result }
    {
        let Some((name, size)) = read_start(rest) else {
            return self.leave(Cause::Unknown);
        };
        if self.part.is_some() {
            return self.leave(Cause::Begun);
        }
        self.part = Some(Part {
            name,
            size,
            count: 0,
            hasher: Sha256::new(),
        });
        Step::Started
    }

    /// Adds bytes to the file that has begun, as a message with them does.
    pub fn feed(&mut self, piece: &[u8]) -> Step
        ensures { TakesMessage self.old self.new (Piece piece.now) result }
    {
        let Some(mut part) = self.part.take() else {
            return Step::Odd;
        };
        if piece.len() as u64 > part.size - part.count {
            return Step::Dropped(Cause::TooLong);
        }
        part.count += piece.len() as u64;
        part.hasher.update(piece);
        self.part = Some(part);
        Step::Grown
    }

    // Ends the file that has begun.
    fn end(&mut self, digest: &[u8]) -> Step
        ensures { TakesMessage self.old self.new (End digest.now) result }
    {
        let Some(part) = self.part.take() else {
            return Step::Odd;
        };
        if part.count != part.size {
            return Step::Dropped(Cause::TooShort);
        }
        if part.hasher.finalize().as_slice() != digest {
            return Step::Dropped(Cause::Digest);
        }
        Step::Whole
    }

    /// Takes a message. It answers `Whole` only where the file that had begun has as many bytes as it was
    /// to have, and the message tells their SHA-256.
    pub fn step(&mut self, message: &[u8]) -> Step
        ensures { TakesMessage self.old self.new (message_of message.now) result }
    {
        let Some((kind, rest)) = message.split_first() else {
            return self.leave(Cause::Unknown);
        };
        if *kind == PIECE && !rest.is_empty() {
            self.feed(rest)
        } else if *kind == START {
            self.begin(rest)
        } else if *kind == END {
            self.end(rest)
        } else if *kind == ABANDON && rest.is_empty() {
            self.leave(Cause::Abandoned)
        } else {
            self.leave(Cause::Unknown)
        }
    }
}

// How far the one file is that is being sent, as its name tells it.
ghost use Rattle.std.specs.Prelude.{◌≡◌, ◌↔◌, IfSome, IsTrue, Some};
ghost use Rattle.folders.specs.Marks.{HasNumbers, IsMark, hidden_name};

use crate::reading::guess;
use crate::spelling::{put_field, put_number, put_stage};
use arrayvec::ArrayString;
use file_messages::FileName;

// The numbers of messages and the sizes of files are below it.
const LIMIT: u64 = 1 << 48;

// No message has more bytes.
const GREATEST_MESSAGE: u32 = 1024;

/// How far a file is.
#[derive(Clone, Copy)]
pub enum Stage {
    /// It is taken, and no message of it was sent.
    Fresh,
    /// It is being sent.
    Sending {
        /// The number of its first message, below 2^48.
        start: u64,
        /// How many bytes a message of it may have, at most 1,024.
        message: u32,
        /// How many bytes it has, fewer than 2^48.
        size: u64,
        /// The SHA-256 of its bytes.
        digest: [u8; 32],
    },
    /// It changed while it was being sent, and is given up.
    Stopped {
        /// The number of its first message, below 2^48.
        start: u64,
    },
}

/// The mark of the file that is being sent: how far it is, and its own name. It is kept in the name
/// that the file has meanwhile, `.np-S-f-NAME`, `.np-S-s-START-MESSAGE-SIZE-DIGEST-NAME` or
/// `.np-S-a-START-NAME`, where S is the session.
#[derive(Clone, Copy)]
pub struct Mark {
    pub stage: Stage,
    pub name: FileName,
}

// Are its numbers in their ranges?
fn has_numbers(stage: &Stage) -> bool
    ensures { IsTrue result ↔ HasNumbers stage.now }
{
    match stage {
        Stage::Fresh => true,
        Stage::Sending {
            start,
            message,
            size,
            digest: _,
        } => *start < LIMIT && *message <= GREATEST_MESSAGE && *size < LIMIT,
        Stage::Stopped { start } => *start < LIMIT,
    }
}

impl Mark {
    /// The name that the file has meanwhile; its numbers have to be in the ranges that `Stage` tells.
    pub fn spell(&self, session: u32) -> ArrayString<247>
        requires { HasNumbers self.now.stage }
        ensures { result.bytes ≡ hidden_name session self.now }
    {
        let mut text = ArrayString::new();
        put_field(&mut text, ".np");
        put_number::<10>(&mut text, u64::from(session));
        put_stage(&mut text, &self.stage);
        text.push_str(self.name.as_str());
        text
    }

    /// The mark whose name in this session the text is; `None` exactly where it is that of no mark.
    pub fn read(session: u32, text: &[u8]) -> Option<Mark>
        // The name is that of the mark answered,
        ensures found { IfSome result (λ mark. IsMark mark × (text.now ≡ hidden_name session mark)) }
        // and where it is that of a mark, the mark is answered.
        ensures only { (mark : Mark) → IsMark mark → text.now ≡ hidden_name session mark → result ≡ Some mark }
    {
        let mark = guess(text)?;
        if has_numbers(&mark.stage) && mark.spell(session).as_str().as_bytes() == text {
            Some(mark)
        } else {
            None
        }
    }
}

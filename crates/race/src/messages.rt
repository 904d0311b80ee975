// What the low party of a race sends: the messages of a generated script.
ghost use Rattle.std.specs.Prelude.{◌≡◌, [], ◌∷◌, true, false};
ghost use Rattle.pump_frame.specs.Frames.{IsLawful};
ghost use Rattle.pump_frame.specs.declared.frame.Item.{Item};
ghost use Rattle.script_reader.specs.Generated.{drawn, generated_row};
ghost use Rattle.race.specs.Messages.{messages_in, hello_frame, data_frame};

use pump_frame::{Frame, Kind, Payload, SessionRow};
use script_reader::{Act, ArrivingHead, Body, Generator, LineHead};

/// What stands in the room of a frame before the first one.
pub fn no_frame() -> Frame {
    Frame {
        kind: Kind::Hello,
        session: 0,
        number: 0,
        payload: Payload::default(),
    }
}

/// Puts the HELLO of the session into `into`.
pub fn put_hello(row: &SessionRow, into: &mut Frame)
    requires { row.now ≡ generated_row }
    ensures hello { into.new ≡ hello_frame }
    ensures lawful { IsLawful into.new }
{
    *into = Frame::hello(row.id, &row.low, &row.high);
}

/// Puts the DATA of the next message that a generator has left into `into`, and says whether there is
/// one. The room is for its bytes.
pub fn next_message(script: &mut Generator, body: &mut Body, into: &mut Frame) -> bool
    ensures message { result ≡ true → (x : Item) × (into.new ≡ data_frame x)
        × (messages_in script.old ≡ x ∷ messages_in script.new) }
    ensures none { result ≡ false → (messages_in script.old ≡ []) × (messages_in script.new ≡ []) }
    ensures lawful { result ≡ true → IsLawful into.new }
{
    'lines: while let Some(line) = script.next_head(body) {
        if let LineHead::At {
            act: Act::Look {
                arrival: ArrivingHead::Data { number },
                ..
            },
            ..
        } = line
        {
            into.kind = Kind::Data;
            into.session = 1;
            into.number = number;
            into.payload.set(body.as_slice());
            return true;
        }
    }
    false
}

/// The word that follows another.
pub fn next_word(word: u32) -> u32
    ensures { result ≡ drawn word }
{
    word.wrapping_mul(1_664_525).wrapping_add(1_013_904_223)
}

// Reading the lines of a record.
ghost use Rattle.std.specs.Prelude.{◌≡◌, ◌+◌, IfSome, Some, true};
ghost use Rattle.pump_frame.specs.Frames.{IsLawful};
ghost use Rattle.pump_frame.specs.Spellings.{spelling};
ghost use Rattle.pump_frame.specs.declared.frame.Frame.{Frame as FrameValue};
ghost use Rattle.script_reader.specs.declared.line.Line.{Line};
ghost use Rattle.script_reader.specs.Grammar.{IsLine};
ghost use Rattle.script_reader.specs.Heads.{arriving_with, act_with, line_with};
ghost use Rattle.script_reader.specs.Lawful.{IsLawfulLine};
ghost use Rattle.pump_audit.specs.declared.entry.Coming.{Coming};
ghost use Rattle.pump_audit.specs.Entries.{IsEntry};
ghost use Rattle.pump_audit.specs.Noting.{IsComing, IsScript, IsSmall};

use crate::entry::{Entry, LookLine, Offer, Offered};
use crate::notes::read_note;
use pump_frame::{Frame, Reader, Step};
use script_reader::{Act, ArrivingHead, Body, LineHead, ToldFeedback, read_head};

/// What the lines of a record are read into, one after the other. One room serves a whole record.
#[derive(Drop)]
pub(crate) struct Room {
    body: Body,
    frame: Frame,
}

impl Room {
    pub fn new() -> Room {
        Room {
            body: Body::new(),
            frame: Frame::room(),
        }
    }
}

/// Whether these are the bytes of a frame, which is in the room then.
fn read_frame(bytes: &[u8], room: &mut Frame) -> bool
    ensures found { result ≡ true → IsLawful room.new × (spelling room.new ≡ bytes.now) }
    ensures only { (f : FrameValue) → IsLawful f → spelling f ≡ bytes.now → (result ≡ true) × (room.new ≡ f) }
{
    let mut reader = Reader::new();
    for i in 0..bytes.len() {
        match reader.feed_into(bytes[i], room) {
            Step::More => {}
            Step::Whole => {
                if i + 1 < bytes.len() {
                    return false;
                }
                return true;
            }
            Step::Bad { .. } => return false,
        }
    }
    false
}

/// What a look took, by the raw bytes of its line.
fn read_raw<'a>(bytes: &[u8], room: &'a mut Frame) -> Option<Offered<'a>>
    ensures found { IfSome result (λ c. IsComing c (arriving_with bytes.now ArrivingHead.Raw)) }
    ensures only { (c : Coming) → IsComing c (arriving_with bytes.now ArrivingHead.Raw) → result ≡ Some c }
{
    if bytes == [0].as_slice() {
        return Some(Offered::new(Offer::Bad));
    }
    if !read_frame(bytes, room) {
        return None;
    }
    Some(Offered::new(Offer::Frame(room)))
}

/// What a look took, by its line.
fn read_coming<'a>(arrival: &ArrivingHead, bytes: &[u8], room: &'a mut Frame) -> Option<Offered<'a>>
    ensures found { IfSome result (λ c. IsComing c (arriving_with bytes.now arrival.now)) }
    ensures only { (c : Coming) → IsComing c (arriving_with bytes.now arrival.now) → result ≡ Some c }
{
    match arrival {
        ArrivingHead::Nothing => Some(Offered::new(Offer::Nothing)),
        ArrivingHead::Raw => read_raw(bytes, room),
        ArrivingHead::Hello { .. } | ArrivingHead::Data { .. } => None,
    }
}

/// The look of a record that a line of this session and moment is.
fn read_look<'a>(
    session: u32,
    moment: u64,
    act: &Act,
    bytes: &[u8],
    room: &'a mut Frame,
) -> Option<Entry<'a>>
    ensures found { IfSome result (λ e. IsScript e (act_with bytes.now session moment act.now)) }
    ensures only { (e : Entry) → IsScript e (act_with bytes.now session moment act.now) → result ≡ Some e }
{
    match act {
        Act::Told {
            word,
            fault,
            feedback,
            arrival,
        } => Some(Entry::Look(LookLine {
            session,
            moment,
            word: *word,
            is_fault: *fault,
            told: *feedback,
            coming: read_coming(arrival, bytes, room)?,
        })),
        Act::Gone => Some(Entry::Look(LookLine {
            session,
            moment,
            word: 0,
            is_fault: false,
            told: ToldFeedback::Quiet,
            coming: Offered::new(Offer::Gone),
        })),
        _ => None,
    }
}

/// The line of a record that this line of a script is, but for comments.
fn read_script<'a>(head: &LineHead, bytes: &[u8], room: &'a mut Frame) -> Option<Entry<'a>>
    ensures found { IfSome result (λ e. IsScript e (line_with bytes.now head.now)) }
    ensures only { (e : Entry) → IsScript e (line_with bytes.now head.now) → result ≡ Some e }
{
    match head {
        LineHead::LowSession { row, next, held } => {
            if row.first_bad().is_some() {
                return None;
            }
            Some(Entry::Opening {
                row: *row,
                next: *next,
                is_held: *held,
            })
        }
        LineHead::Coarse { session } => Some(Entry::Coarse { session: *session }),
        LineHead::At {
            session,
            moment,
            act,
        } => read_look(*session, *moment, act, bytes, room),
        _ => None,
    }
}

// The line of a record that the text is, by the line of a script that it is.
fn read_headed<'a>(
    head: &LineHead,
    bytes: &[u8],
    text: &[u8],
    room: &'a mut Frame,
) -> Option<Entry<'a>>
    requires line { IsLine (line_with bytes.now head.now) text.now }
    requires only { (line : Line) → IsLine line text.now → line_with bytes.now head.now ≡ line }
    requires lawful { IsLawfulLine (line_with bytes.now head.now) }
    ensures found { IfSome result (λ e. IsEntry e text.now) }
    ensures only { (e : Entry) → IsEntry e text.now → result ≡ Some e }
    ensures small { IfSome result IsSmall }
{
    match head {
        LineHead::Skip => Some(Entry::Comment(read_note(text)?)),
        _ => read_script(head, bytes, room),
    }
}

/// The line of a record that the text is, which has no line end; `None` exactly where it is none.
pub(crate) fn read_entry<'a>(text: &[u8], room: &'a mut Room) -> Option<Entry<'a>>
    ensures found { IfSome result (λ e. IsEntry e text.now) }
    ensures only { (e : Entry) → IsEntry e text.now → result ≡ Some e }
    ensures small { IfSome result IsSmall }
{
    if text.len() > 2400 {
        return None;
    }
    match read_head(text, &mut room.body) {
        Some(head) => read_headed(&head, room.body.as_slice(), text, &mut room.frame),
        None => None,
    }
}

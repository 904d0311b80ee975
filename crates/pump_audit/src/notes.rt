// Reading the comments of a record.
ghost use Rattle.std.specs.Prelude.{◌≡◌, IfSome, Some};
ghost use Rattle.pump_audit.specs.Entries.{IsInRange, note_text};
ghost use Rattle.pump_audit.specs.Noting.{refusal_of, welcome_of, ack_of, refuse_of, reply_of, low_of, time_of};
ghost use Rattle.pump_audit.specs.Noting.{took_of, end_of, marked, note_of, note_at};

use crate::entry::Note;
use pump_core::{Refusal, Reply};
use script_reader::Fields;

#[tactic(auto, unfolding(crate::specs::Noting::refusal_of))]
fn refusal_of(code: u64) -> Option<Refusal>
    ensures { result ≡ refusal_of code }
{
    match code {
        1 => Some(Refusal::Pair),
        2 => Some(Refusal::Frame),
        3 => Some(Refusal::Size),
        4 => Some(Refusal::Step),
        5 => Some(Refusal::Device),
        _ => None,
    }
}

#[tactic(auto, unfolding(crate::specs::Noting::welcome_of))]
fn read_welcome(fields: &mut Fields) -> Option<Reply>
    ensures { result ≡ welcome_of fields.old }
{
    let number = fields.number((1 << 48) + 1)?;
    if !fields.is_done() {
        return None;
    }
    Some(Reply::Welcome { number })
}

#[tactic(auto, unfolding(crate::specs::Noting::ack_of))]
fn read_ack(fields: &mut Fields) -> Option<Reply>
    ensures { result ≡ ack_of fields.old }
{
    let number = fields.number(1 << 48)?;
    if !fields.is_done() {
        return None;
    }
    Some(Reply::Ack { number })
}

#[tactic(auto, unfolding(crate::specs::Noting::refuse_of))]
fn read_refuse(fields: &mut Fields) -> Option<Reply>
    ensures { result ≡ refuse_of fields.old }
{
    let code = fields.number(6)?;
    let why = refusal_of(code)?;
    let number = fields.number((1 << 48) + 1)?;
    if !fields.is_done() {
        return None;
    }
    Some(Reply::Refuse { why, number })
}

#[tactic(auto, unfolding(crate::specs::Noting::reply_of))]
fn read_reply(fields: &mut Fields) -> Option<Reply>
    ensures { result ≡ reply_of fields.old }
{
    let word = fields.next()?;
    if word == b"welcome".as_slice() {
        return read_welcome(fields);
    }
    if word == b"ack".as_slice() {
        return read_ack(fields);
    }
    if word == b"refuse".as_slice() {
        return read_refuse(fields);
    }
    None
}

#[tactic(auto, unfolding(crate::specs::Noting::low_of))]
fn read_low(fields: &mut Fields) -> Option<Note>
    ensures { result ≡ low_of fields.old }
{
    let session = fields.small()?;
    let moment = fields.number((1 << 62) + 1)?;
    let reply = read_reply(fields)?;
    Some(Note::Low {
        session,
        moment,
        reply,
    })
}

#[tactic(auto, unfolding(crate::specs::Noting::time_of))]
fn read_time(fields: &mut Fields) -> Option<Note>
    ensures { result ≡ time_of fields.old }
{
    let micros = fields.number(1_000_000_001)?;
    if !fields.is_done() {
        return None;
    }
    Some(Note::Time {
        micros: micros as u32,
    })
}

#[tactic(auto, unfolding(crate::specs::Noting::took_of))]
fn read_took(fields: &mut Fields) -> Option<Note>
    ensures { result ≡ took_of fields.old }
{
    let count = fields.count()?;
    if !fields.is_done() {
        return None;
    }
    Some(Note::Took { count })
}

#[tactic(auto, unfolding(crate::specs::Noting::end_of))]
fn read_end(fields: &mut Fields) -> Option<Note>
    ensures { result ≡ end_of fields.old }
{
    let accepted = fields.count()?;
    let removed = fields.count()?;
    if !fields.is_done() {
        return None;
    }
    Some(Note::End { accepted, removed })
}

// A comment behind its mark.
#[tactic(auto, unfolding(crate::specs::Noting::marked))]
fn read_marked(fields: &mut Fields) -> Option<Note>
    ensures { result ≡ marked fields.old }
{
    let word = fields.next()?;
    if word == b"low".as_slice() {
        return read_low(fields);
    }
    if word == b"time".as_slice() {
        return read_time(fields);
    }
    if word == b"took".as_slice() {
        return read_took(fields);
    }
    if word == b"end".as_slice() {
        return read_end(fields);
    }
    None
}

#[tactic(auto, unfolding(crate::specs::Noting::note_of))]
fn read_fields(fields: &mut Fields) -> Option<Note>
    ensures { result ≡ note_of fields.old }
{
    let mark = fields.next()?;
    if mark == b"#".as_slice() {
        return read_marked(fields);
    }
    None
}

#[tactic(auto, unfolding(crate::specs::Noting::note_at))]
fn note_at(text: &[u8]) -> Option<Note>
    ensures { result ≡ note_at text.now }
{
    let mut fields = Fields::new(text);
    read_fields(&mut fields)
}

/// The comment of a record that the text is, which has no line end; `None` exactly where it is none.
pub(crate) fn read_note(text: &[u8]) -> Option<Note>
    ensures found { IfSome result (λ note. IsInRange note × (text.now ≡ note_text note)) }
    ensures only { (note : Note) → IsInRange note → text.now ≡ note_text note → result ≡ Some note }
{
    note_at(text)
}

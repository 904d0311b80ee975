// Reading a line of a script from its bytes.
ghost use Rattle.std.specs.Prelude.{◌≡◌, ℕ, List, IfSome, Some, option_map};
ghost use Rattle.script_reader.specs.Heads.{arriving_with, act_with, line_with, CanHold, CanHoldAct, CanHoldLine};
ghost use Rattle.script_reader.specs.Grammar.{IsLine};
ghost use Rattle.script_reader.specs.Lawful.{IsLawfulLine};
ghost use Rattle.script_reader.specs.Parsing.{Reads, row_behind, row_at, session_of, low_session_of, coarse_of};
ghost use Rattle.script_reader.specs.Parsing.{carry_of, hello_of, data_of, raw_of, arriving_of, look_of, told_of};
ghost use Rattle.script_reader.specs.Parsing.{numbered_act_at, plain_act_at, act_of, at_of, line_of, line_at};

use crate::body::Body;
use crate::fields::{Fields, is_word};
use crate::head::{Act, ArrivingHead, LineHead};
use crate::line::Line;
use pump_frame::SessionRow;

/// The line that the bytes are, without a line end; `None` exactly where they are outside the
/// grammar of `docs/formats.md`, "Scripts", also where there are more than 2,400 of them.
pub fn read_line(bytes: &[u8]) -> Option<Line>
    // The bytes are the line answered,
    ensures found { IfSome result (λ line. IsLine line bytes.now) }
    // and where they are a line, it is answered.
    ensures only { (line : Line) → IsLine line bytes.now → result ≡ Some line }
    ensures lawful { IfSome result IsLawfulLine }
{
    read(bytes)
}

fn read(bytes: &[u8]) -> Option<Line>
    ensures { result ≡ line_at bytes.now }
{
    let mut room = Body::new();
    match read_text(bytes, &mut room) {
        Some(line) => Some(line.with(room.as_slice())),
        None => None,
    }
}

/// As `read_line`, with the bytes that come with the line in the room.
pub fn read_head(text: &[u8], body: &mut Body) -> Option<LineHead>
    ensures found { IfSome (option_map (line_with body.new) result) (λ line. IsLine line text.now) }
    ensures only { (line : Line) → IsLine line text.now → option_map (line_with body.new) result ≡ Some line }
    ensures lawful { IfSome (option_map (line_with body.new) result) IsLawfulLine }
    ensures room { IfSome result (λ line. CanHoldLine line body.new) }
{
    read_text(text, body)
}

#[tactic(auto, unfolding(crate::specs::Parsing::line_at))]
fn read_text(text: &[u8], body: &mut Body) -> Option<LineHead>
    ensures value { option_map (line_with body.new) result ≡ line_at text.now }
    ensures room { IfSome result (λ line. CanHoldLine line body.new) }
{
    if text.len() > 2400 {
        return None;
    }
    match text {
        [] | [b'#', ..] => return Some(LineHead::Skip),
        _ => {}
    }
    read_fields(&mut Fields::new(text), body)
}

#[tactic(auto, unfolding(crate::specs::Parsing::line_of))]
fn read_fields(fields: &mut Fields, body: &mut Body) -> Option<LineHead>
    ensures value { option_map (line_with body.new) result ≡ line_of fields.old }
    ensures room { IfSome result (λ it. CanHoldLine it body.new) }
{
    let word = fields.next()?;
    if is_word(word, b"session") {
        return read_session(fields);
    }
    if is_word(word, b"low-session") {
        return read_low_session(fields);
    }
    if is_word(word, b"coarse") {
        return read_coarse(fields);
    }
    if is_word(word, b"carry") {
        return read_carry(fields);
    }
    read_at(word, fields, body)
}

/// A line that has a moment, behind its first word.
#[tactic(auto, unfolding(crate::specs::Parsing::at_of))]
fn read_at(word: &[u8], fields: &mut Fields, body: &mut Body) -> Option<LineHead>
    ensures value { option_map (line_with body.new) result ≡ at_of word.now fields.old }
    ensures room { IfSome result (λ it. CanHoldLine it body.new) }
{
    let session = fields.small()?;
    // At most 2^62 microseconds.
    let moment = fields.number((1 << 62) + 1)?;
    let act = read_act(word, fields, body)?;
    Some(LineHead::At {
        session,
        moment,
        act,
    })
}

/// What is done at a moment, and all fields behind the moment.
#[tactic(auto, unfolding(crate::specs::Parsing::act_of))]
fn read_act(word: &[u8], fields: &mut Fields, body: &mut Body) -> Option<Act>
    ensures value { (session moment : ℕ) → option_map (act_with body.new session moment) result
        ≡ act_of word.now session moment fields.old }
    ensures room { IfSome result (λ it. CanHoldAct it body.new) }
{
    if is_word(word, b"look") {
        return read_look(fields, body);
    }
    if is_word(word, b"told") {
        return read_told(fields, body);
    }
    let act = read_plain_act(word, fields)?;
    if !fields.is_done() {
        return None;
    }
    Some(act)
}

/// What is done at a moment where no bytes come.
#[tactic(auto, unfolding(crate::specs::Parsing::plain_act_at))]
fn read_plain_act(word: &[u8], fields: &mut Fields) -> Option<Act>
    ensures value { (bytes : List ℕ) (session moment : ℕ) → Reads (option_map (act_with bytes session moment) result)
        fields.new (plain_act_at word.now session moment fields.old) }
    ensures room { (bytes : List ℕ) → IfSome result (λ it. CanHoldAct it bytes) }
{
    if is_word(word, b"gone") {
        return Some(Act::Gone);
    }
    if is_word(word, b"high") {
        return Some(Act::High);
    }
    if is_word(word, b"restart") {
        return Some(Act::Restart);
    }
    if is_word(word, b"receiver-restart") {
        return Some(Act::ReceiverRestart);
    }
    read_numbered_act(word, fields)
}

/// As `read_plain_act`, where a number tells more.
#[tactic(auto, unfolding(crate::specs::Parsing::numbered_act_at))]
fn read_numbered_act(word: &[u8], fields: &mut Fields) -> Option<Act>
    ensures value { (bytes : List ℕ) (session moment : ℕ) → Reads (option_map (act_with bytes session moment) result)
        fields.new (numbered_act_at word.now session moment fields.old) }
    ensures room { (bytes : List ℕ) → IfSome result (λ it. CanHoldAct it bytes) }
{
    if is_word(word, b"return") {
        let back = fields.count()?;
        return Some(Act::Return { back });
    }
    if is_word(word, b"done") {
        let time = fields.number(1_000_000_001)?;
        return Some(Act::Done { time: time as u32 });
    }
    if is_word(word, b"step") {
        let word = fields.word()?;
        return Some(Act::Step { word });
    }
    None
}

/// The nine fields of a row, whose ports are then 0.
#[tactic(auto, unfolding(crate::specs::Parsing::row_at))]
fn read_row(fields: &mut Fields) -> Option<SessionRow>
    ensures { Reads result fields.new (row_at fields.old) }
{
    let id = fields.small()?;
    let capacity = fields.small()?;
    let message = fields.small()?;
    let window = fields.small()?;
    read_row_behind(fields, id, capacity, message, window)
}

/// The row of these four numbers and the five fields behind them.
#[tactic(auto, unfolding(crate::specs::Parsing::row_behind))]
fn read_row_behind(
    fields: &mut Fields,
    id: u32,
    capacity: u32,
    message: u32,
    window: u32,
) -> Option<SessionRow>
    ensures { Reads result fields.new (row_behind id capacity message window fields.old) }
{
    let start = fields.small()?;
    let longest = fields.small()?;
    let resend = fields.small()?;
    let low = fields.name()?;
    let high = fields.name()?;
    Some(SessionRow {
        id,
        low,
        high,
        capacity,
        message,
        window,
        start,
        longest,
        resend,
        low_port: 0,
        high_port: 0,
        coarse: false,
    })
}

#[tactic(auto, unfolding(crate::specs::Parsing::session_of))]
fn read_session(fields: &mut Fields) -> Option<LineHead>
    ensures value { (bytes : List ℕ) → option_map (line_with bytes) result ≡ session_of fields.old }
    ensures room { (bytes : List ℕ) → IfSome result (λ it. CanHoldLine it bytes) }
{
    let row = read_row(fields)?;
    if !fields.is_done() {
        return None;
    }
    Some(LineHead::Session(row))
}

#[tactic(auto, unfolding(crate::specs::Parsing::low_session_of))]
fn read_low_session(fields: &mut Fields) -> Option<LineHead>
    ensures value { (bytes : List ℕ) → option_map (line_with bytes) result ≡ low_session_of fields.old }
    ensures room { (bytes : List ℕ) → IfSome result (λ it. CanHoldLine it bytes) }
{
    let row = read_row(fields)?;
    let next = fields.number((1 << 48) + 1)?;
    let held = fields.choice(b"0", b"1")?;
    if held && next == 0 {
        return None;
    }
    if !fields.is_done() {
        return None;
    }
    Some(LineHead::LowSession { row, next, held })
}

#[tactic(auto, unfolding(crate::specs::Parsing::coarse_of))]
fn read_coarse(fields: &mut Fields) -> Option<LineHead>
    ensures value { (bytes : List ℕ) → option_map (line_with bytes) result ≡ coarse_of fields.old }
    ensures room { (bytes : List ℕ) → IfSome result (λ it. CanHoldLine it bytes) }
{
    let session = fields.small()?;
    if !fields.is_done() {
        return None;
    }
    Some(LineHead::Coarse { session })
}

#[tactic(auto, unfolding(crate::specs::Parsing::carry_of))]
fn read_carry(fields: &mut Fields) -> Option<LineHead>
    ensures value { (bytes : List ℕ) → option_map (line_with bytes) result ≡ carry_of fields.old }
    ensures room { (bytes : List ℕ) → IfSome result (λ it. CanHoldLine it bytes) }
{
    let session = fields.small()?;
    let back = fields.count()?;
    if !fields.is_done() {
        return None;
    }
    Some(LineHead::Carry { session, back })
}

#[tactic(auto, unfolding(crate::specs::Parsing::hello_of))]
fn read_hello(fields: &mut Fields) -> Option<ArrivingHead>
    ensures value { (bytes : List ℕ) → option_map (arriving_with bytes) result ≡ hello_of fields.old }
    ensures room { (bytes : List ℕ) → IfSome result (λ it. CanHold it bytes) }
{
    let low = fields.name()?;
    let high = fields.name()?;
    if !fields.is_done() {
        return None;
    }
    Some(ArrivingHead::Hello { low, high })
}

#[tactic(auto, unfolding(crate::specs::Parsing::data_of))]
fn read_data(fields: &mut Fields, body: &mut Body) -> Option<ArrivingHead>
    ensures value { option_map (arriving_with body.new) result ≡ data_of fields.old }
    ensures room { IfSome result (λ it. CanHold it body.new) }
{
    let number = fields.number(1 << 48)?;
    fields.hex(body)?;
    if !fields.is_done() {
        return None;
    }
    Some(ArrivingHead::Data { number })
}

#[tactic(auto, unfolding(crate::specs::Parsing::raw_of))]
fn read_raw(fields: &mut Fields, body: &mut Body) -> Option<ArrivingHead>
    ensures value { option_map (arriving_with body.new) result ≡ raw_of fields.old }
    ensures room { IfSome result (λ it. CanHold it body.new) }
{
    fields.raw(body)?;
    if !fields.is_done() {
        return None;
    }
    Some(ArrivingHead::Raw)
}

#[tactic(auto, unfolding(crate::specs::Parsing::arriving_of))]
fn read_arriving(fields: &mut Fields, body: &mut Body) -> Option<ArrivingHead>
    ensures value { option_map (arriving_with body.new) result ≡ arriving_of fields.old }
    ensures room { IfSome result (λ it. CanHold it body.new) }
{
    let Some(word) = fields.next() else {
        return Some(ArrivingHead::Nothing);
    };
    if is_word(word, b"hello") {
        return read_hello(fields);
    }
    if is_word(word, b"data") {
        return read_data(fields, body);
    }
    if is_word(word, b"raw") {
        return read_raw(fields, body);
    }
    None
}

#[tactic(auto, unfolding(crate::specs::Parsing::look_of))]
fn read_look(fields: &mut Fields, body: &mut Body) -> Option<Act>
    ensures value { (session moment : ℕ) → option_map (act_with body.new session moment) result
        ≡ look_of session moment fields.old }
    ensures room { IfSome result (λ it. CanHoldAct it body.new) }
{
    let word = fields.word()?;
    let arrival = read_arriving(fields, body)?;
    Some(Act::Look { word, arrival })
}

#[tactic(auto, unfolding(crate::specs::Parsing::told_of))]
fn read_told(fields: &mut Fields, body: &mut Body) -> Option<Act>
    ensures value { (session moment : ℕ) → option_map (act_with body.new session moment) result
        ≡ told_of session moment fields.old }
    ensures room { IfSome result (λ it. CanHoldAct it body.new) }
{
    let word = fields.word()?;
    let fault = fields.choice(b"fine", b"fault")?;
    let feedback = fields.feedback()?;
    let arrival = read_arriving(fields, body)?;
    Some(Act::Told {
        word,
        fault,
        feedback,
        arrival,
    })
}

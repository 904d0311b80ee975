// The fields of a line, read one by one.
ghost use Rattle.std.specs.Prelude.{◌≡◌, ℕ, ◌+◌, ◌^◌, ◌<◌, ◌≤◌, List, [], ◌∷◌, length, IsSome, IfSome, MatchOption};
ghost use Rattle.std.specs.Prelude.{IsTrue, ◌↔◌, option_map, position, take, Some};
ghost use Rattle.std.specs.List.{slice_split};
ghost use Rattle.std.specs.Str.Parse.{AllDigits, digits_value};
ghost use Rattle.std.specs.Option.{option_copied};
ghost use Rattle.script_reader.specs.Fields.{is_space};
ghost use Rattle.script_reader.specs.Parsing.{Reads, field_at, IsPlain, number, word, name, choice, is_slash, pair};
ghost use Rattle.script_reader.specs.Parsing.{feedback, hex, raw, held_from};

use crate::body::Body;
use crate::digits::decode;
use crate::line::ToldFeedback;
use memchr::memchr;
use pump_frame::Name;
use std::marker::Model;

/// The fields of a line that are left, with one space between.
#[derive(Drop)]
pub struct Fields<'a> {
    rest: Option<&'a [u8]>,
}

impl<'a> Model for Fields<'a> {
    ghost use Rattle.std.specs.Prelude.{ℕ, List};
    ghost use Rattle.std.specs.Option.{option_copied};
    ghost use Rattle.script_reader.specs.Fields.{fields_from};

    ghost Value = { List (List ℕ) };

    ghost view = { λ s. fields_from (option_copied s.rest) };
}

fn first_space(bytes: &[u8]) -> Option<usize>
    ensures { result ≡ position is_space bytes.now }
{
    bytes.iter().position(|b| *b == b' ')
}

/// As `first_space`, and faster where the space comes late.
fn late_space(bytes: &[u8]) -> Option<usize>
    ensures { result ≡ position is_space bytes.now }
{
    memchr(b' ', bytes)
}

/// Whether the field is this word. A loop of its own, since most words are shorter than what a comparison
/// of slices begins with.
pub(crate) fn is_word(field: &[u8], word: &[u8]) -> bool
    ensures { IsTrue result ↔ (field.now ≡ word.now) }
{
    if field.len() != word.len() {
        return false;
    }
    'bytes: for i in 0..field.len() {
        if field[i] != word[i] {
            return false;
        }
    }
    true
}

#[tactic(auto, using(crate::proofs::FieldLaws::reads_field))]
impl<'a> Fields<'a> {
    /// The fields of a line, without its end.
    pub fn new(bytes: &'a [u8]) -> Self
        ensures { result ≡ slice_split is_space bytes.now }
    {
        Fields { rest: Some(bytes) }
    }

    /// Whether no field is left.
    pub fn is_done(&self) -> bool
        ensures { IsTrue result ↔ (self.now ≡ []) }
    {
        self.rest.is_none()
    }

    /// The next field; `None` where none is left. Of this call and those below, which read the next field
    /// as something, an answer `None` leaves the fields unsaid.
    pub fn next(&mut self) -> Option<&'a [u8]>
        ensures { MatchOption result (self.old ≡ []) (λ field. self.old ≡ field.now ∷ self.new) }
    {
        let rest = self.rest?;
        Some(self.take_field(rest, first_space(rest)))
    }

    /// As `next`, for a field that may be long.
    fn next_long(&mut self) -> Option<&'a [u8]>
        ensures { MatchOption result (self.old ≡ []) (λ field. self.old ≡ field.now ∷ self.new) }
    {
        let rest = self.rest?;
        Some(self.take_field(rest, late_space(rest)))
    }

    /// The next field, of the bytes that are left and of the place of their first space.
    #[inline(always)]
    fn take_field(&mut self, rest: &'a [u8], space: Option<usize>) -> &'a [u8]
        requires rest { self.old ≡ slice_split is_space rest.now }
        requires space { space ≡ position is_space rest.now }
        ensures { self.old ≡ result.now ∷ self.new }
    {
        match space {
            Some(at) => {
                self.rest = Some(&rest[at + 1..]);
                &rest[..at]
            }
            None => {
                self.rest = None;
                rest
            }
        }
    }

    /// A number below the bound.
    pub fn number(&mut self, bound: u64) -> Option<u64>
        ensures reads { Reads result self.new (field_at (number bound) self.old) }
        ensures below { IfSome result (λ n. n < bound) }
    {
        let n = self.count()?;
        if n < bound { Some(n) } else { None }
    }

    /// A number without another bound than 2^64.
    pub fn count(&mut self) -> Option<u64>
        ensures { Reads result self.new (field_at (number (2 ^ 64)) self.old) }
    {
        let rest = self.rest?;
        match short_number(rest) {
            Some((n, space)) => {
                self.take_field(rest, space);
                Some(n)
            }
            None => any_number_of(self.next()?),
        }
    }

    /// A number below 2^32.
    pub fn small(&mut self) -> Option<u32>
        ensures { Reads result self.new (field_at (number (2 ^ 32)) self.old) }
    {
        let n = self.number(1 << 32)?;
        Some(n as u32)
    }

    /// Eight hexadecimal digits.
    pub fn word(&mut self) -> Option<u32>
        ensures { Reads result self.new (field_at word self.old) }
    {
        word_of(self.next()?)
    }

    /// A name.
    pub fn name(&mut self) -> Option<Name>
        ensures { Reads result self.new (field_at name self.old) }
    {
        name_of(self.next()?)
    }

    /// Which of two words it is; the second answers true.
    pub fn choice(&mut self, off: &[u8], on: &[u8]) -> Option<bool>
        ensures { Reads result self.new (field_at (choice off.now on.now) self.old) }
    {
        choice_of(self.next()?, off, on)
    }

    /// What the passage tells in a look.
    pub fn feedback(&mut self) -> Option<ToldFeedback>
        ensures { Reads result self.new (field_at feedback self.old) }
    {
        feedback_of(self.next()?)
    }

    /// Bytes for a reader of frames, into a room.
    pub fn raw(&mut self, body: &mut Body) -> Option<()>
        ensures reads { Reads (held_from (option_map (λ none. body.new) result)) self.new (field_at raw self.old) }
        ensures few { IsSome result → length body.new ≤ 1042 }
    {
        raw_of(self.next_long()?, body)
    }

    /// Bytes in hexadecimal digits, into a room.
    pub fn hex(&mut self, body: &mut Body) -> Option<()>
        ensures reads { Reads (option_map (λ none. body.new) result) self.new (field_at hex self.old) }
        ensures few { IsSome result → length body.new ≤ 1024 }
    {
        hex_of(self.next_long()?, body)
    }
}

#[tactic(auto, unfolding(crate::specs::Parsing::raw))]
fn raw_of(field: &[u8], body: &mut Body) -> Option<()>
    ensures value { held_from (option_map (λ none. body.new) result) ≡ raw field.now }
    ensures few { IsSome result → length body.new ≤ 1042 }
{
    let half = field.len() / 2;
    if half == 0 || half > 1042 {
        return None;
    }
    if body.decode(field, half) {
        Some(())
    } else {
        None
    }
}

#[tactic(auto, unfolding(crate::specs::Parsing::hex))]
fn hex_of(field: &[u8], body: &mut Body) -> Option<()>
    ensures value { option_map (λ none. body.new) result ≡ hex field.now }
    ensures few { IsSome result → length body.new ≤ 1024 }
{
    if is_word(field, b"-") {
        body.clear();
        return Some(());
    }
    let half = field.len() / 2;
    if half == 0 || half > 1024 {
        return None;
    }
    if body.decode(field, half) {
        Some(())
    } else {
        None
    }
}

/// Whether the field begins with a digit, and has no leading zero.
fn is_plain(field: &[u8]) -> bool
    ensures { IsTrue result ↔ IsPlain field.now }
{
    match field {
        [] => false,
        [first] => first.is_ascii_digit(),
        [first, ..] => *first > b'0' && *first <= b'9',
    }
}

/// A number below 2^64.
fn any_number_of(field: &[u8]) -> Option<u64>
    ensures { result ≡ number (2 ^ 64) field.now }
{
    if !is_plain(field) {
        return None;
    }
    let (n, count) = leading_digits(field);
    if count == field.len() {
        Some(n)
    } else {
        long_number_of(field)
    }
}

/// The number of the digits in front, and how many they are: at most 19, of which no number is too great.
fn leading_digits(bytes: &[u8]) -> (u64, usize)
    ensures count { result.1 ≤ length bytes.now }
    ensures few { result.1 ≤ 19 }
    ensures digits { AllDigits 10 (take result.1 bytes.now) }
    ensures value { result.0 ≡ digits_value 10 (take result.1 bytes.now) }
{
    let mut n: u64 = 0;
    let most = bytes.len().min(19);
    'digits: for i in 0..most {
        let byte = bytes[i];
        if !byte.is_ascii_digit() {
            return (n, i);
        }
        n = n * 10 + u64::from(byte - b'0');
    }
    (n, most)
}

/// The number in front of the first space, and where that is; `None` where the field there is no number,
/// and maybe where it has 20 digits.
fn short_number(bytes: &[u8]) -> Option<(u64, Option<usize>)>
    ensures space { IfSome result (λ found. found.1 ≡ position is_space bytes.now) }
    ensures number { IfSome result (λ found. (left : List (List ℕ)) × Reads (Some found.0) left (field_at (number (2
        ^ 64)) (slice_split is_space bytes.now))) }
{
    let (n, count) = leading_digits(bytes);
    if !is_plain(&bytes[..count]) {
        return None;
    }
    if count == bytes.len() {
        Some((n, None))
    } else if bytes[count] == b' ' {
        Some((n, Some(count)))
    } else {
        None
    }
}

fn long_number_of(field: &[u8]) -> Option<u64>
    requires { IsPlain field.now }
    ensures { result ≡ number (2 ^ 64) field.now }
{
    let mut n: u64 = 0;
    'digits: for i in 0..field.len() {
        let byte = field[i];
        if !byte.is_ascii_digit() {
            return None;
        }
        let tens = n.checked_mul(10)?;
        n = tens.checked_add(u64::from(byte - b'0'))?;
    }
    Some(n)
}

fn number_of(field: &[u8], bound: u64) -> Option<u64>
    ensures read { result ≡ number bound field.now }
    ensures below { IfSome result (λ n. n < bound) }
{
    let n = any_number_of(field)?;
    if n < bound { Some(n) } else { None }
}

#[tactic(auto, unfolding(crate::specs::Parsing::choice))]
fn choice_of(field: &[u8], off: &[u8], on: &[u8]) -> Option<bool>
    ensures { result ≡ choice off.now on.now field.now }
{
    if is_word(field, off) {
        Some(false)
    } else if is_word(field, on) {
        Some(true)
    } else {
        None
    }
}

fn first_slash(bytes: &[u8]) -> Option<usize>
    ensures { result ≡ position is_slash bytes.now }
{
    bytes.iter().position(|b| *b == b'/')
}

/// A count and an average with a slash between.
#[tactic(auto, unfolding(crate::specs::Parsing::pair))]
fn pair_of(field: &[u8]) -> Option<ToldFeedback>
    ensures { result ≡ pair field.now }
{
    let at = first_slash(field)?;
    let count = number_of(&field[..at], 1 << 32)?;
    let average = number_of(&field[at + 1..], 1_000_000_001)?;
    Some(ToldFeedback::Pair {
        count: count as u32,
        average: average as u32,
    })
}

#[tactic(auto, unfolding(crate::specs::Parsing::feedback))]
fn feedback_of(field: &[u8]) -> Option<ToldFeedback>
    ensures { result ≡ feedback field.now }
{
    if is_word(field, b"-") {
        Some(ToldFeedback::Quiet)
    } else if is_word(field, b"full") {
        Some(ToldFeedback::Full)
    } else {
        pair_of(field)
    }
}

fn word_of(field: &[u8]) -> Option<u32>
    ensures { result ≡ word field.now }
{
    let mut bytes = [0; 4];
    if decode(field, &mut bytes) {
        Some(u32::from_be_bytes(bytes))
    } else {
        None
    }
}

fn name_of(field: &[u8]) -> Option<Name>
    ensures { result ≡ name field.now }
{
    Name::from_slice(field)
}

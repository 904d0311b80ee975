// The lines that tell what became of files.
ghost use Rattle.std.specs.Prelude.{◌≡◌, ◌+◌, ◌≤◌, [], ◌∷◌, ◌++◌, codes, decimal, false, length};
ghost use Rattle.arrayvec.specs.ArrayVec.{array_vec_len};
ghost use Rattle.hex.specs.Hex.{encode_lower};
ghost use Rattle.script_reader.specs.Transcript.{line_with_end};
ghost use Rattle.pump_frame.specs.Counts.{Rose};
ghost use Rattle.peers.specs.Outputs.{PrintsPart};
ghost use Rattle.file_peers.specs.Lines.{cause_word, file_line, dropped_line, odd_line, sent_line, again_line};

use arrayvec::ArrayVec;
use file_messages::{Cause, FileName};
use peers::{print, put_number};
use pump_link::Sink;

/// How many bytes of room a line has.
const ROOM: usize = 320;

/// A file that is whole: how many bytes it has, their SHA-256, and its name, of at most 144 bytes.
#[derive(Clone, Copy)]
pub struct Whole<'a> {
    pub size: u64,
    pub digest: &'a [u8; 32],
    pub name: &'a [u8],
}

// A space and a text behind what is there.
fn put_text(into: &mut ArrayVec<u8, ROOM>, text: &[u8])
    requires { array_vec_len into.old + 1 + length text.now ≤ 320 }
    ensures items { into.new.items ≡ into.old.items ++ 32 ∷ text.now }
    ensures len { array_vec_len into.new ≡ array_vec_len into.old + 1 + length text.now }
{
    into.try_extend_from_slice(b" ").unwrap();
    into.try_extend_from_slice(text).unwrap();
}

// .. a digest
fn put_digest(into: &mut ArrayVec<u8, ROOM>, digest: &[u8; 32])
    requires { array_vec_len into.old + 65 ≤ 320 }
    ensures items { into.new.items ≡ into.old.items ++ 32 ∷ encode_lower digest.now }
    ensures len { array_vec_len into.new ≡ array_vec_len into.old + 65 }
{
    let mut digits = [0; 64];
    hex::encode_to_slice(digest.as_slice(), &mut digits).unwrap();
    put_text(into, &digits);
}

// A word, a session and the number of a message.
fn put_head(into: &mut ArrayVec<u8, ROOM>, word: &[u8], session: u32, number: u64)
    requires empty { into.old.items ≡ [] }
    requires short { length word.now ≤ 8 }
    ensures items { into.new.items ≡ word.now ++ 32 ∷ decimal session ++ 32 ∷ decimal number }
    ensures len { array_vec_len into.new ≤ 50 }
{
    into.try_extend_from_slice(word).unwrap();
    put_number(into, u64::from(session));
    put_number(into, number);
}

// The line of a file that is whole.
fn put_whole(
    into: &mut ArrayVec<u8, ROOM>,
    word: &[u8],
    session: u32,
    number: u64,
    whole: &Whole<'_>,
)
    requires empty { into.old.items ≡ [] }
    requires short { length word.now ≤ 8 }
    requires name { length whole.now.name.now ≤ 144 }
    ensures { into.new.items ≡ line_with_end (word.now ∷ decimal session ∷ decimal number ∷ decimal whole.now.size
        ∷ encode_lower whole.now.digest.now ∷ whole.now.name.now ∷ []) }
{
    put_head(into, word, session, number);
    put_number(into, whole.size);
    put_digest(into, whole.digest);
    put_text(into, whole.name);
    into.try_extend_from_slice(b"\n").unwrap();
}

// The word of a cause.
fn cause_word(cause: Cause) -> &'static [u8]
    ensures word { result.now ≡ cause_word cause }
    ensures short { length result.now ≤ 9 }
{
    match cause {
        Cause::Abandoned => b"abandoned",
        Cause::Begun => b"begun",
        Cause::TooLong => b"toolong",
        Cause::TooShort => b"tooshort",
        Cause::Digest => b"digest",
        Cause::Unknown => b"unknown",
    }
}

/// Prints that a file is shown, and says whether the line was written whole.
pub fn print_file<O: Sink>(out: &mut O, session: u32, number: u64, whole: &Whole<'_>) -> bool
    requires name { length whole.now.name.now ≤ 144 }
    ensures printed { PrintsPart (O.written out.old) (O.written out.new) result
        (file_line session number whole.now.size whole.now.digest.now whole.now.name.now) }
    ensures later { O.faults out.old ≤ O.faults out.new }
    ensures failed { result ≡ false → Rose (O.faults out.old) (O.faults out.new) }
{
    let mut line = ArrayVec::new();
    put_whole(&mut line, b"file", session, number, whole);
    print(out, line.as_slice())
}

/// Prints that a file was sent whole, and says whether the line was written whole.
pub fn print_sent<O: Sink>(out: &mut O, session: u32, number: u64, whole: &Whole<'_>) -> bool
    requires name { length whole.now.name.now ≤ 144 }
    ensures printed { PrintsPart (O.written out.old) (O.written out.new) result
        (sent_line session number whole.now.size whole.now.digest.now whole.now.name.now) }
    ensures later { O.faults out.old ≤ O.faults out.new }
    ensures failed { result ≡ false → Rose (O.faults out.old) (O.faults out.new) }
{
    let mut line = ArrayVec::new();
    put_whole(&mut line, b"sent", session, number, whole);
    print(out, line.as_slice())
}

/// Prints that a file was dropped, and says whether the line was written whole.
pub fn print_dropped<O: Sink>(
    out: &mut O,
    session: u32,
    number: u64,
    cause: Cause,
    name: &FileName,
) -> bool
    ensures printed { PrintsPart (O.written out.old) (O.written out.new) result
        (dropped_line session number cause name.now) }
    ensures later { O.faults out.old ≤ O.faults out.new }
    ensures failed { result ≡ false → Rose (O.faults out.old) (O.faults out.new) }
{
    let mut line = ArrayVec::new();
    put_head(&mut line, b"dropped", session, number);
    put_text(&mut line, cause_word(cause));
    put_text(&mut line, name.as_slice());
    line.try_extend_from_slice(b"\n").unwrap();
    print(out, line.as_slice())
}

/// Prints that a message is none of a file, and says whether the line was written whole.
pub fn print_odd<O: Sink>(out: &mut O, session: u32, number: u64) -> bool
    ensures printed { PrintsPart (O.written out.old) (O.written out.new) result (odd_line session number) }
    ensures later { O.faults out.old ≤ O.faults out.new }
    ensures failed { result ≡ false → Rose (O.faults out.old) (O.faults out.new) }
{
    let mut line = ArrayVec::new();
    put_head(&mut line, b"odd", session, number);
    line.try_extend_from_slice(b"\n").unwrap();
    print(out, line.as_slice())
}

/// Prints that a file changed and is sent again, and says whether the line was written whole.
pub fn print_again<O: Sink>(out: &mut O, session: u32, number: u64, name: &FileName) -> bool
    ensures printed { PrintsPart (O.written out.old) (O.written out.new) result
        (again_line session number name.now) }
    ensures later { O.faults out.old ≤ O.faults out.new }
    ensures failed { result ≡ false → Rose (O.faults out.old) (O.faults out.new) }
{
    let mut line = ArrayVec::new();
    put_head(&mut line, b"again", session, number);
    put_text(&mut line, name.as_slice());
    line.try_extend_from_slice(b"\n").unwrap();
    print(out, line.as_slice())
}

//! How a command over a session of the table ends, and what it writes then.

ghost use Rattle.std.specs.Prelude.{◌≡◌, ◌⊎◌, ◌+◌, ◌≤◌, [], ◌∷◌, ◌++◌, length, decimal};
ghost use Rattle.arrayvec.specs.ArrayVec.{array_vec_len};
ghost use Rattle.pump_frame.specs.Counts.{Rose};
ghost use Rattle.recovery.specs.Faults.{why_number, why_values};
ghost use Rattle.script_reader.specs.declared.fault.Fault.TheVariants as faults;
ghost use Rattle.command_ends.specs.CommandEnds.{end_status, end_line, ClosesSo, Closes, TellsWords};
ghost use Rattle.command_ends.specs.NoRows.{table_line};

use crate::NoRow;
use arrayvec::ArrayVec;
use disk_model::Role;
use pump_link::{Sink, write_all};
use recovery::Why;
use script_reader::{Fault, append_fault};

/// How a command over a session of the table ends.
#[derive(Clone, Copy)]
pub enum CommandEnd {
    Done,
    /// There was not enough memory.
    Memory,
    /// The table's file, the messages to send or the key could not be read.
    Unread,
    /// The line of the script with this number, counted from 1, is no message.
    BadLine { line: u32 },
    /// The session has no row, or none that will do.
    NoRow(NoRow),
    /// The disk could not be taken off the shelf, or a call of it failed.
    Failed { role: Role },
    /// The disk is refused.
    Refused { role: Role, why: Why },
    /// A port could not be listened at, or nobody answered at it.
    Unconnected,
    /// The receiver was given the message with this number, and wants the one with the number `count`.
    Ahead { number: u64, count: u64 },
    /// A message of `length` bytes does not fit behind `end` on the receiver's disk, which has `size`
    /// bytes.
    Full { end: u64, length: u32, size: u64 },
    /// The relay refused a frame with this code, and the number that stands in its answer.
    Denied { code: u32, number: u64 },
    /// The message with this number, and those behind it, are not acknowledged.
    Unfinished { number: u64 },
    /// The output could not be written.
    Unwritten,
    /// `wrap`: the receiver has the whole file: its bytes, and its messages.
    Wrapped { bytes: u64, messages: u64 },
    /// `wrap`: the receiver has another message with this number than the file, or one that the file lacks.
    FileDiffers { number: u64 },
    /// `wrap`, `drop`: the file has 2^48 bytes or more.
    TooLong,
    /// `unwrap`: no file has the message with this number there.
    NotWrapped { number: u64 },
    /// `unwrap`: the messages begin a file.
    PartOfFile,
    /// The folder was not given, or a call on it failed.
    Folder,
    /// `collect`: a file is whole that ended with the message of this number, but its name is taken, and also
    /// the one with that number.
    NameTaken { number: u64 },
    /// `drop`: more than one file is marked.
    Marks,
    /// `collect`: the register in the folder is none, or is damaged.
    Register,
    /// `drop`: the sending of the marked file, whose first message has the number `start`, can't have come to
    /// so many messages accepted.
    Step { start: u64, accepted: u64 },
}

impl CommandEnd {
    /// The status of the program.
    pub fn status(&self) -> u8
        ensures { result ≡ end_status self.now }
    {
        match self {
            CommandEnd::Done | CommandEnd::Wrapped { .. } => 0,
            CommandEnd::Memory => 1,
            CommandEnd::Unread => 3,
            CommandEnd::Unwritten => 4,
            CommandEnd::BadLine { .. } => 5,
            CommandEnd::NoRow(_) => 6,
            CommandEnd::Failed { .. } | CommandEnd::Folder | CommandEnd::NameTaken { .. } => 7,
            CommandEnd::Refused { .. } | CommandEnd::Marks | CommandEnd::Register => 8,
            CommandEnd::Unconnected => 9,
            CommandEnd::Ahead { .. } | CommandEnd::Full { .. } => 10,
            CommandEnd::Denied { .. } => 11,
            CommandEnd::Unfinished { .. } => 12,
            CommandEnd::FileDiffers { .. } | CommandEnd::NotWrapped { .. } => 13,
            CommandEnd::Step { .. } => 13,
            CommandEnd::TooLong | CommandEnd::PartOfFile => 14,
        }
    }
}

/// Puts a text behind what is there.
pub fn put<const N: usize>(into: &mut ArrayVec<u8, N>, text: &[u8])
    requires { array_vec_len into.old + length text.now ≤ N }
    ensures items { into.new.items ≡ into.old.items ++ text.now }
    ensures len { array_vec_len into.new ≡ array_vec_len into.old + length text.now }
{
    into.try_extend_from_slice(text).unwrap();
}

/// Puts a space and a number behind what is there.
pub fn put_number<const N: usize>(into: &mut ArrayVec<u8, N>, number: u64)
    requires { array_vec_len into.old + 21 ≤ N }
    ensures items { into.new.items ≡ into.old.items ++ 32 ∷ decimal number }
    ensures len { array_vec_len into.new ≤ array_vec_len into.old + 21 }
{
    let mut digits = itoa::Buffer::new();
    put(into, b" ");
    put(into, digits.format(number).as_bytes());
}

/// A line of these words and a number.
pub fn put_one(into: &mut ArrayVec<u8, 256>, words: &[u8], number: u64)
    requires empty { into.old.items ≡ [] }
    requires short { length words.now ≤ 100 }
    ensures { into.new.items ≡ words.now ++ 32 ∷ decimal number ++ 10 ∷ [] }
{
    put(into, words);
    put_number(into, number);
    put(into, b"\n");
}

/// .. and two numbers.
pub fn put_two(into: &mut ArrayVec<u8, 256>, words: &[u8], first: u64, second: u64)
    requires empty { into.old.items ≡ [] }
    requires short { length words.now ≤ 100 }
    ensures { into.new.items ≡ words.now ++ 32 ∷ decimal first ++ 32 ∷ decimal second ++ 10 ∷ [] }
{
    put(into, words);
    put_number(into, first);
    put_number(into, second);
    put(into, b"\n");
}

/// .. and three numbers.
pub fn put_three(into: &mut ArrayVec<u8, 256>, words: &[u8], first: u64, second: u64, third: u64)
    requires empty { into.old.items ≡ [] }
    requires short { length words.now ≤ 100 }
    ensures { into.new.items ≡ words.now ++ 32 ∷ decimal first ++ 32 ∷ decimal second ++ 32 ∷ decimal third ++ 10 ∷ [] }
{
    put(into, words);
    put_number(into, first);
    put_number(into, second);
    put_number(into, third);
    put(into, b"\n");
}

fn refusal(session: u32, role: Role, why: Why) -> Fault
    ensures { result ≡ faults.Disk session role (why_number why) (why_values why).0 (why_values why).1 }
{
    let (first, second) = why.values();
    Fault::Disk {
        session,
        role,
        number: why.number(),
        first,
        second,
    }
}

fn put_no_row(why: NoRow, into: &mut ArrayVec<u8, 256>)
    requires { into.old.items ≡ [] }
    ensures { into.new.items ≡ table_line why }
{
    let number = why.number();
    let row = why.row();
    put_two(into, b"fault table", u64::from(number), u64::from(row));
}

/// Puts the line that is written at this end, if there is one, into an empty room. (`unwrap`, whose output is
/// a file, writes none.)
pub fn put_end(session: u32, end: &CommandEnd, into: &mut ArrayVec<u8, 256>)
    requires { into.old.items ≡ [] }
    ensures { into.new.items ≡ end_line session end.now }
{
    let id = u64::from(session);
    match *end {
        CommandEnd::Done | CommandEnd::Memory | CommandEnd::Unwritten => {}
        CommandEnd::NotWrapped { .. } | CommandEnd::PartOfFile => {}
        CommandEnd::Unread => append_fault(&Fault::Read, into),
        CommandEnd::BadLine { line } => append_fault(&Fault::Script { line }, into),
        CommandEnd::NoRow(why) => put_no_row(why, into),
        CommandEnd::Failed { role } => append_fault(&Fault::Device { session, role }, into),
        CommandEnd::Refused { role, why } => append_fault(&refusal(session, role, why), into),
        CommandEnd::Full { end, length, size } => {
            let fault = Fault::Full {
                session,
                end,
                length,
                size,
            };
            append_fault(&fault, into);
        }
        CommandEnd::Unconnected => put(into, b"fault link\n"),
        CommandEnd::Ahead { number, count } => put_three(into, b"fault ahead", id, number, count),
        CommandEnd::Denied { code, number } => {
            put_two(into, b"fault refused", u64::from(code), number);
        }
        CommandEnd::Unfinished { number } => put_one(into, b"fault unfinished", number),
        CommandEnd::Wrapped { bytes, messages } => put_three(into, b"wrapped", id, bytes, messages),
        CommandEnd::FileDiffers { number } => put_two(into, b"fault wrapped", id, number),
        CommandEnd::TooLong => put(into, b"fault long\n"),
        CommandEnd::Folder => put_one(into, b"fault folder", id),
        CommandEnd::NameTaken { number } => put_two(into, b"fault name", id, number),
        CommandEnd::Marks => put_one(into, b"fault marks", id),
        CommandEnd::Register => put_one(into, b"fault register", id),
        CommandEnd::Step { start, accepted } => put_three(into, b"fault step", id, start, accepted),
    }
}

/// Writes the last bytes of a command.
pub fn close<O: Sink>(bytes: &[u8], end: CommandEnd, out: &mut O) -> CommandEnd
    ensures { ClosesSo (O.written out.old) (O.written out.new) (O.faults out.old) (O.faults out.new) bytes.now end
        result }
{
    match write_all(out, bytes) {
        Ok(()) => end,
        Err(_) => CommandEnd::Unwritten,
    }
}

/// Writes the line of this end, if there is one.
pub fn write_end<O: Sink>(session: u32, end: CommandEnd, out: &mut O) -> CommandEnd
    ensures { ClosesSo (O.written out.old) (O.written out.new) (O.faults out.old) (O.faults out.new)
        (end_line session end) end result }
{
    let mut line = ArrayVec::new();
    put_end(session, &end, &mut line);
    close(line.as_slice(), end, out)
}

/// Writes the line of this end, if there is one, and answers the status of the program: that of the end, or 4
/// where the line could not be written.
pub fn finish<O: Sink>(session: u32, end: CommandEnd, out: &mut O) -> u8
    ensures closes { Closes (O.written out.old) (O.written out.new) session end result }
    ensures cause { (result ≡ end_status end) ⊎ ((result ≡ 4) × Rose (O.faults out.old) (O.faults out.new)) }
    ensures later { O.faults out.old ≤ O.faults out.new }
{
    let mut line = ArrayVec::new();
    put_end(session, &end, &mut line);
    match write_all(out, line.as_slice()) {
        Ok(()) => end.status(),
        Err(_) => 4,
    }
}

/// Answers words that are no command which is run, with the status of the program. The fault is all that is
/// written.
pub fn refuse_words<O: Sink>(out: &mut O) -> u8
    ensures told { TellsWords (O.written out.old) (O.written out.new) result }
    ensures cause { result ≡ 4 → Rose (O.faults out.old) (O.faults out.new) }
{
    let mut line: ArrayVec<u8, 256> = ArrayVec::new();
    append_fault(&Fault::Words, &mut line);
    match write_all(out, line.as_slice()) {
        Ok(()) => 2,
        Err(_) => 4,
    }
}

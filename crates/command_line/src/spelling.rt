// Whether words are a command, in its one spelling.
ghost use Rattle.std.specs.Prelude.{◌≡◌, ℕ, List, [], ◌∷◌, map, string_bytes, decimal, IfSome, IfNone, IsTrue, ◌↔◌};
ghost use Rattle.command_line.specs.Commands.{IsCommand, words_of};
ghost use Rattle.command_line.specs.TimeLists.{AreTimes, times_word};

use crate::times::are_times;
use crate::{Command, TableName};

/// The words after the first, where that is this text.
fn after<'a>(words: &'a [String], text: &str) -> Option<&'a [String]>
    ensures some { IfSome result (λ rest. map string_bytes words.entry.now ≡ text.now ∷ map string_bytes rest.now) }
    ensures none { IfNone result ((rest : List (List ℕ)) → map string_bytes words.entry.now ≡ text.now ∷ rest → ⊥) }
{
    match words {
        [] => None,
        [first, rest @ ..] => {
            if first.as_str() == text {
                Some(rest)
            } else {
                None
            }
        }
    }
}

fn is_one(words: &[String], name: &str) -> bool
    ensures { IsTrue result ↔ (map string_bytes words.now ≡ name.now ∷ []) }
{
    let Some(words) = after(words, name) else {
        return false;
    };
    words.is_empty()
}

fn are_two(words: &[String], name: &str, first: &str) -> bool
    ensures { IsTrue result ↔ (map string_bytes words.now ≡ name.now ∷ first.now ∷ []) }
{
    match after(words, name) {
        Some(rest) => is_one(rest, first),
        None => false,
    }
}

/// The words after the first three, where those are these texts.
fn after_three<'a>(
    words: &'a [String],
    name: &str,
    first: &str,
    second: &str,
) -> Option<&'a [String]>
    ensures some { IfSome result (λ rest. map string_bytes words.entry.now
        ≡ name.now ∷ first.now ∷ second.now ∷ map string_bytes rest.now) }
    ensures none { IfNone result ((rest : List (List ℕ)) → map string_bytes words.entry.now
        ≡ name.now ∷ first.now ∷ second.now ∷ rest → ⊥) }
{
    after(after(after(words, name)?, first)?, second)
}

fn are_three(words: &[String], name: &str, first: &str, second: &str) -> bool
    ensures { IsTrue result ↔ (map string_bytes words.now ≡ name.now ∷ first.now ∷ second.now ∷ []) }
{
    match after_three(words, name, first, second) {
        Some(rest) => rest.is_empty(),
        None => false,
    }
}

fn are_four(words: &[String], name: &str, first: &str, second: &str, third: &str) -> bool
    ensures { IsTrue result ↔ (map string_bytes words.now ≡ name.now ∷ first.now ∷ second.now ∷ third.now ∷ []) }
{
    match after_three(words, name, first, second) {
        Some(rest) => is_one(rest, third),
        None => false,
    }
}

fn are_five(
    words: &[String],
    name: &str,
    first: &str,
    second: &str,
    third: &str,
    fourth: &str,
) -> bool
    ensures { IsTrue result ↔ (map string_bytes words.now
        ≡ name.now ∷ first.now ∷ second.now ∷ third.now ∷ fourth.now ∷ []) }
{
    match after_three(words, name, first, second) {
        Some(rest) => are_two(rest, third, fourth),
        None => false,
    }
}

fn are_timed(words: &[String], name: &str, first: &str, second: &str, times: &[u32]) -> bool
    requires { AreTimes times.now }
    ensures { IsTrue result ↔ (map string_bytes words.now ≡ name.now ∷ first.now ∷ second.now ∷ times_word
        times.now ∷ []) }
{
    match after_three(words, name, first, second) {
        Some([word]) => are_times(word.as_str(), times),
        _ => false,
    }
}

/// Are these words the command of this name for a session of a table?
fn name_session(words: &[String], name: &str, table: &TableName, session: u32) -> bool
    ensures { IsTrue result ↔ (map string_bytes words.now ≡ name.now ∷ table.now ∷ decimal session ∷ []) }
{
    let mut number = itoa::Buffer::new();
    are_three(words, name, table.as_str(), number.format(session))
}

/// Are they one that has a number behind it?
fn name_number(words: &[String], name: &str, table: &TableName, session: u32, number: u32) -> bool
    ensures { IsTrue result ↔ (map string_bytes words.now ≡ name.now ∷ table.now ∷ decimal session ∷ decimal
        number ∷ []) }
{
    let mut one = itoa::Buffer::new();
    let mut two = itoa::Buffer::new();
    are_four(
        words,
        name,
        table.as_str(),
        one.format(session),
        two.format(number),
    )
}

/// Are they one that has a number and another name behind it?
fn name_folder(
    words: &[String],
    name: &str,
    table: &TableName,
    numbers: (u32, u32),
    folder: &TableName,
) -> bool
    ensures { IsTrue result ↔ (map string_bytes words.now ≡ name.now ∷ table.now ∷ decimal numbers.0 ∷ decimal
        numbers.1 ∷ folder.now ∷ []) }
{
    let mut one = itoa::Buffer::new();
    let mut two = itoa::Buffer::new();
    are_five(
        words,
        name,
        table.as_str(),
        one.format(numbers.0),
        two.format(numbers.1),
        folder.as_str(),
    )
}

/// Are these the words of the command?
pub(crate) fn is_spelled(command: &Command, words: &[String]) -> bool
    requires { IsCommand command.now }
    ensures { IsTrue result ↔ (map string_bytes words.now ≡ words_of command.now) }
{
    let mut one = itoa::Buffer::new();
    let mut two = itoa::Buffer::new();
    match command {
        Command::Replay => is_one(words, "replay"),
        Command::Audit => is_one(words, "audit"),
        Command::Chain => is_one(words, "chain"),
        Command::Compare => is_one(words, "compare"),
        Command::Format { table, session } => name_session(words, "format", table, *session),
        Command::Show { table, session } => name_session(words, "show", table, *session),
        Command::Wrap { table, session } => name_session(words, "wrap", table, *session),
        Command::Unwrap { table, session } => name_session(words, "unwrap", table, *session),
        Command::Status { table, session } => name_session(words, "status", table, *session),
        Command::Messages {
            table,
            session,
            from,
        } => name_number(words, "messages", table, *session, *from),
        Command::Serve {
            table,
            session,
            looks,
        } => name_number(words, "serve", table, *session, *looks),
        Command::Receive {
            table,
            session,
            looks,
        } => name_number(words, "receive", table, *session, *looks),
        Command::Send {
            table,
            session,
            looks,
        } => name_number(words, "send", table, *session, *looks),
        Command::Append {
            table,
            session,
            looks,
        } => name_number(words, "append", table, *session, *looks),
        Command::DropFiles {
            table,
            session,
            looks,
            folder,
        } => name_folder(words, "drop", table, (*session, *looks), folder),
        Command::CollectFiles {
            table,
            session,
            looks,
            folder,
        } => name_folder(words, "collect", table, (*session, *looks), folder),
        Command::Exercise { seed, count } => are_three(
            words,
            "exercise",
            one.format(*seed),
            two.format(*count),
        ),
        Command::Race { seed, count, times } => are_timed(
            words,
            "race",
            one.format(*seed),
            two.format(*count),
            times.as_slice(),
        ),
        Command::Migrate {
            table,
            session,
            new_table,
            new_session,
        } => are_five(
            words,
            "migrate",
            table.as_str(),
            one.format(*session),
            new_table.as_str(),
            two.format(*new_session),
        ),
    }
}

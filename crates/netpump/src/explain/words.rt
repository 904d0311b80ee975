//! Words that are no command: which of them is wrong.

use super::word;
use command_line::{COMMAND_LINES, Usage, Wanted, WordsFault, command_of};
use std::alloc::{AllocError, Global};
use std::io;

/// The version of this program.
const VERSION: &str = "1.0";

/// A command, as the list of all commands has it.
#[derive(Clone, Copy)]
struct Listed {
    name: &'static str,
    values: &'static str,
    line: &'static str,
}

/// The command of this name.
fn find(name: &str) -> Option<Listed> {
    COMMAND_LINES
        .lines()
        .filter_map(command_in)
        .find(|command| command.name == name)
}

/// The command of a line, if it is one's.
fn command_in(line: &'static str) -> Option<Listed> {
    let (spelled, _) = line.strip_prefix("  ")?.split_once("  ")?;
    let (name, values) = spelled.split_once(' ').unwrap_or((spelled, ""));
    Some(Listed { name, values, line })
}

/// These words, with 1 in place of each value but the one in this place. 1 may stand for every value.
fn with_samples(alloc: Global, words: &[String], place: usize) -> Result<Vec<String>, AllocError> {
    let mut samples = Vec::with_capacity(alloc, words.len())?;
    for (at, word) in words.iter().enumerate() {
        let text = if at == 0 || at == place {
            word.as_str()
        } else {
            "1"
        };
        samples.push(String::from_str(alloc, text)?)?;
    }
    Ok(samples)
}

/// Is it known that no command has this word in this place? Without memory nothing is known.
fn is_wrong(alloc: Global, words: &[String], place: usize) -> bool {
    let Ok(samples) = with_samples(alloc, words, place) else {
        return false;
    };
    matches!(command_of(alloc, &samples), Err(WordsFault::NoCommand))
}

/// The first value whose place has a wrong word, and that word.
fn first_wrong<'a>(
    alloc: Global,
    values: &'a str,
    words: &'a [String],
) -> Option<(&'a str, &'a str)> {
    let (value, place) = values
        .split(' ')
        .zip(1..words.len())
        .find(|(_, place)| is_wrong(alloc, words, *place))?;
    Some((value, word(words, place)?))
}

fn explain_values(rt: &HostRuntime, command: &Listed, words: &[String]) -> io::Result<()> {
    let Listed { name, values, line } = command;
    let count = words.len().saturating_sub(1);
    let wanted = if values.is_empty() {
        0
    } else {
        values.split(' ').count()
    };
    if count != wanted {
        return eprintln!(rt;
            "netpump {VERSION}: the command {name} takes {wanted} words and is given {count}; type it so:\n{line}"
        );
    }
    match first_wrong(rt.alloc(), values, words) {
        Some((value, word)) => eprintln!(rt;
            "netpump {VERSION}: the word '{word}' can't stand for {value} of {name}, which is {}; type it so:\n{line}",
            Wanted(value)
        ),
        None => eprintln!(rt; "netpump {VERSION}: these words are no command; {Usage}"),
    }
}

/// Says which word is wrong, and how the command is typed, or which commands there are.
pub fn explain_words(rt: &HostRuntime, words: &[String]) -> io::Result<()> {
    match (word(words, 0), word(words, 0).and_then(find)) {
        (Some(_), Some(command)) => explain_values(rt, &command, words),
        (Some(name), None) => eprintln!(rt;
            "netpump {VERSION}: the word '{name}' is no command; {Usage}"
        ),
        (None, _) => eprintln!(rt; "netpump {VERSION}: there is no word; {Usage}"),
    }
}

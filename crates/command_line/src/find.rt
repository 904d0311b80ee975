// The command that the words are.
ghost use Rattle.std.specs.Prelude.{◌≡◌, ◌⊎◌, ℕ, List, [], ◌∷◌, map, string_bytes, IfOk, IfSome, IfNone, Ok, Err};
ghost use Rattle.clap.specs.Words.{app_of};
ghost use Rattle.command_line.specs.Commands.{AreWordsOf};
ghost use Rattle.command_line.specs.Found.{Finds};
ghost use Rattle.command_line.specs.Program.{program_of};
ghost use Rattle.command_line.specs.declared.command.Command.{Command as Commands};

use crate::program::{program, values_of};
use crate::spelling::is_spelled;
use crate::values::with_values;
use crate::{Command, WordsFault};
use clap::error::ErrorKind;
use clap::{ArgMatches, Command as Program};
use std::alloc::Global;

// clap may take more than a command's words, so the words are compared with those of what it found.
fn found_in(matches: &ArgMatches, words: &[String]) -> Result<Command, WordsFault>
    ensures found { IfOk result (λ c. AreWordsOf (map string_bytes words.now) c) }
    ensures refused { result ≡ Err WordsFault.NoCommand → (c : Commands) → AreWordsOf (map string_bytes words.now) c
        → Finds c matches.now → ⊥ }
    ensures free { result ≡ Err WordsFault.Memory → ⊥ }
{
    let Some((name, values)) = matches.subcommand() else {
        return Err(WordsFault::NoCommand);
    };
    let Some(command) = with_values(name, values) else {
        return Err(WordsFault::NoCommand);
    };
    if is_spelled(&command, words) {
        Ok(command)
    } else {
        Err(WordsFault::NoCommand)
    }
}

/// The first word, if there is one.
fn first(words: &[String]) -> Option<&str>
    ensures some { IfSome result (λ name. (rest : List (List ℕ)) × (map string_bytes words.now ≡ name.now ∷ rest)) }
    ensures none { IfNone result (map string_bytes words.now ≡ []) }
{
    match words {
        [] => None,
        [name, ..] => Some(name.as_str()),
    }
}

/// The program with the command that the first of these words names.
fn program_for<'a>(alloc: Global, words: &'a [String]) -> Result<Program<'a>, WordsFault>
    ensures made { IfOk result (λ p. (c : Commands) → AreWordsOf (map string_bytes words.entry.now) c
        → app_of p ≡ program_of c) }
    ensures refused { result ≡ Err WordsFault.NoCommand → (c : Commands)
        → AreWordsOf (map string_bytes words.entry.now) c → ⊥ }
{
    let Some(name) = first(words) else {
        return Err(WordsFault::NoCommand);
    };
    let Some(ids) = values_of(name) else {
        return Err(WordsFault::NoCommand);
    };
    match program(alloc, name, ids) {
        Ok(program) => Ok(program),
        Err(_) => Err(WordsFault::Memory),
    }
}

fn found(alloc: Global, words: &[String]) -> Result<Command, WordsFault>
    ensures found { IfOk result (λ c. AreWordsOf (map string_bytes words.now) c) }
    ensures refused { result ≡ Err WordsFault.NoCommand → (c : Commands) → AreWordsOf (map string_bytes words.now) c
        → ⊥ }
{
    let program = match program_for(alloc, words) {
        Ok(program) => program,
        Err(fault) => return Err(fault),
    };
    match program.try_get_matches_from(words) {
        Ok(matches) => found_in(&matches, words),
        Err(error) => match error.kind() {
            ErrorKind::OutOfMemory => Err(WordsFault::Memory),
            _ => Err(WordsFault::NoCommand),
        },
    }
}

/// The command that the words after the program's name are, each in its one spelling: numbers are
/// decimal, without a sign and without leading zeros. `NoCommand` comes exactly where no command is
/// spelled so. `Memory` may come at any words.
pub fn command_of(alloc: Global, words: &[String]) -> Result<Command, WordsFault>
    ensures found { IfOk result (λ c. AreWordsOf (map string_bytes words.now) c) }
    ensures command { (c : Commands) → AreWordsOf (map string_bytes words.now) c → (result ≡ Ok c)
        ⊎ (result ≡ Err WordsFault.Memory) }
{
    found(alloc, words)
}

//! The law that no words are two commands.

ghost use Rattle.std.specs.Prelude.{◌≡◌, ℕ, List};
ghost use Rattle.command_line.specs.Commands.{AreWordsOf};
ghost use Rattle.command_line.specs.declared.command.Command.{Command};

/// No words are two commands.
pub fn words_are_one_command()
    ensures { (words : List (List ℕ)) (c d : Command) → AreWordsOf words c → AreWordsOf words d → c ≡ d }
{}

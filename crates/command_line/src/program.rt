// A command as `clap` is told of it. Of the commands only the one that the words name is made: that is
// a tenth of the work of making all of them.
ghost use Rattle.std.specs.Prelude.{◌≡◌, IfOk, IsSomeAnd, false};
ghost use Rattle.clap.specs.Words.{app_of};
ghost use Rattle.clap.specs.Walk.{rule_of};
ghost use Rattle.clap.specs.declared.builder.command.Command.TheViews.{out-Command};
ghost use Rattle.clap.specs.Simple.{App, with_rule, with_subcommand};
ghost use Rattle.command_line.specs.Program.{value_rule, leaf_none, leaf, leaf_of, bare, alone};
ghost use Rattle.command_line.specs.Commands.{name_of};
ghost use Rattle.command_line.specs.declared.command.Command.{Command as Commands};

use clap::{Arg, Command as Program};
use std::alloc::{AllocError, Global};

/// A value that has to be there.
fn value<'a>(alloc: Global, id: &'a str) -> Arg<'a>
    ensures rule { rule_of result ≡ value_rule id.entry.now }
    ensures local { result.global ≡ false }
{
    Arg::new(alloc, id).required(true)
}

/// A command of its name alone.
fn plain<'a>(alloc: Global, name: &'a str) -> Program<'a>
    ensures app { app_of result ≡ leaf_none name.entry.now }
    ensures local { (out-Command result).has_globals ≡ false }
{
    Program::new(alloc, name)
}

/// A command with one more value. It is handed in as it is made, as in `with`.
fn with_value<'a>(
    alloc: Global,
    command: Result<Program<'a>, AllocError>,
    id: &'a str,
) -> Result<Program<'a>, AllocError>
    ensures app { (known : App) → IfOk command.entry (λ c. app_of c ≡ known)
        → IfOk result (λ c. app_of c ≡ with_rule known (value_rule id.entry.now)) }
    ensures local { IfOk command.entry (λ c. (out-Command c).has_globals ≡ false)
        → IfOk result (λ c. (out-Command c).has_globals ≡ false) }
{
    match command {
        Ok(command) => command.arg(value(alloc, id)),
        Err(error) => Err(error),
    }
}

/// A command of its name and these values, in their order.
fn leaf<'a>(alloc: Global, name: &'a str, ids: &[&'a str]) -> Result<Program<'a>, AllocError>
    ensures app { IfOk result (λ c. app_of c ≡ leaf name.entry.now ids.now) }
    ensures local { IfOk result (λ c. (out-Command c).has_globals ≡ false) }
{
    let mut command = Ok(plain(alloc, name));
    for &id in ids {
        command = with_value(alloc, command, id);
    }
    command
}

/// The program, before its commands, without clap's words for help.
fn bare<'a>(alloc: Global) -> Program<'a>
    ensures app { app_of result ≡ bare }
    ensures local { (out-Command result).has_globals ≡ false }
{
    plain(alloc, "netpump")
        .no_binary_name(true)
        .disable_help_flag(true)
        .disable_help_subcommand(true)
}

/// The program with one more command, which is handed in as it was made.
fn with<'a>(
    above: Program<'a>,
    command: Result<Program<'a>, AllocError>,
) -> Result<Program<'a>, AllocError>
    requires { IfOk command (λ c. (out-Command c).has_globals ≡ false) }
    ensures { (known leaf : App) → app_of above.entry ≡ known → IfOk command.entry (λ c. app_of c ≡ leaf)
        → IfOk result (λ all. app_of all ≡ with_subcommand known leaf.top) }
{
    match command {
        Ok(command) => above.subcommand(command),
        Err(error) => {
            // One call, where the end of the match would let go of each field.
            drop(above);
            Err(error)
        }
    }
}

/// The values of the command of this name, in their order.
pub(crate) fn values_of(name: &str) -> Option<&'static [&'static str]>
    ensures { (c : Commands) → name.now ≡ name_of c → IsSomeAnd result (λ ids. leaf name.now ids.now ≡ leaf_of c) }
{
    match name {
        "replay" | "audit" | "compare" | "chain" => Some(&[]),
        "format" | "show" | "wrap" | "unwrap" | "status" => Some(&["TABLE", "S"]),
        "serve" | "receive" | "send" | "append" => Some(&["TABLE", "S", "LOOKS"]),
        "drop" | "collect" => Some(&["TABLE", "S", "LOOKS", "FOLDER"]),
        "exercise" => Some(&["SEED", "COUNT"]),
        "race" => Some(&["SEED", "COUNT", "TIMES"]),
        "migrate" => Some(&["TABLE", "S", "NEWTABLE", "T"]),
        "messages" => Some(&["TABLE", "S", "FROM"]),
        _ => None,
    }
}

/// The program with the command of this name and these values alone. An error is want of memory.
pub(crate) fn program<'a>(
    alloc: Global,
    name: &'a str,
    ids: &[&'a str],
) -> Result<Program<'a>, AllocError>
    ensures { IfOk result (λ c. app_of c ≡ alone (leaf name.entry.now ids.now)) }
{
    with(bare(alloc), leaf(alloc, name, ids))
}

// The values of a command, as `clap` found them.
ghost use Rattle.std.specs.Prelude.{◌≡◌, ℕ, ◌≤◌, ◌<◌, ◌^◌, List, true, codes, option_map, decimal, IfSome, Some};
ghost use Rattle.clap.specs.Words.{found_of};
ghost use Rattle.clap.specs.Walk.{rows_of, first_of};
ghost use Rattle.command_line.specs.Commands.{IsCommand};
ghost use Rattle.command_line.specs.TableNames.{is_table_name};
ghost use Rattle.command_line.specs.TimeLists.{AreTimes, times_word};
ghost use Rattle.command_line.specs.Found.{Gives, HasLooks};
ghost use Rattle.command_line.specs.declared.command.Command.{Command as Commands};

use crate::times::times_in;
use crate::{Command, TableName};
use clap::ArgMatches;

fn parsed(text: &str) -> Option<u32>
    ensures { (n : ℕ) → n < 2 ^ 32 → text.now ≡ decimal n → result ≡ Some n }
{
    text.parse::<u32>().ok()
}

/// A number from `low` to `high`, both included.
pub(crate) fn number(text: &str, low: u32, high: u32) -> Option<u32>
    ensures within { IfSome result (λ n. (low ≤ n) × (n ≤ high)) }
    ensures read { (n : ℕ) → low ≤ n → n ≤ high → text.now ≡ decimal n → result ≡ Some n }
{
    let n = parsed(text)?;
    if n < low || high < n {
        return None;
    }
    Some(n)
}

fn text<'a>(matches: &ArgMatches<'a>, id: &str) -> Option<&'a str>
    ensures { option_map (λ s. s.now) result ≡ first_of id.now (rows_of (found_of matches.now)) }
{
    matches.get_str(id)
}

fn number_in(matches: &ArgMatches, id: &str, low: u32, high: u32) -> Option<u32>
    ensures within { IfSome result (λ n. (low ≤ n) × (n ≤ high)) }
    ensures read { (n : ℕ) → low ≤ n → n ≤ high → first_of id.now (rows_of (found_of matches.now)) ≡ Some (decimal n)
        → result ≡ Some n }
{
    match text(matches, id) {
        Some(text) => number(text, low, high),
        None => None,
    }
}

fn table_in(matches: &ArgMatches, id: &str) -> Option<TableName>
    ensures sound { IfSome result (λ t. is_table_name t ≡ true) }
    ensures read { (t : List ℕ) → is_table_name t ≡ true → first_of id.now (rows_of (found_of matches.now)) ≡ Some t
        → result ≡ Some t }
{
    match text(matches, id) {
        Some(text) => TableName::from_text(text),
        None => None,
    }
}

/// A session of a table, at these two values: its file and the id of its row.
fn session_at(matches: &ArgMatches, table_id: &str, session_id: &str) -> Option<(TableName, u32)>
    ensures sound { IfSome result (λ v. is_table_name v.0 ≡ true) }
    ensures all { (t : List ℕ) (n : ℕ) → is_table_name t ≡ true → n < 2 ^ 32
        → first_of table_id.now (rows_of (found_of matches.now)) ≡ Some t
        → first_of session_id.now (rows_of (found_of matches.now)) ≡ Some (decimal n)
        → result ≡ Some (t, n) }
{
    let table = table_in(matches, table_id)?;
    let session = number_in(matches, session_id, 0, u32::MAX)?;
    Some((table, session))
}

fn session_in(matches: &ArgMatches) -> Option<(TableName, u32)>
    ensures sound { IfSome result (λ v. is_table_name v.0 ≡ true) }
    ensures all { (t : List ℕ) (n : ℕ) → is_table_name t ≡ true → n < 2 ^ 32
        → first_of (codes "TABLE") (rows_of (found_of matches.now)) ≡ Some t
        → first_of (codes "S") (rows_of (found_of matches.now)) ≡ Some (decimal n)
        → result ≡ Some (t, n) }
{
    session_at(matches, "TABLE", "S")
}

/// A session of a table, and how many looks there are.
fn looks_in(matches: &ArgMatches) -> Option<(TableName, u32, u32)>
    ensures sound { IfSome result (λ v. (is_table_name v.0 ≡ true) × (1 ≤ v.2)) }
    ensures all { (t : List ℕ) (n k : ℕ) → is_table_name t ≡ true → n < 2 ^ 32 → 1 ≤ k → k < 2 ^ 32
        → first_of (codes "TABLE") (rows_of (found_of matches.now)) ≡ Some t
        → first_of (codes "S") (rows_of (found_of matches.now)) ≡ Some (decimal n)
        → first_of (codes "LOOKS") (rows_of (found_of matches.now)) ≡ Some (decimal k)
        → result ≡ Some (t, n, k) }
{
    let (table, session) = session_in(matches)?;
    let looks = number_in(matches, "LOOKS", 1, u32::MAX)?;
    Some((table, session, looks))
}

/// A session of a table, and the number of a message.
fn messages_in(matches: &ArgMatches) -> Option<Command>
    ensures sound { IfSome result IsCommand }
    ensures all { (t : List ℕ) (n k : ℕ) → is_table_name t ≡ true → n < 2 ^ 32 → k < 2 ^ 32
        → first_of (codes "TABLE") (rows_of (found_of matches.now)) ≡ Some t
        → first_of (codes "S") (rows_of (found_of matches.now)) ≡ Some (decimal n)
        → first_of (codes "FROM") (rows_of (found_of matches.now)) ≡ Some (decimal k)
        → result ≡ Some (Command.Messages t n k) }
{
    let (table, session) = session_in(matches)?;
    let from = number_in(matches, "FROM", 0, u32::MAX)?;
    Some(Command::Messages {
        table,
        session,
        from,
    })
}

fn exercise_in(matches: &ArgMatches) -> Option<Command>
    ensures sound { IfSome result IsCommand }
    ensures all { (m n : ℕ) → m < 2 ^ 32 → 1 ≤ n → n ≤ 100000
        → first_of (codes "SEED") (rows_of (found_of matches.now)) ≡ Some (decimal m)
        → first_of (codes "COUNT") (rows_of (found_of matches.now)) ≡ Some (decimal n)
        → result ≡ Some (Command.Exercise m n) }
{
    match number_in(matches, "SEED", 0, u32::MAX) {
        Some(seed) => match number_in(matches, "COUNT", 1, 100_000) {
            Some(count) => Some(Command::Exercise { seed, count }),
            None => None,
        },
        None => None,
    }
}

fn race_in(matches: &ArgMatches) -> Option<Command>
    ensures sound { IfSome result IsCommand }
    ensures all { (m n : ℕ) (ts : List ℕ) → m < 2 ^ 32 → 1 ≤ n → n ≤ 100000 → AreTimes ts
        → first_of (codes "SEED") (rows_of (found_of matches.now)) ≡ Some (decimal m)
        → first_of (codes "COUNT") (rows_of (found_of matches.now)) ≡ Some (decimal n)
        → first_of (codes "TIMES") (rows_of (found_of matches.now)) ≡ Some (times_word ts)
        → result ≡ Some (Command.Race m n (record { items = ts })) }
{
    let seed = number_in(matches, "SEED", 0, u32::MAX)?;
    let count = number_in(matches, "COUNT", 1, 100_000)?;
    let times = times_in(text(matches, "TIMES")?)?;
    Some(Command::Race { seed, count, times })
}

/// A session of a table, how many looks there are, and a folder.
fn folder_in(matches: &ArgMatches) -> Option<(TableName, u32, u32, TableName)>
    ensures sound { IfSome result (λ v. (is_table_name v.0 ≡ true) × (1 ≤ v.2) × (is_table_name v.3 ≡ true)) }
    ensures all { (t u : List ℕ) (n k : ℕ) → is_table_name t ≡ true → n < 2 ^ 32 → 1 ≤ k → k < 2 ^ 32
        → is_table_name u ≡ true
        → first_of (codes "TABLE") (rows_of (found_of matches.now)) ≡ Some t
        → first_of (codes "S") (rows_of (found_of matches.now)) ≡ Some (decimal n)
        → first_of (codes "LOOKS") (rows_of (found_of matches.now)) ≡ Some (decimal k)
        → first_of (codes "FOLDER") (rows_of (found_of matches.now)) ≡ Some u
        → result ≡ Some (t, n, k, u) }
{
    let (table, session, looks) = looks_in(matches)?;
    let folder = table_in(matches, "FOLDER")?;
    Some((table, session, looks, folder))
}

fn migrate_in(matches: &ArgMatches) -> Option<Command>
    ensures sound { IfSome result IsCommand }
    ensures all { (t u : List ℕ) (n m : ℕ) → is_table_name t ≡ true → n < 2 ^ 32 → is_table_name u ≡ true → m < 2 ^ 32
        → first_of (codes "TABLE") (rows_of (found_of matches.now)) ≡ Some t
        → first_of (codes "S") (rows_of (found_of matches.now)) ≡ Some (decimal n)
        → first_of (codes "NEWTABLE") (rows_of (found_of matches.now)) ≡ Some u
        → first_of (codes "T") (rows_of (found_of matches.now)) ≡ Some (decimal m)
        → result ≡ Some (Command.Migrate t n u m) }
{
    let (table, session) = session_in(matches)?;
    let (new_table, new_session) = session_at(matches, "NEWTABLE", "T")?;
    Some(Command::Migrate {
        table,
        session,
        new_table,
        new_session,
    })
}

// The command of this name, if it is one that looks at a link.
fn with_looks(name: &str, matches: &ArgMatches) -> Option<Command>
    ensures sound { IfSome result IsCommand }
    ensures all { (c : Commands) → IsCommand c → HasLooks c → Gives c name.now (rows_of (found_of matches.now))
        → result ≡ Some c }
{
    match name {
        "serve" => looks_in(matches).map(|(table, session, looks)| Command::Serve {
            table,
            session,
            looks,
        }),
        "receive" => looks_in(matches).map(|(table, session, looks)| Command::Receive {
            table,
            session,
            looks,
        }),
        "send" => looks_in(matches).map(|(table, session, looks)| Command::Send {
            table,
            session,
            looks,
        }),
        "append" => looks_in(matches).map(|(table, session, looks)| Command::Append {
            table,
            session,
            looks,
        }),
        "drop" => {
            folder_in(matches).map(|(table, session, looks, folder)| Command::DropFiles {
                table,
                session,
                looks,
                folder,
            })
        }
        "collect" => {
            folder_in(matches).map(|(table, session, looks, folder)| Command::CollectFiles {
                table,
                session,
                looks,
                folder,
            })
        }
        _ => None,
    }
}

/// The command of this name, with the values that clap found.
pub(crate) fn with_values(name: &str, matches: &ArgMatches) -> Option<Command>
    ensures sound { IfSome result IsCommand }
    ensures all { (c : Commands) → IsCommand c → Gives c name.now (rows_of (found_of matches.now)) → result ≡ Some c }
{
    match name {
        "replay" => Some(Command::Replay),
        "audit" => Some(Command::Audit),
        "chain" => Some(Command::Chain),
        "compare" => Some(Command::Compare),
        "format" => session_in(matches).map(|(table, session)| Command::Format { table, session }),
        "show" => session_in(matches).map(|(table, session)| Command::Show { table, session }),
        "exercise" => exercise_in(matches),
        "race" => race_in(matches),
        "migrate" => migrate_in(matches),
        "wrap" => session_in(matches).map(|(table, session)| Command::Wrap { table, session }),
        "unwrap" => session_in(matches).map(|(table, session)| Command::Unwrap { table, session }),
        "messages" => messages_in(matches),
        "status" => session_in(matches).map(|(table, session)| Command::Status { table, session }),
        _ => with_looks(name, matches),
    }
}

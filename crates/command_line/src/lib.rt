//! The words of the command line: which command they are, read by `clap`. `command_of` answers a `Command`
//! with its values, such as a `TableName`, or a `WordsFault`. A command is spelled in one way alone: what
//! `clap` found is spelled back and compared, so whatever else `clap` takes, such as words for help or a sign
//! before a number, is no command. `USAGE` is the list of all commands, for people. It knows what no command
//! does.
#![tactic(auto)]

mod command;
mod find;
mod laws;
mod program;
mod spelling;
mod table_name;
mod times;
mod usage;
mod values;

pub use command::{Command, WordsFault};
pub use find::command_of;
pub use laws::words_are_one_command;
pub use table_name::TableName;
pub use usage::{COMMAND_LINES, Usage, Wanted};

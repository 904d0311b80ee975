//! How a command over a session of a table ends: the status, the line that is written, and the row of the
//! session in the table's file, without which the command ends at once (`row_in_file`). `CommandEnd` has a
//! case for each end that such a command can have, and `NoRow` says why a session has no row; `finish` writes
//! the line of an end and answers the status; `close` writes the last bytes of a command, `write_end` a line.
//! The small functions `put_..` add a number or a word to a line. `specs/` says which count rose where a
//! command ends so. It knows no disk of a session and no port.
#![tactic(auto)]

mod command_end;
mod no_row;
mod table_row;

pub use command_end::{
    CommandEnd, close, finish, put, put_end, put_number, put_one, put_three, put_two, refuse_words,
    write_end,
};
pub use no_row::NoRow;
pub use table_row::{row_in_file, zeros};

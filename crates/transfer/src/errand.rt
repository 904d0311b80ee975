//! What the words of a command that carries files ask for.

ghost use Rattle.std.specs.Prelude.{◌≡◌};

use command_line::TableName;

/// The least message size of a row over which files go: the beginning of a file, with its name, fits.
pub const LEAST_MESSAGE: u32 = 138;

/// What the words of a command that carries files ask for.
#[derive(Clone, Copy)]
pub struct Errand<'a> {
    /// The file with the table.
    pub table: &'a TableName,
    /// The id of its row.
    pub session: u32,
    /// How many looks at the link there are at most, at least 1.
    pub looks: u32,
    /// The folder.
    pub folder: &'a TableName,
}

impl<'a> Errand<'a> {
    /// These values.
    pub fn new(table: &'a TableName, session: u32, looks: u32, folder: &'a TableName) -> Errand<'a>
        ensures table { result.table.now ≡ table.entry.now }
        ensures session { result.session ≡ session }
        ensures looks { result.looks ≡ looks }
        ensures folder { result.folder.now ≡ folder.entry.now }
    {
        Errand {
            table,
            session,
            looks,
            folder,
        }
    }
}

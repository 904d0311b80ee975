// A table of sessions.
ghost use Rattle.std.specs.Prelude.{◌≡◌, ◌==◌, IfSome, find, option_copied};
ghost use Rattle.std.specs.List.{All, list_any};
ghost use Rattle.pump_frame.specs.Rows.{IsLawfulRow, permits};
ghost use Rattle.session_table.specs.Answers.{Answers};
ghost use Rattle.session_table.specs.Documents.{table_of};
ghost use Rattle.session_table.specs.Tables.{IsTable};

use crate::TableFault;
use crate::document::{document, rows_of};
use pump_frame::{Name, SessionRow};
use std::alloc::Global;
use std::marker::Model;

/// The sessions of a document: at most 16 rows, each with its numbers in their ranges, and no id and
/// no port twice. Contracts see it as the list of its rows.
#[derive(Drop)]
pub struct Table {
    rows: Vec<SessionRow>,
}

impl Model for Table {
    ghost use Rattle.std.specs.Prelude.{List};
    ghost use Rattle.pump_frame.specs.declared.row.SessionRow.{SessionRow};
    ghost use Rattle.session_table.specs.Tables.{IsTable};

    ghost Value = { List SessionRow };

    ghost view = { λ s. s.rows.items };

    ghost invariant = { λ s. IsTable s.rows.items };
}

fn with_id(rows: &[SessionRow], id: u32) -> Option<&SessionRow>
    ensures { option_copied result ≡ find (λ row. row.id == id) rows.now }
{
    rows.iter().find(|row| row.id == id)
}

fn permits(row: &SessionRow, id: u32, low: &Name, high: &Name) -> bool
    ensures { result ≡ permits row.now id low.now high.now }
{
    id == row.id && low.as_slice() == row.low.as_slice() && high.as_slice() == row.high.as_slice()
}

impl Table {
    /// The table of a document's bytes, or the first thing that is wrong with them, in the order of
    /// `docs/formats.md`.
    pub fn read(alloc: Global, bytes: &[u8]) -> Result<Table, TableFault>
        ensures { Answers result (table_of bytes.now) }
    {
        let document = document(alloc, bytes)?;
        let rows = rows_of(alloc, &document)?;
        Ok(Table { rows })
    }

    /// The rows, in the order of the document.
    pub fn rows(&self) -> &[SessionRow]
        ensures value { result.now ≡ self.now }
        ensures lawful { All IsLawfulRow result.now }
        ensures table { IsTable result.now }
    {
        self.rows.as_slice()
    }

    /// The row of a session.
    pub fn row(&self, id: u32) -> Option<SessionRow>
        ensures value { result ≡ find (λ row. row.id == id) self.now }
        ensures lawful { IfSome result IsLawfulRow }
    {
        with_id(self.rows.as_slice(), id).copied()
    }

    /// Whether a row has this session and these two names.
    pub fn permits(&self, id: u32, low: &Name, high: &Name) -> bool
        ensures { result ≡ list_any (λ row. permits row id low.now high.now) self.now }
    {
        self.rows.iter().any(|row| permits(row, id, low, high))
    }
}

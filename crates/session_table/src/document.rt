// The rows of a document.
ghost use Rattle.std.specs.Prelude.{◌≡◌, ◌≤◌, ◌<◌, [], IfOk, is_some, length};
ghost use Rattle.std.specs.List.{All, list_all};
ghost use Rattle.pump_frame.specs.Rows.{IsLawfulRow};
ghost use Rattle.toml.specs.Data.{as_array, as_table};
ghost use Rattle.toml.specs.View.{view, table_view, items_view};
ghost use Rattle.session_table.specs.Answers.{AnswersBy};
ghost use Rattle.session_table.specs.Documents.{row_in, rows_from, are_tables, rows_in, rows_at, rows_of, document};
ghost use Rattle.session_table.specs.Tables.{HasPorts, AreApart, IsTable};

use crate::TableFault;
use crate::key::has_other;
use crate::row::{placed, row_of};
use crate::value::required;
use pump_frame::{RowKey, SessionRow};
use std::alloc::Global;
use toml::{Table as Members, Value};

const NO_TABLES: TableFault = TableFault::OutOfRange {
    row: 0,
    key: RowKey::Session,
    value: None,
};

fn row_in(earlier: &[SessionRow], value: &Value) -> Result<SessionRow, TableFault>
    requires { length earlier.now < 16 }
    ensures value { result ≡ row_in earlier.now (as_table (view value.now)) }
    ensures lawful { IfOk result IsLawfulRow }
    ensures ports { IfOk result HasPorts }
    ensures apart { IfOk result (λ row. All (λ a. AreApart a row) earlier.now) }
{
    let Some(members) = value.as_table() else {
        return Err(NO_TABLES);
    };
    let place = earlier.len() as u32 + 1;
    let row = row_of(place, members)?;
    placed(place, earlier, row)
}

fn rows_from(alloc: Global, entries: &[Value]) -> Result<Vec<SessionRow>, TableFault>
    requires { length entries.now ≤ 16 }
    ensures value { AnswersBy (λ rows. rows.items) result (rows_from [] (items_view entries.now)) }
    ensures table { IfOk result (λ rows. IsTable rows.items) }
{
    let mut rows = Vec::new(alloc);
    for value in entries {
        let row = match row_in(rows.as_slice(), value) {
            Ok(row) => row,
            Err(fault) => return Err(fault),
        };
        match rows.push(row) {
            Ok(()) => {}
            Err(_) => return Err(TableFault::Memory),
        }
    }
    Ok(rows)
}

// What `are_tables` says, in the words of the document's own list.
fn is_each_table(entries: &[Value]) -> bool
    ensures { result ≡ list_all (λ value. is_some (as_table (view value))) entries.now }
{
    entries.iter().all(|value| value.is_table())
}

#[tactic(auto, using(crate::proofs::Entries::are_tables_view))]
fn are_tables(entries: &[Value]) -> bool
    ensures { result ≡ are_tables (items_view entries.now) }
{
    is_each_table(entries)
}

#[tactic(auto, using(crate::proofs::Entries::entry_count_view))]
fn rows_in(alloc: Global, entries: &[Value]) -> Result<Vec<SessionRow>, TableFault>
    ensures value { AnswersBy (λ rows. rows.items) result (rows_in (items_view entries.now)) }
    ensures table { IfOk result (λ rows. IsTable rows.items) }
{
    if !are_tables(entries) {
        return Err(NO_TABLES);
    }
    if entries.len() > 16 {
        return Err(TableFault::TooMany {
            rows: entries.len().min(u32::MAX as usize) as u32,
        });
    }
    rows_from(alloc, entries)
}

fn rows_at(alloc: Global, value: &Value) -> Result<Vec<SessionRow>, TableFault>
    ensures value { AnswersBy (λ rows. rows.items) result (rows_at (as_array (view value.now))) }
    ensures table { IfOk result (λ rows. IsTable rows.items) }
{
    match value.as_array() {
        Some(entries) => rows_in(alloc, entries.as_slice()),
        None => Err(NO_TABLES),
    }
}

/// The rows of a document.
#[tactic(auto, unfolding(crate::specs::Documents::rows_of))]
pub(crate) fn rows_of(alloc: Global, members: &Members) -> Result<Vec<SessionRow>, TableFault>
    ensures value { AnswersBy (λ rows. rows.items) result (rows_of (table_view members.now)) }
    ensures table { IfOk result (λ rows. IsTable rows.items) }
{
    if has_other(&[RowKey::Session], members) {
        return Err(TableFault::UnknownKey { row: 0 });
    }
    rows_at(alloc, required(0, RowKey::Session, members)?)
}

/// The document of these bytes.
pub(crate) fn document(alloc: Global, bytes: &[u8]) -> Result<Members, TableFault>
    ensures { AnswersBy table_view result (document bytes.now) }
{
    match toml::table_from_slice(alloc, bytes) {
        Ok(document) => Ok(document),
        Err(error) => {
            if error.is_memory() {
                Err(TableFault::Memory)
            } else {
                Err(TableFault::NotToml)
            }
        }
    }
}

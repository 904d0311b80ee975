// What stands at a key of a row.
ghost use Rattle.std.specs.Prelude.{◌≡◌, ◌<◌, ◌≤◌, IfOk, option_map};
ghost use Rattle.toml.specs.Data.{get_member, as_integer, as_str, as_bool};
ghost use Rattle.toml.specs.View.{view, table_view};
ghost use Rattle.session_table.specs.Answers.{LendsBy};
ghost use Rattle.session_table.specs.Keys.{key_name};
ghost use Rattle.session_table.specs.Values.{required, whole_of, whole_at, name_of, name_at, truth_of, truth_at};

use crate::TableFault;
use crate::key::key_name;
use pump_frame::{Name, RowKey};
use toml::{Table as Members, Value};

fn found<'a>(key: RowKey, members: &'a Members) -> Option<&'a Value>
    ensures { option_map (λ value. view value.now) result ≡ get_member (key_name key) (table_view members.now) }
{
    members.get(key_name(key))
}

/// What stands at a key that has to be there.
pub(crate) fn required<'a>(
    row: u32,
    key: RowKey,
    members: &'a Members,
) -> Result<&'a Value, TableFault>
    ensures { LendsBy view result (required row key (get_member (key_name key) (table_view members.now))) }
{
    match found(key, members) {
        Some(value) => Ok(value),
        None => Err(TableFault::MissingKey { row, key }),
    }
}

fn whole_of(
    row: u32,
    key: RowKey,
    least: u32,
    greatest: u32,
    value: &Value,
) -> Result<u32, TableFault>
    ensures value { result ≡ whole_of row key least greatest (as_integer (view value.now)) }
    ensures within { IfOk result (λ number. (least ≤ number) × (number ≤ greatest)) }
{
    let Some(number) = value.as_integer() else {
        return Err(TableFault::OutOfRange {
            row,
            key,
            value: None,
        });
    };
    if i64::from(least) <= number && number <= i64::from(greatest) {
        Ok(number as u32)
    } else {
        Err(TableFault::OutOfRange {
            row,
            key,
            value: Some(number),
        })
    }
}

fn name_of(row: u32, key: RowKey, value: &Value) -> Result<Name, TableFault>
    ensures { result ≡ name_of row key (as_str (view value.now)) }
{
    let Some(text) = value.as_str() else {
        return Err(TableFault::Name { row, key });
    };
    match Name::from_slice(text.as_bytes()) {
        Some(name) => Ok(name),
        None => Err(TableFault::Name { row, key }),
    }
}

/// The whole number at a key, from `least` to `greatest`.
pub(crate) fn whole_at(
    row: u32,
    key: RowKey,
    least: u32,
    greatest: u32,
    members: &Members,
) -> Result<u32, TableFault>
    ensures value { result ≡ whole_at row key least greatest (table_view members.now) }
    ensures within { IfOk result (λ number. (least ≤ number) × (number ≤ greatest)) }
{
    whole_of(row, key, least, greatest, required(row, key, members)?)
}

/// The port at a key.
pub(crate) fn port_at(row: u32, key: RowKey, members: &Members) -> Result<u16, TableFault>
    ensures value { result ≡ whole_at row key 1 65535 (table_view members.now) }
    ensures some { IfOk result (λ port. 0 < port) }
{
    let port = whole_at(row, key, 1, 65535, members)?;
    Ok(port as u16)
}

/// The name at a key.
pub(crate) fn name_at(row: u32, key: RowKey, members: &Members) -> Result<Name, TableFault>
    ensures { result ≡ name_at row key (table_view members.now) }
{
    name_of(row, key, required(row, key, members)?)
}

fn truth_of(row: u32, key: RowKey, value: &Value) -> Result<bool, TableFault>
    ensures { result ≡ truth_of row key (as_bool (view value.now)) }
{
    match value.as_bool() {
        Some(truth) => Ok(truth),
        None => Err(TableFault::OutOfRange {
            row,
            key,
            value: None,
        }),
    }
}

/// The truth value at a key that may be left out; without it false.
pub(crate) fn truth_at(row: u32, key: RowKey, members: &Members) -> Result<bool, TableFault>
    ensures { result ≡ truth_at row key (table_view members.now) }
{
    match found(key, members) {
        Some(value) => truth_of(row, key, value),
        None => Ok(false),
    }
}

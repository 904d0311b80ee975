// A row of a document: by itself, and beside the rows before it.
ghost use Rattle.std.specs.Prelude.{◌≡◌, ◌≢◌, ◌<◌, IfOk};
ghost use Rattle.std.specs.List.{All};
ghost use Rattle.pump_frame.specs.Rows.{IsLawfulRow};
ghost use Rattle.toml.specs.View.{table_view};
ghost use Rattle.session_table.specs.Rows.{begun, with_number, filled, numbered, named, ported, row_of, has_id};
ghost use Rattle.session_table.specs.Rows.{has_port, placed};
ghost use Rattle.session_table.specs.Tables.{AreApart};

use crate::TableFault;
use crate::key::{ROW_KEYS, has_other};
use crate::value::{name_at, port_at, truth_at, whole_at};
use pump_frame::{LEAST_CAPACITY, Name, RowKey, SessionRow};
use toml::Table as Members;

// A row of these three. Only a whole row can be asked for its ranges, so it begins with some numbers
// that are in them, which the document's own replace one by one.
fn begun(id: u32, low: Name, high: Name) -> SessionRow
    ensures value { result ≡ begun id low high }
    ensures lawful { IsLawfulRow result }
{
    SessionRow {
        id,
        low,
        high,
        capacity: LEAST_CAPACITY,
        message: 1,
        window: 1,
        start: 0,
        longest: 0,
        resend: 1,
        low_port: 1,
        high_port: 1,
        coarse: false,
    }
}

fn with_number(mut row: SessionRow, key: RowKey, number: u32) -> SessionRow
    ensures { result ≡ with_number row key number }
{
    match key {
        RowKey::Capacity => row.capacity = number,
        RowKey::Message => row.message = number,
        RowKey::Window => row.window = number,
        RowKey::Start => row.start = number,
        RowKey::Longest => row.longest = number,
        RowKey::Resend => row.resend = number,
        _ => {}
    }
    row
}

// The row with the document's number at this key, if it is lawful then.
fn filled(
    place: u32,
    members: &Members,
    key: RowKey,
    row: SessionRow,
) -> Result<SessionRow, TableFault>
    ensures value { result ≡ filled place (table_view members.now) key row }
    ensures lawful { IfOk result IsLawfulRow }
{
    let number = whole_at(place, key, 0, u32::MAX, members)?;
    let next = with_number(row, key, number);
    if next.first_bad().is_some() {
        return Err(TableFault::OutOfRange {
            row: place,
            key,
            value: Some(i64::from(number)),
        });
    }
    Ok(next)
}

#[tactic(auto, unfolding(crate::specs::Rows::numbered))]
fn numbered(place: u32, members: &Members, row: SessionRow) -> Result<SessionRow, TableFault>
    ensures value { result ≡ numbered place (table_view members.now) row }
    ensures lawful { IfOk result IsLawfulRow }
{
    let row = filled(place, members, RowKey::Capacity, row)?;
    let row = filled(place, members, RowKey::Message, row)?;
    let row = filled(place, members, RowKey::Window, row)?;
    let row = filled(place, members, RowKey::Start, row)?;
    let row = filled(place, members, RowKey::Longest, row)?;
    filled(place, members, RowKey::Resend, row)
}

// A row of the document's id and names.
#[tactic(auto, unfolding(crate::specs::Rows::named))]
fn named(place: u32, members: &Members) -> Result<SessionRow, TableFault>
    ensures value { result ≡ named place (table_view members.now) }
    ensures lawful { IfOk result IsLawfulRow }
{
    let id = whole_at(place, RowKey::Id, 0, u32::MAX, members)?;
    let low = name_at(place, RowKey::Low, members)?;
    let high = name_at(place, RowKey::High, members)?;
    Ok(begun(id, low, high))
}

// The row with the document's ports, and whether it is coarse.
#[tactic(auto, unfolding(crate::specs::Rows::ported))]
fn ported(place: u32, members: &Members, row: SessionRow) -> Result<SessionRow, TableFault>
    requires { IsLawfulRow row }
    ensures value { result ≡ ported place (table_view members.now) row }
    ensures lawful { IfOk result IsLawfulRow }
    ensures ports { IfOk result (λ row. (0 < row.low_port) × (0 < row.high_port)) }
{
    let low_port = port_at(place, RowKey::LowPort, members)?;
    let high_port = port_at(place, RowKey::HighPort, members)?;
    let coarse = truth_at(place, RowKey::Coarse, members)?;
    Ok(SessionRow {
        low_port,
        high_port,
        coarse,
        ..row
    })
}

/// The row at this place of a members, counted from 1, by itself: each key is looked at in turn.
#[tactic(auto, unfolding(crate::specs::Rows::row_of))]
pub(crate) fn row_of(place: u32, members: &Members) -> Result<SessionRow, TableFault>
    ensures value { result ≡ row_of place (table_view members.now) }
    ensures lawful { IfOk result IsLawfulRow }
    ensures ports { IfOk result (λ row. (0 < row.low_port) × (0 < row.high_port)) }
{
    if has_other(&ROW_KEYS, members) {
        return Err(TableFault::UnknownKey { row: place });
    }
    let row = named(place, members)?;
    let row = numbered(place, members, row)?;
    ported(place, members, row)
}

fn has_id(earlier: &[SessionRow], id: u32) -> bool
    ensures { result ≡ has_id earlier.now id }
{
    earlier.iter().any(|row| row.id == id)
}

fn has_port(earlier: &[SessionRow], port: u16) -> bool
    ensures { result ≡ has_port earlier.now port }
{
    earlier
        .iter()
        .any(|row| row.low_port == port || row.high_port == port)
}

/// A row at this place, if its id and its two ports are its own.
#[tactic(auto, unfolding(crate::specs::Rows::placed))]
pub(crate) fn placed(
    place: u32,
    earlier: &[SessionRow],
    row: SessionRow,
) -> Result<SessionRow, TableFault>
    ensures value { result ≡ placed place earlier.now row }
    ensures same { IfOk result (λ next. next ≡ row) }
    ensures two_ports { IfOk result (λ next. next.low_port ≢ next.high_port) }
    ensures apart { IfOk result (λ next. All (λ a. AreApart a next) earlier.now) }
{
    if has_id(earlier, row.id) {
        return Err(TableFault::TwiceId {
            row: place,
            id: row.id,
        });
    }
    if has_port(earlier, row.low_port) {
        return Err(TableFault::TwicePort {
            row: place,
            port: row.low_port,
        });
    }
    if has_port(earlier, row.high_port) || row.high_port == row.low_port {
        return Err(TableFault::TwicePort {
            row: place,
            port: row.high_port,
        });
    }
    Ok(row)
}

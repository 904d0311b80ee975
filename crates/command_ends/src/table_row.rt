//! The row of a session in the file of a table.

ghost use Rattle.std.specs.Prelude.{◌≡◌, ◌≤◌, length, IfOk, IfErr, IfSome, Err};
ghost use Rattle.pump_frame.specs.Counts.{Rose};
ghost use Rattle.pump_frame.specs.Rows.{IsLawfulRow};
ghost use Rattle.session_table.specs.Documents.{table_of};
ghost use Rattle.command_ends.specs.Tables.{row_among, IsRowIn, IsRowOf, IsTableEnd};
ghost use Rattle.command_ends.specs.declared.command_end.CommandEnd.TheVariants as ends;

use crate::{CommandEnd, NoRow};
use disk_model::{Shelf, ShelfFault};
use pump_frame::SessionRow;
use session_table::{Table, TableFault};
use std::alloc::Global;

/// The most bytes that a table's file may have.
const MOST: usize = 65_536;

/// A room of zeros.
pub fn zeros(alloc: Global, size: usize) -> Option<Vec<u8>>
    ensures { IfSome result (λ room. length room.items ≡ size) }
{
    vec![in alloc; 0; size].ok()
}

fn row_among(alloc: Global, bytes: &[u8], session: u32) -> Result<SessionRow, CommandEnd>
    ensures row { IsRowIn result (row_among session (table_of bytes.now)) }
    ensures read { result ≡ Err ends.Unread → ⊥ }
    ensures only { IfErr result IsTableEnd }
    ensures lawful { IfOk result IsLawfulRow }
    ensures id { IfOk result (λ row. row.id ≡ session) }
{
    match Table::read(alloc, bytes) {
        Ok(table) => table
            .row(session)
            .ok_or(CommandEnd::NoRow(NoRow::Absent { session })),
        Err(TableFault::Memory) => Err(CommandEnd::Memory),
        Err(fault) => Err(CommandEnd::NoRow(NoRow::Refused(fault))),
    }
}

// The room is for the bytes of the file.
fn row_over<S: Shelf>(
    alloc: Global,
    shelf: &mut S,
    name: &str,
    session: u32,
    room: &mut [u8],
) -> Result<SessionRow, CommandEnd>
    requires { length room.old ≡ 65536 }
    ensures row { S.told.tells → IsRowOf (S.told.file shelf.old name.now) session result }
    ensures read { result ≡ Err ends.Unread → Rose (S.told.faults shelf.old) (S.told.faults shelf.new) }
    ensures lawful { IfOk result IsLawfulRow }
    ensures id { IfOk result (λ row. row.id ≡ session) }
    ensures disks { S.told.disk shelf.new ≡ S.told.disk shelf.old }
    ensures disk_faults { S.told.disk_faults shelf.new ≡ S.told.disk_faults shelf.old }
    ensures files { S.told.file shelf.new ≡ S.told.file shelf.old }
    ensures later { S.told.faults shelf.old ≤ S.told.faults shelf.new }
    ensures only { IfErr result IsTableEnd }
{
    match shelf.whole(name, room) {
        Ok(length) => {
            if length > MOST as u64 {
                return Err(CommandEnd::NoRow(NoRow::TooLong));
            }
            row_among(alloc, &room[..length as usize], session)
        }
        Err(ShelfFault::Failed) => Err(CommandEnd::Unread),
        Err(ShelfFault::Memory) => Err(CommandEnd::Memory),
    }
}

/// The row of a session in the file of this name.
pub fn row_in_file<S: Shelf>(
    alloc: Global,
    shelf: &mut S,
    name: &str,
    session: u32,
) -> Result<SessionRow, CommandEnd>
    ensures row { S.told.tells → IsRowOf (S.told.file shelf.old name.now) session result }
    ensures read { result ≡ Err ends.Unread → Rose (S.told.faults shelf.old) (S.told.faults shelf.new) }
    ensures lawful { IfOk result IsLawfulRow }
    ensures id { IfOk result (λ row. row.id ≡ session) }
    ensures disks { S.told.disk shelf.new ≡ S.told.disk shelf.old }
    ensures disk_faults { S.told.disk_faults shelf.new ≡ S.told.disk_faults shelf.old }
    ensures files { S.told.file shelf.new ≡ S.told.file shelf.old }
    ensures later { S.told.faults shelf.old ≤ S.told.faults shelf.new }
    ensures only { IfErr result IsTableEnd }
{
    let Some(mut room) = zeros(alloc, MOST) else {
        return Err(CommandEnd::Memory);
    };
    row_over(alloc, shelf, name, session, room.as_mut_slice())
}

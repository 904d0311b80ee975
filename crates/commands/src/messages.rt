//! The messages that a receiver has are printed.

ghost use Rattle.std.specs.Prelude.{◌≡◌, ◌+◌, ◌≤◌, ℕ, List, [], ◌∷◌, ◌++◌, length, drop, false, IfOk, IfErr, OnOk};
ghost use Rattle.std.specs.Prelude.{OnErr, Err};
ghost use Rattle.std.specs.Io.KnownBytes.{Appends};
ghost use Rattle.arrayvec.specs.ArrayVec.{array_vec_len};
ghost use Rattle.disk_model.specs.Plain.{plain_meaning};
ghost use Rattle.disk_model.specs.declared.name.Role.{Role as DiskRole};
ghost use Rattle.disk_model.specs.declared.name.Role.TheVariants as roles;
ghost use Rattle.high_receiver.specs.Receiving.{IsRecvReady, recv_disk, recv_row};
ghost use Rattle.pump_frame.specs.Counts.{Rose};
ghost use Rattle.pump_frame.specs.Rows.{IsLawfulRow};
ghost use Rattle.pump_link.specs.Causes.{AppendsPrefix, HasCause};
ghost use Rattle.script_reader.specs.HexFields.{hex_field};
ghost use Rattle.stable_buffer.specs.Log.{RecvStands};
ghost use Rattle.command_ends.specs.Causes.{HasEndCause};
ghost use Rattle.command_ends.specs.CommandEnds.{EndsSo, ClosesSo, end_line, IsSessionEnd};
ghost use Rattle.commands.specs.Formatting.{IsDiskEnd};
ghost use Rattle.commands.specs.Messages.{message_line, message_lines, line_from, PrintsMessages, OpensLog, RefusesLog};
ghost use Rattle.commands.specs.Messages.{StopsLog};
ghost use Rattle.commands.specs.ReadDisks.{disk_file, IsReadOf};
ghost use Rattle.command_ends.specs.Tables.{HasRow};
ghost use Rattle.command_ends.specs.declared.command_end.CommandEnd.TheVariants as ends;

use crate::read_disk::{file_room, read_disk};
use crate::show::end_at;
use arrayvec::ArrayVec;
use command_ends::{CommandEnd, put, put_number, row_in_file, write_end};
use command_line::TableName;
use disk_model::{PlainDisk, Role, Shelf};
use high_receiver::Receiver;
use pump_frame::SessionRow;
use pump_link::{Sink, WriteFault, write_all};
use recovery::open_receiver;
use stable_buffer::RECEIVER_SIZE;
use std::alloc::Global;

// Two digits for each byte, or a dash for none.
fn put_hex(into: &mut ArrayVec<u8, 2400>, bytes: &[u8])
    requires short { length bytes.now ≤ 1024 }
    requires room { array_vec_len into.old + 2050 ≤ 2400 }
    ensures items { into.new.items ≡ into.old.items ++ 32 ∷ hex_field bytes.now }
    ensures len { array_vec_len into.new ≤ array_vec_len into.old + 2050 }
{
    if bytes.is_empty() {
        put(into, b" -");
        return;
    }
    let mut digits = [0; 2048];
    let digits = &mut digits[..2 * bytes.len()];
    hex::encode_to_slice(bytes, digits).unwrap();
    put(into, b" ");
    put(into, digits);
}

// The line of a message, in an empty room.
fn put_message(into: &mut ArrayVec<u8, 2400>, session: u32, number: u64, message: &[u8])
    requires empty { into.old.items ≡ [] }
    requires short { length message.now ≤ 1024 }
    ensures { into.new.items ≡ message_line session number message.now }
{
    put(into, b"message");
    put_number(into, u64::from(session));
    put_number(into, number);
    put_hex(into, message);
    put(into, b"\n");
}

// Writes the line of a message, where its number is not below the first that is wanted.
fn write_from<O: Sink>(
    from: u32,
    session: u32,
    number: u64,
    message: &[u8],
    out: &mut O,
) -> Result<(), WriteFault>
    requires short { length message.now ≤ 1024 }
    ensures ok { OnOk result (Appends (O.written out.old) (O.written out.new)
        (line_from from session number message.now)) }
    ensures err { OnErr result (AppendsPrefix (O.written out.old) (O.written out.new)
        (line_from from session number message.now)) }
    ensures cause { HasCause (O.faults out.old) (O.faults out.new) result }
{
    if number < u64::from(from) {
        return Ok(());
    }
    let mut line = ArrayVec::new();
    put_message(&mut line, session, number, message);
    write_all(out, line.as_slice())
}

// Writes the lines of the messages from a number on.
fn write_messages<O: Sink>(
    mut receiver: Receiver<PlainDisk>,
    session: u32,
    from: u32,
    out: &mut O,
) -> CommandEnd
    requires ready { IsRecvReady plain_meaning receiver }
    requires calm { (recv_disk receiver).armed ≡ false }
    ensures { (messages : List (List ℕ)) → RecvStands (recv_row receiver) messages (recv_disk receiver).bytes
        → ClosesSo (O.written out.old) (O.written out.new) (O.faults out.old) (O.faults out.new)
        (message_lines session from (drop from messages)) ends.Done result }
{
    let mut log = receiver.reader();
    for number in 0..receiver.count() {
        match log.advance(&mut receiver) {
            Ok(()) => {}
            Err(_) => unreachable!("no call of this disk fails"),
        }
        match write_from(from, session, number, log.message(), out) {
            Ok(()) => {}
            Err(_) => return CommandEnd::Unwritten,
        }
    }
    CommandEnd::Done
}

// The receiver of a row over its disk in memory.
fn open_log(row: &SessionRow, disk: PlainDisk) -> Result<Receiver<PlainDisk>, CommandEnd>
    requires lawful { IsLawfulRow row.now }
    requires calm { disk.armed ≡ false }
    ensures opens { IfOk result OpensLog }
    ensures same { IfOk result (λ receiver. (recv_disk receiver).bytes ≡ disk.bytes) }
    ensures row { IfOk result (λ receiver. recv_row receiver ≡ row.now) }
    ensures refused { IfErr result (RefusesLog row.now disk.bytes) }
{
    match open_receiver(disk, row, RECEIVER_SIZE) {
        Ok(receiver) => Ok(receiver),
        Err((_, why)) => Err(end_at(Role::Recv, &Some(why))),
    }
}

// The receiver of a row over what its file holds.
fn row_log<S: Shelf>(
    alloc: Global,
    row: &SessionRow,
    session: u32,
    shelf: &mut S,
) -> Result<Receiver<PlainDisk>, CommandEnd>
    requires lawful { IsLawfulRow row.now }
    ensures opens { IfOk result OpensLog }
    ensures read { IfOk result (λ receiver. S.told.tells
        → IsReadOf (disk_file (S.told.file shelf.old) session roles.Recv) (recv_disk receiver).bytes) }
    ensures row { IfOk result (λ receiver. recv_row receiver ≡ row.now) }
    ensures stops { IfErr result (λ end. S.told.tells
        → StopsLog row.now (disk_file (S.told.file shelf.old) session roles.Recv) end) }
    ensures only { IfErr result IsDiskEnd }
    ensures device { (role : DiskRole) → result ≡ Err (ends.Failed role)
        → Rose (S.told.faults shelf.old) (S.told.faults shelf.new) }
    ensures disks { S.told.disk shelf.new ≡ S.told.disk shelf.old }
{
    let Some(mut room) = file_room(alloc) else {
        return Err(CommandEnd::Memory);
    };
    match read_disk(alloc, shelf, session, Role::Recv, room.as_mut_slice()) {
        Ok(disk) => open_log(row, disk),
        Err(end) => Err(end),
    }
}

// The receiver of a session over what its file holds.
fn read_log<S: Shelf>(
    alloc: Global,
    table: &TableName,
    session: u32,
    shelf: &mut S,
) -> Result<Receiver<PlainDisk>, CommandEnd>
    ensures opens { IfOk result OpensLog }
    ensures read { IfOk result (λ receiver. S.told.tells
        → IsReadOf (disk_file (S.told.file shelf.old) session roles.Recv) (recv_disk receiver).bytes) }
    ensures row { IfOk result (λ receiver. S.told.tells
        → HasRow (S.told.file shelf.old table.now) session (recv_row receiver)) }
    ensures stops { IfErr result (λ end. (from : ℕ) → S.told.tells
        → PrintsMessages (S.told.file shelf.old table.now) (disk_file (S.told.file shelf.old) session roles.Recv)
        session from end (end_line session end)) }
    ensures cause { IfErr result (HasEndCause IsSessionEnd
        (λ role. Rose (S.told.faults shelf.old) (S.told.faults shelf.new))
        (Rose (S.told.faults shelf.old) (S.told.faults shelf.new)) ⊥) }
    ensures disks { S.told.disk shelf.new ≡ S.told.disk shelf.old }
{
    match row_in_file(alloc, shelf, table.as_str(), session) {
        Ok(row) => row_log(alloc, &row, session, shelf),
        Err(end) => Err(end),
    }
}

/// Prints the messages that the receiver of a session of the table has, from a number on, as its disk's
/// file stands. No disk is taken off the shelf, and none is changed.
pub fn print_messages<S: Shelf, O: Sink>(
    alloc: Global,
    table: &TableName,
    session: u32,
    from: u32,
    shelf: &mut S,
    out: &mut O,
) -> CommandEnd
    ensures ends { S.told.tells → EndsSo (PrintsMessages (S.told.file shelf.old table.now)
        (disk_file (S.told.file shelf.old) session roles.Recv) session from) (O.written out.old) (O.written out.new)
        result }
    ensures disks { S.told.disk shelf.new ≡ S.told.disk shelf.old }
    ensures cause { HasEndCause IsSessionEnd (λ role. Rose (S.told.faults shelf.old) (S.told.faults shelf.new))
        (Rose (S.told.faults shelf.old) (S.told.faults shelf.new)) (Rose (O.faults out.old) (O.faults out.new)) result }
{
    match read_log(alloc, table, session, shelf) {
        Ok(receiver) => write_messages(receiver, session, from, out),
        Err(end) => write_end(session, end, out),
    }
}

// The disks of a race, which are in memory and have the room that they need.
ghost use Rattle.std.specs.Prelude.{◌≡◌, ◌+◌, ◌*◌, ◌≤◌, false, [], IfOk};
ghost use Rattle.disk_model.specs.Disk.{Settled};
ghost use Rattle.disk_model.specs.Plain.{plain_meaning};
ghost use Rattle.pump_frame.specs.Rows.{IsLawfulRow};
ghost use Rattle.stable_buffer.specs.Format.{FormatStands, second_of, size_of};
ghost use Rattle.stable_buffer.specs.Register.{IsReady, register_disk, register_value};
ghost use Rattle.script_reader.specs.Generated.{generated_row};
ghost use Rattle.race.specs.HighRacers.{HasReceived};
ghost use Rattle.race.specs.NewDisks.{IsNewLow, IsNewHigh};

use disk_model::{PlainDisk, Role};
use high_receiver::Receiver;
use pump_frame::{OutOfMemory, SessionRow};
use stable_buffer::{HighStore, LowStore, Register, disk_size, format};
use std::alloc::Global;

/// How many bytes the record of the longest message of a race has: two are its length.
const LONGEST_RECORD: u64 = 66;

/// The register of a new disk, which may grow to so many bytes.
fn new_register(
    alloc: Global,
    row: &SessionRow,
    role: Role,
    room: u64,
) -> Result<Register<PlainDisk>, OutOfMemory>
    requires lawful { IsLawfulRow row.now }
    requires room { size_of row.now role ≤ room }
    ensures ready { IfOk result (λ register. IsReady plain_meaning register) }
    ensures settled { IfOk result (λ register. Settled plain_meaning (register_disk register)) }
    ensures value { IfOk result (λ register. register_value register ≡ (0, second_of role)) }
    ensures stands { IfOk result (λ register.
        FormatStands row.now role 0 (register_disk register).bytes) }
    ensures calm { IfOk result (λ register. (register_disk register).armed ≡ false) }
    ensures room { IfOk result (λ register. (register_disk register).room ≡ room) }
{
    let mut disk = PlainDisk::new(alloc, room)?;
    let Ok(()) = format(&mut disk, row, role, 0) else {
        unreachable!();
    };
    match Register::open(disk) {
        Ok(register) => Ok(register),
        Err(_) => unreachable!(),
    }
}

/// A new store of the messages.
fn new_low(alloc: Global, row: &SessionRow) -> Result<LowStore<PlainDisk>, OutOfMemory>
    requires { row.now ≡ generated_row }
    ensures { IfOk result IsNewLow }
{
    let register = new_register(alloc, row, Role::Low, disk_size(row, Role::Low))?;
    Ok(LowStore::over(register, row))
}

/// A new store of how many messages are removed.
fn new_high(alloc: Global, row: &SessionRow) -> Result<HighStore<PlainDisk>, OutOfMemory>
    requires { row.now ≡ generated_row }
    ensures { IfOk result IsNewHigh }
{
    let register = new_register(alloc, row, Role::High, disk_size(row, Role::High))?;
    Ok(HighStore::over(register))
}

/// A new receiver, with room for so many messages.
fn new_receiver(
    alloc: Global,
    row: &SessionRow,
    count: u32,
) -> Result<Receiver<PlainDisk>, OutOfMemory>
    requires row { row.now ≡ generated_row }
    requires count { count ≤ 100000 }
    ensures { IfOk result (λ receiver. HasReceived receiver count []) }
{
    let room = disk_size(row, Role::Recv) + LONGEST_RECORD * u64::from(count);
    let register = new_register(alloc, row, Role::Recv, room)?;
    Ok(Receiver::over(register, row, room))
}

/// The stores of the two processes, and the receiver.
#[derive(Drop)]
pub struct NewDisks {
    pub low: LowStore<PlainDisk>,
    pub high: HighStore<PlainDisk>,
    pub receiver: Receiver<PlainDisk>,
}

/// All of them new, with room for so many messages.
pub fn new_disks(alloc: Global, row: &SessionRow, count: u32) -> Result<NewDisks, OutOfMemory>
    requires row { row.now ≡ generated_row }
    requires count { count ≤ 100000 }
    ensures low { IfOk result (λ disks. IsNewLow disks.low) }
    ensures high { IfOk result (λ disks. IsNewHigh disks.high) }
    ensures receiver { IfOk result (λ disks. HasReceived disks.receiver count []) }
{
    let receiver = new_receiver(alloc, row, count)?;
    let high = new_high(alloc, row)?;
    let low = new_low(alloc, row)?;
    Ok(NewDisks {
        low,
        high,
        receiver,
    })
}

//! A pump is opened on its disks.

ghost use Rattle.std.specs.Prelude.{◌≡◌, [], false, true, None, Some, is_some, IfOk, IfErr, IfSome};
ghost use Rattle.circular_buffer.specs.Buffer.{buffer};
ghost use Rattle.disk_model.specs.Disk.{Moves, Same};
ghost use Rattle.disk_model.specs.declared.name.Role.TheVariants as roles;
ghost use Rattle.pump_core.specs.History.{first_life};
ghost use Rattle.pump_core.specs.Passage.{new_low, new_high, shape_of_row};
ghost use Rattle.pump_frame.specs.Rows.{IsLawfulRow};
ghost use Rattle.passage.specs.Plain.{shape_of, StandsFor as EndsStand};
ghost use Rattle.stable_buffer.specs.Low.{low_disk, low_is_open};
ghost use Rattle.stable_buffer.specs.High.{high_disk};
ghost use Rattle.high_receiver.specs.Receiving.{recv_disk};
ghost use Rattle.recovery.specs.Calls.{is_device};
ghost use Rattle.recovery.specs.declared.why.Why.TheVariants.{Device};
ghost use Rattle.script_reader.specs.Openings.{Found, first_past};
ghost use Rattle.two_worlds.specs.Openings.{IsRefused, DisksStandFor, LeavesDisk, ComeBack, disk_back};
ghost use Rattle.two_worlds.specs.Private.Readied.{PumpOpens, ReceiverOpens, disk_after, fails_at, role_blamed};
ghost use Rattle.two_worlds.specs.Private.Opened.{AreOpened};
ghost use Rattle.two_worlds.specs.Connections.{unused};
ghost use Rattle.two_worlds.specs.Rooms.{Serves};
ghost use Rattle.two_worlds.specs.Standing.{Stands, disk_at};
ghost use Rattle.two_worlds.specs.Working.{Works};

use crate::connection::Connection;
use crate::not_open::NotOpen;
use crate::pump::parts::Parts;
use crate::pump::readied::{Disks, ready_all};
use circular_buffer::HeapCircularBuffer;
use disk_model::{Disk, Role};
use high_process::HighProcess;
use high_receiver::Receiver;
use low_process::LowProcess;
use passage::PlainEnds;
use pump_frame::{Frame, Item, Kind, OutOfMemory, Payload, SessionRow};
use recovery::{Opened, Why, agree, open_pump, open_receiver};
use stable_buffer::{LowStore, RECEIVER_SIZE};
use std::alloc::Global;

/// How many packets are kept in each direction.
const PACKETS: usize = 64;

// All memory that a pump takes.
#[derive(Drop)]
struct Memory {
    connection: Connection,
    ends: PlainEnds,
    sent: HeapCircularBuffer<Item>,
    returned: HeapCircularBuffer<u64>,
    taken: Box<Frame>,
}

fn reserve(alloc: Global, row: &SessionRow) -> Result<Memory, OutOfMemory>
    requires lawful { IsLawfulRow row.now }
    ensures connection { IfOk result (λ memory. memory.connection ≡ unused) }
    ensures ends { IfOk result (λ memory. EndsStand memory.ends new_low new_high) }
    ensures shape { IfOk result (λ memory. shape_of memory.ends ≡ shape_of_row row.now) }
    ensures sent { IfOk result (λ memory. memory.sent ≡ buffer [] 64) }
    ensures returned { IfOk result (λ memory. memory.returned ≡ buffer [] 64) }
    ensures taken { IfOk result (λ memory. memory.taken.value.session ≡ row.now.id) }
{
    let taken = Frame {
        kind: Kind::Taken,
        session: row.id,
        number: 0,
        payload: Payload::default(),
    };
    Ok(Memory {
        connection: Connection::new(alloc)?,
        ends: PlainEnds::new(alloc, row)?,
        sent: HeapCircularBuffer::with_capacity(alloc, PACKETS)?,
        returned: HeapCircularBuffer::with_capacity(alloc, PACKETS)?,
        taken: Box::new(alloc, taken)?,
    })
}

// Whose disk a comparison blames.
fn blamed<D: Disk>(low: &LowStore<D>) -> Role
    ensures { result ≡ role_blamed (low_is_open low.now) }
{
    if low.is_open() { Role::Recv } else { Role::Low }
}

fn refused<D: Disk>(role: Role, why: Why, pump: Opened<D>, recv: D) -> NotOpen<D>
    ensures { result ≡ record {
      role = role;
      why = Some why;
      low = low_disk pump.low;
      high = high_disk pump.high;
      recv = recv;
    } }
{
    NotOpen {
        role,
        why: Some(why),
        low: pump.low.into_disk(),
        high: pump.high.into_disk(),
        recv,
    }
}

// The pump's disks are opened, then the receiver's, and then these are compared.
pub(super) fn open_all<D: Disk>(
    row: &SessionRow,
    disks: Disks<D>,
    ends: &mut PlainEnds,
) -> Result<(Opened<D>, Receiver<D>), NotOpen<D>>
    requires lawful { IsLawfulRow row.now }
    requires fresh { EndsStand ends.old new_low new_high }
    requires shape { shape_of ends.old ≡ shape_of_row row.now }
    ensures pump { IfOk result (λ s. PumpOpens D.told row.now (D.told.reading disks.low) (D.told.reading disks.high)
        s.0 ends.new) }
    ensures receiver { IfOk result (λ s. ReceiverOpens D.told row.now (D.told.reading disks.low)
        (D.told.reading disks.recv)
        s.0.removed s.0.next s.1) }
    ensures refused { IfErr result (λ e. IfSome e.why (λ why. is_device why ≡ false → D.told.tells
        → IsRefused row.now (D.told.reading disks.low) (D.told.reading disks.high) (D.told.reading disks.recv) e.role
        why)) }
    ensures device { IfErr result (λ e. IfSome e.why (λ why. is_device why ≡ true
        → why ≡ Device (D.told.count (disk_back e.role e)))) }
    ensures some { IfErr result (λ e. is_some e.why ≡ true) }
    ensures low { Serves D.told 0 disks.low (disk_after roles.Low result) (fails_at roles.Low result) }
    ensures high { Serves D.told 0 disks.high (disk_after roles.High result) (fails_at roles.High result) }
    ensures recv { Serves D.told 0 disks.recv (disk_after roles.Recv result) (fails_at roles.Recv result) }
    ensures moves_low { Moves D.told Same disks.low (disk_after roles.Low result) }
    ensures moves_high { Moves D.told Same disks.high (disk_after roles.High result) }
    ensures moves_recv { Moves D.told Same disks.recv (disk_after roles.Recv result) }
{
    let mut pump = match open_pump(disks.low, disks.high, row, ends) {
        Ok(pump) => pump,
        Err(refused) => {
            return Err(NotOpen {
                role: refused.role,
                why: Some(refused.why),
                low: refused.low,
                high: refused.high,
                recv: disks.recv,
            });
        }
    };
    let mut receiver = match open_receiver(disks.recv, row, RECEIVER_SIZE) {
        Ok(receiver) => receiver,
        Err((recv, why)) => return Err(refused(Role::Recv, why, pump, recv)),
    };
    match agree(&mut pump.low, pump.removed, &mut receiver) {
        Ok(()) => Ok((pump, receiver)),
        Err(why) => {
            let role = blamed(&pump.low);
            Err(refused(role, why, pump, receiver.into_disk()))
        }
    }
}

impl<D: Disk> Parts<D> {
    // The parts over what was opened.
    fn assemble(
        row: &SessionRow,
        memory: Memory,
        pump: Opened<D>,
        receiver: Receiver<D>,
    ) -> Parts<D>
        requires lawful { IsLawfulRow row.now }
        requires connection { memory.connection ≡ unused }
        requires sent { memory.sent ≡ buffer [] 64 }
        requires returned { memory.returned ≡ buffer [] 64 }
        requires taken { memory.taken.value.session ≡ row.now.id }
        requires pump { PumpOpens D.told row.now (D.told.reading (low_disk pump.low))
            (D.told.reading (high_disk pump.high))
            pump memory.ends }
        requires receiver { ReceiverOpens D.told row.now (D.told.reading (low_disk pump.low))
            (D.told.reading (recv_disk receiver))
            pump.removed pump.next receiver }
        ensures opened { AreOpened D.told result first_life }
        ensures start { result.moment ≡ 0 }
        ensures sent { result.sent.items ≡ [] }
        ensures returned { result.returned.items ≡ [] }
        ensures row { result.row ≡ row.now }
        ensures low { disk_at roles.Low result ≡ low_disk pump.low }
        ensures high { disk_at roles.High result ≡ high_disk pump.high }
        ensures recv { disk_at roles.Recv result ≡ recv_disk receiver }
    {
        Parts {
            row: *row,
            connection: memory.connection,
            low: LowProcess::open(row, pump.next, pump.low_hand),
            low_store: pump.low,
            ends: memory.ends,
            high: HighProcess::open(row, pump.removed, pump.high_hand),
            high_store: pump.high,
            receiver,
            sent: memory.sent,
            returned: memory.returned,
            taken: memory.taken,
            moment: 0,
        }
    }

    /// The parts of a session before its first line. All memory is taken first; then each disk that is
    /// empty is formatted, and then they are opened and compared.
    pub fn open(
        alloc: Global,
        row: &SessionRow,
        low: D,
        high: D,
        recv: D,
    ) -> Result<Parts<D>, NotOpen<D>>
        requires lawful { IsLawfulRow row.now }
        ensures works { IfOk result (λ parts. Works D.told parts) }
        ensures opens { IfOk result (λ parts. D.told.tells → (f : Found)
            × DisksStandFor D.told row.now low high recv f) }
        ensures stands { IfOk result (λ parts. D.told.tells → (f : Found) → DisksStandFor D.told row.now low high recv f
            → Stands D.told parts (first_past row.now f)) }
        ensures row { IfOk result (λ parts. parts.row ≡ row.now) }
        ensures low { IfOk result (λ parts. LeavesDisk D.told row.now roles.Low low (disk_at roles.Low parts) false) }
        ensures high { IfOk result (λ parts. LeavesDisk D.told row.now roles.High high (disk_at roles.High parts)
            false) }
        ensures recv { IfOk result (λ parts. LeavesDisk D.told row.now roles.Recv recv (disk_at roles.Recv parts)
            false) }
        ensures back { IfErr result (λ e. ComeBack D.told row.now low high recv e) }
    {
        let Ok(mut memory) = reserve(alloc, row) else {
            return Err(NotOpen {
                role: Role::Low,
                why: None,
                low,
                high,
                recv,
            });
        };
        let disks = ready_all(row, low, high, recv)?;
        let (pump, receiver) = open_all(row, disks, &mut memory.ends)?;
        Ok(Parts::assemble(row, memory, pump, receiver))
    }
}

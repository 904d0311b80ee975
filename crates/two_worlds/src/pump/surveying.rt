//! What the disks of a session stand for.

ghost use Rattle.std.specs.Prelude.{◌≡◌, ◌≤◌, ◌<◌, ◌+◌, ◌^◌, [], ℕ, true, false, length, OnOk, IfOk, IfErr, IfSome};
ghost use Rattle.disk_model.specs.Disk.{Moves, Same};
ghost use Rattle.disk_model.specs.declared.name.Role.TheVariants as roles;
ghost use Rattle.pump_frame.specs.Counts.{Rose};
ghost use Rattle.pump_frame.specs.Rows.{IsLawfulRow};
ghost use Rattle.stable_buffer.specs.Low.{IsLowReady, low_disk, low_row, low_count};
ghost use Rattle.stable_buffer.specs.Numbers.{length_at};
ghost use Rattle.stable_buffer.specs.Stands.{InSlot, slot_of};
ghost use Rattle.recovery.specs.Calls.{is_device};
ghost use Rattle.recovery.specs.Deals.{InSlots};
ghost use Rattle.script_reader.specs.Openings.{Found};
ghost use Rattle.two_worlds.specs.Openings.{StandForFound, IsRefused, failed_at};
ghost use Rattle.two_worlds.specs.Surveys.{Surveys, IsRead};

use super::open::open_all;
use super::readied::Disks;
use crate::not_open::NotOpen;
use disk_model::{Disk, Role};
use passage::PlainEnds;
use pump_frame::{Payload, SessionRow};
use recovery::Why;
use stable_buffer::LowStore;
use std::alloc::Global;

/// What the three disks of a session stand for, and the disks.
#[derive(Drop)]
pub struct Survey<D> {
    /// How many messages were accepted.
    pub accepted: u64,
    /// How many of them were removed.
    pub removed: u64,
    /// How many the receiver took.
    pub received: u64,
    /// The messages that were accepted and not removed, in their order.
    pub live: Vec<Payload>,
    pub low: D,
    pub high: D,
    pub recv: D,
}

// Reads message n, which is live.
fn read_message<D: Disk>(low: &mut LowStore<D>, n: u64, row: &SessionRow) -> Result<Payload, Why>
    requires ready { IsLowReady D.told low.old }
    requires row { low_row low.old ≡ row.now }
    requires stored { n < low_count low.old }
    requires kept { low_count low.old ≤ n + row.now.capacity }
    ensures stands { IfOk result (λ message. D.told.tells
        → InSlot row.now n message (D.told.reading (low_disk low.old))) }
    ensures long { IfErr result (λ why. is_device why ≡ false → D.told.tells
        → row.now.message < length_at (D.told.reading (low_disk low.old)) (slot_of row.now n)) }
    ensures device { IfErr result (λ why. is_device why ≡ true
        → Rose (D.told.count (low_disk low.old)) (D.told.count (low_disk low.new))) }
    ensures counts { D.told.count (low_disk low.old) ≤ D.told.count (low_disk low.new) }
    ensures ready { OnOk result (IsLowReady D.told low.new) }
    ensures count { low_count low.new ≡ low_count low.old }
    ensures row { low_row low.new ≡ low_row low.old }
    ensures moves { Moves D.told Same (low_disk low.old) (low_disk low.new) }
{
    let mut message = Payload::default();
    match low.slot(n, &mut message) {
        Ok(length) => {
            if length > row.message {
                return Err(Why::BadSlot { number: n, length });
            }
            Ok(message)
        }
        Err(device) => Err(Why::Device {
            faults: device.faults,
        }),
    }
}

// Reads the live messages; no cause where memory was wanting.
fn read_live<D: Disk>(
    low: &mut LowStore<D>,
    from: u64,
    row: &SessionRow,
    live: &mut Vec<Payload>,
) -> Result<(), Option<Why>>
    requires ready { IsLowReady D.told low.old }
    requires row { low_row low.old ≡ row.now }
    requires range { (from ≤ low_count low.old) × (low_count low.old ≤ from + row.now.capacity) }
    requires none { live.old.items ≡ [] }
    ensures count { OnOk result (from + length live.new.items ≡ low_count low.old) }
    ensures stand { OnOk result (D.told.tells
        → InSlots row.now from live.new.items (D.told.reading (low_disk low.old))) }
    ensures long { IfErr result (λ e. IfSome e (λ why. is_device why ≡ false → D.told.tells
        → (n : ℕ) × (from ≤ n) × (n < low_count low.old)
        × (row.now.message < length_at (D.told.reading (low_disk low.old)) (slot_of row.now n)))) }
    ensures device { IfErr result (λ e. IfSome e (λ why. is_device why ≡ true
        → Rose (D.told.count (low_disk low.old)) (D.told.count (low_disk low.new)))) }
    ensures counts { D.told.count (low_disk low.old) ≤ D.told.count (low_disk low.new) }
    ensures moves { Moves D.told Same (low_disk low.old) (low_disk low.new) }
{
    let to = low.accepted();
    for n in from..to {
        match read_message(low, n, row) {
            Ok(message) => match live.push(message) {
                Ok(()) => {}
                Err(_) => return Err(None),
            },
            Err(why) => return Err(Some(why)),
        }
    }
    Ok(())
}

/// What the three disks of a session stand for. They are opened and compared, none is formatted, and no
/// byte of them is changed. Where they stand for nothing they are refused, for the first cause in the
/// order of `docs/formats.md`, "Disks"; an empty one is no disk of a relay.
pub fn survey_disks<D: Disk>(
    alloc: Global,
    row: &SessionRow,
    low: D,
    high: D,
    recv: D,
) -> Result<Survey<D>, NotOpen<D>>
    requires lawful { IsLawfulRow row.now }
    ensures found { IfOk result (λ s. D.told.tells → (f : Found)
        × StandForFound row.now f (D.told.reading low) (D.told.reading high) (D.told.reading recv) × Surveys f s) }
    ensures refused { IfErr result (λ e. IfSome e.why (λ why. is_device why ≡ false → D.told.tells
        → IsRefused row.now (D.told.reading low) (D.told.reading high) (D.told.reading recv) e.role why)) }
    ensures few { IfOk result (λ s. (s.removed + length s.live.items ≡ s.accepted) × (s.accepted ≤ 2 ^ 48)) }
    ensures low { IfOk result (λ s. IsRead D.told low s.low false) }
    ensures high { IfOk result (λ s. IsRead D.told high s.high false) }
    ensures recv { IfOk result (λ s. IsRead D.told recv s.recv false) }
    ensures low_back { IfErr result (λ e. IsRead D.told low e.low (failed_at roles.Low e)) }
    ensures high_back { IfErr result (λ e. IsRead D.told high e.high (failed_at roles.High e)) }
    ensures recv_back { IfErr result (λ e. IsRead D.told recv e.recv (failed_at roles.Recv e)) }
{
    let Ok(mut ends) = PlainEnds::new(alloc, row) else {
        return Err(NotOpen {
            role: Role::Low,
            why: None,
            low,
            high,
            recv,
        });
    };
    let disks = Disks { low, high, recv };
    let (mut pump, receiver) = match open_all(row, disks, &mut ends) {
        Ok(opened) => opened,
        Err(refused) => return Err(refused),
    };
    let mut live = Vec::new(alloc);
    match read_live(&mut pump.low, pump.removed, row, &mut live) {
        Ok(()) => Ok(Survey {
            accepted: pump.next,
            removed: pump.removed,
            received: receiver.count(),
            live,
            low: pump.low.into_disk(),
            high: pump.high.into_disk(),
            recv: receiver.into_disk(),
        }),
        Err(why) => Err(NotOpen {
            role: Role::Low,
            why,
            low: pump.low.into_disk(),
            high: pump.high.into_disk(),
            recv: receiver.into_disk(),
        }),
    }
}

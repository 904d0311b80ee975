// The messages of an opened pump, dealt out to the hands and the passage.
ghost use Rattle.std.specs.Prelude.{◌≡◌, ◌+◌, ◌-◌, ◌<◌, ◌≤◌, ℕ, false, [], Some, None, List, length, IfOk, OnOk};
ghost use Rattle.std.specs.Prelude.{IfErr};
ghost use Rattle.std.specs.List.{All};
ghost use Rattle.stable_buffer.specs.Stands.{InSlot};
ghost use Rattle.stable_buffer.specs.Low.{IsLowReady, low_disk, low_row, low_count};
ghost use Rattle.pump_core.specs.Passage.{Low, High};
ghost use Rattle.recovery.specs.Refusals.{bad_slot};
ghost use Rattle.recovery.specs.Calls.{is_device};
ghost use Rattle.recovery.specs.Hands.{ReadsLow};
ghost use Rattle.recovery.specs.Deals.{numbered, Fills, InSlots, IsDealt};

use crate::Why;
use crate::pass::Offers;
use disk_model::Disk;
use passage::{Forwarded, LowSide};
use pump_frame::{Item, Payload, SessionRow};
use stable_buffer::LowStore;

/// What the hands hold.
#[derive(Clone, Copy)]
pub struct Hands {
    pub high: Option<Item>,
    pub low: Option<Item>,
}

// Reads message n, which is live.
pub fn read_live<D: Disk>(low: &mut LowStore<D>, n: u64, row: &SessionRow) -> Result<Item, Why>
    requires ready { IsLowReady D.told low.old }
    requires row { low_row low.old ≡ row.now }
    requires stored { n < low_count low.old }
    requires kept { low_count low.old ≤ n + row.now.capacity }
    ensures number { IfOk result (λ item. item.number ≡ n) }
    ensures short { IfOk result (λ item. length item.payload ≤ row.now.message) }
    ensures stands { IfOk result (λ item. D.told.tells
        → InSlot row.now n item.payload (D.told.reading (low_disk low.old))) }
    ensures fine { OnOk result (D.told.tells → (k : ℕ) → 0 < k
        → bad_slot row.now (D.told.reading (low_disk low.old)) n k
        ≡ bad_slot row.now (D.told.reading (low_disk low.old)) (n + 1) (k - 1)) }
    ensures exact { IfErr result (λ why. is_device why ≡ false → D.told.tells → (k : ℕ) → 0 < k
        → bad_slot row.now (D.told.reading (low_disk low.old)) n k ≡ Some why) }
    ensures reads { ReadsLow D.told low.old low.new result }
{
    let mut payload = Payload::default();
    match low.slot(n, &mut payload) {
        Ok(length) => {
            if length > row.message {
                return Err(Why::BadSlot { number: n, length });
            }
            Ok(Item { number: n, payload })
        }
        Err(device) => Err(Why::Device {
            faults: device.faults,
        }),
    }
}

// Forwards the messages from one number to before another, which the passage has places for.
fn fill<D: Disk, L: LowSide, O: Offers<L>>(
    low: &mut LowStore<D>,
    from: u64,
    to: u64,
    row: &SessionRow,
    how: &O,
    ends: &mut L,
) -> Result<(), Why>
    requires ready { IsLowReady D.told low.old }
    requires row { low_row low.old ≡ row.now }
    requires range { (from ≤ to) × (to ≤ low_count low.old) }
    requires kept { low_count low.old ≤ from + row.now.capacity }
    requires room { to ≤ from + (L.shape ends.old).places }
    requires calm { D.told.tells_plan → D.told.armed (low_disk low.old) ≡ false }
    requires fresh { (l : Low) × (h : High) × L.stands ends.old l h × (l.forwarded ≡ []) }

    ensures forwarded { OnOk result ((messages : List (List ℕ)) × (from + length messages ≡ to)
        × All (λ message. length message ≤ row.now.message) messages
        × (D.told.tells → InSlots row.now from messages (D.told.reading (low_disk low.old)))
        × Fills (L.stands ends.old) (L.stands ends.new) (numbered from messages)) }
    ensures fine { OnOk result (D.told.tells → (k : ℕ) → to ≤ from + k
        → bad_slot row.now (D.told.reading (low_disk low.old)) from k
        ≡ bad_slot row.now (D.told.reading (low_disk low.old)) to (from + k - to)) }
    ensures exact { IfErr result (λ why. is_device why ≡ false → D.told.tells → (k : ℕ) → to ≤ from + k
        → bad_slot row.now (D.told.reading (low_disk low.old)) from k ≡ Some why) }
    ensures reads { ReadsLow D.told low.old low.new result }
    ensures ends { (L.shape ends.new ≡ L.shape ends.old) × (L.place ends.new ≡ L.place ends.old) }
{
    for n in from..to {
        let item = read_live(low, n, row)?;
        match how.offer(item, ends) {
            Forwarded::Passed => {}
            Forwarded::Full(_) => unreachable!(),
        }
    }
    Ok(())
}

/// Gives the messages from `removed` on to the hands and the passage.
pub fn deal<D: Disk, L: LowSide, O: Offers<L>>(
    low: &mut LowStore<D>,
    removed: u64,
    row: &SessionRow,
    how: &O,
    ends: &mut L,
) -> Result<Hands, Why>
    requires ready { IsLowReady D.told low.old }
    requires row { low_row low.old ≡ row.now }
    requires between { (removed ≤ low_count low.old) × (low_count low.old ≤ removed + row.now.capacity) }
    requires shape { (L.shape ends.old).places ≡ row.now.capacity - 2 }
    requires calm { D.told.tells_plan → D.told.armed (low_disk low.old) ≡ false }
    requires fresh { (l : Low) × (h : High) × L.stands ends.old l h × (l.forwarded ≡ []) }

    ensures dealt { IfOk result (λ hands. (messages : List (List ℕ))
        × (D.told.tells → InSlots row.now removed messages (D.told.reading (low_disk low.old)))
        × IsDealt row.now removed (low_count low.old) messages hands.high hands.low
        (L.stands ends.old) (L.stands ends.new)) }
    ensures fine { OnOk result (D.told.tells
        → bad_slot row.now (D.told.reading (low_disk low.old)) removed (low_count low.old - removed) ≡ None) }
    ensures exact { IfErr result (λ why. is_device why ≡ false → D.told.tells
        → bad_slot row.now (D.told.reading (low_disk low.old)) removed (low_count low.old - removed) ≡ Some why) }
    ensures reads { ReadsLow D.told low.old low.new result }
    ensures ends { (L.shape ends.new ≡ L.shape ends.old) × (L.place ends.new ≡ L.place ends.old) }
{
    let next = low.accepted();
    if removed == next {
        return Ok(Hands {
            high: None,
            low: None,
        });
    }
    let first = read_live(low, removed, row)?;
    let last = removed + row.capacity as u64 - 1;
    fill(low, removed + 1, next.min(last), row, how, ends)?;
    if next <= last {
        return Ok(Hands {
            high: Some(first),
            low: None,
        });
    }
    let held = read_live(low, last, row)?;
    Ok(Hands {
        high: Some(first),
        low: Some(held),
    })
}

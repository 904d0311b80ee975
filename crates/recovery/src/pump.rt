// Opening the two stores of a pump.
ghost use Rattle.std.specs.Prelude.{◌≡◌, ◌-◌, [], IfOk, IfErr};
ghost use Rattle.pump_frame.specs.Rows.{IsLawfulRow};
ghost use Rattle.pump_core.specs.Passage.{Low, High};
ghost use Rattle.recovery.specs.Opening.{ArePaired, IsNotOpened, IsOpening};

use crate::Why;
use crate::hands::deal;
use crate::kept::{open_high, open_low};
use crate::pass::{AtOnce, Offers, Waits};
use disk_model::{Disk, Role};
use passage::{LowEnd, LowSide, WaitLowEnd};
use pump_frame::{Item, SessionRow};
use stable_buffer::{HighStore, LowStore};
use std::sync::Wait;

/// The two stores of a pump, how many messages are accepted and removed, and what is in the hands
/// of the two processes.
#[derive(Drop)]
pub struct Opened<D> {
    pub low: LowStore<D>,
    pub high: HighStore<D>,
    pub next: u64,
    pub removed: u64,
    pub high_hand: Option<Item>,
    pub low_hand: Option<Item>,
}

/// Why a pump is not opened, whose disk is the cause, and the two disks as they were.
#[derive(Drop)]
pub struct NotOpened<D> {
    pub role: Role,
    pub why: Why,
    pub low: D,
    pub high: D,
}

/// The two stores of a pump.
#[derive(Drop)]
pub struct Pair<D> {
    pub low: LowStore<D>,
    pub high: HighStore<D>,
}

/// Opens the two stores of a pump, and compares their counts.
pub fn open_pair<D: Disk>(low: D, high: D, row: &SessionRow) -> Result<Pair<D>, NotOpened<D>>
    requires lawful { IsLawfulRow row.now }

    ensures opened { IfOk result (λ p. ArePaired D.told row.now low high p) }
    ensures refused { IfErr result (λ e. IsNotOpened D.told row.now low high e) }
{
    let low = match open_low(low, row) {
        Ok(low) => low,
        Err((low, why)) => {
            return Err(NotOpened {
                role: Role::Low,
                why,
                low,
                high,
            });
        }
    };
    let high = match open_high(high, row) {
        Ok(high) => high,
        Err((high, why)) => {
            return Err(NotOpened {
                role: Role::High,
                why,
                low: low.into_disk(),
                high,
            });
        }
    };
    let (accepted, removed) = (low.accepted(), high.removed());
    if removed > accepted || accepted - removed > row.capacity as u64 {
        return Err(NotOpened {
            role: Role::High,
            why: Why::Mismatch { removed, accepted },
            low: low.into_disk(),
            high: high.into_disk(),
        });
    }
    Ok(Pair { low, high })
}

// Opens a pump, whose messages are offered to the end in this way.
fn open_pump_by<D: Disk, L: LowSide, O: Offers<L>>(
    low: D,
    high: D,
    row: &SessionRow,
    how: &O,
    ends: &mut L,
) -> Result<Opened<D>, NotOpened<D>>
    requires lawful { IsLawfulRow row.now }
    requires shape { (L.shape ends.old).places ≡ row.now.capacity - 2 }
    requires fresh { (l : Low) × (h : High) × L.stands ends.old l h × (l.forwarded ≡ []) }

    ensures { IsOpening D.told row.now low high result L.shape L.place L.stands ends.old ends.new }
{
    let Pair { mut low, high } = match open_pair(low, high, row) {
        Ok(pair) => pair,
        Err(refused) => return Err(refused),
    };
    let (next, removed) = (low.accepted(), high.removed());
    match deal(&mut low, removed, row, how, ends) {
        Ok(hands) => Ok(Opened {
            low,
            high,
            next,
            removed,
            high_hand: hands.high,
            low_hand: hands.low,
        }),
        Err(why) => Err(NotOpened {
            role: Role::Low,
            why,
            low: low.into_disk(),
            high: high.into_disk(),
        }),
    }
}

/// Opens the two stores of a pump, and deals out its messages: the first to the high hand, the next
/// ones to the passage, in which nothing was forwarded yet, and where all places are full the last
/// to the low hand. After a refusal the passage may have some of them: clear it.
pub fn open_pump<D: Disk, L: LowEnd>(
    low: D,
    high: D,
    row: &SessionRow,
    ends: &mut L,
) -> Result<Opened<D>, NotOpened<D>>
    requires lawful { IsLawfulRow row.now }
    requires shape { (L.shape ends.old).places ≡ row.now.capacity - 2 }
    requires fresh { (l : Low) × (h : High) × L.stands ends.old l h × (l.forwarded ≡ []) }

    ensures { IsOpening D.told row.now low high result L.shape L.place L.stands ends.old ends.new }
{
    open_pump_by(low, high, row, &AtOnce, ends)
}

/// As `open_pump`, over an end whose calls may wait for the other thread.
pub fn open_pump_waiting<D: Disk, L: WaitLowEnd, R: Wait>(
    rt: &R,
    low: D,
    high: D,
    row: &SessionRow,
    ends: &mut L,
) -> Result<Opened<D>, NotOpened<D>>
    requires lawful { IsLawfulRow row.now }
    requires shape { (L.shape ends.old).places ≡ row.now.capacity - 2 }
    requires fresh { (l : Low) × (h : High) × L.stands ends.old l h × (l.forwarded ≡ []) }

    ensures { IsOpening D.told row.now low high result L.shape L.place L.stands ends.old ends.new }
{
    open_pump_by(low, high, row, &Waits { rt }, ends)
}

// The two processes of an opening, each with what it needs.
ghost use Rattle.std.specs.Prelude.{◌≡◌, false};
ghost use Rattle.pump_core.specs.Passage.{Low, High, ComesNext, new_high};
ghost use Rattle.pump_frame.specs.Rows.{IsLawfulRow};
ghost use Rattle.stable_buffer.specs.Low.{IsLowReady, low_count, low_row};
ghost use Rattle.stable_buffer.specs.High.{IsHighReady, high_count};
ghost use Rattle.low_process.specs.Ends.{number_offered};
ghost use Rattle.low_process.specs.Looks.{IsHand, last_of as low_last, is_down};
ghost use Rattle.low_process.specs.Ready.{Ready as LowReady};
ghost use Rattle.high_process.specs.Looks.{IsHand as IsHighHand};
ghost use Rattle.high_process.specs.Ready.{Ready as HighReady};
ghost use Rattle.high_process.specs.States.{last_of as high_last};
ghost use Rattle.serving.specs.Starting.{LowBegins, HighBegins};

use crate::high_half::HighParts;
use crate::low_half::LowParts;
use delay_table::StreamWords;
use disk_model::Disk;
use high_process::HighProcess;
use low_process::LowProcess;
use passage::{WaitHighEnd, WaitLowEnd};
use pump_frame::{Item, SessionRow};
use stable_buffer::{HighStore, LowStore};

/// The low process of an opening, with what it needs.
pub fn start_low<D: Disk, L: WaitLowEnd>(
    row: &SessionRow,
    store: LowStore<D>,
    next: u64,
    hand: Option<Item>,
    ends: L,
    key: [u8; 32],
) -> LowParts<StreamWords, D, L>
    requires lawful { IsLawfulRow row.now }
    requires ready { IsLowReady D.told store }
    requires row { low_row store ≡ row.now }
    requires count { low_count store ≡ next }
    requires hand { IsHand next hand }
    requires ends { (l : Low) × (h : High) × L.stands ends l h × ComesNext l.forwarded (number_offered next hand) }
    ensures ready { LowReady D.told result.process result.store (L.stands result.ends) }
    ensures up { is_down result.process ≡ false }
    ensures last { low_last result.process ≡ 0 }
    ensures begins { LowBegins L.stands row.now next hand store ends key result }
{
    let is_held = hand.is_some();
    let process = LowProcess::open(row, next, hand);
    LowParts {
        process,
        store,
        ends,
        words: StreamWords::new(key, 0),
        is_held,
    }
}

/// The high process of an opening, with what it needs.
pub fn start_high<D: Disk, H: WaitHighEnd>(
    row: &SessionRow,
    store: HighStore<D>,
    removed: u64,
    hand: Option<Item>,
    ends: H,
) -> HighParts<D, H>
    requires ready { IsHighReady D.told store }
    requires count { high_count store ≡ removed }
    requires hand { IsHighHand removed hand }
    requires ends { (l : Low) → H.stands ends l new_high }
    ensures ready { HighReady D.told result.process result.store (H.stands result.ends) }
    ensures last { high_last result.process ≡ 0 }
    ensures begins { HighBegins H.stands row.now removed hand store ends result }
{
    let process = HighProcess::open(row, removed, hand);
    HighParts {
        process,
        store,
        ends,
    }
}

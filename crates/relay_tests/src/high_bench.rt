// A high process with its store and its end of a passage, as the tests of its worker set it up.
ghost use Rattle.std.specs.Prelude.{◌≡◌, ◌^◌, ◌≤◌, [], IfSome, IfOk};
ghost use Rattle.pump_frame.specs.Rows.{IsLawfulRow};
ghost use Rattle.stable_buffer.specs.High.{IsHighReady, high_count};
ghost use Rattle.passage.specs.Plain.{StandsFor as EndsStandFor};
ghost use Rattle.high_process.specs.Ready.{Ready};
ghost use Rattle.high_process.specs.States.{last_of};

use crate::pieces::item;
use disk_model::{Disk, Role};
use fixtures::row;
use high_process::HighProcess;
use passage::{Calm, Forwarded, LowEnd, PlainEnds};
use pump_frame::SessionRow;
use stable_buffer::{HighStore, Register, format};
use std::alloc::Global;
use std::test::Fail;

#[derive(Drop)]
pub struct HighBench<D> {
    pub process: HighProcess,
    pub store: HighStore<D>,
    pub ends: Calm<PlainEnds>,
}

// A new store with this count.
fn new_store<D: Disk + Drop>(mut disk: D, row: &SessionRow, count: u64) -> Option<HighStore<D>>
    requires empty { D.told.tells → D.told.reading disk ≡ [] }
    requires lawful { IsLawfulRow row.now }
    requires count { count ≤ 2 ^ 48 }
    ensures ready { IfSome result (λ store. IsHighReady D.told store) }
    ensures count { IfSome result (λ store. high_count store ≡ count) }
{
    if format(&mut disk, row, Role::High, count).is_err() {
        return None;
    }
    let Ok(register) = Register::open(disk) else {
        return None;
    };
    if register.value() != (count, 0) {
        return None;
    }
    Some(HighStore::over(register))
}

/// A process that found this count on a new disk, with the next message in its hand, and one more in its
/// passage.
pub fn high_bench<D: Disk + Drop>(alloc: Global, disk: D, count: u64) -> Result<HighBench<D>, Fail>
    requires empty { D.told.tells → D.told.reading disk ≡ [] }
    ensures ready { IfOk result (λ b. Ready D.told b.process b.store (EndsStandFor b.ends.0)) }
    ensures last { IfOk result (λ b. last_of b.process ≡ 0) }
{
    if count > 1000 {
        return Err(Fail::new("no count"));
    }
    let (Some(row), Some(next)) = (row(8), item(count + 1)) else {
        return Err(Fail::new("no row"));
    };
    let mut ends = PlainEnds::new(alloc, &row)?;
    let Some(store) = new_store(disk, &row, count) else {
        return Err(Fail::new("no store"));
    };
    match ends.forward(next) {
        Forwarded::Passed => Ok(HighBench {
            process: HighProcess::open(&row, count, item(count)),
            store,
            ends: Calm(ends),
        }),
        Forwarded::Full(_) => Err(Fail::new("no room")),
    }
}

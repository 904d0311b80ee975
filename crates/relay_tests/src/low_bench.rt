// A low process with its store and its end of a passage, as the tests of its worker set it up.
ghost use Rattle.std.specs.Prelude.{◌≡◌, ◌^◌, ◌≤◌, [], false, IfSome, IfOk};
ghost use Rattle.pump_frame.specs.Rows.{IsLawfulRow};
ghost use Rattle.stable_buffer.specs.Low.{IsLowReady, low_count, low_row};
ghost use Rattle.passage.specs.Plain.{StandsFor as EndsStandFor};
ghost use Rattle.low_process.specs.Ready.{Ready};
ghost use Rattle.low_process.specs.Looks.{last_of, is_down};

use disk_model::{Disk, Role};
use fixtures::row;
use low_process::LowProcess;
use passage::{Calm, PlainEnds};
use pump_frame::SessionRow;
use stable_buffer::{LowStore, Register, format};
use std::alloc::Global;
use std::test::Fail;

#[derive(Drop)]
pub struct LowBench<D> {
    pub process: LowProcess,
    pub store: LowStore<D>,
    pub ends: Calm<PlainEnds>,
}

// A new store.
fn new_store<D: Disk + Drop>(mut disk: D, row: &SessionRow) -> Option<LowStore<D>>
    requires empty { D.told.tells → D.told.reading disk ≡ [] }
    requires lawful { IsLawfulRow row.now }
    ensures ready { IfSome result (λ store. IsLowReady D.told store) }
    ensures count { IfSome result (λ store. low_count store ≡ 0) }
    ensures row { IfSome result (λ store. low_row store ≡ row.now) }
{
    if format(&mut disk, row, Role::Low, 0).is_err() {
        return None;
    }
    let Ok(register) = Register::open(disk) else {
        return None;
    };
    if register.value() != (0, 0) {
        return None;
    }
    Some(LowStore::over(register, row))
}

/// A process on a new disk.
pub fn low_bench<D: Disk + Drop>(alloc: Global, disk: D) -> Result<LowBench<D>, Fail>
    requires empty { D.told.tells → D.told.reading disk ≡ [] }
    ensures ready { IfOk result (λ b. Ready D.told b.process b.store (EndsStandFor b.ends.0)) }
    ensures up { IfOk result (λ b. is_down b.process ≡ false) }
    ensures last { IfOk result (λ b. last_of b.process ≡ 0) }
{
    let Some(row) = row(8) else {
        return Err(Fail::new("no row"));
    };
    let ends = Calm(PlainEnds::new(alloc, &row)?);
    let Some(store) = new_store(disk, &row) else {
        return Err(Fail::new("no store"));
    };
    Ok(LowBench {
        process: LowProcess::open(&row, 0, None),
        store,
        ends,
    })
}

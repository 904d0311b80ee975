// Low's disk and high's, each alone.
ghost use Rattle.std.specs.Prelude.{◌≡◌, false, None, [], length, take, IfOk, OnOk, IfErr};
ghost use Rattle.pump_frame.specs.Rows.{IsLawfulRow};
ghost use Rattle.disk_model.specs.Disk.{Moves, Same, Settled};
ghost use Rattle.disk_model.specs.declared.name.Role.TheVariants.{Low, High};
ghost use Rattle.stable_buffer.specs.Format.{role_byte};
ghost use Rattle.stable_buffer.specs.Stands.{HasHeader, LowStands, HighStands};
ghost use Rattle.stable_buffer.specs.Register.{IsReady, register_value, register_disk, value_of};
ghost use Rattle.stable_buffer.specs.Low.{IsLowReady, low_disk, low_row, low_count};
ghost use Rattle.stable_buffer.specs.High.{IsHighReady, high_disk, high_count};
ghost use Rattle.recovery.specs.Refusals.{refused_shape, refused_disk};
ghost use Rattle.recovery.specs.Calls.{Calls, GivesBack};

use crate::Why;
use crate::shape::check_shape;
use disk_model::{Disk, Role};
use pump_frame::SessionRow;
use stable_buffer::{HighStore, LowStore, Register};

/// No count is above this one.
pub const GREATEST_COUNT: u64 = 1 << 48;

/// Checks the shape, finds what the register holds, and gives the size beside it.
pub fn open_register<D: Disk>(
    mut disk: D,
    row: &SessionRow,
    role: Role,
) -> Result<(Register<D>, u64), (D, Why)>
    requires lawful { IsLawfulRow row.now }
    ensures ready { IfOk result (λ r. IsReady D.told r.0) }
    ensures settled { IfOk result (λ r. Settled D.told (register_disk r.0)) }
    ensures value { IfOk result (λ r. D.told.tells
        → register_value r.0 ≡ value_of (D.told.reading disk)) }
    ensures size { IfOk result (λ r. D.told.tells → r.1 ≡ length (D.told.reading disk)) }
    ensures fine { OnOk result (D.told.tells
        → refused_shape row.now role (D.told.reading disk) ≡ None) }
    ensures header { OnOk result (D.told.tells
        → HasHeader row.now (role_byte role) (take 32 (D.told.reading disk))) }
    ensures back { IfErr result (λ e. GivesBack D.told (refused_shape row.now role (D.told.reading disk)) disk e) }
    ensures calls { IfOk result (λ r. Calls D.told disk (register_disk r.0) false) }
    ensures same { IfOk result (λ r. Moves D.told Same disk (register_disk r.0)) }
{
    match check_shape(&mut disk, row, role) {
        Err(why) => Err((disk, why)),
        Ok(size) => match Register::open(disk) {
            Ok(register) => Ok((register, size)),
            Err((disk, _)) => {
                let faults = disk.faults();
                Err((disk, Why::Device { faults }))
            }
        },
    }
}

/// The store of low's disk.
pub fn open_low<D: Disk>(disk: D, row: &SessionRow) -> Result<LowStore<D>, (D, Why)>
    requires lawful { IsLawfulRow row.now }
    ensures ready { IfOk result (λ s. IsLowReady D.told s) }
    ensures row { IfOk result (λ s. low_row s ≡ row.now) }
    ensures stands { IfOk result (λ s. D.told.tells
        → LowStands row.now (low_count s) (low_count s) [] (D.told.reading disk)) }
    ensures fine { OnOk result (D.told.tells
        → refused_disk row.now Low (D.told.reading disk) ≡ None) }
    ensures back { IfErr result (λ e. GivesBack D.told (refused_disk row.now Low (D.told.reading disk)) disk e) }
    ensures calls { IfOk result (λ s. Calls D.told disk (low_disk s) false) }
    ensures same { IfOk result (λ s. Moves D.told Same disk (low_disk s)) }
{
    match open_register(disk, row, Role::Low) {
        Err(refused) => Err(refused),
        Ok((register, _)) => {
            let (first, second) = register.value();
            if first > GREATEST_COUNT || second != 0 {
                let disk = register.into_disk();
                return Err((disk, Why::BadRegister { first, second }));
            }
            Ok(LowStore::over(register, row))
        }
    }
}

/// The store of high's disk.
pub fn open_high<D: Disk>(disk: D, row: &SessionRow) -> Result<HighStore<D>, (D, Why)>
    requires lawful { IsLawfulRow row.now }
    ensures ready { IfOk result (λ s. IsHighReady D.told s) }
    ensures stands { IfOk result (λ s. D.told.tells
        → HighStands row.now (high_count s) (D.told.reading disk)) }
    ensures fine { OnOk result (D.told.tells
        → refused_disk row.now High (D.told.reading disk) ≡ None) }
    ensures back { IfErr result (λ e. GivesBack D.told (refused_disk row.now High (D.told.reading disk)) disk e) }
    ensures calls { IfOk result (λ s. Calls D.told disk (high_disk s) false) }
    ensures same { IfOk result (λ s. Moves D.told Same disk (high_disk s)) }
{
    match open_register(disk, row, Role::High) {
        Err(refused) => Err(refused),
        Ok((register, _)) => {
            let (first, second) = register.value();
            if first > GREATEST_COUNT || second != 0 {
                let disk = register.into_disk();
                return Err((disk, Why::BadRegister { first, second }));
            }
            Ok(HighStore::over(register))
        }
    }
}

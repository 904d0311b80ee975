// A receiver's disk.
ghost use Rattle.std.specs.Prelude.{◌≡◌, true, false, Some, None, length, IfOk, OnOk, IfErr};
ghost use Rattle.pump_frame.specs.Rows.{IsLawfulRow};
ghost use Rattle.disk_model.specs.Disk.{Moves, Same};
ghost use Rattle.high_receiver.specs.Receiving.{IsRecvReady, StandsForSome, recv_disk, recv_count, recv_end, recv_row};
ghost use Rattle.high_receiver.specs.Receiving.{recv_size};
ghost use Rattle.stable_buffer.specs.Register.{value_of};
ghost use Rattle.recovery.specs.Refusals.{refused_receiver};
ghost use Rattle.recovery.specs.Calls.{Calls, is_device};
ghost use Rattle.recovery.specs.declared.why.Why.TheVariants.{Device};

use crate::Why;
use crate::kept::{GREATEST_COUNT, open_register};
use crate::records::fill_log;
use disk_model::{Disk, Role};
use high_receiver::Receiver;
use pump_frame::SessionRow;

/// Opens a receiver over its disk, which may be filled to `size` bytes.
pub fn open_receiver<D: Disk>(disk: D, row: &SessionRow, size: u64) -> Result<Receiver<D>, (D, Why)>
    requires lawful { IsLawfulRow row.now }

    ensures ready { IfOk result (λ r. IsRecvReady D.told r) }
    ensures row { IfOk result (λ r. recv_row r ≡ row.now) }
    ensures size { IfOk result (λ r. recv_size r ≡ size) }
    ensures value { IfOk result (λ r. D.told.tells
        → (recv_count r, recv_end r) ≡ value_of (D.told.reading disk)) }
    ensures stands { IfOk result (λ r. D.told.tells
        → StandsForSome row.now (D.told.reading disk)) }

    // The first refusal in the order, and nothing else but a device.
    ensures fine { OnOk result (D.told.tells
        → refused_receiver row.now size (D.told.reading disk) ≡ None) }
    ensures exact { IfErr result (λ e. is_device e.1 ≡ false → D.told.tells
        → refused_receiver row.now size (D.told.reading disk) ≡ Some e.1) }
    ensures device { IfErr result (λ e. is_device e.1 ≡ true → e.1 ≡ Device (D.told.count e.0)) }
    ensures calls { IfOk result (λ r. Calls D.told disk (recv_disk r) false) }
    ensures calls_err { IfErr result (λ e. Calls D.told disk e.0 (is_device e.1)) }

    ensures same { IfOk result (λ r. Moves D.told Same disk (recv_disk r)) }
    ensures same_err { IfErr result (λ e. Moves D.told Same disk e.0) }
{
    match open_register(disk, row, Role::Recv) {
        Err(refused) => Err(refused),
        Ok((mut register, length)) => {
            let (first, second) = register.value();
            if first > GREATEST_COUNT || second < 80 || second > length || second > size {
                let disk = register.into_disk();
                return Err((disk, Why::BadRegister { first, second }));
            }
            match fill_log(&mut register, row.message, first, second) {
                Err(device) => {
                    let faults = device.faults;
                    Err((register.into_disk(), Why::Device { faults }))
                }
                Ok(false) => Err((register.into_disk(), Why::BadRegister { first, second })),
                Ok(true) => Ok(Receiver::over(register, row, size)),
            }
        }
    }
}

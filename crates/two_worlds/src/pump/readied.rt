//! The disks of a pump before they are opened.

ghost use Rattle.std.specs.Prelude.{◌≡◌, ◌≤◌, false, is_err, IfOk, IfErr};
ghost use Rattle.disk_model.specs.Disk.{Answers};
ghost use Rattle.disk_model.specs.declared.name.Role.TheVariants as roles;
ghost use Rattle.pump_frame.specs.Rows.{IsLawfulRow};
ghost use Rattle.stable_buffer.specs.Format.{size_of};
ghost use Rattle.two_worlds.specs.Private.Readied.{readied_disk};
ghost use Rattle.two_worlds.specs.Openings.{readied, IsLeft, LeavesDisk, ComeBack};

use crate::not_open::NotOpen;
use disk_model::{Disk, DiskFault, Role};
use pump_frame::SessionRow;
use recovery::Why;
use stable_buffer::{Device, format};

/// The three disks of a session.
#[derive(Drop)]
pub struct Disks<D> {
    pub low: D,
    pub high: D,
    pub recv: D,
}

// A disk of size 0 is formatted.
fn ready_disk<D: Disk>(mut disk: D, row: &SessionRow, role: Role) -> Result<D, (D, Device)>
    requires lawful { IsLawfulRow row.now }
    ensures reading { IfOk result (λ d. D.told.tells
        → D.told.reading d ≡ readied row.now role (D.told.reading disk)) }
    ensures left { IsLeft D.told row.now role disk (readied_disk result) (is_err result) }
    ensures answers { Answers D.told (size_of row.now role ≤ D.told.room disk)
        disk (readied_disk result) result }
    ensures device { IfErr result (λ e. e.1.faults ≡ D.told.count e.0) }
{
    match disk.size() {
        Ok(0) => {}
        Ok(_) => return Ok(disk),
        Err(DiskFault) => {
            let faults = disk.faults();
            return Err((disk, Device { faults }));
        }
    }
    match format(&mut disk, row, role, 0) {
        Ok(()) => Ok(disk),
        Err(device) => Err((disk, device)),
    }
}

/// Each of the three disks that is empty is formatted, low's first, then high's and the receiver's; the
/// first call that fails ends it.
pub fn ready_all<D: Disk>(
    row: &SessionRow,
    low: D,
    high: D,
    recv: D,
) -> Result<Disks<D>, NotOpen<D>>
    requires lawful { IsLawfulRow row.now }
    ensures reads { IfOk result (λ disks. D.told.tells
        → (D.told.reading disks.low ≡ readied row.now roles.Low (D.told.reading low))
        × (D.told.reading disks.high ≡ readied row.now roles.High (D.told.reading high))
        × (D.told.reading disks.recv ≡ readied row.now roles.Recv (D.told.reading recv))) }
    ensures low { IfOk result (λ disks. LeavesDisk D.told row.now roles.Low low disks.low false) }
    ensures high { IfOk result (λ disks. LeavesDisk D.told row.now roles.High high disks.high false) }
    ensures recv { IfOk result (λ disks. LeavesDisk D.told row.now roles.Recv recv disks.recv false) }
    ensures back { IfErr result (λ e. ComeBack D.told row.now low high recv e) }
{
    let low = match ready_disk(low, row, Role::Low) {
        Ok(low) => low,
        Err((low, device)) => {
            let why = Some(Why::Device {
                faults: device.faults,
            });
            return Err(NotOpen {
                role: Role::Low,
                why,
                low,
                high,
                recv,
            });
        }
    };
    let high = match ready_disk(high, row, Role::High) {
        Ok(high) => high,
        Err((high, device)) => {
            let why = Some(Why::Device {
                faults: device.faults,
            });
            return Err(NotOpen {
                role: Role::High,
                why,
                low,
                high,
                recv,
            });
        }
    };
    match ready_disk(recv, row, Role::Recv) {
        Ok(recv) => Ok(Disks { low, high, recv }),
        Err((recv, device)) => {
            let why = Some(Why::Device {
                faults: device.faults,
            });
            Err(NotOpen {
                role: Role::Recv,
                why,
                low,
                high,
                recv,
            })
        }
    }
}

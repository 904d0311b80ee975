// How the part of a file grows.
ghost use Rattle.std.specs.Prelude.{◌≡◌, ◌++◌, ◌≤◌, length, OnOk, IfErr, IsErr};
ghost use Rattle.pump_frame.specs.Counts.{Rose};
ghost use Rattle.disk_model.specs.Disk.{Moves, Torn, IsWritten, Settled};
ghost use Rattle.file_collector.specs.Parts.{IsDevice};

use disk_model::{Disk, DiskFault};
use stable_buffer::Device;

// Writes bytes at the end of the part, and syncs.
pub fn grow<D: Disk>(part: &mut D, at: u64, bytes: &[u8]) -> Result<(), Device>
    requires { D.told.tells → length (D.told.reading part.old) ≡ at }
    ensures grown { OnOk result (D.told.tells
        → D.told.reading part.new ≡ D.told.reading part.old ++ bytes.now) }
    ensures settled { OnOk result (Settled D.told part.new) }
    // A crash at any moment leaves the bytes that were there.
    ensures moves { Moves D.told (Torn at (length bytes.now)) part.old part.new }
    ensures later { D.told.count part.old ≤ D.told.count part.new }
    ensures cause { IfErr result (λ device. IsDevice D.told part.old part.new device.faults) }
{
    if let Err(DiskFault) = write_and_sync(part, at, bytes) {
        return Err(Device {
            faults: part.faults(),
        });
    }
    Ok(())
}

fn write_and_sync<D: Disk>(part: &mut D, at: u64, bytes: &[u8]) -> Result<(), DiskFault>
    requires { D.told.tells → length (D.told.reading part.old) ≡ at }
    ensures written { OnOk result (D.told.tells
        → IsWritten (D.told.reading part.old) at bytes.now (D.told.reading part.new)) }
    ensures settled { OnOk result (Settled D.told part.new) }
    ensures moves { Moves D.told (Torn at (length bytes.now)) part.old part.new }
    ensures later { D.told.count part.old ≤ D.told.count part.new }
    ensures rose { IsErr result → Rose (D.told.count part.old) (D.told.count part.new) }
{
    part.write_at(at, bytes)?;
    part.sync()
}

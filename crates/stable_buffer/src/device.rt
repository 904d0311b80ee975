// A call of a disk that failed.
ghost use Rattle.std.specs.Prelude.{◌≡◌, ◌≤◌, ◌+◌, length, IfErr, OnOk, ⊤};
ghost use Rattle.disk_model.specs.Disk.{Moves, Same, Torn, IsWritten, Settled, Answers};

use disk_model::Disk;

/// A call of the disk failed: its count after that call.
#[derive(Clone, Copy, Debug, PartialEq, Eq)]
pub struct Device {
    pub faults: u64,
}

pub(crate) fn write<D: Disk>(disk: &mut D, at: u64, bytes: &[u8]) -> Result<(), Device>
    requires { D.told.tells → at ≤ length (D.told.reading disk.old) }
    ensures written { OnOk result (D.told.tells
        → IsWritten (D.told.reading disk.old) at bytes.now (D.told.reading disk.new)) }
    ensures moves { Moves D.told (Torn at (length bytes.now)) disk.old disk.new }
    ensures answers { Answers D.told (at + length bytes.now ≤ D.told.room disk.old)
        disk.old disk.new result }
    ensures device { IfErr result (λ e. e.faults ≡ D.told.count disk.new) }
{
    if disk.write_at(at, bytes).is_err() {
        return Err(Device {
            faults: disk.faults(),
        });
    }
    Ok(())
}

pub(crate) fn sync<D: Disk>(disk: &mut D) -> Result<(), Device>
    ensures settled { OnOk result (Settled D.told disk.new) }
    ensures moves { Moves D.told Same disk.old disk.new }
    ensures answers { Answers D.told ⊤ disk.old disk.new result }
    ensures device { IfErr result (λ e. e.faults ≡ D.told.count disk.new) }
{
    if disk.sync().is_err() {
        return Err(Device {
            faults: disk.faults(),
        });
    }
    Ok(())
}

pub(crate) fn write_and_sync<D: Disk>(disk: &mut D, at: u64, bytes: &[u8]) -> Result<(), Device>
    requires { D.told.tells → at ≤ length (D.told.reading disk.old) }
    ensures written { OnOk result (D.told.tells
        → IsWritten (D.told.reading disk.old) at bytes.now (D.told.reading disk.new)) }
    ensures settled { OnOk result (Settled D.told disk.new) }
    ensures moves { Moves D.told (Torn at (length bytes.now)) disk.old disk.new }
    ensures answers { Answers D.told (at + length bytes.now ≤ D.told.room disk.old)
        disk.old disk.new result }
    ensures device { IfErr result (λ e. e.faults ≡ D.told.count disk.new) }
{
    write(disk, at, bytes)?;
    sync(disk)?;
    Ok(())
}

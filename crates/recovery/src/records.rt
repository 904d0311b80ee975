// The records of a receiver's disk.
ghost use Rattle.std.specs.Prelude.{◌≡◌, ◌≤◌, false, length, is_err, IfOk, OnOk, IfErr};
ghost use Rattle.disk_model.specs.Disk.{Moves, Same};
ghost use Rattle.recovery.specs.Calls.{Calls};
ghost use Rattle.stable_buffer.specs.Log.{is_log, log_of};
ghost use Rattle.stable_buffer.specs.Register.{IsReady, register_disk, register_value};

use disk_model::Disk;
use stable_buffer::{Device, Register};

/// Whether so many records, of messages of at most `most` bytes, fill the bytes from 80 to an end.
pub fn fill_log<D: Disk>(
    register: &mut Register<D>,
    most: u32,
    count: u64,
    end: u64,
) -> Result<bool, Device>
    requires ready { IsReady D.told register.old }
    requires from { 80 ≤ end }
    requires within { D.told.tells → end ≤ length (D.told.reading (register_disk register.old)) }
    requires calm { D.told.tells_plan → D.told.armed (register_disk register.old) ≡ false }
    ensures answer { IfOk result (λ fills. D.told.tells
        → fills ≡ is_log most count (log_of end (D.told.reading (register_disk register.old)))) }
    ensures ready { OnOk result (IsReady D.told register.new) }
    ensures value { register_value register.new ≡ register_value register.old }
    ensures moves { Moves D.told Same (register_disk register.old) (register_disk register.new) }
    ensures calls { Calls D.told (register_disk register.old) (register_disk register.new) (is_err result) }
    ensures device { IfErr result (λ e. e.faults ≡ D.told.count (register_disk register.new)) }
{
    let mut at = 80;
    for _ in 0..count {
        if end - at < 2 {
            return Ok(false);
        }
        let length = register.read_length(at)?;
        if length > most || end - at - 2 < length as u64 {
            return Ok(false);
        }
        at += 2 + length as u64;
    }
    Ok(at == end)
}

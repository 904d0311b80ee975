// Turning the register to one message more.
ghost use Rattle.std.specs.Prelude.{◌≡◌, ◌+◌, ◌^◌, ◌<◌, ◌≤◌, false, length, OnOk, OnErr, IfErr, IfSome, IsErr};
ghost use Rattle.pump_frame.specs.Counts.{Rose};
ghost use Rattle.disk_model.specs.Disk.{Moves, Torn, IsWritten, Settled};
ghost use Rattle.stable_buffer.specs.Register.{IsReady, register_disk, register_value};
ghost use Rattle.stable_buffer.specs.Stands.{spelled};
ghost use Rattle.file_messages.specs.Files.{State};
ghost use Rattle.file_messages.specs.Assemblies.{progress_of};
ghost use Rattle.file_messages.specs.Messages.{start_message};
ghost use Rattle.file_collector.specs.Collecting.{HasRegister};
ghost use Rattle.file_collector.specs.Registers.{StandsOn, MayTurn, Turns, HasStart, register_size, held};
ghost use Rattle.file_collector.specs.Held.{IsWithin, held_by};

use disk_model::Disk;
use file_messages::{Progress, put_start};
use pump_frame::Payload;
use stable_buffer::{Device, Register};

// The second number of the register, where a file is so far.
fn held(progress: &Option<Progress>) -> u64
    requires { IsWithin progress.now }
    ensures { result ≡ held_by progress.now }
{
    match progress {
        Some(progress) => 1 + progress.bytes,
        None => 0,
    }
}

// Writes the start of a file behind the register.
fn write_start<D: Disk>(register: &mut Register<D>, progress: &Progress) -> Result<(), Device>
    requires ready { IsReady D.told register.old }
    requires small { progress.now.size < 2 ^ 48 }
    requires size { D.told.tells → length (D.told.reading (register_disk register.old)) ≡ register_size }
    ensures ready { OnOk result (IsReady D.told register.new) }
    ensures value { register_value register.new ≡ register_value register.old }
    ensures written { OnOk result (D.told.tells → IsWritten (D.told.reading (register_disk register.old))
        80 (spelled (start_message progress.now.name progress.now.size))
        (D.told.reading (register_disk register.new))) }
    ensures short { length (start_message progress.now.name progress.now.size) ≤ 138 }
    ensures moves { Moves D.told (Torn 80 (2 + length (start_message progress.now.name progress.now.size)))
        (register_disk register.old) (register_disk register.new) }
    ensures counts { D.told.count (register_disk register.old)
        ≤ D.told.count (register_disk register.new) }
    ensures rose { IsErr result → Rose (D.told.count (register_disk register.old))
        (D.told.count (register_disk register.new)) }
    ensures device { IfErr result (λ e. e.faults ≡ D.told.count (register_disk register.new)) }
{
    let mut start = Payload::default();
    put_start(&progress.name, progress.size, &mut start);
    register.write_message(80, &start)
}

// Writes the start of a file that has just begun. The register tells that: it holds no bytes yet.
fn prepare<D: Disk>(register: &mut Register<D>, progress: &Option<Progress>) -> Result<(), Device>
    requires ready { IsReady D.told register.old }
    requires within { IsWithin progress.now }
    requires size { D.told.tells → length (D.told.reading (register_disk register.old)) ≡ register_size }
    ensures ready { OnOk result (IsReady D.told register.new) }
    ensures value { register_value register.new ≡ register_value register.old }
    ensures started { OnOk result ((next : State) → progress.now ≡ progress_of next
        → (register_value register.old).1 ≡ 0 → D.told.tells
        → HasStart next (D.told.reading (register_disk register.new))) }
    ensures moves { Moves D.told StandsOn (register_disk register.old) (register_disk register.new) }
    ensures size { D.told.tells → length (D.told.reading (register_disk register.new)) ≡ register_size }
    ensures counts { D.told.count (register_disk register.old)
        ≤ D.told.count (register_disk register.new) }
    ensures rose { IsErr result → Rose (D.told.count (register_disk register.old))
        (D.told.count (register_disk register.new)) }
    ensures device { IfErr result (λ e. e.faults ≡ D.told.count (register_disk register.new)) }
{
    match progress {
        Some(progress) if register.value().1 == 0 => write_start(register, progress),
        _ => Ok(()),
    }
}

/// Turns the register to one message more, which led to a file so far, or to between two files.
pub fn turn<D: Disk>(register: &mut Register<D>, progress: &Option<Progress>) -> Result<(), Device>
    requires register { HasRegister D.told register.old }
    requires within { IsWithin progress.now }
    requires below { (register_value register.old).0 < 2 ^ 48 }

    ensures ready { OnOk result (IsReady D.told register.new) }
    ensures settled { OnOk result (Settled D.told (register_disk register.new)) }
    ensures value { OnOk result (register_value register.new
        ≡ ((register_value register.old).0 + 1, held_by progress.now)) }
    ensures turned { OnOk result ((next : State) → progress.now ≡ progress_of next → D.told.tells
        → Turns next (D.told.reading (register_disk register.old))
        (D.told.reading (register_disk register.new))) }

    ensures size { D.told.tells → length (D.told.reading (register_disk register.new)) ≡ register_size }

    // A crash at any moment leaves the count from before, or one more.
    ensures moves { (next : State) → progress.now ≡ progress_of next
        → Moves D.told (MayTurn next) (register_disk register.old) (register_disk register.new) }
    ensures counts { D.told.count (register_disk register.old)
        ≤ D.told.count (register_disk register.new) }
    ensures rose { IsErr result → Rose (D.told.count (register_disk register.old))
        (D.told.count (register_disk register.new)) }
    ensures device { IfErr result (λ e. e.faults ≡ D.told.count (register_disk register.new)) }
{
    let count = register.value().0;
    prepare(register, progress)?;
    register.stage(count + 1, held(progress))?;
    register.commit()?;
    Ok(())
}

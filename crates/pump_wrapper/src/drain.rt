//! A pump is emptied: what is left in it goes to the receiver.

ghost use Rattle.std.specs.Prelude.{◌≡◌, ◌≤◌, ℕ, List, false, IfErr, OnOk};
ghost use Rattle.disk_model.specs.declared.name.Role.{Role};
ghost use Rattle.disk_model.specs.declared.name.Role.TheVariants as roles;
ghost use Rattle.script_reader.specs.Openings.{Found, CanOpen, accepted_in, first_past};
ghost use Rattle.two_worlds.specs.Pumps.{StandsFor, disk_at, is_down, row_of};
ghost use Rattle.pump_frame.specs.Rows.{IsLawfulRow};
ghost use Rattle.pump_wrapper.specs.Comparing.{Begins};
ghost use Rattle.pump_wrapper.specs.Crashes.{KeepsPrefix};
ghost use Rattle.pump_wrapper.specs.Sending.{RoseBy};
ghost use Rattle.pump_wrapper.specs.Wraps.{Drains};

use crate::lines::turn;
use disk_model::Disk;
use two_worlds::{Pump, Stop};

/// Every message that is live goes to the receiver. The pump was opened, and given no line.
pub fn drain<D: Disk>(pump: &mut Pump<D>) -> Result<(), Stop>
    requires up { is_down pump.old ≡ false }
    ensures drains { D.told.tells → (f : Found) → IsLawfulRow (row_of pump.old) → CanOpen (row_of pump.old) f
        → StandsFor D.told pump.old (first_past (row_of pump.old) f)
        → Drains D.told pump.new (row_of pump.old) f result }
    ensures keeps { D.told.tells → (f : Found) → IsLawfulRow (row_of pump.old) → CanOpen (row_of pump.old) f
        → StandsFor D.told pump.old (first_past (row_of pump.old) f)
        → (all : List (List ℕ)) → Begins (accepted_in f) all
        → KeepsPrefix D.told (row_of pump.old) all (disk_at roles.Recv pump.old) (disk_at roles.Recv pump.new) }
    ensures counts { (role : Role) → D.told.count (disk_at role pump.old) ≤ D.told.count (disk_at role pump.new) }
    ensures rose { IfErr result (RoseBy D.told pump.old pump.new) }
    ensures row { row_of pump.new ≡ row_of pump.old }
    ensures up { OnOk result (is_down pump.new ≡ false) }
{
    let capacity = u64::from(pump.row().capacity);
    for number in 0..capacity {
        let (accepted, removed, _) = pump.counts();
        if accepted == removed {
            return Ok(());
        }
        match turn(pump, 2 * number) {
            Ok(()) => {}
            Err(stop) => return Err(stop),
        }
    }
    Ok(())
}

//! The low side of a session, where a whole pump and a low side alone do the same.

ghost use Rattle.std.specs.Prelude.{◌≡◌, ◌≤◌, ◌++◌, length};
ghost use Rattle.low_process.specs.Heads.{look_with};
ghost use Rattle.two_worlds.specs.Private.LowLooks.{stop_of};
ghost use Rattle.two_worlds.specs.Printing.{lines_in, look_prints};

use crate::applied::Stop;
use crate::printing::print_look;
use arrayvec::ArrayVec;
use disk_model::{Disk, Role};
use low_process::{LookHead, LowProcess};
use pump_frame::SessionRow;
use script_reader::EventHead;
use stable_buffer::LowStore;

/// The end of a low look: its lines are printed, and where the store failed the line stops.
pub fn end_look<D: Disk>(
    row: &SessionRow,
    process: &LowProcess,
    store: &LowStore<D>,
    moment: u64,
    head: &LookHead,
    out: &mut ArrayVec<EventHead, 4>,
) -> Result<(), Stop>
    requires out { length out.old.items ≤ 1 }
    ensures prints { lines_in out.new.items ≡ lines_in out.old.items ++ look_prints row.now.id moment
        (look_with row.now head.now) }
    ensures stop { result ≡ stop_of D.told process.now store.now }
{
    print_look(row, moment, head, out);
    if process.is_down() {
        return Err(Stop::Device {
            role: Role::Low,
            faults: store.faults(),
        });
    }
    Ok(())
}

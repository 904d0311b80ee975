// A look over an end whose calls may wait: `look` with the handle.
ghost use Rattle.std.specs.Prelude.{◌≡◌, ◌^◌, ◌≤◌, false};
ghost use Rattle.stable_buffer.specs.High.{IsHighReady, high_count};
ghost use Rattle.pump_core.specs.Passage.{Low, High};
ghost use Rattle.high_process.specs.Tasks.{frame_of};
ghost use Rattle.high_process.specs.States.{removed_of, last_of, is_down, IsBetweenLooks};
ghost use Rattle.high_process.specs.Ends.{StandsFitting};
ghost use Rattle.high_process.specs.Whole.{WholeLook};

use crate::HighProcess;
use crate::how::Waits;
use crate::values::{HighFault, HighLook};
use disk_model::Disk;
use passage::WaitHighEnd;
use pump_frame::Frame;
use stable_buffer::HighStore;
use std::sync::Wait;

impl HighProcess {
    /// As `look`, over an end whose calls may wait for the other thread.
    pub fn look_waiting<D: Disk, H: WaitHighEnd, R: Wait>(
        &mut self,
        rt: &R,
        moment: u64,
        frame: Option<&Frame>,
        store: &mut HighStore<D>,
        ends: &mut H,
    ) -> Result<HighLook, HighFault>
        requires between { IsBetweenLooks self.old }
        requires up { is_down self.old ≡ false }
        requires order { last_of self.old ≤ moment }
        requires moment { moment ≤ 2 ^ 62 }
        requires store { IsHighReady D.told store.old }
        requires count { high_count store.old ≡ removed_of self.old }
        requires ends { (l : Low) × (h : High) × StandsFitting (H.stands ends.old) self.old l h }

        ensures { WholeLook D.told H.shape H.place H.on_one_thread H.stands
            self.old self.new store.old store.new ends.old ends.new
            moment (frame_of frame.entry) result }
    {
        self.look_by(&Waits { rt }, moment, frame, store, ends)
    }
}

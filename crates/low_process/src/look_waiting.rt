// A look over an end whose calls may wait: `look` with the handle.
ghost use Rattle.std.specs.Prelude.{◌^◌, ◌<◌, ◌≤◌, IfSome};
ghost use Rattle.pump_frame.specs.Frames.{IsLawful as IsLawfulFrame};
ghost use Rattle.pump_core.specs.ReplyFrames.{IsLawfulReply};
ghost use Rattle.pump_core.specs.Passage.{Low, High};
ghost use Rattle.low_process.specs.Looks.{IsBetweenLooks, IsLawful, arrival_of, row_of, last_of};
ghost use Rattle.low_process.specs.Heads.{look_with};
ghost use Rattle.low_process.specs.Ends.{StandsFitting};
ghost use Rattle.low_process.specs.Whole.{HasStore, WholeLook};

use crate::LowProcess;
use crate::how::Waits;
use crate::values::{Arrival, LookHead, LowLook};
use disk_model::Disk;
use passage::WaitLowEnd;
use stable_buffer::LowStore;
use std::sync::Wait;

impl LowProcess {
    /// As `look_waiting`, into the look's head.
    pub fn look_waiting_into<D: Disk, L: WaitLowEnd, R: Wait>(
        &mut self,
        rt: &R,
        moment: u64,
        word: u32,
        arrival: Arrival,
        store: &mut LowStore<D>,
        ends: &mut L,
        head: &mut LookHead,
    )
        requires between { IsBetweenLooks self.old }
        requires order { last_of self.old ≤ moment }
        requires moment { moment ≤ 2 ^ 62 }
        requires lawful { IsLawful (arrival_of arrival) }
        requires store { HasStore D.told self.old store.old }
        requires ends { (l : Low) × (h : High) × StandsFitting (L.stands ends.old) self.old l h }

        ensures { WholeLook D.told L.shape L.place L.on_one_thread L.stands
            self.old self.new store.old store.new ends.old ends.new
            moment word (arrival_of arrival.entry) (look_with (row_of self.old) head.new)
            (IfSome head.new.reply IsLawfulReply) }
    {
        self.look_by(&Waits { rt }, moment, word, arrival, store, ends, head);
    }

    /// As `look`, over an end whose calls may wait for the other thread.
    pub fn look_waiting<D: Disk, L: WaitLowEnd, R: Wait>(
        &mut self,
        rt: &R,
        moment: u64,
        word: u32,
        arrival: Arrival,
        store: &mut LowStore<D>,
        ends: &mut L,
    ) -> LowLook
        requires between { IsBetweenLooks self.old }
        requires order { last_of self.old ≤ moment }
        requires moment { moment ≤ 2 ^ 62 }
        requires lawful { IsLawful (arrival_of arrival) }
        requires store { HasStore D.told self.old store.old }
        requires ends { (l : Low) × (h : High) × StandsFitting (L.stands ends.old) self.old l h }

        ensures { WholeLook D.told L.shape L.place L.on_one_thread L.stands
            self.old self.new store.old store.new ends.old ends.new
            moment word (arrival_of arrival.entry) result (IfSome result.reply IsLawfulFrame) }
    {
        let mut head = LookHead::new();
        self.look_waiting_into(rt, moment, word, arrival, store, ends, &mut head);
        self.whole(&head)
    }
}

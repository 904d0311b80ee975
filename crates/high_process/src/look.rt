// A look of the high process: its first half, and the whole over an end that waits for nobody.
ghost use Rattle.std.specs.Prelude.{◌≡◌, ◌^◌, ◌≤◌, false};
ghost use Rattle.stable_buffer.specs.High.{IsHighReady, high_count};
ghost use Rattle.pump_core.specs.Passage.{Low, High};
ghost use Rattle.high_process.specs.Tasks.{frame_of};
ghost use Rattle.high_process.specs.States.{removed_of, last_of, is_down, IsBetweenLooks};
ghost use Rattle.high_process.specs.Ends.{StandsFitting};
ghost use Rattle.high_process.specs.Whole.{FirstHalf, WholeLook};

use crate::HighProcess;
use crate::how::{Asks, AtOnce};
use crate::values::{HighAsk, HighFault, HighLook};
use disk_model::Disk;
use passage::{HighEnd, HighSide};
use pump_frame::Frame;
use stable_buffer::HighStore;

impl HighProcess {
    /// The first half of a look: of this moment in microseconds, which is not below the last one
    /// and at most 2^62, with this frame. It stores a removal, and says what is to be asked of the
    /// passage. A frame that is refused as ahead or behind changes nothing; after a device fault
    /// the process is down, with the count, the hand and the number of times published as before,
    /// and the look counts as made. A crash at any moment leaves the count from before the look, or one
    /// more where the receiver has the message in the hand.
    pub fn begin<D: Disk>(
        &mut self,
        moment: u64,
        frame: Option<&Frame>,
        store: &mut HighStore<D>,
    ) -> Result<HighAsk, HighFault>
        requires between { IsBetweenLooks self.old }
        requires up { is_down self.old ≡ false }
        requires order { last_of self.old ≤ moment }
        requires moment { moment ≤ 2 ^ 62 }
        requires store { IsHighReady D.told store.old }
        requires count { high_count store.old ≡ removed_of self.old }

        ensures { FirstHalf D.told self.old self.new store.old store.new moment (frame_of frame.entry) result }
    {
        let task = self.task(frame);
        let attaches = self.attaches(frame);
        self.step(moment, task, attaches, store)
    }

    // A look that makes the calls of the end in this way.
    pub(crate) fn look_by<D: Disk, H: HighSide, A: Asks<H>>(
        &mut self,
        how: &A,
        moment: u64,
        frame: Option<&Frame>,
        store: &mut HighStore<D>,
        ends: &mut H,
    ) -> Result<HighLook, HighFault>
        requires between { IsBetweenLooks self.old }
        requires up { is_down self.old ≡ false }
        requires order { last_of self.old ≤ moment }
        requires moment { moment ≤ 2 ^ 62 }
        requires store { IsHighReady D.told store.old }
        requires count { high_count store.old ≡ removed_of self.old }
        requires ends { (l : Low) × (h : High) × StandsFitting (H.stands ends.old) self.old l h }

        ensures { WholeLook D.told H.shape H.place H.on_one_thread H.stands
            self.old self.new store.old store.new ends.old ends.new
            moment (frame_of frame.entry) result }
    {
        let ask = self.begin(moment, frame, store)?;
        self.take_up(how, &ask, ends);
        Ok(self.send())
    }

    /// A whole look over the store and the high end of the passage: `begin`, what it asks of the
    /// end, and `finish`; the time is published before the next message is taken up. As many times
    /// were published at the end as by this process since its opening, and the last message that the
    /// end gave was asked for with fewer removed than now, or with as many where the hand is full;
    /// afterwards this holds again.
    pub fn look<D: Disk, H: HighEnd>(
        &mut self,
        moment: u64,
        frame: Option<&Frame>,
        store: &mut HighStore<D>,
        ends: &mut H,
    ) -> Result<HighLook, HighFault>
        requires between { IsBetweenLooks self.old }
        requires up { is_down self.old ≡ false }
        requires order { last_of self.old ≤ moment }
        requires moment { moment ≤ 2 ^ 62 }
        requires store { IsHighReady D.told store.old }
        requires count { high_count store.old ≡ removed_of self.old }
        requires ends { (l : Low) × (h : High) × StandsFitting (H.stands ends.old) self.old l h }

        ensures { WholeLook D.told H.shape H.place H.on_one_thread H.stands
            self.old self.new store.old store.new ends.old ends.new
            moment (frame_of frame.entry) result }
    {
        self.look_by(&AtOnce, moment, frame, store, ends)
    }
}

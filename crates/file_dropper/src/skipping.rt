// The messages of a file that were accepted before are passed over.
ghost use Rattle.std.specs.Prelude.{◌≡◌, ℕ, ◌^◌, ◌<◌, ◌≤◌, List, length, false};
ghost use Rattle.pump_frame.specs.Counts.{Rose};
ghost use Rattle.file_cutter.specs.Cutting.{MayCut, cut_bytes, cut_message};
ghost use Rattle.file_dropper.specs.Readings.{HasRead};
ghost use Rattle.file_dropper.specs.Works.{Skips, still_of};
ghost use Rattle.file_cutter.specs.declared.pieces.Cut.TheVariants.{Message, Done, Failed, TooLong};

use crate::work::Sender;
use file_cutter::Cut;
use pump_frame::Payload;
use pump_link::Source;

/// Passes over the first messages of a file, of which none was given yet.
pub(crate) fn skip<F: Source + Drop>(sender: &mut Sender<F>, count: u64) -> Cut
    requires may { MayCut sender.old.reading.pieces }
    requires started { sender.old.started ≡ false }
    ensures skipped { result ≡ Message → (bytes read : List ℕ) → HasRead F.left sender.old.reading bytes read
        → Skips F.left sender.old sender.new bytes count }
    ensures done { result ≡ Done → (bytes read : List ℕ) → HasRead F.left sender.old.reading bytes read
        → length (still_of F.left sender.old) < count }
    ensures too_long { result ≡ TooLong → (bytes read : List ℕ) → HasRead F.left sender.old.reading bytes read
        → 2 ^ 48 ≤ length bytes }
    ensures may { result ≡ Message → MayCut sender.new.reading.pieces }
    ensures first { result ≡ Message → sender.new.started ≡ false → count ≡ 0 }
    ensures message { cut_message sender.new.reading.pieces ≡ cut_message sender.old.reading.pieces }
    ensures sent { sender.new.sent ≡ sender.old.sent }
    ensures long { result ≡ TooLong → cut_bytes sender.new.reading.pieces ≡ 2 ^ 48 }
    ensures failed { result ≡ Failed → Rose (F.faults sender.old.reading.file) (F.faults sender.new.reading.file) }
    ensures later { F.faults sender.old.reading.file ≤ F.faults sender.new.reading.file }
{
    if count == 0 {
        return Cut::Message;
    }
    sender.started = true;
    let mut message = Payload::default();
    for _ in 1..count {
        let cut = sender.reading.next(&mut message);
        match cut {
            Cut::Message => {}
            Cut::Done | Cut::Failed | Cut::TooLong => return cut,
        }
    }
    Cut::Message
}

//! The further messages of a file are sent.

ghost use Rattle.std.specs.Prelude.{◌≡◌, ℕ, ◌≤◌, ◌++◌, false, List, Err, IfErr, OnOk};
ghost use Rattle.disk_model.specs.declared.name.Role.{Role};
ghost use Rattle.disk_model.specs.declared.name.Role.TheVariants as roles;
ghost use Rattle.pump_frame.specs.Counts.{Rose};
ghost use Rattle.pump_frame.specs.Rows.{IsLawfulRow};
ghost use Rattle.script_reader.specs.Openings.{CanOpen, first_past};
ghost use Rattle.two_worlds.specs.Pumps.{StandsFor, disk_at, is_down, row_of};
ghost use Rattle.pump_wrapper.specs.Comparing.{Begins};
ghost use Rattle.pump_wrapper.specs.Crashes.{KeepsPrefix};
ghost use Rattle.pump_wrapper.specs.Cutting.{Gave, IsTotal, MayCut, cut_bytes, cut_message};
ghost use Rattle.pump_wrapper.specs.declared.file_sender.WrapEnd.TheVariants.{Read};
ghost use Rattle.pump_wrapper.specs.Wraps.{AreFirst, IsFailure, Sends, SendCause, all_taken, is_long_in};

use crate::file_sender::WrapEnd;
use crate::lines::{greet, pause, send};
use crate::{Cut, Cutter};
use disk_model::Disk;
use pump_frame::Payload;
use pump_link::Source;
use two_worlds::{Pump, Stop};

/// No receiver's disk has as many messages: each takes two bytes at least.
const MOST_MESSAGES: u64 = 1 << 24;

/// Each further message of the file is sent, and the answer is how many messages there are then in all.
/// The pump was opened, and given no line. A receiver's disk is full before the numbers run out.
pub fn send_rest<D: Disk, I: Source>(
    pump: &mut Pump<D>,
    cutter: &mut Cutter,
    file: &mut I,
) -> Result<u64, WrapEnd>
    requires up { is_down pump.old ≡ false }
    requires may { MayCut cutter.old }
    requires message { cut_message cutter.old ≡ (row_of pump.old).message }
    ensures sends { D.told.tells → (messages : List (List ℕ)) → IsLawfulRow (row_of pump.old)
        → CanOpen (row_of pump.old) (all_taken messages)
        → StandsFor D.told pump.old (first_past (row_of pump.old) (all_taken messages))
        → Sends D.told pump.new (row_of pump.old) messages cutter.old (I.left file.old) result }
    ensures keeps { D.told.tells → (messages : List (List ℕ)) → IsLawfulRow (row_of pump.old)
        → CanOpen (row_of pump.old) (all_taken messages)
        → StandsFor D.told pump.old (first_past (row_of pump.old) (all_taken messages))
        → (all : List (List ℕ)) → ((more : List (List ℕ)) → AreFirst cutter.old (I.left file.old) more
        → Begins (messages ++ more) all)
        → KeepsPrefix D.told (row_of pump.old) all (disk_at roles.Recv pump.old) (disk_at roles.Recv pump.new) }
    ensures total { OnOk result (IsTotal cutter.old (I.left file.old) (cut_bytes cutter.new)) }
    ensures gave { Gave (cut_bytes cutter.old) (I.left file.old) (I.left file.new) (is_long_in result) }
    ensures read { result ≡ Err Read → Rose (I.faults file.old) (I.faults file.new) }
    ensures counts { (role : Role) → D.told.count (disk_at role pump.old) ≤ D.told.count (disk_at role pump.new) }
    ensures cause { IfErr result (SendCause D.told pump.old pump.new) }
    ensures row { row_of pump.new ≡ row_of pump.old }
    ensures failed { IfErr result IsFailure }
{
    let (first, _, _) = pump.counts();
    let pause = pause(pump.row());
    match greet(pump) {
        Ok(()) => {}
        Err(stop) => return Err(WrapEnd::Stopped(stop)),
    }
    let mut message = Payload::default();
    for number in first..MOST_MESSAGES {
        match cutter.next(file, &mut message) {
            Cut::Message => {}
            Cut::Done => return Ok(number),
            Cut::Failed => return Err(WrapEnd::Read),
            Cut::TooLong => return Err(WrapEnd::TooLong),
        }
        match send(pump, number, (number - first) * pause, &message) {
            Ok(()) => {}
            Err(stop) => return Err(WrapEnd::Stopped(stop)),
        }
    }
    Err(WrapEnd::Stopped(Stop::Line))
}

// The lines of a record, written to a tape.
ghost use Rattle.std.specs.Prelude.{◌≡◌, ◌≤◌, ◌^◌, List, IfSome, OnOk, OnErr, true};
ghost use Rattle.std.specs.Io.KnownBytes.{Appends};
ghost use Rattle.pump_link.specs.Causes.{AppendsPrefix, HasCause};
ghost use Rattle.pump_core.specs.ReplyFrames.{IsLawfulReply};
ghost use Rattle.pump_frame.specs.Rows.{IsLawfulRow};
ghost use Rattle.low_process.specs.Looks.{arrival_of, IsInBounds};
ghost use Rattle.script_reader.specs.Grammar.{IsCount};
ghost use Rattle.relay_threads.specs.Reaching.{Reaches};
ghost use Rattle.relay_threads.specs.Records.{Made, was_full as full_before};
ghost use Rattle.relay_threads.specs.RecordLines.{first_text, made_by, HasLawfulFrame};
ghost use Rattle.relay_threads.specs.Replays.{BeginsReadable, ReadsBack};
ghost use Rattle.relay_threads.specs.LowServes.{text_after};

use crate::record::{LookMade, append_coarse, append_look, append_opening, is_recorded};
use arrayvec::ArrayVec;
use pump_frame::SessionRow;
use pump_link::{Sink, WriteFault, write_all};

/// Writes what a record begins with: a line with the row, how many messages were found stored, and
/// whether the last of them is in the low hand, and a second one where the session is coarse. After an
/// `Err`, which comes only where the tape's count of faults rose, a prefix of them was written.
pub fn write_opening<O: Sink>(
    tape: &mut O,
    row: &SessionRow,
    next: u64,
    is_held: bool,
) -> Result<(), WriteFault>
    ensures ok { OnOk result (Appends (O.written tape.old) (O.written tape.new)
        (first_text row.now (record { count = next; is_held = is_held }))) }
    ensures err { OnErr result (AppendsPrefix (O.written tape.old) (O.written tape.new)
        (first_text row.now (record { count = next; is_held = is_held }))) }
    ensures cause { HasCause (O.faults tape.old) (O.faults tape.new) result }
    // A reader of scripts reads these lines.
    ensures reads { IsCount next is_held → BeginsReadable row.now (record { count = next; is_held = is_held }) }
{
    let mut lines: ArrayVec<u8, 4800> = ArrayVec::new();
    append_opening(row, next, is_held, &mut lines);
    append_coarse(row, &mut lines);
    write_all(tape, lines.as_slice())
}

/// Rooms for the bytes that a look took, and for its lines: they serve one look after another.
#[derive(Drop)]
pub struct LookRoom {
    body: ArrayVec<u8, 1042>,
    lines: ArrayVec<u8, 2700>,
}

impl LookRoom {
    pub fn new() -> LookRoom {
        LookRoom {
            body: ArrayVec::new(),
            lines: ArrayVec::new(),
        }
    }
}

/// Writes a look's lines, if a record has them: the look before it found the passage full or not. False
/// where they were not written whole. Its moment and its average are to be in the ranges of a script, as
/// those of each look are.
pub fn record_look<O: Sink>(
    tape: &mut O,
    row: &SessionRow,
    made: &LookMade,
    was_full: bool,
    room: &mut LookRoom,
) -> bool
    requires frame { HasLawfulFrame (arrival_of made.now.arrival) }
    requires reply { IfSome made.now.look.reply IsLawfulReply }
    ensures text { (before : List Made) → was_full ≡ full_before before
        → Reaches (Appends (O.written tape.old) (O.written tape.new)) (O.faults tape.old) (O.faults tape.new) result
        (text_after row.now before (made_by row.now made.now)) }
    // A reader of scripts reads its line, where a record has it.
    ensures reads { IsLawfulRow row.now → made.now.moment ≤ 2 ^ 62 → IsInBounds made.now.look.feedback
        → (before : List Made) → ReadsBack row.now before (made_by row.now made.now) }
{
    // Their ranges bound the line.
    let (_session, _word) = (row.id, made.word);
    if !is_recorded(made, was_full) {
        return true;
    }
    room.lines.clear();
    append_look(row, made, &mut room.body, &mut room.lines);
    write_all(tape, room.lines.as_slice()).is_ok()
}

//! The lines by which a pump is emptied and a file is sent over it.

ghost use Rattle.std.specs.Prelude.{◌≡◌, ◌+◌, ◌<◌, ◌≤◌, ◌^◌, ◌∷◌, [], false, Ok, Result, OnOk};
ghost use Rattle.script_reader.specs.Heads.{arriving_with, line_with, CanHold, CanHoldLine};
ghost use Rattle.script_reader.specs.Lawful.{IsLawfulArriving, IsLawfulLine};
ghost use Rattle.script_reader.specs.declared.line.Line.TheVariants as lines;
ghost use Rattle.two_worlds.specs.Pumps.{is_down, row_of};
ghost use Rattle.pump_wrapper.specs.Sending.{Goes, pause as pause_of, turn_lines, message_lines, greeting};

use arrayvec::ArrayVec;
use disk_model::Disk;
use pump_frame::{Payload, SessionRow};
use script_reader::{Act, ArrivingHead, LineHead};
use two_worlds::{Pump, Stop};

/// A line is given to the pump.
fn apply<D: Disk>(pump: &mut Pump<D>, line: &LineHead, bytes: &[u8]) -> Result<(), Stop>
    requires lawful { IsLawfulLine (line_with bytes.now line.now) }
    requires room { CanHoldLine line.now bytes.now }
    requires up { is_down pump.old ≡ false }
    ensures goes { Goes D.told pump.old pump.new (line_with bytes.now line.now ∷ []) result }
    ensures up { OnOk result (is_down pump.new ≡ false) }
{
    let mut events = ArrayVec::new();
    match pump.apply_head(line, bytes, &mut events) {
        None => Ok(()),
        Some(stop) => Err(stop),
    }
}

/// A low look, to which this comes.
fn look<D: Disk>(
    pump: &mut Pump<D>,
    moment: u64,
    arrival: ArrivingHead,
    bytes: &[u8],
) -> Result<(), Stop>
    requires lawful { IsLawfulArriving (arriving_with bytes.now arrival) }
    requires room { CanHold arrival bytes.now }
    requires moment { moment ≤ 2 ^ 62 }
    requires up { is_down pump.old ≡ false }
    ensures goes { Goes D.told pump.old pump.new (lines.Look (row_of pump.old).id moment 0
        (arriving_with bytes.now arrival) ∷ []) result }
    ensures up { OnOk result (is_down pump.new ≡ false) }
{
    let line = LineHead::At {
        session: pump.row().id,
        moment,
        act: Act::Look { word: 0, arrival },
    };
    apply(pump, &line, bytes)
}

/// The receiver takes the first message, in a microsecond.
fn done<D: Disk>(pump: &mut Pump<D>, moment: u64) -> Result<(), Stop>
    requires moment { moment ≤ 2 ^ 62 }
    requires up { is_down pump.old ≡ false }
    ensures goes { Goes D.told pump.old pump.new (lines.Done (row_of pump.old).id moment 1 ∷ []) result }
    ensures up { OnOk result (is_down pump.new ≡ false) }
{
    let line = LineHead::At {
        session: pump.row().id,
        moment,
        act: Act::Done { time: 1 },
    };
    apply(pump, &line, &[])
}

/// One message goes to the receiver.
pub fn turn<D: Disk>(pump: &mut Pump<D>, moment: u64) -> Result<(), Stop>
    requires moment { moment ≤ 2 ^ 62 }
    requires up { is_down pump.old ≡ false }
    ensures goes { Goes D.told pump.old pump.new (turn_lines (row_of pump.old) moment) result }
    ensures up { OnOk result (is_down pump.new ≡ false) }
{
    match look(pump, moment, ArrivingHead::Nothing, &[]) {
        Ok(()) => done(pump, moment),
        Err(stop) => Err(stop),
    }
}

/// The row's own HELLO comes.
pub fn greet<D: Disk>(pump: &mut Pump<D>) -> Result<(), Stop>
    requires up { is_down pump.old ≡ false }
    ensures goes { Goes D.told pump.old pump.new (greeting (row_of pump.old) ∷ []) result }
    ensures up { OnOk result (is_down pump.new ≡ false) }
{
    let row = pump.row();
    let hello = ArrivingHead::Hello {
        low: row.low,
        high: row.high,
    };
    look(pump, 0, hello, &[])
}

/// So long after it is passed on a message is acknowledged, in microseconds.
pub fn pause(row: &SessionRow) -> u64
    ensures value { result ≡ pause_of row.now }
    ensures short { result < 2 ^ 32 }
{
    u64::from(row.longest.max(1))
}

/// A message is sent: it is stored, passed on, taken and acknowledged.
pub fn send<D: Disk>(
    pump: &mut Pump<D>,
    number: u64,
    moment: u64,
    message: &Payload,
) -> Result<(), Stop>
    requires number { number < 2 ^ 48 }
    requires moment { moment ≤ 2 ^ 61 }
    requires up { is_down pump.old ≡ false }
    ensures goes { Goes D.told pump.old pump.new (message_lines (row_of pump.old) number moment message.now) result }
    ensures up { OnOk result (is_down pump.new ≡ false) }
{
    let due = moment + pause(pump.row());
    let arrival = ArrivingHead::Data { number };
    match look(pump, moment, arrival, message.as_slice()) {
        Ok(()) => {}
        Err(stop) => return Err(stop),
    }
    match turn(pump, moment) {
        Ok(()) => look(pump, due, ArrivingHead::Nothing, &[]),
        Err(stop) => Err(stop),
    }
}

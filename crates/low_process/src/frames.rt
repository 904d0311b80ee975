// What the low process reads in a frame.
ghost use Rattle.std.specs.Prelude.{◌≡◌, ◌^◌, ◌<◌, IsTrue};
ghost use Rattle.std.specs.Str.{bytes_eq};
ghost use Rattle.pump_frame.specs.Frames.{greeting};
ghost use Rattle.pump_core.specs.Exchanges.{permits_frame, is_fit};
ghost use Rattle.low_process.specs.Hands.{HasNumber};

use pump_frame::{Frame, Kind, SessionRow};

/// Whether the payload is the greeting of these two names.
fn is_greeting(payload: &[u8], low: &[u8], high: &[u8]) -> bool
    ensures { result ≡ bytes_eq payload.now (greeting low.now high.now) }
{
    let Some(rest) = payload.strip_prefix(low) else {
        return false;
    };
    match rest.split_first() {
        Some((colon, name)) => *colon == b':' && name == high,
        None => false,
    }
}

/// Whether the row permits this HELLO.
pub fn is_permitted(row: &SessionRow, frame: &Frame) -> bool
    ensures { result ≡ permits_frame row.now frame.now }
{
    frame.session == row.id
        && is_greeting(
            frame.payload.as_slice(),
            row.low.as_slice(),
            row.high.as_slice(),
        )
}

/// Whether a frame is a DATA frame that may be stored or repeated.
pub fn is_storable(row: &SessionRow, greeted: bool, frame: &Frame) -> bool
    requires lawful { HasNumber frame.now }
    ensures fit { result ≡ is_fit row.now greeted frame.now }
    ensures number { IsTrue result → frame.now.number < 2 ^ 48 }
{
    matches!(frame.kind, Kind::Data)
        && greeted
        && frame.session == row.id
        && frame.payload.len() <= row.message
}

// What several files of tests use: messages, frames, links and a gate.
ghost use Rattle.std.specs.Prelude.{◌≡◌, ◌^◌, ◌<◌, IfSome};

use pump_frame::{Frame, Item, Kind, Payload};
use pump_link::{Looked, MemLink};
use relay_threads::Gate;
use std::alloc::Global;
use std::sync::Wait;
use std::test::Fail;

/// The message with this number, `a`.
pub fn item(number: u64) -> Option<Item>
    ensures { IfSome result (λ item. (item.number ≡ number) × (number < 2 ^ 48)) }
{
    if number >= 1 << 48 {
        return None;
    }
    Some(Item {
        number,
        payload: Payload::from_slice(b"a")?,
    })
}

/// The DATA of this message.
pub fn data(number: u64) -> Option<Frame> {
    Some(Frame {
        kind: Kind::Data,
        session: 1,
        number,
        payload: Payload::from_slice(b"a")?,
    })
}

/// The bytes that these digits write.
pub fn bytes(alloc: Global, text: &str) -> Result<Vec<u8>, Fail> {
    match hex::decode(alloc, text) {
        Ok(bytes) => Ok(bytes),
        Err(_) => Err(Fail::new("no bytes")),
    }
}

/// A link with so many looks that find no byte, and then these bytes. The first send may fail.
pub fn link(alloc: Global, quiet: u32, bytes: &[u8], is_failing: bool) -> Result<MemLink, Fail> {
    let mut looks = Vec::new(alloc);
    for _ in 0..quiet {
        looks.push(Looked::NotYet)?;
    }
    for byte in bytes {
        looks.push(Looked::Byte(*byte))?;
    }
    let mut fails = Vec::new(alloc);
    if is_failing {
        fails.push(0)?;
    }
    Ok(MemLink::new(looks, vec![in alloc; 0; 20_000]?, fails))
}

/// Lets so many looks pass, and then none.
#[derive(Drop)]
pub struct Few {
    pub looks: u64,
    pub stops: u64,
}

impl Gate for Few {
    ghost asked = { λ gate asks. ⊥ };

    ghost stops = { λ gate. gate.stops };

    fn pass<R: Wait>(&mut self, _rt: &R, looks: u64, _done: u64) -> bool {
        if looks < self.looks {
            return true;
        }
        self.stops = self.stops.saturating_add(1);
        false
    }

    fn stops(&self) -> u64 {
        self.stops
    }
}

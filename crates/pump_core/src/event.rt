//! What may happen next in a world.

use pump_frame::Payload;

/// What may happen next in a world. `docs/model.md`, "Events", says when each can happen and
/// what it changes.
#[derive(Clone, Copy)]
pub enum Event {
    /// The low process begins to store this message.
    StoreBegin(Payload),
    /// The store that was begun is done: the message is accepted and in the low hand.
    StoreEnd,
    /// The low hand's message is passed on.
    Forward,
    /// The high hand takes up the first message that is held.
    TakeUp,
    /// The high hand's message is sent as DATA.
    Send,
    /// The DATA at this position, in the order of sending from 0, comes to the receiver.
    CarryData(u64),
    /// The receiver begins to take the message that waits there.
    TakeBegin,
    /// The taking that was begun is done, and TAKEN is sent.
    TakeEnd,
    /// The TAKEN at this position, in the order of sending from 0, comes back to the pump.
    ReturnTaken(u64),
    /// The high process begins to remove the high hand's message.
    RemoveBegin,
    /// The removal that was begun is done.
    RemoveEnd,
    /// This message is acknowledged to the low party.
    Acknowledge(u64),
    /// The pump, the receiver or both crash and open again.
    Crash {
        /// Whether an unfinished store is kept, and whether an unfinished removal is.
        pump: Option<(bool, bool)>,
        /// Whether an unfinished taking is kept.
        receiver: Option<bool>,
    },
}

/// What may happen next where what comes back to the pump may be forged.
#[derive(Clone, Copy)]
pub enum Hostile {
    Core(Event),
    /// A TAKEN of this number comes back that nobody sent.
    Forge(u64),
}

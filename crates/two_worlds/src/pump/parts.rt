//! What a pump is made of.

use crate::connection::Connection;
use circular_buffer::HeapCircularBuffer;
use high_process::HighProcess;
use high_receiver::Receiver;
use low_process::LowProcess;
use passage::PlainEnds;
use pump_frame::{Frame, Item, SessionRow};
use stable_buffer::{HighStore, LowStore};

/// A session's two processes with their stores, the passage between them, the receiver, and what is
/// on the way to them.
#[derive(Drop)]
pub struct Parts<D> {
    pub row: SessionRow,
    pub connection: Connection,
    pub low: LowProcess,
    pub low_store: LowStore<D>,
    pub ends: PlainEnds,
    pub high: HighProcess,
    pub high_store: HighStore<D>,
    pub receiver: Receiver<D>,
    /// The DATA that were sent last, at most 64.
    pub sent: HeapCircularBuffer<Item>,
    /// The numbers of the TAKEN that were sent last, at most 64.
    pub returned: HeapCircularBuffer<u64>,
    /// The TAKEN or the ATTACH that comes back, whose kind and number are set each time: a frame has
    /// more than 1 KB, so one serves the session, on the heap.
    pub taken: Box<Frame>,
    /// The moment of the last line that had one.
    pub moment: u64,
}

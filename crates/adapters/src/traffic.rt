//! How much came and went on one side of a relay.

use std::sync::atomic::{AtomicBool, AtomicU64, Ordering};

/// What the links, the door and the clock of one side of a relay tell one another: how much came and
/// went, and whether nothing has for a while. It says when to wait, and nothing of what is sent.
///
/// Each side has one of its own. If the low clock went by what the high side does, Low could tell from
/// the moments of its own looks when High's messages come and go.
#[derive(Drop)]
pub struct Traffic {
    count: AtomicU64,
    is_quiet: AtomicBool,
    has_ended: AtomicBool,
}

impl Traffic {
    /// Nothing came yet, and looks wait where no clock says otherwise.
    pub fn new() -> Traffic {
        Traffic {
            count: AtomicU64::new(0),
            is_quiet: AtomicBool::new(true),
            has_ended: AtomicBool::new(false),
        }
    }

    /// Bytes or a connection came, or bytes went.
    pub fn note(&self) {
        self.count.fetch_add(1, Ordering::SeqCst);
    }

    /// A connection ended or failed.
    pub fn note_end(&self) {
        self.has_ended.store(true, Ordering::SeqCst);
    }

    /// Has a connection ended or failed?
    pub fn has_ended(&self) -> bool {
        self.has_ended.load(Ordering::SeqCst)
    }

    /// How often something came or went.
    pub fn count(&self) -> u64 {
        self.count.load(Ordering::SeqCst)
    }

    /// Says whether looks are to wait for what comes.
    pub fn set_quiet(&self, is_quiet: bool) {
        self.is_quiet.store(is_quiet, Ordering::SeqCst);
    }

    /// Has nothing come or gone for so long that a look may wait?
    pub fn is_quiet(&self) -> bool {
        self.is_quiet.load(Ordering::SeqCst)
    }
}

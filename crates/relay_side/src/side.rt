//! What one side of a relay has of the outside.

/// One side of a relay: its ports, and the clock that its worker goes by. Code that is handed one side has nothing of
/// the other.
#[derive(Drop)]
pub struct RelaySide<P, K> {
    pub ports: P,
    pub clock: K,
}

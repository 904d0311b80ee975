// The low worker of a session, with all that it works on.

use low_process::LowProcess;
use stable_buffer::LowStore;

/// The low worker of a session: the low process with its store and its end of the buffer, its clock, its
/// random words, and the tape that takes the record. All are lent to it.
#[derive(Drop)]
pub(crate) struct LowWorker<'k, 'w, 'p, 's, 'e, 't, K, W, D, L, O> {
    pub clock: &'k mut K,
    pub words: &'w mut W,
    pub process: &'p mut LowProcess,
    pub store: &'s mut LowStore<D>,
    pub ends: &'e mut L,
    pub tape: &'t mut O,
}

//! Waiting for sockets. std's read timeouts are counted in the system's ticks, which are some
//! milliseconds long; `poll` waits as long as it is told.

use crate::interruption::TRIES;
use libc::net::{POLLIN, POLLOUT, poll};
use libc::types::pollfd;
use std::os::fd::AsRawFd;

fn is_ready<S: AsRawFd>(socket: &S, events: i16, milliseconds: i32) -> bool {
    for _ in 0..TRIES {
        let mut asked = [pollfd {
            fd: socket.as_raw_fd(),
            events,
            revents: 0,
        }];
        let found = poll(&mut asked, milliseconds);
        // It fails where it is interrupted, as in a process that was stopped and goes on.
        if found >= 0 {
            return found > 0;
        }
    }
    false
}

/// Waits until the socket has something to read, so many milliseconds at most, and says whether it has.
/// An end and an error count too: the read that follows gives them.
pub fn is_readable<S: AsRawFd>(socket: &S, milliseconds: i32) -> bool {
    is_ready(socket, POLLIN, milliseconds)
}

/// As `is_readable`, for room to write.
pub fn is_writable<S: AsRawFd>(socket: &S, milliseconds: i32) -> bool {
    is_ready(socket, POLLOUT, milliseconds)
}

/// Waits so many milliseconds.
pub fn pause(milliseconds: i32) {
    let _ = poll(&mut [], milliseconds);
}

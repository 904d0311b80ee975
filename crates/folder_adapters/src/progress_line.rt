//! A line on a terminal that tells how far a file is.

use file_messages::Progress;
use std::cell::Cell;
use std::io::{IsTerminal, Stderr, Write};

/// How many bytes of a name are shown, so that the line does not wrap.
const NAME: usize = 40;

/// Goes to the line's beginning, and takes away what stands there.
const CLEARED: &str = "\r\x1b[K";

/// A line on standard error that tells how far a file is, as `NAME: BYTES of SIZE`, and is written over. Of a
/// long name its first 40 bytes stand there. Where standard error is no terminal there is no line.
#[derive(Drop)]
pub struct ProgressLine {
    terminal: Option<Stderr>,
    stands: Cell<bool>,
}

impl ProgressLine {
    /// No line stands yet.
    pub fn new(stderr: Stderr) -> ProgressLine {
        let is_terminal = stderr.is_terminal();
        ProgressLine {
            terminal: is_terminal.then_some(stderr),
            stands: Cell::new(false),
        }
    }

    /// There is never a line.
    pub fn none() -> ProgressLine {
        ProgressLine {
            terminal: None,
            stands: Cell::new(false),
        }
    }

    // Shows how far the file is, and takes the line away where there is none. A terminal that can't be
    // written shows nothing.
    pub(crate) fn show(&self, progress: &Option<Progress>) {
        let Some(mut terminal) = self.terminal.as_ref() else {
            return;
        };
        match progress {
            Some(Progress { name, size, bytes }) => {
                let name = name.as_str();
                let name = name.get(..NAME).unwrap_or(name);
                let _ = write!(terminal, "{CLEARED}{name}: {bytes} of {size}");
                self.stands.set(true);
            }
            None if self.stands.get() => {
                let _ = write!(terminal, "{CLEARED}");
                self.stands.set(false);
            }
            None => {}
        }
    }

    // Goes to the next line, where one stands.
    pub(crate) fn end(&self) {
        let Some(mut terminal) = self.terminal.as_ref() else {
            return;
        };
        if self.stands.get() {
            let _ = terminal.write_all(b"\n");
            self.stands.set(false);
        }
    }
}

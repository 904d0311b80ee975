//! The parties at the relay's ports: Low's sender and High's receiver, each on one connection
//! (`send_with`, `receive_with`), and Low's sender of a stream, which connects again (`append_with`). None
//! takes memory, and none waits for anybody. What they are made of serves other parties too: to send a frame
//! (`send_frame`) or print a line, to await a frame look by look (`await_frame`), or to send one and await
//! the answer to it (`ask`). No thread is known here, and no file.
#![tactic(auto)]

mod append;
mod asking;
mod laws;
mod looks;
mod outputs;
mod payload_lines;
mod receive;
mod send;

pub use append::{AppendEnd, Appended, append_with, print_appended};
pub use asking::{Reply, Wanted, ask};
pub use laws::{receptions_are_one, sendings_are_one};
pub use looks::{Waited, await_frame};
pub use outputs::{plain_frame, print, put_number, send_frame};
pub use receive::{ReceiveEnd, is_wanted, receive_with};
pub use send::{SendEnd, send_with};

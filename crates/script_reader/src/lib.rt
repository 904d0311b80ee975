//! The lines of a script and of its transcript: which bytes they are, and what they mean. `Lines` reads a
//! stream line by line in a room of its own; `read_line` reads one `Line`, and `print_event` and
//! `print_fault` spell what is printed (`Event`, `Fault`). A `LineHead` or an `EventHead` is the same without
//! the bytes of a message, which stand in a room of the caller's. A `Generator` makes a script from a number.
//! Its specs define what a script of one or several sessions prints, and its laws say that a script has one
//! transcript. It knows no pump and no disk's bytes.
#![tactic(auto)]

mod body;
mod digits;
mod event;
mod fault;
mod fields;
mod generator;
mod head;
mod held_lines;
pub mod laws;
mod line;
mod line_printing;
mod lines;
mod naming;
mod printing;
mod reading;

pub use body::Body;
pub use event::{Event, EventHead};
pub use fault::Fault;
pub use fields::Fields;
pub use generator::{Generator, generated_lines_apply, generated_row};
pub use head::{Act, ArrivingHead, LineHead, LinedHead};
pub use held_lines::{FirstLine, HeldLines};
pub use laws::{
    faulty_scripts_have_no_transcript, full_moments_and_averages_decide, low_lines_are_a_function,
    low_lines_are_replies, low_sides_have_one_transcript, one_reading, stopping_lines_are_one,
    transcripts_are_bounded, transcripts_are_one, transcripts_are_sound,
};
pub use line::{Arriving, Line, ToldFeedback};
pub use line_printing::{append_line, print_line};
pub use lines::{Lined, Lines};
pub use naming::{begins_session, moment_of, session_of, stands_first};
pub use printing::{append_fault, append_head, print_event, print_fault, print_head};
pub use reading::{read_head, read_line};

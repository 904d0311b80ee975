//! The plain core of the relay: its world, what may happen in it, the histories of its low process with their
//! replies, and the laws that hold whatever happens. Nearly all of it is definitions, in `specs/`. Of its
//! types the program uses the replies to Low (`Reply`, `Refusal`) and what comes down from High (`Feedback`,
//! `Seen`). `World`, `Event` and `Hostile` are for trying the definitions in tests. The laws say, among
//! others, that a history has one list of replies, and that what is Low's own and the feedback decide it.
//! `docs/model.md` tells all this in words.
#![tactic(auto)]

mod event;
mod feedback;
mod histories;
mod refill;
mod reply;
mod world;

pub use event::{Event, Hostile};
pub use feedback::{Feedback, Seen};
pub use histories::{
    cuts_are_one, greetings_are_permitted_by_name, pairs_agree, replies_are_one, sides_decide,
    thinned_histories_agree,
};
pub use reply::{Refusal, Reply};
pub use world::World;

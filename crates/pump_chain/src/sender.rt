//! The sender between two pumps.

ghost use Rattle.std.specs.Prelude.{◌≡◌, if◌then◌else◌, ℕ, List, false, ◌&&◌, ◌||◌, not};
ghost use Rattle.std.specs.List.{list_any};
ghost use Rattle.script_reader.specs.EventHeads.{event_of};
ghost use Rattle.two_worlds.specs.Printing.{lines_in};
ghost use Rattle.script_reader.specs.declared.event.Event.{Event as Printed};
ghost use Rattle.script_reader.specs.Heads.{line_with};
ghost use Rattle.pump_chain.specs.Chained.{is_look, is_reply as replies, is_welcome as welcomes, sender_after, unsent};

use pump_core::Reply;
use script_reader::{Act, EventHead, LineHead};

/// What the sender between two pumps knows of its frames.
#[derive(Clone, Copy)]
pub struct Sender {
    /// It was welcomed, and since then the second pump was neither opened again nor lost its connection.
    pub is_welcome: bool,
    /// A frame of it is under way: its reply did not come yet.
    pub is_under_way: bool,
}

fn is_reply(event: &EventHead) -> bool
    ensures { result ≡ replies (event_of event.now) }
{
    matches!(event, EventHead::Low { .. })
}

fn is_welcome(event: &EventHead) -> bool
    ensures { result ≡ welcomes (event_of event.now) }
{
    matches!(
        event,
        EventHead::Low {
            reply: Reply::Welcome { .. },
            ..
        }
    )
}

fn has_reply(printed: &[EventHead]) -> bool
    ensures { result ≡ list_any (λ head. replies (event_of head)) printed.now }
{
    printed.iter().any(|event| is_reply(event))
}

fn has_welcome(printed: &[EventHead]) -> bool
    ensures { result ≡ list_any (λ head. welcomes (event_of head)) printed.now }
{
    printed.iter().any(|event| is_welcome(event))
}

/// One of the two, or both.
pub fn either(one: bool, other: bool) -> bool
    ensures { result ≡ (one || other) }
{
    one || other
}

// What is under way, or was added, is under way until a reply comes.
fn is_under_way_still(was: bool, adds: bool, is_replied: bool) -> bool
    ensures { result ≡ ((was || adds) && not is_replied) }
{
    (was || adds) && !is_replied
}

impl Sender {
    /// A sender that sent nothing yet.
    pub fn new() -> Sender
        ensures { result ≡ unsent }
    {
        Sender {
            is_welcome: false,
            is_under_way: false,
        }
    }

    /// A look of the second pump, before which a frame was added or none, printed this, if it was made.
    pub fn looked(&mut self, adds: bool, printed: &[EventHead], is_made: bool)
        ensures { self.new ≡ (if is_made then record {
          is_welcome = self.old.is_welcome || list_any welcomes (lines_in printed.now);
          is_under_way = (self.old.is_under_way || adds) && not (list_any replies (lines_in printed.now));
        } else self.old) }
    {
        if !is_made {
            return;
        }
        self.is_welcome = either(self.is_welcome, has_welcome(printed));
        self.is_under_way = is_under_way_still(self.is_under_way, adds, has_reply(printed));
    }

    /// Another line of the second session was applied, or not: with its connection, or its processes, all
    /// that the sender had is over.
    pub fn went_on(&mut self, line: &LineHead, is_applied: bool)
        ensures { (bytes : List ℕ) (printed : List Printed) → is_look (line_with bytes line.now) ≡ false
            → self.new ≡ (if is_applied then sender_after self.old (line_with bytes line.now) printed else self.old) }
    {
        if !is_applied {
            return;
        }
        let LineHead::At { act, .. } = line else {
            return;
        };
        match act {
            Act::Gone | Act::Restart => *self = Sender::new(),
            Act::Look { .. }
            | Act::Told { .. }
            | Act::Step { .. }
            | Act::High
            | Act::Return { .. }
            | Act::Done { .. }
            | Act::ReceiverRestart => {}
        }
    }
}

//! The law of what a high worker sends. It is a function without a body whose contract is the law.

ghost use Rattle.std.specs.Prelude.{◌≡◌, ℕ, List, Option};
ghost use Rattle.std.specs.List.{AllByRecursion};
ghost use Rattle.pump_frame.specs.declared.frame.Item.{Item};
ghost use Rattle.pump_frame.specs.declared.row.SessionRow.{SessionRow};
ghost use Rattle.high_process.specs.Past.{fresh};
ghost use Rattle.relay_threads.specs.HighRounds.{Round, AreRounds, data_sent};
ghost use Rattle.relay_threads.specs.HighStays.{Stay, AreStays};
ghost use Rattle.relay_threads.specs.HighEnds.{HasMessage, answers_in, answers_over, data_over, messages_of};

use pump_link::Door;

/// From an opening with `first` messages removed on, each DATA of a high worker carries the payload of
/// its number: `first` is that of the message in the hand, where there was one, and else of the first
/// that its end of the passage gave; each later message that came has the next number.
pub fn sends_what_came<P: Door>()
    ensures rounds { (row : SessionRow) (first : ℕ) (hand : Option Item) (rounds : List Round)
        → AreRounds row (fresh first hand) rounds
        → AllByRecursion (HasMessage first (messages_of hand (answers_in row (fresh first hand) rounds)))
        (data_sent row.id rounds) }
    ensures stays { (row : SessionRow) (first : ℕ) (hand : Option Item) (stays : List (Stay P.Link))
        → AreStays row (fresh first hand) stays
        → AllByRecursion (HasMessage first (messages_of hand (answers_over row (fresh first hand) stays)))
        (data_over row.id stays) }
{}

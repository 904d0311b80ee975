//! Laws of the two parties' calls. Each is a function without a body whose contract is the law.

ghost use Rattle.std.specs.Prelude.{◌≡◌, ◌++◌, ℕ, List, Option, Some};
ghost use Rattle.pump_frame.specs.declared.row.SessionRow.{SessionRow};
ghost use Rattle.peers.specs.declared.receive.ReceiveEnd.{ReceiveEnd};
ghost use Rattle.peers.specs.declared.send.SendEnd.{SendEnd};
ghost use Rattle.peers.specs.Laws.{IsCalmCall, ArePrefixes};
ghost use Rattle.peers.specs.Outputs.{Counts};
ghost use Rattle.peers.specs.Receiving.{Place, Reception, Receives};
ghost use Rattle.peers.specs.Sending.{Sending, Sends, all_looks, all_printed, all_sent};

/// Where no count rose, the looks that a link gives, and where the receiver stands, admit one end of
/// a receiver's call, with one list of bytes sent and of lines printed.
pub fn receptions_are_one()
    ensures { (row : SessionRow) (size most : ℕ) (start : Place) (x y : Reception) (n k : Counts)
        (end other : ReceiveEnd)
        → IsCalmCall n → IsCalmCall k → Receives row size most start x n end → Receives row size most start y k other
        → ArePrefixes (x.heard ++ x.looks) (y.heard ++ y.looks)
        → (end ≡ other) × (x.sent ≡ y.sent) × (x.printed ≡ y.printed) × (x.turns ≡ y.turns) }
{}

/// Where no count rose, the looks that a link gives and a script admit one end of a sender's call,
/// with one list of bytes sent and of lines printed.
pub fn sendings_are_one()
    ensures { (row : SessionRow) (most : ℕ) (script : List ℕ) (left rest : Option (List ℕ)) (x y : Sending)
        (n k : Counts) (end other : SendEnd)
        → IsCalmCall n → IsCalmCall k → Sends row most (Some script) left x n end
        → Sends row most (Some script) rest y k other
        → ArePrefixes (all_looks x) (all_looks y)
        → (end ≡ other) × (all_sent row x ≡ all_sent row y) × (all_printed x ≡ all_printed y) }
{}

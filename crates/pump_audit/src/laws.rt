//! Laws of records and of the verdicts on them. Each is a function without a body whose contract is the law.

ghost use Rattle.std.specs.Prelude.{◌≡◌, ◌+◌, ◌^◌, ◌<◌, ◌≤◌, ◌++◌, ◌∷◌, ℕ, List, true, map};
ghost use Rattle.std.specs.List.{All};
ghost use Rattle.pump_core.specs.Passage.{shape_of_row, IsAverage};
ghost use Rattle.pump_core.specs.Replies.{LowReplies, Sent};
ghost use Rattle.pump_audit.specs.Agreeing.{side_of};
ghost use Rattle.pump_audit.specs.Claims.{pair_of, has_end};
ghost use Rattle.pump_audit.specs.Comparing.{SideTold, SidesAre, ArePair, separator, IsCompared};
ghost use Rattle.pump_audit.specs.Records.{Record, history_of};
ghost use Rattle.pump_audit.specs.Texts.{line_ends};
ghost use Rattle.pump_audit.specs.declared.compared.Compared.{Compared};
ghost use Rattle.pump_audit.specs.declared.compared.Compared.TheVariants.{Agree};
ghost use Rattle.pump_audit.specs.declared.verdict.Verdict.{Verdict};
ghost use Rattle.pump_audit.specs.Verdicts.{IsWhole, IsLife, IsClean, IsVerdict};

/// The comments of a clean record are the low process's replies, each with its moment, and all of them.
pub fn clean_records_tell_all_replies()
    ensures { (bytes : List ℕ) (r : Record) → IsClean bytes r → LowReplies r.row (history_of r) r.comments }
{}

/// Where a clean record has an end, each pair that its looks tell is a count of its times and the average of
/// the first so many, and of its numbers none is greater than it may be: no more are removed than taken, no
/// more taken than accepted, and no more accepted than removed and places.
pub fn clean_records_keep_their_numbers()
    ensures averages { (bytes : List ℕ) (r : Record) → IsClean bytes r → has_end r ≡ true
        → All (IsAverage (shape_of_row r.row) r.times) (map pair_of r.claims) }
    ensures removed { (bytes : List ℕ) (r : Record) → IsClean bytes r → has_end r ≡ true → r.removed ≤ r.taken }
    ensures taken { (bytes : List ℕ) (r : Record) → IsClean bytes r → has_end r ≡ true → r.taken ≤ r.accepted }
    ensures room { (bytes : List ℕ) (r : Record) → IsClean bytes r → has_end r ≡ true
        → r.accepted ≤ r.removed + r.row.capacity }
{}

/// Bytes have one verdict.
pub fn verdicts_are_one()
    ensures { (bytes : List ℕ) (v w : Verdict) → IsVerdict bytes v → IsVerdict bytes w → v ≡ w }
{}

/// Bytes of fewer than 2^32 lines compare in one way.
pub fn comparisons_are_one()
    ensures { (bytes : List ℕ) (v w : Compared) → line_ends bytes < 2 ^ 32 → IsCompared bytes v → IsCompared bytes w
        → v ≡ w }
{}

/// Two records without the causes 1 and 2, with the line between them, are the pair of their sides. A whole record is
/// such a record.
pub fn records_are_their_sides()
    ensures pair { (xs ys : List ℕ) (r q : Record) → IsLife xs r → IsLife ys q
        → ArePair (xs ++ (separator ++ 10 ∷ ys)) (side_of r) (side_of q) }
    ensures whole { (bytes : List ℕ) (r : Record) → IsWhole bytes r → IsLife bytes r }
{}

/// Bytes are one pair of sides at most.
pub fn pairs_are_one()
    ensures { (bytes : List ℕ) (a b c d : SideTold) → ArePair bytes a b → ArePair bytes c d → (a ≡ c) × (b ≡ d) }
{}

/// Two records without the causes 1 and 2 whose sides agree have the same replies, at the same moments. Two clean
/// records that are found to agree have the same comments.
pub fn records_that_agree_reply_alike()
    ensures replies { (xs ys : List ℕ) (r q : Record) (items : ℕ) → IsLife xs r → IsLife ys q
        → SidesAre (side_of r) (side_of q) (Agree items) → (ts us : List Sent) → LowReplies r.row (history_of r) ts
        → LowReplies q.row (history_of q) us → ts ≡ us }
    ensures comments { (xs ys : List ℕ) (r q : Record) (items : ℕ) → IsClean xs r → IsClean ys q
        → IsCompared (xs ++ (separator ++ 10 ∷ ys)) (Agree items) → r.comments ≡ q.comments }
{}

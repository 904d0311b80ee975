//! Laws of low histories. Each is a function without a body whose contract is the law.

ghost use Rattle.std.specs.Prelude.{◌≡◌, ℕ, List};
ghost use Rattle.pump_frame.specs.Frames.{greeting};
ghost use Rattle.pump_frame.specs.Names.{IsName};
ghost use Rattle.pump_frame.specs.Rows.{permits};
ghost use Rattle.pump_frame.specs.declared.frame.Frame.{Frame};
ghost use Rattle.pump_frame.specs.declared.row.SessionRow.{SessionRow};
ghost use Rattle.pump_core.specs.History.{History, Life};
ghost use Rattle.pump_core.specs.Exchanges.{permits_frame, Part, IsCut};
ghost use Rattle.pump_core.specs.Replies.{LowReplies, Sent};
ghost use Rattle.pump_core.specs.Pairs.{SameUpToCounts};
ghost use Rattle.pump_core.specs.Thinned.{IsThinned};
ghost use Rattle.pump_core.specs.Comings.{Side, HasSides};

/// A row permits a HELLO exactly where it permits the session and the two names that stand in it.
pub fn greetings_are_permitted_by_name()
    ensures { (row : SessionRow) (f : Frame) (low high : List ℕ) → IsName row.low → IsName row.high →
        IsName low → IsName high → f.payload ≡ greeting low high →
        permits_frame row f ≡ permits row f.session low high }
{}

/// A life is cut into exchanges in one way at most.
pub fn cuts_are_one()
    ensures { (row : SessionRow) (life : Life) (parts others : List Part) →
        IsCut row life parts → IsCut row life others → parts ≡ others }
{}

/// A history has one list of replies at most.
pub fn replies_are_one()
    ensures { (row : SessionRow) (h : History) (xs ys : List Sent) →
        LowReplies row h xs → LowReplies row h ys → xs ≡ ys }
{}

/// Two histories that agree in openings, moments, words, arrivals and outcomes of the low disk, and
/// in the feedback up to its counts, have the same replies at the same moments.
pub fn pairs_agree()
    ensures { (row : SessionRow) (h k : History) (xs ys : List Sent) →
        SameUpToCounts h k → LowReplies row h xs → LowReplies row k ys → xs ≡ ys }
{}

/// The replies are a function of the low side alone: of what comes on its connections and when, of
/// the moments, words and outcomes of its looks, of its openings, and of the feedback up to its
/// counts. What a look is offered without taking it plays no part.
pub fn sides_decide()
    ensures { (row : SessionRow) (sides : List Side) (h k : History) (xs ys : List Sent) →
        HasSides row sides h → HasSides row sides k →
        LowReplies row h xs → LowReplies row k ys → xs ≡ ys }
{}

/// Leaving out looks that find nothing, looks of a wait before its end and looks that find the
/// passage full changes no reply.
pub fn thinned_histories_agree()
    ensures { (row : SessionRow) (h k : History) (xs ys : List Sent) →
        IsThinned row h k → LowReplies row h xs → LowReplies row k ys → xs ≡ ys }
{}

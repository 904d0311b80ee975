//! Laws of frames and their bytes. Each is a function without a body whose contract is the law.

ghost use Rattle.std.specs.Prelude.{◌≡◌, ◌↔◌, ◌∷◌, ◌++◌, ◌<◌, [], ℕ, List, length};
ghost use Rattle.std.specs.List.{AllByRecursion, concat};
ghost use Rattle.pump_frame.specs.Frames.{IsLawful, greeting};
ghost use Rattle.pump_frame.specs.Names.{IsName};
ghost use Rattle.pump_frame.specs.Readings.{Reading, Within};
ghost use Rattle.pump_frame.specs.Spellings.{spelling, BeginsSpelling, IsPartial};
ghost use Rattle.pump_frame.specs.Streams.{Feeds, IsStream, ReadsPieces};
ghost use Rattle.pump_frame.specs.declared.frame.Frame.{Frame};
ghost use Rattle.pump_frame.specs.declared.reader.Fed.{Fed};

/// No lawful frame's bytes begin another's, and no two frames have the same bytes.
pub fn spellings_are_free()
    ensures { (f g : Frame) (x y : List ℕ) → IsLawful f → IsLawful g →
        spelling f ++ x ≡ spelling g ++ y → (f ≡ g) × (x ≡ y) }
{}

/// A payload is the greeting of one low and one high name, since no name has a colon.
pub fn names_are_one()
    ensures { (low high low' high' : List ℕ) → IsName low → IsName low' →
        greeting low high ≡ greeting low' high' → (low ≡ low') × (high ≡ high') }
{}

/// Bytes are a stream of one list of frames, with one end.
pub fn streams_are_one()
    ensures { (bytes : List ℕ) (frames others : List Frame) (end other : Reading) →
        IsStream bytes frames end → IsStream bytes others other →
        (frames ≡ others) × (end ≡ other) }
{}

/// All bytes are a stream: of some frames, with a prefix of one more or a bad place behind them.
pub fn all_bytes_are_a_stream()
    ensures { (bytes : List ℕ) → AllByRecursion (λ b. b < 256) bytes →
        (frames : List Frame) × (end : Reading) × IsStream bytes frames end }
{}

/// However the bytes are cut into pieces, a reader gives the frames of their stream, and its end.
pub fn cuts_do_not_matter()
    ensures { (pieces : List (List ℕ)) (frames : List Frame) (end : Reading) →
        ReadsPieces (Within []) pieces frames end ↔ IsStream (concat pieces) frames end }
{}

/// A reader that is within a frame answers `More`, `Whole` and `Bad` exactly where these say so.
pub fn answers_are_exact()
    ensures more { (held : List ℕ) (byte : ℕ) (fed : Fed) (new : Reading) →
        Feeds (Within held) byte fed new → (fed ≡ Fed.More) ↔ IsPartial (held ++ byte ∷ []) }
    ensures whole { (held : List ℕ) (byte : ℕ) (fed : Fed) (new : Reading) (f : Frame) →
        Feeds (Within held) byte fed new →
        (fed ≡ Fed.Whole f) ↔ (IsLawful f × (spelling f ≡ held ++ byte ∷ [])) }
    ensures bad { (held : List ℕ) (byte : ℕ) (fed : Fed) (new : Reading) →
        Feeds (Within held) byte fed new → (fed ≡ Fed.Bad (length held)) ↔ (BeginsSpelling (held ++ byte ∷ []) → ⊥) }
{}

// What random words promise.
ghost use Rattle.std.specs.Prelude.{ℕ, List, [], ◌∷◌};
ghost use Rattle.pump_link.specs.Tells.{Draws};

/// Gives random words.
pub trait Words {
    /// Its next words are these, where it tells them.
    ghost gives: { Self → List ℕ → Type 0 };

    fn word(&mut self) -> u32
        ensures gives { Draws (gives self.old) (gives self.new) (result ∷ []) };
}

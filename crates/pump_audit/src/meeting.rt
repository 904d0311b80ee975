// What the looks of a record tell of High's times, against the times at its end.
ghost use Rattle.std.specs.Prelude.{◌≡◌, ℕ, ◌+◌, ◌<◌, [], ◌∷◌, ◌++◌, List, length, Option, None, Some, true, false};
ghost use Rattle.std.specs.Prelude.{OnOk, option_map, slice_get};
ghost use Rattle.pump_frame.specs.declared.averaging.Averaging.{Averaging};
ghost use Rattle.pump_frame.specs.Averages.{average_of};
ghost use Rattle.pump_audit.specs.Pairs.{EndsLike, IsSettled, Keeps, Fell, Takes, Meets};
ghost use Rattle.pump_audit.specs.Records.{claims_of};

use crate::claims::{Claim, Claims};
use pump_core::Feedback;
use pump_frame::OutOfMemory;
use std::alloc::Global;

impl Claims {
    pub fn new(alloc: Global) -> Claims
        ensures pairs { result.pairs.items ≡ [] }
        ensures met { result.met ≡ 0 }
        ensures greatest { result.greatest ≡ 0 }
        ensures fall { result.fall ≡ None }
    {
        Claims {
            pairs: Vec::new(alloc),
            met: 0,
            greatest: 0,
            fall: None,
        }
    }

    // Whether the last pair that is kept is the claim's.
    fn ends_like(&self, claim: &Claim) -> bool
        ensures yes { result ≡ true → EndsLike self.now.pairs.items claim.now }
        ensures no { result ≡ false → EndsLike self.now.pairs.items claim.now → ⊥ }
    {
        match self.pairs.last() {
            Some(last) => last.count == claim.count && last.average == claim.average,
            None => false,
        }
    }

    // Whether one of the last two pairs that are kept is wrong, whatever the times are.
    fn is_settled(&self) -> bool
        ensures yes { result ≡ true → IsSettled self.now.pairs.items }
        ensures no { result ≡ false → (prefix : List Claim) (p q : Claim) → self.now.pairs.items ≡ prefix ++ p ∷ q ∷ []
            → p.count < q.count }
    {
        match self.pairs.as_slice() {
            [.., one, other] => other.count <= one.count,
            _ => false,
        }
    }

    // Looks whether the count falls.
    fn note_fall(&mut self, claim: &Claim)
        ensures fell { (claims : List Claim) → Fell claims self.old.greatest self.old.fall
            → Fell (claim.now ∷ claims) self.new.greatest self.new.fall }
        ensures pairs { self.new.pairs ≡ self.old.pairs }
        ensures met { self.new.met ≡ self.old.met }
    {
        if self.fall.is_some() {
            return;
        }
        if claim.count < self.greatest {
            self.fall = Some(claim.line);
            return;
        }
        self.greatest = claim.count;
    }

    // Adds a claim.
    fn add(&mut self, claim: Claim) -> Result<(), OutOfMemory>
        ensures keeps { OnOk result (Takes self.old.pairs.items claim self.new.pairs.items) }
        ensures fell { (claims : List Claim) → Fell claims self.old.greatest self.old.fall
            → Fell (claim ∷ claims) self.new.greatest self.new.fall }
        ensures met { self.new.met ≡ self.old.met }
    {
        self.note_fall(&claim);
        if self.is_settled() || self.ends_like(&claim) {
            return Ok(());
        }
        self.pairs.push(claim)?;
        Ok(())
    }

    /// Adds what a look on this line is told.
    pub fn hear(&mut self, feedback: &Feedback, line: u32) -> Result<(), OutOfMemory>
        ensures keeps { OnOk result ((claims : List Claim) → Keeps claims self.old.pairs.items
            → Keeps (claims_of feedback.now line ++ claims) self.new.pairs.items) }
        ensures fell { (claims : List Claim) → Fell claims self.old.greatest self.old.fall
            → Fell (claims_of feedback.now line ++ claims) self.new.greatest self.new.fall }
        ensures met { self.new.met ≡ self.old.met }
    {
        match feedback {
            Feedback::Passed(seen) | Feedback::Repeat(seen) => self.add(Claim {
                count: seen.count,
                average: seen.average,
                line,
            }),
            _ => Ok(()),
        }
    }

    /// Goes on to the first claim that is not of this count and average.
    pub fn meet(&mut self, count: u32, average: u32)
        ensures meets { (a : Averaging) (times : List ℕ) → count ≡ length times → average ≡ average_of a times
            → Meets a times count self.old.pairs.items self.old.met
            → Meets a times (count + 1) self.new.pairs.items self.new.met }
        ensures pairs { self.new.pairs ≡ self.old.pairs }
        ensures greatest { self.new.greatest ≡ self.old.greatest }
        ensures fall { self.new.fall ≡ self.old.fall }
    {
        while self.met < self.pairs.len() {
            let pair = self.pairs[self.met];
            if pair.count != count || pair.average != average {
                return;
            }
            self.met += 1;
        }
    }

    /// The line of the first claim that the times have not met.
    pub fn unmet(&self) -> Option<u32>
        ensures { result ≡ option_map (λ (c : Claim). c.line) (slice_get self.now.pairs.items self.now.met) }
    {
        match self.pairs.get(self.met) {
            Some(claim) => Some(claim.line),
            None => None,
        }
    }
}

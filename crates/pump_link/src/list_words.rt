// Words from a list in memory.
ghost use Rattle.std.specs.Prelude.{◌≡◌, ℕ, ◌≤◌, List, [], ◌∷◌, length, drop};
ghost use Rattle.pump_link.specs.Running.{WordsFrom, first_word};
ghost use Rattle.pump_link.specs.Tells.{Draws};

use crate::words::Words;
use std::marker::Model;

/// Words in memory: these in order, then 0. Contracts see those that are left.
#[derive(Drop)]
pub struct ListWords {
    words: Vec<u32>,
    at: usize,
}

impl Model for ListWords {
    ghost Value = { List ℕ };

    ghost view = { λ s. drop s.at s.words.items };

    ghost invariant = { λ s. s.at ≤ length s.words.items };
}

impl ListWords {
    /// Gives these words, the first one first.
    pub fn new(words: Vec<u32>) -> ListWords
        ensures { result ≡ words.items }
    {
        ListWords { words, at: 0 }
    }
}

impl Words for ListWords {
    ghost gives = { WordsFrom };

    fn word(&mut self) -> u32
        ensures gives { Draws (WordsFrom self.old) (WordsFrom self.new) (result ∷ []) }
        ensures word { result ≡ first_word self.old }
        ensures rest { self.new ≡ drop 1 self.old }
    {
        if self.at < self.words.len() {
            let word = self.words[self.at];
            self.at += 1;
            word
        } else {
            0
        }
    }
}

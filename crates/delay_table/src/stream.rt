// Random words from a stream of ChaCha20.
ghost use Rattle.std.specs.Prelude.{◌≡◌, ◌+◌, ◌%◌, ◌^◌, ◌<◌, [], ◌∷◌};
ghost use Rattle.rand_chacha.specs.ChaCha.{ChaCha, word_at, key_of};
ghost use Rattle.pump_link.specs.Tells.{Draws};
ghost use Rattle.delay_table.specs.Streams.{AreWords};

use pump_link::Words;
use rand_chacha::ChaCha20Rng;
use rand_core::SeedableRng;
use rand_core::utils::NextWord;
use std::marker::Model;

/// The words of one stream of ChaCha20, from its first on. Contracts see its key, its stream and
/// the place of its next word.
#[derive(Drop)]
pub struct StreamWords {
    generator: ChaCha20Rng,
}

impl Model for StreamWords {
    ghost Value = { ChaCha };

    ghost view = { λ s. s.generator };

    ghost invariant = { λ s. s.generator.word_pos < 2 ^ 68 };
}

impl StreamWords {
    /// The stream of this number under the key, at its first word.
    pub fn new(key: [u8; 32], session: u32) -> StreamWords
        ensures { result ≡ record { key = key_of key; stream = session; word_pos = 0 } }
    {
        let mut generator = ChaCha20Rng::from_seed(key);
        generator.set_stream(u64::from(session));
        StreamWords { generator }
    }
}

impl Words for StreamWords {
    ghost gives = { λ s words. AreWords s.key s.stream s.word_pos words };

    fn word(&mut self) -> u32
        ensures gives { Draws (AreWords self.old.key self.old.stream self.old.word_pos)
            (AreWords self.new.key self.new.stream self.new.word_pos) (result ∷ []) }
        ensures word { result ≡ word_at 10 self.old.key self.old.stream self.old.word_pos }
        ensures next { self.new ≡ record self.old { word_pos = (self.old.word_pos + 1) % 2 ^ 68 } }
    {
        self.generator.next_word()
    }
}

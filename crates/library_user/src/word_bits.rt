// Bits of one's own: those of a word.

ghost use Rattle.std.specs.Prelude.{◌≡◌, ◌==◌, ◌≤◌, ◌/◌, ◌%◌, ◌^◌, [], false, IsTrue};
ghost use Rattle.zar_io.specs.FileBits.{low_bits};
ghost use Rattle.zar_io.specs.Trace.{World};

use zar_io::{Bits, Failed, Ready};

/// The lowest bits of a word, the most significant of them first. Nothing lies behind them, and no call fails.
#[derive(Drop)]
pub struct WordBits {
    word: u64,
    // How many are left.
    count: u32,
    ended: bool,
    ghost few: { count ≤ 64 },
    ghost none_once_ended: { IsTrue ended → count ≡ 0 },
}

impl WordBits {
    /// The lowest `count` bits of the word.
    pub fn new(word: u64, count: u32) -> WordBits
        requires { count ≤ 64 }
        ensures left { (file : World) → ⟦<WordBits as Bits>⟧.left result file ≡ low_bits count word }
        ensures answered { ⟦<WordBits as Bits>⟧.answered result ≡ [] }
    {
        WordBits {
            word,
            count,
            ended: false,
        }
    }
}

// The bit at a place of a word, the least significant of which is at 0.
fn bit_at(word: u64, place: u32) -> bool
    requires { place ≤ 63 }
    ensures { result ≡ (word / 2 ^ place % 2 == 1) }
{
    (word >> place) % 2 == 1
}

#[tactic(auto, using(zar_io::proofs::TraceLemmas::gone_on))]
impl Bits for WordBits {
    ghost answered = { λ s. [] };

    ghost left = { λ s file. low_bits s.count s.word };

    ghost ended = { λ s. s.ended };

    ghost broken = { λ s. false };

    ghost source = { λ s. 0 };

    ghost ready = { λ s. s.count };

    fn next(&mut self) -> Result<Option<bool>, Failed> {
        if self.count == 0 {
            self.ended = true;
            return Ok(None);
        }
        self.count -= 1;
        Ok(Some(bit_at(self.word, self.count)))
    }

    fn peek(&mut self) -> Ready {
        Ready {
            word: self.word,
            count: self.count,
        }
    }

    fn take(&mut self, count: u32) {
        self.count -= count;
    }
}
